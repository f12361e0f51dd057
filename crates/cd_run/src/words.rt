//! Faults as words of the report.
ghost use Rattle.std.specs.Prelude.{◌≡◌};
ghost use Rattle.std.specs.Option.{option_and_then};
ghost use Rattle.cd_event.specs.Replies.{zero_refusal, expire_refusal};
ghost use Rattle.cd_run.specs.Words.{word_of, prepare_word};
ghost use Rattle.cd_run.specs.Ends.{ended, stopped, stop_end, IsBagStop};

use crate::outcome::{Outcome, TaskRefusal};
use cd_base::Memory;
use cd_boc_read::BagFault;
use cd_event::{ExpireFault, ZeroFault};
use cd_prepare::PrepareFault;

/// Why a task goes no further.
#[derive(Clone, Copy, Debug, PartialEq, Eq)]
pub(crate) enum Stop {
    Refused(TaskRefusal),
    Memory,
}

pub(crate) fn end_of_stop(stop: Stop) -> Result<Outcome, Memory>
    ensures { result ≡ stop_end stop }
{
    match stop {
        Stop::Refused(why) => Ok(Outcome::Refused(why)),
        Stop::Memory => Err(Memory),
    }
}

pub(crate) fn stop_of_bag(fault: BagFault) -> Stop
    ensures { IsBagStop fault result }
{
    match fault {
        BagFault::Memory => Stop::Memory,
        _ => Stop::Refused(TaskRefusal::Bag),
    }
}

pub(crate) fn stop_of_prepare(fault: PrepareFault) -> Stop
    ensures { result ≡ stopped (prepare_word fault) }
{
    match fault {
        PrepareFault::Roots { .. } => Stop::Refused(TaskRefusal::Roots),
        PrepareFault::Level { .. } => Stop::Refused(TaskRefusal::Level),
        PrepareFault::OldHash { .. } => Stop::Refused(TaskRefusal::OldHash),
        PrepareFault::OldDepth { .. } => Stop::Refused(TaskRefusal::OldDepth),
        PrepareFault::OldHalf { .. } => Stop::Refused(TaskRefusal::OldHalf),
        PrepareFault::Foreign { .. } => Stop::Refused(TaskRefusal::Foreign),
        PrepareFault::NewClash { .. } => Stop::Refused(TaskRefusal::NewClash),
        PrepareFault::SplitDeep { .. } => Stop::Refused(TaskRefusal::SplitDeep),
        PrepareFault::Memory => Stop::Memory,
    }
}

pub(crate) fn end_of_zero(fault: ZeroFault) -> Result<Outcome, Memory>
    ensures { result ≡ ended (option_and_then word_of (zero_refusal fault)) }
{
    match fault {
        ZeroFault::Known => Ok(Outcome::Refused(TaskRefusal::Known)),
        ZeroFault::Lineage(_) => Ok(Outcome::Refused(TaskRefusal::Lineage)),
        ZeroFault::ZeroHash { .. } => Ok(Outcome::Refused(TaskRefusal::ZeroHash)),
        ZeroFault::Clash { .. } => Ok(Outcome::Refused(TaskRefusal::Clash)),
        ZeroFault::CountFull { .. } => Ok(Outcome::Refused(TaskRefusal::CountFull)),
        ZeroFault::Keeper => Ok(Outcome::Refused(TaskRefusal::Keeper)),
        ZeroFault::Memory => Err(Memory),
    }
}

pub(crate) fn end_of_expire(fault: ExpireFault) -> Result<Outcome, Memory>
    ensures { result ≡ ended (option_and_then word_of (expire_refusal fault)) }
{
    match fault {
        ExpireFault::UnknownBlock => Ok(Outcome::Refused(TaskRefusal::UnknownBlock)),
        ExpireFault::NotMaster => Ok(Outcome::Refused(TaskRefusal::NotMaster)),
        ExpireFault::TopMissing { .. } => Ok(Outcome::Refused(TaskRefusal::TopMissing)),
        ExpireFault::Keeper => Ok(Outcome::Refused(TaskRefusal::Keeper)),
        ExpireFault::Memory => Err(Memory),
    }
}
