//! What stops the task of a block, by the faults of its calls.
ghost use Rattle.std.specs.Prelude.{◌≡◌, ◌≢◌};
ghost use Rattle.std.specs.Option.{option_and_then};
ghost use Rattle.cd_event.specs.Replies.{pin_refusal, look_refusal, merge_refusal};
ghost use Rattle.cd_run.specs.Words.{word_of, update_word};
ghost use Rattle.cd_run.specs.Ends.{stopped};
ghost use Rattle.cd_run.specs.Merging.{unpin_end};

use crate::outcome::TaskRefusal;
use crate::words::Stop;
use cd_base::Memory;
use cd_event::{LookFault, MergeFault, PinFault, UnpinFault};
use cd_update::UpdateFault;

pub(crate) fn word_of_update(fault: UpdateFault) -> TaskRefusal
    ensures { result ≡ update_word fault }
{
    match fault {
        UpdateFault::NotUpdate => TaskRefusal::NotUpdate,
        UpdateFault::Level { .. } => TaskRefusal::Level,
    }
}

pub(crate) fn stop_of_pin(fault: PinFault) -> Stop
    ensures { result ≡ stopped (option_and_then word_of (pin_refusal fault)) }
{
    match fault {
        PinFault::UnknownBlock => Stop::Refused(TaskRefusal::UnknownBlock),
        PinFault::PinsFull => Stop::Refused(TaskRefusal::PinsFull),
        PinFault::Memory => Stop::Memory,
    }
}

/// A fault of a look under a live pin.
pub(crate) fn stop_of_look(fault: LookFault) -> Stop
    requires { fault ≢ LookFault.NoPin }
    ensures { result ≡ stopped (option_and_then word_of (look_refusal fault)) }
{
    match fault {
        LookFault::Keeper => Stop::Refused(TaskRefusal::Keeper),
        LookFault::Memory => Stop::Memory,
        LookFault::NoPin => unreachable!(),
    }
}

/// A fault of a merge with live pins, of a value that was prepared over their states.
pub(crate) fn stop_of_merge(fault: MergeFault) -> Stop
    requires pinned { fault ≢ MergeFault.NoPin }
    requires right { fault ≢ MergeFault.WrongPin }
    ensures { result ≡ stopped (option_and_then word_of (merge_refusal fault)) }
{
    match fault {
        MergeFault::Known => Stop::Refused(TaskRefusal::Known),
        MergeFault::Lineage(_) => Stop::Refused(TaskRefusal::Lineage),
        MergeFault::Clash { .. } => Stop::Refused(TaskRefusal::Clash),
        MergeFault::CountFull { .. } => Stop::Refused(TaskRefusal::CountFull),
        MergeFault::Keeper => Stop::Refused(TaskRefusal::Keeper),
        MergeFault::Memory => Stop::Memory,
        MergeFault::NoPin => unreachable!(),
        MergeFault::WrongPin => unreachable!(),
    }
}

/// A fault of the end of a live pin. One that the keeper fails isn't tried again.
pub(crate) fn end_of_unpin(fault: UnpinFault) -> Result<(), Memory>
    requires { fault ≢ UnpinFault.NoPin }
    ensures { result ≡ unpin_end fault }
{
    match fault {
        UnpinFault::Keeper => Ok(()),
        UnpinFault::Memory => Err(Memory),
        UnpinFault::NoPin => unreachable!(),
    }
}
