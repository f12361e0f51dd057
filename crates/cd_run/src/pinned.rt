//! Tasks under one pin: how it comes, and how it ends.
ghost use Rattle.std.specs.Prelude.{◌≡◌, [], true, None, IfOk};
ghost use Rattle.cd_event.specs.Pins.{is_live, state_of};
ghost use Rattle.cd_event.specs.Replies.{who_of};
ghost use Rattle.cd_looks.specs.Answers.{IsRootOf};
ghost use Rattle.cd_run.specs.Stages.{Stage, PinsBy, LetGoBy, work_end};
ghost use Rattle.cd_run.specs.Runs.{let_go_end};

use crate::outcome::{Outcome, TaskRefusal};
use crate::words::Stop;
use cd_base::Memory;
use cd_block::BlockId;
use cd_event::{At, PinFault, Pinned, Turns, UnpinFault};

/// Why the work under a pin comes to no end of its own.
#[derive(Clone, Copy, Debug, PartialEq, Eq)]
pub(crate) enum Halt {
    /// The keeper failed a look.
    Keeper,
    Memory,
}

/// Pins the block of a task.
pub(crate) fn take_pin<T: Turns>(turns: &mut T, at: At, id: BlockId) -> Result<Pinned, Stop>
    ensures live { IfOk result (λ pinned. is_live pinned.pin (T.made turns.new) ≡ true) }
    ensures root { IfOk result (λ pinned.
        IsRootOf T.Hash.digest_of (state_of (T.named turns.new) pinned.pin) pinned.root) }
    ensures pinned { PinsBy T.worker T.faults T.made T.goes T.named
        (who_of at (T.worker turns.old)) id turns.old turns.new result }
{
    match turns.pin(at, id) {
        Ok(pinned) => Ok(pinned),
        Err(PinFault::UnknownBlock) => Err(Stop::Refused(TaskRefusal::UnknownBlock)),
        Err(PinFault::PinsFull) => Err(Stop::Refused(TaskRefusal::PinsFull)),
        Err(PinFault::Memory) => Err(Stop::Memory),
    }
}

/// The end of some work; none where memory ran out.
fn end_of_work(work: Result<Outcome, Halt>) -> Option<Outcome>
    ensures { result ≡ work_end work }
{
    match work {
        Ok(end) => Some(end),
        Err(Halt::Keeper) => Some(Outcome::Refused(TaskRefusal::Keeper)),
        Err(Halt::Memory) => None,
    }
}

/// The end of a task whose unpin the keeper refused: the first refusal.
fn refused_unpin(end: Outcome) -> Outcome
    ensures { result ≡ let_go_end end None }
{
    match end {
        Outcome::Refused(why) => Outcome::Refused(why),
        _ => Outcome::Refused(TaskRefusal::Keeper),
    }
}

/// Ends the pin of a task whose work is over, and so the task. Where memory ran out the pin stays.
pub(crate) fn let_go<T: Turns>(
    turns: &mut T,
    at: At,
    pin: u64,
    work: Result<Outcome, Halt>,
) -> Result<Outcome, Memory>
    requires { is_live pin (T.made turns.old) ≡ true }
    ensures { Stage T.worker T.faults T.made T.goes T.named []
        (λ es. LetGoBy (who_of at (T.worker turns.old)) pin (work_end work) es result) turns.old turns.new }
{
    let end = match end_of_work(work) {
        Some(end) => end,
        None => return Err(Memory),
    };
    match turns.unpin(at, pin) {
        Ok(_) => Ok(end),
        Err(UnpinFault::Keeper) => Ok(refused_unpin(end)),
        Err(UnpinFault::Memory) => Err(Memory),
        Err(UnpinFault::NoPin) => unreachable!(),
    }
}
