//! The pins of a block's parents.
ghost use Rattle.std.specs.Prelude.{◌≡◌, true, []};
ghost use Rattle.cd_event.specs.Pins.{is_live};
ghost use Rattle.cd_run.specs.Stages.{Stage};
ghost use Rattle.cd_run.specs.Merging.{PinsBy, UnpinsBy};

use crate::merge_words::{end_of_unpin, stop_of_pin};
use crate::words::Stop;
use cd_base::Memory;
use cd_block::BlockId;
use cd_event::{At, Pinned, Turns, Who};

/// Which of its worker's tasks it is.
pub(crate) fn at_of(who: Who) -> At
    ensures { result ≡ record { phase = who.phase; task = who.task } }
{
    At {
        phase: who.phase,
        task: who.task,
    }
}

/// Pins a parent.
pub(crate) fn pin_parent<T: Turns>(turns: &mut T, who: Who, id: BlockId) -> Result<Pinned, Stop>
    requires { T.worker turns.old ≡ who.worker }
    ensures { PinsBy T.Hash.digest_of T.worker T.faults T.made T.goes T.named who id
        turns.old turns.new result }
{
    match turns.pin(at_of(who), id) {
        Ok(pinned) => Ok(pinned),
        Err(fault) => Err(stop_of_pin(fault)),
    }
}

/// Ends a live pin. An unpin that the keeper fails isn't tried again.
pub(crate) fn let_go<T: Turns>(turns: &mut T, who: Who, pin: u64) -> Result<(), Memory>
    requires worker { T.worker turns.old ≡ who.worker }
    requires live { is_live pin (T.made turns.old) ≡ true }
    ensures { Stage T.worker T.faults T.made T.goes T.named [] (UnpinsBy who pin result)
        turns.old turns.new }
{
    match turns.unpin(at_of(who), pin) {
        Ok(_) => Ok(()),
        Err(fault) => end_of_unpin(fault),
    }
}
