ghost use Rattle.std.specs.Prelude.{◌≡◌, IfOk};
ghost use Rattle.cd_feed.specs.declared.feed.Task.{Task};
ghost use Rattle.cd_feed.specs.Feeds.{IsTopsFit};
ghost use Rattle.cd_run.specs.Runs.{Did};
ghost use Rattle.cd_run.specs.Stages.{StateBy};

use crate::outcome::Outcome;
use crate::words::{Stop, end_of_stop, end_of_zero, stop_of_bag, stop_of_prepare};
use cd_base::Memory;
use cd_block::{BlockId, BlockIds};
use cd_boc_read::read_bag;
use cd_cell::{Hash32, Prepared};
use cd_event::{At, Turns, Who};
use cd_prepare::prepare_zero;
use std::alloc::{AllocError, Global};

/// A copy of some tops.
pub(crate) fn copied(alloc: Global, tops: &[BlockId]) -> Result<BlockIds, AllocError>
    ensures { IfOk result (λ copy. copy ≡ tops.now) }
{
    Ok(BlockIds::from(tops.to_vec(alloc)?))
}

/// The value of the state that these bytes are a bag of.
fn prepare_state<H: Hash32>(alloc: Global, bytes: &[u8]) -> Result<Prepared<H>, Stop>
    ensures { StateBy H.digest_of bytes.now result }
{
    let bag = match read_bag::<H>(alloc, bytes) {
        Ok(bag) => bag,
        Err(fault) => return Err(stop_of_bag(fault)),
    };
    match prepare_zero(alloc, &bag) {
        Ok(prepared) => Ok(prepared),
        Err(fault) => Err(stop_of_prepare(fault)),
    }
}

/// Stores a zero state.
pub(crate) fn do_zero<T: Turns>(
    alloc: Global,
    turns: &mut T,
    who: Who,
    id: BlockId,
    tops: &[BlockId],
    bag: &[u8],
) -> Result<Outcome, Memory>
    requires worker { T.worker turns.old ≡ who.worker }
    requires tops { IsTopsFit id tops.now }
    ensures { Did T.Hash.digest_of T.worker T.faults T.made T.goes T.named who
        (Task.Zero id tops.now bag.now) turns.old turns.new result }
{
    let prepared = match prepare_state::<T::Hash>(alloc, bag) {
        Ok(prepared) => prepared,
        Err(stop) => return end_of_stop(stop),
    };
    let copy = match copied(alloc, tops) {
        Ok(copy) => copy,
        Err(_) => return Err(Memory),
    };
    let at = At {
        phase: who.phase,
        task: who.task,
    };
    match turns.zero(at, id, copy, prepared) {
        Ok(stored) => Ok(Outcome::Zero {
            root: stored.root,
            cells: stored.cells,
        }),
        Err(fault) => end_of_zero(fault),
    }
}
