ghost use Rattle.std.specs.Prelude.{◌≡◌, ℕ, [], List, Option, true};
ghost use Rattle.cd_cell.specs.Bags.{bag_trees};
ghost use Rattle.cd_cell.specs.Tree.{Tree};
ghost use Rattle.cd_boc_read.specs.Grammar.{Spells};
ghost use Rattle.cd_update.specs.UpdateTrees.{tree_of};
ghost use Rattle.cd_event.specs.Pins.{is_live};
ghost use Rattle.cd_feed.specs.declared.feed.Task.{Task};
ghost use Rattle.cd_feed.specs.Feeds.{IsTopsFit};
ghost use Rattle.cd_run.specs.Runs.{Did};
ghost use Rattle.cd_run.specs.Stages.{Stage};
ghost use Rattle.cd_run.specs.Merging.{named_as, IsPinned, PreparesBy, MergesBy};

use crate::gather::gather;
use crate::holdup::Holdup;
use crate::merge_words::{stop_of_merge, word_of_update};
use crate::outcome::Outcome;
use crate::parent::{at_of, let_go, pin_parent};
use crate::words::{Stop, end_of_stop, stop_of_bag, stop_of_prepare};
use crate::zero_task::copied;
use cd_base::Memory;
use cd_block::BlockId;
use cd_boc_read::read_bag;
use cd_cell::{Bag, Prepared};
use cd_event::{Pinned, Turns, Who};
use cd_prepare::prepare_update;
use cd_update::Update;
use std::alloc::Global;

/// The value of an update over the state of a pinned parent, by the cells that are looked up there.
fn prepare_over<T: Turns>(
    alloc: Global,
    turns: &mut T,
    who: Who,
    parent: &Pinned,
    update: &Update<'_, T::Hash>,
) -> Result<Prepared<T::Hash>, Stop>
    requires worker { T.worker turns.old ≡ who.worker }
    requires live { is_live parent.now.pin (T.made turns.old) ≡ true }
    ensures { (tree : Option Tree)
        → IsPinned T.Hash.digest_of (T.made turns.old) (T.named turns.old) parent.now tree
        → Stage T.worker T.faults T.made T.goes T.named []
        (PreparesBy T.Hash.digest_of who (named_as parent.now tree) (tree_of update.now) result)
        turns.old turns.new }
{
    let hashes = match update.wanted(alloc) {
        Ok(hashes) => hashes,
        Err(_) => return Err(Stop::Memory),
    };
    let faces = match gather(alloc, turns, who, parent.pin, &hashes) {
        Ok(faces) => faces,
        Err(stop) => return Err(stop),
    };
    match prepare_update(alloc, update, &parent.root, &faces) {
        Ok(prepared) => Ok(prepared),
        Err(fault) => Err(stop_of_prepare(fault)),
    }
}

/// Prepares an update over the state of a pinned parent, and merges it.
fn merge_over<T: Turns, P: Holdup>(
    alloc: Global,
    turns: &mut T,
    who: Who,
    parent: &Pinned,
    update: &Update<'_, T::Hash>,
    id: BlockId,
    tops: &[BlockId],
    holdup: &P,
) -> Result<Outcome, Stop>
    requires worker { T.worker turns.old ≡ who.worker }
    requires pinned { (tree : Option Tree)
        × IsPinned T.Hash.digest_of (T.made turns.old) (T.named turns.old) parent.now tree }
    requires tops { IsTopsFit id tops.now }
    ensures { (tree : Option Tree)
        → IsPinned T.Hash.digest_of (T.made turns.old) (T.named turns.old) parent.now tree
        → Stage T.worker T.faults T.made T.goes T.named []
        (MergesBy T.Hash.digest_of who (named_as parent.now tree) (tree_of update.now) id tops.now result)
        turns.old turns.new }
{
    let prepared = match prepare_over(alloc, turns, who, parent, update) {
        Ok(prepared) => prepared,
        Err(stop) => return Err(stop),
    };
    let copy = match copied(alloc, tops) {
        Ok(copy) => copy,
        Err(_) => return Err(Stop::Memory),
    };
    holdup.before_merge(who);
    let merged = turns.merge(at_of(who), parent.pin, None, id, copy, prepared);
    holdup.after_merge(who);
    match merged {
        Ok(stored) => Ok(Outcome::Block {
            root: stored.root,
            new: stored.cells,
        }),
        Err(fault) => Err(stop_of_merge(fault)),
    }
}

/// Stores a block by the update that its bag has.
fn store_block<T: Turns, P: Holdup>(
    alloc: Global,
    turns: &mut T,
    who: Who,
    id: BlockId,
    parent: BlockId,
    tops: &[BlockId],
    bag: &Bag<T::Hash>,
    holdup: &P,
) -> Result<Outcome, Memory>
    requires worker { T.worker turns.old ≡ who.worker }
    requires tops { IsTopsFit id tops.now }
    ensures { (bytes : List ℕ) → Spells T.Hash.digest_of bytes (bag_trees bag.now)
        → Did T.Hash.digest_of T.worker T.faults T.made T.goes T.named who
        (Task.Block id parent tops.now bytes) turns.old turns.new result }
{
    let update = match Update::of(bag) {
        Ok(update) => update,
        Err(fault) => return Ok(Outcome::Refused(word_of_update(fault))),
    };
    let pinned = match pin_parent(turns, who, parent) {
        Ok(pinned) => pinned,
        Err(stop) => return end_of_stop(stop),
    };
    match merge_over(alloc, turns, who, &pinned, &update, id, tops, holdup) {
        Ok(end) => Ok(end),
        Err(Stop::Memory) => Err(Memory),
        Err(Stop::Refused(why)) => match let_go(turns, who, pinned.pin) {
            Ok(()) => Ok(Outcome::Refused(why)),
            Err(fault) => Err(fault),
        },
    }
}

/// Stores a block over the state of its parent.
pub(crate) fn do_block<T: Turns, P: Holdup>(
    alloc: Global,
    turns: &mut T,
    who: Who,
    id: BlockId,
    parent: BlockId,
    tops: &[BlockId],
    bag: &[u8],
    holdup: &P,
) -> Result<Outcome, Memory>
    requires worker { T.worker turns.old ≡ who.worker }
    requires tops { IsTopsFit id tops.now }
    ensures { Did T.Hash.digest_of T.worker T.faults T.made T.goes T.named who
        (Task.Block id parent tops.now bag.now) turns.old turns.new result }
{
    let bag = match read_bag::<T::Hash>(alloc, bag) {
        Ok(bag) => bag,
        Err(fault) => return end_of_stop(stop_of_bag(fault)),
    };
    store_block(alloc, turns, who, id, parent, tops, &bag, holdup)
}
