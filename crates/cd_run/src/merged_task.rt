ghost use Rattle.std.specs.Prelude.{◌≡◌, ℕ, [], List, Option, true};
ghost use Rattle.cd_cell.specs.Bags.{bag_trees};
ghost use Rattle.cd_boc_read.specs.Grammar.{Spells};
ghost use Rattle.cd_update.specs.UpdateTrees.{tree_of};
ghost use Rattle.cd_cell.specs.Tree.{Tree};
ghost use Rattle.cd_feed.specs.declared.feed.Task.{Task};
ghost use Rattle.cd_feed.specs.Feeds.{IsTopsFit};
ghost use Rattle.cd_run.specs.Runs.{Did};
ghost use Rattle.cd_run.specs.Stages.{Stage};
ghost use Rattle.cd_run.specs.Merging.{named_as};
ghost use Rattle.cd_run.specs.Joining.{ArePinned, PinsBoth, UnpinsBoth, KeepsFaces, FillsFaces, PreparesBoth, JoinsBy};

use crate::gather::gather;
use crate::holdup::Holdup;
use crate::merge_words::{stop_of_merge, word_of_update};
use crate::outcome::Outcome;
use crate::parent::{at_of, let_go, pin_parent};
use crate::words::{Stop, end_of_stop, stop_of_bag, stop_of_prepare};
use crate::zero_task::copied;
use cd_base::Memory;
use cd_block::BlockId;
use cd_boc_read::read_bag;
use cd_cell::{Bag, Face, Prepared};
use cd_event::{Pinned, Turns, Who};
use cd_prepare::prepare_merged;
use cd_update::Update;
use std::alloc::Global;

/// The pins of both parents.
#[derive(Clone, Copy)]
pub(crate) struct Parents {
    pub left: Pinned,
    pub right: Pinned,
}

/// Pins the left parent and then the right one. The left pin is ended again where there is no right one.
fn pin_both<T: Turns>(
    turns: &mut T,
    who: Who,
    left: BlockId,
    right: BlockId,
) -> Result<Parents, Stop>
    requires { T.worker turns.old ≡ who.worker }
    ensures { PinsBoth T.Hash.digest_of T.worker T.faults T.made T.goes T.named who left right
        turns.old turns.new result }
{
    let first = match pin_parent(turns, who, left) {
        Ok(first) => first,
        Err(stop) => return Err(stop),
    };
    match pin_parent(turns, who, right) {
        Ok(second) => Ok(Parents {
            left: first,
            right: second,
        }),
        Err(Stop::Memory) => Err(Stop::Memory),
        Err(Stop::Refused(why)) => match let_go(turns, who, first.pin) {
            Ok(()) => Err(Stop::Refused(why)),
            Err(_) => Err(Stop::Memory),
        },
    }
}

/// Ends both pins, the left one first. The second is ended too where the keeper fails the first unpin.
fn let_both_go<T: Turns>(turns: &mut T, who: Who, parents: &Parents) -> Result<(), Memory>
    requires worker { T.worker turns.old ≡ who.worker }
    requires pinned { (a : Option Tree) × ((b : Option Tree)
        × ArePinned T.Hash.digest_of (T.made turns.old) (T.named turns.old) parents.now a b) }
    ensures { Stage T.worker T.faults T.made T.goes T.named [] (UnpinsBoth who parents.now result)
        turns.old turns.new }
{
    match let_go(turns, who, parents.left.pin) {
        Ok(()) => let_go(turns, who, parents.right.pin),
        Err(fault) => Err(fault),
    }
}

/// Puts what was found elsewhere where nothing was found here.
fn fill(faces: &mut [Option<Face>], others: &[Option<Face>])
    ensures keeps { KeepsFaces faces.old faces.new }
    ensures fills { FillsFaces faces.old others.now faces.new }
{
    for place in 0..faces.len().min(others.len()) {
        if faces[place].is_none() {
            faces[place] = others[place];
        }
    }
}

/// The value of an update over the joined state of two pinned parents, by the cells that are looked up in both.
fn prepare_joined<T: Turns>(
    alloc: Global,
    turns: &mut T,
    who: Who,
    parents: &Parents,
    update: &Update<'_, T::Hash>,
) -> Result<Prepared<T::Hash>, Stop>
    requires worker { T.worker turns.old ≡ who.worker }
    requires pinned { (a : Option Tree) × ((b : Option Tree)
        × ArePinned T.Hash.digest_of (T.made turns.old) (T.named turns.old) parents.now a b) }
    ensures { (a b : Option Tree)
        → ArePinned T.Hash.digest_of (T.made turns.old) (T.named turns.old) parents.now a b
        → Stage T.worker T.faults T.made T.goes T.named []
        (PreparesBoth T.Hash.digest_of who (named_as parents.now.left a) (named_as parents.now.right b)
        (tree_of update.now) result) turns.old turns.new }
{
    let hashes = match update.wanted_below(alloc) {
        Ok(hashes) => hashes,
        Err(_) => return Err(Stop::Memory),
    };
    let mut faces = match gather(alloc, turns, who, parents.left.pin, &hashes) {
        Ok(faces) => faces,
        Err(stop) => return Err(stop),
    };
    let others = match gather(alloc, turns, who, parents.right.pin, &hashes) {
        Ok(others) => others,
        Err(stop) => return Err(stop),
    };
    fill(&mut faces, &others);
    match prepare_merged(
        alloc,
        update,
        &parents.left.root,
        &parents.right.root,
        &faces,
    ) {
        Ok(prepared) => Ok(prepared),
        Err(fault) => Err(stop_of_prepare(fault)),
    }
}

/// Prepares an update over the joined state of two pinned parents, and merges it.
fn join_over<T: Turns, P: Holdup>(
    alloc: Global,
    turns: &mut T,
    who: Who,
    parents: &Parents,
    update: &Update<'_, T::Hash>,
    id: BlockId,
    tops: &[BlockId],
    holdup: &P,
) -> Result<Outcome, Stop>
    requires worker { T.worker turns.old ≡ who.worker }
    requires pinned { (a : Option Tree) × ((b : Option Tree)
        × ArePinned T.Hash.digest_of (T.made turns.old) (T.named turns.old) parents.now a b) }
    requires tops { IsTopsFit id tops.now }
    ensures { (a b : Option Tree)
        → ArePinned T.Hash.digest_of (T.made turns.old) (T.named turns.old) parents.now a b
        → Stage T.worker T.faults T.made T.goes T.named []
        (JoinsBy T.Hash.digest_of who (named_as parents.now.left a) (named_as parents.now.right b)
        (tree_of update.now) id tops.now result) turns.old turns.new }
{
    let prepared = match prepare_joined(alloc, turns, who, parents, update) {
        Ok(prepared) => prepared,
        Err(stop) => return Err(stop),
    };
    let copy = match copied(alloc, tops) {
        Ok(copy) => copy,
        Err(_) => return Err(Stop::Memory),
    };
    holdup.before_merge(who);
    let other = Some(parents.right.pin);
    let merged = turns.merge(at_of(who), parents.left.pin, other, id, copy, prepared);
    holdup.after_merge(who);
    match merged {
        Ok(stored) => Ok(Outcome::Merged {
            root: stored.root,
            new: stored.cells,
        }),
        Err(fault) => Err(stop_of_merge(fault)),
    }
}

/// Stores a block by the update that its bag has.
fn store_merged<T: Turns, P: Holdup>(
    alloc: Global,
    turns: &mut T,
    who: Who,
    id: BlockId,
    left: BlockId,
    right: BlockId,
    tops: &[BlockId],
    bag: &Bag<T::Hash>,
    holdup: &P,
) -> Result<Outcome, Memory>
    requires worker { T.worker turns.old ≡ who.worker }
    requires tops { IsTopsFit id tops.now }
    ensures { (bytes : List ℕ) → Spells T.Hash.digest_of bytes (bag_trees bag.now)
        → Did T.Hash.digest_of T.worker T.faults T.made T.goes T.named who
        (Task.Merged id left right tops.now bytes) turns.old turns.new result }
{
    let update = match Update::of(bag) {
        Ok(update) => update,
        Err(fault) => return Ok(Outcome::Refused(word_of_update(fault))),
    };
    let parents = match pin_both(turns, who, left, right) {
        Ok(parents) => parents,
        Err(stop) => return end_of_stop(stop),
    };
    match join_over(alloc, turns, who, &parents, &update, id, tops, holdup) {
        Ok(end) => Ok(end),
        Err(Stop::Memory) => Err(Memory),
        Err(Stop::Refused(why)) => match let_both_go(turns, who, &parents) {
            Ok(()) => Ok(Outcome::Refused(why)),
            Err(fault) => Err(fault),
        },
    }
}

/// Stores a block over the joined state of its two parents, the left half of the shard first.
pub(crate) fn do_merged<T: Turns, P: Holdup>(
    alloc: Global,
    turns: &mut T,
    who: Who,
    id: BlockId,
    left: BlockId,
    right: BlockId,
    tops: &[BlockId],
    bag: &[u8],
    holdup: &P,
) -> Result<Outcome, Memory>
    requires worker { T.worker turns.old ≡ who.worker }
    requires tops { IsTopsFit id tops.now }
    ensures { Did T.Hash.digest_of T.worker T.faults T.made T.goes T.named who
        (Task.Merged id left right tops.now bag.now) turns.old turns.new result }
{
    let bag = match read_bag::<T::Hash>(alloc, bag) {
        Ok(bag) => bag,
        Err(fault) => return end_of_stop(stop_of_bag(fault)),
    };
    store_merged(alloc, turns, who, id, left, right, tops, &bag, holdup)
}
