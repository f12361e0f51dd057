ghost use Rattle.std.specs.Prelude.{◌≡◌, ◌≤◌, ℕ, true, IfOk, IfSome, OnOk, OnErr};
ghost use Rattle.cd_boc_write.specs.Exports.{bag_of};
ghost use Rattle.cd_cell.specs.Tree.{Tree};
ghost use Rattle.cd_event.specs.Pins.{is_live, state_of};
ghost use Rattle.cd_event.specs.Replies.{who_of};
ghost use Rattle.cd_event.specs.Turning.{HandsOn};
ghost use Rattle.cd_feed.specs.declared.feed.Task.{Task};
ghost use Rattle.cd_looks.specs.Answers.{IsRootOf};
ghost use Rattle.cd_run.specs.Finds.{AreSlices, SliceFinds, sha_of};
ghost use Rattle.cd_run.specs.Runs.{Did};
ghost use Rattle.cd_run.specs.Stages.{LooksFor, is_halted};
ghost use Rattle.cd_slices.specs.Faults.{IsLookFault, is_slice_failed};
ghost use Rattle.cd_slices.specs.Planned.{IsPlanOfTree, text_len};

use crate::outcome::{Outcome, TaskRefusal};
use crate::pinned::{Halt, let_go, take_pin};
use crate::words::end_of_stop;
use cd_base::{Hash256, Memory};
use cd_block::BlockId;
use cd_cell::ChildInfo;
use cd_event::{At, LookUp, PinLook, Pinned, Turns, Who};
use cd_slices::{Export, MOST_SLICE, PlanFault, SliceFault};
use sha2::{Digest, Sha256};
use std::alloc::Global;

/// A whole text in slices: their number, and the SHA-256 of all of them.
#[derive(Clone, Copy)]
struct Sliced {
    slices: u64,
    sha: Hash256,
}

/// Cuts the text of an export from its begin to its end.
fn cut<L: LookUp>(
    alloc: Global,
    export: &Export,
    look: &mut L,
    max: u32,
) -> Result<Sliced, SliceFault>
    requires ready { L.ready look.old }
    requires some { 1 ≤ max }
    requires most { max ≤ MOST_SLICE }
    ensures ready { L.ready look.new }
    ensures slices { IfOk result (λ cut. AreSlices max (text_len export.now) cut.slices) }
    ensures sha { IfOk result (λ cut. (t : Tree) → L.tree look.old ≡ Some t
        → IsPlanOfTree L.Hash.digest_of t export.now → cut.sha ≡ sha_of (bag_of L.Hash.digest_of t)) }
    ensures no_refusal { IsLookFault result }
    ensures hands_on { HandsOn L.goes L.fails (is_slice_failed result) look.old look.new }
{
    let len = export.len();
    let mut hasher = Sha256::new();
    let mut offset = 0;
    let mut slices = 0;
    while offset < len {
        let piece = match export.slice(alloc, look, offset, max) {
            Ok(piece) => piece,
            Err(fault) => return Err(fault),
        };
        hasher.update(piece.as_slice());
        offset += piece.len() as u64;
        slices += 1;
    }
    Ok(Sliced {
        slices,
        sha: Hash256(hasher.finalize()),
    })
}

/// Plans the export of the look's state, and cuts it.
fn cut_export<L: LookUp>(
    alloc: Global,
    look: &mut L,
    root: &ChildInfo,
    max: u32,
) -> Result<Outcome, Halt>
    requires ready { L.ready look.old }
    requires root { IsRootOf L.Hash.digest_of (L.tree look.old) root.now }
    requires some { 1 ≤ max }
    requires most { max ≤ MOST_SLICE }
    ensures ready { L.ready look.new }
    ensures finds { IfOk result (SliceFinds L.Hash.digest_of max (L.tree look.old)) }
    ensures hands_on { HandsOn L.goes L.fails (is_halted result) look.old look.new }
{
    let export = match Export::plan(alloc, look, root) {
        Ok(export) => export,
        Err(PlanFault::TooMany { .. }) => return Ok(Outcome::Refused(TaskRefusal::TooMany)),
        Err(PlanFault::Look(_)) => return Err(Halt::Keeper),
        Err(PlanFault::Memory) => return Err(Halt::Memory),
    };
    match cut(alloc, &export, look, max) {
        Ok(cut) => Ok(Outcome::Slice {
            bytes: export.len(),
            slices: cut.slices,
            sha: cut.sha,
        }),
        Err(SliceFault::Look(_)) => Err(Halt::Keeper),
        Err(_) => Err(Halt::Memory),
    }
}

/// The same by looks under a pin.
fn cut_looks<T: Turns>(
    alloc: Global,
    look: &mut PinLook<'_, T>,
    root: &ChildInfo,
    max: u32,
) -> Result<Outcome, Halt>
    requires live { is_live look.old.pin (T.made look.old.turns.now) ≡ true }
    requires root { IsRootOf T.Hash.digest_of (state_of (T.named look.old.turns.now) look.old.pin) root.now }
    requires some { 1 ≤ max }
    requires most { max ≤ MOST_SLICE }
    ensures same { look.new.turns.ghost_name ≡ look.old.turns.ghost_name }
    ensures live { is_live look.old.pin (T.made look.new.turns.now) ≡ true }
    ensures finds { IfOk result (SliceFinds T.Hash.digest_of max
        (state_of (T.named look.old.turns.now) look.old.pin)) }
    ensures looks { LooksFor T.worker T.faults T.made T.goes T.named (is_halted result)
        (who_of look.old.at (T.worker look.old.turns.now)) look.old.pin
        look.old.turns.now look.new.turns.now look.old.asked look.new.asked }
{
    cut_export(alloc, look, root, max)
}

/// Cuts the export of a pin's state.
fn cut_pin<T: Turns>(
    alloc: Global,
    turns: &mut T,
    at: At,
    pinned: &Pinned,
    max: u32,
) -> Result<Outcome, Halt>
    requires live { is_live pinned.now.pin (T.made turns.old) ≡ true }
    requires root { IsRootOf T.Hash.digest_of (state_of (T.named turns.old) pinned.now.pin) pinned.now.root }
    requires some { 1 ≤ max }
    requires most { max ≤ MOST_SLICE }
    ensures live { is_live pinned.now.pin (T.made turns.new) ≡ true }
    ensures finds { IfOk result
        (SliceFinds T.Hash.digest_of max (state_of (T.named turns.old) pinned.now.pin)) }
    ensures looks { (asked : ℕ) × LooksFor T.worker T.faults T.made T.goes T.named (is_halted result)
        (who_of at (T.worker turns.old)) pinned.now.pin turns.old turns.new 0 asked }
{
    let mut look = PinLook::new(turns, at, pinned.pin);
    cut_looks(alloc, &mut look, &pinned.root, max)
}

/// Cuts the export of a block's state into slices.
pub(crate) fn do_slice<T: Turns>(
    alloc: Global,
    turns: &mut T,
    who: Who,
    id: BlockId,
    max: u32,
) -> Result<Outcome, Memory>
    requires worker { T.worker turns.old ≡ who.worker }
    requires some { 1 ≤ max }
    requires most { max ≤ MOST_SLICE }
    ensures { Did T.Hash.digest_of T.worker T.faults T.made T.goes T.named who (Task.Slice id max)
        turns.old turns.new result }
{
    let at = At {
        phase: who.phase,
        task: who.task,
    };
    let pinned = match take_pin(turns, at, id) {
        Ok(pinned) => pinned,
        Err(stop) => return end_of_stop(stop),
    };
    let end = cut_pin(alloc, turns, at, &pinned, max);
    let_go(turns, at, pinned.pin, end)
}
