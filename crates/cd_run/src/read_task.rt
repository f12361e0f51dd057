ghost use Rattle.std.specs.Prelude.{◌≡◌, ◌≢◌, ◌≤◌, ◌+◌, ℕ, List, length, true, Err, Some, None, IfOk, IfSome};
ghost use Rattle.cd_cell.specs.GoodFace.{IsGoodFace};
ghost use Rattle.cd_cell.specs.Tree.{Tree};
ghost use Rattle.cd_event.specs.Pins.{is_live, state_of};
ghost use Rattle.cd_event.specs.Replies.{who_of};
ghost use Rattle.cd_event.specs.Turning.{HandsOn};
ghost use Rattle.cd_feed.specs.declared.feed.Task.{Task};
ghost use Rattle.cd_looks.specs.Answers.{AskedAtMost, IsRootOf};
ghost use Rattle.cd_reader.specs.Paths.{WalksTo, is_walk_failed};
ghost use Rattle.cd_run.specs.Finds.{ReadFinds};
ghost use Rattle.cd_run.specs.Runs.{Did};
ghost use Rattle.cd_run.specs.Stages.{LooksFor, is_halted};

use crate::outcome::{Outcome, TaskRefusal};
use crate::pinned::{Halt, let_go, take_pin};
use crate::words::end_of_stop;
use cd_base::Memory;
use cd_block::BlockId;
use cd_cell::{ChildInfo, Face, Hash32, face_info};
use cd_event::{At, LookFault, LookUp, PinLook, Pinned, Turns, Who};
use cd_reader::{Reader, WalkFault};
use std::alloc::Global;

/// What a walk comes to: the hash of the cell that it reached, or that there is none.
fn end_of_walk<H: Hash32>(found: Result<Face, WalkFault>) -> Result<Outcome, Halt>
    requires good { IfOk found IsGoodFace }
    requires only_keeper { (fault : LookFault) → found ≡ Err (WalkFault.Look fault) → fault ≡ LookFault.Keeper }
    ensures finds { (t : Tree) (path : List ℕ) → WalksTo H.digest_of t path found
        → IfOk result (ReadFinds H.digest_of path (Some t)) }
    ensures any { (path : List ℕ) → IfOk result (ReadFinds H.digest_of path None) }
    ensures halted { is_halted result ≡ is_walk_failed found }
{
    match found {
        Ok(face) => Ok(Outcome::Read {
            hash: face_info::<H>(&face).rep(),
        }),
        Err(WalkFault::NoChild { .. }) => Ok(Outcome::Refused(TaskRefusal::NoChild)),
        Err(WalkFault::Look(_)) => Err(Halt::Keeper),
        Err(WalkFault::Memory) => Err(Halt::Memory),
    }
}

/// Along a path through a reader, which hands the look back. Heights fall along a path, so room for one cell does.
fn read_in<L: LookUp>(
    alloc: Global,
    look: L,
    root: ChildInfo,
    path: &[u8],
) -> (L, Result<Outcome, Halt>)
    requires ready { L.ready look }
    requires root { IsRootOf L.Hash.digest_of (L.tree look) root }
    ensures ready { L.ready result.0 }
    ensures finds { IfOk result.1 (ReadFinds L.Hash.digest_of path.now (L.tree look)) }
    ensures asked { AskedAtMost (length path.now + 1) (L.asked look) (L.asked result.0) }
    ensures hands_on { HandsOn L.goes L.fails (is_halted result.1) look result.0 }
{
    match Reader::new(alloc, look, root, 1) {
        Ok(mut reader) => {
            let end = end_of_walk::<L::Hash>(reader.walk(path));
            (reader.into_look(), end)
        }
        Err((look, _)) => (look, Err(Halt::Memory)),
    }
}

/// The same under a pin. Looks that are handed back by themselves still tell their turns, so the end stands beside them.
fn read_looks<'a, T: Turns>(
    alloc: Global,
    look: PinLook<'a, T>,
    root: ChildInfo,
    path: &[u8],
    end: &mut Result<Outcome, Halt>,
) -> PinLook<'a, T>
    requires live { is_live look.pin (T.made look.turns.now) ≡ true }
    requires root { IsRootOf T.Hash.digest_of (state_of (T.named look.turns.now) look.pin) root }
    ensures same { result.turns.ghost_name ≡ look.entry.turns.ghost_name }
    ensures live { is_live look.entry.pin (T.made result.turns.now) ≡ true }
    ensures finds { IfOk end.new (ReadFinds T.Hash.digest_of path.now
        (state_of (T.named look.entry.turns.now) look.entry.pin)) }
    ensures asked { AskedAtMost (length path.now + 1) look.entry.asked result.asked }
    ensures looks { LooksFor T.worker T.faults T.made T.goes T.named (is_halted end.new)
        (who_of look.entry.at (T.worker look.entry.turns.now)) look.entry.pin
        look.entry.turns.now result.turns.now look.entry.asked result.asked }
{
    let (look, found) = read_in(alloc, look, root, path);
    *end = found;
    look
}

/// The hash of the cell to which a path leads, by looks under a pin.
fn read_pin<T: Turns>(
    alloc: Global,
    turns: &mut T,
    at: At,
    pinned: &Pinned,
    path: &[u8],
) -> Result<Outcome, Halt>
    requires live { is_live pinned.now.pin (T.made turns.old) ≡ true }
    requires root { IsRootOf T.Hash.digest_of (state_of (T.named turns.old) pinned.now.pin) pinned.now.root }
    ensures live { is_live pinned.now.pin (T.made turns.new) ≡ true }
    ensures finds { IfOk result
        (ReadFinds T.Hash.digest_of path.now (state_of (T.named turns.old) pinned.now.pin)) }
    ensures looks { (asked : ℕ) × AskedAtMost (length path.now + 1) 0 asked
        × LooksFor T.worker T.faults T.made T.goes T.named (is_halted result)
        (who_of at (T.worker turns.old)) pinned.now.pin turns.old turns.new 0 asked }
{
    let mut end = Err(Halt::Memory);
    let look = PinLook::new(turns, at, pinned.pin);
    let _look = read_looks(alloc, look, pinned.root, path, &mut end);
    end
}

/// Reads the hash of a cell of a block's state.
pub(crate) fn do_read<T: Turns>(
    alloc: Global,
    turns: &mut T,
    who: Who,
    id: BlockId,
    path: &[u8],
) -> Result<Outcome, Memory>
    requires worker { T.worker turns.old ≡ who.worker }
    requires short { length path.now ≤ 64 }
    ensures { Did T.Hash.digest_of T.worker T.faults T.made T.goes T.named who (Task.Read id path.now)
        turns.old turns.new result }
{
    let at = At {
        phase: who.phase,
        task: who.task,
    };
    let pinned = match take_pin(turns, at, id) {
        Ok(pinned) => pinned,
        Err(stop) => return end_of_stop(stop),
    };
    let end = read_pin(alloc, turns, at, &pinned, path);
    let_go(turns, at, pinned.pin, end)
}
