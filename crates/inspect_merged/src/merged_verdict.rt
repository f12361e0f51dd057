ghost use Rattle.std.specs.Prelude.{◌≡◌, ℕ, List, ◌∷◌, [], IfOk};
ghost use Rattle.cd_boc_read.specs.Grammar.{Spells};
ghost use Rattle.cd_update.specs.Pairing.{wanted_hashes_below};
ghost use Rattle.cd_update.specs.UpdateTrees.{tree_of};
ghost use Rattle.cd_prepare.specs.States.{Answers};
ghost use Rattle.cd_prepare.specs.Merged.{merged_fault, IsMergeApplied};
ghost use Rattle.inspect_updates.specs.OldStates.{state_of};
ghost use Rattle.inspect_merged.specs.MergedVerdicts.{IsTrueOverBoth};

use crate::both::BothStates;
use cd_base::Hash256;
use cd_boc_read::{BagFault, read_bag};
use cd_cell::{Hash32, Prepared};
use cd_prepare::{PrepareFault, prepare_merged};
use cd_update::Update;
use inspect_updates::{Refusal, UpdateVerdict};
use std::alloc::{AllocError, Global};

/// The prepared value of an update over the joined tree of two states, which have the faces beside the hashes wanted
/// below its root.
fn prepare<H: Hash32>(
    alloc: Global,
    both: &BothStates<H>,
    update: &Update<'_, H>,
    wanted: &[Hash256],
) -> Result<Prepared<H>, PrepareFault>
    requires { wanted.now ≡ wanted_hashes_below H.digest_of (tree_of update.now) }
    ensures exact { Answers (merged_fault H.digest_of (tree_of update.now)
        (state_of H.digest_of both.now.left.whole) (state_of H.digest_of both.now.right.whole)) result }
    ensures applied { IfOk result (λ value. IsMergeApplied H.digest_of (tree_of update.now)
        (state_of H.digest_of both.now.left.whole) (state_of H.digest_of both.now.right.whole)
        value.root value.cells) }
{
    match both.faces(alloc, wanted) {
        Ok(faces) => prepare_merged(
            alloc,
            update,
            both.left.whole.root(),
            both.right.whole.root(),
            &faces,
        ),
        Err(_) => Err(PrepareFault::Memory),
    }
}

/// What is said of an update over the joined tree of two states, unless memory runs out.
fn prepared_verdict<H: Hash32>(
    alloc: Global,
    both: &BothStates<H>,
    update: &Update<'_, H>,
) -> Result<UpdateVerdict, AllocError>
    ensures { (bytes : List ℕ) → Spells H.digest_of bytes (tree_of update.now ∷ [])
        → IfOk result (IsTrueOverBoth H.digest_of (state_of H.digest_of both.now.left.whole)
        (state_of H.digest_of both.now.right.whole) bytes) }
{
    let Ok(wanted) = update.wanted_below(alloc) else {
        return Err(AllocError);
    };
    match prepare(alloc, both, update, &wanted) {
        Ok(value) => Ok(UpdateVerdict::Good {
            shown: wanted.len(),
            new: value.cells().len(),
            root: value.root().rep(),
        }),
        Err(PrepareFault::Memory) => Err(AllocError),
        Err(fault) => Ok(UpdateVerdict::Refused(Refusal::Prepare(fault))),
    }
}

/// What is said of bytes as an update of the joined tree of two states, unless memory runs out. The cells that are shown
/// are those below the joined one.
pub fn merged_verdict_of<H: Hash32>(
    alloc: Global,
    both: &BothStates<H>,
    bytes: &[u8],
) -> Result<UpdateVerdict, AllocError>
    ensures { IfOk result (IsTrueOverBoth H.digest_of (state_of H.digest_of both.now.left.whole)
        (state_of H.digest_of both.now.right.whole) bytes.now) }
{
    let bag = match read_bag::<H>(alloc, bytes) {
        Ok(bag) => bag,
        Err(BagFault::Memory) => return Err(AllocError),
        Err(fault) => return Ok(UpdateVerdict::Refused(Refusal::Bag(fault))),
    };
    match Update::of(&bag) {
        Ok(update) => prepared_verdict(alloc, both, &update),
        Err(fault) => Ok(UpdateVerdict::Refused(Refusal::Update(fault))),
    }
}
