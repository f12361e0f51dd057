ghost use Rattle.std.specs.Prelude.{◌≡◌, ℕ, List, ◌∷◌, [], IfOk};
ghost use Rattle.cd_boc_read.specs.Grammar.{Spells};
ghost use Rattle.cd_update.specs.Pairing.{wanted_hashes};
ghost use Rattle.cd_update.specs.UpdateTrees.{tree_of};
ghost use Rattle.cd_prepare.specs.States.{Answers};
ghost use Rattle.cd_prepare.specs.Applied.{update_fault, IsUpdateApplied};
ghost use Rattle.inspect_updates.specs.OldStates.{state_of};
ghost use Rattle.inspect_updates.specs.UpdateVerdicts.{IsTrueOver};

use crate::old_state::OldState;
use crate::refusal::Refusal;
use cd_base::Hash256;
use cd_boc_read::{BagFault, read_bag};
use cd_cell::{Hash32, Prepared};
use cd_prepare::{PrepareFault, prepare_update};
use cd_update::Update;
use std::alloc::{AllocError, Global};
use std::fmt;

/// What is said of bytes over an old state.
#[derive(Clone, Copy, Debug, PartialEq, Eq)]
pub enum UpdateVerdict {
    /// They are an update of it, which shows so many of its cells and brings so many new ones.
    Good {
        shown: usize,
        new: usize,
        /// The hash of the new root.
        root: Hash256,
    },
    /// They are none, for this reason.
    Refused(Refusal),
}

/// The prepared value of an update over an old state, which has the faces beside the wanted hashes.
fn prepare<H: Hash32>(
    alloc: Global,
    state: &OldState<H>,
    update: &Update<'_, H>,
    wanted: &[Hash256],
) -> Result<Prepared<H>, PrepareFault>
    requires { wanted.now ≡ wanted_hashes H.digest_of (tree_of update.now) }
    ensures exact { Answers
        (update_fault H.digest_of (tree_of update.now) (state_of H.digest_of state.now.whole)) result }
    ensures applied { IfOk result (λ value.
        IsUpdateApplied H.digest_of (tree_of update.now) (state_of H.digest_of state.now.whole)
        value.root value.cells) }
{
    match state.faces(alloc, wanted) {
        Ok(faces) => prepare_update(alloc, update, state.whole.root(), &faces),
        Err(_) => Err(PrepareFault::Memory),
    }
}

/// What is said of an update over an old state, unless memory runs out.
fn prepared_verdict<H: Hash32>(
    alloc: Global,
    state: &OldState<H>,
    update: &Update<'_, H>,
) -> Result<UpdateVerdict, AllocError>
    ensures { (bytes : List ℕ) → Spells H.digest_of bytes (tree_of update.now ∷ [])
        → IfOk result (IsTrueOver H.digest_of (state_of H.digest_of state.now.whole) bytes) }
{
    let Ok(wanted) = update.wanted(alloc) else {
        return Err(AllocError);
    };
    match prepare(alloc, state, update, &wanted) {
        Ok(value) => Ok(UpdateVerdict::Good {
            shown: wanted.len(),
            new: value.cells().len(),
            root: value.root().rep(),
        }),
        Err(PrepareFault::Memory) => Err(AllocError),
        Err(fault) => Ok(UpdateVerdict::Refused(Refusal::Prepare(fault))),
    }
}

/// What is said of bytes over an old state, unless memory runs out.
pub fn update_verdict_of<H: Hash32>(
    alloc: Global,
    state: &OldState<H>,
    bytes: &[u8],
) -> Result<UpdateVerdict, AllocError>
    ensures { IfOk result (IsTrueOver H.digest_of (state_of H.digest_of state.now.whole) bytes.now) }
{
    let bag = match read_bag::<H>(alloc, bytes) {
        Ok(bag) => bag,
        Err(BagFault::Memory) => return Err(AllocError),
        Err(fault) => return Ok(UpdateVerdict::Refused(Refusal::Bag(fault))),
    };
    match Update::of(&bag) {
        Ok(update) => prepared_verdict(alloc, state, &update),
        Err(fault) => Ok(UpdateVerdict::Refused(Refusal::Update(fault))),
    }
}

impl fmt::Display for UpdateVerdict {
    ghost use Rattle.inspect_updates.specs.UpdateTexts.{update_text};

    ghost output = { update_text };

    fn fmt<W: fmt::Write>(&self, f: &mut fmt::Formatter<W>) -> fmt::Result {
        match self {
            UpdateVerdict::Good { shown, new, root } => {
                write!(f, "ok shown {shown} new {new} root {root}")
            }
            UpdateVerdict::Refused(refusal) => refusal.fmt(f),
        }
    }
}
