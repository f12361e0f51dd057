ghost use Rattle.std.specs.Prelude.{◌≡◌, ◌<◌, ◌++◌, ℕ, true, List, map, Some, None, IfOk, MatchResult};
ghost use Rattle.cd_base.specs.declared.hash.Hash256.{Hash256};
ghost use Rattle.cd_cell.specs.Infos.{info_depth, rep_of_info};
ghost use Rattle.cd_cell.specs.Levels.{info_of_face};
ghost use Rattle.cd_cell.specs.GoodFace.{IsGoodFace};
ghost use Rattle.cd_cell.specs.Tree.{Tree, info_of, face_of};
ghost use Rattle.cd_cell.specs.Listings.{IsValid};
ghost use Rattle.cd_cell.specs.Joined.{joined_tree, joined_face};
ghost use Rattle.cd_update.specs.Hides.{hides};
ghost use Rattle.cd_update.specs.Pairing.{upto};
ghost use Rattle.cd_update.specs.UpdateTrees.{tree_of, new_half_of};
ghost use Rattle.cd_prepare.specs.States.{Answers};
ghost use Rattle.cd_prepare.specs.Applied.{stated_old, stated_new};
ghost use Rattle.cd_prepare.specs.Merged.{split_of, deep_fault, listed_if, split_fault, merged_fault, AreOfBoth, IsMergeApplied};

use crate::PrepareFault;
use crate::update::new_cells;
use cd_base::Memory;
use cd_cell::{
    ChildInfo, Face, GREATEST_DEPTH, Hash32, Listed, Mask, Prepared, face_info, split_face,
};
use cd_update::{Grafted, Update, graft, pair_below};
use std::alloc::Global;

/// The root of the joined tree of two states, by its face and what it shows.
#[derive(Clone, Copy)]
struct Split {
    face: Face,
    info: ChildInfo,
}

/// What a state shows at level 0, at each level.
fn at_level_0(info: &ChildInfo) -> ChildInfo
    ensures { result ≡ upto 0 info.now }
{
    ChildInfo {
        mask: Mask::NONE,
        hashes: [info.hash_at(0); 4],
        depths: [info.depth_at(0); 4],
    }
}

/// The joined cell of two states, which is hashed here, once.
fn split_over<H: Hash32>(left: &ChildInfo, right: &ChildInfo) -> Result<Split, PrepareFault>
    ensures deep { MatchResult result (λ _. deep_fault left.now right.now ≡ None)
        (λ fault. deep_fault left.now right.now ≡ Some fault) }
    ensures face { IfOk result (λ split. split.face ≡ split_of left.now right.now) }
    ensures good { IfOk result (λ split. IsGoodFace split.face) }
    ensures info { IfOk result (λ split. split.info ≡ info_of_face H.digest_of split.face) }
{
    let depth = u32::from(left.depth_at(0).max(right.depth_at(0))) + 1;
    if depth > GREATEST_DEPTH {
        return Err(PrepareFault::SplitDeep { depth });
    }
    let face = split_face(&at_level_0(left), &at_level_0(right));
    let info = face_info::<H>(&face);
    Ok(Split { face, info })
}

/// A cell more behind the own ones.
fn with_cell(new: Grafted, split: &Split) -> Result<Grafted, Memory>
    ensures root { IfOk result (λ all. all.root ≡ new.root) }
    ensures cells { IfOk result (λ all. all.cells ≡ new.cells ++ listed_if true split.now.face) }
    ensures infos { IfOk result (λ all. all.infos ≡ new.infos ++ listed_if true split.now.info) }
{
    let mut cells = new.cells.into_vec();
    let mut infos = new.infos.into_vec();
    cells.push(split.face)?;
    infos.push(split.info)?;
    Ok(Grafted {
        root: new.root,
        cells: Listed::from(cells),
        infos: Listed::from(infos),
    })
}

/// The own cells of an update, and the joined cell behind them where the new half hides it.
fn with_split<H: Hash32>(
    alloc: Global,
    update: &Update<'_, H>,
    new: Grafted,
    split: &Split,
) -> Result<Grafted, Memory>
    requires info { split.now.info ≡ info_of_face H.digest_of split.now.face }
    requires infos { new.infos ≡ map (info_of_face H.digest_of) new.cells }
    ensures root { IfOk result (λ all. all.root ≡ new.root) }
    ensures cells { IfOk result (λ all. all.cells
        ≡ new.cells ++ listed_if (hides H.digest_of split.now.info (new_half_of update.now)) split.now.face) }
    ensures infos { IfOk result (λ all. all.infos ≡ map (info_of_face H.digest_of) all.cells) }
{
    match update.hides(alloc, &split.info) {
        Ok(true) => with_cell(new, split),
        Ok(false) => Ok(new),
        Err(fault) => Err(fault),
    }
}

/// The prepared value of an update over the joined tree of two states, as a block has it whose parents are those of two
/// merged shards: its new cells, and the joined cell where the new tree has it; no store needs to have that. `left` and
/// `right` are what the roots of both states show, and `faces` has for each hash that the update wants below its root the
/// face that was found for it. A state has mask 0, so nothing is read of a level above 0.
pub fn prepare_merged<H: Hash32>(
    alloc: Global,
    update: &Update<'_, H>,
    left: &ChildInfo,
    right: &ChildInfo,
    faces: &[Option<Face>],
) -> Result<Prepared<H>, PrepareFault>
    ensures old { IfOk result (λ value. value.old ≡ Some (stated_old H.digest_of (tree_of update.now))) }
    ensures rep { IfOk result (λ value. rep_of_info value.root ≡ stated_new H.digest_of (tree_of update.now)) }
    ensures refused { Answers (split_fault H.digest_of (tree_of update.now) left.now right.now faces.now) result }

    // Over the trees of two states the answer is that of their joined tree.
    ensures exact { (a b : Tree) → AreOfBoth H.digest_of (tree_of update.now) a b left.now right.now faces.now
        → Answers (merged_fault H.digest_of (tree_of update.now) a b) result }
    ensures applied { (a b : Tree) → AreOfBoth H.digest_of (tree_of update.now) a b left.now right.now faces.now
        → IfOk result (λ value. IsMergeApplied H.digest_of (tree_of update.now) a b value.root value.cells) }

    // What is prepared keeps what every prepared value does.
    ensures valid { IfOk result (λ value. IsValid H.digest_of value.root value.cells) }
{
    let split = match split_over::<H>(left, right) {
        Ok(split) => split,
        Err(fault) => return Err(fault),
    };
    let known = match pair_below(alloc, update, &split.info, &split.face, faces) {
        Ok(known) => known,
        Err(fault) => return Err(PrepareFault::from(fault)),
    };
    let own = match graft(alloc, update, &known) {
        Ok(own) => own,
        Err(fault) => return Err(PrepareFault::from(fault)),
    };
    let new = match with_split(alloc, update, own, &split) {
        Ok(new) => new,
        Err(_) => return Err(PrepareFault::Memory),
    };
    match new_cells::<H>(alloc, new.cells.as_slice(), new.infos.as_slice()) {
        Ok(cells) => Ok(Prepared::new(Some(split.info.hash_at(0)), new.root, cells)),
        Err(fault) => Err(fault),
    }
}
