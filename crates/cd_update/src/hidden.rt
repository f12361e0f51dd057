ghost use Rattle.std.specs.Prelude.{◌≡◌, ◌≤◌, ◌<◌, length};
ghost use Rattle.cd_cell.specs.Levels.{kid_level, mask_of_face};
ghost use Rattle.cd_cell.specs.Tree.{info_of};
ghost use Rattle.cd_cell.specs.Updates.{is_hidden};
ghost use Rattle.cd_cell.specs.Bags.{bag_tree, face_at, IsBag};
ghost use Rattle.cd_update.specs.Nodes.{IsShown};

use crate::visit::Visit;
use cd_cell::{Bag, ChildInfo, Face, Hash32, Kind, kind_of};

/// Whether the cell is a pruned branch of the level above the depth, which stands for a cell that isn't shown.
pub(crate) fn is_hidden(face: &Face, info: &ChildInfo, depth: u8) -> bool
    requires depth { depth ≤ 3 }
    requires mask { info.now.mask ≡ mask_of_face face.now }
    ensures { result ≡ is_hidden depth face.now }
{
    match kind_of(face) {
        Some(Kind::Pruned) => info.mask.level() == depth + 1,
        _ => false,
    }
}

/// The Merkle depth of the children of a cell.
pub(crate) fn kid_level(face: &Face, depth: u8) -> u8
    requires { depth ≤ 3 }
    ensures value { result ≡ kid_level face.now depth }
    ensures small { result ≤ 3 }
{
    match kind_of(face) {
        Some(Kind::Proof | Kind::Update) if depth < 3 => depth + 1,
        _ => depth,
    }
}

/// What the cell of a visit shows: it is a kid of its parent's face.
pub(crate) fn shown_info<'a, H: Hash32>(bag: &'a Bag<H>, visit: &Visit) -> &'a ChildInfo
    requires { IsShown H.digest_of bag.now visit.now }
    ensures info { result.now ≡ info_of H.digest_of (bag_tree bag.now visit.now.node.entry) }
    ensures kept { IsBag H.digest_of bag.now.cells bag.now.refs bag.now.roots }
    ensures mask { result.now.mask ≡ mask_of_face (face_at bag.now.cells visit.now.node.entry) }
{
    &bag.face(visit.parent).kids()[visit.place as usize]
}
