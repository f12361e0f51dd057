//! The joined cell of two states.
ghost use Rattle.std.specs.Prelude.{◌≡◌, ◌<◌, ℕ, List};
ghost use Rattle.cd_base.specs.declared.hash.Hash256.{Hash256};
ghost use Rattle.cd_cell.specs.GoodFace.{IsGoodFace};
ghost use Rattle.cd_cell.specs.Infos.{info_depth};
ghost use Rattle.cd_cell.specs.Joined.{joined_tree, joined_face};
ghost use Rattle.cd_cell.specs.Tree.{Tree, info_of, face_of};

use crate::{Bits, ChildInfo, Face};

// The constructor tag of a split state (TL-B, `split_state`).
const SPLIT_TAG: [u8; 4] = [0x5f, 0x32, 0x7d, 0xa5];

/// The face of the joined tree of two states, by what their roots show: the old tree of a block whose parents are those
/// of two merged shards, the left one first (TL-B, `split_state`). Takes no memory.
pub fn split_face(left: &ChildInfo, right: &ChildInfo) -> Face
    ensures face { result ≡ joined_face left.now right.now }
    // It passes the check where both states are of mask 0 and neither is of the greatest depth.
    ensures good { left.now.mask ≡ 0 → right.now.mask ≡ 0 → info_depth left.now 0 < 1024
        → info_depth right.now 0 < 1024 → IsGoodFace result }
    ensures tree { (H : List ℕ → Hash256) (a b : Tree) → info_of H a ≡ left.now → info_of H b ≡ right.now
        → face_of H (joined_tree a b) ≡ result }
{
    match Bits::from_slice(&SPLIT_TAG, 32) {
        Some(tag) => Face::new(false, tag, &[*left, *right]),
        None => unreachable!(),
    }
}
