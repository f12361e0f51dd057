ghost use Rattle.std.specs.Prelude.{◌≡◌, ℕ, ◌+◌, ◌*◌, ◌≤◌, [], ◌∷◌, length, Some, take, drop, slice_index, nat_lt, if◌then◌else◌};
ghost use Rattle.cd_cell.specs.declared.kind.Kind.TheVariants.{Pruned};
ghost use Rattle.cd_cell.specs.Masks.{bit_count};
ghost use Rattle.cd_cell.specs.Levels.{kind_of_face, mask_of_face, pruned_place, pruned_depth, by_level, stated_or, info_of_face};
ghost use Rattle.cd_cell.specs.Fit.{IsPrunedFace};

use crate::levels::text_of;
use crate::stated::{depth_in, hash_in};
use crate::{ChildInfo, Face, Hash32, Mask};
use cd_base::Hash256;

/// What a pruned branch shows of itself: what it states at the levels below its own, and its own hash at the others.
pub fn pruned_info<H: Hash32>(face: &Face) -> ChildInfo
    requires kind { kind_of_face face.now ≡ Some Pruned }
    requires fit { IsPrunedFace face.now }
    ensures { result ≡ info_of_face H.digest_of face.now }
{
    let mask = pruned_mask(face);
    let text = text_of(face, mask, face.bits().data(), 0);
    let own = H::digest(text.bytes());
    ChildInfo {
        mask,
        hashes: [
            hash_at(face, mask, 0, own),
            hash_at(face, mask, 1, own),
            hash_at(face, mask, 2, own),
            hash_at(face, mask, 3, own),
        ],
        depths: pruned_depths(face),
    }
}

/// The depths of a pruned branch at the four levels.
pub fn pruned_depths(face: &Face) -> [u16; 4]
    requires kind { kind_of_face face.now ≡ Some Pruned }
    requires fit { IsPrunedFace face.now }
    ensures { result ≡ by_level (pruned_depth face.now) }
{
    let mask = pruned_mask(face);
    [
        depth_at(face, mask, 0),
        depth_at(face, mask, 1),
        depth_at(face, mask, 2),
        depth_at(face, mask, 3),
    ]
}

/// The mask that a pruned branch states.
pub fn pruned_mask(face: &Face) -> Mask
    requires kind { kind_of_face face.now ≡ Some Pruned }
    requires fit { IsPrunedFace face.now }
    ensures { result ≡ mask_of_face face.now }
{
    Mask::of(face.bits().data()[1]).unwrap()
}

// The hash at a level: the one that is stated for it, else the cell's own.
fn hash_at(face: &Face, mask: Mask, l: u8, own: Hash256) -> Hash256
    requires kind { kind_of_face face.now ≡ Some Pruned }
    requires fit { IsPrunedFace face.now }
    requires mask { mask_of_face face.now ≡ mask }
    requires level { l ≤ 3 }
    ensures { result ≡ stated_or face.now l own }
{
    let place = mask.apply(l).count();
    if place >= mask.count() {
        return own;
    }
    hash_in(face.bits().data(), 2 + 32 * place as usize)
}

// The depth at a level: the one that is stated for it, else 0.
fn depth_at(face: &Face, mask: Mask, l: u8) -> u16
    requires kind { kind_of_face face.now ≡ Some Pruned }
    requires fit { IsPrunedFace face.now }
    requires mask { mask_of_face face.now ≡ mask }
    requires level { l ≤ 3 }
    ensures { result ≡ pruned_depth face.now l }
{
    let place = mask.apply(l).count();
    if place >= mask.count() {
        return 0;
    }
    depth_in(
        face.bits().data(),
        2 + 32 * mask.count() as usize + 2 * place as usize,
    )
}
