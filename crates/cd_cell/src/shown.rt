ghost use Rattle.std.specs.Prelude.{◌≡◌, ◌≢◌, Some};
ghost use Rattle.cd_cell.specs.declared.kind.Kind.TheVariants.{Pruned};
ghost use Rattle.cd_cell.specs.Levels.{kind_of_face, info_of_face};
ghost use Rattle.cd_cell.specs.Fit.{IsFaceFit};
ghost use Rattle.cd_cell.specs.Steady.{IsFlat};
ghost use Rattle.cd_cell.specs.Tree.{Tree, face_of, info_of};

use crate::levels::{kind_of, plain_depths, plain_hashes, plain_mask};
use crate::pruned::pruned_info;
use crate::{ChildInfo, Face, Hash32, Kind};

/// What a well-formed cell shows of itself to its parents: mask, hashes and depths at the levels 0 to 3 (TVM
/// documentation, "Level mask" and "Representation hash"). It digests once for each level that is significant,
/// and a pruned branch once.
pub fn face_info<H: Hash32>(face: &Face) -> ChildInfo
    requires { IsFaceFit face.now }
    ensures face { result ≡ info_of_face H.digest_of face.now }
    ensures flat { IsFlat result }
    ensures tree { (t : Tree) → face_of H.digest_of t ≡ face.now → result ≡ info_of H.digest_of t }
{
    match kind_of(face) {
        Some(Kind::Pruned) => pruned_info::<H>(face),
        Some(kind) => plain_info::<H>(face, kind),
        None => unreachable!(),
    }
}

// The same for a cell that is no pruned branch.
fn plain_info<H: Hash32>(face: &Face, kind: Kind) -> ChildInfo
    requires kind { kind_of_face face.now ≡ Some kind }
    requires plain { kind ≢ Kind.Pruned }
    requires fit { IsFaceFit face.now }
    ensures { result ≡ info_of_face H.digest_of face.now }
{
    let mask = plain_mask(face, kind);
    let merkle = matches!(kind, Kind::Proof | Kind::Update);
    let depths = plain_depths(face, mask, merkle);
    ChildInfo {
        mask,
        hashes: plain_hashes::<H>(face, mask, merkle),
        depths: [
            depths[0] as u16,
            depths[1] as u16,
            depths[2] as u16,
            depths[3] as u16,
        ],
    }
}
