ghost use Rattle.std.specs.Prelude.{◌≡◌, ◌≤◌, ◌&&◌};
ghost use Rattle.std.specs.Cmp.Lexicographic.{pointwise};
ghost use Rattle.cd_cell.specs.Masks.{lowest_bits};
ghost use Rattle.cd_cell.specs.Updates.{same_at, same_upto, matches, agrees};

use crate::hidden::kid_level;
use cd_cell::{ChildInfo, Face};

/// Whether two cells have one hash and one depth at a level.
fn are_same_at(a: &ChildInfo, b: &ChildInfo, level: u8) -> bool
    requires { level ≤ 3 }
    ensures { result ≡ same_at level a.now b.now }
{
    a.hash_at(level) == b.hash_at(level) && a.depth_at(level) == b.depth_at(level)
}

/// Whether they do at each level up to one.
#[tactic(auto, unfolding(cd_cell::specs::Updates::same_upto))]
fn are_same_upto(a: &ChildInfo, b: &ChildInfo, depth: u8) -> bool
    requires { depth ≤ 3 }
    ensures { result ≡ same_upto depth a.now b.now }
{
    let mut same = are_same_at(a, b, 0);
    for level in 0..depth {
        same = same && are_same_at(a, b, level + 1);
    }
    same
}

/// Whether hashes, depths and masks are equal up to a level.
pub(crate) fn are_matching(a: &ChildInfo, b: &ChildInfo, depth: u8) -> bool
    requires { depth ≤ 3 }
    ensures { result ≡ matches depth a.now b.now }
{
    are_same_upto(a, b, depth) && a.mask.apply(depth) == b.mask.apply(depth)
}

/// Whether the kids of two cells match in their places.
fn are_all_matching(stored: &[ChildInfo], shown: &[ChildInfo], depth: u8) -> bool
    requires { depth ≤ 3 }
    ensures { result ≡ pointwise (matches depth) stored.now shown.now }
{
    if stored.len() != shown.len() {
        return false;
    }
    for place in 0..stored.len() {
        if !are_matching(&stored[place], &shown[place], depth) {
            return false;
        }
    }
    true
}

/// Whether a stored face and a shown one have one flag, the same bits, and kids that match.
pub(crate) fn agree(stored: &Face, shown: &Face, depth: u8) -> bool
    requires { depth ≤ 3 }
    ensures { result ≡ agrees depth stored.now shown.now }
{
    stored.exotic() == shown.exotic()
        && stored.bits() == shown.bits()
        && are_all_matching(stored.kids(), shown.kids(), kid_level(shown, depth))
}
