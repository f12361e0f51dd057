ghost use Rattle.std.specs.Prelude.{◌≡◌, ◌≢◌, ◌≤◌, All, slice_index_or, None, Some, IfOk, IfErr, MatchOption};
ghost use Rattle.std.specs.List.{flat_map};
ghost use Rattle.std.specs.Option.{option_map};
ghost use Rattle.cd_cell.specs.Tree.{Tree};
ghost use Rattle.cd_cell.specs.Equality.{same_info};
ghost use Rattle.cd_cell.specs.Updates.{old_half, half_of, known_of};
ghost use Rattle.cd_update.specs.EachOnce.{each_once};
ghost use Rattle.cd_update.specs.Nodes.{IsShown};
ghost use Rattle.cd_update.specs.Visits.{place_of, visited, IsHalf};
ghost use Rattle.cd_update.specs.Pairing.{unlike, beside, wanted_hashes, wanted_hashes_below, first_misfit, half_root_refusal, known_at, misfit_at, misfit_among, met_infos, pair_refusal, tree_refusal, AreOf};
ghost use Rattle.cd_update.specs.PairingBelow.{misfit_under, refusal_below, AreBelow};
ghost use Rattle.cd_update.specs.Grafts.{AreShownBy};
ghost use Rattle.cd_update.specs.UpdateTrees.{tree_of, old_half_of};
ghost use Rattle.cd_update.specs.Answers.{refusal_of_pairing, PairAnswers};

use crate::agree::agree;
use crate::half::HalfWalk;
use crate::hashes::Hashes;
use crate::hidden::shown_info;
use crate::known::{Infos, Known};
use crate::pair_fault::PairFault;
use crate::update::Update;
use crate::upto::info_upto;
use crate::visit::Visit;
use crate::wanted::{behind_first, hash_of_visible};
use cd_base::{Hash256, Memory};
use cd_cell::{Bag, ChildInfo, Face, Hash32, Listed};
use std::alloc::Global;

/// Whether an update states the hash and the depth of an old root at level 0.
fn check_root<H: Hash32>(update: &Update<'_, H>, root: &ChildInfo) -> Result<(), PairFault>
    ensures refused { PairAnswers (half_root_refusal H.digest_of (old_half_of update.now) root.now) result }
    ensures told { result ≢ Err PairFault.Memory }
{
    let half = shown_info(update.bag, &update.half(0));
    let stated = half.hash_at(0);
    let real = root.hash_at(0);
    if stated != real {
        return Err(PairFault::OldHash { stated, real });
    }
    let stated = half.depth_at(0);
    let real = root.depth_at(0);
    if stated != real {
        return Err(PairFault::OldDepth { stated, real });
    }
    Ok(())
}

/// A shown face and a stored one, where they don't agree.
fn unlike_stored(stored: &Face, shown: &Face, depth: u8, hash: Hash256) -> Option<PairFault>
    requires { depth ≤ 3 }
    ensures { let found = unlike depth hash (Some stored.now) shown.now in
        MatchOption result (found ≡ None) (λ fault. refusal_of_pairing fault ≡ option_map old_half found) }
{
    if agree(stored, shown, depth) {
        return None;
    }
    Some(PairFault::OldHalf {
        hash,
        stored: *stored,
        shown: *shown,
    })
}

/// A shown face and the one that was found for it, where they don't agree.
fn unlike_face(
    faces: &[Option<Face>],
    place: usize,
    shown: &Face,
    depth: u8,
    hash: Hash256,
) -> Option<PairFault>
    requires { depth ≤ 3 }
    ensures { let found = unlike depth hash (slice_index_or faces.now place None) shown.now in
        MatchOption result (found ≡ None) (λ fault. refusal_of_pairing fault ≡ option_map old_half found) }
{
    match faces.get(place) {
        Some(Some(stored)) => unlike_stored(stored, shown, depth, hash),
        _ => Some(PairFault::OldHalf {
            hash,
            stored: *shown,
            shown: *shown,
        }),
    }
}

/// The first visit that doesn't agree with the face that stands beside its hash.
fn check_visits<H: Hash32>(
    alloc: Global,
    bag: &Bag<H>,
    visits: &[Visit],
    faces: &[Option<Face>],
) -> Result<(), PairFault>
    requires { All (IsShown H.digest_of bag.now) visits.now }
    ensures { PairAnswers
        (option_map old_half (misfit_among H.digest_of (visited bag.now visits.now) faces.now)) result }
{
    let mut hashes = Hashes::new(alloc);
    for visit in visits {
        let Some(hash) = hash_of_visible(bag, visit) else {
            continue;
        };
        let Ok(place) = hashes.add(hash) else {
            return Err(PairFault::Memory);
        };
        let shown = bag.face(visit.node.entry);
        if let Some(fault) = unlike_face(faces, place, shown, visit.node.depth, hash) {
            return Err(fault);
        }
    }
    Ok(())
}

/// The root of an old half, where it doesn't agree with the old root's face.
fn check_top<H: Hash32>(bag: &Bag<H>, first: &Visit, top: &Face) -> Result<(), PairFault>
    requires { IsShown H.digest_of bag.now first.now }
    ensures { PairAnswers
        (option_map old_half (misfit_at H.digest_of (λ _. Some top.now) (place_of bag.now first.now.node))) result }
{
    let Some(hash) = hash_of_visible(bag, first) else {
        return Ok(());
    };
    let shown = bag.face(first.node.entry);
    match unlike_stored(top, shown, first.node.depth, hash) {
        Some(fault) => Err(fault),
        None => Ok(()),
    }
}

/// The first visit of an old half that doesn't agree with the face that stands beside its hash.
fn check_shown<H: Hash32>(
    alloc: Global,
    half: &HalfWalk<'_, H>,
    faces: &[Option<Face>],
) -> Result<(), PairFault>
    ensures { (u : Tree) → IsHalf half.now.bag.now half.now.start u 0
        → PairAnswers (option_map old_half (first_misfit H.digest_of
        (beside (wanted_hashes H.digest_of u) faces.now) (half_of u 0))) result }
{
    check_visits(alloc, half.bag, half.visits(), faces)
}

/// The first visit of an old half that doesn't agree: its root with the old root's face, or one behind it with the face
/// that stands beside its hash.
fn check_below<H: Hash32>(
    alloc: Global,
    half: &HalfWalk<'_, H>,
    top: &Face,
    faces: &[Option<Face>],
) -> Result<(), PairFault>
    ensures { (u : Tree) → IsHalf half.now.bag.now half.now.start u 0
        → PairAnswers (option_map old_half (misfit_under H.digest_of top.now
        (beside (wanted_hashes_below H.digest_of u) faces.now) (half_of u 0))) result }
{
    if let Err(fault) = check_top(half.bag, &half.start, top) {
        return Err(fault);
    }
    check_visits(alloc, half.bag, behind_first(half.visits()), faces)
}

/// What the old cells show that some visits met.
fn infos_of<H: Hash32>(alloc: Global, bag: &Bag<H>, visits: &[Visit]) -> Result<Known, Memory>
    requires { All (IsShown H.digest_of bag.now) visits.now }
    ensures { IfOk result (λ known.
        known.infos ≡ each_once same_info (flat_map (known_at H.digest_of) (visited bag.now visits.now))) }
{
    let mut infos = Infos::new(alloc);
    for visit in visits {
        infos.add(info_upto(shown_info(bag, visit), visit.node.depth))?;
    }
    Ok(Known {
        infos: Listed::from(infos.all),
        index: infos.index,
    })
}

/// The walk over the old half of an update that states an old root.
fn stated_half<'a, H: Hash32>(
    alloc: Global,
    update: &Update<'a, H>,
    root: &ChildInfo,
) -> Result<HalfWalk<'a, H>, PairFault>
    ensures refused { PairAnswers (half_root_refusal H.digest_of (old_half_of update.now) root.now) result }
    ensures half { IfOk result (λ half. IsHalf half.bag.now half.start (tree_of update.now) 0) }
{
    if let Err(fault) = check_root(update, root) {
        return Err(fault);
    }
    match update.walk(alloc, 0) {
        Ok(half) => Ok(half),
        Err(_) => Err(PairFault::Memory),
    }
}

/// What the old cells show that an old half met.
fn known_of<H: Hash32>(alloc: Global, half: &HalfWalk<'_, H>) -> Result<Known, PairFault>
    ensures infos { (u : Tree) → IsHalf half.now.bag.now half.now.start u 0
        → IfOk result (λ known. known.infos ≡ met_infos H.digest_of (half_of u 0)) }
    ensures memory { IfErr result (λ fault. fault ≡ PairFault.Memory) }
{
    match infos_of(alloc, half.bag, half.visits()) {
        Ok(known) => Ok(known),
        Err(_) => Err(PairFault::Memory),
    }
}

/// Pairs the old half of an update with an old tree, by what its root shows and by the faces that stand beside
/// the wanted hashes. Each cell of the bag is visited once for each of its Merkle depths. Where the root and the
/// faces aren't those of a tree, nothing is said of what comes but what the faces themselves tell.
pub fn pair_old<H: Hash32>(
    alloc: Global,
    update: &Update<'_, H>,
    root: &ChildInfo,
    faces: &[Option<Face>],
) -> Result<Known, PairFault>
    ensures refused { PairAnswers (pair_refusal H.digest_of (tree_of update.now) root.now faces.now) result }
    ensures infos { IfOk result (λ known. known.infos ≡ met_infos H.digest_of (old_half_of update.now)) }

    // Over an old tree the refusals are those of the tree, and the known cells are its cells.
    ensures refused_tree { (t : Tree) → AreOf H.digest_of t (tree_of update.now) root.now faces.now
        → PairAnswers (tree_refusal H.digest_of (tree_of update.now) t) result }
    ensures tree { (t : Tree) → AreOf H.digest_of t (tree_of update.now) root.now faces.now
        → IfOk result (λ known. AreShownBy H.digest_of (known_of H.digest_of (tree_of update.now) t) known.infos) }
{
    let half = match stated_half(alloc, update, root) {
        Ok(half) => half,
        Err(fault) => return Err(fault),
    };
    if let Err(fault) = check_shown(alloc, &half, faces) {
        return Err(fault);
    }
    known_of(alloc, &half)
}

/// Pairs the old half of an update with an old tree whose root isn't looked up: by what the root shows, by its face, and
/// by the faces that stand beside the hashes wanted below the root. So no store needs to have the root, and a cell below
/// with the root's hash is compared with its own face. Each cell of the bag is visited once for each of its Merkle depths.
pub fn pair_below<H: Hash32>(
    alloc: Global,
    update: &Update<'_, H>,
    root: &ChildInfo,
    top: &Face,
    faces: &[Option<Face>],
) -> Result<Known, PairFault>
    ensures refused { PairAnswers (refusal_below H.digest_of (tree_of update.now) root.now top.now faces.now) result }
    ensures infos { IfOk result (λ known. known.infos ≡ met_infos H.digest_of (old_half_of update.now)) }

    // Over an old tree the refusals are those of the tree, and the known cells are its cells.
    ensures refused_tree { (t : Tree) → AreBelow H.digest_of t (tree_of update.now) root.now top.now faces.now
        → PairAnswers (tree_refusal H.digest_of (tree_of update.now) t) result }
    ensures tree { (t : Tree) → AreBelow H.digest_of t (tree_of update.now) root.now top.now faces.now
        → IfOk result (λ known. AreShownBy H.digest_of (known_of H.digest_of (tree_of update.now) t) known.infos) }
{
    let half = match stated_half(alloc, update, root) {
        Ok(half) => half,
        Err(fault) => return Err(fault),
    };
    if let Err(fault) = check_below(alloc, &half, top, faces) {
        return Err(fault);
    }
    known_of(alloc, &half)
}
