ghost use Rattle.std.specs.Prelude.{◌≡◌, ◌↔◌, ◌≤◌, ℕ, All, Contains, IsTrue, List, length, map, IfOk};
ghost use Rattle.std.specs.List.{list_any};
ghost use Rattle.cd_cell.specs.Levels.{info_of_face};
ghost use Rattle.cd_cell.specs.Tree.{Tree};
ghost use Rattle.cd_cell.specs.Updates.{found_in, first_foreign};
ghost use Rattle.cd_update.specs.EachOnce.{first_of};
ghost use Rattle.cd_update.specs.Nodes.{same_node, IsShown};
ghost use Rattle.cd_update.specs.Visits.{spot, nodes_of, place_of, visited};
ghost use Rattle.cd_update.specs.Grafts.{grafted_info, own_faces, foreign_at, foreign_hash, AreShownBy, IsGraftOnto};
ghost use Rattle.cd_update.specs.GraftSteps.{IsGrafting};
ghost use Rattle.cd_update.specs.UpdateTrees.{new_half_of};
ghost use Rattle.cd_update.specs.Answers.{GraftAnswers};

use crate::graft_fault::GraftFault;
use crate::half::HalfWalk;
use crate::hidden::{is_hidden, kid_level, shown_info};
use crate::known::{Known, has};
use crate::own::Own;
use crate::update::Update;
use crate::upto::info_upto;
use crate::visit::{Node, Visit};
use cd_base::{Hash256, Memory};
use cd_cell::{Bag, ChildInfo, Face, Hash32, Listed, face_info};
use std::alloc::Global;

/// The hash of a visit that is hidden and not known.
fn unknown_at<H: Hash32>(bag: &Bag<H>, visit: &Visit, known: &Known) -> Option<Hash256>
    requires { IsShown H.digest_of bag.now visit.now }
    ensures { result ≡ foreign_at H.digest_of known.now.infos (place_of bag.now visit.now.node) }
{
    let info = shown_info(bag, visit);
    let depth = visit.node.depth;
    if !is_hidden(bag.face(visit.node.entry), info, depth) {
        return None;
    }
    if has(
        known.infos.as_slice(),
        &known.index,
        &info_upto(info, depth),
    ) {
        return None;
    }
    Some(info.hash_at(depth))
}

/// The hash of the first visit that is hidden and not known.
fn unknown<H: Hash32>(bag: &Bag<H>, visits: &[Visit], known: &Known) -> Option<Hash256>
    requires { All (IsShown H.digest_of bag.now) visits.now }
    ensures { result ≡ first_of (foreign_at H.digest_of known.now.infos) (visited bag.now visits.now) }
{
    for visit in visits {
        if let Some(hash) = unknown_at(bag, visit, known) {
            return Some(hash);
        }
    }
    None
}

/// The cells that the new half of an update brings, with their children in place.
#[derive(Drop)]
pub struct Grafted {
    /// What the root of the new tree shows.
    pub root: ChildInfo,
    /// The faces of the new half's own cells, which aren't old ones, in preorder, each once.
    pub cells: Listed<Face>,
    /// What each of these cells shows.
    pub infos: Listed<ChildInfo>,
}

/// A walk over a new half whose hidden cells are known.
#[derive(Drop)]
struct HalfGraft<'a, 'b, H: Hash32> {
    half: HalfWalk<'a, H>,
    known: &'b Known,
    ghost grafting: { IsGrafting H.digest_of known.now.infos half.bag.now half.start
        half.walk.visits.items half.walk.numbers.items },
}

impl<H: Hash32> HalfGraft<'_, '_, H> {
    ghost use Rattle.cd_update.specs.GraftWalks.{visits_of, face_in, met_faces, IsVisible, new_info_at, new_face_at, AreDone, AreDoneBehind};

    /// What was worked out of an entry at a depth.
    fn info_at<'i>(&self, infos: &'i [ChildInfo], node: Node) -> &'i ChildInfo
        requires counted { length infos.now ≡ length (visits_of self.now) }
        requires visited { IsTrue (list_any (same_node node) (nodes_of (visits_of self.now))) }
        ensures { (from : ℕ) → from ≤ spot node → AreDone H.digest_of self.now from infos.now
            → result.now ≡ new_info_at H.digest_of self.now node }
    {
        match self.half.walk.number(node) {
            Some(number) => &infos[number],
            None => unreachable!(),
        }
    }

    /// The graft's face of a visible visit, whose children have been worked out.
    fn new_face(&self, visit: &Visit, infos: &[ChildInfo]) -> Face
        requires visited { Contains (visits_of self.now) visit.now }
        requires visible { IsVisible self.now visit.now.node }
        requires done { AreDoneBehind H.digest_of self.now visit.now.node infos.now }
        ensures { result ≡ new_face_at H.digest_of self.now visit.now.node }
    {
        let shown = self.half.bag.face(visit.node.entry);
        let depth = kid_level(shown, visit.node.depth);
        let mut face = Face::new(shown.exotic(), *shown.bits(), &[]);
        for child in self.half.bag.children(visit.node.entry) {
            let node = Node {
                entry: *child,
                depth,
            };
            face.push(self.info_at(infos, node));
        }
        face
    }

    /// Whether the graft's face of a visible visit is the shown one, once its children have been worked out.
    fn is_unchanged(&self, visit: &Visit, infos: &[ChildInfo]) -> bool
        requires visited { Contains (visits_of self.now) visit.now }
        requires visible { IsVisible self.now visit.now.node }
        requires done { AreDoneBehind H.digest_of self.now visit.now.node infos.now }
        ensures { IsTrue result ↔ (new_face_at H.digest_of self.now visit.now.node ≡ face_in self.now visit.now.node) }
    {
        let shown = self.half.bag.face(visit.node.entry);
        let depth = kid_level(shown, visit.node.depth);
        let kids = shown.kids();
        let children = self.half.bag.children(visit.node.entry);
        for (place, child) in children.iter().enumerate() {
            let node = Node {
                entry: *child,
                depth,
            };
            if *self.info_at(infos, node) != kids[place] {
                return false;
            }
        }
        true
    }

    /// What the graft of a visit shows, whose children have been worked out. A face is put together and hashed only
    /// where a child changed.
    fn new_info(&self, visit: &Visit, infos: &[ChildInfo]) -> ChildInfo
        requires visited { Contains (visits_of self.now) visit.now }
        requires done { AreDoneBehind H.digest_of self.now visit.now.node infos.now }
        ensures { result ≡ new_info_at H.digest_of self.now visit.now.node }
    {
        let info = shown_info(self.half.bag, visit);
        let shown = self.half.bag.face(visit.node.entry);
        if is_hidden(shown, info, visit.node.depth) {
            return info_upto(info, visit.node.depth);
        }
        if self.is_unchanged(visit, infos) {
            return *info;
        }
        face_info::<H>(&self.new_face(visit, infos))
    }

    /// What the grafts of all visits show, from the last entry to the first.
    fn new_infos(&self, alloc: Global) -> Result<Vec<ChildInfo>, Memory>
        ensures { IfOk result (λ infos. AreDone H.digest_of self.now 0 infos.items) }
    {
        let first = shown_info(self.half.bag, &self.half.start);
        let mut infos = vec![in alloc; *first; self.half.walk.visits.len()]?;
        let mut left = self.half.walk.numbers.len();
        while left > 0 {
            left -= 1;
            if let Some(number) = self.half.walk.in_spot(left) {
                let info = self.new_info(self.half.at(number), infos.as_slice());
                infos[number] = info;
            }
        }
        Ok(infos)
    }

    /// The own cells, each once.
    fn own(&self, alloc: Global, infos: &[ChildInfo]) -> Result<Own, Memory>
        requires { AreDone H.digest_of self.now 0 infos.now }
        ensures cells { IfOk result (λ own. own.cells.items ≡ met_faces H.digest_of self.now) }
        ensures infos { IfOk result (λ own. own.infos.items ≡ map (info_of_face H.digest_of) own.cells.items) }
    {
        let mut own = Own::new(alloc);
        for number in 0..self.half.walk.visits.len() {
            let visit = self.half.at(number);
            let shown = self.half.bag.face(visit.node.entry);
            if is_hidden(shown, shown_info(self.half.bag, visit), visit.node.depth) {
                continue;
            }
            own.add::<H>(self.new_face(visit, infos), infos[number])?;
        }
        Ok(own)
    }

    /// The new root and the own cells.
    fn grafted(&self, alloc: Global) -> Result<Grafted, Memory>
        ensures root { IfOk result (λ new. new.root ≡ new_info_at H.digest_of self.now self.now.half.start.node) }
        ensures cells { IfOk result (λ new. new.cells ≡ met_faces H.digest_of self.now) }
        ensures infos { IfOk result (λ new. new.infos ≡ map (info_of_face H.digest_of) new.cells) }
    {
        let infos = self.new_infos(alloc)?;
        let root = *self.info_at(infos.as_slice(), self.half.start.node);
        let own = self.own(alloc, infos.as_slice())?;
        Ok(Grafted {
            root,
            cells: Listed::from(own.cells),
            infos: Listed::from(own.infos),
        })
    }
}

/// Grafts the new half of an update onto known cells: a pruned branch of the level above its Merkle depth gives
/// way to the first known cell that has no level above this depth and matches it up to there; every other cell
/// keeps its flag and bits. A pruned branch is looked up among the known cells alone. Each cell of the bag is
/// visited once for each of its Merkle depths, and hashed only where a child changed.
pub fn graft<H: Hash32>(
    alloc: Global,
    update: &Update<'_, H>,
    known: &Known,
) -> Result<Grafted, GraftFault>
    ensures refused { GraftAnswers (foreign_hash H.digest_of known.now.infos (new_half_of update.now)) result }
    ensures root { IfOk result (λ new. new.root ≡ grafted_info H.digest_of known.now.infos (new_half_of update.now) 0) }
    ensures cells { IfOk result (λ new. new.cells ≡ own_faces H.digest_of known.now.infos (new_half_of update.now)) }
    ensures infos { IfOk result (λ new. new.infos ≡ map (info_of_face H.digest_of) new.cells) }

    // Over known trees the refusal, the root and the cells are those of the grafted tree.
    ensures refused_tree { (ts : List Tree) → AreShownBy H.digest_of ts known.now.infos
        → GraftAnswers (first_foreign H.digest_of (found_in H.digest_of ts) (new_half_of update.now) 0) result }
    ensures tree { (ts : List Tree) → AreShownBy H.digest_of ts known.now.infos
        → IfOk result (λ new. IsGraftOnto H.digest_of ts (new_half_of update.now) new.root new.cells) }
{
    let Ok(half) = update.walk(alloc, 1) else {
        return Err(GraftFault::Memory);
    };
    if let Some(hash) = unknown(half.bag, half.visits(), known) {
        return Err(GraftFault::Foreign { hash });
    }
    let it = HalfGraft { half, known };
    match it.grafted(alloc) {
        Ok(new) => Ok(new),
        Err(_) => Err(GraftFault::Memory),
    }
}
