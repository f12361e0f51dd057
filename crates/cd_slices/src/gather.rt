ghost use Rattle.std.specs.Prelude.{◌≡◌, ◌<◌, ◌≤◌, ◌+◌, ◌-◌, ◌++◌, ◌∷◌, [], ℕ, Option, length, map, Contains, All, Some, Err, IfErr, IfOk, IfSome, OnOk};
ghost use Rattle.std.specs.BTreeMap.{btree_map_len};
ghost use Rattle.cd_cell.specs.GoodFace.{IsGoodFace};
ghost use Rattle.cd_cell.specs.Tree.{Tree};
ghost use Rattle.cd_cell.specs.Export.{distinct_cells};
ghost use Rattle.cd_event.specs.Pins.{IsState};
ghost use Rattle.cd_event.specs.Turning.{HandsOn, RisesOnly, AreGood, counted};
ghost use Rattle.cd_looks.specs.Answers.{IsRootOf};
ghost use Rattle.cd_slices.specs.Faults.{is_plan_failed};
ghost use Rattle.cd_slices.specs.Ranks.{rank_of_info, IsKnown};
ghost use Rattle.cd_slices.specs.Gathering.{AddsOnly, AreRanksOf, AreTold, AreWhole, Grows, IsGatherFault, IsGathered, IsTakingFault, IsKidOf, given_faces};

use crate::faults::PlanFault;
use cd_base::Hash256;
use cd_cell::{ChildInfo, ExportKey, ExportRank, Face, MOST_CELLS};
use cd_event::{LookFault, LookUp};
use cd_looks::face_or_empty;
use std::alloc::Global;
use std::collections::BTreeMap;

// The hashes that one look asks for at most.
const MOST_ASKED: usize = 256;

/// Cells as they are found from the root on.
#[derive(Drop)]
pub struct Gathered {
    // The hashes of all that are known, in the order in which they were found.
    pub hashes: Vec<Hash256>,
    // The place of each in that order, in the order of an export.
    pub places: BTreeMap<ExportRank, usize>,
    // The faces of the first of them, which were looked at.
    pub faces: Vec<Face>,
}

impl Gathered {
    fn new(alloc: Global) -> Gathered
        ensures whole { IsGathered result }
        ensures none { result.hashes.items ≡ [] }
        ensures unseen { result.faces.items ≡ [] }
    {
        Gathered {
            hashes: Vec::new(alloc),
            places: BTreeMap::new(alloc),
            faces: Vec::new(alloc),
        }
    }

    // Takes in what a cell shows, where its rank isn't known.
    fn know(&mut self, info: &ChildInfo) -> Result<(), PlanFault>
        requires { IsGathered self.old }
        ensures whole { OnOk result (IsGathered self.new) }
        ensures known { OnOk result (IsKnown self.new.places (rank_of_info info.now)) }
        ensures grows { OnOk result (Grows self.old self.new) }
        ensures faces { self.new.faces.items ≡ self.old.faces.items }
        ensures places { AddsOnly (λ i. i ≡ info.now) self.old.places self.new.places }
        ensures one { btree_map_len self.new.places ≤ btree_map_len self.old.places + 1 }
        ensures fault { IfErr result (λ fault. IsTakingFault fault self.new.places) }
    {
        let key = ExportKey::of(info, self.hashes.len());
        if self.places.contains_key(&key.rank) {
            return Ok(());
        }
        self.places.insert(key.rank, key.number)?;
        if key.number >= MOST_CELLS as usize {
            return Err(PlanFault::TooMany {
                limit: u64::from(MOST_CELLS),
            });
        }
        self.hashes.push(key.rank.hash)?;
        Ok(())
    }

    // Takes in the next face, and what its children show.
    fn take_in(&mut self, face: Face) -> Result<(), PlanFault>
        requires whole { IsGathered self.old }
        requires next { length self.old.faces.items < length self.old.hashes.items }
        requires good { IsGoodFace face }
        ensures whole { OnOk result (IsGathered self.new) }
        ensures grows { OnOk result (Grows self.old self.new) }
        ensures faces { OnOk result (self.new.faces.items ≡ self.old.faces.items ++ face ∷ []) }
        ensures places { AddsOnly (Contains face.kids) self.old.places self.new.places }
        ensures fault { IfErr result (λ fault. IsTakingFault fault self.new.places) }
    {
        for kid in face.kids() {
            self.know(kid)?;
        }
        self.faces.push(face)?;
        Ok(())
    }

    // Takes in the next faces. One that wasn't given counts as that of the empty cell.
    fn take_all(&mut self, found: &[Option<Face>]) -> Result<(), PlanFault>
        requires whole { IsGathered self.old }
        requires next { length self.old.faces.items + length found.now ≤ length self.old.hashes.items }
        requires good { AreGood found.now }
        ensures whole { OnOk result (IsGathered self.new) }
        ensures grows { OnOk result (Grows self.old self.new) }
        ensures faces { OnOk result (self.new.faces.items ≡ self.old.faces.items ++ given_faces found.now) }
        ensures places { AddsOnly (IsKidOf (given_faces found.now)) self.old.places self.new.places }
        ensures fault { IfErr result (λ fault. IsTakingFault fault self.new.places) }
    {
        for face in found {
            self.take_in(face_or_empty(*face))?;
        }
        Ok(())
    }

    // Looks at the next known cells.
    fn look_on<L: LookUp>(&mut self, look: &mut L) -> Result<(), PlanFault>
        requires ready { L.ready look.old }
        requires whole { IsGathered self.old }
        requires next { length self.old.faces.items < length self.old.hashes.items }
        ensures ready { L.ready look.new }
        ensures told { L.tree look.new ≡ L.tree look.old }
        ensures state { IfSome (L.tree look.old) (IsState L.Hash.digest_of) }

        // What is known then.
        ensures whole { OnOk result (IsGathered self.new) }
        ensures grows { OnOk result (Grows self.old self.new) }
        ensures more { OnOk result (length self.old.faces.items < length self.new.faces.items) }
        ensures cells { AreTold L.Hash.digest_of (L.tree look.old) self.old
            → OnOk result (AreTold L.Hash.digest_of (L.tree look.old) self.new) }
        ensures ranks { AreTold L.Hash.digest_of (L.tree look.old) self.old
            → (t : Tree) → L.tree look.old ≡ Some t → AreRanksOf L.Hash.digest_of t self.new.places }
        ensures fault { IfErr result (λ fault. IsGatherFault fault self.new.places) }

        // What lies between two states of the look.
        ensures asked { OnOk result (L.asked look.new
            ≡ counted (L.asked look.old) (length self.new.faces.items - length self.old.faces.items)) }
        ensures hands_on { HandsOn L.goes L.fails (is_plan_failed result) look.old look.new }
        ensures faults { RisesOnly (is_plan_failed result) (L.faults look.old) (L.faults look.new) }
    {
        let at = self.faces.len();
        let until = self.hashes.len().min(at + MOST_ASKED);
        let found = look.look(&self.hashes[at..until])?;
        self.take_all(&found)
    }
}

/// All cells that are reached from a root, each looked at once.
pub fn gather<L: LookUp>(
    alloc: Global,
    look: &mut L,
    root: &ChildInfo,
) -> Result<Gathered, PlanFault>
    requires ready { L.ready look.old }
    requires root { IsRootOf L.Hash.digest_of (L.tree look.old) root.now }
    ensures ready { L.ready look.new }
    ensures told { L.tree look.new ≡ L.tree look.old }
    ensures whole { IfOk result IsGathered }
    ensures cells { IfOk result (AreWhole L.Hash.digest_of (L.tree look.old) root.now) }
    ensures too_many { (limit : ℕ) → result ≡ Err (PlanFault.TooMany limit) → (limit ≡ MOST_CELLS)
        × ((t : Tree) → L.tree look.old ≡ Some t
        → MOST_CELLS < length (distinct_cells L.Hash.digest_of t)) }
    ensures asked { IfOk result (λ all.
        L.asked look.new ≡ counted (L.asked look.old) (length all.faces.items)) }
    ensures hands_on { HandsOn L.goes L.fails (is_plan_failed result) look.old look.new }
    ensures only_keeper { (fault : LookFault) → result ≡ Err (PlanFault.Look fault)
        → fault ≡ LookFault.Keeper }
    ensures faults { RisesOnly (is_plan_failed result) (L.faults look.old) (L.faults look.new) }
{
    let mut all = Gathered::new(alloc);
    all.know(root)?;
    while all.faces.len() < all.hashes.len() {
        all.look_on(look)?;
    }
    Ok(all)
}
