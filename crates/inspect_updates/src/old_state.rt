ghost use Rattle.std.specs.Prelude.{◌≡◌, ℕ, List, ◌∷◌, [], None, Some, length, map, IfOk, IfErr, MatchOption};
ghost use Rattle.cd_cell.specs.Bags.{bag_trees};
ghost use Rattle.cd_prepare.specs.States.{state_fault};
ghost use Rattle.inspect_updates.specs.OldStates.{face_in, IsIndexed, state_of, IsState, IsStateBag};
ghost use Rattle.inspect_updates.specs.StateFaults.{IsWhyNoState};
ghost use Rattle.inspect_bags.specs.Verdicts.{IsTrueOf};

use crate::refusal::Refusal;
use cd_base::{Hash256, Memory};
use cd_boc_read::{BagFault, read_bag};
use cd_cell::{Bag, Face, Hash32, Index, NewCell, Prepared};
use cd_prepare::{PrepareFault, prepare_zero};
use inspect_bags::Verdict;
use std::alloc::{AllocError, Global};

/// A state whose cells are found by their hashes.
#[derive(Drop)]
pub struct OldState<H: Hash32> {
    /// All cells of the state.
    pub whole: Prepared<H>,
    /// Where each of them stands, by its hash.
    places: Index,
    /// How many cells the bag has that the state was read from.
    bag_cells: usize,
    pub ghost is_state: { IsState H.digest_of whole },
    pub ghost indexed: { IsIndexed places whole.cells },
}

/// Where each cell stands, by its hash.
fn places_of(alloc: Global, cells: &[NewCell]) -> Result<Index, Memory>
    ensures { IfOk result (λ places. IsIndexed places cells.now) }
{
    let mut places = Index::new(alloc);
    for (place, cell) in cells.iter().enumerate() {
        places.push(cell.hash, place)?;
    }
    Ok(places)
}

impl<H: Hash32> OldState<H> {
    /// The state that a bag has, if it has one, and unless memory runs out.
    pub fn of(alloc: Global, bag: &Bag<H>) -> Result<Result<OldState<H>, PrepareFault>, AllocError>
        ensures state { IfOk result (λ answer. IfOk answer
            (λ state. bag_trees bag.now ≡ state_of H.digest_of state.whole ∷ [])) }
        ensures counted { IfOk result (λ answer. IfOk answer (λ state. state.bag_cells ≡ length bag.now.cells)) }
        ensures fault { IfOk result (λ answer. IfErr answer
            (λ fault. state_fault H.digest_of (bag_trees bag.now) ≡ Some fault)) }
    {
        let whole = match prepare_zero(alloc, bag) {
            Ok(whole) => whole,
            Err(PrepareFault::Memory) => return Err(AllocError),
            Err(fault) => return Ok(Err(fault)),
        };
        let Ok(places) = places_of(alloc, whole.cells()) else {
            return Err(AllocError);
        };
        Ok(Ok(OldState {
            whole,
            places,
            bag_cells: bag.cells().len(),
        }))
    }

    /// What is said of the bytes that the state was read from.
    pub fn verdict(&self) -> Verdict
        ensures { (bytes : List ℕ) → IsStateBag H.digest_of bytes self.now.whole self.now.bag_cells
            → IsTrueOf H.digest_of bytes result }
    {
        Verdict::Good {
            roots: 1,
            cells: self.bag_cells,
        }
    }

    /// The face of the state's cell of this hash, if it has one.
    pub fn face(&self, hash: &Hash256) -> Option<&Face>
        ensures { MatchOption result (face_in self.now.whole.cells hash.now ≡ None)
            (λ face. face_in self.now.whole.cells hash.now ≡ Some face.now) }
    {
        match self.places.place(hash) {
            Some(place) => Some(&self.whole.cells()[place].face),
            None => None,
        }
    }

    /// The faces of the state's cells of these hashes, in their order.
    pub fn faces(&self, alloc: Global, hashes: &[Hash256]) -> Result<Vec<Option<Face>>, AllocError>
        ensures { IfOk result (λ faces. faces.items ≡ map (face_in self.now.whole.cells) hashes.now) }
    {
        let mut faces = Vec::with_capacity(alloc, hashes.len())?;
        for hash in hashes {
            match self.face(hash) {
                Some(face) => faces.push(Some(*face))?,
                None => faces.push(None)?,
            }
        }
        Ok(faces)
    }
}

/// The state that bytes are the bag of, or why they are none, unless memory runs out.
pub fn read_state<H: Hash32>(
    alloc: Global,
    bytes: &[u8],
) -> Result<Result<OldState<H>, Refusal>, AllocError>
    ensures state { IfOk result (λ answer. IfOk answer
        (λ state. IsStateBag H.digest_of bytes.now state.whole state.bag_cells)) }
    ensures refused { IfOk result (λ answer. IfErr answer (IsWhyNoState H.digest_of bytes.now)) }
{
    match read_bag::<H>(alloc, bytes) {
        Ok(bag) => match OldState::of(alloc, &bag)? {
            Ok(state) => Ok(Ok(state)),
            Err(fault) => Ok(Err(Refusal::Prepare(fault))),
        },
        Err(BagFault::Memory) => Err(AllocError),
        Err(fault) => Ok(Err(Refusal::Bag(fault))),
    }
}
