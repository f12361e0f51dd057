ghost use Rattle.std.specs.Prelude.{◌≡◌, None, Some, map, IfOk, IfErr, MatchOption};
ghost use Rattle.inspect_merged.specs.BothStates as spec;
ghost use Rattle.inspect_merged.specs.BothStates.{clash_between, face_in_both};

use cd_base::Hash256;
use cd_cell::{Face, Hash32, NewCell};
use inspect_updates::OldState;
use std::alloc::{AllocError, Global};

/// Two states that are free of clashes together: those of the parents of a block after a merge of two shards.
#[derive(Drop)]
pub struct BothStates<H: Hash32> {
    pub left: OldState<H>,
    pub right: OldState<H>,
    pub ghost together: { clash_between left.whole.cells right.whole.cells ≡ None },
}

/// Whether a state has another cell of the hash of this one.
fn clashes_with<H: Hash32>(state: &OldState<H>, cell: &NewCell) -> bool
    ensures { result ≡ spec.clashes_with state.now.whole.cells cell.now }
{
    match state.face(&cell.hash) {
        Some(face) => !(*face == cell.face),
        None => false,
    }
}

/// The hash of the first cell of the right state, in the order of an export, that clashes with one of the left.
fn first_clash<H: Hash32>(left: &OldState<H>, right: &OldState<H>) -> Option<Hash256>
    ensures { result ≡ clash_between left.now.whole.cells right.now.whole.cells }
{
    for cell in right.whole.cells() {
        if clashes_with(left, cell) {
            return Some(cell.hash);
        }
    }
    None
}

impl<H: Hash32> BothStates<H> {
    /// Both states, or the hash of two different cells of theirs.
    pub fn of(left: OldState<H>, right: OldState<H>) -> Result<BothStates<H>, Hash256>
        ensures kept { IfOk result (λ both. (both.left ≡ left) × (both.right ≡ right)) }
        ensures clash { IfErr result (λ hash.
            clash_between left.whole.cells right.whole.cells ≡ Some hash) }
    {
        match first_clash(&left, &right) {
            Some(hash) => Err(hash),
            None => Ok(BothStates { left, right }),
        }
    }

    /// The face of the cell of this hash, of the left state or else of the right one, if they have one.
    fn face(&self, hash: &Hash256) -> Option<&Face>
        ensures { MatchOption result
            (face_in_both self.now.left.whole.cells self.now.right.whole.cells hash.now ≡ None)
            (λ face. face_in_both self.now.left.whole.cells self.now.right.whole.cells hash.now ≡ Some face.now) }
    {
        match self.left.face(hash) {
            Some(face) => Some(face),
            None => self.right.face(hash),
        }
    }

    /// The faces of the states' cells of these hashes, in their order.
    pub fn faces(&self, alloc: Global, hashes: &[Hash256]) -> Result<Vec<Option<Face>>, AllocError>
        ensures { IfOk result (λ faces. faces.items
            ≡ map (face_in_both self.now.left.whole.cells self.now.right.whole.cells) hashes.now) }
    {
        let mut faces = Vec::with_capacity(alloc, hashes.len())?;
        for hash in hashes {
            match self.face(hash) {
                Some(face) => faces.push(Some(*face))?,
                None => faces.push(None)?,
            }
        }
        Ok(faces)
    }
}
