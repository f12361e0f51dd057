//! Looks of many hashes under a pin.
ghost use Rattle.std.specs.Prelude.{◌≡◌, ◌≤◌, [], length, true, IfOk};
ghost use Rattle.cd_event.specs.Pins.{is_live};
ghost use Rattle.cd_event.specs.Turning.{AreHeldFaces};
ghost use Rattle.cd_run.specs.Stages.{Stage};
ghost use Rattle.cd_run.specs.Merging.{LooksBy};

use crate::merge_words::stop_of_look;
use crate::parent::at_of;
use crate::words::Stop;
use cd_base::Hash256;
use cd_cell::Face;
use cd_event::{Turns, Who};
use std::alloc::Global;

/// The most hashes of one look.
const MOST: usize = 256;

/// One look under a live pin.
fn look_some<T: Turns>(
    turns: &mut T,
    who: Who,
    pin: u64,
    hashes: &[Hash256],
) -> Result<Vec<Option<Face>>, Stop>
    requires few { length hashes.now ≤ MOST }
    requires worker { T.worker turns.old ≡ who.worker }
    requires live { is_live pin (T.made turns.old) ≡ true }
    ensures looks { Stage T.worker T.faults T.made T.goes T.named [] (LooksBy who pin result)
        turns.old turns.new }
    ensures found { IfOk result (λ found. length found.items ≡ length hashes.now) }
    ensures faces { IfOk result (λ found.
        AreHeldFaces T.Hash.digest_of (T.made turns.old) (T.named turns.old) hashes.now found.items) }
{
    match turns.look(at_of(who), pin, hashes) {
        Ok(found) => Ok(found),
        Err(fault) => Err(stop_of_look(fault)),
    }
}

/// What is found under these hashes, by as many looks under a live pin as it takes: where it is told, the face of
/// each cell of every live pin's state.
pub(crate) fn gather<T: Turns>(
    alloc: Global,
    turns: &mut T,
    who: Who,
    pin: u64,
    hashes: &[Hash256],
) -> Result<Vec<Option<Face>>, Stop>
    requires worker { T.worker turns.old ≡ who.worker }
    requires live { is_live pin (T.made turns.old) ≡ true }
    ensures looks { Stage T.worker T.faults T.made T.goes T.named [] (LooksBy who pin result)
        turns.old turns.new }
    ensures faces { IfOk result (λ faces.
        AreHeldFaces T.Hash.digest_of (T.made turns.old) (T.named turns.old) hashes.now faces.items) }
{
    let Ok(mut faces) = Vec::with_capacity(alloc, hashes.len()) else {
        return Err(Stop::Memory);
    };
    let mut at = 0;
    while at < hashes.len() {
        let end = hashes.len().min(at.saturating_add(MOST));
        let mut found = match look_some(turns, who, pin, &hashes[at..end]) {
            Ok(found) => found,
            Err(stop) => return Err(stop),
        };
        if faces.append(&mut found).is_err() {
            return Err(Stop::Memory);
        }
        at = end;
    }
    Ok(faces)
}
