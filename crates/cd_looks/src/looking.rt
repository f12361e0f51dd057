ghost use Rattle.std.specs.Prelude.{◌≡◌, ◌≢◌, Err, IfOk, IfSome};
ghost use Rattle.cd_cell.specs.GoodFace.{IsGoodFace};
ghost use Rattle.cd_event.specs.Replies.{look_reply};
ghost use Rattle.cd_event.specs.Turning.{AskedAfter, HandsOn, RisesOnly, is_keeper};
ghost use Rattle.cd_looks.specs.Answers.{IsFoundAt, IsFaceAt, face_or_empty};

use cd_base::Hash256;
use cd_cell::{Bits, Face};
use cd_event::{LookFault, LookUp};

/// One look of one hash.
pub fn look_once<L: LookUp>(look: &mut L, hash: &Hash256) -> Result<Option<Face>, LookFault>
    requires { L.ready look.old }
    ensures ready { L.ready look.new }
    ensures tree { L.tree look.new ≡ L.tree look.old }
    ensures face { IfOk result (IsFoundAt L.Hash.digest_of (L.tree look.old) hash.now) }
    ensures good { IfOk result (λ found. IfSome found IsGoodFace) }
    ensures asked { AskedAfter result 1 (L.asked look.old) (L.asked look.new) }
    ensures hands_on { HandsOn L.goes L.fails (is_keeper (look_reply result)) look.old look.new }
    ensures no_pin { result ≢ Err LookFault.NoPin }
    ensures faults { RisesOnly (is_keeper (look_reply result)) (L.faults look.old) (L.faults look.new) }
{
    let found = look.look(&[*hash])?;
    Ok(found[0])
}

/// One look of one hash. A face that isn't given counts as that of the ordinary cell without bits and references.
pub fn look_face<L: LookUp>(look: &mut L, hash: &Hash256) -> Result<Face, LookFault>
    requires { L.ready look.old }
    ensures ready { L.ready look.new }
    ensures tree { L.tree look.new ≡ L.tree look.old }
    ensures face { IfOk result (IsFaceAt L.Hash.digest_of (L.tree look.old) hash.now) }
    ensures good { IfOk result IsGoodFace }
    ensures asked { AskedAfter result 1 (L.asked look.old) (L.asked look.new) }
    ensures hands_on { HandsOn L.goes L.fails (is_keeper (look_reply result)) look.old look.new }
    ensures no_pin { result ≢ Err LookFault.NoPin }
    ensures faults { RisesOnly (is_keeper (look_reply result)) (L.faults look.old) (L.faults look.new) }
{
    match look_once(look, hash) {
        Ok(found) => Ok(face_or_empty(found)),
        Err(fault) => Err(fault),
    }
}

/// A face that isn't given counts as that of the ordinary cell without bits and references.
pub fn face_or_empty(found: Option<Face>) -> Face
    ensures value { result ≡ face_or_empty found }
    ensures good { IfSome found IsGoodFace → IsGoodFace result }
{
    match found {
        Some(face) => face,
        None => Face::new(false, Bits::from_slice(&[], 0).unwrap(), &[]),
    }
}
