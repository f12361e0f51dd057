//! Cells are looked up under a pin.
ghost use Rattle.std.specs.Prelude.{◌≡◌, ◌≤◌, ◌+◌, ℕ, length, map, IfOk, IfSome, OnOk};
ghost use Rattle.cd_base.specs.Counts.{one_more};
ghost use Rattle.cd_cell.specs.GoodFace.{IsGoodFace};
ghost use Rattle.cd_keeper.specs.Keeping.{KeepsHeld, HasKeepCause};
ghost use Rattle.cd_record.specs.declared.limits.TheConstants.{GREATEST_COUNT};
ghost use Rattle.cd_event.specs.declared.event.Event.TheVariants.{Look};
ghost use Rattle.cd_event.specs.Replies.{look_reply};
ghost use Rattle.cd_event.specs.Turning.{AreGood, is_keeper, RisesOnly};
ghost use Rattle.cd_world.specs.Told.{ToldWorld, seen};
ghost use Rattle.cd_world.specs.Unfolded.{face_in};
ghost use Rattle.cd_core.specs.Cores.{IsWritable, Holds};
ghost use Rattle.cd_core.specs.Effects.{Adds, AreSeen};
ghost use Rattle.cd_core.specs.Steps.{Did};

use crate::body::{Core, make_room, note};
use crate::replying::look_reply;
use cd_base::Hash256;
use cd_cell::{Face, Hash32};
use cd_event::{Event, LookFault, Who};
use cd_keeper::{KeepFault, Keeper};
use cd_record::decode;
use cd_world::{World, pin_row};
use std::alloc::Global;

impl<K: Keeper, H: Hash32> Core<K, H> {
    /// Looks up cells under a live pin, of all that is held: the face beside each hash, or None where no such cell is
    /// held. One read for each hash, at most 256.
    pub fn look(
        &mut self,
        who: Who,
        pin: u64,
        hashes: &[Hash256],
    ) -> Result<Vec<Option<Face>>, LookFault>
        requires { length hashes.now ≤ 256 }
        ensures start { self.new.start ≡ self.old.start }
        ensures adds { Adds K.held H.digest_of self.old.start self.old.journal who
            (Look pin (length hashes.now)) (look_reply result) self.new.journal }
        ensures cause { RisesOnly (is_keeper (look_reply result))
            (K.faults self.old.keeper) (K.faults self.new.keeper) }
        ensures reads { K.reads self.new.keeper ≤ K.reads self.old.keeper + length hashes.now }
        ensures found { IfOk result (λ found. length found.items ≡ length hashes.now) }
        ensures good { IfOk result (λ found. AreGood found.items) }
        ensures seen { IfOk result (λ found.
            AreSeen K.held H.digest_of self.old.start self.old.journal hashes.now found.items) }
    {
        let Ok(()) = make_room(&mut self.journal, who) else {
            return Err(LookFault::Memory);
        };
        let asked = hashes.len() as u32;
        let answer = look_under::<K, H>(
            self.alloc,
            &mut self.keeper,
            &self.world,
            who,
            pin,
            hashes,
        );
        let reply = look_reply(&answer);
        note(&mut self.journal, who, Event::Look { pin, asked }, reply);
        answer
    }
}

/// Looks up cells where the worker has the pin.
fn look_under<K: Keeper, H: Hash32>(
    alloc: Global,
    keeper: &mut K,
    world: &World,
    who: Who,
    pin: u64,
    hashes: &[Hash256],
) -> Result<Vec<Option<Face>>, LookFault>
    requires kept { IsWritable world.now }
    ensures did { (limit : ℕ) → limit ≤ GREATEST_COUNT
        → Did K.held H.digest_of K.trail {X = H} K.batches K.faults limit world.now keeper.old who
        (Look pin (length hashes.now)) (look_reply result) world.now keeper.new }
    ensures reads { K.reads keeper.new ≤ K.reads keeper.old + length hashes.now }
    ensures found { IfOk result (λ found. length found.items ≡ length hashes.now) }
    ensures good { IfOk result (λ found. AreGood found.items) }
    ensures seen { IfOk result (λ found. (t : ToldWorld) → Holds K.held H.digest_of t keeper.old
        → found.items ≡ map (seen H.digest_of t) hashes.now) }
{
    let Some(_row) = pin_row(world, who.worker, pin) else {
        return Err(LookFault::NoPin);
    };
    match look_all(alloc, keeper, hashes) {
        Ok(found) => Ok(found),
        Err(KeepFault::Failed) => Err(LookFault::Keeper),
        Err(KeepFault::Memory) => Err(LookFault::Memory),
    }
}

/// The face that is stored under a hash. A record that doesn't decode counts as none.
fn look_one<K: Keeper>(keeper: &mut K, hash: &Hash256) -> Result<Option<Face>, KeepFault>
    ensures keeps { KeepsHeld K.held K.trail K.batches keeper.old keeper.new }
    ensures reads { K.reads keeper.new ≡ one_more (K.reads keeper.old) }
    ensures cause { HasKeepCause (K.faults keeper.old) (K.faults keeper.new) result }
    ensures good { IfOk result (λ found. IfSome found IsGoodFace) }
    ensures told { IfOk result (λ found. IfSome (K.held keeper.old)
        (λ contents. found ≡ face_in contents hash.now.0)) }
{
    match keeper.get_cell(hash) {
        Ok(Some(bytes)) => match decode(&bytes) {
            Ok(record) => Ok(Some(record.face)),
            Err(_) => Ok(None),
        },
        Ok(None) => Ok(None),
        Err(fault) => Err(fault),
    }
}

/// The faces that are stored under some hashes.
fn look_all<K: Keeper>(
    alloc: Global,
    keeper: &mut K,
    hashes: &[Hash256],
) -> Result<Vec<Option<Face>>, KeepFault>
    ensures keeps { KeepsHeld K.held K.trail K.batches keeper.old keeper.new }
    ensures reads { K.reads keeper.new ≤ K.reads keeper.old + length hashes.now }
    ensures cause { HasKeepCause (K.faults keeper.old) (K.faults keeper.new) result }
    ensures found { IfOk result (λ found. length found.items ≡ length hashes.now) }
    ensures good { IfOk result (λ found. AreGood found.items) }
    ensures told { IfOk result (λ found. IfSome (K.held keeper.old) (λ contents.
        found.items ≡ map (λ hash. face_in contents hash.0) hashes.now)) }
{
    let mut found = match Vec::with_capacity(alloc, hashes.len()) {
        Ok(found) => found,
        Err(_) => return Err(KeepFault::Memory),
    };
    for hash in hashes {
        let face = look_one(keeper, hash)?;
        if found.push(face).is_err() {
            return Err(KeepFault::Memory);
        }
    }
    Ok(found)
}
