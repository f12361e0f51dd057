ghost use Rattle.std.specs.Prelude.{◌≡◌, ◌≤◌, ℕ, List, [], length, false};
ghost use Rattle.std.specs.Prelude.{IsSome, IfSome, IfOk, OnOk, MatchResult};
ghost use Rattle.cd_cell.specs.Listings.{Fits};
ghost use Rattle.cd_event.specs.declared.entry.Entry.{Entry};
ghost use Rattle.cd_event.specs.Replies.{zero_reply, pin_reply, look_reply, merge_reply, unpin_reply, expire_reply};
ghost use Rattle.cd_event.specs.Pins.{Named, AddsPin, AreStates, MayMerge, IsOfOther, is_live, are_live};
ghost use Rattle.cd_event.specs.Turning.{Turned, MayName, IsStored, AreGood, AreHeldFaces};

use crate::answers::{Pinned, Stored};
use crate::event::Event;
use crate::faults::{ExpireFault, LookFault, MergeFault, PinFault, UnpinFault, ZeroFault};
use crate::names::At;
use cd_base::Hash256;
use cd_block::{BlockId, BlockIds};
use cd_cell::{Face, Hash32, Prepared};

/// A worker's calls on a core, each of them one turn. The calls take no runtime: what waits for its turn keeps one.
///
/// What makes turns writes `take_zero` and `take_merge`, whose value lies in a slot, and has `zero` and `merge` by
/// them: the checker can't yet prove an impl that takes a prepared value by itself.
pub trait Turns {
    type Hash: Hash32;

    /// The number of the worker. It never changes.
    ghost worker: { Self → ℕ };

    /// How often the keeper failed in these calls. The count stands still at the last u64.
    ghost faults: { Self → ℕ };

    /// The worker's own entries so far.
    ghost made: { Self → List (Entry Self.Hash) };

    /// The worker's pins so far, ended ones included.
    ghost named: { Self → List Named };

    /// What lies between two states. Each call keeps it, whatever it answers.
    ghost goes: { Self → Self → Type 0 };

    /// Stores a zero state, all of whose cells are listed.
    final fn zero(
        &mut self,
        at: At,
        id: BlockId,
        tops: BlockIds,
        prepared: Prepared<Self::Hash>,
    ) -> Result<Stored, ZeroFault>
        requires tops { MayName id tops }
        requires whole { Fits Self.Hash.digest_of prepared.root prepared.cells [] }
        ensures turned { Turned worker faults made goes self.old self.new at
            (Event.Zero id tops prepared) (zero_reply result) }
        ensures named { named self.new ≡ named self.old }
        ensures stored { IfOk result (IsStored prepared) }
    {
        let mut slot = Some(prepared);
        self.take_zero(at, id, tops, &mut slot)
    }

    /// `zero`, of the value that lies in the slot.
    fn take_zero(
        &mut self,
        at: At,
        id: BlockId,
        tops: BlockIds,
        slot: &mut Option<Prepared<Self::Hash>>,
    ) -> Result<Stored, ZeroFault>
        requires full { IsSome slot.old }
        requires tops { MayName id tops }
        requires whole { IfSome slot.old (λ p. Fits Self.Hash.digest_of p.root p.cells []) }
        ensures turned { IfSome slot.old (λ p. Turned worker faults made goes self.old self.new at
            (Event.Zero id tops p) (zero_reply result)) }
        ensures named { named self.new ≡ named self.old }
        ensures stored { IfSome slot.old (λ p. IfOk result (IsStored p)) };

    /// Pins a kept block, so that its state stays as it is until the pin ends.
    fn pin(&mut self, at: At, id: BlockId) -> Result<Pinned, PinFault>
        ensures turned { Turned worker faults made goes self.old self.new at
            (Event.Pin id) (pin_reply result) }
        ensures named { MatchResult result
            (AddsPin Self.Hash.digest_of (named self.old) (named self.new))
            (λ _. named self.new ≡ named self.old) }
        ensures states { OnOk result (AreStates Self.Hash.digest_of (made self.new) (named self.new)) };

    /// Looks up cells under a pin: beside each hash its cell's face, or None where it isn't held.
    fn look(&mut self, at: At, pin: u64, hashes: &[Hash256]) -> Result<Vec<Option<Face>>, LookFault>
        requires { length hashes.now ≤ 256 }
        ensures turned { Turned worker faults made goes self.old self.new at
            (Event.Look pin (length hashes.now)) (look_reply result) }
        ensures named { named self.new ≡ named self.old }
        ensures found { IfOk result (λ found. length found.items ≡ length hashes.now) }
        ensures good { IfOk result (λ found. AreGood found.items) }
        ensures faces { IfOk result (λ found.
            AreHeldFaces Self.Hash.digest_of (made self.old) (named self.old) hashes.now found.items) }
        ensures states { AreStates Self.Hash.digest_of (made self.old) (named self.old) }
        ensures no_pin { result ≡ Err LookFault.NoPin → is_live pin (made self.old) ≡ false };

    /// Stores a block over the state of a pinned parent, or over those of two where `other` is given, the left half
    /// of the shard first. Ok ends the pins.
    final fn merge(
        &mut self,
        at: At,
        pin: u64,
        other: Option<u64>,
        id: BlockId,
        tops: BlockIds,
        prepared: Prepared<Self::Hash>,
    ) -> Result<Stored, MergeFault>
        requires tops { MayName id tops }
        requires fits { MayMerge Self.Hash.digest_of (made self.old) (named self.old) pin other prepared }
        ensures turned { Turned worker faults made goes self.old self.new at
            (Event.Merge pin other id tops prepared) (merge_reply result) }
        ensures named { named self.new ≡ named self.old }
        ensures stored { IfOk result (IsStored prepared) }
        ensures no_pin { result ≡ Err MergeFault.NoPin → are_live pin other (made self.old) ≡ false }
        ensures wrong { result ≡ Err MergeFault.WrongPin
            → IsOfOther Self.Hash.digest_of (named self.old) pin other prepared.old }
    {
        let mut slot = Some(prepared);
        self.take_merge(at, pin, other, id, tops, &mut slot)
    }

    /// `merge`, of the value that lies in the slot.
    fn take_merge(
        &mut self,
        at: At,
        pin: u64,
        other: Option<u64>,
        id: BlockId,
        tops: BlockIds,
        slot: &mut Option<Prepared<Self::Hash>>,
    ) -> Result<Stored, MergeFault>
        requires full { IsSome slot.old }
        requires tops { MayName id tops }
        requires fits { IfSome slot.old
            (MayMerge Self.Hash.digest_of (made self.old) (named self.old) pin other) }
        ensures turned { IfSome slot.old (λ p. Turned worker faults made goes self.old self.new at
            (Event.Merge pin other id tops p) (merge_reply result)) }
        ensures named { named self.new ≡ named self.old }
        ensures stored { IfSome slot.old (λ p. IfOk result (IsStored p)) }
        ensures no_pin { result ≡ Err MergeFault.NoPin → are_live pin other (made self.old) ≡ false }
        ensures wrong { result ≡ Err MergeFault.WrongPin → IfSome slot.old
            (λ p. IsOfOther Self.Hash.digest_of (named self.old) pin other p.old) };

    /// Ends a pin. True exactly where its block went with it, which was leaving and had no other pin.
    fn unpin(&mut self, at: At, pin: u64) -> Result<bool, UnpinFault>
        ensures turned { Turned worker faults made goes self.old self.new at
            (Event.Unpin pin) (unpin_reply result) }
        ensures named { named self.new ≡ named self.old }
        ensures no_pin { result ≡ Err UnpinFault.NoPin → is_live pin (made self.old) ≡ false };

    /// Drops the blocks that a masterchain block and its shard tops have passed, but for pinned ones, which are
    /// leaving from then on. The answer is the number of both.
    fn expire(&mut self, at: At, id: BlockId) -> Result<u64, ExpireFault>
        ensures turned { Turned worker faults made goes self.old self.new at
            (Event.Expire id) (expire_reply result) }
        ensures named { named self.new ≡ named self.old };

    ghost stays: { (x : Self) → goes x x };

    ghost further: { (x y z : Self) → goes x y → goes y z → goes x z };
}
