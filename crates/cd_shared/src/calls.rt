//! The calls on a shared core, each of them one turn.
ghost use Rattle.std.specs.Prelude.{◌≡◌, ◌<◌, ◌≤◌, List, [], length, All, IfOk};
ghost use Rattle.cd_cell.specs.Listings.{Fits};
ghost use Rattle.cd_event.specs.declared.entry.Entry.{Entry};
ghost use Rattle.cd_event.specs.declared.event.Event.TheVariants.{Zero, Pin, Look, Merge, Unpin, Expire};
ghost use Rattle.cd_event.specs.Pins.{MayMerge};
ghost use Rattle.cd_event.specs.Replies.{who_of, zero_reply, pin_reply, look_reply};
ghost use Rattle.cd_event.specs.Replies.{merge_reply, unpin_reply, expire_reply};
ghost use Rattle.cd_event.specs.Turning.{MayName, IsStored, AreGood};
ghost use Rattle.cd_gate.specs.Gates.{IsSeatOf, MayPrecede};
ghost use Rattle.cd_core.specs.Effects.{IsPinOf, AreSeen};
ghost use Rattle.cd_core.specs.Workers.{made_by, named_by};
ghost use Rattle.cd_shared.specs.SharedTurns.{worker_of, IsCoreTurn};

use crate::deeds::{ExpireDeed, LookDeed, MergeDeed, PinDeed, UnpinDeed, ZeroDeed};
use crate::shared::{DbSeat, SharedDb};
use cd_base::Hash256;
use cd_block::{BlockId, BlockIds};
use cd_cell::{Face, Hash32, Prepared};
use cd_event::{
    At, ExpireFault, LookFault, MergeFault, PinFault, Pinned, Stored, UnpinFault, Who, ZeroFault,
};
use cd_keeper::Keeper;
use std::sync::Wait;

impl<K: Keeper, H: Hash32> DbSeat<K, H> {
    /// The full name of one of the worker's tasks.
    fn who(&self, at: At) -> Who
        ensures { result ≡ who_of at self.now.lowest }
    {
        Who {
            phase: at.phase,
            worker: self.worker,
            task: at.task,
        }
    }
}

impl<K: Keeper, H: Hash32> SharedDb<K, H> {
    /// Pins a kept block, so that its state stays as it is until the pin ends.
    pub fn pin<R: Wait>(
        &self,
        rt: &R,
        seat: &mut DbSeat<K, H>,
        at: At,
        id: BlockId,
    ) -> Result<Pinned, PinFault>
        requires seat { IsSeatOf self.now seat.old }
        ensures seat { seat.new ≡ record seat.old { seen = seat.new.seen } }
        ensures range { (seat.old.lowest < seat.old.end) × (seat.old.end ≤ seat.old.workers) }
        ensures numbers { All (λ e. worker_of e < seat.old.workers) seat.new.seen }
        ensures turn { (before : List (Entry H)) × MayPrecede worker_of seat.old before
            × IsCoreTurn K.held H.digest_of K.trail K.batches K.faults self.now.start before
            (who_of at seat.old.lowest) (Pin id) (pin_reply result) seat.new.seen
            × IfOk result (IsPinOf K.held H.digest_of self.now.start before id) }
    {
        let who = seat.who(at);
        let (answer, front) = self.gate.turn(rt, &mut seat.seat, PinDeed { who, id });
        seat.front = front;
        answer
    }

    /// Looks up cells under a live pin: the face beside each hash, or None where no such cell is held.
    pub fn look<R: Wait>(
        &self,
        rt: &R,
        seat: &mut DbSeat<K, H>,
        at: At,
        pin: u64,
        hashes: &[Hash256],
    ) -> Result<Vec<Option<Face>>, LookFault>
        requires seat { IsSeatOf self.now seat.old }
        requires few { length hashes.now ≤ 256 }
        ensures seat { seat.new ≡ record seat.old { seen = seat.new.seen } }
        ensures range { (seat.old.lowest < seat.old.end) × (seat.old.end ≤ seat.old.workers) }
        ensures numbers { All (λ e. worker_of e < seat.old.workers) seat.new.seen }
        ensures turn { (before : List (Entry H)) × MayPrecede worker_of seat.old before
            × IsCoreTurn K.held H.digest_of K.trail K.batches K.faults self.now.start before
            (who_of at seat.old.lowest) (Look pin (length hashes.now)) (look_reply result) seat.new.seen
            × IfOk result (λ found. AreSeen K.held H.digest_of self.now.start before hashes.now found.items) }
        ensures found { IfOk result (λ found. length found.items ≡ length hashes.now) }
        ensures good { IfOk result (λ found. AreGood found.items) }
    {
        let who = seat.who(at);
        let deed = LookDeed { who, pin, hashes };
        let (answer, front) = self.gate.turn(rt, &mut seat.seat, deed);
        seat.front = front;
        answer
    }

    /// Ends a pin. True exactly where its block went with it, which was leaving and had no other pin.
    pub fn unpin<R: Wait>(
        &self,
        rt: &R,
        seat: &mut DbSeat<K, H>,
        at: At,
        pin: u64,
    ) -> Result<bool, UnpinFault>
        requires seat { IsSeatOf self.now seat.old }
        ensures seat { seat.new ≡ record seat.old { seen = seat.new.seen } }
        ensures range { (seat.old.lowest < seat.old.end) × (seat.old.end ≤ seat.old.workers) }
        ensures numbers { All (λ e. worker_of e < seat.old.workers) seat.new.seen }
        ensures turn { (before : List (Entry H)) × MayPrecede worker_of seat.old before
            × IsCoreTurn K.held H.digest_of K.trail K.batches K.faults self.now.start before
            (who_of at seat.old.lowest) (Unpin pin) (unpin_reply result) seat.new.seen }
    {
        let who = seat.who(at);
        let (answer, front) = self.gate.turn(rt, &mut seat.seat, UnpinDeed { who, pin });
        seat.front = front;
        answer
    }

    /// Drops the blocks that a masterchain block and its shard tops have passed, but for pinned ones, which are leaving
    /// from then on. The answer is the number of both.
    pub fn expire<R: Wait>(
        &self,
        rt: &R,
        seat: &mut DbSeat<K, H>,
        at: At,
        id: BlockId,
    ) -> Result<u64, ExpireFault>
        requires seat { IsSeatOf self.now seat.old }
        ensures seat { seat.new ≡ record seat.old { seen = seat.new.seen } }
        ensures range { (seat.old.lowest < seat.old.end) × (seat.old.end ≤ seat.old.workers) }
        ensures numbers { All (λ e. worker_of e < seat.old.workers) seat.new.seen }
        ensures turn { (before : List (Entry H)) × MayPrecede worker_of seat.old before
            × IsCoreTurn K.held H.digest_of K.trail K.batches K.faults self.now.start before
            (who_of at seat.old.lowest) (Expire id) (expire_reply result) seat.new.seen }
    {
        let who = seat.who(at);
        let (answer, front) = self.gate.turn(rt, &mut seat.seat, ExpireDeed { who, id });
        seat.front = front;
        answer
    }

    /// Stores a zero state, all of whose cells are listed. `tops` are the shard tops of a masterchain block.
    pub fn zero<R: Wait>(
        &self,
        rt: &R,
        seat: &mut DbSeat<K, H>,
        at: At,
        id: BlockId,
        tops: BlockIds,
        prepared: Prepared<H>,
    ) -> Result<Stored, ZeroFault>
        requires seat { IsSeatOf self.now seat.old }
        requires tops { MayName id tops }
        requires whole { Fits H.digest_of prepared.root prepared.cells [] }
        ensures seat { seat.new ≡ record seat.old { seen = seat.new.seen } }
        ensures range { (seat.old.lowest < seat.old.end) × (seat.old.end ≤ seat.old.workers) }
        ensures numbers { All (λ e. worker_of e < seat.old.workers) seat.new.seen }
        ensures turn { (before : List (Entry H)) × MayPrecede worker_of seat.old before
            × IsCoreTurn K.held H.digest_of K.trail K.batches K.faults self.now.start before
            (who_of at seat.old.lowest) (Zero id tops prepared) (zero_reply result) seat.new.seen }
        ensures stored { IfOk result (IsStored prepared) }
    {
        let who = seat.who(at);
        let deed = ZeroDeed {
            who,
            id,
            tops,
            prepared,
        };
        let (answer, front) = self.gate.turn(rt, &mut seat.seat, deed);
        seat.front = front;
        answer
    }

    /// Stores a block over the state of a pinned parent, or over those of two, the left half of the shard first. Ok
    /// ends the pins.
    pub fn merge<R: Wait>(
        &self,
        rt: &R,
        seat: &mut DbSeat<K, H>,
        at: At,
        pin: u64,
        other: Option<u64>,
        id: BlockId,
        tops: BlockIds,
        prepared: Prepared<H>,
    ) -> Result<Stored, MergeFault>
        requires seat { IsSeatOf self.now seat.old }
        requires tops { MayName id tops }
        requires fits { MayMerge H.digest_of (made_by seat.old.lowest seat.old.seen)
            (named_by H.digest_of K.held seat.old.lowest self.now.start seat.old.seen) pin other prepared }
        ensures seat { seat.new ≡ record seat.old { seen = seat.new.seen } }
        ensures range { (seat.old.lowest < seat.old.end) × (seat.old.end ≤ seat.old.workers) }
        ensures numbers { All (λ e. worker_of e < seat.old.workers) seat.new.seen }
        ensures turn { (before : List (Entry H)) × MayPrecede worker_of seat.old before
            × IsCoreTurn K.held H.digest_of K.trail K.batches K.faults self.now.start before
            (who_of at seat.old.lowest) (Merge pin other id tops prepared) (merge_reply result) seat.new.seen }
        ensures stored { IfOk result (IsStored prepared) }
    {
        let who = seat.who(at);
        let deed = MergeDeed {
            who,
            pin,
            other,
            id,
            tops,
            prepared,
        };
        let (answer, front) = self.gate.turn(rt, &mut seat.seat, deed);
        seat.front = front;
        answer
    }
}
