//! A worker's turns on a shared core.
ghost use Rattle.std.specs.Prelude.{◌≡◌};
ghost use Rattle.cd_gate.specs.Gates.{IsSeatOf};

use crate::shared::{DbSeat, SharedDb};
use cd_base::Hash256;
use cd_block::{BlockId, BlockIds};
use cd_cell::{Face, Hash32, Prepared};
use cd_event::{
    At, ExpireFault, LookFault, MergeFault, PinFault, Pinned, Stored, Turns, UnpinFault, ZeroFault,
};
use cd_keeper::Keeper;
use std::sync::Wait;

/// One seat's turns on a shared core, by the runtime that they wait with.
#[derive(Drop)]
pub struct AtDb<'a, K: Keeper, H: Hash32, R: Wait + Sync> {
    rt: &'a R,
    db: &'a SharedDb<K, H>,
    seat: DbSeat<K, H>,
    ghost of: { IsSeatOf db.now seat },
}

impl<'a, K: Keeper, H: Hash32, R: Wait + Sync> AtDb<'a, K, H, R> {
    /// The turns of the seat's worker.
    pub fn new(rt: &'a R, db: &'a SharedDb<K, H>, seat: DbSeat<K, H>) -> AtDb<'a, K, H, R>
        requires seat { IsSeatOf db.now seat }
        ensures seat { result.seat ≡ seat }
        ensures db { result.db.now ≡ db.now }
    {
        AtDb { rt, db, seat }
    }

    /// Gives the seat back.
    pub fn into_seat(self) -> DbSeat<K, H>
        ensures { result ≡ self.entry.seat }
    {
        let AtDb { rt: _, db: _, seat } = self;
        seat
    }
}

impl<'a, K: Keeper, H: Hash32, R: Wait + Sync> Turns for AtDb<'a, K, H, R> {
    ghost use Rattle.std.specs.Prelude.{◌≡◌};
    ghost use mathlib.Core.Path.{refl, ◌∙◌};
    ghost use Rattle.cd_core.specs.Cores.{failures};
    ghost use Rattle.cd_core.specs.Workers.{made_by, named_by};
    ghost use Rattle.cd_shared.specs.Going.{seat_stays, seat_further};
    ghost use Rattle.cd_shared.specs.SharedTurns.{SeatGoesOn};

    type Hash = H;

    ghost worker = { λ t. t.seat.lowest };

    ghost faults = { λ t. failures (made_by t.seat.lowest t.seat.seen) };

    ghost made = { λ t. made_by t.seat.lowest t.seat.seen };

    ghost named = { λ t. named_by H.digest_of K.held t.seat.lowest t.db.now.start t.seat.seen };

    ghost goes = { λ t u. (u.db ≡ t.db) × SeatGoesOn t.seat u.seat };

    fn take_zero(
        &mut self,
        at: At,
        id: BlockId,
        tops: BlockIds,
        slot: &mut Option<Prepared<H>>,
    ) -> Result<Stored, ZeroFault> {
        let Some(prepared) = slot.take() else {
            unreachable!()
        };
        self.db
            .zero(self.rt, &mut self.seat, at, id, tops, prepared)
    }

    fn pin(&mut self, at: At, id: BlockId) -> Result<Pinned, PinFault> {
        self.db.pin(self.rt, &mut self.seat, at, id)
    }

    fn look(
        &mut self,
        at: At,
        pin: u64,
        hashes: &[Hash256],
    ) -> Result<Vec<Option<Face>>, LookFault> {
        self.db.look(self.rt, &mut self.seat, at, pin, hashes)
    }

    fn take_merge(
        &mut self,
        at: At,
        pin: u64,
        other: Option<u64>,
        id: BlockId,
        tops: BlockIds,
        slot: &mut Option<Prepared<H>>,
    ) -> Result<Stored, MergeFault> {
        let Some(prepared) = slot.take() else {
            unreachable!()
        };
        self.db.merge(self.rt, &mut self.seat, at, pin, other, id, tops, prepared)
    }

    fn unpin(&mut self, at: At, pin: u64) -> Result<bool, UnpinFault> {
        self.db.unpin(self.rt, &mut self.seat, at, pin)
    }

    fn expire(&mut self, at: At, id: BlockId) -> Result<u64, ExpireFault> {
        self.db.expire(self.rt, &mut self.seat, at, id)
    }

    ghost stays = { λ t. (refl, seat_stays t.seat) };

    ghost further = { λ t u v a b. (b.0 ∙ a.0, seat_further t.seat u.seat v.seat a.1 b.1) };
}
