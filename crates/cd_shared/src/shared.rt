//! The shared core and its seats.
ghost use Rattle.std.specs.Prelude.{◌≡◌, ◌<◌, [], length, All, IfOk, IfErr};
ghost use Rattle.cd_gate.specs.Gates.{IsSeatOf, IsFirstSeat, IsWholeSeat, below_part, upper_part, joined_seat};
ghost use Rattle.cd_gate.specs.Histories.{GrewByOthers};
ghost use Rattle.cd_shared.specs.SharedTurns.{worker_of};

use crate::held_core::HeldCore;
use cd_base::Memory;
use cd_cell::Hash32;
use cd_core::Core;
use cd_gate::{Gate, GateSeat};
use cd_keeper::Keeper;
use std::alloc::Global;
use std::marker::Model;

/// A core that threads share, each of which has a seat. Contracts see which one it is, what its core began with, and
/// how many workers' numbers it has.
pub struct SharedDb<K: Keeper, H: Hash32> {
    pub(crate) gate: Gate<HeldCore<K, H>>,
}

impl<K: Keeper, H: Hash32> Model for SharedDb<K, H> {
    ghost use Rattle.cd_gate.specs.Gates.{GateView};
    ghost use Rattle.cd_core.specs.declared.start.CoreStart.{CoreStart};

    ghost Value = { GateView (CoreStart K) };

    ghost view = { λ db. db.gate };
}

/// The right to make calls on one shared core under a range of workers' numbers: it acts as the lowest of them.
/// Contracts see the range, and the entries that the seat has seen: all those that there were when it last made a call.
#[derive(Drop)]
pub struct DbSeat<K: Keeper, H: Hash32> {
    pub(crate) seat: GateSeat<HeldCore<K, H>>,
    pub(crate) worker: u16,
    pub(crate) front: u64,
}

impl<K: Keeper, H: Hash32> Model for DbSeat<K, H> {
    ghost use Rattle.std.specs.Prelude.{◌≡◌, ◌<◌, length, All};
    ghost use Rattle.cd_gate.specs.Gates.{SeatView};
    ghost use Rattle.cd_event.specs.declared.entry.Entry.{Entry};
    ghost use Rattle.cd_core.specs.declared.start.CoreStart.{CoreStart};
    ghost use Rattle.cd_shared.specs.SharedTurns.{worker_of};

    ghost Value = { SeatView (Entry H) (CoreStart K) };

    ghost view = { λ s. s.seat };

    ghost invariant = { λ s. (s.seat.lowest < s.seat.end) × (s.worker ≡ s.seat.lowest)
        × (s.front ≡ length s.seat.seen)
        × All (λ e. worker_of e < s.seat.workers) s.seat.seen };
}

impl<K: Keeper, H: Hash32> DbSeat<K, H> {
    /// How many entries the seat has seen. Each was made under a number of the shared core's.
    pub fn front(&self) -> u64
        ensures length { result ≡ length self.now.seen }
        ensures numbers { All (λ e. worker_of e < self.now.workers) self.now.seen }
    {
        self.front
    }
}

impl<K: Keeper, H: Hash32> SharedDb<K, H> {
    /// Shares a core among workers numbered from 0, and gives the seat that has all their numbers. Where memory runs
    /// out the core comes back.
    pub fn new(
        alloc: Global,
        core: Core<K, H>,
        workers: u16,
    ) -> Result<(SharedDb<K, H>, DbSeat<K, H>), (Core<K, H>, Memory)>
        requires some { 0 < workers }
        requires empty { core.journal ≡ [] }
        ensures start { IfOk result (λ made. made.0.start ≡ core.start) }
        ensures workers { IfOk result (λ made. made.0.workers ≡ workers) }
        ensures seat { IfOk result (λ made. IsFirstSeat made.0 made.1) }
        ensures kept { IfErr result (λ back. back.0 ≡ core) }
    {
        match Gate::new(alloc, HeldCore { core }, workers) {
            Ok((gate, seat)) => Ok((
                SharedDb { gate },
                DbSeat {
                    seat,
                    worker: 0,
                    front: 0,
                },
            )),
            Err((HeldCore { core }, error)) => Err((core, error)),
        }
    }

    /// Hands out the numbers from `at` on. The new seat has seen what the old one has. It takes no memory and waits for
    /// nobody.
    pub fn split(&self, seat: &mut DbSeat<K, H>, at: u16) -> DbSeat<K, H>
        requires seat { IsSeatOf self.now seat.old }
        requires inside { (seat.old.lowest < at) × (at < seat.old.end) }
        ensures below { seat.new ≡ below_part at seat.old }
        ensures upper { result ≡ upper_part at seat.old }
    {
        DbSeat {
            seat: self.gate.split(&mut seat.seat, at),
            worker: at,
            front: seat.front,
        }
    }

    /// Takes back the numbers that follow the seat's. Of the two lists that were seen the longer one stays, and what it
    /// has beyond the shorter one is no entry of the shorter one's numbers. It takes no memory and waits for nobody.
    pub fn join(&self, seat: &mut DbSeat<K, H>, other: DbSeat<K, H>)
        requires seat { IsSeatOf self.now seat.old }
        requires other { IsSeatOf self.now other }
        requires adjacent { other.lowest ≡ seat.old.end }
        ensures seat { seat.new ≡ joined_seat seat.old other }
        ensures mine { GrewByOthers worker_of seat.old.lowest seat.old.end seat.old.seen seat.new.seen }
        ensures theirs { GrewByOthers worker_of other.lowest other.end other.seen seat.new.seen }
    {
        let DbSeat {
            seat: theirs,
            worker: _,
            front,
        } = other;
        self.gate.join(&mut seat.seat, theirs);
        seat.front = seat.front.max(front);
    }

    /// Gives the core back. The seat has all numbers, so nobody else can make calls. It takes no memory and waits for
    /// nobody.
    pub fn close(self, seat: DbSeat<K, H>) -> Core<K, H>
        requires seat { IsSeatOf self seat }
        requires whole { IsWholeSeat self seat }
        ensures journal { result.journal ≡ seat.seen }
        ensures start { result.start ≡ self.start }
    {
        let SharedDb { gate } = self;
        let DbSeat {
            seat,
            worker: _,
            front: _,
        } = seat;
        let HeldCore { core } = gate.close(seat);
        core
    }
}
