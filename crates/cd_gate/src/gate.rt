//! The gate and its seats.
ghost use Rattle.std.specs.Prelude.{◌≡◌, ◌<◌, ◌≤◌, List, [], All, IfOk, IfErr};
ghost use Rattle.cd_gate.specs.declared.seat_state.Role.TheVariants.{Idle};
ghost use Rattle.cd_gate.specs.Histories.{GrewByOthers, GrewByTurn, longer};
ghost use Rattle.cd_gate.specs.Gates.{IsGateTable, IsSameSeat, IsSeatOf, IsFirstSeat, IsWholeSeat, MayPrecede, below_part, upper_part, joined_seat};

use crate::bells::Bells;
use crate::journaled::{Deed, Journaled};
use crate::plays::{SplitAt, SplitPoint};
use crate::rule::{GateTable, Origin, OwnTable, TableSeat};
use crate::steps::{close, give_back, take_in, take_value};
use atomic_table::{Refused, Table};
use cd_base::Memory;
use std::alloc::{AllocFailed, Global};
use std::marker::{Brand, Model};
use std::snapshot::Snapshot;
use std::sync::Wait;

/// One value, which goes from turn to turn among threads. Contracts see which gate it is, what its value began with, and
/// how many workers' numbers it has.
pub struct Gate<T: Journaled> {
    table: OwnTable<T>,
    bells: Bells,
}

impl<T: Journaled> Model for Gate<T> {
    ghost use Rattle.std.specs.Prelude.{◌<◌};
    ghost use Rattle.cd_gate.specs.Gates.{GateView, IsSized};

    ghost Value = { GateView T.Start };

    ghost view = { λ g. record {
      name = g.table.shared.table_id;
      start = T.start g.table.shared.key.first.value;
      workers = g.table.shared.key.workers;
    } };

    ghost invariant = { λ g. IsSized g.table.shared.table_id × (0 < g.table.shared.key.workers) };
}

/// The right to take turns at one gate under a range of workers' numbers. Contracts see the range, and the entries that
/// the seat has seen: all those that were there when it last had a turn.
#[derive(Drop)]
pub struct GateSeat<T: Journaled> {
    seat: TableSeat<T>,
}

impl<T: Journaled> Model for GateSeat<T> {
    ghost use Rattle.cd_gate.specs.Gates.{SeatView, view_of, IsResting};

    ghost Value = { SeatView T.Entry T.Start };

    ghost view = { λ s. view_of s.seat };

    ghost invariant = { λ s. IsResting T.number s.seat };
}

/// The numbers from `at` on, as a seat of their own.
fn split_off<T: Journaled, C: SplitPoint>(
    table: &GateTable<T>,
    seat: &mut TableSeat<T>,
    at: u16,
) -> TableSeat<T>
    requires table { IsGateTable table.now.table_id seat.old.table_id }
    requires idle { seat.old.me.0.role ≡ Idle }
    requires inside { (seat.old.me.0.lowest < at) × (at < seat.old.me.0.end) }
    requires at { C.at ≡ at }
    ensures same { IsSameSeat seat.old seat.new }
    ensures below { seat.new.me ≡ (record seat.old.me.0 { end = at }, seat.old.me.1) }
    ensures table { result.table_id ≡ seat.old.table_id }
    ensures upper { result.me ≡ (record seat.old.me.0 { lowest = at }, []) }
{
    table.split_seat::<SplitAt<C>>(seat)
}

impl<T: Journaled> Gate<T> {
    /// A gate round the value, for workers numbered from 0, and the seat that has all their numbers. Where memory runs
    /// out the value comes back.
    pub fn new(alloc: Global, value: T, workers: u16) -> Result<(Gate<T>, GateSeat<T>), (T, Memory)>
        requires some { 0 < workers }
        requires empty { T.entries value ≡ [] }
        ensures start { IfOk result (λ made. made.0.start ≡ T.start value) }
        ensures workers { IfOk result (λ made. made.0.workers ≡ workers) }
        ensures seat { IfOk result (λ made. IsFirstSeat made.0 made.1) }
        ensures kept { IfErr result (λ back. back.0 ≡ value) }
    {
        let Ok(bells) = Bells::new(alloc) else {
            return Err((value, Memory));
        };
        let origin = Origin {
            first: Snapshot::of(&value),
            workers,
        };
        let mut slots = Vec::new(alloc);
        if let Err(failed) = slots.push(Some(value)) {
            let AllocFailed { value } = failed;
            slots.destroy_empty();
            return Err((value.unwrap(), Memory));
        }
        match Table::new(alloc, &[0, 0], slots, &origin) {
            Ok((table, seat)) => Ok((Gate { table, bells }, GateSeat { seat })),
            Err(Refused { mut slots }) => {
                let value = slots.pop().unwrap();
                slots.destroy_empty();
                Err((value.unwrap(), Memory))
            }
        }
    }

    /// Hands out the numbers from `at` on. The new seat has seen what the old one has. It takes no memory and waits for
    /// nobody.
    pub fn split(&self, seat: &mut GateSeat<T>, at: u16) -> GateSeat<T>
        requires seat { IsSeatOf self.now seat.old }
        requires inside { (seat.old.lowest < at) × (at < seat.old.end) }
        ensures below { seat.new ≡ below_part at seat.old }
        ensures upper { result ≡ upper_part at seat.old }
    {
        GateSeat {
            seat: split_off::<T, Brand>(&self.table.shared, &mut seat.seat, at),
        }
    }

    /// Takes back the numbers that follow the seat's. Of the two lists that were seen the longer one stays, and what it
    /// has beyond the shorter one is no entry of the shorter one's numbers. It takes no memory and waits for nobody.
    pub fn join(&self, seat: &mut GateSeat<T>, other: GateSeat<T>)
        requires seat { IsSeatOf self.now seat.old }
        requires other { IsSeatOf self.now other }
        requires adjacent { other.lowest ≡ seat.old.end }
        ensures seat { seat.new ≡ joined_seat seat.old other }
        ensures mine { GrewByOthers T.number seat.old.lowest seat.old.end seat.old.seen seat.new.seen }
        ensures theirs { GrewByOthers T.number other.lowest other.end other.seen seat.new.seen }
    {
        let GateSeat { seat: taken } = other;
        take_in(&self.table.shared, &mut seat.seat, taken);
    }

    /// Gives the value back. The seat has all numbers, so nobody else can have the value. It takes no memory and waits for
    /// nobody.
    pub fn close(self, seat: GateSeat<T>) -> T
        requires seat { IsSeatOf self seat }
        requires whole { IsWholeSeat self seat }
        ensures entries { T.entries result ≡ seat.seen }
        ensures start { T.start result ≡ self.start }
    {
        let Gate { table, bells: _ } = self;
        let GateSeat { seat: taken } = seat;
        close(table, taken)
    }

    /// Waits for the seat's turn, lends the value to the deed, and serves the next. Beside what the deed takes it takes no
    /// memory.
    pub fn turn<D: Deed<T>, R: Wait>(&self, rt: &R, seat: &mut GateSeat<T>, deed: D) -> D::Answer
        requires seat { IsSeatOf self.now seat.old }
        requires by { D.by deed ≡ seat.old.lowest }
        requires may { (before : List T.Entry) → MayPrecede T.number seat.old before
            → D.may deed self.now.start before }
        // The seat has seen more, and is else as it was.
        ensures seat { seat.new ≡ record seat.old { seen = seat.new.seen } }
        ensures range { (seat.old.lowest < seat.old.end) × (seat.old.end ≤ seat.old.workers) }
        ensures numbers { All (λ e. T.number e < seat.old.workers) seat.new.seen }
        // It has seen the history before the turn, and the turn.
        ensures turn { (before : List T.Entry)
            × MayPrecede T.number seat.old before
            × GrewByTurn T.number seat.old.lowest before seat.new.seen
            × D.did deed self.now.start before result seat.new.seen }
    {
        let table = &self.table.shared;
        let mut value = take_value(rt, table, &self.bells, &mut seat.seat);
        let answer = deed.act(&mut value);
        give_back(table, &self.bells, &mut seat.seat, value);
        answer
    }
}
