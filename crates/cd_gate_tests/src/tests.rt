ghost use Rattle.std.specs.Prelude.{◌≡◌, ◌<◌, []};
ghost use Rattle.cd_gate.specs.Gates.{IsSeatOf};

use crate::numbers::{Add, Count, Numbers};
use cd_gate::{Gate, GateSeat};
use std::alloc::Global;
use std::sync::Wait;
use std::test::Fail;
use std::thread::join;

fn no_numbers(alloc: Global) -> Numbers
    ensures { result.notes.items ≡ [] }
{
    Numbers {
        notes: Vec::new(alloc),
        limit: 7,
    }
}

/// Adds the numbers from 0 on, each in a turn of its own.
fn add_many<R: Wait>(
    rt: &R,
    gate: &Gate<Numbers>,
    mut seat: GateSeat<Numbers>,
    worker: u16,
    times: u64,
) -> GateSeat<Numbers>
    requires seat { IsSeatOf gate.now seat }
    requires worker { seat.lowest ≡ worker }
    ensures { result ≡ record seat { seen = result.seen } }
{
    for amount in 0..times {
        let _ = gate.turn(rt, &mut seat, Add { worker, amount });
    }
    seat
}

// What each worker added stands in its own order, and nothing else is there.
#[test]
fn two_threads_take_turns(rt: HostRuntime) -> Result<(), Fail> {
    let (gate, mut low) = match Gate::new(rt.alloc(), no_numbers(rt.alloc()), 2) {
        Ok(made) => made,
        Err((list, error)) => {
            drop(list);
            return Err(error.into());
        }
    };
    let high = gate.split(&mut low, 1);
    let (mut low, high) = join(
        &rt,
        || -> GateSeat<Numbers>
            requires { IsSeatOf gate low × (low.lowest ≡ 0) }
            ensures { result ≡ record low { seen = result.seen } }
        { add_many(&rt, &gate, low, 0, 100) },
        || -> GateSeat<Numbers>
            requires { IsSeatOf gate high × (high.lowest ≡ 1) }
            ensures { result ≡ record high { seen = result.seen } }
        { add_many(&rt, &gate, high, 1, 100) },
    );
    gate.join(&mut low, high);
    let list = gate.close(low);
    assert_eq!(rt; list.notes.len(), 200);
    assert_eq!(rt; list.limit, 7);
    for worker in 0..2u16 {
        let own = list.notes.iter().filter(|note| note.worker == worker);
        for (place, note) in own.enumerate() {
            assert_eq!(rt; note.amount, place as u64);
        }
    }
    Ok(())
}

// A seat that was split off sees what the others did, and the joined seat has the whole history.
#[test]
fn seats_are_split_and_joined(rt: HostRuntime) -> Result<(), Fail> {
    let (gate, mut low) = match Gate::new(rt.alloc(), no_numbers(rt.alloc()), 16) {
        Ok(made) => made,
        Err((list, error)) => {
            drop(list);
            return Err(error.into());
        }
    };
    let first = gate.turn(
        &rt,
        &mut low,
        Add {
            worker: 0,
            amount: 5,
        },
    );
    let mut high = gate.split(&mut low, 9);
    let second = gate.turn(
        &rt,
        &mut high,
        Add {
            worker: 9,
            amount: 6,
        },
    );
    let asked = [6, 7, 8];
    let count = gate.turn(
        &rt,
        &mut low,
        Count {
            worker: 0,
            asked: &asked,
        },
    );
    let third = gate.turn(
        &rt,
        &mut low,
        Add {
            worker: 0,
            amount: 8,
        },
    );
    gate.join(&mut low, high);
    let list = gate.close(low);
    assert_eq!(rt;
        (first.ok(), second.ok(), third.ok()),
        (Some(0), Some(1), Some(2))
    );
    assert_eq!(rt; count, 2);
    let mut workers = [0; 3];
    for (place, note) in list.notes.iter().take(3).enumerate() {
        workers[place] = note.worker;
    }
    assert_eq!(rt; workers, [0, 9, 0]);
    Ok(())
}
