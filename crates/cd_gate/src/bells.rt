//! Where seats sleep until their ticket is served.
ghost use Rattle.std.specs.Prelude.{◌<◌};

use atomic_table::{Play, Table, TableRule};
use cd_base::Memory;
use std::alloc::Global;
use std::marker::Model;
use std::sync::Wait;

/// How many bells there are; tickets have them in turn, so that a ring wakes few who wait for another ticket.
const BELLS: usize = 16;

/// Nobody sleeps by the bell.
const QUIET: u64 = 0;

/// Somebody may sleep by the bell.
const AWAITED: u64 = 1;

/// A bell's word may be anything, and a step on it tells nothing.
struct Untold;

impl TableRule<(), (), ()> for Untold {
    ghost holds = { λ _ _. Unit {0} };

    ghost first = { λ _. tt };
}

impl Play<(), ()> for Untold {
    ghost then = { λ _ _ _ _. Unit {0} };
}

/// The bells of a gate. They wake who sleeps by them, and no contract sees more of them.
#[derive(Drop)]
pub(crate) struct Bells {
    table: Table<(), (), (), Untold, Global>,
}

impl Model for Bells {
    ghost use Rattle.std.specs.Prelude.{◌≡◌};

    ghost Value = { Unit {0} };

    ghost view = { λ _. tt };

    ghost invariant = { λ b. b.table.shared.table_id.words ≡ 16 };
}

/// The bell of a ticket.
fn bell_of(ticket: u64) -> usize
    ensures { result < 16 }
{
    (ticket % BELLS as u64) as usize
}

impl Bells {
    /// Bells by which nobody sleeps.
    pub fn new(alloc: Global) -> Result<Bells, Memory> {
        match Table::of_words(alloc, &[QUIET; BELLS], &()) {
            Ok((table, _)) => Ok(Bells { table }),
            Err(_) => Err(Memory),
        }
    }

    /// Says that somebody is about to sleep by the ticket's bell: a ring from here on ends the sleep, or keeps it from
    /// beginning. So who says it looks once more before the sleep.
    pub fn await_ring(&self, ticket: u64) {
        let shared = &self.table.shared;
        shared.swap_new_seat::<Untold>(bell_of(ticket), AWAITED);
    }

    /// Sleeps until the ticket's bell rings, if it hasn't since it was awaited. It may also return for no reason.
    pub fn sleep<R: Wait>(&self, rt: &R, ticket: u64) {
        self.table.shared.park(rt, bell_of(ticket), AWAITED as u32);
    }

    /// Wakes those who sleep by the ticket's bell. A wake is a call of the system, so none is made where nobody does.
    pub fn ring(&self, ticket: u64) {
        let bell = bell_of(ticket);
        let shared = &self.table.shared;
        let (was, _) = shared.swap_new_seat::<Untold>(bell, QUIET);
        if was == AWAITED {
            shared.wake_all(bell);
        }
    }
}
