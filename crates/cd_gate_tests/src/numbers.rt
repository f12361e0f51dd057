//! A list of numbers behind the gate, each with the worker who added it.
use cd_base::Memory;
use cd_gate::{Deed, Journaled};

/// A number that a worker added.
#[derive(Drop)]
pub struct Note {
    pub worker: u16,
    pub amount: u64,
}

/// What a list began with. No value of it is made.
pub struct Beginning {
    pub limit: u64,
}

/// The numbers so far.
#[derive(Drop)]
pub struct Numbers {
    pub notes: Vec<Note>,
    pub limit: u64,
}

impl Journaled for Numbers {
    type Entry = Note;

    type Start = Beginning;

    ghost number = { λ note. note.worker };

    ghost entries = { λ list. list.notes.items };

    ghost start = { λ list. record { limit = list.limit } };
}

/// Adds a number, and answers how many stood before it.
#[derive(Drop)]
pub struct Add {
    pub worker: u16,
    pub amount: u64,
}

impl Deed<Numbers> for Add {
    ghost use Rattle.std.specs.Prelude.{◌≡◌, ◌++◌, ◌∷◌, [], length, MatchResult};

    type Answer = Result<usize, Memory>;

    ghost by = { λ add. add.worker };

    ghost may = { λ add start before. Unit {0} };

    ghost did = { λ add start before answer after. MatchResult answer
        (λ count. (count ≡ length before)
        × (after ≡ before ++ record { worker = add.worker; amount = add.amount } ∷ []))
        (λ _. after ≡ before) };

    fn act(self, value: &mut Numbers) -> Result<usize, Memory> {
        let count = value.notes.len();
        value.notes.push(Note {
            worker: self.worker,
            amount: self.amount,
        })?;
        Ok(count)
    }
}

/// Counts the numbers asked that are no more than the list's limit. It adds none.
#[derive(Drop)]
pub struct Count<'a> {
    pub worker: u16,
    pub asked: &'a [u64],
}

impl<'a> Deed<Numbers> for Count<'a> {
    ghost use Rattle.std.specs.Prelude.{◌≡◌, ◌≤◌, length};

    type Answer = usize;

    ghost by = { λ count. count.worker };

    ghost may = { λ count start before. Unit {0} };

    ghost did = { λ count start before answer after. (after ≡ before) × (answer ≤ length count.asked.now) };

    fn act(self, value: &mut Numbers) -> usize {
        let limit = value.limit;
        self.asked.iter().filter(|amount| **amount <= limit).count()
    }
}
