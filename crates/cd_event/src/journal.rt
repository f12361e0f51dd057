ghost use Rattle.std.specs.Prelude.{◌≡◌, ◌++◌, ◌∷◌, [], List, length, ◌<◌, ◌^◌, OnOk, OnErr};
ghost use Rattle.cd_event.specs.declared.entry.Entry.{Entry};

use crate::entry::Entry;
use cd_base::Memory;
use cd_cell::Hash32;
use std::alloc::Global;
use std::marker::Model;

/// Entries in the order of their turns, seen as a list.
#[derive(Drop)]
pub struct Journal<H: Hash32> {
    entries: Vec<Entry<H>>,
}

impl<H: Hash32> Model for Journal<H> {
    ghost use Rattle.std.specs.Prelude.{List};
    ghost use Rattle.cd_event.specs.declared.entry.Entry.{Entry};

    ghost Value = { List (Entry H) };

    ghost view = { λ j. j.entries.items };
}

impl<H: Hash32> Journal<H> {
    /// A journal without an entry. Takes no memory.
    pub fn new(alloc: Global) -> Journal<H>
        ensures { result ≡ [] }
    {
        Journal {
            entries: Vec::new(alloc),
        }
    }

    /// Adds an entry. Where memory runs out the entry is let go, and nothing changes.
    pub fn push(&mut self, entry: Entry<H>) -> Result<(), Memory>
        ensures ok { OnOk result (self.new ≡ self.old ++ entry ∷ []) }
        ensures fits { OnOk result (length self.new < 2 ^ 64) }
        ensures err { OnErr result (self.new ≡ self.old) }
    {
        if self.entries.push(entry).is_err() {
            return Err(Memory);
        }
        let _ = self.entries.len();
        Ok(())
    }

    /// Takes back the last entry, if there is one.
    pub fn take_back(&mut self)
        ensures { (front : List (Entry H)) (last : Entry H) → self.old ≡ front ++ last ∷ []
            → self.new ≡ front }
    {
        let _ = self.entries.pop();
    }

    /// Puts an entry into the place of the last one, if there is one.
    pub fn put_last(&mut self, entry: Entry<H>)
        ensures { (front : List (Entry H)) (last : Entry H) → self.old ≡ front ++ last ∷ []
            → self.new ≡ front ++ entry ∷ [] }
    {
        let count = self.entries.len();
        if count > 0 {
            self.entries[count - 1] = entry;
        }
    }

    /// The entries in place.
    pub fn as_slice(&self) -> &[Entry<H>]
        ensures { result.now ≡ self.now }
    {
        &self.entries
    }

    /// The entries as a `Vec`.
    pub fn into_vec(self) -> Vec<Entry<H>>
        ensures { result.items ≡ self }
    {
        self.entries
    }
}
