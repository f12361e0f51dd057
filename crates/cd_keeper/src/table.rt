//! An ordered map from keys to bytes, which takes many changes at once or none.
ghost use Rattle.std.specs.Prelude.{◌≡◌, IsTrue, ◌<◌, ◌++◌, ◌∷◌, [], length, map, reverse, IfSome, IfNone, IfOk, OnOk, OnErr};
ghost use Rattle.std.specs.Option.{option_map, option_to_list};
ghost use Rattle.cd_keeper.specs.Contents.{next_entry, is_above, put_all, drop_all};
ghost use Rattle.cd_keeper.specs.Shown.{entry_of, entries_of, above};
ghost use Rattle.cd_keeper.specs.Undo.{put_back, undone, keys_back, latest, with_replaced, IsOther};
ghost use Rattle.std.specs.FinMap as finite;

use cd_base::{Hash256, Memory};
use std::alloc::Global;
use std::collections::BTreeMap;
use std::marker::Model;
use std::ops::Bound;

/// A key is seen as its bytes, and keys are ordered as these are.
pub trait Key: Ord + Copy {
    ghost use Rattle.std.specs.Prelude.{◌≡◌, ℕ, List};
    ghost use Rattle.std.specs.Ordering.{nat_cmp};
    ghost use Rattle.std.specs.Cmp.Lexicographic.{slice_cmp};

    ghost bytes: { Self → List ℕ };

    ghost ordered: { (x y : Self) → Self.cmp x y ≡ slice_cmp nat_cmp (bytes x) (bytes y) };
}

impl Key for Hash256 {
    ghost use Rattle.std.specs.Prelude.{refl};

    ghost bytes = { λ hash. hash.0 };

    ghost ordered = { λ x y. refl };
}

impl Key for [u8; 80] {
    ghost use Rattle.std.specs.Prelude.{refl};

    ghost bytes = { λ key. key };

    ghost ordered = { λ x y. refl };
}

/// What some puts replaced: the number of each put whose key was there, and the value before.
pub type Replaced = Vec<(usize, Vec<u8>)>;

/// An ordered map from keys to bytes. Contracts see it as a finite map from bytes to bytes.
#[derive(Drop)]
pub struct Table<K: Key> {
    tree: BTreeMap<K, Vec<u8>>,
    alloc: Global,
}

impl<K: Key> Model for Table<K> {
    ghost use Rattle.cd_keeper.specs.Contents as contents;
    ghost use Rattle.cd_keeper.specs.Shown.{table_of};

    ghost Value = { contents.Table };

    ghost coded = { contents.coded_table };

    ghost view = { λ a. table_of K.bytes a.tree.entries };
}

impl<K: Key> Table<K> {
    /// An empty table.
    pub fn new(alloc: Global) -> Table<K>
        ensures { result ≡ finite.empty }
    {
        Table {
            tree: BTreeMap::new(alloc),
            alloc,
        }
    }

    /// A copy of the value under a key.
    pub fn get(&self, key: &K) -> Result<Option<Vec<u8>>, Memory>
        ensures { IfOk result (λ found. option_map (λ v. v.items) found
            ≡ finite.get self.now (K.bytes key.now)) }
    {
        match self.tree.get(key) {
            Some(value) => Ok(Some(Vec::from_slice(self.alloc, value.as_slice())?)),
            None => Ok(None),
        }
    }

    /// The least key above a bound, with a copy of its value.
    pub fn next(&self, after: Option<K>) -> Result<Option<(K, Vec<u8>)>, Memory>
        ensures value { IfOk result (λ found. option_map (entry_of K.bytes) found
            ≡ next_entry self.now (option_map K.bytes after)) }
        ensures above { IfOk result (λ found. IfSome found
            (λ entry. IsTrue (is_above (option_map K.bytes after) (K.bytes entry.0)))) }
    {
        match self.tree.range((above(after), Bound::Unbounded)).next() {
            Some((key, value)) => Ok(Some((*key, Vec::from_slice(self.alloc, value.as_slice())?))),
            None => Ok(None),
        }
    }

    /// Puts a value under a key, and gives the one that it replaces.
    pub fn put(&mut self, key: K, value: Vec<u8>) -> Result<Option<Vec<u8>>, Memory>
        ensures old { IfOk result (λ old. option_map (λ v. v.items) old
            ≡ finite.get self.old (K.bytes key)) }
        ensures ok { OnOk result (self.new ≡ finite.insert self.old (K.bytes key) value.items) }
        ensures err { OnErr result (self.new ≡ self.old) }
    {
        Ok(self.tree.insert(key, value)?)
    }

    /// Puts copies of all values, or changes nothing. No key stands twice among the puts.
    pub fn put_all(&mut self, puts: &[(K, Vec<u8>)]) -> Result<Replaced, Memory>
        ensures put { OnOk result (self.new ≡ put_all self.old (entries_of K.bytes puts.now)) }
        ensures back { IfOk result
            (λ replaced. undone self.new (keys_back K.bytes puts.now) (latest replaced.items) ≡ self.old) }
        ensures err { OnErr result (self.new ≡ self.old) }
    {
        let mut replaced = Vec::new(self.alloc);
        for (at, (key, value)) in puts.iter().enumerate() {
            if let Err(memory) = self.put_copy(*key, value.as_slice(), at, &mut replaced) {
                self.take_back(&puts[..at], replaced);
                return Err(memory);
            }
        }
        Ok(replaced)
    }

    /// Takes back the puts that replaced these values, the last first.
    pub fn take_back(&mut self, puts: &[(K, Vec<u8>)], mut replaced: Replaced)
        ensures { self.new ≡ undone self.old (keys_back K.bytes puts.now) (latest replaced.items) }
    {
        let mut rest = puts;
        while let [before @ .., (key, _)] = rest {
            match pop_at(&mut replaced, before.len()) {
                Some(value) => self.put_back(key, value),
                None => self.remove(key),
            }
            rest = before;
        }
    }

    /// Drops all keys. Where one isn't there, nothing happens.
    pub fn drop_all(&mut self, keys: &[K])
        ensures { self.new ≡ drop_all self.old (map K.bytes keys.now) }
    {
        for key in keys {
            self.remove(key);
        }
    }

    /// Puts a copy of a value, and keeps the one that it replaces with its number.
    fn put_copy(
        &mut self,
        key: K,
        value: &[u8],
        at: usize,
        replaced: &mut Replaced,
    ) -> Result<(), Memory>
        ensures put { OnOk result (self.new ≡ finite.insert self.old (K.bytes key) value.now) }
        ensures keeps { OnOk result (latest replaced.new.items
            ≡ with_replaced at (finite.get self.old (K.bytes key)) (latest replaced.old.items)) }
        ensures err { OnErr result (self.new ≡ self.old) }
        ensures none { OnErr result (replaced.new.items ≡ replaced.old.items) }
    {
        let copy = Vec::from_slice(self.alloc, value)?;
        replaced.reserve(1)?;
        let old = self.put(key, copy)?;
        if let Some(value) = old {
            // There is room for it.
            let _ = replaced.push((at, value));
        }
        Ok(())
    }

    fn put_back(&mut self, key: &K, value: Vec<u8>)
        ensures { self.new ≡ put_back self.old (K.bytes key.now) value.items }
    {
        let Some(place) = self.tree.get_mut(key) else {
            return;
        };
        *place = value;
    }

    fn remove(&mut self, key: &K)
        ensures { self.new ≡ finite.remove self.old (K.bytes key.now) }
    {
        // Tells that the keys are in order.
        let _ = self.tree.len();
        let _ = self.tree.remove(key);
    }
}

/// A copy of some puts.
pub fn copy_of<K: Key>(alloc: Global, puts: &[(K, Vec<u8>)]) -> Result<Vec<(K, Vec<u8>)>, Memory>
    ensures { IfOk result (λ copy. entries_of K.bytes copy.items ≡ entries_of K.bytes puts.now) }
{
    let mut copy = Vec::with_capacity(alloc, puts.len())?;
    for (key, value) in puts {
        copy.push((*key, Vec::from_slice(alloc, value.as_slice())?))?;
    }
    Ok(copy)
}

fn above<K>(after: Option<K>) -> Bound<K>
    ensures { result ≡ above after }
{
    match after {
        Some(key) => Bound::Excluded(key),
        None => Bound::Unbounded,
    }
}

/// Takes out the last value where the put of this number replaced it.
fn pop_at(replaced: &mut Replaced, at: usize) -> Option<Vec<u8>>
    ensures some { IfSome result (λ value. latest replaced.old.items
        ≡ (at, value.items) ∷ latest replaced.new.items) }
    ensures kept { IfNone result (replaced.new.items ≡ replaced.old.items) }
    ensures none { IfNone result (IsOther at (latest replaced.old.items)) }
{
    match replaced.last() {
        Some((place, _)) if *place == at => {}
        _ => return None,
    }
    let (_, value) = replaced.pop()?;
    Some(value)
}
