//! States that come and go at random, whose counts are worked out anew at each step by a plain program.
ghost use Rattle.std.specs.Prelude.{◌<◌};

use crate::stores::{drop_all, is_batch, prepared, store};
use cd_base::Hash256;
use cd_cell::{Face, Prepared, WeakSum};
use cd_count::CountFault;
use cd_keeper::{Batch, SteadyKeeper};
use std::alloc::Global;
use std::collections::BTreeMap;
use std::test::Fail;

/// Numbers that look random (xorshift).
#[derive(Drop)]
struct Random(u64);

impl Random {
    /// A number below the bound.
    fn below(&mut self, bound: u8) -> u8
        requires { 0 < bound }
        ensures { result < bound }
    {
        self.0 ^= self.0 << 13;
        self.0 ^= self.0 >> 7;
        self.0 ^= self.0 << 17;
        (self.0 >> 56) as u8 % bound
    }
}

/// A bag of one to five cells, each with a byte of few values; each cell but the last has the next one as a child, and
/// at most two further children.
fn random_bag(alloc: Global, random: &mut Random) -> Result<Vec<u8>, Fail> {
    let count = 1 + random.below(5);
    let mut text = Vec::new(alloc);
    for number in 0..count {
        let behind = count.saturating_sub(number).saturating_sub(1);
        let more = if behind == 0 { 0 } else { random.below(3) };
        text.push(if behind == 0 {
            0
        } else {
            more.saturating_add(1)
        })?;
        text.push(2)?;
        text.push(random.below(3))?;
        if behind > 0 {
            text.push(number.saturating_add(1))?;
            for _ in 0..more {
                let far = random.below(behind);
                text.push(number.saturating_add(1).saturating_add(far))?;
            }
        }
    }
    let total = u8::try_from(text.len()).unwrap_or(0);
    let mut bytes = [0xb5, 0xee, 0x9c, 0x72, 1, 1, count, 1, 0, total, 0].to_vec(alloc)?;
    bytes.extend_from_slice(text.as_slice())?;
    Ok(bytes)
}

/// The count of each cell of some states: how many of them have it as their root, and in how many child places of all
/// their cells, each taken once, it stands.
type Counts = BTreeMap<Hash256, u64>;

fn raise(counts: &mut Counts, hash: &Hash256) {
    if let Some(count) = counts.get_mut(hash) {
        *count = count.saturating_add(1);
    }
}

fn faces_of(alloc: Global, states: &[Prepared<WeakSum>]) -> Result<BTreeMap<Hash256, Face>, Fail> {
    let mut faces = BTreeMap::new(alloc);
    for state in states {
        for cell in state.cells() {
            faces.insert(cell.hash, cell.face)?;
        }
    }
    Ok(faces)
}

fn counts_of(alloc: Global, states: &[Prepared<WeakSum>]) -> Result<Counts, Fail> {
    let faces = faces_of(alloc, states)?;
    let mut counts = BTreeMap::new(alloc);
    for (hash, _) in faces.iter() {
        counts.insert(*hash, 0)?;
    }
    for state in states {
        raise(&mut counts, &state.root().rep());
    }
    for (_, face) in faces.iter() {
        for kid in face.kids() {
            raise(&mut counts, &kid.rep());
        }
    }
    Ok(counts)
}

/// Whether the batch is the difference of two images.
fn is_difference(alloc: Global, batch: &Batch, old: &Counts, new: &Counts) -> Result<bool, Fail> {
    let mut puts = Vec::new(alloc);
    let mut drops = Vec::new(alloc);
    for (hash, count) in new.iter() {
        if old.get(hash) != Some(count) {
            puts.push((*hash, *count))?;
        }
    }
    for (hash, _) in old.iter() {
        if new.get(hash).is_none() {
            drops.push(*hash)?;
        }
    }
    Ok(is_batch(batch, puts.as_slice(), drops.as_slice()))
}

/// The least hash of a state under which some states have another cell.
fn least_clash(
    alloc: Global,
    states: &[Prepared<WeakSum>],
    state: &Prepared<WeakSum>,
) -> Result<Option<Hash256>, Fail> {
    let faces = faces_of(alloc, states)?;
    let mut clashes = BTreeMap::new(alloc);
    for cell in state.cells() {
        if faces.get(&cell.hash).is_some_and(|face| *face != cell.face) {
            clashes.insert(cell.hash, ())?;
        }
    }
    Ok(clashes.iter().next().map(|(hash, _)| *hash))
}

/// What happened so far.
#[derive(Drop)]
struct Steps {
    random: Random,
    keeper: SteadyKeeper,
    states: Vec<Prepared<WeakSum>>,
    stored: u32,
    refused: u32,
    dropped: u32,
}

impl Steps {
    /// Stores a new state, or sees it refused for its least clash.
    fn add(&mut self, alloc: Global) -> Result<(), Fail> {
        let bytes = random_bag(alloc, &mut self.random)?;
        let state: Prepared<WeakSum> = prepared(alloc, bytes.as_slice())?;
        let old = counts_of(alloc, self.states.as_slice())?;
        let due = least_clash(alloc, self.states.as_slice(), &state)?;
        match store(alloc, &mut self.keeper, &state, 9_999)? {
            Ok(batch) => {
                self.states.push(state)?;
                self.stored = self.stored.saturating_add(1);
                let new = counts_of(alloc, self.states.as_slice())?;
                if due.is_some() || !is_difference(alloc, &batch, &old, &new)? {
                    return Err(Fail::from("a wrong batch of a state that comes"));
                }
            }
            Err(CountFault::Clash { hash, .. }) if due == Some(hash) => {
                self.refused = self.refused.saturating_add(1);
            }
            Err(_) => return Err(Fail::from("a wrong refusal")),
        }
        Ok(())
    }

    /// Drops the first state or the last one.
    fn drop_one(&mut self, alloc: Global) -> Result<(), Fail> {
        let old = counts_of(alloc, self.states.as_slice())?;
        let first = self.random.below(2) == 0 && !self.states.is_empty();
        let gone = if first {
            Some(self.states.remove(0))
        } else {
            self.states.pop()
        };
        let Some(state) = gone else {
            return Ok(());
        };
        let batch = drop_all(alloc, &mut self.keeper, &[state.root().rep()])?;
        self.dropped = self.dropped.saturating_add(1);
        let new = counts_of(alloc, self.states.as_slice())?;
        if is_difference(alloc, &batch, &old, &new)? {
            return Ok(());
        }
        Err(Fail::from("a wrong batch of a state that goes"))
    }
}

#[test]
fn each_batch_is_the_difference_of_two_plain_images(rt: HostRuntime) -> Result<(), Fail> {
    let alloc = rt.alloc();
    let mut steps = Steps {
        random: Random(0x9e37_79b9_7f4a_7c15),
        keeper: SteadyKeeper::new(alloc),
        states: Vec::new(alloc),
        stored: 0,
        refused: 0,
        dropped: 0,
    };
    for _ in 0..200 {
        if steps.states.len() < 6 && steps.random.below(5) < 3 {
            steps.add(alloc)?;
        } else {
            steps.drop_one(alloc)?;
        }
    }
    assert!(rt; steps.stored > 50 && steps.refused > 5 && steps.dropped > 50);
    Ok(())
}
