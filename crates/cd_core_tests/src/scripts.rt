//! Scripts of calls, what is answered to each, and what the keeper holds after each batch.

use crate::cores::{Weak, empty_core, look, merge, shape, zero};
use crate::names::{Name, weak, who};
use crate::untold::Untold;
use crate::values::{Cell, Root, leaf};
use cd_block::{LineageFault, decode_descr};
use cd_event::{Refusal, Reply};
use cd_keeper::{Keeper, SteadyKeeper};
use cd_record::decode;
use cd_world::Totals;
use std::alloc::Global;
use std::test::Fail;

/// A call.
#[derive(Clone, Copy)]
pub(crate) enum Deed {
    /// A zero state with these cells, which names these shard tops.
    Zero(Name, &'static [Cell], &'static [Name]),
    Pin(Name),
    /// A look under a pin for a cell without children, and that cell's bytes.
    Look(u64, u8, &'static [u8]),
    /// A block over the pinned state with this root.
    Merge(u64, Name, &'static [Cell], Root),
    /// A block over the left and the right state.
    MergeBoth((u64, u64), Name, &'static [Cell], (Root, Root)),
    Unpin(u64),
    Expire(Name),
}

/// What is answered. Hashes are weak ones, by their last bytes.
#[derive(Clone, Copy)]
pub(crate) enum Due {
    Stored,
    Pinned(u64),
    Looked,
    Unpinned(bool),
    Expired(u64),
    Known,
    Shard,
    Seqno(u32, u64),
    ZeroHash(u8, u8),
    /// The hash, and the bytes of both cells.
    Clash(u8, &'static [u8], &'static [u8]),
    Full(u8, u64),
    UnknownBlock,
    PinsFull,
    NoPin,
    WrongPin,
    NotMaster,
    TopMissing(Name),
}

/// A worker's call and its answer.
#[derive(Clone, Copy)]
pub(crate) struct Step(pub(crate) u16, pub(crate) Deed, pub(crate) Due);

/// What the keeper holds: the counts of cells, and the blocks with whether they are leaving.
#[derive(Clone, Copy)]
pub(crate) struct Held(
    pub(crate) &'static [(u8, u64)],
    pub(crate) &'static [(Name, bool)],
);

/// Calls on a store without blocks whose counts have this limit, and what is held after each batch.
#[derive(Clone, Copy)]
pub(crate) struct Script {
    pub(crate) limit: u8,
    pub(crate) steps: &'static [Step],
    pub(crate) trail: &'static [Held],
}

/// Makes a call. Whether a look that was answered found what it should.
fn act(alloc: Global, core: &mut Weak, worker: u16, deed: &Deed) -> Result<bool, Fail> {
    match *deed {
        Deed::Zero(name, cells, tops) => zero(alloc, core, worker, name, cells, tops)?,
        Deed::Pin(name) => {
            let _ = core.pin(who(worker), name.id());
        }
        Deed::Look(pin, hash, due) => return Ok(look(core, worker, pin, hash, due)),
        Deed::Merge(pin, name, cells, root) => {
            merge(alloc, core, worker, (pin, None), name, cells, (root, None))?
        }
        Deed::MergeBoth(pins, name, cells, roots) => {
            let pins = (pins.0, Some(pins.1));
            merge(
                alloc,
                core,
                worker,
                pins,
                name,
                cells,
                (roots.0, Some(roots.1)),
            )?
        }
        Deed::Unpin(pin) => {
            let _ = core.unpin(who(worker), pin);
        }
        Deed::Expire(name) => {
            let _ = core.expire(who(worker), name.id());
        }
    }
    Ok(true)
}

/// Whether this is the answer.
fn is_due(reply: &Reply, due: &Due) -> bool {
    match reply {
        Reply::Stored => matches!(due, Due::Stored),
        Reply::Pinned { pin } => matches!(due, Due::Pinned(number) if number == pin),
        Reply::Looked => matches!(due, Due::Looked),
        Reply::Unpinned { collected } => matches!(due, Due::Unpinned(gone) if gone == collected),
        Reply::Expired { gone } => matches!(due, Due::Expired(blocks) if blocks == gone),
        Reply::Refused(refusal) => is_refusal(refusal, due),
    }
}

/// Whether this is the refusal.
fn is_refusal(refusal: &Refusal, due: &Due) -> bool {
    match *due {
        Due::Known => matches!(refusal, Refusal::Known),
        Due::Shard => matches!(refusal, Refusal::Lineage(LineageFault::Shard)),
        Due::UnknownBlock => matches!(refusal, Refusal::UnknownBlock),
        Due::PinsFull => matches!(refusal, Refusal::PinsFull),
        Due::NoPin => matches!(refusal, Refusal::NoPin),
        Due::WrongPin => matches!(refusal, Refusal::WrongPin),
        Due::NotMaster => matches!(refusal, Refusal::NotMaster),
        _ => is_full_refusal(refusal, due),
    }
}

/// Whether this is the refusal, which tells more.
fn is_full_refusal(refusal: &Refusal, due: &Due) -> bool {
    match *refusal {
        Refusal::Lineage(fault) => match *due {
            Due::Seqno(stated, due) => fault == LineageFault::Seqno { stated, due },
            _ => false,
        },
        Refusal::ZeroHash { stated, real } => match *due {
            Due::ZeroHash(name, root) => stated == weak(name) && real == weak(root),
            _ => false,
        },
        Refusal::Clash {
            hash,
            stored,
            offered,
        } => match *due {
            Due::Clash(same, old, new) => {
                hash == weak(same) && Some(stored) == leaf(old) && Some(offered) == leaf(new)
            }
            _ => false,
        },
        Refusal::CountFull { hash, count } => match *due {
            Due::Full(cell, times) => hash == weak(cell) && count == times,
            _ => false,
        },
        Refusal::TopMissing { top } => match *due {
            Due::TopMissing(name) => top == name.id(),
            _ => false,
        },
        _ => false,
    }
}

/// Whether the last entry is of this worker and says that the keeper failed.
fn is_failed(core: &Weak, worker: u16) -> bool {
    match core.journal().last() {
        Some(entry) => {
            entry.who.worker == worker && matches!(entry.reply, Reply::Refused(Refusal::Keeper))
        }
        None => false,
    }
}

/// Whether the last entry is of this worker and has this answer.
fn is_answered(core: &Weak, worker: u16, due: &Due) -> bool {
    match core.journal().last() {
        Some(entry) => entry.who.worker == worker && is_due(&entry.reply, due),
        None => false,
    }
}

/// Makes a step. A call that the keeper fails leaves the world as it is, and is made once more. Whether all is as due.
pub(crate) fn take(
    alloc: Global,
    core: &mut Weak,
    step: &Step,
    failed: &mut u64,
) -> Result<bool, Fail> {
    let before = shape(core);
    let mut found = act(alloc, core, step.0, &step.1)?;
    if is_failed(core, step.0) {
        if shape(core) != before {
            return Ok(false);
        }
        *failed = failed.saturating_add(1);
        found = act(alloc, core, step.0, &step.1)?;
    }
    Ok(found && is_answered(core, step.0, &step.2))
}

/// Makes the steps, and says whether all is as due.
fn take_all(
    alloc: Global,
    core: &mut Weak,
    steps: &[Step],
    failed: &mut u64,
) -> Result<bool, Fail> {
    for step in steps {
        if !take(alloc, core, step, failed)? {
            return Ok(false);
        }
    }
    Ok(true)
}

/// Plays a script on a keeper of which these calls fail, and gives the keeper. Each failed call made an entry more.
pub(crate) fn play(
    alloc: Global,
    script: &Script,
    fails: Vec<u64>,
    failed: &mut u64,
) -> Result<Untold, Fail> {
    let mut core = empty_core(alloc, script.limit, fails);
    if !take_all(alloc, &mut core, script.steps, failed)? {
        return Err(Fail::from("another answer than is due"));
    }
    let (keeper, journal) = core.close();
    if journal.len() as u64 != (script.steps.len() as u64).saturating_add(*failed) {
        return Err(Fail::from("another number of entries"));
    }
    Ok(keeper)
}

/// Whether the keeper has exactly cells with these counts.
pub(crate) fn has_cells(keeper: &mut SteadyKeeper, due: &[(u8, u64)]) -> Result<bool, Fail> {
    let mut after = None;
    for (hash, count) in due {
        let Some((found, bytes)) = keeper.next_cell(after)? else {
            return Ok(false);
        };
        if found != weak(*hash) || decode(bytes.as_slice())?.count != *count {
            return Ok(false);
        }
        after = Some(found);
    }
    Ok(keeper.next_cell(after)?.is_none())
}

/// Whether the keeper has exactly descriptions of these blocks, which stand in the order of their keys.
pub(crate) fn has_blocks(
    alloc: Global,
    keeper: &mut SteadyKeeper,
    due: &[(Name, bool)],
) -> Result<bool, Fail> {
    let mut after = None;
    for (name, leaving) in due {
        let Some(found) = keeper.next_desc(after)? else {
            return Ok(false);
        };
        let key = found.0;
        let descr = decode_descr(alloc, &key, found.1.as_slice())?;
        if descr.id != name.id() || descr.leaving != *leaving {
            return Ok(false);
        }
        after = Some(key);
    }
    Ok(keeper.next_desc(after)?.is_none())
}

/// Whether the keeper held this after its batches, one after another.
pub(crate) fn has_trail(alloc: Global, keeper: &Untold, trail: &[Held]) -> Result<bool, Fail> {
    if keeper.inner.batches() != trail.len() as u64 {
        return Ok(false);
    }
    let mut batches = 0u64;
    for held in trail {
        batches = batches.saturating_add(1);
        let mut keeper = keeper.inner.at(batches)?.ok_or("no such batch")?;
        if !has_cells(&mut keeper, held.0)? || !has_blocks(alloc, &mut keeper, held.1)? {
            return Ok(false);
        }
    }
    Ok(true)
}

/// The counts of cells, summed up.
fn sum_of(cells: &[(u8, u64)]) -> u64 {
    let mut sum = 0u64;
    for cell in cells {
        sum = sum.saturating_add(cell.1);
    }
    sum
}

/// Whether the totals after a script are those of what is held last.
pub(crate) fn has_totals(alloc: Global, script: &Script) -> Result<bool, Fail> {
    let mut failed = 0;
    let mut core = empty_core(alloc, script.limit, Vec::new(alloc));
    let taken = take_all(alloc, &mut core, script.steps, &mut failed)?;
    let totals = core.totals()?;
    let Some(held) = script.trail.last() else {
        return Ok(false);
    };
    let due = Totals {
        blocks: held.1.len() as u64,
        cells: held.0.len() as u64,
        counts: sum_of(held.0),
    };
    Ok(taken && totals == due)
}

/// Plays a script, and then with each of the keeper's calls failing in turn.
pub(crate) fn play_all(alloc: Global, script: &Script) -> Result<bool, Fail> {
    let mut failed = 0;
    let keeper = play(alloc, script, Vec::new(alloc), &mut failed)?;
    if failed != 0 || !has_trail(alloc, &keeper, script.trail)? || !has_totals(alloc, script)? {
        return Ok(false);
    }
    let calls = keeper.inner.reads().saturating_add(keeper.inner.batches());
    for call in 0..calls {
        let mut failed = 0;
        let keeper = play(alloc, script, [call].to_vec(alloc)?, &mut failed)?;
        if failed != 1 || !has_trail(alloc, &keeper, script.trail)? {
            return Ok(false);
        }
    }
    Ok(true)
}
