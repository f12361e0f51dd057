use crate::looking::look_twice;
use crate::tiny::{Tiny, empty_value};
use cd_base::Hash256;
use cd_block::{BlockId, BlockIds, LineageFault, ShardId};
use cd_cell::{Bits, Face, Sha};
use cd_event::{
    At, Entry, Event, ExpireFault, Journal, LookFault, MergeFault, PinFault, Refusal, Reply, Turns,
    UnpinFault, Who, ZeroFault,
};
use std::alloc::Global;
use std::fmt::Display;
use std::process::Abort;
use std::test::Fail;

const EMPTY_CELL: Hash256 = Hash256([
    0x96, 0xa2, 0x96, 0xd2, 0x24, 0xf2, 0x85, 0xc6, 0x7b, 0xee, 0x93, 0xc3, 0x0f, 0x8a, 0x30, 0x91,
    0x57, 0xf0, 0xda, 0xa3, 0x5d, 0xc5, 0xb8, 0x7e, 0x41, 0x0b, 0x78, 0x63, 0x0a, 0x09, 0xcf, 0xc7,
]);

const ONES: Hash256 = Hash256([0x11; 32]);

const AT: At = At { phase: 3, task: 5 };

const ID: BlockId = BlockId {
    shard_id: ShardId {
        workchain: -1,
        shard: 0x8000_0000_0000_0000,
    },
    seqno: 0,
    root: EMPTY_CELL,
    file: Hash256([0; 32]),
};

/// Each of these faults is printed as is due.
fn check_texts<F: Display>(rt: &impl Abort, alloc: Global, rows: &[(F, &str)]) -> Result<(), Fail> {
    for (fault, due) in rows {
        assert_eq!(rt; fault.to_string(alloc)?.as_str(), *due);
    }
    Ok(())
}

#[test]
fn the_texts_of_faults(rt: HostRuntime) -> Result<(), Fail> {
    let alloc = rt.alloc();
    let face = Face::new(false, Bits::from_slice(&[], 0).ok_or("bits")?, &[]);
    let lineage = LineageFault::Seqno { stated: 1, due: 0 };
    let hash = ONES;
    let count = 7;
    let rows = [
        (ZeroFault::Known, "a block of this name is there"),
        (
            ZeroFault::Lineage(lineage),
            "the block can't be a zero state: the block's seqno is 1, and 0 is due",
        ),
        (
            ZeroFault::ZeroHash {
                stated: ONES,
                real: EMPTY_CELL,
            },
            "the block is named by the root 1111111111111111111111111111111111111111111111111111111111111111, and its state has the root 96a296d224f285c67bee93c30f8a309157f0daa35dc5b87e410b78630a09cfc7",
        ),
        (
            ZeroFault::Clash {
                hash,
                stored: face,
                offered: face,
            },
            "another cell is held under 1111111111111111111111111111111111111111111111111111111111111111",
        ),
        (
            ZeroFault::CountFull { hash, count },
            "the cell 1111111111111111111111111111111111111111111111111111111111111111 would be referred to 7 times",
        ),
        (ZeroFault::Keeper, "the keeper failed"),
        (ZeroFault::Memory, "out of memory"),
    ];
    check_texts(&rt, alloc, &rows)?;
    let rows = [
        (MergeFault::NoPin, "the worker has no such pin"),
        (
            MergeFault::WrongPin,
            "the value was prepared over another state",
        ),
        (MergeFault::Known, "a block of this name is there"),
        (
            MergeFault::Lineage(LineageFault::Shard),
            "the block can't follow its parents: the block's shard does not follow from its parents'",
        ),
        (
            MergeFault::Clash {
                hash,
                stored: face,
                offered: face,
            },
            "another cell is held under 1111111111111111111111111111111111111111111111111111111111111111",
        ),
        (
            MergeFault::CountFull { hash, count },
            "the cell 1111111111111111111111111111111111111111111111111111111111111111 would be referred to 7 times",
        ),
        (MergeFault::Keeper, "the keeper failed"),
        (MergeFault::Memory, "out of memory"),
    ];
    check_texts(&rt, alloc, &rows)
}

#[test]
fn the_texts_of_smaller_faults(rt: HostRuntime) -> Result<(), Fail> {
    let alloc = rt.alloc();
    let rows = [
        (PinFault::UnknownBlock, "no block of this name is kept"),
        (
            PinFault::PinsFull,
            "the worker has as many pins as it may have",
        ),
        (PinFault::Memory, "out of memory"),
    ];
    check_texts(&rt, alloc, &rows)?;
    let rows = [
        (LookFault::NoPin, "the worker has no such pin"),
        (LookFault::Keeper, "the keeper failed"),
        (LookFault::Memory, "out of memory"),
    ];
    check_texts(&rt, alloc, &rows)?;
    let rows = [
        (UnpinFault::NoPin, "the worker has no such pin"),
        (UnpinFault::Keeper, "the keeper failed"),
        (UnpinFault::Memory, "out of memory"),
    ];
    check_texts(&rt, alloc, &rows)?;
    let rows = [
        (ExpireFault::UnknownBlock, "no block of this name is kept"),
        (
            ExpireFault::NotMaster,
            "the block is none of the masterchain",
        ),
        (
            ExpireFault::TopMissing { top: ID },
            "a shard top that the block names isn't kept",
        ),
        (ExpireFault::Keeper, "the keeper failed"),
        (ExpireFault::Memory, "out of memory"),
    ];
    check_texts(&rt, alloc, &rows)
}

/// An entry of one look, of which a test tells one from another by its pin.
fn look_entry(pin: u64) -> Entry<Sha> {
    Entry {
        who: Who {
            phase: 0,
            worker: 0,
            task: 0,
        },
        event: Event::Look { pin, asked: 1 },
        reply: Reply::Looked,
    }
}

/// What an entry says: the task, the pin of its event, and the name of its reply.
fn said(entry: &Entry<Sha>) -> (Who, Option<u64>, &'static str) {
    let pin = match &entry.event {
        Event::Look { pin, .. } => Some(*pin),
        Event::Merge { pin, .. } => Some(*pin),
        Event::Unpin { pin } => Some(*pin),
        Event::Zero { .. } => None,
        Event::Pin { .. } => None,
        Event::Expire { .. } => None,
    };
    let reply = match &entry.reply {
        Reply::Stored => "stored",
        Reply::Pinned { .. } => "pinned",
        Reply::Looked => "looked",
        Reply::Unpinned { .. } => "unpinned",
        Reply::Expired { .. } => "expired",
        Reply::Refused(Refusal::Keeper) => "keeper",
        Reply::Refused(_) => "refused",
    };
    (entry.who, pin, reply)
}

#[test]
fn a_journal_grows_changes_and_is_taken_back(rt: HostRuntime) -> Result<(), Fail> {
    let mut journal = Journal::new(rt.alloc());
    for pin in 0..3 {
        journal.push(look_entry(pin)).ok().ok_or("memory")?;
    }
    journal.take_back();
    let mut failed = look_entry(1);
    failed.reply = Reply::Refused(Refusal::Keeper);
    journal.put_last(failed);
    let entries = journal.as_slice();
    assert_eq!(rt; entries.len(), 2);
    assert_eq!(rt; said(&entries[0]).2, "looked");
    assert_eq!(rt; said(&entries[1]).2, "keeper");
    assert_eq!(rt; said(&entries[1]).1, Some(1));
    assert_eq!(rt; journal.into_vec().len(), 2);
    Ok(())
}

/// These entries say what is due.
fn check_entries(
    rt: &impl Abort,
    entries: &[Entry<Sha>],
    due: &[(Who, Option<u64>, &'static str)],
) {
    assert_eq!(rt; entries.len(), due.len());
    for (entry, due) in entries.iter().zip(due) {
        assert_eq!(rt; said(entry), *due);
    }
}

#[test]
fn each_call_makes_its_entry(rt: HostRuntime) -> Result<(), Fail> {
    let alloc = rt.alloc();
    let mut turns: Tiny<Sha> = Tiny::new(alloc, 9);
    let value = empty_value(alloc).ok().ok_or("memory")?;
    let stored = turns.zero(AT, ID, BlockIds::new(alloc), value)?;
    assert_eq!(rt; (stored.root, stored.cells), (EMPTY_CELL, 1));
    let pinned = turns.pin(AT, ID)?;
    assert_eq!(rt; (pinned.pin, pinned.root.rep()), (0, EMPTY_CELL));
    assert_eq!(rt; turns.pin(AT, ID), Err(PinFault::PinsFull));
    let value = empty_value(alloc).ok().ok_or("memory")?;
    let stored = turns.merge(AT, 0, None, ID, BlockIds::new(alloc), value)?;
    assert_eq!(rt; (stored.root, stored.cells), (EMPTY_CELL, 1));
    assert_eq!(rt; turns.unpin(AT, 0)?, false);
    assert_eq!(rt; turns.expire(AT, ID)?, 0);
    let who = Who {
        phase: 3,
        worker: 9,
        task: 5,
    };
    let due = [
        (who, None, "stored"),
        (who, None, "pinned"),
        (who, None, "refused"),
        (who, Some(0), "stored"),
        (who, Some(0), "unpinned"),
        (who, None, "expired"),
    ];
    check_entries(&rt, turns.entries(), &due);
    Ok(())
}

/// Which of two hashes have a face, by two looks under a new pin.
fn found_under<T: Turns>(
    alloc: Global,
    turns: &mut T,
    hashes: &[Hash256; 2],
) -> Result<Vec<bool>, Fail> {
    let Ok(pinned) = turns.pin(AT, ID) else {
        return Err(Fail::from("no pin"));
    };
    match look_twice(turns, AT, pinned.pin, hashes) {
        Ok(found) => {
            let mut are = Vec::new(alloc);
            for face in &found {
                are.push(face.is_some())?;
            }
            Ok(are)
        }
        Err(fault) => Err(Fail::from(fault)),
    }
}

#[test]
fn looks_under_a_pin(rt: HostRuntime) -> Result<(), Fail> {
    let mut turns: Tiny<Sha> = Tiny::new(rt.alloc(), 9);
    let found = found_under(rt.alloc(), &mut turns, &[EMPTY_CELL, ONES])?;
    assert_eq!(rt; found.as_slice(), [true, false].as_slice());
    assert_eq!(rt; turns.entries().len(), 3);
    assert_eq!(rt; said(&turns.entries()[2]).2, "looked");
    Ok(())
}

#[test]
fn a_look_that_fails_is_handed_on(rt: HostRuntime) -> Result<(), Fail> {
    let mut turns: Tiny<Sha> = Tiny::new(rt.alloc(), 9);
    turns.failing = true;
    let failed = match turns.pin(AT, ID) {
        Ok(pinned) => look_twice(&mut turns, AT, pinned.pin, &[EMPTY_CELL]).err(),
        Err(_) => None,
    };
    assert_eq!(rt; failed, Some(LookFault::Keeper));
    assert_eq!(rt; turns.entries().len(), 2);
    assert_eq!(rt; said(&turns.entries()[1]).2, "keeper");
    Ok(())
}
