use cd_base::{Hash256, MemorySink, MemorySource, Sink, Source, SteadySink, SteadySource};
use cd_cell::Sha;
use cd_event::{Entry, Event, Refusal, Reply};
use cd_feed::FeedFault;
use cd_keeper::{KeepFault, Keeper, MemoryKeeper, SteadyKeeper};
use cd_restart::ScanFault;
use cd_run::NoHoldup;
use cd_top::{Ended, InputFault, Status, TopRefusal, WordFault, celldb_once, celldb_run};
use std::alloc::Global;
use std::sync::Wait;
use std::test::Fail;
use std::thread::Threads;

/// The bag of the cell without bits and references.
pub(crate) const ONE_CELL: [u8; 13] = [0xb5, 0xee, 0x9c, 0x72, 1, 1, 1, 1, 0, 2, 0, 0, 0];

/// That cell in all four places of a root.
const FOUR_PLACES: [u8; 19] = [
    0xb5, 0xee, 0x9c, 0x72, 1, 1, 2, 1, 0, 8, 0, 4, 0, 1, 1, 1, 1, 0, 0,
];

/// The hash of that cell: SHA-256 of two zero bytes.
const EMPTY: Hash256 = Hash256([
    0x96, 0xa2, 0x96, 0xd2, 0x24, 0xf2, 0x85, 0xc6, 0x7b, 0xee, 0x93, 0xc3, 0x0f, 0x8a, 0x30, 0x91,
    0x57, 0xf0, 0xda, 0xa3, 0x5d, 0xc5, 0xb8, 0x7e, 0x41, 0x0b, 0x78, 0x63, 0x0a, 0x09, 0xcf, 0xc7,
]);

const EMPTY_LINES: &str =
    "id (-1,8000000000000000,0):96a296d224f285c67bee93c30f8a309157f0daa35dc5b87e410b78630a09cfc7:0000000000000000000000000000000000000000000000000000000000000000\ncells 1\n";

/// A call of one word over these objects.
fn call<S: Source, O: Sink, K: Keeper>(
    alloc: Global,
    word: &str,
    input: &mut S,
    out: &mut O,
    keeper: K,
) -> Result<Ended<K, Sha>, Fail> {
    let mut words = Vec::new(alloc);
    words.push(String::from_str(alloc, word)?)?;
    Ok(celldb_once::<S, O, K, Sha>(alloc, &words, input, out, keeper, Vec::new(alloc)))
}

/// The command `zero` over these objects.
fn zero<S: Source, O: Sink, K: Keeper>(
    alloc: Global,
    input: &mut S,
    out: &mut O,
    keeper: K,
) -> Result<Ended<K, Sha>, Fail> {
    call(alloc, "zero", input, out, keeper)
}

/// What a call of one word over a steady keeper and this input answers: the status, the output and the keeper.
pub(crate) fn told(
    alloc: Global,
    word: &str,
    input: &[u8],
    keeper: SteadyKeeper,
) -> Result<(Status, Vec<u8>, SteadyKeeper), Fail> {
    let mut input = SteadySource::new(input.to_vec(alloc)?);
    let mut out = SteadySink::new(alloc);
    let Ended {
        status,
        keeper,
        journal: _,
        clients: _,
    } = call(alloc, word, &mut input, &mut out, keeper)?;
    Ok((status, out.taken().to_vec(alloc)?, keeper))
}

/// Whether the one entry is that of a zero state of so many listed cells, and was stored or refused for the keeper.
fn is_only_entry(journal: &[Entry<Sha>], listed: usize, stored: bool) -> bool {
    let [entry] = journal else {
        return false;
    };
    let Event::Zero { id, tops, prepared } = &entry.event else {
        return false;
    };
    let replied = match &entry.reply {
        Reply::Stored => stored,
        Reply::Refused(Refusal::Keeper) => !stored,
        _ => false,
    };
    replied && id.seqno == 0 && tops.as_slice().is_empty() && prepared.cells().len() == listed
}

fn has_cell<K: Keeper>(keeper: &mut K, key: &Hash256, bytes: &[u8]) -> Result<bool, KeepFault> {
    match keeper.get_cell(key)? {
        Some(value) => Ok(value.as_slice() == bytes),
        None => Ok(false),
    }
}

/// The keys of the first and of the second record.
fn first_cells<K: Keeper>(keeper: &mut K) -> Result<(Option<Hash256>, Option<Hash256>), KeepFault> {
    let Some((first, _)) = keeper.next_cell(None)? else {
        return Ok((None, None));
    };
    let second = keeper.next_cell(Some(first))?.map(|pair| pair.0);
    Ok((Some(first), second))
}

/// The description of the one block.
fn only_desc<K: Keeper>(keeper: &mut K) -> Result<Option<Vec<u8>>, KeepFault> {
    Ok(keeper.next_desc(None)?.map(|pair| pair.1))
}

#[test]
fn one_cell_is_stored_and_printed(rt: HostRuntime) -> Result<(), Fail> {
    let alloc = rt.alloc();
    let mut input = SteadySource::new(ONE_CELL.to_vec(alloc)?);
    let mut out = SteadySink::new(alloc);
    let Ended {
        status,
        mut keeper,
        journal,
        clients: _,
    } = zero(alloc, &mut input, &mut out, SteadyKeeper::new(alloc))?;
    assert!(rt; matches!(status, Status::Ok));
    assert!(rt; out.taken() == EMPTY_LINES.as_bytes());
    assert!(rt; has_cell(&mut keeper, &EMPTY, &[2, 0, 0, 0, 0, 0, 0, 0, 1, 0, 0])?);
    assert!(rt; keeper.batches() == 1);
    assert!(rt; is_only_entry(&journal, 1, true));
    // The description has a version, the root and its depth.
    let mut due = [1, 0, 0].to_vec(alloc)?;
    due.extend_from_slice(&EMPTY.0)?;
    due.extend_from_slice(&[0, 0, 0])?;
    let found = only_desc(&mut keeper)?.ok_or("no description")?;
    assert!(rt; found.as_slice() == due.as_slice());
    Ok(())
}

#[test]
fn a_child_in_four_places_counts_four(rt: HostRuntime) -> Result<(), Fail> {
    let alloc = rt.alloc();
    let mut input = SteadySource::new(FOUR_PLACES.to_vec(alloc)?);
    let mut out = SteadySink::new(alloc);
    let Ended {
        status,
        mut keeper,
        journal,
        clients: _,
    } = zero(alloc, &mut input, &mut out, SteadyKeeper::new(alloc))?;
    assert!(rt; matches!(status, Status::Ok));
    assert!(rt; is_only_entry(&journal, 2, true));
    assert!(rt; has_cell(&mut keeper, &EMPTY, &[2, 0, 0, 0, 0, 0, 0, 0, 4, 0, 0])?);
    let (first, second) = first_cells(&mut keeper)?;
    let first = first.ok_or("no record")?;
    let second = second.ok_or("one record")?;
    let root = if first == EMPTY { second } else { first };
    let record = keeper.get_cell(&root)?.ok_or("no root")?;
    assert!(rt;
        record
            .as_slice()
            .starts_with(&[2, 0, 0, 0, 0, 0, 0, 0, 1, 4, 0])
    );
    Ok(())
}

#[test]
fn a_source_that_fails_in_mid_stream_stores_nothing(rt: HostRuntime) -> Result<(), Fail> {
    let alloc = rt.alloc();
    let mut input = MemorySource::new(ONE_CELL.to_vec(alloc)?, [1].to_vec(alloc)?);
    let mut out = SteadySink::new(alloc);
    let Ended {
        status,
        mut keeper,
        journal,
        clients: _,
    } = zero(alloc, &mut input, &mut out, SteadyKeeper::new(alloc))?;
    assert!(rt; matches!(status, Status::ReadFault));
    assert!(rt; journal.is_empty());
    assert!(rt; first_cells(&mut keeper)? == (None, None));
    assert!(rt; out.taken().is_empty());
    Ok(())
}

#[test]
fn a_sink_that_fails_leaves_the_block_stored(rt: HostRuntime) -> Result<(), Fail> {
    let alloc = rt.alloc();
    let mut input = SteadySource::new(ONE_CELL.to_vec(alloc)?);
    let mut out = MemorySink::new(alloc, [0].to_vec(alloc)?);
    let Ended {
        status,
        mut keeper,
        journal,
        clients: _,
    } = zero(alloc, &mut input, &mut out, SteadyKeeper::new(alloc))?;
    assert!(rt; matches!(status, Status::WriteFault));
    assert!(rt; is_only_entry(&journal, 1, true));
    assert!(rt; has_cell(&mut keeper, &EMPTY, &[2, 0, 0, 0, 0, 0, 0, 0, 1, 0, 0])?);
    Ok(())
}

#[test]
fn a_keeper_that_fails_stores_nothing(rt: HostRuntime) -> Result<(), Fail> {
    let alloc = rt.alloc();
    // The opening asks for a description and twice for a record, the core for the one hash, and then for the batch.
    for failing in 0..7 {
        let mut input = SteadySource::new(ONE_CELL.to_vec(alloc)?);
        let mut out = SteadySink::new(alloc);
        let keeper = MemoryKeeper::new(alloc, [failing].to_vec(alloc)?);
        let Ended {
            status,
            mut keeper,
            journal,
            clients: _,
        } = zero(alloc, &mut input, &mut out, keeper)?;
        let failed = failing < 5;
        assert!(rt; matches!(status, Status::KeeperFault) == failed);
        assert!(rt; matches!(status, Status::Ok) != failed);
        assert!(rt; journal.is_empty() == (failing < 3));
        assert!(rt; failing < 3 || is_only_entry(&journal, 1, !failed));
        assert!(rt; keeper.faults() == u64::from(failed));
        assert!(rt; keeper.batches() == u64::from(!failed));
        assert!(rt; out.taken().is_empty() == failed);
        let found = keeper.at(keeper.batches())?.is_some();
        assert!(rt; found);
    }
    Ok(())
}

#[test]
fn a_state_is_stored_once(rt: HostRuntime) -> Result<(), Fail> {
    let alloc = rt.alloc();
    let (status, _, keeper) = told(alloc, "zero", &ONE_CELL, SteadyKeeper::new(alloc))?;
    assert!(rt; matches!(status, Status::Ok));
    let (status, out, keeper) = told(alloc, "zero", &ONE_CELL, keeper)?;
    let known = matches!(status, Status::Refused(TopRefusal::Core(Refusal::Known)));
    assert!(rt; known && out.is_empty());
    let (status, out, keeper) = told(alloc, "check", &[], keeper)?;
    assert!(rt; matches!(status, Status::Ok));
    assert!(rt; out.as_slice() == b"blocks 1\ncells 1\ncounts 1\n".as_slice());
    assert!(rt; keeper.batches() == 1);
    Ok(())
}

#[test]
fn states_share_their_cells(rt: HostRuntime) -> Result<(), Fail> {
    let alloc = rt.alloc();
    let (_, _, keeper) = told(alloc, "zero", &FOUR_PLACES, SteadyKeeper::new(alloc))?;
    let (status, out, keeper) = told(alloc, "check", &[], keeper)?;
    assert!(rt; matches!(status, Status::Ok));
    assert!(rt; out.as_slice() == b"blocks 1\ncells 2\ncounts 5\n".as_slice());
    let (status, _, keeper) = told(alloc, "zero", &ONE_CELL, keeper)?;
    assert!(rt; matches!(status, Status::Ok));
    let (_, out, mut keeper) = told(alloc, "check", &[], keeper)?;
    assert!(rt; out.as_slice() == b"blocks 2\ncells 2\ncounts 6\n".as_slice());
    assert!(rt; has_cell(&mut keeper, &EMPTY, &[2, 0, 0, 0, 0, 0, 0, 0, 5, 0, 0])?);
    Ok(())
}

#[test]
fn damaged_stores_are_refused(rt: HostRuntime) -> Result<(), Fail> {
    let alloc = rt.alloc();
    for word in ["zero", "check", "migrate"] {
        let mut keeper = SteadyKeeper::new(alloc);
        keeper.put_raw_cell(EMPTY, [2, 0, 0, 0, 0, 0, 0, 0, 1, 0, 0].to_vec(alloc)?)?;
        let (status, out, keeper) = told(alloc, word, &ONE_CELL, keeper)?;
        let fault = ScanFault::Count {
            hash: EMPTY,
            stored: 1,
            counted: 0,
        };
        let damaged = matches!(status, Status::Damaged(found) if found == fault);
        assert!(rt; damaged && out.is_empty());
        assert!(rt; keeper.batches() == 0);
    }
    Ok(())
}

#[test]
fn records_of_the_first_version_are_rewritten(rt: HostRuntime) -> Result<(), Fail> {
    let alloc = rt.alloc();
    let (_, _, mut keeper) = told(alloc, "zero", &ONE_CELL, SteadyKeeper::new(alloc))?;
    keeper.put_raw_cell(EMPTY, [1, 0, 0, 0, 1, 0, 0].to_vec(alloc)?)?;
    let (status, out, keeper) = told(alloc, "check", &[], keeper)?;
    assert!(rt; matches!(status, Status::Ok));
    assert!(rt; out.as_slice() == b"blocks 1\ncells 1\ncounts 1\n".as_slice());
    let (status, out, mut keeper) = told(alloc, "migrate", &[], keeper)?;
    assert!(rt; matches!(status, Status::Ok));
    assert!(rt; out.as_slice() == b"records 1\nrewritten 1\n".as_slice());
    assert!(rt; has_cell(&mut keeper, &EMPTY, &[2, 0, 0, 0, 0, 0, 0, 0, 1, 0, 0])?);
    assert!(rt; keeper.batches() == 2);
    let (_, out, keeper) = told(alloc, "migrate", &[], keeper)?;
    assert!(rt; out.as_slice() == b"records 1\nrewritten 0\n".as_slice());
    assert!(rt; keeper.batches() == 2);
    Ok(())
}

/// The feed of no phase.
const NO_PHASE: [u8; 6] = *b"cdf1\0\0";

/// The feed of one task, which stores the cell without bits and references as the masterchain's zero state.
fn one_zero(alloc: Global) -> Result<Vec<u8>, Fail> {
    let mut feed = b"cdf1\0\x01\0\x01\0\x01\x01".to_vec(alloc)?;
    // The block: its workchain, shard and seqno, its two hashes; then no tops, and the bag.
    feed.extend_from_slice(&[
        0xff, 0xff, 0xff, 0xff, 0x80, 0, 0, 0, 0, 0, 0, 0, 0, 0, 0, 0,
    ])?;
    feed.extend_from_slice(&EMPTY.0)?;
    feed.extend_from_slice(&[0; 32])?;
    feed.extend_from_slice(&[0, 0, 0, 0, 13])?;
    feed.extend_from_slice(&ONE_CELL)?;
    Ok(feed)
}

const NO_LINES: &str = "blocks 0\ncells 0\ncounts 0\ntasks 0 ok 0 refused\n";

const STORED_LINES: &str =
    "0.0.0 zero ok 96a296d224f285c67bee93c30f8a309157f0daa35dc5b87e410b78630a09cfc7 cells 1\nblocks 1\ncells 1\ncounts 1\ntasks 1 ok 0 refused\n";

const FAILED_LINES: &str =
    "0.0.0 zero refused Keeper\nblocks 0\ncells 0\ncounts 0\ntasks 0 ok 1 refused\n";

#[test]
fn feeds_are_done_and_told(rt: HostRuntime) -> Result<(), Fail> {
    let alloc = rt.alloc();
    let (status, out, keeper) = told(alloc, "replay", &NO_PHASE, SteadyKeeper::new(alloc))?;
    assert!(rt; matches!(status, Status::Ok));
    assert!(rt; out.as_slice() == NO_LINES.as_bytes() && keeper.batches() == 0);
    let feed = one_zero(alloc)?;
    let (status, out, keeper) = told(alloc, "replay", &feed, keeper)?;
    assert!(rt; matches!(status, Status::Ok));
    assert!(rt; out.as_slice() == STORED_LINES.as_bytes() && keeper.batches() == 1);
    let mut cut = one_zero(alloc)?;
    cut.pop();
    let (status, out, keeper) = told(alloc, "replay", &cut, keeper)?;
    let found =
        matches!(status, Status::BadInput(InputFault::Feed(FeedFault::Cut { at })) if at == cut.len() as u64);
    assert!(rt; found && out.is_empty() && keeper.batches() == 1);
    Ok(())
}

/// What a call on threads of one word over a steady keeper and this input answers.
fn told_by_run<R: Threads + Wait + Sync>(
    rt: &R,
    alloc: Global,
    word: &str,
    input: &[u8],
    keeper: SteadyKeeper,
) -> Result<(Status, Vec<u8>, SteadyKeeper), Fail> {
    let mut words = Vec::new(alloc);
    words.push(String::from_str(alloc, word)?)?;
    let mut input = SteadySource::new(input.to_vec(alloc)?);
    let mut out = SteadySink::new(alloc);
    let clients = Vec::new(alloc);
    let Ended {
        status,
        keeper,
        journal: _,
        clients: _,
    } = celldb_run::<_, _, _, Sha, _, _>(
        rt, alloc, &words, &mut input, &mut out, keeper, clients, &NoHoldup,
    );
    Ok((status, out.taken().to_vec(alloc)?, keeper))
}

#[test]
fn feeds_are_run_on_threads_and_told(rt: HostRuntime) -> Result<(), Fail> {
    let alloc = rt.alloc();
    let (status, out, keeper) = told_by_run(
        &rt,
        alloc,
        "run",
        &NO_PHASE,
        SteadyKeeper::new(alloc),
    )?;
    assert!(rt; matches!(status, Status::Ok));
    assert!(rt; out.as_slice() == NO_LINES.as_bytes() && keeper.batches() == 0);
    let feed = one_zero(alloc)?;
    let (status, out, keeper) = told_by_run(&rt, alloc, "run", &feed, keeper)?;
    assert!(rt; matches!(status, Status::Ok));
    assert!(rt; out.as_slice() == STORED_LINES.as_bytes() && keeper.batches() == 1);
    // Each call leaves the other one's commands alone.
    let (status, out, keeper) = told_by_run(&rt, alloc, "replay", &feed, keeper)?;
    assert!(rt; matches!(status, Status::Usage(WordFault::Usage)));
    assert!(rt; out.is_empty() && keeper.batches() == 1);
    let (status, out, _) = told(alloc, "run", &feed, keeper)?;
    assert!(rt; matches!(status, Status::Usage(WordFault::Usage)) && out.is_empty());
    Ok(())
}

#[test]
fn a_feed_is_told_though_the_keeper_failed_an_entry(rt: HostRuntime) -> Result<(), Fail> {
    let alloc = rt.alloc();
    let feed = one_zero(alloc)?;
    // The opening makes three calls, the one task two, and the totals two where a cell is held.
    for failing in 0..8 {
        let mut input = SteadySource::new(feed.to_vec(alloc)?);
        let mut out = SteadySink::new(alloc);
        let keeper = MemoryKeeper::new(alloc, [failing].to_vec(alloc)?);
        let Ended {
            status,
            keeper,
            journal,
            clients: _,
        } = call(alloc, "replay", &mut input, &mut out, keeper)?;
        let lines = match failing {
            3 | 4 => FAILED_LINES,
            7 => STORED_LINES,
            _ => "",
        };
        assert!(rt; matches!(status, Status::KeeperFault) == (failing < 7));
        assert!(rt; out.taken() == lines.as_bytes());
        assert!(rt; journal.is_empty() == (failing < 3));
        assert!(rt; failing < 3 || is_only_entry(&journal, 1, failing > 4));
        assert!(rt; keeper.batches() == u64::from(failing > 4));
    }
    Ok(())
}

#[test]
fn a_feed_over_a_failing_source_and_sink(rt: HostRuntime) -> Result<(), Fail> {
    let alloc = rt.alloc();
    let feed = one_zero(alloc)?;
    let mut input = MemorySource::new(feed.to_vec(alloc)?, [1].to_vec(alloc)?);
    let mut out = SteadySink::new(alloc);
    let Ended {
        status,
        keeper,
        journal,
        clients: _,
    } = call(
        alloc,
        "replay",
        &mut input,
        &mut out,
        SteadyKeeper::new(alloc),
    )?;
    assert!(rt; matches!(status, Status::ReadFault) && journal.is_empty());
    let mut input = SteadySource::new(feed);
    let mut out = MemorySink::new(alloc, [0].to_vec(alloc)?);
    let Ended {
        status,
        keeper: _,
        journal,
        clients: _,
    } = call(alloc, "replay", &mut input, &mut out, keeper)?;
    assert!(rt; matches!(status, Status::WriteFault) && is_only_entry(&journal, 1, true));
    Ok(())
}
