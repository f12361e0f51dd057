use cd_feed::{FeedFault, Task, read_feed, write_feed};
use std::alloc::Global;
use std::test::Fail;

// The parts of keys: workchain and shard, and both hashes.
const MASTER: &str = "ffffffff8000000000000000";

const SHARD: &str = "000000008000000000000000";

const ROOT: &str = "aaaaaaaaaaaaaaaaaaaaaaaaaaaaaaaaaaaaaaaaaaaaaaaaaaaaaaaaaaaaaaaa";

const FILE: &str = "bbbbbbbbbbbbbbbbbbbbbbbbbbbbbbbbbbbbbbbbbbbbbbbbbbbbbbbbbbbbbbbb";

// A feed with a task of each kind, in pieces: two phases, the first of two workers, of two and three tasks.
const ZERO: [&str; 12] = [
    "01", MASTER, "00000000", ROOT, FILE, "01", SHARD, "00000000", ROOT, FILE, "00000001", "cc",
];

const BLOCK: [&str; 11] = [
    "02", SHARD, "00000001", ROOT, FILE, SHARD, "00000000", ROOT, FILE, "00", "00000000",
];

const EXPIRE: [&str; 5] = ["03", MASTER, "00000000", ROOT, FILE];

const READ: [&str; 7] = ["04", SHARD, "00000001", ROOT, FILE, "02", "0300"];

const SLICE: [&str; 6] = ["05", SHARD, "00000001", ROOT, FILE, "00000007"];

const PARENTS: [&str; 13] = [
    "07", SHARD, "00000002", ROOT, FILE, SHARD, "00000001", ROOT, FILE, SHARD, "00000001", ROOT,
    FILE,
];

const SERVE: [&str; 6] = ["06", SHARD, "00000001", ROOT, FILE, "00000009"];

fn each_kind(alloc: Global) -> Result<Vec<u8>, Fail> {
    let mut feed = Vec::new(alloc);
    put(alloc, &mut feed, &["636466310002", "0002", "0002"])?;
    put(alloc, &mut feed, &ZERO)?;
    put(alloc, &mut feed, &BLOCK)?;
    put(alloc, &mut feed, &["0003"])?;
    put(alloc, &mut feed, &EXPIRE)?;
    put(alloc, &mut feed, &READ)?;
    put(alloc, &mut feed, &SLICE)?;
    put(alloc, &mut feed, &["0001", "0002"])?;
    put(alloc, &mut feed, &PARENTS)?;
    put(alloc, &mut feed, &["00", "00000000"])?;
    put(alloc, &mut feed, &SERVE)?;
    Ok(feed)
}

fn put(alloc: Global, feed: &mut Vec<u8>, pieces: &[&str]) -> Result<(), Fail> {
    for piece in pieces {
        feed.extend_from_slice(&hex::decode(alloc, *piece)?)?;
    }
    Ok(())
}

fn front(feed: &[u8], len: usize) -> &[u8] {
    if len < feed.len() { &feed[..len] } else { feed }
}

// The fault of a feed, where it has one.
fn fault_of(alloc: Global, feed: &[u8]) -> Option<FeedFault> {
    read_feed(alloc, feed).err()
}

// The feed with other bytes in a place, and its fault.
fn fault_with(
    alloc: Global,
    feed: &[u8],
    at: usize,
    piece: &str,
) -> Result<Option<FeedFault>, Fail> {
    let mut changed = Vec::from_slice(alloc, feed)?;
    for (i, byte) in hex::decode(alloc, piece)?.iter().enumerate() {
        if let Some(place) = changed.get_mut(at.saturating_add(i)) {
            *place = *byte;
        }
    }
    Ok(fault_of(alloc, &changed))
}

fn task(phase: u16, worker: u16, task: u16) -> FeedFault {
    FeedFault::Task {
        phase,
        worker,
        task,
    }
}

// The places were counted by hand: the first task stands at 10, the second at 177, the second worker at 343 and its
// tasks at 345, 426 and 510, the second phase at 595 and its tasks at 599 and 845.
#[test]
fn each_field_has_its_fault(rt: HostRuntime) -> Result<(), Fail> {
    let feed = each_kind(rt.alloc())?;
    let limit = |at: u64| FeedFault::Limit { at };
    let cases = [
        (0, "64", FeedFault::Magic),
        (4, "1001", limit(4)),
        (6, "0000", limit(6)),
        (6, "0011", limit(6)),
        (8, "1001", limit(8)),
        (10, "00", task(0, 0, 0)),
        (10, "08", task(0, 0, 0)),
        // The tops of a block that is none of the masterchain; too many of them are a limit passed.
        (11, "00000000", task(0, 0, 0)),
        (91, "41", limit(91)),
        (172, "04000001", limit(172)),
        (172, "04000000", FeedFault::Cut { at: 930 }),
        (338, "01", task(0, 0, 1)),
        (338, "41", limit(338)),
        (339, "ffffffff", limit(339)),
        (343, "1001", limit(343)),
        (507, "41", limit(507)),
        (508, "04", task(0, 1, 1)),
        (509, "ff", task(0, 1, 1)),
        (591, "00000000", task(0, 1, 2)),
        (591, "00200001", task(0, 1, 2)),
        // A second Serve, in an earlier worker than the one that is then at fault.
        (510, "06", task(1, 0, 1)),
        (595, "0000", limit(595)),
        (840, "01", task(1, 0, 0)),
        (841, "04000001", limit(841)),
        (845, "09", task(1, 0, 1)),
        (926, "00000000", task(1, 0, 1)),
        (926, "00200001", task(1, 0, 1)),
    ];
    for (at, piece, fault) in cases {
        assert_eq!(rt;
            fault_with(rt.alloc(), &feed, at, piece)?,
            Some(fault),
            "{piece} at {at}"
        );
    }
    // At the edges of the ranges.
    for (at, piece) in [
        (508, "03"),
        (591, "00000001"),
        (591, "00200000"),
        (926, "00200000"),
    ] {
        assert_eq!(rt;
            fault_with(rt.alloc(), &feed, at, piece)?,
            None,
            "{piece} at {at}"
        );
    }
    Ok(())
}

#[test]
fn a_cut_feed_is_refused_at_its_length(rt: HostRuntime) -> Result<(), Fail> {
    let feed = each_kind(rt.alloc())?;
    for at in 0..feed.len() {
        let fault = FeedFault::Cut { at: at as u64 };
        assert_eq!(rt; fault_of(rt.alloc(), front(&feed, at)), Some(fault));
    }
    let mut longer = each_kind(rt.alloc())?;
    longer.push(0)?;
    assert_eq!(rt;
        fault_of(rt.alloc(), &longer),
        Some(FeedFault::Extra { at: 930 })
    );
    // A step at fault comes before the end that the next one passes.
    let step = fault_with(rt.alloc(), front(&feed, 509), 508, "04")?;
    assert_eq!(rt; step, Some(task(0, 1, 1)));
    Ok(())
}

#[test]
fn a_feed_is_read_and_written_back(rt: HostRuntime) -> Result<(), Fail> {
    let text = each_kind(rt.alloc())?;
    let feed = read_feed(rt.alloc(), &text)?;
    let kinds: [&[&[u8]]; 2] = [&[&[1, 2], &[3, 4, 5]], &[&[7, 6]]];
    assert_eq!(rt; feed.phases.len(), kinds.len());
    for (phase, workers) in feed.phases.as_slice().iter().zip(kinds) {
        assert_eq!(rt; phase.workers.len(), workers.len());
        for (worker, kinds) in phase.workers.as_slice().iter().zip(workers) {
            assert_eq!(rt; worker.len(), kinds.len());
            for (task, kind) in worker.as_slice().iter().zip(*kinds) {
                assert_eq!(rt; kind_of(task), *kind);
            }
        }
    }
    assert_eq!(rt; write_feed(rt.alloc(), &feed)?, text);
    Ok(())
}

// The kind byte of a task, and what else it has as the feed of each kind has it.
fn kind_of(task: &Task) -> u8 {
    match task {
        Task::Zero { id, tops, bag }
            if id.shard_id.is_master() && tops.len() == 1 && bag.as_slice() == [0xcc].as_slice() =>
            1,
        Task::Block { id, parent, .. } if id.seqno == 1 && parent.seqno == 0 => 2,
        Task::Expire { id } if id.shard_id.is_master() => 3,
        Task::Read { path, .. } if path.as_slice() == [3, 0].as_slice() => 4,
        Task::Slice { max: 7, .. } => 5,
        Task::Serve { max: 9, .. } => 6,
        Task::Merged { id, left, .. } if id.seqno == 2 && left.seqno == 1 => 7,
        _ => 0,
    }
}

// Cases by another program, and the least feed.
#[test]
fn small_feeds(rt: HostRuntime) -> Result<(), Fail> {
    let text = |piece: &str| hex::decode(rt.alloc(), piece);
    let empty = text("636466310000")?;
    assert_eq!(rt; read_feed(rt.alloc(), &empty)?.phases.len(), 0);
    assert_eq!(rt;
        fault_of(rt.alloc(), &text("63646631000000")?),
        Some(FeedFault::Extra { at: 6 })
    );
    assert_eq!(rt;
        fault_of(rt.alloc(), &text("6364663100")?),
        Some(FeedFault::Cut { at: 5 })
    );
    let cut = text(
        "6364663100030001000401ffffffff800000000000000000000000adc6b38512d0c6d1758148fc18579a3d",
    )?;
    assert_eq!(rt; fault_of(rt.alloc(), &cut), Some(FeedFault::Cut { at: 43 }));
    Ok(())
}

#[test]
fn faults_have_texts(rt: HostRuntime) -> Result<(), Fail> {
    let cases = [
        (FeedFault::Magic, "not a feed"),
        (FeedFault::Cut { at: 5 }, "the feed is cut at 5"),
        (FeedFault::Limit { at: 6 }, "a number over its limit at 6"),
        (task(1, 2, 3), "phase 1, worker 2: task 3 is at fault"),
        (
            FeedFault::Extra { at: 7 },
            "bytes stand behind the feed at 7",
        ),
    ];
    for (fault, text) in cases {
        assert_eq!(rt; fault.to_string(rt.alloc())?.as_str(), text);
    }
    Ok(())
}
