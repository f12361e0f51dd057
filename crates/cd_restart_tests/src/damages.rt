//! What damages a store, and what is told of it. All hashes are weak ones, by their last bytes: a cell's bytes, summed up
//! modulo 256.

use crate::stores::{Put, key_of, weak};
use cd_record::RecordFault;
use cd_restart::ScanFault;

/// The refusal that is due. Blocks are named by their roots.
#[derive(Clone, Copy)]
pub(crate) enum Due {
    Desc(u8),
    /// The block of this seqno.
    Lineage(u8, u32),
    /// No record of this version is known.
    Record(u8, u8),
    WrongKey(u8, u8),
    Missing(u8, u8),
    ChildInfo(u8, u8),
    RootMissing(u8),
    RootDepth(u8, u16, u16),
    Count(u8, u64, u64),
}

/// What is put into a store, and what is told then.
#[derive(Clone, Copy)]
pub(crate) struct Damage(pub(crate) &'static [Put], pub(crate) Due);

/// Each refusal, in their order, at two keys, of which the first is told. Those of a later refusal stand before them.
pub(crate) const DAMAGES: [Damage; 9] = [
    Damage(
        &[Put::Desc(0x51, &[2]), Put::Desc(0x52, &[])],
        Due::Desc(0x51),
    ),
    Damage(
        &[Put::State((0x41, 0), (3, 0)), Put::State((0x42, 0), (4, 1))],
        Due::Lineage(0x41, 0),
    ),
    Damage(
        &[Put::Record(0x61, &[3]), Put::Record(0x62, &[9])],
        Due::Record(0x61, 3),
    ),
    Damage(
        &[
            Put::Cell(0x31, 1, &[0, 2, 1], &[]),
            Put::Cell(0x32, 1, &[0, 2, 2], &[]),
        ],
        Due::WrongKey(0x31, 3),
    ),
    Damage(
        &[
            Put::Cell(0x0d, 1, &[2, 0], &[(5, 0), (6, 0)]),
            Put::Cell(0x11, 1, &[1, 0], &[(0x10, 0)]),
        ],
        Due::Missing(0x0d, 5),
    ),
    Damage(
        &[
            Put::Cell(9, 1, &[1, 0], &[(3, 5)]),
            Put::Cell(0x0b, 1, &[1, 0], &[(3, 7)]),
        ],
        Due::ChildInfo(9, 3),
    ),
    Damage(
        &[
            Put::State((0x21, 0), (0x21, 0)),
            Put::State((0x22, 0), (0x22, 0)),
        ],
        Due::RootMissing(0x21),
    ),
    Damage(
        &[Put::State((3, 0), (3, 4)), Put::State((4, 0), (4, 2))],
        Due::RootDepth(3, 4, 0),
    ),
    Damage(
        &[
            Put::Cell(3, 2, &[0, 2, 1], &[]),
            Put::Cell(4, 5, &[1, 0], &[(3, 0)]),
        ],
        Due::Count(3, 2, 1),
    ),
];

/// A pruned branch for w(04), which shows mask 1.
const PRUNED: [u8; 38] = [
    0x28, 0x48, 1, 1, 0, 0, 0, 0, 0, 0, 0, 0, 0, 0, 0, 0, 0, 0, 0, 0, 0, 0, 0, 0, 0, 0, 0, 0, 0, 0,
    0, 0, 0, 0, 0, 4, 0, 0,
];

/// A state of two cells, the root w(04) over the leaf w(03).
pub(crate) const TWO_CELLS: [Put; 3] = [
    Put::Cell(3, 1, &[0, 2, 1], &[]),
    Put::Cell(4, 1, &[1, 0], &[(3, 0)]),
    Put::State((4, 0), (4, 1)),
];

/// Further causes: a block of seqno 1 without parents, and a root of another mask.
pub(crate) const MORE: [Damage; 2] = [
    Damage(&[Put::State((4, 1), (4, 1))], Due::Lineage(4, 1)),
    Damage(
        &[
            Put::Cell(0x76, 1, &PRUNED, &[]),
            Put::State((0x76, 0), (0x76, 0)),
        ],
        Due::RootMissing(0x76),
    ),
];

/// In a store of nothing: a block without its root's record, and a cell that nothing refers to.
pub(crate) const ALONE: [Damage; 2] = [
    Damage(&[Put::State((4, 0), (4, 1))], Due::RootMissing(4)),
    Damage(&[Put::Cell(3, 1, &[0, 2, 1], &[])], Due::Count(3, 1, 0)),
];

impl Due {
    /// The fault that a scan tells.
    pub(crate) fn fault(&self) -> ScanFault {
        match *self {
            Due::Desc(root) => ScanFault::Desc {
                key: key_of(weak(root), 0),
            },
            Due::Lineage(root, seqno) => ScanFault::Lineage {
                key: key_of(weak(root), seqno),
            },
            Due::Record(hash, value) => ScanFault::Record {
                hash: weak(hash),
                fault: RecordFault::Version { value },
            },
            Due::WrongKey(hash, real) => ScanFault::WrongKey {
                hash: weak(hash),
                real: weak(real),
            },
            Due::Missing(parent, child) => ScanFault::Missing {
                parent: weak(parent),
                child: weak(child),
            },
            Due::ChildInfo(parent, child) => ScanFault::ChildInfo {
                parent: weak(parent),
                child: weak(child),
            },
            Due::RootMissing(root) => ScanFault::RootMissing {
                key: key_of(weak(root), 0),
                root: weak(root),
            },
            Due::RootDepth(root, stated, real) => ScanFault::RootDepth {
                key: key_of(weak(root), 0),
                stated,
                real,
            },
            Due::Count(hash, stored, counted) => ScanFault::Count {
                hash: weak(hash),
                stored,
                counted,
            },
        }
    }
}
