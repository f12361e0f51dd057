//! What the tests play. All hashes are weak, worked out by hand: a cell's bytes, summed up modulo 256.

use crate::names::{Name, Shard};
use crate::scripts::{Deed, Due, Held, Script, Step};
use crate::values::Cell;

/// The masterchain's zero state, whose root is w(03).
pub(crate) const FIRST: Name = Name(Shard::Master, 0, 3, 0);

/// The blocks after it: one with the same root, and those with w(35) and w(36).
const SAME: Name = Name(Shard::Master, 1, 3, 0);

const LEFT: Name = Name(Shard::Master, 1, 0x35, 0);

const RIGHT: Name = Name(Shard::Master, 1, 0x36, 0);

/// w(03).
pub(crate) const ONE: [Cell; 1] = [Cell::Plain(&[1], &[])];

/// The update of w(03) to itself.
const STAYS: [Cell; 3] = [
    Cell::Update((3, 0), (3, 0)),
    Cell::Pruned((3, 0)),
    Cell::Pruned((3, 0)),
];

/// The updates of w(03) to w(35) and to w(36), each over w(22).
const TO_LEFT: [Cell; 4] = [
    Cell::Update((3, 0), (0x35, 1)),
    Cell::Pruned((3, 0)),
    Cell::Plain(&[0x10], &[3]),
    Cell::Plain(&[0x20], &[]),
];

const TO_RIGHT: [Cell; 4] = [
    Cell::Update((3, 0), (0x36, 1)),
    Cell::Pruned((3, 0)),
    Cell::Plain(&[0x11], &[3]),
    Cell::Plain(&[0x20], &[]),
];

const NO_TOPS: [Name; 0] = [];

// ---- one parent

const SHARD: Name = Name(Shard::Whole, 0, 3, 0);

const NAMING: Name = Name(Shard::Master, 0, 3, 1);

const UNKNOWN: Name = Name(Shard::Whole, 0, 7, 0);

/// A block with the root of its parent, which expires and leaves the cell; and the other ends of an expiry.
pub(crate) const EXPIRY: Script = Script {
    limit: 9,
    steps: &[
        Step(1, Deed::Zero(FIRST, &ONE, &NO_TOPS), Due::Stored),
        Step(1, Deed::Pin(FIRST), Due::Pinned(0)),
        Step(1, Deed::Merge(0, SAME, &STAYS, (3, 0)), Due::Stored),
        Step(2, Deed::Expire(SAME), Due::Expired(1)),
        Step(2, Deed::Expire(FIRST), Due::UnknownBlock),
        Step(2, Deed::Expire(SAME), Due::Expired(0)),
        Step(1, Deed::Zero(SHARD, &ONE, &NO_TOPS), Due::Stored),
        Step(1, Deed::Expire(SHARD), Due::NotMaster),
        Step(1, Deed::Zero(NAMING, &ONE, &[SHARD, UNKNOWN]), Due::Stored),
        Step(1, Deed::Expire(NAMING), Due::TopMissing(UNKNOWN)),
    ],
    trail: &[
        Held(&[(3, 1)], &[(FIRST, false)]),
        Held(&[(3, 2)], &[(FIRST, false), (SAME, false)]),
        Held(&[(3, 1)], &[(SAME, false)]),
        Held(&[(3, 2)], &[(SHARD, false), (SAME, false)]),
        Held(&[(3, 3)], &[(SHARD, false), (NAMING, false), (SAME, false)]),
    ],
};

/// What is held of it where it is stopped before or after a batch, and opened again.
pub(crate) const EXPIRY_OPENED: [Held; 6] = [
    Held(&[], &[]),
    Held(&[(3, 1)], &[(FIRST, false)]),
    Held(&[(3, 2)], &[(FIRST, false), (SAME, false)]),
    Held(&[(3, 1)], &[(SAME, false)]),
    Held(&[(3, 2)], &[(SHARD, false), (SAME, false)]),
    Held(&[(3, 3)], &[(SHARD, false), (NAMING, false), (SAME, false)]),
];

const STORED_AND_PINNED_TWICE: Held = Held(&[(3, 1)], &[(FIRST, false)]);

const BOTH_STORED: Held = Held(
    &[(3, 1), (0x22, 2), (0x35, 1), (0x36, 1)],
    &[(FIRST, false), (LEFT, false), (RIGHT, false)],
);

/// Two blocks over one parent, which share a cell.
pub(crate) const LEFT_AND_RIGHT: Script = Script {
    limit: 9,
    steps: &[
        Step(1, Deed::Zero(FIRST, &ONE, &NO_TOPS), Due::Stored),
        Step(1, Deed::Pin(FIRST), Due::Pinned(0)),
        Step(2, Deed::Pin(FIRST), Due::Pinned(1)),
        Step(1, Deed::Merge(0, LEFT, &TO_LEFT, (3, 0)), Due::Stored),
        Step(2, Deed::Merge(1, RIGHT, &TO_RIGHT, (3, 0)), Due::Stored),
        Step(2, Deed::Unpin(1), Due::NoPin),
    ],
    trail: &[
        STORED_AND_PINNED_TWICE,
        Held(
            &[(3, 1), (0x22, 1), (0x35, 1)],
            &[(FIRST, false), (LEFT, false)],
        ),
        BOTH_STORED,
    ],
};

/// The same in the other order.
pub(crate) const RIGHT_AND_LEFT: Script = Script {
    limit: 9,
    steps: &[
        Step(1, Deed::Zero(FIRST, &ONE, &NO_TOPS), Due::Stored),
        Step(1, Deed::Pin(FIRST), Due::Pinned(0)),
        Step(2, Deed::Pin(FIRST), Due::Pinned(1)),
        Step(2, Deed::Merge(1, RIGHT, &TO_RIGHT, (3, 0)), Due::Stored),
        Step(1, Deed::Merge(0, LEFT, &TO_LEFT, (3, 0)), Due::Stored),
    ],
    trail: &[
        STORED_AND_PINNED_TWICE,
        Held(
            &[(3, 1), (0x22, 1), (0x36, 1)],
            &[(FIRST, false), (RIGHT, false)],
        ),
        BOTH_STORED,
    ],
};

/// A pinned block that leaves is seen under its pin alone, and goes with the block that is stored over it.
pub(crate) const COLLECTED_BY_A_MERGE: Script = Script {
    limit: 9,
    steps: &[
        Step(1, Deed::Zero(FIRST, &ONE, &NO_TOPS), Due::Stored),
        Step(1, Deed::Pin(FIRST), Due::Pinned(0)),
        Step(2, Deed::Pin(FIRST), Due::Pinned(1)),
        Step(2, Deed::Merge(1, SAME, &STAYS, (3, 0)), Due::Stored),
        Step(2, Deed::Expire(SAME), Due::Expired(1)),
        Step(2, Deed::Pin(FIRST), Due::UnknownBlock),
        Step(1, Deed::Look(0, 3, &[1]), Due::Looked),
        Step(2, Deed::Look(0, 3, &[1]), Due::NoPin),
        Step(1, Deed::Merge(0, LEFT, &TO_LEFT, (3, 0)), Due::Stored),
        Step(1, Deed::Merge(0, RIGHT, &TO_RIGHT, (3, 0)), Due::NoPin),
    ],
    trail: &[
        STORED_AND_PINNED_TWICE,
        Held(&[(3, 2)], &[(FIRST, false), (SAME, false)]),
        Held(&[(3, 2)], &[(FIRST, true), (SAME, false)]),
        Held(
            &[(3, 1), (0x22, 1), (0x35, 1)],
            &[(SAME, false), (LEFT, false)],
        ),
    ],
};

/// What is held of it where it is stopped before or after a batch, and opened again: a leaving block goes.
pub(crate) const COLLECTED_BY_A_MERGE_OPENED: [Held; 5] = [
    Held(&[], &[]),
    Held(&[(3, 1)], &[(FIRST, false)]),
    Held(&[(3, 2)], &[(FIRST, false), (SAME, false)]),
    Held(&[(3, 1)], &[(SAME, false)]),
    Held(
        &[(3, 1), (0x22, 1), (0x35, 1)],
        &[(SAME, false), (LEFT, false)],
    ),
];

/// A pinned block that leaves and shares no cell stays whole until its last pin ends.
pub(crate) const COLLECTED_BY_UNPIN: Script = Script {
    limit: 9,
    steps: &[
        Step(1, Deed::Zero(FIRST, &ONE, &NO_TOPS), Due::Stored),
        Step(1, Deed::Pin(FIRST), Due::Pinned(0)),
        Step(2, Deed::Pin(FIRST), Due::Pinned(1)),
        Step(3, Deed::Pin(FIRST), Due::Pinned(2)),
        Step(2, Deed::Merge(1, LEFT, &TO_LEFT, (3, 0)), Due::Stored),
        Step(2, Deed::Expire(LEFT), Due::Expired(1)),
        Step(1, Deed::Unpin(0), Due::Unpinned(false)),
        Step(1, Deed::Unpin(2), Due::NoPin),
        Step(3, Deed::Unpin(2), Due::Unpinned(true)),
        Step(3, Deed::Unpin(2), Due::NoPin),
    ],
    trail: &[
        STORED_AND_PINNED_TWICE,
        Held(
            &[(3, 1), (0x22, 1), (0x35, 1)],
            &[(FIRST, false), (LEFT, false)],
        ),
        Held(
            &[(3, 1), (0x22, 1), (0x35, 1)],
            &[(FIRST, true), (LEFT, false)],
        ),
        Held(&[(0x22, 1), (0x35, 1)], &[(LEFT, false)]),
    ],
};

/// The same of it: the leaving block takes its cell along.
pub(crate) const COLLECTED_BY_UNPIN_OPENED: [Held; 5] = [
    Held(&[], &[]),
    Held(&[(3, 1)], &[(FIRST, false)]),
    Held(
        &[(3, 1), (0x22, 1), (0x35, 1)],
        &[(FIRST, false), (LEFT, false)],
    ),
    Held(&[(0x22, 1), (0x35, 1)], &[(LEFT, false)]),
    Held(&[(0x22, 1), (0x35, 1)], &[(LEFT, false)]),
];

// ---- refusals

/// Two cells under w(05), and roots w(06) over each.
const BITS: [Cell; 1] = [Cell::Plain(&[1, 0], &[])];

const OTHER_BITS: [Cell; 1] = [Cell::Plain(&[0, 1], &[])];

const OVER_BITS: [Cell; 2] = [Cell::Plain(&[], &[1]), Cell::Plain(&[1, 0], &[])];

const OVER_OTHER_BITS: [Cell; 2] = [Cell::Plain(&[], &[1]), Cell::Plain(&[0, 1], &[])];

const FIVE: Name = Name(Shard::Master, 0, 5, 0);

const OTHER_FIVE: Name = Name(Shard::Master, 0, 5, 1);

const SIX: Name = Name(Shard::Master, 0, 6, 0);

const OTHER_SIX: Name = Name(Shard::Master, 0, 6, 1);

/// A state that has another cell under a held hash, at its root or below a root that is held, stores nothing.
pub(crate) const CLASHES: Script = Script {
    limit: 9,
    steps: &[
        Step(1, Deed::Zero(FIVE, &BITS, &NO_TOPS), Due::Stored),
        Step(
            1,
            Deed::Zero(OTHER_FIVE, &OTHER_BITS, &NO_TOPS),
            Due::Clash(5, &[1, 0], &[0, 1]),
        ),
        Step(1, Deed::Zero(SIX, &OVER_BITS, &NO_TOPS), Due::Stored),
        Step(
            1,
            Deed::Zero(OTHER_SIX, &OVER_OTHER_BITS, &NO_TOPS),
            Due::Clash(5, &[1, 0], &[0, 1]),
        ),
    ],
    trail: &[
        Held(&[(5, 1)], &[(FIVE, false)]),
        Held(&[(5, 2), (6, 1)], &[(FIVE, false), (SIX, false)]),
    ],
};

/// A root w(04) with the empty cell w(00) in all four places.
pub(crate) const FOUR_PLACES: [Cell; 2] = [Cell::Plain(&[], &[1, 1, 1, 1]), Cell::Plain(&[], &[])];

const FOUR: Name = Name(Shard::Master, 0, 4, 0);

const OTHER_FOUR: Name = Name(Shard::Master, 0, 4, 0xff);

/// Counts up to the limit of 3: a state is refused, and so is a block, whose pin stays.
pub(crate) const FULL_COUNTS: Script = Script {
    limit: 3,
    steps: &[
        Step(1, Deed::Zero(FOUR, &FOUR_PLACES, &NO_TOPS), Due::Full(0, 4)),
        Step(1, Deed::Zero(FIRST, &ONE, &NO_TOPS), Due::Stored),
        Step(1, Deed::Zero(SHARD, &ONE, &NO_TOPS), Due::Stored),
        Step(1, Deed::Zero(NAMING, &ONE, &NO_TOPS), Due::Stored),
        Step(1, Deed::Pin(FIRST), Due::Pinned(0)),
        Step(1, Deed::Merge(0, SAME, &STAYS, (3, 0)), Due::Full(3, 4)),
        Step(1, Deed::Unpin(0), Due::Unpinned(false)),
    ],
    trail: &[
        Held(&[(3, 1)], &[(FIRST, false)]),
        Held(&[(3, 2)], &[(SHARD, false), (FIRST, false)]),
        Held(
            &[(3, 3)],
            &[(SHARD, false), (FIRST, false), (NAMING, false)],
        ),
    ],
};

/// A state that is stored again gives the children of its root nothing.
pub(crate) const TWICE: Script = Script {
    limit: 4,
    steps: &[
        Step(1, Deed::Zero(FOUR, &FOUR_PLACES, &NO_TOPS), Due::Stored),
        Step(
            1,
            Deed::Zero(OTHER_FOUR, &FOUR_PLACES, &NO_TOPS),
            Due::Stored,
        ),
    ],
    trail: &[
        Held(&[(0, 4), (4, 1)], &[(FOUR, false)]),
        Held(&[(0, 4), (4, 2)], &[(FOUR, false), (OTHER_FOUR, false)]),
    ],
};

const LATER: Name = Name(Shard::Master, 2, 3, 0);

const MISNAMED: Name = Name(Shard::Master, 0, 4, 0);

/// What the world refuses of states and blocks, before the keeper is asked for anything.
pub(crate) const NAMES: Script = Script {
    limit: 9,
    steps: &[
        Step(1, Deed::Zero(LATER, &ONE, &NO_TOPS), Due::Seqno(2, 0)),
        Step(1, Deed::Zero(MISNAMED, &ONE, &NO_TOPS), Due::ZeroHash(4, 3)),
        Step(1, Deed::Pin(FIRST), Due::UnknownBlock),
        Step(1, Deed::Zero(FIRST, &ONE, &NO_TOPS), Due::Stored),
        Step(1, Deed::Zero(FIRST, &ONE, &NO_TOPS), Due::Known),
        Step(1, Deed::Pin(FIRST), Due::Pinned(0)),
        Step(1, Deed::Merge(0, FIRST, &STAYS, (3, 0)), Due::Known),
        Step(1, Deed::Merge(0, LATER, &STAYS, (3, 0)), Due::Seqno(2, 1)),
        Step(1, Deed::Merge(0, LEFT, &TO_LEFT, (3, 0)), Due::Stored),
        Step(1, Deed::Pin(LEFT), Due::Pinned(1)),
        Step(1, Deed::Merge(1, LATER, &STAYS, (3, 0)), Due::WrongPin),
        Step(2, Deed::Merge(1, LATER, &STAYS, (3, 0)), Due::NoPin),
    ],
    trail: &[
        Held(&[(3, 1)], &[(FIRST, false)]),
        Held(
            &[(3, 1), (0x22, 1), (0x35, 1)],
            &[(FIRST, false), (LEFT, false)],
        ),
    ],
};

// ---- two parents

/// The states of two halves, w(03) and w(04), and the block over both, under w(c4) or w(1b).
const HALF: Name = Name(Shard::Left, 0, 3, 0);

const OTHER_HALF: Name = Name(Shard::Right, 0, 4, 0);

const JOINED: Name = Name(Shard::Whole, 1, 0xc4, 0);

const OPENED: Name = Name(Shard::Whole, 1, 0x1b, 0);

const TWO: [Cell; 1] = [Cell::Plain(&[2], &[])];

/// The update of the joined state to itself.
const JOINED_STAYS: [Cell; 3] = [
    Cell::Update((0xc4, 1), (0xc4, 1)),
    Cell::Pruned((0xc4, 1)),
    Cell::Pruned((0xc4, 1)),
];

/// The update of the joined state, of which the root is shown, to another root over both halves.
const JOINED_OPENED: [Cell; 5] = [
    Cell::Update((0xc4, 1), (0x1b, 1)),
    Cell::Above(&[0x5f, 0x32, 0x7d, 0xa5], &[3, 4]),
    Cell::Above(&[0x10], &[3, 4]),
    Cell::Pruned((3, 0)),
    Cell::Pruned((4, 0)),
];

const HALVES: Held = Held(&[(3, 1), (4, 1)], &[(HALF, false), (OTHER_HALF, false)]);

/// A block over two parents, whose joined state stays: its root is the one new cell. The pins in the other order, one
/// pin twice, and a pin of another worker are refused.
pub(crate) const MERGED: Script = Script {
    limit: 9,
    steps: &[
        Step(1, Deed::Zero(HALF, &ONE, &NO_TOPS), Due::Stored),
        Step(1, Deed::Zero(OTHER_HALF, &TWO, &NO_TOPS), Due::Stored),
        Step(1, Deed::Pin(HALF), Due::Pinned(0)),
        Step(1, Deed::Pin(OTHER_HALF), Due::Pinned(1)),
        Step(2, Deed::Pin(OTHER_HALF), Due::Pinned(2)),
        Step(
            1,
            Deed::MergeBoth((1, 0), JOINED, &JOINED_STAYS, ((4, 0), (3, 0))),
            Due::Shard,
        ),
        Step(
            1,
            Deed::MergeBoth((0, 0), JOINED, &JOINED_STAYS, ((3, 0), (4, 0))),
            Due::NoPin,
        ),
        Step(
            1,
            Deed::MergeBoth((0, 2), JOINED, &JOINED_STAYS, ((3, 0), (4, 0))),
            Due::NoPin,
        ),
        Step(
            1,
            Deed::MergeBoth((0, 1), JOINED, &JOINED_STAYS, ((3, 0), (4, 0))),
            Due::Stored,
        ),
        Step(1, Deed::Unpin(0), Due::NoPin),
        Step(1, Deed::Unpin(1), Due::NoPin),
        Step(2, Deed::Unpin(2), Due::Unpinned(false)),
    ],
    trail: &[
        Held(&[(3, 1)], &[(HALF, false)]),
        HALVES,
        Held(
            &[(3, 2), (4, 2), (0xc4, 1)],
            &[(HALF, false), (JOINED, false), (OTHER_HALF, false)],
        ),
    ],
};

/// A block over two parents whose new state hasn't the joined root, which then isn't held.
pub(crate) const MERGED_ANEW: Script = Script {
    limit: 9,
    steps: &[
        Step(1, Deed::Zero(HALF, &ONE, &NO_TOPS), Due::Stored),
        Step(1, Deed::Zero(OTHER_HALF, &TWO, &NO_TOPS), Due::Stored),
        Step(1, Deed::Pin(HALF), Due::Pinned(0)),
        Step(1, Deed::Pin(OTHER_HALF), Due::Pinned(1)),
        Step(
            1,
            Deed::MergeBoth((0, 1), OPENED, &JOINED_OPENED, ((3, 0), (4, 0))),
            Due::Stored,
        ),
    ],
    trail: &[
        Held(&[(3, 1)], &[(HALF, false)]),
        HALVES,
        Held(
            &[(3, 2), (4, 2), (0x1b, 1)],
            &[(HALF, false), (OPENED, false), (OTHER_HALF, false)],
        ),
    ],
};

const NEXT_HALF: Name = Name(Shard::Left, 1, 3, 0);

const NEXT_OTHER_HALF: Name = Name(Shard::Right, 1, 4, 0);

const MASTER: Name = Name(Shard::Master, 0, 7, 0);

const FIVE_BITS: [Cell; 1] = [Cell::Plain(&[5], &[])];

/// The update of w(04) to itself.
const OTHER_STAYS: [Cell; 3] = [
    Cell::Update((4, 0), (4, 0)),
    Cell::Pruned((4, 0)),
    Cell::Pruned((4, 0)),
];

/// Both parents are leaving, and go with the block over them.
pub(crate) const MERGED_AND_COLLECTED: Script = Script {
    limit: 9,
    steps: &[
        Step(1, Deed::Zero(HALF, &ONE, &NO_TOPS), Due::Stored),
        Step(1, Deed::Zero(OTHER_HALF, &TWO, &NO_TOPS), Due::Stored),
        Step(1, Deed::Pin(HALF), Due::Pinned(0)),
        Step(1, Deed::Pin(OTHER_HALF), Due::Pinned(1)),
        Step(2, Deed::Pin(HALF), Due::Pinned(2)),
        Step(2, Deed::Pin(OTHER_HALF), Due::Pinned(3)),
        Step(2, Deed::Merge(2, NEXT_HALF, &STAYS, (3, 0)), Due::Stored),
        Step(
            2,
            Deed::Merge(3, NEXT_OTHER_HALF, &OTHER_STAYS, (4, 0)),
            Due::Stored,
        ),
        Step(
            2,
            Deed::Zero(MASTER, &FIVE_BITS, &[NEXT_HALF, NEXT_OTHER_HALF]),
            Due::Stored,
        ),
        Step(2, Deed::Expire(MASTER), Due::Expired(2)),
        Step(
            1,
            Deed::MergeBoth((0, 1), JOINED, &JOINED_STAYS, ((3, 0), (4, 0))),
            Due::Stored,
        ),
        Step(1, Deed::Pin(HALF), Due::UnknownBlock),
    ],
    trail: &[
        Held(&[(3, 1)], &[(HALF, false)]),
        HALVES,
        Held(
            &[(3, 2), (4, 1)],
            &[(HALF, false), (NEXT_HALF, false), (OTHER_HALF, false)],
        ),
        Held(
            &[(3, 2), (4, 2)],
            &[
                (HALF, false),
                (NEXT_HALF, false),
                (OTHER_HALF, false),
                (NEXT_OTHER_HALF, false),
            ],
        ),
        Held(
            &[(3, 2), (4, 2), (7, 1)],
            &[
                (HALF, false),
                (NEXT_HALF, false),
                (OTHER_HALF, false),
                (NEXT_OTHER_HALF, false),
                (MASTER, false),
            ],
        ),
        Held(
            &[(3, 2), (4, 2), (7, 1)],
            &[
                (HALF, true),
                (NEXT_HALF, false),
                (OTHER_HALF, true),
                (NEXT_OTHER_HALF, false),
                (MASTER, false),
            ],
        ),
        Held(
            &[(3, 2), (4, 2), (7, 1), (0xc4, 1)],
            &[
                (NEXT_HALF, false),
                (JOINED, false),
                (NEXT_OTHER_HALF, false),
                (MASTER, false),
            ],
        ),
    ],
};
