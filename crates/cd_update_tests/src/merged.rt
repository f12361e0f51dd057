//! Updates over the joined tree of two states.
use crate::bags::{
    BYTE, Cell, Due, Shape, Shown, Stem, bag_of, fault_of, found_of, hashes_in, hashes_of, info_of,
    weak,
};
use cd_prepare::prepare_merged;
use cd_update::Update;
use std::alloc::Global;
use std::process::Abort;
use std::test::Fail;

// What both states show, the faces beside the hashes that are wanted below the root of the old half, and these hashes,
// the cells of the bag, the hash of the joined cell, and the new root and the listed cells.
struct Merge {
    cells: &'static [Cell],
    left: Shown,
    right: Shown,
    old: u8,
    faces: &'static [Option<Shape>],
    below: &'static [u8],
    root: Shown,
    listed: &'static [u8],
}

// The states of the bytes 01 and 02.
const LEFT: Shown = Shown::Whole(3, 0);

const RIGHT: Shown = Shown::Whole(4, 0);

const TAG: Stem = Stem::Bytes(&[0x5f, 0x32, 0x7d, 0xa5]);
// Other bits of the same sum.
const TURNED: Stem = Stem::Bytes(&[0x32, 0x5f, 0x7d, 0xa5]);

// Nothing changes, so the joined cell is the new root.
const SAME_SPLIT: [Cell; 2] = [
    Cell(10, Stem::Update(0xc4, 0xc4, 1, 1), &[1, 1]),
    Cell(40, Stem::PrunedAbove(1, 0xc4), &[]),
];

const MERGES: [Merge; 5] = [
    Merge {
        cells: &SAME_SPLIT,
        left: LEFT,
        right: RIGHT,
        old: 0xc4,
        faces: &[],
        below: &[],
        root: Shown::Whole(0xc4, 1),
        listed: &[0xc4],
    },
    // Another root over both states, of which the split cell is no part.
    Merge {
        cells: &[
            Cell(10, Stem::Update(0xc4, 0x1b, 1, 1), &[1, 2]),
            Cell(34, TAG, &[3, 4]),
            Cell(34, Stem::Bytes(&[0x10]), &[3, 4]),
            Cell(40, Stem::Pruned(1, 3), &[]),
            Cell(40, Stem::Pruned(1, 4), &[]),
        ],
        left: LEFT,
        right: RIGHT,
        old: 0xc4,
        faces: &[],
        below: &[],
        root: Shown::Whole(0x1b, 1),
        listed: &[0x1b],
    },
    // A root over the split cell.
    Merge {
        cells: &[
            Cell(10, Stem::Update(0xc4, 0xd8, 1, 2), &[2, 1]),
            Cell(33, Stem::Bytes(&[0x10]), &[2]),
            Cell(40, Stem::PrunedAbove(1, 0xc4), &[]),
        ],
        left: LEFT,
        right: RIGHT,
        old: 0xc4,
        faces: &[],
        below: &[],
        root: Shown::Whole(0xd8, 2),
        listed: &[0xd8, 0xc4],
    },
    // The states of the bytes 01 and 41, whose joined cell has the hash of the left one: each is compared with its own
    // face.
    Merge {
        cells: &[
            Cell(10, Stem::Update(3, 0x5a, 1, 1), &[1, 2]),
            Cell(34, TAG, &[3, 4]),
            Cell(34, Stem::Bytes(&[0x10]), &[5, 4]),
            Cell(0, Stem::Bytes(&[1]), &[]),
            Cell(40, Stem::Pruned(1, 0x43), &[]),
            Cell(40, Stem::Pruned(1, 3), &[]),
        ],
        left: LEFT,
        right: Shown::Whole(0x43, 0),
        old: 3,
        faces: &[Some(BYTE)],
        below: &[3],
        root: Shown::Whole(0x5a, 1),
        listed: &[0x5a],
    },
    // A new cell that has the hash of the split cell, which isn't listed.
    Merge {
        cells: &[
            Cell(10, Stem::Update(0xc4, 0x9e, 1, 2), &[1, 2]),
            Cell(34, TAG, &[5, 6]),
            Cell(34, Stem::Bytes(&[0x10]), &[3, 3]),
            Cell(34, TURNED, &[4, 6]),
            Cell(0, Stem::Bytes(&[1]), &[]),
            Cell(40, Stem::Pruned(1, 3), &[]),
            Cell(40, Stem::Pruned(1, 4), &[]),
        ],
        left: LEFT,
        right: RIGHT,
        old: 0xc4,
        faces: &[],
        below: &[],
        root: Shown::Whole(0x9e, 2),
        listed: &[0x9e, 0xc4, 3],
    },
];

fn check_merge(rt: &impl Abort, alloc: Global, row: &Merge) -> Result<(), Fail> {
    let bag = bag_of(alloc, 1, row.cells)?;
    let update = Update::of(&bag)?;
    let faces = found_of(alloc, row.faces)?;
    let left = info_of(row.left);
    let right = info_of(row.right);
    assert!(rt; update.wanted_below(alloc)? == hashes_of(alloc, row.below)?);
    let value = prepare_merged(alloc, &update, &left, &right, &faces)?;
    assert!(rt; value.old() == Some(weak(row.old)));
    assert!(rt; *value.root() == info_of(row.root));
    assert!(rt; hashes_in(alloc, value.cells())? == hashes_of(alloc, row.listed)?);
    Ok(())
}

#[test]
fn what_updates_of_merged_blocks_bring(rt: HostRuntime) -> Result<(), Fail> {
    let alloc = rt.alloc();
    for row in &MERGES {
        check_merge(&rt, alloc, row)?;
    }
    Ok(())
}

// An update over two states, and its fault.
struct Unmerged {
    cells: &'static [Cell],
    left: Shown,
    right: Shown,
    due: Due,
}

const UNMERGED: [Unmerged; 7] = [
    // A depth of 1024 on the left or on the right is too much, and one of 1023 isn't.
    Unmerged {
        cells: &SAME_SPLIT,
        left: Shown::Whole(3, 1024),
        right: RIGHT,
        due: Due::SplitDeep(1025),
    },
    Unmerged {
        cells: &SAME_SPLIT,
        left: LEFT,
        right: Shown::Whole(4, 1024),
        due: Due::SplitDeep(1025),
    },
    Unmerged {
        cells: &SAME_SPLIT,
        left: Shown::Whole(3, 1023),
        right: RIGHT,
        due: Due::OldHash(0xc4, 0xc6),
    },
    Unmerged {
        cells: &SAME_SPLIT,
        left: LEFT,
        right: Shown::Whole(4, 1023),
        due: Due::OldHash(0xc4, 0xc6),
    },
    // Other bits of the split cell's hash.
    Unmerged {
        cells: &[
            Cell(10, Stem::Update(0xc4, 0x1b, 1, 1), &[1, 2]),
            Cell(34, TURNED, &[3, 4]),
            Cell(34, Stem::Bytes(&[0x10]), &[3, 4]),
            Cell(40, Stem::Pruned(1, 3), &[]),
            Cell(40, Stem::Pruned(1, 4), &[]),
        ],
        left: LEFT,
        right: RIGHT,
        due: Due::OldHalf(
            0xc4,
            Shape(false, TAG, 32, &[LEFT, RIGHT]),
            Shape(
                false,
                TURNED,
                32,
                &[Shown::Hidden(3, 117), Shown::Hidden(4, 118)],
            ),
        ),
    },
    // A state that the old half doesn't meet.
    Unmerged {
        cells: &[
            Cell(10, Stem::Update(0xc4, 0x16, 1, 1), &[1, 2]),
            Cell(40, Stem::PrunedAbove(1, 0xc4), &[]),
            Cell(33, Stem::Bytes(&[0x10]), &[3]),
            Cell(40, Stem::Pruned(1, 3), &[]),
        ],
        left: LEFT,
        right: RIGHT,
        due: Due::Foreign(3),
    },
    // A new cell that has the hash of the split cell, which is listed beside it.
    Unmerged {
        cells: &[
            Cell(10, Stem::Update(0xc4, 0x9e, 1, 2), &[1, 2]),
            Cell(34, TAG, &[6, 7]),
            Cell(34, Stem::Bytes(&[0x10]), &[3, 4]),
            Cell(40, Stem::PrunedAbove(1, 0xc4), &[]),
            Cell(34, TURNED, &[5, 7]),
            Cell(0, Stem::Bytes(&[1]), &[]),
            Cell(40, Stem::Pruned(1, 3), &[]),
            Cell(40, Stem::Pruned(1, 4), &[]),
        ],
        left: LEFT,
        right: RIGHT,
        due: Due::NewClash(0xc4),
    },
];

fn check_unmerged(rt: &impl Abort, alloc: Global, row: &Unmerged) -> Result<(), Fail> {
    let bag = bag_of(alloc, 1, row.cells)?;
    let update = Update::of(&bag)?;
    let left = info_of(row.left);
    let right = info_of(row.right);
    let due = fault_of(alloc, &row.due)?;
    assert!(rt; prepare_merged(alloc, &update, &left, &right, &[]).err() == Some(due));
    Ok(())
}

#[test]
fn what_is_refused_of_merged_blocks(rt: HostRuntime) -> Result<(), Fail> {
    let alloc = rt.alloc();
    for row in &UNMERGED {
        check_unmerged(&rt, alloc, row)?;
    }
    Ok(())
}
