use crate::bags::{
    BYTE, Cell, Due, Shape, Shown, Stem, bag_of, bag_of_text, face_of, faces_of, fault_of,
    found_of, hashes_in, hashes_of, info_of, infos_of, put, weak,
};
use cd_base::Hash256;
use cd_boc_read::read_bag;
use cd_cell::{Bag, ChildInfo, Face, Mask, NewCell, Sha, WeakSum};
use cd_prepare::{PrepareFault, prepare_update, prepare_zero};
use cd_update::{GraftFault, PairFault, Update, UpdateFault, graft, pair_old};
use std::alloc::{AllocError, Global};
use std::process::Abort;
use std::test::Fail;

// ---- updates that are prepared

// An update, by the cells of its bag, over an old root and the faces beside its wanted hashes, and what it brings: the
// wanted hashes, those below the old half's root, what is known, the new root, the own cells and the listed ones.
struct Row {
    cells: &'static [Cell],
    old: Shown,
    faces: &'static [Option<Shape>],
    wanted: &'static [u8],
    below: &'static [u8],
    known: &'static [Shown],
    root: Shown,
    own: &'static [Shape],
    listed: &'static [u8],
}

const NEW_LEAF: Shape = Shape(false, Stem::Bytes(&[0x10]), 8, &[]);

const OLD_PROOF: Shape = Shape(true, Stem::Proof(34), 280, &[Shown::Whole(34, 0)]);

const ROWS: [Row; 6] = [
    // Nothing changes: both halves are the hidden old root, as two entries and as one.
    Row {
        cells: &[
            Cell(10, Stem::Update(3, 3, 0, 0), &[1, 2]),
            Cell(40, Stem::Pruned(1, 3), &[]),
            Cell(40, Stem::Pruned(1, 3), &[]),
        ],
        old: Shown::Whole(3, 0),
        faces: &[],
        wanted: &[],
        below: &[],
        known: &[Shown::Whole(3, 0)],
        root: Shown::Whole(3, 0),
        own: &[],
        listed: &[],
    },
    Row {
        cells: &[
            Cell(10, Stem::Update(3, 3, 0, 0), &[1, 1]),
            Cell(40, Stem::Pruned(1, 3), &[]),
        ],
        old: Shown::Whole(3, 0),
        faces: &[],
        wanted: &[],
        below: &[],
        known: &[Shown::Whole(3, 0)],
        root: Shown::Whole(3, 0),
        own: &[],
        listed: &[],
    },
    // One new cell over a hidden old root.
    Row {
        cells: &[
            Cell(10, Stem::Update(3, 0x12, 0, 0), &[1, 2]),
            Cell(40, Stem::Pruned(1, 3), &[]),
            Cell(0, Stem::Bytes(&[0x10]), &[]),
        ],
        old: Shown::Whole(3, 0),
        faces: &[],
        wanted: &[],
        below: &[],
        known: &[Shown::Whole(3, 0)],
        root: Shown::Whole(0x12, 0),
        own: &[NEW_LEAF],
        listed: &[0x12],
    },
    // And over one that is shown.
    Row {
        cells: &[
            Cell(10, Stem::Update(3, 0x12, 0, 0), &[1, 2]),
            Cell(0, Stem::Bytes(&[1]), &[]),
            Cell(0, Stem::Bytes(&[0x10]), &[]),
        ],
        old: Shown::Whole(3, 0),
        faces: &[Some(Shape(false, Stem::Bytes(&[1]), 8, &[]))],
        wanted: &[3],
        below: &[],
        known: &[Shown::Whole(3, 0)],
        root: Shown::Whole(0x12, 0),
        own: &[NEW_LEAF],
        listed: &[0x12],
    },
    // The old tree is the cell of the byte 20 below a proof below the cell of the byte 10. A branch of level 2 below
    // the proof is hidden in both halves; the proof is an own cell, as it is in the old tree.
    Row {
        cells: &[
            Cell(10, Stem::Update(170, 171, 2, 2), &[1, 2]),
            Cell(33, Stem::Bytes(&[16]), &[3]),
            Cell(33, Stem::Bytes(&[17]), &[3]),
            Cell(41, Stem::Proof(34), &[4]),
            Cell(72, Stem::Pruned(2, 34), &[]),
        ],
        old: Shown::Whole(170, 2),
        faces: &[
            Some(Shape(false, Stem::Bytes(&[16]), 8, &[Shown::Whole(150, 1)])),
            Some(OLD_PROOF),
        ],
        wanted: &[170, 150],
        below: &[150],
        known: &[
            Shown::Whole(170, 2),
            Shown::Whole(150, 1),
            Shown::Whole(34, 0),
        ],
        root: Shown::Whole(171, 2),
        own: &[
            Shape(false, Stem::Bytes(&[17]), 8, &[Shown::Whole(150, 1)]),
            OLD_PROOF,
        ],
        listed: &[171, 150],
    },
    // A branch of level 1 below a proof stays.
    Row {
        cells: &[
            Cell(10, Stem::Update(3, 231, 0, 2), &[1, 2]),
            Cell(40, Stem::Pruned(1, 3), &[]),
            Cell(1, Stem::Bytes(&[17]), &[3]),
            Cell(9, Stem::Proof(7), &[4]),
            Cell(40, Stem::Pruned(1, 7), &[]),
        ],
        old: Shown::Whole(3, 0),
        faces: &[],
        wanted: &[],
        below: &[],
        known: &[Shown::Whole(3, 0)],
        root: Shown::Whole(231, 2),
        own: &[
            Shape(false, Stem::Bytes(&[17]), 8, &[Shown::Whole(210, 1)]),
            Shape(true, Stem::Proof(7), 280, &[Shown::Hidden(7, 121)]),
            Shape(true, Stem::Pruned(1, 7), 288, &[]),
        ],
        listed: &[231, 210, 121],
    },
];

fn check_layers(
    rt: &impl Abort,
    alloc: Global,
    row: &Row,
    update: &Update<WeakSum>,
    faces: &[Option<Face>],
) -> Result<(), Fail> {
    assert!(rt; update.wanted(alloc)? == hashes_of(alloc, row.wanted)?);
    assert!(rt; update.wanted_below(alloc)? == hashes_of(alloc, row.below)?);
    let known = pair_old(alloc, update, &info_of(row.old), faces)?;
    assert!(rt; known.infos.as_slice() == infos_of(alloc, row.known)?.as_slice());
    let new = graft(alloc, update, &known)?;
    assert!(rt; new.root == info_of(row.root));
    assert!(rt; new.cells.as_slice() == faces_of(alloc, row.own)?.as_slice());
    Ok(())
}

fn check_row(rt: &impl Abort, alloc: Global, row: &Row) -> Result<(), Fail> {
    let bag = bag_of(alloc, 1, row.cells)?;
    let update = Update::of(&bag)?;
    let faces = found_of(alloc, row.faces)?;
    check_layers(rt, alloc, row, &update, &faces)?;
    let old = info_of(row.old);
    let value = prepare_update(alloc, &update, &old, &faces)?;
    assert!(rt; value.old() == Some(old.rep()));
    assert!(rt; *value.root() == info_of(row.root));
    assert!(rt; hashes_in(alloc, value.cells())? == hashes_of(alloc, row.listed)?);
    Ok(())
}

#[test]
fn what_updates_bring(rt: HostRuntime) -> Result<(), Fail> {
    let alloc = rt.alloc();
    for row in &ROWS {
        check_row(&rt, alloc, row)?;
    }
    Ok(())
}

// ---- updates that are refused

// An update over an old root and the faces beside its wanted hashes, and its fault.
struct Refused {
    cells: &'static [Cell],
    old: Shown,
    faces: &'static [Option<Shape>],
    due: Due,
}

const SAME: [Cell; 2] = [
    Cell(10, Stem::Update(3, 3, 0, 0), &[1, 1]),
    Cell(40, Stem::Pruned(1, 3), &[]),
];
// The old half is the cell of the byte 01; the cell of six zeros has its sum.
const SHOWN: [Cell; 3] = [
    Cell(10, Stem::Update(3, 0x12, 0, 0), &[1, 2]),
    Cell(0, Stem::Bytes(&[1]), &[]),
    Cell(0, Stem::Bytes(&[0x10]), &[]),
];

const SIX: Shape = Shape(false, Stem::Bytes(&[0]), 6, &[]);

const REFUSED: [Refused; 8] = [
    Refused {
        cells: &SAME,
        old: Shown::Whole(7, 0),
        faces: &[],
        due: Due::OldHash(3, 7),
    },
    Refused {
        cells: &SAME,
        old: Shown::Whole(3, 2),
        faces: &[],
        due: Due::OldDepth(0, 2),
    },
    // An equal hash over another face.
    Refused {
        cells: &SHOWN,
        old: Shown::Whole(3, 0),
        faces: &[Some(SIX)],
        due: Due::OldHalf(3, SIX, BYTE),
    },
    // Where no face was found, the shown one stands in both places.
    Refused {
        cells: &SHOWN,
        old: Shown::Whole(3, 0),
        faces: &[None],
        due: Due::OldHalf(3, BYTE, BYTE),
    },
    Refused {
        cells: &SHOWN,
        old: Shown::Whole(3, 0),
        faces: &[],
        due: Due::OldHalf(3, BYTE, BYTE),
    },
    // A hidden cell that the old half didn't meet, below the root of the new half and as this root.
    Refused {
        cells: &[
            Cell(10, Stem::Update(3, 26, 0, 1), &[1, 2]),
            Cell(40, Stem::Pruned(1, 3), &[]),
            Cell(33, Stem::Bytes(&[0x10]), &[3]),
            Cell(40, Stem::Pruned(1, 7), &[]),
        ],
        old: Shown::Whole(3, 0),
        faces: &[],
        due: Due::Foreign(7),
    },
    Refused {
        cells: &[
            Cell(10, Stem::Update(3, 5, 0, 0), &[1, 2]),
            Cell(40, Stem::Pruned(1, 3), &[]),
            Cell(40, Stem::Pruned(1, 5), &[]),
        ],
        old: Shown::Whole(3, 0),
        faces: &[],
        due: Due::Foreign(5),
    },
    // The new root has four children: a cell of the byte 05 over the hidden one, whose hash becomes 11, the cell of
    // the byte 09, a cell over the hidden one, whose hash becomes 4, and the cell of the byte 02.
    Refused {
        cells: &[
            Cell(10, Stem::Update(3, 36, 0, 2), &[6, 1]),
            Cell(36, Stem::Bytes(&[]), &[2, 3, 4, 5]),
            Cell(33, Stem::Bytes(&[5]), &[6]),
            Cell(0, Stem::Bytes(&[9]), &[]),
            Cell(33, Stem::Bytes(&[]), &[6]),
            Cell(0, Stem::Bytes(&[2]), &[]),
            Cell(40, Stem::Pruned(1, 3), &[]),
        ],
        old: Shown::Whole(3, 0),
        faces: &[],
        due: Due::NewClash(4),
    },
];

// The fault of pairing or grafting, if one of them is refused.
fn layer_fault(
    alloc: Global,
    update: &Update<WeakSum>,
    old: &ChildInfo,
    faces: &[Option<Face>],
) -> Option<PrepareFault> {
    let known = match pair_old(alloc, update, old, faces) {
        Ok(known) => known,
        Err(fault) => return Some(PrepareFault::from(fault)),
    };
    graft(alloc, update, &known).err().map(PrepareFault::from)
}

fn check_refused(rt: &impl Abort, alloc: Global, row: &Refused) -> Result<(), Fail> {
    let bag = bag_of(alloc, 1, row.cells)?;
    let update = Update::of(&bag)?;
    let faces = found_of(alloc, row.faces)?;
    let old = info_of(row.old);
    let due = fault_of(alloc, &row.due)?;
    assert!(rt; prepare_update(alloc, &update, &old, &faces).err() == Some(due));
    match layer_fault(alloc, &update, &old, &faces) {
        Some(fault) => assert!(rt; fault == due),
        None => assert!(rt; matches!(due, PrepareFault::NewClash { .. })),
    }
    Ok(())
}

#[test]
fn what_is_refused_of_updates(rt: HostRuntime) -> Result<(), Fail> {
    let alloc = rt.alloc();
    for row in &REFUSED {
        check_refused(&rt, alloc, row)?;
    }
    Ok(())
}

// ---- bags that have no update

// The number of roots, the cells, and the fault.
const NO_UPDATES: [(u16, &[Cell], UpdateFault); 3] = [
    (
        1,
        &[Cell(0, Stem::Bytes(&[1]), &[])],
        UpdateFault::NotUpdate,
    ),
    (
        2,
        &[
            Cell(10, Stem::Update(3, 3, 0, 0), &[2, 2]),
            Cell(10, Stem::Update(3, 3, 0, 0), &[2, 2]),
            Cell(40, Stem::Pruned(1, 3), &[]),
        ],
        UpdateFault::NotUpdate,
    ),
    (
        1,
        &[
            Cell(42, Stem::Update(3, 3, 0, 0), &[1, 1]),
            Cell(72, Stem::Pruned(2, 3), &[]),
        ],
        UpdateFault::Level { mask: 1 },
    ),
];

#[test]
fn bags_that_are_no_updates(rt: HostRuntime) -> Result<(), Fail> {
    let alloc = rt.alloc();
    for (roots, cells, fault) in &NO_UPDATES {
        let bag = bag_of(alloc, *roots, cells)?;
        assert!(rt; Update::of(&bag).err() == Some(*fault));
    }
    Ok(())
}

// ---- states

// The cells, the last bytes of the listed hashes, and the height.
const STATES: [(&[Cell], &[u8], u16); 5] = [
    // The empty cell.
    (&[Cell(0, Stem::Bytes(&[]), &[])], &[0], 0),
    // The empty cell in four places below the root.
    (
        &[
            Cell(4, Stem::Bytes(&[]), &[1, 1, 1, 1]),
            Cell(0, Stem::Bytes(&[]), &[]),
        ],
        &[4, 0],
        1,
    ),
    // Two entries that are the empty cell.
    (
        &[
            Cell(2, Stem::Bytes(&[]), &[1, 2]),
            Cell(0, Stem::Bytes(&[]), &[]),
            Cell(0, Stem::Bytes(&[]), &[]),
        ],
        &[2, 0],
        1,
    ),
    // An entry that the root doesn't lead to.
    (
        &[
            Cell(0, Stem::Bytes(&[]), &[]),
            Cell(0, Stem::Bytes(&[7]), &[]),
        ],
        &[0],
        0,
    ),
    // Heights 2, 1, and three times 0.
    (
        &[
            Cell(3, Stem::Bytes(&[]), &[1, 2, 3]),
            Cell(0, Stem::Bytes(&[7]), &[]),
            Cell(0, Stem::Bytes(&[3]), &[]),
            Cell(1, Stem::Bytes(&[]), &[4]),
            Cell(0, Stem::Bytes(&[]), &[]),
        ],
        &[19, 1, 0, 5, 9],
        2,
    ),
];

#[test]
fn each_cell_is_listed_once_in_the_order_of_an_export(rt: HostRuntime) -> Result<(), Fail> {
    let alloc = rt.alloc();
    for (cells, hashes, height) in &STATES {
        let value = prepare_zero(alloc, &bag_of(alloc, 1, cells)?)?;
        assert!(rt; value.old().is_none());
        assert!(rt; value.root().height() == *height);
        assert!(rt; hashes_in(alloc, value.cells())? == hashes_of(alloc, hashes)?);
    }
    Ok(())
}

#[test]
fn two_roots_and_a_pruned_branch_are_no_state(rt: HostRuntime) -> Result<(), Fail> {
    let alloc = rt.alloc();
    let empty = Cell(0, Stem::Bytes(&[]), &[]);
    let bag = bag_of(alloc, 2, &[empty, empty])?;
    let due = Some(PrepareFault::Roots { roots: 2 });
    assert!(rt; prepare_zero(alloc, &bag).err() == due);
    let bag = bag_of(alloc, 1, &[Cell(40, Stem::Pruned(1, 7), &[])])?;
    let mask = Mask::of(1).ok_or("a mask")?;
    let due = Some(PrepareFault::Level { mask });
    assert!(rt; prepare_zero(alloc, &bag).err() == due);
    Ok(())
}

// ---- cells of four equal children

// 200 cells, each with the next one four times, and the last with none; the first has this number.
fn put_chain(text: &mut Vec<u8>, first: u16, byte: u8) -> Result<(), AllocError> {
    for step in 1..200u16 {
        put(text, 4, &[byte], &[first.wrapping_add(step); 4])?;
    }
    put(text, 0, &[byte], &[])
}

// The tree of such cells.
fn graph(alloc: Global, byte: u8) -> Result<Bag<Sha>, Fail> {
    let mut text = Vec::new(alloc);
    put_chain(&mut text, 0, byte)?;
    bag_of_text(alloc, 1, 200, &text)
}

// The update from one such tree to another, both shown whole: its halves are the entries 1 and 201.
fn between(alloc: Global, old: &ChildInfo, new: &ChildInfo) -> Result<Bag<Sha>, Fail> {
    let mut bytes = [4].to_vec(alloc)?;
    bytes.extend_from_slice(&old.rep().0)?;
    bytes.extend_from_slice(&new.rep().0)?;
    bytes.extend_from_slice(&[0, 199, 0, 199])?;
    let mut text = Vec::new(alloc);
    put(&mut text, 10, &bytes, &[1, 201])?;
    put_chain(&mut text, 1, 1)?;
    put_chain(&mut text, 201, 2)?;
    bag_of_text(alloc, 1, 401, &text)
}

// What the root of a bag shows.
fn root_of(bag: &Bag<Sha>) -> Result<ChildInfo, Fail> {
    match bag.roots() {
        [root, ..] => Ok(bag.info(*root)),
        [] => Err(Fail::from("a root")),
    }
}

// How many cells the update from one tree to another wants, and how many are known and new, and the new root.
fn counts(
    alloc: Global,
    old: &Bag<Sha>,
    update: &Update<Sha>,
) -> Result<(usize, usize, usize, ChildInfo), Fail> {
    let before = root_of(old)?;
    let mut faces = Vec::new(alloc);
    for face in old.cells() {
        faces.push(Some(*face))?;
    }
    let wanted = update.wanted(alloc)?.len();
    let known = pair_old(alloc, update, &before, &faces)?;
    let value = prepare_update(alloc, update, &before, &faces)?;
    Ok((
        wanted,
        known.infos.as_slice().len(),
        value.cells().len(),
        *value.root(),
    ))
}

#[test]
fn cells_of_four_equal_children_are_prepared_at_once(rt: HostRuntime) -> Result<(), Fail> {
    let alloc = rt.alloc();
    let old = graph(alloc, 1)?;
    let after = root_of(&graph(alloc, 2)?)?;
    let bag = between(alloc, &root_of(&old)?, &after)?;
    assert!(rt; counts(alloc, &old, &Update::of(&bag)?)? == (200, 200, 200, after));
    Ok(())
}

// ---- texts

fn check_text(
    rt: &impl Abort,
    alloc: Global,
    fault: &PrepareFault,
    text: &str,
) -> Result<(), Fail> {
    assert!(rt; fault.to_string(alloc)?.as_str() == text);
    Ok(())
}

#[test]
fn each_fault_of_preparing_has_a_text(rt: HostRuntime) -> Result<(), Fail> {
    let alloc = rt.alloc();
    let texts = [
        (Due::OldHash(1, 2), "another old hash"),
        (Due::OldDepth(1, 2), "an old depth of 1 in place of 2"),
        (
            Due::OldHalf(1, BYTE, BYTE),
            "the old half shows another cell",
        ),
        (Due::Foreign(1), "the new half hides an unknown cell"),
        (Due::NewClash(1), "two new cells of one hash"),
        (
            Due::SplitDeep(1025),
            "two states that join to a depth of 1025",
        ),
    ];
    for (due, text) in texts {
        check_text(&rt, alloc, &fault_of(alloc, &due)?, text)?;
    }
    let mask = Mask::of(5).ok_or("a mask")?;
    check_text(
        &rt,
        alloc,
        &PrepareFault::Level { mask },
        "a root of level 3",
    )?;
    check_text(&rt, alloc, &PrepareFault::Roots { roots: 2 }, "2 roots")?;
    check_text(&rt, alloc, &PrepareFault::Memory, "out of memory")
}

#[test]
fn each_fault_of_the_layers_has_a_text(rt: HostRuntime) -> Result<(), Fail> {
    let alloc = rt.alloc();
    let hash = weak(1);
    let text = PairFault::OldHash {
        stated: hash,
        real: hash,
    }
    .to_string(alloc)?;
    assert!(rt; text.as_str() == "another old hash");
    let text = GraftFault::Foreign { hash }.to_string(alloc)?;
    assert!(rt; text.as_str() == "the new half hides an unknown cell");
    let text = UpdateFault::NotUpdate.to_string(alloc)?;
    assert!(rt; text.as_str() == "the bag isn't a Merkle update");
    let text = UpdateFault::Level { mask: 1 }.to_string(alloc)?;
    assert!(rt; text.as_str() == "the Merkle update has mask 1");
    Ok(())
}
