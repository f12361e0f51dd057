ghost use Rattle.std.specs.Prelude.{◌≤◌};

use cd_base::Hash256;
use cd_boc_read::{BagFault, read_bag};
use cd_cell::{CellFault, Hash32, Sha, WeakSum};
use std::alloc::{AllocError, Global};
use std::test::Fail;

// How many roots and cells a bag has.
fn read<H: Hash32>(alloc: Global, bytes: &[u8]) -> Result<(usize, usize), BagFault> {
    match read_bag::<H>(alloc, bytes) {
        Ok(bag) => Ok((bag.roots().len(), bag.cells().len())),
        Err(fault) => Err(fault),
    }
}

// What stands behind the magic number, behind it.
fn bag(alloc: Global, rest: &[u8]) -> Result<Vec<u8>, AllocError> {
    let mut bytes = Vec::new(alloc);
    bytes.extend_from_slice(&[0xb5, 0xee, 0x9c, 0x72])?;
    bytes.extend_from_slice(rest)?;
    Ok(bytes)
}

// The weak hash of this last byte.
fn weak(last: u8) -> Hash256 {
    let mut bytes = [0; 32];
    bytes[31] = last;
    Hash256(bytes)
}

#[test]
fn each_form_is_read(rt: HostRuntime) -> Result<(), Fail> {
    let alloc = rt.alloc();
    let cases: [(&[u8], (usize, usize)); 8] = [
        // A checksum.
        (
            &[0x41, 1, 1, 1, 0, 2, 0, 0, 0, 0x4c, 0xac, 0xb9, 0xcd],
            (1, 1),
        ),
        // One bit.
        (&[1, 1, 1, 1, 0, 3, 0, 0, 1, 0xc0], (1, 1)),
        // An index.
        (&[0x81, 1, 1, 1, 0, 2, 0, 2, 0, 0], (1, 1)),
        // An index with cache bits, of which one is set.
        (&[0xa1, 1, 1, 1, 0, 2, 0, 5, 0, 0], (1, 1)),
        // Stored hashes.
        (
            &[
                1, 1, 1, 1, 0, 0x24, 0, 0x10, 0, 0x96, 0xa2, 0x96, 0xd2, 0x24, 0xf2, 0x85, 0xc6,
                0x7b, 0xee, 0x93, 0xc3, 0x0f, 0x8a, 0x30, 0x91, 0x57, 0xf0, 0xda, 0xa3, 0x5d, 0xc5,
                0xb8, 0x7e, 0x41, 0x0b, 0x78, 0x63, 0x0a, 9, 0xcf, 0xc7, 0, 0,
            ],
            (1, 1),
        ),
        // The widest numbers.
        (
            &[
                4, 8, 0, 0, 0, 1, 0, 0, 0, 1, 0, 0, 0, 0, 0, 0, 0, 0, 0, 0, 0, 2, 0, 0, 0, 0, 0, 0,
            ],
            (1, 1),
        ),
        // Two roots that are one cell, and a cell that no root reaches.
        (&[1, 1, 2, 2, 0, 4, 1, 1, 0, 0, 0, 0], (2, 2)),
        // Two cells of one sum.
        (
            &[1, 1, 3, 1, 0, 0x0c, 0, 2, 0, 1, 2, 0, 4, 1, 0, 0, 4, 0, 1],
            (1, 3),
        ),
    ];
    for (rest, counts) in cases {
        let bytes = bag(alloc, rest)?;
        assert_eq!(rt; read::<Sha>(alloc, &bytes), Ok(counts));
    }
    Ok(())
}

#[test]
fn each_fault_is_told(rt: HostRuntime) -> Result<(), Fail> {
    let alloc = rt.alloc();
    let cases: [(&[u8], BagFault); 18] = [
        (
            &[
                1, 8, 1, 1, 0, 0xff, 0xff, 0xff, 0xff, 0xff, 0xff, 0xff, 0xff, 0,
            ],
            BagFault::Cut { at: 18 },
        ),
        (
            &[4, 1, 0, 0x10, 0, 1, 0, 0, 0, 1, 0, 0, 0, 0, 0],
            BagFault::Limit { cells: 1048577 },
        ),
        (&[9, 1], BagFault::Flags { value: 9 }),
        (&[0x21, 1], BagFault::Flags { value: 33 }),
        (
            &[0, 1],
            BagFault::Sizes {
                size: 0,
                off_bytes: 1,
            },
        ),
        (
            &[5, 1],
            BagFault::Sizes {
                size: 5,
                off_bytes: 1,
            },
        ),
        (
            &[1, 9],
            BagFault::Sizes {
                size: 1,
                off_bytes: 9,
            },
        ),
        (&[1, 1, 1, 2, 0], BagFault::Cut { at: 9 }),
        (
            &[1, 1, 1, 2, 0, 2, 0, 0, 0, 0],
            BagFault::Roots { roots: 2, cells: 1 },
        ),
        (
            &[1, 1, 1, 0, 0, 2, 0, 0],
            BagFault::Roots { roots: 0, cells: 1 },
        ),
        (&[1, 1, 1, 1, 1, 2, 0, 0, 0], BagFault::Absent { absent: 1 }),
        (&[1, 1, 1, 1, 0, 2, 0, 0, 0, 0], BagFault::Extra { at: 13 }),
        (
            &[0x41, 1, 1, 1, 0, 2, 0, 0, 0, 0x4c, 0xac, 0xb9, 0xcc],
            BagFault::Crc {
                stated: 0xccb9ac4c,
                real: 0xcdb9ac4c,
            },
        ),
        (
            &[1, 1, 1, 1, 0, 3, 0, 0, 1, 0x80],
            BagFault::Completion { cell: 0 },
        ),
        (
            &[1, 1, 1, 1, 0, 3, 0, 0, 0, 0],
            BagFault::Length {
                stated: 3,
                used: 2,
                cell: 1,
            },
        ),
        (&[1, 1, 1, 1, 0, 3, 0, 1, 0, 0], BagFault::Order { cell: 0 }),
        (&[1, 1, 1, 1, 0, 3, 0, 1, 0, 1], BagFault::Order { cell: 0 }),
        (
            &[0xa1, 1, 1, 1, 0, 2, 0, 2, 0, 0],
            BagFault::Index { cell: 0 },
        ),
    ];
    for (rest, fault) in cases {
        let bytes = bag(alloc, rest)?;
        assert_eq!(rt; read::<Sha>(alloc, &bytes), Err(fault));
    }
    Ok(())
}

#[test]
fn the_first_of_two_faults_is_told(rt: HostRuntime) -> Result<(), Fail> {
    let alloc = rt.alloc();
    let cases: [(&[u8], BagFault); 20] = [
        // A zero bit, and no size.
        (&[8, 1], BagFault::Flags { value: 8 }),
        // A size, and a cut.
        (
            &[5, 1],
            BagFault::Sizes {
                size: 5,
                off_bytes: 1,
            },
        ),
        // Too many roots, and absent cells.
        (
            &[1, 1, 1, 2, 1, 2, 0, 0, 0],
            BagFault::Roots { roots: 2, cells: 1 },
        ),
        // Absent cells, and too many.
        (
            &[4, 1, 0, 0x10, 0, 1, 0, 0, 0, 1, 0, 0, 0, 1, 0],
            BagFault::Absent { absent: 1 },
        ),
        // Too many cells, and a root that is none.
        (
            &[
                4, 1, 0, 0x10, 0, 1, 0, 0, 0, 1, 0, 0, 0, 0, 2, 0, 0x10, 0, 1, 0, 0,
            ],
            BagFault::Limit { cells: 1048577 },
        ),
        // A root that is none, and a cut.
        (&[1, 1, 1, 1, 0, 2, 1, 0], BagFault::RootIndex { root: 0 }),
        // A root that is none, and a byte too many.
        (
            &[1, 1, 1, 1, 0, 2, 1, 0, 0, 0],
            BagFault::RootIndex { root: 0 },
        ),
        // A byte too many, and a wrong checksum.
        (
            &[0x41, 1, 1, 1, 0, 2, 0, 0, 0, 0, 0, 0, 0, 0],
            BagFault::Extra { at: 17 },
        ),
        // A wrong checksum, and half a cell.
        (
            &[0x41, 1, 1, 1, 0, 1, 0, 0, 0, 0, 0, 0],
            BagFault::Crc {
                stated: 0,
                real: 0xbb13d05e,
            },
        ),
        // Half a cell, of five references.
        (
            &[1, 1, 1, 1, 0, 1, 0, 5],
            BagFault::Length {
                stated: 1,
                used: 0,
                cell: 0,
            },
        ),
        // Five references, past the end.
        (
            &[1, 1, 1, 1, 0, 2, 0, 5, 2],
            BagFault::Descriptor { cell: 0 },
        ),
        // A text past the end, without completion.
        (
            &[1, 1, 1, 1, 0, 3, 0, 1, 1, 0],
            BagFault::Length {
                stated: 3,
                used: 0,
                cell: 0,
            },
        ),
        // No completion, and a reference to itself.
        (
            &[1, 1, 1, 1, 0, 4, 0, 1, 1, 0, 0],
            BagFault::Completion { cell: 0 },
        ),
        // A reference to itself, and a wrong index.
        (
            &[0x81, 1, 1, 1, 0, 3, 0, 9, 1, 0, 0],
            BagFault::Order { cell: 0 },
        ),
        // A wrong index, and bytes left.
        (
            &[0x81, 1, 1, 1, 0, 3, 0, 9, 0, 0, 0],
            BagFault::Index { cell: 0 },
        ),
        // Bytes left, and stored hashes of a pruned branch.
        (
            &[
                1, 1, 1, 1, 0, 0x26, 0, 0x18, 2, 0, 0, 0, 0, 0, 0, 0, 0, 0, 0, 0, 0, 0, 0, 0, 0, 0,
                0, 0, 0, 0, 0, 0, 0, 0, 0, 0, 0, 0, 0, 0, 0, 0, 0, 1, 0,
            ],
            BagFault::Length {
                stated: 38,
                used: 37,
                cell: 1,
            },
        ),
        // Stored hashes of a pruned branch that is too short.
        (
            &[
                1, 1, 1, 1, 0, 0x25, 0, 0x18, 2, 0, 0, 0, 0, 0, 0, 0, 0, 0, 0, 0, 0, 0, 0, 0, 0, 0,
                0, 0, 0, 0, 0, 0, 0, 0, 0, 0, 0, 0, 0, 0, 0, 0, 0, 1,
            ],
            BagFault::PrunedHashes { cell: 0 },
        ),
        // An exotic cell without a type, and a wrong mask.
        (
            &[1, 1, 1, 1, 0, 2, 0, 0x28, 0],
            BagFault::Cell {
                cell: 0,
                fault: CellFault::Short,
            },
        ),
        // A wrong mask, and wrong stored hashes.
        (
            &[
                1, 1, 1, 1, 0, 0x46, 0, 0x30, 0, 0, 0, 0, 0, 0, 0, 0, 0, 0, 0, 0, 0, 0, 0, 0, 0, 0,
                0, 0, 0, 0, 0, 0, 0, 0, 0, 0, 0, 0, 0, 0, 0, 0, 0, 0, 0, 0, 0, 0, 0, 0, 0, 0, 0, 0,
                0, 0, 0, 0, 0, 0, 0, 0, 0, 0, 0, 0, 0, 0, 0, 0, 0, 0, 0, 0, 0, 0, 0,
            ],
            BagFault::MaskDiffers { cell: 0 },
        ),
        // The last cell comes first.
        (
            &[
                1, 1, 2, 1, 0, 0x27, 0, 0x18, 2, 0, 0, 0, 0, 0, 0, 0, 0, 0, 0, 0, 0, 0, 0, 0, 0, 0,
                0, 0, 0, 0, 0, 0, 0, 0, 0, 0, 0, 0, 0, 0, 0, 0, 0, 1, 8, 0,
            ],
            BagFault::Cell {
                cell: 1,
                fault: CellFault::Short,
            },
        ),
    ];
    for (rest, fault) in cases {
        let bytes = bag(alloc, rest)?;
        assert_eq!(rt; read::<Sha>(alloc, &bytes), Err(fault));
    }
    // Another magic number, and a zero bit that is set.
    let older = [0x68, 0xff, 0x65, 0xf3, 9, 1];
    let fault = BagFault::Magic { value: 0x68ff_65f3 };
    assert_eq!(rt; read::<Sha>(alloc, &older), Err(fault));
    Ok(())
}

#[test]
fn cells_of_one_hash_clash(rt: HostRuntime) -> Result<(), Fail> {
    let alloc = rt.alloc();
    let cases: [(&[u8], BagFault); 3] = [
        // Two children.
        (
            &[1, 1, 3, 1, 0, 0x0c, 0, 2, 0, 1, 2, 0, 4, 1, 0, 0, 4, 0, 1],
            BagFault::Clash { hash: weak(5) },
        ),
        // The least of two hashes, of cells that no root reaches.
        (
            &[
                1, 1, 5, 1, 0, 0x12, 0, 0, 0, 0, 4, 2, 0, 0, 4, 0, 2, 0, 4, 0, 1, 0, 4, 1, 0,
            ],
            BagFault::Clash { hash: weak(5) },
        ),
        // A wrong stored hash comes before a clash.
        (
            &[
                1, 1, 3, 1, 0, 0x2e, 0, 0x12, 0, 0, 0, 0, 0, 0, 0, 0, 0, 0, 0, 0, 0, 0, 0, 0, 0, 0,
                0, 0, 0, 0, 0, 0, 0, 0, 0, 0, 0, 0, 0, 0, 0, 0, 0, 1, 2, 0, 4, 1, 0, 0, 4, 0, 1,
            ],
            BagFault::StoredHash { cell: 0 },
        ),
    ];
    for (rest, fault) in cases {
        let bytes = bag(alloc, rest)?;
        assert_eq!(rt; read::<WeakSum>(alloc, &bytes), Err(fault));
    }
    Ok(())
}

#[test]
fn a_bag_may_be_cut_anywhere(rt: HostRuntime) -> Result<(), Fail> {
    let alloc = rt.alloc();
    let bytes = bag(alloc, &[1, 1, 1, 1, 0, 2, 0, 0, 0])?;
    for at in 0..bytes.len() {
        let fault = BagFault::Cut { at: at as u64 };
        assert_eq!(rt; read::<Sha>(alloc, &bytes[..at]), Err(fault));
    }
    assert_eq!(rt; read::<Sha>(alloc, &bytes), Ok((1, 1)));
    Ok(())
}

#[test]
fn a_cell_may_have_1023_bits(rt: HostRuntime) -> Result<(), Fail> {
    let alloc = rt.alloc();
    let mut bytes = bag(alloc, &[1, 1, 1, 1, 0, 0x82, 0, 0, 0xff])?;
    bytes.extend_from_slice(&[0; 127])?;
    bytes.push(1)?;
    assert_eq!(rt; read::<Sha>(alloc, &bytes), Ok((1, 1)));
    Ok(())
}

// A chain of cells without bits.
fn chain(alloc: Global, count: u16) -> Result<Vec<u8>, AllocError>
    requires { (1 ≤ count) × (count ≤ 2000) }
{
    let [high, low] = count.to_be_bytes();
    let [total_high, total_low] = (4 * count - 2).to_be_bytes();
    let mut bytes = bag(
        alloc,
        &[2, 2, high, low, 0, 1, 0, 0, total_high, total_low, 0, 0],
    )?;
    for number in 1..count {
        let [high, low] = number.to_be_bytes();
        bytes.extend_from_slice(&[1, 0, high, low])?;
    }
    bytes.extend_from_slice(&[0, 0])?;
    Ok(bytes)
}

#[test]
fn a_chain_may_be_1024_deep(rt: HostRuntime) -> Result<(), Fail> {
    let alloc = rt.alloc();
    assert_eq!(rt; read::<Sha>(alloc, &chain(alloc, 1025)?), Ok((1, 1025)));
    let fault = BagFault::Cell {
        cell: 0,
        fault: CellFault::DepthBig { depth: 1025 },
    };
    assert_eq!(rt; read::<Sha>(alloc, &chain(alloc, 1026)?), Err(fault));
    Ok(())
}

#[test]
fn faults_have_texts(rt: HostRuntime) -> Result<(), Fail> {
    let alloc = rt.alloc();
    let cases = [
        (
            BagFault::Magic { value: 0x68ff_65f3 },
            "magic number 68ff65f3",
        ),
        (
            BagFault::Crc {
                stated: 1,
                real: 0xbb13_d05e,
            },
            "checksum 00000001, not bb13d05e",
        ),
        (
            BagFault::Cell {
                cell: 7,
                fault: CellFault::DepthBig { depth: 1025 },
            },
            "cell 7: a cell of depth 1025",
        ),
        (BagFault::Memory, "no memory"),
    ];
    for (fault, text) in cases {
        let shown = fault.to_string(alloc)?;
        assert_eq!(rt; shown.as_str(), text);
    }
    Ok(())
}
