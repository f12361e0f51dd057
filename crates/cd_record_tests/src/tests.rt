use cd_base::Hash256;
use cd_cell::{Bits, CellFault, ChildInfo, Face, Mask};
use cd_record::{Record, RecordFault, decode, encode, encode_v1, version_of};
use std::test::Fail;

/// The record of the cell without bits and references, to which there is one reference, in each version.
const EMPTY: [u8; 11] = [2, 0, 0, 0, 0, 0, 0, 0, 1, 0, 0];

const EMPTY_V1: [u8; 7] = [1, 0, 0, 0, 1, 0, 0];

#[test]
fn the_record_of_the_empty_cell_is_read_and_written(rt: HostRuntime) -> Result<(), Fail> {
    let alloc = rt.alloc();
    let read = decode(&EMPTY)?;
    assert!(rt; read.count == 1);
    assert!(rt; read.face.kids().is_empty());
    assert!(rt; read.face.bits().len() == 0);
    assert!(rt; !read.face.exotic());
    assert!(rt; read.face.check().is_ok());
    assert!(rt; encode(alloc, &read)?.as_slice() == EMPTY.as_slice());
    assert!(rt; encode_v1(alloc, &read)?.as_slice() == EMPTY_V1.as_slice());
    assert!(rt; decode(&EMPTY_V1)?.face == read.face);
    assert!(rt; version_of(&EMPTY) == Some(2));
    assert!(rt; version_of(&EMPTY_V1) == Some(1));
    assert!(rt; version_of(&[]).is_none());
    Ok(())
}

/// What keeps the bytes from being a record.
fn fault(bytes: &[u8]) -> Option<RecordFault> {
    decode(bytes).err()
}

#[test]
fn each_fault_comes_at_its_field(rt: HostRuntime) {
    let short = RecordFault::Cell {
        fault: CellFault::Short,
    };
    let table: [(&[u8], Option<RecordFault>); 20] = [
        (&[], Some(RecordFault::Cut)),
        (&[0], Some(RecordFault::Version { value: 0 })),
        (&[3], Some(RecordFault::Version { value: 3 })),
        (&[2], Some(RecordFault::Cut)),
        (&[2, 0, 0, 0, 0, 0, 0, 0, 0, 0, 0], Some(RecordFault::Form)),
        (&[2, 0, 0, 0xff, 0xff, 0xff, 0xff, 0xff, 0xff, 0, 0], None),
        (&[2, 0, 1, 0, 0, 0, 0, 0, 0, 0, 0], Some(RecordFault::Form)),
        (&[2, 0, 0, 0, 0, 0, 0, 0], Some(RecordFault::Cut)),
        (&[1, 0, 0, 0, 0, 0, 0], Some(RecordFault::Form)),
        (&[1, 0xff, 0xff, 0xff, 0xff, 0, 0], None),
        (&[1, 0, 0, 0, 1, 0], Some(RecordFault::Cut)),
        (&[1, 0, 0, 0, 1, 0, 0, 0], Some(RecordFault::Extra)),
        (&[1, 0, 0, 0, 1, 5], Some(RecordFault::Form)),
        (&[1, 0, 0, 0, 1, 16], Some(RecordFault::Form)),
        (&[1, 0, 0, 0, 1, 0, 1, 0x80], Some(RecordFault::Form)),
        (&[1, 0, 0, 0, 1, 0, 1, 0xc0], None),
        (&[1, 0, 0, 0, 1, 1, 0, 8], Some(RecordFault::Form)),
        (&[1, 0, 0, 0, 1, 1, 0, 7], Some(RecordFault::Cut)),
        (&[1, 0, 0, 0, 1, 32, 0], Some(RecordFault::Form)),
        (&[1, 0, 0, 0, 1, 8, 0], Some(short)),
    ];
    for (bytes, due) in &table {
        assert!(rt; fault(bytes) == *due);
    }
}

/// A cell of the bits 0000 0001 and one child, which has the mask 2.
fn over_one_child() -> Result<Face, Fail> {
    let bits = Bits::from_slice(&[1], 8).ok_or("bits")?;
    let low = Hash256([7; 32]);
    let high = Hash256([9; 32]);
    let kid = ChildInfo {
        mask: Mask::of(2).ok_or("mask")?,
        hashes: [low, low, high, high],
        depths: [3, 3, 1, 1],
    };
    Ok(Face::new(false, bits, &[kid]))
}

#[test]
fn a_child_is_written_at_its_significant_levels(rt: HostRuntime) -> Result<(), Fail> {
    let face = over_one_child()?;
    face.check()?;
    let alloc = rt.alloc();
    let text = encode(alloc, &Record { count: 258, face })?;
    // One reference and mask 2: 1 + 32 * 2.
    let mut due = [2, 0, 0, 0, 0, 0, 0, 1, 2, 65, 2, 1, 2].to_vec(alloc)?;
    due.extend_from_slice(&[7; 32])?;
    due.extend_from_slice(&[9; 32])?;
    due.extend_from_slice(&[0, 3, 0, 1])?;
    assert_eq!(rt; text.as_slice(), due.as_slice());
    let read = decode(&text)?;
    assert_eq!(rt; read.count, 258);
    assert_eq!(rt; read.face, face);
    Ok(())
}

#[test]
fn each_fault_has_a_text(rt: HostRuntime) -> Result<(), Fail> {
    let text = format!(in rt.alloc();
        "{}; {}; {}; {}; {}",
        RecordFault::Version { value: 3 },
        RecordFault::Cut,
        RecordFault::Extra,
        RecordFault::Form,
        RecordFault::Cell {
            fault: CellFault::Short,
        }
    )?;
    assert_eq!(rt;
        text.as_str(),
        "a record of version 3; the record is cut; bytes stand behind the record; a field of the record is outside its range; a record of no cell: an exotic cell of fewer than 8 bits"
    );
    Ok(())
}
