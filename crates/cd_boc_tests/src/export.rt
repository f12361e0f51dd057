ghost use Rattle.std.specs.Prelude.{◌≡◌, ◌+◌, length, All, OnOk, IfOk};
ghost use Rattle.cd_cell.specs.GoodFace.{IsGoodFace};

use cd_boc_write::{WriteFault, lay_out, put_cell, write_bag};
use cd_cell::{Bits, ChildInfo, Face, NewCell, Sha, face_info};
use std::alloc::Global;
use std::test::Fail;

// Lists a face under its hash behind the others.
fn list(cells: &mut Vec<NewCell>, face: Face) -> Result<ChildInfo, Fail>
    ensures count { OnOk result (length cells.new.items ≡ length cells.old.items + 1) }
    ensures good { All (λ c. IsGoodFace c.face) cells.old.items
        → OnOk result (All (λ c. IsGoodFace c.face) cells.new.items) }
{
    face.check()?;
    let info = face_info::<Sha>(&face);
    cells.push(NewCell {
        hash: info.rep(),
        face,
    })?;
    Ok(info)
}

// A chain of cells with these bits, the highest first.
fn chain(alloc: Global, count: u32, bits: Bits) -> Result<Vec<NewCell>, Fail>
    ensures count { IfOk result (λ cells. length cells.items ≡ count) }
    ensures good { IfOk result (λ cells. All (λ c. IsGoodFace c.face) cells.items) }
{
    let mut cells = Vec::new(alloc);
    let mut below = None;
    for _ in 0..count {
        let face = match below {
            None => Face::new(false, bits, &[]),
            Some(kid) => Face::new(false, bits, &[kid]),
        };
        below = Some(list(&mut cells, face)?);
    }
    cells.reverse();
    Ok(cells)
}

// The export of faces in this order.
fn export(alloc: Global, faces: &[Face]) -> Result<Vec<u8>, Fail> {
    let mut cells = Vec::new(alloc);
    for face in faces {
        list(&mut cells, *face)?;
    }
    if cells.len() > 1_048_576 {
        return Err(Fail::from("too many cells"));
    }
    Ok(write_bag(alloc, &cells)?)
}

// Whether a piece stands in a place of the text.
fn stands_at(text: &[u8], at: usize, piece: &[u8]) -> bool {
    at <= text.len() && text[at..].starts_with(piece)
}

fn leaf(byte: u8) -> Result<Face, Fail> {
    let bits = Bits::from_slice(&[byte], 8).ok_or("bits")?;
    Ok(Face::new(false, bits, &[]))
}

fn info(face: &Face) -> Result<ChildInfo, Fail> {
    face.check()?;
    Ok(face_info::<Sha>(face))
}

#[test]
fn the_export_of_the_empty_cell(rt: HostRuntime) -> Result<(), Fail> {
    let bits = Bits::from_slice(&[], 0).ok_or("bits")?;
    let text = export(rt.alloc(), &[Face::new(false, bits, &[])])?;
    let expected = [
        0xb5, 0xee, 0x9c, 0x72, 0xc1, 0x01, 0x01, 0x01, 0x00, 0x02, 0x00, 0x02, 0x00, 0x00, 0xb8,
        0x01, 0xf8, 0x6b,
    ];
    assert_eq!(rt; text.as_slice(), expected.as_slice());
    Ok(())
}

#[test]
fn a_child_that_is_not_listed_gets_number_0(rt: HostRuntime) -> Result<(), Fail> {
    let bits = Bits::from_slice(&[], 0).ok_or("bits")?;
    let below = info(&leaf(1)?)?;
    let text = export(rt.alloc(), &[Face::new(false, bits, &[below])])?;
    let expected = [
        0xb5, 0xee, 0x9c, 0x72, 0xc1, 0x01, 0x01, 0x01, 0x00, 0x03, 0x00, 0x03, 0x01, 0x00, 0x00,
        0x89, 0xd2, 0xee, 0xfd,
    ];
    assert_eq!(rt; text.as_slice(), expected.as_slice());
    Ok(())
}

#[test]
fn no_cells(rt: HostRuntime) -> Result<(), Fail> {
    let layout = lay_out(rt.alloc(), &[])?;
    assert_eq!(rt; layout.size, 1);
    assert_eq!(rt; layout.off_bytes, 1);
    assert_eq!(rt; layout.total(), 15);
    Ok(())
}

// The SHA-256 hashes of the leaves begin with 65, 8d and e9, and that of the root lies between the last two.
#[test]
fn children_are_named_by_their_places(rt: HostRuntime) -> Result<(), Fail> {
    let first = leaf(2)?;
    let second = leaf(1)?;
    let third = leaf(3)?;
    let kids = [info(&third)?, info(&second)?, info(&first)?, info(&second)?];
    let bits = Bits::from_slice(&[0], 8).ok_or("bits")?;
    let root = Face::new(false, bits, &kids);
    let text = export(rt.alloc(), &[root, first, second, third])?;
    assert!(rt; stands_at(&text, 11, &[7, 10, 13, 16]));
    assert!(rt; stands_at(&text, 15, &[4, 2, 0, 3, 2, 1, 2]));
    assert!(rt; stands_at(&text, 22, &[0, 2, 2, 0, 2, 1, 0, 2, 3]));
    assert!(rt; stands_at(&text, 31, &[0x7d, 0x78, 0xb6, 0xf3]));
    assert_eq!(rt; text.len(), 35);
    Ok(())
}

// References and ends take two bytes.
#[test]
fn a_chain_of_300_cells(rt: HostRuntime) -> Result<(), Fail> {
    let alloc = rt.alloc();
    let bits = Bits::from_slice(&[], 0).ok_or("bits")?;
    let cells = chain(alloc, 300, bits)?;
    let layout = lay_out(alloc, &cells)?;
    assert_eq!(rt; layout.size, 2);
    assert_eq!(rt; layout.off_bytes, 2);
    assert_eq!(rt; layout.header_len, 616);
    assert_eq!(rt; layout.data_len(), 1198);
    assert_eq!(rt; layout.total(), 1818);
    let text = write_bag(alloc, &cells)?;
    assert_eq!(rt; text.len(), 1818);
    assert!(rt; stands_at(&text, 4, &[0xc2, 2, 1, 44, 0, 1, 0, 0, 4, 0xae, 0, 0]));
    assert!(rt; stands_at(&text, 16, &[0, 4, 0, 8]));
    assert!(rt; stands_at(&text, 142, &[1, 0]));
    assert!(rt; stands_at(&text, 614, &[4, 0xae, 1, 0, 0, 1, 1, 0, 0, 2]));
    assert!(rt; stands_at(&text, 1636, &[1, 0, 1, 0, 1, 0, 1, 1]));
    assert!(rt; stands_at(&text, 1808, &[1, 0, 1, 43, 0, 0]));
    Ok(())
}

// 65,998 bytes of cell data: ends take three bytes.
#[test]
fn a_chain_of_500_long_cells(rt: HostRuntime) -> Result<(), Fail> {
    let alloc = rt.alloc();
    let bits = Bits::from_slice(&[0; 128], 1023).ok_or("bits")?;
    let cells = chain(alloc, 500, bits)?;
    let layout = lay_out(alloc, &cells)?;
    assert_eq!(rt; layout.size, 2);
    assert_eq!(rt; layout.off_bytes, 3);
    assert_eq!(rt; layout.header_len, 1517);
    assert_eq!(rt; layout.data_len(), 65_998);
    assert_eq!(rt; layout.total(), 67_519);
    for (offset, number) in [
        (0, 0),
        (131, 0),
        (132, 1),
        (65_867, 498),
        (65_868, 499),
        (65_997, 499),
    ] {
        assert!(rt; offset < layout.data_len());
        assert_eq!(rt; layout.cell_at(offset), number);
    }
    let text = write_bag(alloc, &cells)?;
    assert_eq!(rt; text.len(), 67_519);
    assert!(rt; stands_at(&text, 4, &[0xc2, 3, 1, 0xf4, 0, 1, 0, 0, 1, 1, 0xce, 0, 0]));
    assert!(rt; stands_at(&text, 17, &[0, 0, 132, 0, 1, 8]));
    assert!(rt; stands_at(&text, 1514, &[1, 1, 0xce, 1, 0xff, 0]));
    assert!(rt; stands_at(&text, 1646, &[1, 0, 1, 1, 0xff, 0]));
    assert!(rt; stands_at(&text, 67_514, &[1]));
    Ok(())
}

#[test]
fn a_text_goes_behind_what_stands_there(rt: HostRuntime) -> Result<(), Fail> {
    let alloc = rt.alloc();
    let kid = info(&leaf(1)?)?;
    let bits = Bits::from_slice(&[0xf0], 5).ok_or("bits")?;
    let face = Face::new(false, bits, &[kid, kid]);
    face.check()?;
    let mut out = vec![in alloc; 7u8]?;
    put_cell(&mut out, &face, &[5, 70_000], 3)?;
    let expected = [7, 2, 1, 0xf4, 0, 0, 5, 1, 0x11, 0x70];
    assert_eq!(rt; out.as_slice(), expected.as_slice());
    Ok(())
}

#[test]
fn the_fault_has_a_text(rt: HostRuntime) -> Result<(), Fail> {
    let text = WriteFault::Memory.to_string(rt.alloc())?;
    assert_eq!(rt; text.as_str(), "out of memory");
    Ok(())
}
