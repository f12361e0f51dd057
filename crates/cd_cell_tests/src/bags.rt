use cd_base::Hash256;
use cd_boc_read::read_bag;
use cd_cell::{Bits, ChildInfo, Face, Index, Mask, Prepared, Sha, WeakSum, face_info, least_clash};
use std::test::Fail;

// The empty cell as a bag.
const EMPTY: [u8; 13] = [0xb5, 0xee, 0x9c, 0x72, 1, 1, 1, 1, 0, 2, 0, 0, 0];

#[test]
fn a_bag_of_the_empty_cell(rt: HostRuntime) -> Result<(), Fail> {
    let Ok(bag) = read_bag::<Sha>(rt.alloc(), &EMPTY) else {
        return Err(Fail::from("a bag"));
    };
    assert_eq!(rt; bag.cells().len(), 1);
    assert_eq!(rt; bag.roots(), [0].as_slice());
    assert_eq!(rt; bag.face(0).refs(), 0);
    assert_eq!(rt; bag.children(0).len(), 0);
    assert_eq!(rt; bag.info(0).depths, [0; 4]);
    assert!(rt; bag.same(0, 0));
    Ok(())
}

#[test]
fn a_value_without_new_cells_keeps_its_root(rt: HostRuntime) -> Result<(), Fail> {
    let hash = Hash256([7; 32]);
    let root = ChildInfo {
        mask: Mask::of(0).ok_or("a mask")?,
        hashes: [hash; 4],
        depths: [3; 4],
    };
    let prepared: Prepared<Sha> = Prepared::new(Some(hash), root, Vec::new(rt.alloc()));
    assert_eq!(rt; *prepared.root(), root);
    assert_eq!(rt; prepared.old(), Some(hash));
    Ok(())
}

// What the cell of one byte shows.
fn byte_cell(byte: u8) -> Option<ChildInfo> {
    let face = Face::new(false, Bits::from_slice(&[byte], 8)?, &[]);
    match face.check() {
        Ok(_) => Some(face_info::<WeakSum>(&face)),
        Err(_) => None,
    }
}

#[test]
fn the_joined_tree_of_two_states(rt: HostRuntime) -> Result<(), Fail> {
    let left = byte_cell(1).ok_or("a cell")?;
    let right = byte_cell(2).ok_or("a cell")?;
    let tag = Bits::from_slice(&[0x5f, 0x32, 0x7d, 0xa5], 32).ok_or("bits")?;
    let face = Face::new(false, tag, &[left, right]);
    let Ok(_) = face.check() else {
        return Err(Fail::from("a face"));
    };
    let shown = face_info::<WeakSum>(&face);
    let mut hash = [0; 32];
    hash[31] = 0xc4;
    assert_eq!(rt; shown.rep(), Hash256(hash));
    assert_eq!(rt; shown.height(), 1);
    Ok(())
}

#[test]
fn an_index_has_the_places_of_its_hashes(rt: HostRuntime) -> Result<(), Fail> {
    let mut index = Index::new(rt.alloc());
    for place in 0..3 {
        let Ok(()) = index.push(Hash256([place; 32]), place as usize) else {
            return Err(Fail::from("memory"));
        };
    }
    assert_eq!(rt; index.place(&Hash256([2; 32])), Some(2));
    assert_eq!(rt; index.place(&Hash256([3; 32])), None);
    Ok(())
}

#[test]
fn the_least_hash_of_two_faces(rt: HostRuntime) -> Result<(), Fail> {
    // The first two have one weak sum.
    let cells: [&[u8]; 3] = [&[0, 3], &[2, 1], &[0, 3]];
    let mut faces = Vec::new(rt.alloc());
    let mut infos = Vec::new(rt.alloc());
    for bytes in cells {
        let bits = Bits::from_slice(bytes, 16).ok_or("bits")?;
        let face = Face::new(false, bits, &[]);
        let Ok(_) = face.check() else {
            return Err(Fail::from("a face"));
        };
        faces.push(face)?;
        infos.push(face_info::<WeakSum>(&face))?;
    }
    if faces.len() != 3 || infos.len() != 3 {
        return Err(Fail::from("three faces"));
    }
    let two = least_clash(rt.alloc(), &faces, &infos);
    assert_eq!(rt; two.ok().ok_or("memory")?, Some(infos[0].rep()));
    let none = least_clash(rt.alloc(), &faces[..1], &infos[..1]);
    assert_eq!(rt; none.ok().ok_or("memory")?, None);
    Ok(())
}
