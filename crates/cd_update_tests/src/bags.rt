//! Bags and faces by tables of their cells, over the weak hash, which is told by its last byte.
use cd_base::Hash256;
use cd_boc_read::read_bag;
use cd_cell::{Bag, Bits, ChildInfo, Face, Hash32, Mask, NewCell, WeakSum};
use cd_prepare::PrepareFault;
use std::alloc::{AllocError, Global};
use std::test::Fail;

// The bytes of a cell.
#[derive(Clone, Copy)]
pub(crate) enum Stem {
    Bytes(&'static [u8]),
    // A pruned branch of a mask of one bit, for a cell of this hash and of depth 0.
    Pruned(u8, u8),
    // The same for a cell of depth 1.
    PrunedAbove(u8, u8),
    // A proof that states this hash and the depth 0.
    Proof(u8),
    // An update that states these hashes, old and new, and these depths.
    Update(u8, u8, u8, u8),
}

// A cell as its text has it: the first byte (the number of its children, 8 where it is exotic, 32 times its mask), its
// bytes, and the numbers of its children.
#[derive(Clone, Copy)]
pub(crate) struct Cell(pub(crate) u8, pub(crate) Stem, pub(crate) &'static [u16]);

pub(crate) fn bytes_of(alloc: Global, stem: &Stem) -> Result<Vec<u8>, AllocError> {
    match *stem {
        Stem::Bytes(bytes) => bytes.to_vec(alloc),
        Stem::Pruned(mask, hash) => ending(alloc, &[1, mask], 36, &[(33, hash)]),
        Stem::PrunedAbove(mask, hash) => ending(alloc, &[1, mask], 36, &[(33, hash), (35, 1)]),
        Stem::Proof(hash) => ending(alloc, &[3], 35, &[(32, hash)]),
        Stem::Update(old, new, old_depth, new_depth) => ending(
            alloc,
            &[4],
            69,
            &[(32, old), (64, new), (66, old_depth), (68, new_depth)],
        ),
    }
}

// So many bytes: these first ones, these in their places, and zeros.
pub(crate) fn ending(
    alloc: Global,
    first: &[u8],
    count: usize,
    places: &[(usize, u8)],
) -> Result<Vec<u8>, AllocError> {
    let mut bytes = Vec::new(alloc);
    for at in 0..count {
        let mut byte = first.get(at).copied().unwrap_or(0);
        for (place, value) in places {
            if *place == at {
                byte = *value;
            }
        }
        bytes.push(byte)?;
    }
    Ok(bytes)
}

pub(crate) fn put(
    text: &mut Vec<u8>,
    first: u8,
    bytes: &[u8],
    children: &[u16],
) -> Result<(), AllocError> {
    text.push(first)?;
    text.push(u8::try_from(bytes.len()).unwrap_or(0).wrapping_mul(2))?;
    text.extend_from_slice(bytes)?;
    for child in children {
        text.extend_from_slice(&child.to_be_bytes())?;
    }
    Ok(())
}

// The bag of so many cells with this text, of which so many from the first on are roots. Numbers and offsets take two
// bytes.
pub(crate) fn bag_of_text<H: Hash32>(
    alloc: Global,
    roots: u16,
    count: u16,
    text: &[u8],
) -> Result<Bag<H>, Fail> {
    let total = u16::try_from(text.len()).unwrap_or(0);
    let mut bytes = [0xb5, 0xee, 0x9c, 0x72, 2, 2].to_vec(alloc)?;
    for number in [count, roots, 0, total] {
        bytes.extend_from_slice(&number.to_be_bytes())?;
    }
    for root in 0..roots {
        bytes.extend_from_slice(&root.to_be_bytes())?;
    }
    bytes.extend_from_slice(text)?;
    match read_bag(alloc, &bytes) {
        Ok(bag) => Ok(bag),
        Err(_) => Err(Fail::from("a bag")),
    }
}

pub(crate) fn bag_of(alloc: Global, roots: u16, cells: &[Cell]) -> Result<Bag<WeakSum>, Fail> {
    let mut text = Vec::new(alloc);
    for cell in cells {
        put(&mut text, cell.0, &bytes_of(alloc, &cell.1)?, cell.2)?;
    }
    let count = u16::try_from(cells.len()).unwrap_or(0);
    bag_of_text(alloc, roots, count, &text)
}

pub(crate) fn weak(last: u8) -> Hash256 {
    let mut bytes = [0; 32];
    bytes[31] = last;
    Hash256(bytes)
}

pub(crate) fn hashes_of(alloc: Global, lasts: &[u8]) -> Result<Vec<Hash256>, AllocError> {
    let mut hashes = Vec::new(alloc);
    for last in lasts {
        hashes.push(weak(*last))?;
    }
    Ok(hashes)
}

// What a cell shows: one of mask 0 its hash and its depth, a pruned branch of mask 1 the hash that it states, for a
// depth of 0, and its own.
#[derive(Clone, Copy)]
pub(crate) enum Shown {
    Whole(u8, u16),
    Hidden(u8, u8),
}

pub(crate) fn info_of(shown: Shown) -> ChildInfo {
    match shown {
        Shown::Whole(hash, depth) => ChildInfo {
            mask: Mask::NONE,
            hashes: [weak(hash); 4],
            depths: [depth; 4],
        },
        Shown::Hidden(stated, own) => ChildInfo {
            mask: Mask::of(1).unwrap_or(Mask::NONE),
            hashes: [weak(stated), weak(own), weak(own), weak(own)],
            depths: [0; 4],
        },
    }
}

pub(crate) fn infos_of(alloc: Global, all: &[Shown]) -> Result<Vec<ChildInfo>, AllocError> {
    let mut infos = Vec::new(alloc);
    for shown in all {
        infos.push(info_of(*shown))?;
    }
    Ok(infos)
}

// A face: whether it is exotic, its bytes and how many bits of them, and what its children show.
#[derive(Clone, Copy)]
pub(crate) struct Shape(
    pub(crate) bool,
    pub(crate) Stem,
    pub(crate) u16,
    pub(crate) &'static [Shown],
);

/// The face of the byte 01.
pub(crate) const BYTE: Shape = Shape(false, Stem::Bytes(&[1]), 8, &[]);

pub(crate) fn face_of(alloc: Global, shape: &Shape) -> Result<Face, Fail> {
    let bits = Bits::from_slice(&bytes_of(alloc, &shape.1)?, shape.2).ok_or("bits")?;
    let kids = infos_of(alloc, shape.3)?;
    if kids.len() > 4 {
        return Err(Fail::from("at most four children"));
    }
    Ok(Face::new(shape.0, bits, &kids))
}

pub(crate) fn faces_of(alloc: Global, shapes: &[Shape]) -> Result<Vec<Face>, Fail> {
    let mut faces = Vec::new(alloc);
    for shape in shapes {
        faces.push(face_of(alloc, shape)?)?;
    }
    Ok(faces)
}

pub(crate) fn found_of(alloc: Global, shapes: &[Option<Shape>]) -> Result<Vec<Option<Face>>, Fail> {
    let mut found = Vec::new(alloc);
    for shape in shapes {
        match shape {
            Some(shape) => found.push(Some(face_of(alloc, shape)?))?,
            None => found.push(None)?,
        }
    }
    Ok(found)
}

pub(crate) fn hashes_in(alloc: Global, cells: &[NewCell]) -> Result<Vec<Hash256>, AllocError> {
    let mut hashes = Vec::new(alloc);
    for cell in cells {
        hashes.push(cell.hash)?;
    }
    Ok(hashes)
}

// ---- faults

#[derive(Clone, Copy)]
pub(crate) enum Due {
    OldHash(u8, u8),
    OldDepth(u16, u16),
    OldHalf(u8, Shape, Shape),
    Foreign(u8),
    NewClash(u8),
    SplitDeep(u32),
}

pub(crate) fn fault_of(alloc: Global, due: &Due) -> Result<PrepareFault, Fail> {
    Ok(match due {
        Due::OldHash(stated, real) => PrepareFault::OldHash {
            stated: weak(*stated),
            real: weak(*real),
        },
        Due::OldDepth(stated, real) => PrepareFault::OldDepth {
            stated: *stated,
            real: *real,
        },
        Due::OldHalf(hash, stored, shown) => PrepareFault::OldHalf {
            hash: weak(*hash),
            stored: face_of(alloc, stored)?,
            shown: face_of(alloc, shown)?,
        },
        Due::Foreign(hash) => PrepareFault::Foreign { hash: weak(*hash) },
        Due::NewClash(hash) => PrepareFault::NewClash { hash: weak(*hash) },
        Due::SplitDeep(depth) => PrepareFault::SplitDeep { depth: *depth },
    })
}
