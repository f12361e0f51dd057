use cd_base::Hash256;
use cd_cell::{Bits, CellFault, ChildInfo, Face, Hash32, Kind, Mask, Sha, WeakSum, face_info};
use std::test::Fail;

// A face over at most four children.
fn face(exotic: bool, bytes: &[u8], len: u16, kids: &[ChildInfo]) -> Option<Face> {
    if kids.len() > 4 {
        return None;
    }
    Some(Face::new(exotic, Bits::from_slice(bytes, len)?, kids))
}

// What a face shows, where it passes.
fn info<H: Hash32>(face: &Face) -> Option<ChildInfo> {
    match face.check() {
        Ok(_) => Some(face_info::<H>(face)),
        Err(_) => None,
    }
}

// The weak hash of this last byte.
fn weak(last: u8) -> Hash256 {
    let mut bytes = [0; 32];
    bytes[31] = last;
    Hash256(bytes)
}

// Zero bytes but for these.
fn zeros_but(edits: &[(usize, u8)]) -> [u8; 128] {
    let mut bytes = [0; 128];
    for (at, byte) in edits {
        if *at < 128 {
            bytes[*at] = *byte;
        }
    }
    bytes
}

#[test]
fn empty_cell(rt: HostRuntime) -> Result<(), Fail> {
    let empty = face(false, &[], 0, &[]).ok_or("a face")?;
    let shown = info::<Sha>(&empty).ok_or("well-formed")?;
    let hash = Hash256([
        0x96, 0xa2, 0x96, 0xd2, 0x24, 0xf2, 0x85, 0xc6, 0x7b, 0xee, 0x93, 0xc3, 0x0f, 0x8a, 0x30,
        0x91, 0x57, 0xf0, 0xda, 0xa3, 0x5d, 0xc5, 0xb8, 0x7e, 0x41, 0x0b, 0x78, 0x63, 0x0a, 0x09,
        0xcf, 0xc7,
    ]);
    assert_eq!(rt; shown.hashes, [hash; 4]);
    assert_eq!(rt; shown.depths, [0; 4]);
    assert_eq!(rt; shown.rep(), hash);
    Ok(())
}

#[test]
fn pruned_branch_and_proof_over_it(rt: HostRuntime) -> Result<(), Fail> {
    let bytes = zeros_but(&[(0, 1), (1, 5), (33, 0x0a), (65, 0x14), (67, 3), (69, 7)]);
    let branch = face(true, &bytes, 560, &[]).ok_or("a face")?;
    let shown = info::<WeakSum>(&branch).ok_or("well-formed")?;
    assert_eq!(rt;
        shown.hashes,
        [weak(0x0a), weak(0x14), weak(0x14), weak(0x62)]
    );
    assert_eq!(rt; shown.depths, [3, 7, 7, 0]);

    let bytes = zeros_but(&[(0, 3), (32, 0x0a), (34, 3)]);
    let proof = face(true, &bytes, 280, &[shown]).ok_or("a face")?;
    let over = info::<WeakSum>(&proof).ok_or("well-formed")?;
    assert_eq!(rt; over.mask.byte(), 2);
    assert_eq!(rt;
        over.hashes,
        [weak(0x7a), weak(0x7a), weak(0x6b), weak(0x6b)]
    );
    assert_eq!(rt; over.depths, [8, 8, 1, 1]);

    let bytes = zeros_but(&[(0, 3), (32, 0x0b), (34, 3)]);
    let wrong = face(true, &bytes, 280, &[shown]).ok_or("a face")?;
    assert_eq!(rt; wrong.check(), Err(CellFault::MerkleHash { place: 0 }));
    Ok(())
}

#[test]
fn depths_up_to_1024(rt: HostRuntime) -> Result<(), Fail> {
    let mut top = face(false, &[], 0, &[]).ok_or("a face")?;
    for depth in 0..1025 {
        let shown = info::<WeakSum>(&top).ok_or("well-formed")?;
        assert_eq!(rt; shown.height(), depth);
        top = face(false, &[], 0, &[shown]).ok_or("a face")?;
    }
    assert_eq!(rt; top.check(), Err(CellFault::DepthBig { depth: 1025 }));
    Ok(())
}

// An exotic face of zero bits but for these bytes, over empty cells, and its answer.
#[derive(Clone, Copy)]
struct Case {
    bytes: [(usize, u8); 3],
    len: u16,
    refs: usize,
    answer: Result<Kind, CellFault>,
}

const NONE: (usize, u8) = (127, 0);

const CASES: [Case; 20] = [
    Case {
        bytes: [(0, 2), NONE, NONE],
        len: 7,
        refs: 0,
        answer: Err(CellFault::Short),
    },
    Case {
        bytes: [(0, 2), NONE, NONE],
        len: 8,
        refs: 0,
        answer: Err(CellFault::Length { real: 8 }),
    },
    Case {
        bytes: [(0, 0), NONE, NONE],
        len: 8,
        refs: 0,
        answer: Err(CellFault::KindByte { value: 0 }),
    },
    Case {
        bytes: [(0, 5), NONE, NONE],
        len: 8,
        refs: 0,
        answer: Err(CellFault::KindByte { value: 5 }),
    },
    Case {
        bytes: [(0, 2), NONE, NONE],
        len: 264,
        refs: 1,
        answer: Err(CellFault::Refs { real: 1 }),
    },
    Case {
        bytes: [(0, 2), NONE, NONE],
        len: 264,
        refs: 0,
        answer: Ok(Kind::Library),
    },
    Case {
        bytes: [(0, 2), NONE, NONE],
        len: 265,
        refs: 0,
        answer: Err(CellFault::Length { real: 265 }),
    },
    Case {
        bytes: [(0, 1), (1, 0), NONE],
        len: 15,
        refs: 0,
        answer: Err(CellFault::Length { real: 15 }),
    },
    Case {
        bytes: [(0, 1), (1, 0), NONE],
        len: 16,
        refs: 0,
        answer: Err(CellFault::PrunedMask { value: 0 }),
    },
    Case {
        bytes: [(0, 1), (1, 8), NONE],
        len: 288,
        refs: 0,
        answer: Err(CellFault::PrunedMask { value: 8 }),
    },
    Case {
        bytes: [(0, 1), (1, 7), NONE],
        len: 831,
        refs: 0,
        answer: Err(CellFault::Length { real: 831 }),
    },
    Case {
        bytes: [(0, 1), (1, 7), NONE],
        len: 832,
        refs: 0,
        answer: Ok(Kind::Pruned),
    },
    Case {
        bytes: [(0, 1), (1, 1), (34, 4)],
        len: 288,
        refs: 0,
        answer: Ok(Kind::Pruned),
    },
    Case {
        bytes: [(0, 3), NONE, NONE],
        len: 280,
        refs: 2,
        answer: Err(CellFault::Refs { real: 2 }),
    },
    Case {
        bytes: [(0, 3), NONE, NONE],
        len: 280,
        refs: 1,
        answer: Ok(Kind::Proof),
    },
    Case {
        bytes: [(0, 3), (32, 1), (34, 1)],
        len: 280,
        refs: 1,
        answer: Err(CellFault::MerkleHash { place: 0 }),
    },
    Case {
        bytes: [(0, 3), (34, 1), NONE],
        len: 280,
        refs: 1,
        answer: Err(CellFault::MerkleDepth { place: 0 }),
    },
    Case {
        bytes: [(0, 4), NONE, NONE],
        len: 552,
        refs: 2,
        answer: Ok(Kind::Update),
    },
    Case {
        bytes: [(0, 4), (64, 1), (66, 1)],
        len: 552,
        refs: 2,
        answer: Err(CellFault::MerkleHash { place: 1 }),
    },
    Case {
        bytes: [(0, 4), (68, 1), NONE],
        len: 552,
        refs: 2,
        answer: Err(CellFault::MerkleDepth { place: 1 }),
    },
];

#[test]
fn refusals_at_their_edges(rt: HostRuntime) -> Result<(), Fail> {
    let below = face(false, &[], 0, &[]).ok_or("a face")?;
    let kids = [info::<WeakSum>(&below).ok_or("well-formed")?; 3];
    for case in CASES {
        let bytes = zeros_but(&case.bytes);
        let kids = kids.get(..case.refs).ok_or("children")?;
        let made = face(true, &bytes, case.len, kids).ok_or("a face")?;
        assert_eq!(rt; made.check(), case.answer);
    }

    // A stated depth of 1024 passes, and one more doesn't.
    let deep = face(true, &zeros_but(&[(0, 1), (1, 1), (34, 4)]), 288, &[]).ok_or("a face")?;
    assert_eq!(rt; deep.check(), Ok(Kind::Pruned));
    let deeper = face(
        true,
        &zeros_but(&[(0, 1), (1, 1), (34, 4), (35, 1)]),
        288,
        &[],
    )
    .ok_or("a face")?;
    assert_eq!(rt; deeper.check(), Err(CellFault::DepthBig { depth: 1025 }));
    Ok(())
}

#[test]
fn bits_of_data(rt: HostRuntime) -> Result<(), Fail> {
    let bits = Bits::from_data(&[0xa5, 0xd8], false).ok_or("bits")?;
    assert_eq!(rt; bits.len(), 12);
    assert_eq!(rt; bits.bit(11), Some(true));
    assert_eq!(rt; bits.bit(12), None);
    assert_eq!(rt; bits.byte(0), Some(0xa5));
    assert_eq!(rt; bits.byte(1), None);
    assert_eq!(rt; Bits::from_slice(&[0xa5, 0xdf], 12), Some(bits));
    assert_eq!(rt; Bits::from_data(&[0xa5, 0x80], false), None);
    assert_eq!(rt;
        Bits::from_data(&[0xa5, 0x80], true).ok_or("bits")?.data(),
        [0xa5, 0x80].as_slice()
    );
    let mask = Mask::of(5).ok_or("a mask")?;
    assert_eq!(rt;
        (
            mask.level(),
            mask.count(),
            mask.apply(2).byte(),
            mask.shifted().byte()
        ),
        (3, 2, 1, 2)
    );
    Ok(())
}

#[test]
fn bits_are_printed(rt: HostRuntime) -> Result<(), Fail> {
    let bits = Bits::from_data(&[0x0a, 0xd8], false).ok_or("bits")?;
    let text = format!(in rt.alloc(); "{bits:?}")?;
    assert_eq!(rt; text.as_str(), "12 bits 0ad8");
    Ok(())
}

#[test]
fn each_fault_has_a_text(rt: HostRuntime) -> Result<(), Fail> {
    let alloc = rt.alloc();
    let texts = [
        (CellFault::Short, "an exotic cell of fewer than 8 bits"),
        (CellFault::KindByte { value: 5 }, "an exotic cell of type 5"),
        (
            CellFault::Refs { real: 2 },
            "an exotic cell with 2 references",
        ),
        (
            CellFault::PrunedMask { value: 8 },
            "a pruned branch of mask 8",
        ),
        (
            CellFault::Length { real: 831 },
            "an exotic cell of 831 bits",
        ),
        (
            CellFault::MerkleHash { place: 1 },
            "a Merkle cell states another hash than child 1 has",
        ),
        (
            CellFault::MerkleDepth { place: 0 },
            "a Merkle cell states another depth than child 0 has",
        ),
        (CellFault::DepthBig { depth: 1025 }, "a cell of depth 1025"),
    ];
    for (fault, text) in texts {
        assert_eq!(rt; fault.to_string(alloc)?.as_str(), text);
    }
    Ok(())
}
