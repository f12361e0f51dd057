use cd_base::Hash256;
use cd_block::{
    BlockId, BlockIds, Descr, DescrFault, LineageFault, ShardId, decode_descr, encode_descr,
    expires, lineage, parse_id, print_id,
};
use std::test::Fail;

/// The hash of the ordinary cell without bits and references.
const EMPTY_CELL: Hash256 = Hash256([
    0x96, 0xa2, 0x96, 0xd2, 0x24, 0xf2, 0x85, 0xc6, 0x7b, 0xee, 0x93, 0xc3, 0x0f, 0x8a, 0x30, 0x91,
    0x57, 0xf0, 0xda, 0xa3, 0x5d, 0xc5, 0xb8, 0x7e, 0x41, 0x0b, 0x78, 0x63, 0x0a, 0x09, 0xcf, 0xc7,
]);

/// The description of the zero state of one empty cell: version, not leaving, no parents, root, depth, no tops.
const DESCRIPTION: [u8; 38] = [
    1, 0, 0, 0x96, 0xa2, 0x96, 0xd2, 0x24, 0xf2, 0x85, 0xc6, 0x7b, 0xee, 0x93, 0xc3, 0x0f, 0x8a,
    0x30, 0x91, 0x57, 0xf0, 0xda, 0xa3, 0x5d, 0xc5, 0xb8, 0x7e, 0x41, 0x0b, 0x78, 0x63, 0x0a, 0x09,
    0xcf, 0xc7, 0, 0, 0,
];

/// The name of that zero state, of the masterchain.
const NAME: &str =
    "(-1,8000000000000000,0):96a296d224f285c67bee93c30f8a309157f0daa35dc5b87e410b78630a09cfc7:0000000000000000000000000000000000000000000000000000000000000000";

const ZEROS: Hash256 = Hash256([0; 32]);

const MASTER: ShardId = ShardId {
    workchain: -1,
    shard: 0x8000_0000_0000_0000,
};

fn zero_state() -> BlockId {
    BlockId {
        shard_id: MASTER,
        seqno: 0,
        root: EMPTY_CELL,
        file: ZEROS,
    }
}

#[test]
fn a_name_is_printed(rt: HostRuntime) -> Result<(), Fail> {
    let text = print_id(rt.alloc(), &zero_state())?;
    assert_eq!(rt; text.as_str(), NAME);
    Ok(())
}

#[test]
fn a_spelling_is_read(rt: HostRuntime) {
    assert_eq!(rt; parse_id(NAME), Some(zero_state()));
}

#[test]
fn what_is_no_spelling_is_refused(rt: HostRuntime) {
    for text in [
        "(-0,8000000000000000,0):96a296d224f285c67bee93c30f8a309157f0daa35dc5b87e410b78630a09cfc7:0000000000000000000000000000000000000000000000000000000000000000",
        "(0,8000000000000000,00):96a296d224f285c67bee93c30f8a309157f0daa35dc5b87e410b78630a09cfc7:0000000000000000000000000000000000000000000000000000000000000000",
        "(0,800000000000000,0):96a296d224f285c67bee93c30f8a309157f0daa35dc5b87e410b78630a09cfc7:0000000000000000000000000000000000000000000000000000000000000000",
        "(0,8000000000000000,0):96A296D224F285C67BEE93C30F8A309157F0DAA35DC5B87E410B78630A09CFC7:0000000000000000000000000000000000000000000000000000000000000000",
        "",
    ] {
        assert_eq!(rt; parse_id(text), None);
    }
}

#[test]
fn a_zero_state_is_described(rt: HostRuntime) -> Result<(), Fail> {
    let descr = Descr {
        id: zero_state(),
        parents: BlockIds::new(rt.alloc()),
        root: EMPTY_CELL,
        depth: 0,
        tops: BlockIds::new(rt.alloc()),
        leaving: false,
    };
    let text = encode_descr(rt.alloc(), &descr)?;
    assert_eq!(rt; text.as_slice(), DESCRIPTION.as_slice());
    Ok(())
}

#[test]
fn a_key_begins_with_the_workchain(rt: HostRuntime) {
    let key = zero_state().to_key();
    assert!(rt; block(0, WHOLE, 9) < zero_state());
    assert_eq!(rt; BlockId::from_key(&key), zero_state());
    assert_eq!(rt; &key[..5], [0xff, 0xff, 0xff, 0xff, 0x80].as_slice());
}

#[test]
fn a_description_is_read(rt: HostRuntime) -> Result<(), Fail> {
    let descr = decode_descr(rt.alloc(), &zero_state().to_key(), &DESCRIPTION)?;
    assert_eq!(rt; descr.id, zero_state());
    assert_eq!(rt; descr.root, EMPTY_CELL);
    assert_eq!(rt; descr.depth, 0);
    assert!(rt; descr.parents.is_empty() && descr.tops.is_empty() && !descr.leaving);
    Ok(())
}

const WHOLE: u64 = 0x8000_0000_0000_0000;

const LEFT: u64 = 0x4000_0000_0000_0000;

const RIGHT: u64 = 0xc000_0000_0000_0000;

fn block(workchain: i32, shard: u64, seqno: u32) -> BlockId {
    BlockId {
        shard_id: ShardId { workchain, shard },
        seqno,
        root: ZEROS,
        file: ZEROS,
    }
}

#[test]
fn a_shard_stays_or_splits(rt: HostRuntime) {
    let parent = [block(0, WHOLE, 0)];
    assert_eq!(rt; lineage(&block(0, WHOLE, 1), &parent), Ok(()));
    assert_eq!(rt; lineage(&block(0, LEFT, 1), &parent), Ok(()));
    assert_eq!(rt;
        lineage(&block(0, LEFT / 2, 1), &parent),
        Err(LineageFault::Shard)
    );
    assert_eq!(rt;
        lineage(&block(0, WHOLE, 1), &[block(0, LEFT, 0)]),
        Err(LineageFault::Shard)
    );
    assert_eq!(rt;
        lineage(&block(-1, LEFT, 1), &[block(-1, WHOLE, 0)]),
        Err(LineageFault::Shard)
    );
}

#[test]
fn a_seqno_follows_the_parents(rt: HostRuntime) {
    let late = LineageFault::Seqno { stated: 2, due: 1 };
    assert_eq!(rt;
        lineage(&block(0, WHOLE, 2), &[block(0, WHOLE, 0)]),
        Err(late)
    );
    let past_the_last = LineageFault::Seqno {
        stated: 0,
        due: 4_294_967_296,
    };
    assert_eq!(rt;
        lineage(&block(0, WHOLE, 0), &[block(0, WHOLE, u32::MAX)]),
        Err(past_the_last)
    );
    assert_eq!(rt; lineage(&zero_state(), &[]), Ok(()));
}

#[test]
fn a_block_after_a_merge_has_two_parents(rt: HostRuntime) {
    let left = block(0, LEFT, 7);
    let right = block(0, RIGHT, 9);
    let merged = block(0, WHOLE, 10);
    let early = LineageFault::Seqno { stated: 9, due: 10 };
    let past_the_last = LineageFault::Seqno {
        stated: 0,
        due: 4_294_967_296,
    };
    let table = [
        (merged, left, right, Ok(())),
        (merged, right, left, Err(LineageFault::Shard)),
        (merged, left, left, Err(LineageFault::Shard)),
        (block(0, LEFT, 10), left, right, Err(LineageFault::Shard)),
        (block(1, WHOLE, 10), left, right, Err(LineageFault::Shard)),
        (block(0, WHOLE, 9), left, right, Err(early)),
        (
            block(0, WHOLE, 0),
            left,
            block(0, RIGHT, u32::MAX),
            Err(past_the_last),
        ),
    ];
    for (id, first, second, due) in &table {
        assert!(rt; lineage(id, &[*first, *second]) == *due);
    }
    assert!(rt; lineage(&merged, &[left, right, right]) == Err(LineageFault::Shard));
}

#[test]
fn a_block_expires_by_every_top_that_it_meets(rt: HostRuntime) {
    let master = block(-1, WHOLE, 9);
    let tops = [block(0, LEFT, 5), block(0, RIGHT, 6)];
    assert!(rt; expires(&block(0, WHOLE, 4), &master, &tops));
    assert!(rt; !expires(&block(0, WHOLE, 5), &master, &tops));
    assert!(rt; !expires(&block(0, WHOLE, 4), &master, &[]));
    assert!(rt; !expires(&block(1, WHOLE, 4), &master, &tops));
    assert!(rt; expires(&block(-1, WHOLE, 8), &master, &tops));
}

#[test]
fn a_shard_of_63_bits_is_a_half(rt: HostRuntime) {
    let smallest = ShardId {
        workchain: 0,
        shard: 1,
    };
    let above = ShardId {
        workchain: 0,
        shard: 2,
    };
    assert_eq!(rt; smallest.parent(), Some(above));
    assert!(rt; smallest.is_child_of(&above) && smallest.meets(&above));
}

#[test]
fn the_shard_number_0_meets_nothing(rt: HostRuntime) {
    let none = ShardId {
        workchain: 0,
        shard: 0,
    };
    assert_eq!(rt; none.parent(), None);
    assert!(rt; !none.meets(&none));
}

#[test]
fn tops_are_read_back(rt: HostRuntime) -> Result<(), Fail> {
    let tops = vec![in rt.alloc(); block(0, LEFT, 5), block(0, RIGHT, 6)]?;
    let descr = Descr {
        id: zero_state(),
        parents: BlockIds::new(rt.alloc()),
        root: EMPTY_CELL,
        depth: 0,
        tops: BlockIds::from(tops),
        leaving: true,
    };
    assert!(rt; descr.id.shard_id.is_master());
    assert_eq!(rt; descr.tops.len(), 2);
    let text = encode_descr(rt.alloc(), &descr)?;
    let read = decode_descr(rt.alloc(), &descr.id.to_key(), &text)?;
    assert_eq!(rt;
        read.tops.as_slice(),
        [block(0, LEFT, 5), block(0, RIGHT, 6)].as_slice()
    );
    assert_eq!(rt; read.tops.into_vec().len(), descr.tops.len());
    assert!(rt; read.leaving);
    Ok(())
}

#[test]
fn each_fault_has_a_text(rt: HostRuntime) -> Result<(), Fail> {
    let late = LineageFault::Seqno { stated: 2, due: 1 };
    let text = format!(in rt.alloc(); "{}; {}", LineageFault::Shard, late)?;
    assert_eq!(rt;
        text.as_str(),
        "the block's shard does not follow from its parents'; the block's seqno is 2, and 1 is due"
    );
    let text = format!(in rt.alloc();
        "{}; {}; {}; {}; {}",
        DescrFault::Version,
        DescrFault::Cut,
        DescrFault::Extra,
        DescrFault::Form,
        DescrFault::Memory
    )?;
    assert_eq!(rt;
        text.as_str(),
        "the description has another version; the description ends early; bytes stand behind the description; a field of the description is outside its range; out of memory"
    );
    Ok(())
}
