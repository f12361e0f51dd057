use cd_base::Hash256;
use cd_block::{BlockId, BlockIds, Descr, ShardId};
use cd_world::{PinRow, Rows, World, expired, find_block, find_kept, pin_row, pins_of};
use std::alloc::Global;
use std::test::Fail;

fn id(workchain: i32, shard: u64, seqno: u32) -> BlockId {
    BlockId {
        shard_id: ShardId { workchain, shard },
        seqno,
        root: Hash256([0; 32]),
        file: Hash256([0; 32]),
    }
}

fn block(alloc: Global, id: BlockId, leaving: bool) -> Descr {
    Descr {
        id,
        parents: BlockIds::new(alloc),
        root: Hash256([0; 32]),
        depth: 0,
        tops: BlockIds::new(alloc),
        leaving,
    }
}

/// A shard block of the whole shard, a leaving one, two halves, and two masterchain blocks, in the order of their ids.
fn blocks(alloc: Global) -> Result<Rows<Descr>, Fail> {
    let mut blocks = Rows::new(alloc);
    blocks.push(block(alloc, id(0, 0x4000_0000_0000_0000, 3), false))?;
    blocks.push(block(alloc, id(0, 0x8000_0000_0000_0000, 1), true))?;
    blocks.push(block(alloc, id(0, 0x8000_0000_0000_0000, 2), false))?;
    blocks.push(block(alloc, id(0, 0xc000_0000_0000_0000, 3), false))?;
    blocks.push(block(alloc, id(-1, 0x8000_0000_0000_0000, 4), false))?;
    blocks.push(block(alloc, id(-1, 0x8000_0000_0000_0000, 5), false))?;
    Ok(blocks)
}

fn world(alloc: Global) -> Result<World, Fail> {
    let mut pins = Rows::new(alloc);
    for pin in 0..64u64 {
        pins.push(PinRow {
            pin,
            worker: 1,
            block: id(0, 0x8000_0000_0000_0000, 1),
        })?;
    }
    pins.push(PinRow {
        pin: 64,
        worker: 2,
        block: id(0, 0x8000_0000_0000_0000, 2),
    })?;
    Ok(World {
        blocks: blocks(alloc)?,
        pins,
        next: 65,
    })
}

#[test]
fn blocks_and_pins_are_found(rt: HostRuntime) -> Result<(), Fail> {
    let world = world(rt.alloc())?;
    let leaving = id(0, 0x8000_0000_0000_0000, 1);
    let kept = id(0, 0x8000_0000_0000_0000, 2);
    let absent = id(0, 0x8000_0000_0000_0000, 6);
    assert!(rt; find_block(&world, &leaving).is_some());
    assert!(rt; find_kept(&world, &leaving).is_none());
    assert!(rt; find_kept(&world, &kept).is_some());
    assert!(rt; find_block(&world, &absent).is_none());
    assert!(rt; pin_row(&world, 1, 63).is_some());
    assert!(rt; pin_row(&world, 2, 63).is_none());
    assert!(rt; pin_row(&world, 1, 65).is_none());
    assert_eq!(rt; pins_of(&world, 1), 64);
    assert_eq!(rt; pins_of(&world, 2), 1);
    assert_eq!(rt; pins_of(&world, 3), 0);
    Ok(())
}

#[test]
fn what_the_tops_passed_expires(rt: HostRuntime) -> Result<(), Fail> {
    let alloc = rt.alloc();
    let mut world = world(alloc)?;
    // A top of the left half, of the seqno of the block there: that block stays, and so does the right half's, which
    // the top doesn't meet. The older block of the whole shard goes, but not the leaving one, and so does the older
    // master block.
    let mut tops = Vec::new(alloc);
    tops.push(id(0, 0x4000_0000_0000_0000, 3))?;
    let mut master = block(alloc, id(-1, 0x8000_0000_0000_0000, 5), false);
    master.tops = BlockIds::from(tops);
    let gone = expired(alloc, &world, &master)?;
    let due = [
        id(0, 0x8000_0000_0000_0000, 2),
        id(-1, 0x8000_0000_0000_0000, 4),
    ];
    assert_eq!(rt; gone.as_slice(), due.as_slice());
    // The one with a pin stays as leaving, and the other is gone.
    world.blocks.expire(&master, world.pins.as_slice());
    assert_eq!(rt; world.blocks.as_slice().len(), 5);
    assert!(rt; find_block(&world, &due[0]).is_some_and(|block| block.leaving));
    assert!(rt; find_block(&world, &due[1]).is_none());
    Ok(())
}

#[test]
fn rows_grow_and_shrink_in_place(rt: HostRuntime) -> Result<(), Fail> {
    let mut pins = world(rt.alloc())?.pins;
    pins.drop_pin(2, 63);
    assert_eq!(rt; pins.as_slice().len(), 65);
    pins.drop_pin(1, 63);
    assert_eq!(rt; pins.as_slice().len(), 64);
    Ok(())
}
