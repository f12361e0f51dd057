ghost use Rattle.std.specs.Prelude.{◌≡◌, ◌-◌, ◌*◌, ◌/◌, ◌%◌, ◌^◌, ◌≤◌, [], ◌∷◌, IfOk};
ghost use Rattle.cd_feed.specs.Feeds.{IsBagFit};
ghost use Rattle.cd_gen.specs.Generated as spec;
ghost use Rattle.cd_gen.specs.Generated.{zero_bag, update_bag};

use crate::names::Names;
use cd_base::Memory;
use cd_block::{BlockId, BlockIds};
use cd_feed::{Bytes, Phase, Task, Tasks, Workers};
use std::alloc::{AllocError, Global};

/// The last block of the masterchain.
pub const LAST_MASTER: u32 = 66;

/// The greatest length of a slice.
const SLICE_LEN: u32 = 4096;

/// The bags of the blocks of one seqno; none is asked of the masterchain behind its last block.
#[derive(Drop)]
pub struct BlockBags {
    pub master: Bytes,
    pub left: Bytes,
    pub right: Bytes,
    pub ghost master_fits: { IsBagFit master },
    pub ghost left_fits: { IsBagFit left },
    pub ghost right_fits: { IsBagFit right },
}

/// The shards' blocks of a seqno.
fn shard_blocks(alloc: Global, names: &Names, seqno: u32) -> Result<BlockIds, AllocError>
    ensures { IfOk result (λ ids. ids ≡ spec.shard_blocks names.now.number seqno) }
{
    let left = names.block(1, seqno);
    let right = names.block(2, seqno);
    let ids = vec![in alloc; left, right]?;
    Ok(BlockIds::from(ids))
}

/// The phase of the zero states.
#[tactic(auto, unfolding(crate::specs::Generated::zero_phase))]
pub fn zero_phase(alloc: Global, names: &Names, bags: BlockBags) -> Result<Phase, Memory>
    requires master { bags.master ≡ zero_bag names.now.number 0 }
    requires left { bags.left ≡ zero_bag names.now.number 1 }
    requires right { bags.right ≡ zero_bag names.now.number 2 }
    ensures { IfOk result (λ phase. phase ≡ spec.zero_phase names.now.number) }
{
    let BlockBags {
        master,
        left,
        right,
    } = bags;
    let tops = shard_blocks(alloc, names, 0)?;
    let mut tasks = Vec::with_capacity(alloc, 3)?;
    tasks.push(zero_task(names, 0, tops, master))?;
    tasks.push(zero_task(names, 1, BlockIds::new(alloc), left))?;
    tasks.push(zero_task(names, 2, BlockIds::new(alloc), right))?;
    let mut workers = Vec::with_capacity(alloc, 1)?;
    workers.push(Tasks::from(tasks))?;
    Ok(Phase {
        workers: Workers::from(workers),
    })
}

fn zero_task(names: &Names, chain: u8, tops: BlockIds, bag: Bytes) -> Task
    requires chain { chain ≤ 2 }
    requires bag { bag ≡ zero_bag names.now.number chain }
    ensures { result ≡ spec.zero_task names.now.number chain tops }
{
    Task::Zero {
        id: names.block(chain, 0),
        tops,
        bag,
    }
}

fn one_task(alloc: Global, task: Task) -> Result<Tasks, Memory>
    ensures { IfOk result (λ tasks. tasks ≡ task ∷ []) }
{
    let mut tasks = Vec::with_capacity(alloc, 1)?;
    tasks.push(task)?;
    Ok(Tasks::from(tasks))
}

/// A block on the one before it.
fn block_worker(
    alloc: Global,
    names: &Names,
    chain: u8,
    seqno: u32,
    tops: BlockIds,
    bag: Bytes,
) -> Result<Tasks, Memory>
    requires chain { chain ≤ 2 }
    requires bag { bag ≡ update_bag names.now.number chain seqno }
    ensures { IfOk result (λ tasks. tasks ≡ spec.block_task names.now.number chain seqno tops ∷ []) }
{
    let task = Task::Block {
        id: names.block(chain, seqno),
        parent: names.block(chain, seqno.saturating_sub(1)),
        tops,
        bag,
    };
    one_task(alloc, task)
}

/// A block of the masterchain, whose tops are the shards' blocks of the same seqno.
#[tactic(auto, unfolding(crate::specs::Generated::master_tasks))]
fn master_worker(alloc: Global, names: &Names, seqno: u32, bag: Bytes) -> Result<Tasks, Memory>
    requires { seqno ≤ LAST_MASTER → bag ≡ update_bag names.now.number 0 seqno }
    ensures { IfOk result (λ tasks. tasks ≡ spec.master_tasks names.now.number seqno) }
{
    if seqno > LAST_MASTER {
        return Ok(Tasks::new(alloc));
    }
    let tops = shard_blocks(alloc, names, seqno)?;
    block_worker(alloc, names, 0, seqno, tops, bag)
}

/// A bit of the number of a leaf.
fn bit(leaf: u32, place: u32) -> u8
    requires { place ≤ 8 }
    ensures { result ≡ (leaf / 2 ^ place) % 2 }
{
    ((leaf >> place) % 2) as u8
}

/// The path of nine steps to a leaf: the bits of its number, highest first.
fn path_to(alloc: Global, leaf: u32) -> Result<Bytes, AllocError>
    ensures { IfOk result (λ path. path ≡ spec.path_of leaf) }
{
    let mut path = Vec::with_capacity(alloc, 9)?;
    for step in 0..9u32 {
        path.push(bit(leaf, 8 - step))?;
    }
    Ok(Bytes::from(path))
}

/// A read of the first shard, and every 16th time an export of the second in slices.
#[tactic(auto, unfolding(crate::specs::Generated::reading_tasks))]
fn reading_worker(alloc: Global, names: &Names, seqno: u32) -> Result<Tasks, Memory>
    requires { seqno ≤ 67 }
    ensures { IfOk result (λ tasks. tasks ≡ spec.reading_tasks names.now.number seqno) }
{
    let before = seqno.saturating_sub(1);
    let path = path_to(alloc, 7 * seqno % 512)?;
    let mut tasks = Vec::with_capacity(alloc, 2)?;
    tasks.push(Task::Read {
        id: names.block(1, before),
        path,
    })?;
    if seqno % 16 == 0 {
        tasks.push(Task::Slice {
            id: names.block(2, before),
            max: SLICE_LEN,
        })?;
    }
    Ok(Tasks::from(tasks))
}

/// Every 8th time an expiry by the masterchain's block before.
#[tactic(auto, unfolding(crate::specs::Generated::expiring_tasks))]
fn expiring_worker(alloc: Global, names: &Names, seqno: u32) -> Result<Tasks, Memory>
    ensures { IfOk result (λ tasks. tasks ≡ spec.expiring_tasks names.now.number seqno) }
{
    if seqno % 8 == 0 {
        let id = names.block(0, seqno.saturating_sub(1));
        return one_task(alloc, Task::Expire { id });
    }
    Ok(Tasks::new(alloc))
}

/// The phase of the blocks of a seqno.
#[tactic(auto, unfolding(crate::specs::Generated::block_phase))]
pub fn block_phase(
    alloc: Global,
    names: &Names,
    seqno: u32,
    bags: BlockBags,
) -> Result<Phase, Memory>
    requires seqno { seqno ≤ 67 }
    requires master { seqno ≤ LAST_MASTER → bags.master ≡ update_bag names.now.number 0 seqno }
    requires left { bags.left ≡ update_bag names.now.number 1 seqno }
    requires right { bags.right ≡ update_bag names.now.number 2 seqno }
    ensures { IfOk result (λ phase. phase ≡ spec.block_phase names.now.number seqno) }
{
    let BlockBags {
        master,
        left,
        right,
    } = bags;
    let mut workers = Vec::with_capacity(alloc, 5)?;
    workers.push(block_worker(alloc, names, 1, seqno, BlockIds::new(alloc), left)?)?;
    workers.push(block_worker(alloc, names, 2, seqno, BlockIds::new(alloc), right)?)?;
    workers.push(master_worker(alloc, names, seqno, master)?)?;
    workers.push(reading_worker(alloc, names, seqno)?)?;
    workers.push(expiring_worker(alloc, names, seqno)?)?;
    Ok(Phase {
        workers: Workers::from(workers),
    })
}
