ghost use Rattle.std.specs.Prelude.{◌≡◌, ◌≤◌, ◌<◌, ◌++◌, length, OnOk, IfOk};
ghost use Rattle.std.specs.List.{AllByRecursion, flat_map};
ghost use Rattle.cd_block.specs.Block.{key_of};
ghost use Rattle.cd_block.specs.Description.{ids_text};
ghost use Rattle.cd_feed.specs.Feeds.{bag_text, path_text, task_text, worker_text, phase_text, feed_text};
ghost use Rattle.cd_feed.specs.Feeds.{IsBagFit, IsTaskFit, IsWorkerFit, IsPhaseFit, IsFeedFit};

use crate::feed::{Feed, Phase, Task, Tasks};
use crate::reading::MAGIC;
use crate::tasks::{BLOCK, EXPIRE, MERGED, READ, SERVE, SLICE, ZERO};
use cd_base::{ByteWriter, Memory};
use cd_block::BlockId;
use std::alloc::Global;

fn put_id(out: &mut ByteWriter, id: &BlockId) -> Result<(), Memory>
    ensures { OnOk result (out.new ≡ out.old ++ key_of id.now) }
{
    out.put(&id.to_key())
}

/// Puts the number of the ids, in one byte, and their keys.
#[tactic(auto, unfolding(cd_block::specs::Description::ids_text))]
fn put_ids(out: &mut ByteWriter, ids: &[BlockId]) -> Result<(), Memory>
    requires { length ids.now < 256 }
    ensures { OnOk result (out.new ≡ out.old ++ ids_text ids.now) }
{
    out.put(&[ids.len() as u8])?;
    for id in ids {
        put_id(out, id)?;
    }
    Ok(())
}

#[tactic(auto, unfolding(crate::specs::Feeds::bag_text))]
fn put_bag(out: &mut ByteWriter, bag: &[u8]) -> Result<(), Memory>
    requires { IsBagFit bag.now }
    ensures { OnOk result (out.new ≡ out.old ++ bag_text bag.now) }
{
    out.put_be(bag.len() as u64, 4)?;
    out.put(bag)
}

#[tactic(auto, unfolding(crate::specs::Feeds::path_text))]
fn put_path(out: &mut ByteWriter, path: &[u8]) -> Result<(), Memory>
    requires { length path.now < 256 }
    ensures { OnOk result (out.new ≡ out.old ++ path_text path.now) }
{
    out.put(&[path.len() as u8])?;
    out.put(path)
}

/// Puts the tops and the bag of a state.
fn put_stored(out: &mut ByteWriter, tops: &[BlockId], bag: &[u8]) -> Result<(), Memory>
    requires tops { length tops.now < 256 }
    requires bag { IsBagFit bag.now }
    ensures { OnOk result (out.new ≡ out.old ++ (ids_text tops.now ++ bag_text bag.now)) }
{
    put_ids(out, tops)?;
    put_bag(out, bag)
}

#[tactic(auto, unfolding(crate::specs::Feeds::task_text, crate::specs::Feeds::IsTaskFit))]
fn put_task(out: &mut ByteWriter, task: &Task) -> Result<(), Memory>
    requires { IsTaskFit task.now }
    ensures { OnOk result (out.new ≡ out.old ++ task_text task.now) }
{
    match task {
        Task::Zero { id, tops, bag } => {
            out.put(&[ZERO])?;
            put_id(out, id)?;
            put_stored(out, tops.as_slice(), bag.as_slice())
        }
        Task::Block {
            id,
            parent,
            tops,
            bag,
        } => {
            out.put(&[BLOCK])?;
            put_id(out, id)?;
            put_id(out, parent)?;
            put_stored(out, tops.as_slice(), bag.as_slice())
        }
        Task::Expire { id } => {
            out.put(&[EXPIRE])?;
            put_id(out, id)
        }
        Task::Read { id, path } => {
            out.put(&[READ])?;
            put_id(out, id)?;
            put_path(out, path.as_slice())
        }
        Task::Slice { id, max } => {
            out.put(&[SLICE])?;
            put_id(out, id)?;
            out.put_be(u64::from(*max), 4)
        }
        Task::Serve { id, max } => {
            out.put(&[SERVE])?;
            put_id(out, id)?;
            out.put_be(u64::from(*max), 4)
        }
        Task::Merged {
            id,
            left,
            right,
            tops,
            bag,
        } => {
            out.put(&[MERGED])?;
            put_id(out, id)?;
            put_id(out, left)?;
            put_id(out, right)?;
            put_stored(out, tops.as_slice(), bag.as_slice())
        }
    }
}

fn put_tasks(out: &mut ByteWriter, tasks: &[Task]) -> Result<(), Memory>
    requires { AllByRecursion IsTaskFit tasks.now }
    ensures { OnOk result (out.new ≡ out.old ++ flat_map task_text tasks.now) }
{
    for task in tasks {
        put_task(out, task)?;
    }
    Ok(())
}

#[tactic(auto, unfolding(crate::specs::Feeds::worker_text))]
fn put_worker(out: &mut ByteWriter, tasks: &[Task]) -> Result<(), Memory>
    requires { IsWorkerFit tasks.now }
    ensures { OnOk result (out.new ≡ out.old ++ worker_text tasks.now) }
{
    out.put_be(tasks.len() as u64, 2)?;
    put_tasks(out, tasks)
}

fn put_workers(out: &mut ByteWriter, workers: &[Tasks]) -> Result<(), Memory>
    requires { AllByRecursion IsWorkerFit workers.now }
    ensures { OnOk result (out.new ≡ out.old ++ flat_map worker_text workers.now) }
{
    for worker in workers {
        put_worker(out, worker.as_slice())?;
    }
    Ok(())
}

#[tactic(auto, unfolding(crate::specs::Feeds::phase_text))]
fn put_phase(out: &mut ByteWriter, phase: &Phase) -> Result<(), Memory>
    requires { IsPhaseFit phase.now }
    ensures { OnOk result (out.new ≡ out.old ++ phase_text phase.now) }
{
    let workers = phase.workers.as_slice();
    out.put_be(workers.len() as u64, 2)?;
    put_workers(out, workers)
}

fn put_phases(out: &mut ByteWriter, phases: &[Phase]) -> Result<(), Memory>
    requires { AllByRecursion IsPhaseFit phases.now }
    ensures { OnOk result (out.new ≡ out.old ++ flat_map phase_text phases.now) }
{
    for phase in phases {
        put_phase(out, phase)?;
    }
    Ok(())
}

/// The text of a feed within the limits, which `read_feed` reads back.
#[tactic(auto, unfolding(crate::specs::Feeds::feed_text))]
pub fn write_feed(alloc: Global, feed: &Feed) -> Result<Vec<u8>, Memory>
    requires { IsFeedFit feed.now }
    ensures { IfOk result (λ text. text.items ≡ feed_text feed.now) }
{
    let phases = feed.phases.as_slice();
    let mut out = ByteWriter::new(alloc);
    out.put_be(MAGIC, 4)?;
    out.put_be(phases.len() as u64, 2)?;
    put_phases(&mut out, phases)?;
    Ok(out.finish())
}
