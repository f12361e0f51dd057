ghost use Rattle.std.specs.Prelude.{◌≡◌, ℕ, ◌≤◌, ◌<◌, length, IfOk};
ghost use Rattle.cd_base.specs.Reading.{GivesUnless};
ghost use Rattle.cd_feed.specs.declared.feed_fault.FeedFault.TheVariants.{Memory};
ghost use Rattle.cd_feed.specs.FeedReading as spec;

use crate::feed::{Bytes, Task};
use crate::feed_fault::FeedFault;
use crate::fields::{bag_at, cut, id_at, max_at, path_at, tops_at};
use cd_base::byte_at;
use cd_block::BlockIds;
use std::alloc::Global;

/// The kind byte of a zero state.
pub const ZERO: u8 = 1;

/// The kind byte of a block on one parent.
pub const BLOCK: u8 = 2;

/// The kind byte of an expiry.
pub const EXPIRE: u8 = 3;

/// The kind byte of a read along a path.
pub const READ: u8 = 4;

/// The kind byte of an export in slices.
pub const SLICE: u8 = 5;

/// The kind byte of an export to the clients.
pub const SERVE: u8 = 6;

/// The kind byte of a block on two parents.
pub const MERGED: u8 = 7;

#[tactic(auto, unfolding(crate::specs::FeedReading::zero_at))]
fn zero_at(
    alloc: Global,
    total: usize,
    fault: FeedFault,
    bytes: &[u8],
) -> Result<(Task, &[u8]), FeedFault>
    requires { length bytes.now ≤ total }
    ensures exact { GivesUnless Memory (λ x. (x.0, x.1.now)) result (spec.zero_at total fault bytes.now) }
    ensures rest { IfOk result (λ x. length x.1.now ≤ length bytes.now) }
{
    let (id, rest) = id_at(total, bytes)?;
    let (tops, rest) = tops_at(alloc, total, fault, &id, rest)?;
    let (bag, rest) = bag_at(alloc, total, rest)?;
    let tops = BlockIds::from(tops);
    let bag = Bytes::from(bag);
    Ok((Task::Zero { id, tops, bag }, rest))
}

#[tactic(auto, unfolding(crate::specs::FeedReading::block_at))]
fn block_at(
    alloc: Global,
    total: usize,
    fault: FeedFault,
    bytes: &[u8],
) -> Result<(Task, &[u8]), FeedFault>
    requires { length bytes.now ≤ total }
    ensures exact { GivesUnless Memory (λ x. (x.0, x.1.now)) result (spec.block_at total fault bytes.now) }
    ensures rest { IfOk result (λ x. length x.1.now ≤ length bytes.now) }
{
    let (id, rest) = id_at(total, bytes)?;
    let (parent, rest) = id_at(total, rest)?;
    let (tops, rest) = tops_at(alloc, total, fault, &id, rest)?;
    let (bag, rest) = bag_at(alloc, total, rest)?;
    let tops = BlockIds::from(tops);
    let bag = Bytes::from(bag);
    Ok((
        Task::Block {
            id,
            parent,
            tops,
            bag,
        },
        rest,
    ))
}

#[tactic(auto, unfolding(crate::specs::FeedReading::expire_at))]
fn expire_at(total: usize, bytes: &[u8]) -> Result<(Task, &[u8]), FeedFault>
    ensures exact { GivesUnless Memory (λ x. (x.0, x.1.now)) result (spec.expire_at total bytes.now) }
    ensures rest { IfOk result (λ x. length x.1.now ≤ length bytes.now) }
{
    let (id, rest) = id_at(total, bytes)?;
    Ok((Task::Expire { id }, rest))
}

#[tactic(auto, unfolding(crate::specs::FeedReading::read_at))]
fn read_at(
    alloc: Global,
    total: usize,
    fault: FeedFault,
    bytes: &[u8],
) -> Result<(Task, &[u8]), FeedFault>
    requires { length bytes.now ≤ total }
    ensures exact { GivesUnless Memory (λ x. (x.0, x.1.now)) result (spec.read_at total fault bytes.now) }
    ensures rest { IfOk result (λ x. length x.1.now ≤ length bytes.now) }
{
    let (id, rest) = id_at(total, bytes)?;
    let (path, rest) = path_at(alloc, total, fault, rest)?;
    let path = Bytes::from(path);
    Ok((Task::Read { id, path }, rest))
}

#[tactic(auto, unfolding(crate::specs::FeedReading::slice_at))]
fn slice_at(total: usize, fault: FeedFault, bytes: &[u8]) -> Result<(Task, &[u8]), FeedFault>
    ensures exact { GivesUnless Memory (λ x. (x.0, x.1.now)) result (spec.slice_at total fault bytes.now) }
    ensures rest { IfOk result (λ x. length x.1.now ≤ length bytes.now) }
{
    let (id, rest) = id_at(total, bytes)?;
    let (max, rest) = max_at(total, fault, rest)?;
    Ok((Task::Slice { id, max }, rest))
}

#[tactic(auto, unfolding(crate::specs::FeedReading::serve_at))]
fn serve_at(total: usize, fault: FeedFault, bytes: &[u8]) -> Result<(Task, &[u8]), FeedFault>
    ensures exact { GivesUnless Memory (λ x. (x.0, x.1.now)) result (spec.serve_at total fault bytes.now) }
    ensures rest { IfOk result (λ x. length x.1.now ≤ length bytes.now) }
{
    let (id, rest) = id_at(total, bytes)?;
    let (max, rest) = max_at(total, fault, rest)?;
    Ok((Task::Serve { id, max }, rest))
}

#[tactic(auto, unfolding(crate::specs::FeedReading::merged_at))]
fn merged_at(
    alloc: Global,
    total: usize,
    fault: FeedFault,
    bytes: &[u8],
) -> Result<(Task, &[u8]), FeedFault>
    requires { length bytes.now ≤ total }
    ensures exact { GivesUnless Memory (λ x. (x.0, x.1.now)) result (spec.merged_at total fault bytes.now) }
    ensures rest { IfOk result (λ x. length x.1.now ≤ length bytes.now) }
{
    let (id, rest) = id_at(total, bytes)?;
    let (left, rest) = id_at(total, rest)?;
    let (right, rest) = id_at(total, rest)?;
    let (tops, rest) = tops_at(alloc, total, fault, &id, rest)?;
    let (bag, rest) = bag_at(alloc, total, rest)?;
    let tops = BlockIds::from(tops);
    let bag = Bytes::from(bag);
    Ok((
        Task::Merged {
            id,
            left,
            right,
            tops,
            bag,
        },
        rest,
    ))
}

/// The fields of a task, behind its kind byte.
#[tactic(auto, unfolding(crate::specs::FeedReading::fields_at))]
fn fields_at(
    alloc: Global,
    total: usize,
    fault: FeedFault,
    kind: u8,
    bytes: &[u8],
) -> Result<(Task, &[u8]), FeedFault>
    requires { length bytes.now ≤ total }
    ensures exact { GivesUnless Memory (λ x. (x.0, x.1.now)) result (spec.fields_at total fault kind bytes.now) }
    ensures rest { IfOk result (λ x. length x.1.now ≤ length bytes.now) }
{
    match kind {
        ZERO => zero_at(alloc, total, fault, bytes),
        BLOCK => block_at(alloc, total, fault, bytes),
        EXPIRE => expire_at(total, bytes),
        READ => read_at(alloc, total, fault, bytes),
        SLICE => slice_at(total, fault, bytes),
        SERVE => serve_at(total, fault, bytes),
        MERGED => merged_at(alloc, total, fault, bytes),
        _ => Err(fault),
    }
}

/// A task, whether a Serve stood before its end, and the bytes behind it. A second Serve is at fault at its kind byte.
#[tactic(auto, unfolding(crate::specs::FeedReading::task_at))]
pub fn task_at(
    alloc: Global,
    total: usize,
    fault: FeedFault,
    served: bool,
    bytes: &[u8],
) -> Result<(Task, bool, &[u8]), FeedFault>
    requires { length bytes.now ≤ total }
    ensures exact { GivesUnless Memory (λ x. (x.0, record { served = x.1; bytes = x.2.now })) result
        (spec.task_at total fault (record { served = served; bytes = bytes.now })) }
    ensures rest { IfOk result (λ x. length x.2.now ≤ length bytes.now) }
{
    let (kind, rest) = byte_at(cut(total), bytes)?;
    let serves = kind == SERVE;
    if serves && served {
        return Err(fault);
    }
    match fields_at(alloc, total, fault, kind, rest) {
        Ok((task, rest)) => Ok((task, served || serves, rest)),
        Err(fault) => Err(fault),
    }
}
