ghost use Rattle.std.specs.Prelude.{◌≡◌, ℕ, ◌≤◌, ◌<◌, ◌^◌, length, IfOk};
ghost use Rattle.cd_base.specs.Reading.{Gives, GivesUnless, each_at};
ghost use Rattle.cd_feed.specs.declared.feed_fault.FeedFault.TheVariants.{Memory};
ghost use Rattle.cd_feed.specs.FeedReading as spec;

use crate::feed_fault::FeedFault;
use cd_base::{chunk_at, number_at, part_at};
use cd_block::BlockId;
use std::alloc::Global;

/// The bytes of an id.
const KEY_LEN: usize = 80;

/// The fault of a field that passes the end of so many bytes.
pub fn cut(total: usize) -> FeedFault
    ensures { result ≡ FeedFault.Cut total }
{
    FeedFault::Cut { at: total as u64 }
}

/// A number in so many bytes, from the least to the most that it may be; else the fault.
#[tactic(auto, unfolding(crate::specs::FeedReading::within_at))]
pub fn within_at(
    cut: FeedFault,
    fault: FeedFault,
    len: u8,
    least: u64,
    most: u64,
    bytes: &[u8],
) -> Result<(u64, &[u8]), FeedFault>
    requires { len ≤ 8 }
    ensures exact { Gives (λ x. (x.0, x.1.now)) result (spec.within_at cut fault len least most bytes.now) }
    ensures most { IfOk result (λ x. x.0 ≤ most) }
    ensures rest { IfOk result (λ x. length x.1.now ≤ length bytes.now) }
{
    let (number, rest) = number_at(cut, len, bytes)?;
    if number < least {
        return Err(fault);
    }
    if most < number {
        return Err(fault);
    }
    Ok((number, rest))
}

/// The same, where the fault is a limit passed at the field's place.
pub fn limited_at(
    total: usize,
    len: u8,
    least: u64,
    most: u64,
    bytes: &[u8],
) -> Result<(u64, &[u8]), FeedFault>
    requires len { len ≤ 8 }
    requires within { length bytes.now ≤ total }
    ensures exact { Gives (λ x. (x.0, x.1.now)) result (spec.limited_at total len least most bytes.now) }
    ensures most { IfOk result (λ x. x.0 ≤ most) }
    ensures rest { IfOk result (λ x. length x.1.now ≤ length bytes.now) }
{
    let at = (total - bytes.len()) as u64;
    within_at(cut(total), FeedFault::Limit { at }, len, least, most, bytes)
}

/// A key, as the id that it is of.
#[tactic(auto, unfolding(crate::specs::FeedReading::id_at))]
pub fn id_at(total: usize, bytes: &[u8]) -> Result<(BlockId, &[u8]), FeedFault>
    ensures exact { Gives (λ x. (x.0, x.1.now)) result (spec.id_at total bytes.now) }
    ensures rest { IfOk result (λ x. length x.1.now ≤ length bytes.now) }
{
    let (key, rest) = chunk_at::<KEY_LEN, _>(cut(total), bytes)?;
    Ok((BlockId::from_key(key), rest))
}

/// Room for so many values, as far as the bytes that are left can hold them: each takes at least so many.
pub fn room(count: u64, bytes: &[u8], least: usize) -> usize
    requires { 0 < least }
    ensures { result ≤ length bytes.now }
{
    let held = bytes.len() / least;
    if (held as u64) < count {
        held
    } else {
        count as usize
    }
}

/// So many ids one behind another.
fn ids_at(
    alloc: Global,
    total: usize,
    count: u64,
    bytes: &[u8],
) -> Result<(Vec<BlockId>, &[u8]), FeedFault>
    ensures exact { GivesUnless Memory (λ x. (x.0.items, x.1.now)) result (each_at (spec.id_at total) count bytes.now) }
    ensures rest { IfOk result (λ x. length x.1.now ≤ length bytes.now) }
{
    let mut ids = Vec::with_capacity(alloc, room(count, bytes, KEY_LEN))?;
    let mut rest = bytes;
    for _ in 0..count {
        let (id, after) = id_at(total, rest)?;
        ids.push(id)?;
        rest = after;
    }
    Ok((ids, rest))
}

/// The tops of a block, which only one of the masterchain may have.
#[tactic(auto, unfolding(crate::specs::FeedReading::tops_at))]
pub fn tops_at<'a>(
    alloc: Global,
    total: usize,
    fault: FeedFault,
    id: &BlockId,
    bytes: &'a [u8],
) -> Result<(Vec<BlockId>, &'a [u8]), FeedFault>
    requires { length bytes.now ≤ total }
    ensures exact { GivesUnless Memory (λ x. (x.0.items, x.1.now)) result (spec.tops_at total fault id.now bytes.now) }
    ensures rest { IfOk result (λ x. length x.1.now ≤ length bytes.now) }
{
    let (count, rest) = limited_at(total, 1, 0, 64, bytes)?;
    if 0 < count && !id.shard_id.is_master() {
        return Err(fault);
    }
    ids_at(alloc, total, count, rest)
}

/// The bytes of a bag, copied.
#[tactic(auto, unfolding(crate::specs::FeedReading::bag_at))]
pub fn bag_at(alloc: Global, total: usize, bytes: &[u8]) -> Result<(Vec<u8>, &[u8]), FeedFault>
    requires { length bytes.now ≤ total }
    ensures exact { GivesUnless Memory (λ x. (x.0.items, x.1.now)) result (spec.bag_at total bytes.now) }
    ensures rest { IfOk result (λ x. length x.1.now ≤ length bytes.now) }
{
    let (len, rest) = limited_at(total, 4, 0, 67_108_864, bytes)?;
    let (bag, rest) = part_at(cut(total), len as usize, rest)?;
    Ok((Vec::from_slice(alloc, bag)?, rest))
}

/// The steps of a path, each of which is a field.
#[tactic(auto, unfolding(crate::specs::FeedReading::path_at))]
pub fn path_at(
    alloc: Global,
    total: usize,
    fault: FeedFault,
    bytes: &[u8],
) -> Result<(Vec<u8>, &[u8]), FeedFault>
    requires { length bytes.now ≤ total }
    ensures exact { GivesUnless Memory (λ x. (x.0.items, x.1.now)) result (spec.path_at total fault bytes.now) }
    ensures rest { IfOk result (λ x. length x.1.now ≤ length bytes.now) }
{
    let (len, rest) = limited_at(total, 1, 0, 64, bytes)?;
    steps_at(alloc, total, fault, len, rest)
}

/// So many steps, each a place from 0 to 3.
fn steps_at(
    alloc: Global,
    total: usize,
    fault: FeedFault,
    count: u64,
    bytes: &[u8],
) -> Result<(Vec<u8>, &[u8]), FeedFault>
    ensures exact { GivesUnless Memory (λ x. (x.0.items, x.1.now)) result
        (each_at (spec.within_at (FeedFault.Cut total) fault 1 0 3) count bytes.now) }
    ensures rest { IfOk result (λ x. length x.1.now ≤ length bytes.now) }
{
    let mut steps = Vec::with_capacity(alloc, room(count, bytes, 1))?;
    let mut rest = bytes;
    for _ in 0..count {
        let (step, after) = within_at(cut(total), fault, 1, 0, 3, rest)?;
        steps.push(step as u8)?;
        rest = after;
    }
    Ok((steps, rest))
}

/// The greatest length of a slice.
#[tactic(auto, unfolding(crate::specs::FeedReading::max_at))]
pub fn max_at(total: usize, fault: FeedFault, bytes: &[u8]) -> Result<(u32, &[u8]), FeedFault>
    ensures exact { Gives (λ x. (x.0, x.1.now)) result (spec.max_at total fault bytes.now) }
    ensures rest { IfOk result (λ x. length x.1.now ≤ length bytes.now) }
{
    let (max, rest) = within_at(cut(total), fault, 4, 1, 2_097_152, bytes)?;
    Ok((max as u32, rest))
}
