ghost use Rattle.std.specs.Prelude.{◌≡◌, ◌≤◌, length, take, drop, IfOk};
ghost use Rattle.cd_base.specs.Numbers.{from_big};
ghost use Rattle.cd_base.specs.Reading as base;
ghost use Rattle.cd_base.specs.Reading.{Gives};
ghost use Rattle.cd_boc_read.specs.Reading as spec;

use crate::bag_fault::BagFault;
use cd_base::{from_be, part_at};
use std::alloc::{AllocError, Global};

/// The number whose at most four bytes these are, the highest first.
pub(crate) fn small(bytes: &[u8]) -> u32
    requires { length bytes.now ≤ 4 }
    ensures { result ≡ from_big bytes.now }
{
    from_be(bytes) as u32
}

/// A number of so many bytes, at most four, and the bytes behind it.
#[tactic(auto, unfolding(cd_base::specs::Reading::number_at))]
pub(crate) fn small_at(fault: BagFault, len: u8, bytes: &[u8]) -> Result<(u32, &[u8]), BagFault>
    requires { len ≤ 4 }
    ensures exact { Gives (λ x. (x.0, x.1.now)) result (base.number_at fault len bytes.now) }
    ensures rest { IfOk result (λ x. length x.1.now ≤ length bytes.now) }
{
    let (part, rest) = part_at(fault, usize::from(len), bytes)?;
    Ok((small(part), rest))
}

/// The first bytes, at most so many, and those behind them.
pub(crate) fn parted(bytes: &[u8], len: usize) -> (&[u8], &[u8])
    ensures front { result.0.now ≡ take len bytes.now }
    ensures rest { result.1.now ≡ drop len bytes.now }
    ensures short { length result.0.now ≤ len }
{
    if bytes.len() < len {
        return (bytes, &[]);
    }
    (&bytes[..len], &bytes[len..])
}

/// So many numbers that stand in bytes one behind another, each of `len` bytes.
pub(crate) fn numbers_in(
    alloc: Global,
    len: u8,
    count: u32,
    bytes: &[u8],
) -> Result<Vec<u32>, AllocError>
    requires { len ≤ 4 }
    ensures { IfOk result (λ numbers. numbers.items ≡ spec.numbers_in len count bytes.now) }
{
    let mut numbers = Vec::with_capacity(alloc, count as usize)?;
    let mut rest = bytes;
    for _ in 0..count {
        let (part, after) = parted(rest, usize::from(len));
        numbers.push(small(part))?;
        rest = after;
    }
    Ok(numbers)
}
