ghost use Rattle.std.specs.Prelude.{◌≡◌, ◌<◌, ◌≤◌, length, IfOk};
ghost use Rattle.cd_base.specs.Reading as spec;
ghost use Rattle.cd_base.specs.Reading.{Gives};

use crate::numbers::from_be;

/// So many bytes from the front, and those behind them. The fault, where there are fewer.
#[tactic(auto, unfolding(crate::specs::Reading::part_at))]
pub fn part_at<F: Copy>(fault: F, len: usize, bytes: &[u8]) -> Result<(&[u8], &[u8]), F>
    ensures exact { Gives (λ x. (x.0.now, x.1.now)) result (spec.part_at fault len bytes.now) }
    ensures len { IfOk result (λ x. length x.0.now ≡ len) }
    ensures rest { IfOk result (λ x. length x.1.now ≤ length bytes.now) }
{
    if bytes.len() < len {
        return Err(fault);
    }
    Ok((&bytes[..len], &bytes[len..]))
}

/// `part_at` where the number of bytes is known: they come as an array.
#[tactic(auto, unfolding(crate::specs::Reading::part_at))]
pub fn chunk_at<const N: usize, F: Copy>(fault: F, bytes: &[u8]) -> Result<(&[u8; N], &[u8]), F>
    ensures exact { Gives (λ x. (x.0.now, x.1.now)) result (spec.part_at fault N bytes.now) }
{
    bytes.split_first_chunk::<N>().ok_or(fault)
}

/// The first byte, and those behind it. The fault, where there is none.
#[tactic(auto, unfolding(crate::specs::Reading::byte_at))]
pub fn byte_at<F: Copy>(fault: F, bytes: &[u8]) -> Result<(u8, &[u8]), F>
    ensures exact { Gives (λ x. (x.0, x.1.now)) result (spec.byte_at fault bytes.now) }
    ensures small { IfOk result (λ x. x.0 < 256) }
    ensures rest { IfOk result (λ x. length x.1.now ≤ length bytes.now) }
{
    match bytes {
        [] => Err(fault),
        [byte, rest @ ..] => Ok((*byte, rest)),
    }
}

/// A number in so many bytes, the highest first, and the bytes behind it. The fault, where there are fewer.
#[tactic(auto, unfolding(crate::specs::Reading::number_at))]
pub fn number_at<F: Copy>(fault: F, len: u8, bytes: &[u8]) -> Result<(u64, &[u8]), F>
    requires { len ≤ 8 }
    ensures exact { Gives (λ x. (x.0, x.1.now)) result (spec.number_at fault len bytes.now) }
    ensures rest { IfOk result (λ x. length x.1.now ≤ length bytes.now) }
{
    let (part, rest) = part_at(fault, usize::from(len), bytes)?;
    Ok((from_be(part), rest))
}
