ghost use Rattle.std.specs.Prelude.{◌≡◌, ◌++◌, ℕ, List, Some, IfOk, OnOk, map, string_bytes};
ghost use Rattle.inspect_lines.specs.Lines.{IsLineOf, IsMadeOf, SaysOfLine, lines_in};
ghost use Rattle.inspect_updates.specs.OldStates.{state_of};
ghost use Rattle.inspect_merged.specs.MergedTexts.{clash_text, SaysOverBoth, TellsRight, TellsMerged};

use crate::both::BothStates;
use crate::merged_verdict::merged_verdict_of;
use cd_base::Hash256;
use cd_cell::Hash32;
use inspect_lines::{NOT_HEXADECIMAL, bytes_of_line, lines_of, push_line};
use inspect_updates::{OldState, read_state_line};
use std::alloc::{AllocError, Global};
use std::fmt;

/// The hash of two different cells of two states, as it is printed.
#[derive(Clone, Copy)]
struct Clash(Hash256);

impl fmt::Display for Clash {
    ghost use Rattle.std.specs.Prelude.{Some};
    ghost use Rattle.inspect_merged.specs.MergedTexts.{clash_text};

    ghost output = { λ clash. Some (clash_text clash.0) };

    fn fmt<W: fmt::Write>(&self, f: &mut fmt::Formatter<W>) -> fmt::Result {
        write!(f, "Clash {{ hash: {} }}", self.0)
    }
}

/// The line of bytes, which are an update of the joined tree of two states.
fn push_verdict<H: Hash32>(
    alloc: Global,
    text: &mut String,
    both: &BothStates<H>,
    bytes: &[u8],
) -> Result<(), AllocError>
    ensures { OnOk result ((part : List ℕ)
        × SaysOverBoth H.digest_of (state_of H.digest_of both.now.left.whole)
        (state_of H.digest_of both.now.right.whole) bytes.now part
        × (string_bytes text.new ≡ string_bytes text.old ++ part)) }
{
    let verdict = merged_verdict_of(alloc, both, bytes)?;
    push_line(text, &verdict)
}

/// The line of a line, which has an update of the joined tree of two states.
fn push_update<H: Hash32>(
    alloc: Global,
    text: &mut String,
    both: &BothStates<H>,
    line: &[u8],
) -> Result<(), AllocError>
    ensures { OnOk result ((part : List ℕ)
        × SaysOfLine (SaysOverBoth H.digest_of (state_of H.digest_of both.now.left.whole)
        (state_of H.digest_of both.now.right.whole)) line.now part
        × (string_bytes text.new ≡ string_bytes text.old ++ part)) }
{
    match bytes_of_line(alloc, line)? {
        Some(bytes) => push_verdict(alloc, text, both, &bytes),
        None => push_line(text, &NOT_HEXADECIMAL),
    }
}

/// A line for each of these lines, which have updates of the joined tree of two states.
fn push_updates<H: Hash32>(
    alloc: Global,
    text: &mut String,
    both: &BothStates<H>,
    lines: &[&[u8]],
) -> Result<(), AllocError>
    ensures { OnOk result ((rest : List ℕ)
        × IsMadeOf (SaysOfLine (SaysOverBoth H.digest_of (state_of H.digest_of both.now.left.whole)
        (state_of H.digest_of both.now.right.whole))) (map (λ line. line.now) lines.now) rest
        × (string_bytes text.new ≡ string_bytes text.old ++ rest)) }
{
    for line in lines {
        push_update(alloc, text, both, line)?;
    }
    Ok(())
}

/// The line of two states that clash.
fn clash_line(alloc: Global, hash: Hash256) -> Result<String, AllocError>
    ensures { IfOk result (λ text. IsLineOf (Some (clash_text hash)) (string_bytes text)) }
{
    let mut text = String::new(alloc);
    push_line(&mut text, &Clash(hash))?;
    Ok(text)
}

/// A line for the right state in the first of these lines, and where it is one that doesn't clash with the left one, a
/// line for each line behind it.
fn right_text<H: Hash32>(
    alloc: Global,
    left: OldState<H>,
    lines: &[&[u8]],
) -> Result<String, AllocError>
    ensures { IfOk result (λ text. TellsRight H.digest_of left.whole
        (map (λ line. line.now) lines.now) (string_bytes text)) }
{
    let [second, behind @ ..] = lines else {
        return Ok(String::new(alloc));
    };
    let (mut text, right) = read_state_line::<H>(alloc, second)?;
    let Some(right) = right else {
        return Ok(text);
    };
    let both = match BothStates::of(left, right) {
        Ok(both) => both,
        Err(hash) => return clash_line(alloc, hash),
    };
    push_updates(alloc, &mut text, &both, behind)?;
    Ok(text)
}

/// A line for each of the states in the first two lines of the input, left and right, and where they are free of clashes
/// together a line for each line behind them, which is an update of their joined tree.
pub fn merged_text<H: Hash32>(alloc: Global, input: &[u8]) -> Result<String, AllocError>
    ensures { IfOk result (λ text. TellsMerged H.digest_of (lines_in input.now) (string_bytes text)) }
{
    let lines = lines_of(alloc, input)?;
    let [first, others @ ..] = lines.as_slice() else {
        return Ok(String::new(alloc));
    };
    let (mut text, left) = read_state_line::<H>(alloc, first)?;
    let Some(left) = left else {
        return Ok(text);
    };
    let right = right_text(alloc, left, others)?;
    text.push_str(&right)?;
    Ok(text)
}
