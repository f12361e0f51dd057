ghost use Rattle.std.specs.Prelude.{◌≡◌, ◌++◌, ℕ, List, IfOk, OnOk, IfSome, IfNone, map, string_bytes};
ghost use Rattle.inspect_lines.specs.Lines.{IsMadeOf, SaysOfLine, lines_in};
ghost use Rattle.inspect_updates.specs.OldStates.{state_of};
ghost use Rattle.inspect_updates.specs.UpdateTexts.{SaysNoState, SaysState, SaysOver, TellsUpdates};

use crate::old_state::{OldState, read_state};
use crate::update_verdict::update_verdict_of;
use cd_cell::Hash32;
use inspect_lines::{NOT_HEXADECIMAL, bytes_of_line, lines_of, push_line};
use std::alloc::{AllocError, Global};

/// The line of the state of a line, and the state; `None` where it has none.
pub fn read_state_line<H: Hash32>(
    alloc: Global,
    line: &[u8],
) -> Result<(String, Option<OldState<H>>), AllocError>
    ensures state { IfOk result (λ read. IfSome read.1
        (λ state. SaysState H.digest_of line.now (string_bytes read.0) state.whole)) }
    ensures none { IfOk result (λ read. IfNone read.1
        (SaysOfLine (SaysNoState H.digest_of) line.now (string_bytes read.0))) }
{
    let mut text = String::new(alloc);
    let Some(bytes) = bytes_of_line(alloc, line)? else {
        push_line(&mut text, &NOT_HEXADECIMAL)?;
        return Ok((text, None));
    };
    match read_state::<H>(alloc, &bytes)? {
        Ok(state) => {
            push_line(&mut text, &state.verdict())?;
            Ok((text, Some(state)))
        }
        Err(refusal) => {
            push_line(&mut text, &refusal)?;
            Ok((text, None))
        }
    }
}

/// The line of bytes, which are an update of a state.
fn push_verdict<H: Hash32>(
    alloc: Global,
    text: &mut String,
    state: &OldState<H>,
    bytes: &[u8],
) -> Result<(), AllocError>
    ensures { OnOk result ((part : List ℕ)
        × SaysOver H.digest_of (state_of H.digest_of state.now.whole) bytes.now part
        × (string_bytes text.new ≡ string_bytes text.old ++ part)) }
{
    let verdict = update_verdict_of(alloc, state, bytes)?;
    push_line(text, &verdict)
}

/// The line of a line, which has an update of a state.
fn push_update<H: Hash32>(
    alloc: Global,
    text: &mut String,
    state: &OldState<H>,
    line: &[u8],
) -> Result<(), AllocError>
    ensures { OnOk result ((part : List ℕ)
        × SaysOfLine (SaysOver H.digest_of (state_of H.digest_of state.now.whole)) line.now part
        × (string_bytes text.new ≡ string_bytes text.old ++ part)) }
{
    match bytes_of_line(alloc, line)? {
        Some(bytes) => push_verdict(alloc, text, state, &bytes),
        None => push_line(text, &NOT_HEXADECIMAL),
    }
}

/// A line for each of these lines, which have updates of a state.
fn push_updates<H: Hash32>(
    alloc: Global,
    text: &mut String,
    state: &OldState<H>,
    lines: &[&[u8]],
) -> Result<(), AllocError>
    ensures { OnOk result ((rest : List ℕ)
        × IsMadeOf (SaysOfLine (SaysOver H.digest_of (state_of H.digest_of state.now.whole)))
        (map (λ line. line.now) lines.now) rest
        × (string_bytes text.new ≡ string_bytes text.old ++ rest)) }
{
    for line in lines {
        push_update(alloc, text, state, line)?;
    }
    Ok(())
}

/// A line for the state in the first line of the input, and where it is one a line for each line behind it, which is
/// an update of that state.
pub fn updates_text<H: Hash32>(alloc: Global, input: &[u8]) -> Result<String, AllocError>
    ensures { IfOk result (λ text. TellsUpdates H.digest_of (lines_in input.now) (string_bytes text)) }
{
    let lines = lines_of(alloc, input)?;
    let [first, behind @ ..] = lines.as_slice() else {
        return Ok(String::new(alloc));
    };
    let (mut text, state) = read_state_line::<H>(alloc, first)?;
    if let Some(state) = state {
        push_updates(alloc, &mut text, &state, behind)?;
    }
    Ok(text)
}
