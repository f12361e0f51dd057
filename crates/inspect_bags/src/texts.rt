ghost use Rattle.std.specs.Prelude.{◌≡◌, ◌++◌, ℕ, List, OnOk, IfOk, string_bytes};
ghost use Rattle.inspect_lines.specs.Lines.{SaysOfLine};
ghost use Rattle.inspect_bags.specs.Texts.{SaysOf, SaysOfLines, ExportsOrSays, ShowsOrSays, ShowsRootsOfLines, lines_of_infos};

use crate::levels::{Levels, levels_of};
use crate::verdict::{export_of, verdict_of};
use cd_cell::{ChildInfo, Hash32};
use inspect_lines::{NOT_HEXADECIMAL, bytes_of_line, lines_of, push_line};
use std::alloc::{AllocError, Global};

/// The line of a line, which has a bag in hexadecimal.
fn push_verdict<H: Hash32>(alloc: Global, text: &mut String, line: &[u8]) -> Result<(), AllocError>
    ensures { OnOk result ((part : List ℕ) × SaysOfLine (SaysOf H.digest_of) line.now part
        × (string_bytes text.new ≡ string_bytes text.old ++ part)) }
{
    match bytes_of_line(alloc, line)? {
        Some(bytes) => push_line(text, &verdict_of::<H>(alloc, &bytes)?),
        None => push_line(text, &NOT_HEXADECIMAL),
    }
}

/// A line for each line of the input, which has a bag in hexadecimal.
pub fn lines_text<H: Hash32>(alloc: Global, input: &[u8]) -> Result<String, AllocError>
    ensures { IfOk result (λ text. SaysOfLines H.digest_of input.now (string_bytes text)) }
{
    let mut text = String::new(alloc);
    let lines = lines_of(alloc, input)?;
    for line in &lines {
        push_verdict::<H>(alloc, &mut text, line)?;
    }
    Ok(text)
}

/// The one line of the bag that the input is.
pub fn raw_text<H: Hash32>(alloc: Global, input: &[u8]) -> Result<String, AllocError>
    ensures { IfOk result (λ text. SaysOf H.digest_of input.now (string_bytes text)) }
{
    let mut text = String::new(alloc);
    push_line(&mut text, &verdict_of::<H>(alloc, input)?)?;
    Ok(text)
}

/// The export text of the bag that the input is in place of its line, where it has one root.
pub fn export_text<H: Hash32>(alloc: Global, input: &[u8]) -> Result<Vec<u8>, AllocError>
    ensures { IfOk result (λ text. ExportsOrSays H.digest_of input.now text.items) }
{
    match export_of::<H>(alloc, input)? {
        Ok(text) => Ok(text),
        Err(verdict) => {
            let mut text = String::new(alloc);
            push_line(&mut text, &verdict)?;
            Ok(text.into_bytes())
        }
    }
}

/// A line more for each of these infos of roots.
fn push_infos(text: &mut String, infos: &[ChildInfo]) -> Result<(), AllocError>
    ensures { OnOk result (string_bytes text.new ≡ string_bytes text.old ++ lines_of_infos infos.now) }
{
    for info in infos {
        push_line(text, &Levels(*info))?;
    }
    Ok(())
}

/// A line more for each root of a bag; where the bytes are none, its line.
fn push_levels<H: Hash32>(alloc: Global, text: &mut String, bytes: &[u8]) -> Result<(), AllocError>
    ensures { OnOk result ((part : List ℕ) × ShowsOrSays H.digest_of bytes.now part
        × (string_bytes text.new ≡ string_bytes text.old ++ part)) }
{
    match levels_of::<H>(alloc, bytes)? {
        Ok(infos) => push_infos(text, &infos),
        Err(verdict) => push_line(text, &verdict),
    }
}

/// The same of the bag that a line has in hexadecimal.
fn push_levels_of_line<H: Hash32>(
    alloc: Global,
    text: &mut String,
    line: &[u8],
) -> Result<(), AllocError>
    ensures { OnOk result ((part : List ℕ) × SaysOfLine (ShowsOrSays H.digest_of) line.now part
        × (string_bytes text.new ≡ string_bytes text.old ++ part)) }
{
    match bytes_of_line(alloc, line)? {
        Some(bytes) => push_levels::<H>(alloc, text, &bytes),
        None => push_line(text, &NOT_HEXADECIMAL),
    }
}

/// The lines of the roots of the bag that the input is.
pub fn raw_levels_text<H: Hash32>(alloc: Global, input: &[u8]) -> Result<String, AllocError>
    ensures { IfOk result (λ text. ShowsOrSays H.digest_of input.now (string_bytes text)) }
{
    let mut text = String::new(alloc);
    push_levels::<H>(alloc, &mut text, input)?;
    Ok(text)
}

/// The lines of the roots of each bag that a line of the input has in hexadecimal.
pub fn levels_text<H: Hash32>(alloc: Global, input: &[u8]) -> Result<String, AllocError>
    ensures { IfOk result (λ text. ShowsRootsOfLines H.digest_of input.now (string_bytes text)) }
{
    let mut text = String::new(alloc);
    let lines = lines_of(alloc, input)?;
    for line in &lines {
        push_levels_of_line::<H>(alloc, &mut text, line)?;
    }
    Ok(text)
}
