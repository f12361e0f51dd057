ghost use Rattle.std.specs.Prelude.{◌≡◌, ◌==◌, map, IfOk, IfSome, IfNone, IsErr, Ok};
ghost use Rattle.std.specs.List.{join_with_byte, slice_split};
ghost use Rattle.std.specs.Io.BufRead.{strip_last};
ghost use Rattle.hex.specs.Hex.{decode_of};
ghost use Rattle.inspect_lines.specs.Lines.{lines_in};

use hex::FromHexError;
use std::alloc::{AllocError, Global};

/// The bytes that a line has in hexadecimal, unless memory runs out; `None` where it is no hexadecimal.
pub fn bytes_of_line(alloc: Global, line: &[u8]) -> Result<Option<Vec<u8>>, AllocError>
    ensures read { IfOk result (λ read. IfSome read (λ bytes. decode_of line.now ≡ Ok bytes.items)) }
    ensures not_hexadecimal { IfOk result (λ read. IfNone read (IsErr (decode_of line.now))) }
{
    match hex::decode(alloc, line) {
        Ok(bytes) => Ok(Some(bytes)),
        Err(FromHexError::OutOfMemory) => Err(AllocError),
        Err(_) => Ok(None),
    }
}

/// The input without the end of its last line.
fn body_of(input: &[u8]) -> &[u8]
    ensures { result.now ≡ strip_last 10 input.now }
{
    match input {
        [body @ .., b'\n'] => body,
        _ => input,
    }
}

/// The parts of bytes that are cut at each newline.
fn parts_of<'a>(alloc: Global, bytes: &'a [u8]) -> Result<Vec<&'a [u8]>, AllocError>
    ensures { IfOk result (λ parts. map (λ part. part.now) parts.items ≡ slice_split (λ b. b == 10) bytes.now) }
{
    bytes.split(|byte| *byte == b'\n').collect(alloc)
}

/// The lines of an input, of which the last may lack its end. No input has no lines.
pub fn lines_of<'a>(alloc: Global, input: &'a [u8]) -> Result<Vec<&'a [u8]>, AllocError>
    ensures cut { IfOk result (λ lines. map (λ line. line.now) lines.items ≡ lines_in input.now) }
    ensures joined { IfOk result (λ lines.
        join_with_byte 10 (map (λ line. line.now) lines.items) ≡ strip_last 10 input.now) }
{
    if input.is_empty() {
        return Ok(Vec::new(alloc));
    }
    parts_of(alloc, body_of(input))
}
