//! The answer of the command on a database file.

ghost use Rattle.inspect.specs.Ends.{HasSaid, IsWhyNotRead};
ghost use Rattle.std.specs.Prelude.{IfErr};

use crate::end::End;
use crate::limits::FILE_LIMIT;
use cd_base::{ReadAllFault, Sink, Source, read_all, write_all};
use cd_cell::Hash32;
use inspect_lines::push_line;
use inspect_store::verdict_of_files;
use std::alloc::{AllocError, Global};

/// Reads a database file, or its log, to its end.
pub fn read_file<S: Source>(alloc: Global, file: &mut S) -> Result<Vec<u8>, End>
    ensures { IfErr result (IsWhyNotRead S.Source file.old file.new) }
{
    match read_all(alloc, file, FILE_LIMIT) {
        Ok(bytes) => Ok(bytes),
        Err(ReadAllFault::Failed) => Err(End::ReadFault),
        Err(ReadAllFault::Long { .. }) => Err(End::FileLong),
        Err(ReadAllFault::Memory) => Err(End::Memory),
    }
}

/// The line of a database file and its log.
fn store_text<H: Hash32>(alloc: Global, file: &[u8], log: &[u8]) -> Result<String, AllocError> {
    let verdict = verdict_of_files::<H>(alloc, file, log)?;
    let mut text = String::new(alloc);
    push_line(&mut text, &verdict)?;
    Ok(text)
}

/// Writes what is said of a database file with this log.
pub fn answer_store<O: Sink, H: Hash32>(alloc: Global, file: &[u8], log: &[u8], out: &mut O) -> End
    ensures { HasSaid O.Sink out.old out.new result }
{
    match store_text::<H>(alloc, file, log) {
        Ok(text) => match write_all(out, text.as_bytes()) {
            Ok(()) => End::Done,
            Err(_) => End::WriteFault,
        },
        Err(_) => End::Memory,
    }
}
