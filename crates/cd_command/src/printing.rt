ghost use Rattle.cd_command.specs.Printing.{PrintingEnds};

use crate::status::Status;
use cd_base::{Sink, write_all};

/// Writes a text that was made. After `WriteFault` a part of it may be out.
pub fn print<O: Sink>(out: &mut O, text: &[u8]) -> Status
    ensures { PrintingEnds O.Sink text.now out.old out.new result }
{
    match write_all(out, text) {
        Err(_) => Status::WriteFault,
        Ok(()) => Status::Ok,
    }
}
