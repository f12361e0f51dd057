//! The input is read to its end.
ghost use Rattle.std.specs.Prelude.{IfErr, IfOk};
ghost use Rattle.cd_command.specs.Reading.{IsInput, IsUnread};

use crate::limits::INPUT_LIMIT;
use crate::status::{InputFault, Status};
use cd_base::{ReadAllFault, Source, read_all};
use std::alloc::Global;

/// All bytes of the input, or the status of a call over one that isn't read to its end.
pub fn read_input<S: Source>(alloc: Global, input: &mut S) -> Result<Vec<u8>, Status>
    ensures read { IfOk result (λ bytes. IsInput S.Source bytes.items input.old input.new) }
    ensures unread { IfErr result (IsUnread S.Source input.old input.new) }
{
    match read_all(alloc, input, INPUT_LIMIT) {
        Ok(bytes) => Ok(bytes),
        Err(ReadAllFault::Failed) => Err(Status::ReadFault),
        Err(ReadAllFault::Long { limit }) => Err(Status::BadInput(InputFault::Long { limit })),
        Err(ReadAllFault::Memory) => Err(Status::Memory),
    }
}
