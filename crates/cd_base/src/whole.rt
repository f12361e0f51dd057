ghost use Rattle.std.specs.Prelude.{◌≡◌, ◌≤◌, MatchResult, IfOk, IfErr, IsErrOf, length};
ghost use Rattle.cd_base.specs.Counts.{HasCause, Rose};
ghost use Rattle.cd_base.specs.Told.{Got, GotPart};
ghost use Rattle.cd_base.specs.Wholes.{IsReadWhole, IsReadStopped};

use crate::answers::Failed;
use crate::read_all_fault::ReadAllFault;
use crate::sink::Sink;
use crate::source::Source;
use std::alloc::Global;

/// How many bytes one call asks a source for at most: what a pipe holds.
const CHUNK: usize = 65536;

/// Reads all that a source has left, which may be `limit` bytes at most.
///
/// `Failed` comes where the source failed, and `Long` where `limit + 1` bytes came. After an error the bytes taken so far are gone from the source.
pub fn read_all<S: Source>(
    alloc: Global,
    source: &mut S,
    limit: u64,
) -> Result<Vec<u8>, ReadAllFault>
    ensures whole { IfOk result
        (λ bytes. IsReadWhole limit (S.left source.old) (S.left source.new) bytes.items) }
    ensures stopped { IfErr result (IsReadStopped limit (S.left source.old) (S.left source.new)) }
    // `Failed` comes only where the source's count rose; at any other answer the count is as it was.
    ensures failed { IsErrOf result ReadAllFault.Failed
        → Rose (S.faults source.old) (S.faults source.new) }
    ensures steady { ¬ IsErrOf result ReadAllFault.Failed → S.faults source.new
        ≡ S.faults source.old }
    ensures counted { S.faults source.old ≤ S.faults source.new }
{
    let mut bytes = Vec::new(alloc);
    let mut chunk = [0u8; CHUNK];
    let mut room = limit;
    loop {
        let most = room.min(CHUNK as u64 - 1) as usize + 1;
        let count = source.read(&mut chunk[..most])?;
        if count == 0 {
            return Ok(bytes);
        }
        if room < count as u64 {
            return Err(ReadAllFault::Long { limit });
        }
        if bytes.extend_from_slice(&chunk[..count]).is_err() {
            return Err(ReadAllFault::Memory);
        }
        room -= count as u64;
    }
}

/// Writes a piece whole. After `Failed` a prefix of it has gone out.
pub fn write_all<O: Sink>(sink: &mut O, piece: &[u8]) -> Result<(), Failed>
    ensures taken { MatchResult result (λ _. Got (O.taken sink.old) (O.taken sink.new) piece.now)
        (λ _. GotPart (O.taken sink.old) (O.taken sink.new) piece.now) }
    ensures cause { HasCause (O.faults sink.old) (O.faults sink.new) result }
{
    let mut sent = 0;
    while sent < piece.len() {
        sent += sink.write(&piece[sent..])?;
    }
    Ok(())
}
