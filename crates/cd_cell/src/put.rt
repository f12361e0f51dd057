ghost use Rattle.std.specs.Prelude.{◌≡◌, ◌+◌, ◌≤◌, ◌++◌, length, take, drop};

/// Copies a piece to a place of the buffer.
pub fn put(buffer: &mut [u8], at: usize, piece: &[u8])
    requires { at + length piece.now ≤ length buffer.old }
    ensures { buffer.new ≡ take at buffer.old ++ piece.now ++ drop (at + length piece.now) buffer.old }
{
    buffer[at..at + piece.len()].copy_from_slice(piece);
}
