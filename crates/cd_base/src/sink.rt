ghost use Rattle.std.specs.Prelude.{◌≡◌, ℕ, ◌<◌, ◌≤◌, Option, List, take, length, IfOk, OnErr};
ghost use Rattle.cd_base.specs.Counts.{HasCause};
ghost use Rattle.cd_base.specs.Told.{Got};

use crate::answers::Failed;

/// Where bytes go, as to a file, a terminal or memory.
pub trait Sink {
    /// The bytes taken, where the object tells them.
    ghost taken: { Self → Option (List ℕ) };

    /// How many faults there were. The count never falls, and stands still at the last u64.
    ghost faults: { Self → ℕ };

    /// Takes a prefix of the piece, of at least one byte, and answers how many bytes it took. A failed call takes nothing, and is counted.
    fn write(&mut self, piece: &[u8]) -> Result<usize, Failed>
        requires { 0 < length piece.now }
        ensures some { IfOk result (λ count. 0 < count) }
        ensures bound { IfOk result (λ count. count ≤ length piece.now) }
        ensures bytes { IfOk result
            (λ count. Got (taken self.old) (taken self.new) (take count piece.now)) }
        ensures kept { OnErr result (taken self.new ≡ taken self.old) }
        ensures cause { HasCause (faults self.old) (faults self.new) result };
}
