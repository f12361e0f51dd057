ghost use Rattle.std.specs.Prelude.{◌≡◌, ℕ, ◌<◌, Option, List, take, length, IfOk, OnErr};
ghost use Rattle.std.specs.Io.{ReadsAtMost};
ghost use Rattle.cd_base.specs.Counts.{HasCause};
ghost use Rattle.cd_base.specs.Told.{Gave, IsAtEnd};

use crate::answers::Failed;

/// Bytes that come from the outside, as from a file, a terminal or memory.
pub trait Source {
    /// The bytes left, where the object tells them.
    ghost left: { Self → Option (List ℕ) };

    /// How many faults there were. The count never falls, and stands still at the last u64.
    ghost faults: { Self → ℕ };

    /// Moves at least one byte from the front of what is left to the front of `into`, and answers how many bytes it moved; 0 is the end of input. A failed call takes no byte, and is counted.
    fn read(&mut self, into: &mut [u8]) -> Result<usize, Failed>
        requires { 0 < length into.old }
        ensures bound { ReadsAtMost result into.new }
        ensures bytes { IfOk result
            (λ count. Gave (left self.old) (left self.new) (take count into.new)) }
        ensures end { IfOk result (λ count. count ≡ 0 → IsAtEnd (left self.new)) }
        ensures kept { OnErr result (left self.new ≡ left self.old) }
        ensures cause { HasCause (faults self.old) (faults self.new) result };
}
