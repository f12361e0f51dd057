ghost use Rattle.std.specs.Prelude.{◌≡◌, ℕ, Bool, true, Option, List, length, IfSome, IsOk, OnOk, OnErr};
ghost use Rattle.cd_base.specs.Counts.{HasCause};
ghost use Rattle.cd_base.specs.Told.{Got, GotPart};

use cd_base::Failed;

/// Takes a text piece by piece, in order.
pub trait SliceClient: Drop {
    /// The bytes got, where the object tells them.
    ghost got: { Self → Option (List ℕ) };

    /// How many faults there were. The count never falls, and stands still at the last u64.
    ghost faults: { Self → ℕ };

    /// It never fails. No call changes this.
    ghost steady: { Self → Bool };

    /// Takes the piece that stands at an offset, which is as many bytes as were got. A failed call is counted, and may
    /// have taken a prefix of the piece.
    fn take(&mut self, offset: u64, piece: &[u8]) -> Result<(), Failed>
        requires { IfSome (got self.old) (λ bytes. length bytes ≡ offset) }
        ensures ok { OnOk result (Got (got self.old) (got self.new) piece.now) }
        ensures part { OnErr result (GotPart (got self.old) (got self.new) piece.now) }
        ensures cause { HasCause (faults self.old) (faults self.new) result }
        ensures same { steady self.new ≡ steady self.old }
        ensures never { steady self.old ≡ true → IsOk result };

    /// The text is at its end. Whatever it answers, the bytes got stay as they are.
    fn ended(&mut self) -> Result<(), Failed>
        ensures kept { got self.new ≡ got self.old }
        ensures cause { HasCause (faults self.old) (faults self.new) result }
        ensures same { steady self.new ≡ steady self.old }
        ensures never { steady self.old ≡ true → IsOk result };
}
