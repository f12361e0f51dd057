ghost use Rattle.std.specs.Prelude.{◌≡◌, ◌≢◌, ◌≤◌, ℕ, Option, length, IfOk, IfSome};
ghost use Rattle.cd_cell.specs.Tree.{Tree};
ghost use Rattle.cd_event.specs.Replies.{look_reply};
ghost use Rattle.cd_event.specs.Pins.{IsState};
ghost use Rattle.cd_event.specs.Turning.{AreFacesOf, AreGood, AskedAfter, HandsOn, RisesOnly, is_keeper};

use crate::faults::LookFault;
use cd_base::Hash256;
use cd_cell::{Face, Hash32};

/// Looks up the cells of one state by their hashes.
pub trait LookUp {
    type Hash: Hash32;

    /// The state, where it is told. No look changes it.
    ghost tree: { Self → Option Tree };

    /// How many hashes were asked. The count stands still at the last u64.
    ghost asked: { Self → ℕ };

    /// How often the keeper failed. The count stands still at the last u64.
    ghost faults: { Self → ℕ };

    /// It may be looked up in, as while its pin is live. Each look asks for this and keeps it.
    ghost ready: { Self → Type 0 };

    /// What lies between two states. Each look keeps it that isn't answered by `Keeper`.
    ghost goes: { Self → Self → Type 0 };

    /// What lies between a state and that after a look that was.
    ghost fails: { Self → Self → Type 0 };

    /// Beside each hash its cell's face, or None where it isn't held. `NoPin` never comes.
    fn look(&mut self, hashes: &[Hash256]) -> Result<Vec<Option<Face>>, LookFault>
        requires few { length hashes.now ≤ 256 }
        requires ready { ready self.old }
        ensures ready { ready self.new }
        ensures tree { tree self.new ≡ tree self.old }
        ensures state { IfSome (tree self.old) (IsState Self.Hash.digest_of) }
        ensures found { IfOk result (λ found. length found.items ≡ length hashes.now) }
        ensures good { IfOk result (λ found. AreGood found.items) }
        ensures faces { IfOk result (λ found.
            IfSome (tree self.old) (λ t. AreFacesOf Self.Hash.digest_of t hashes.now found.items)) }
        ensures asked { AskedAfter result (length hashes.now) (asked self.old) (asked self.new) }
        ensures hands_on { HandsOn goes fails (is_keeper (look_reply result)) self.old self.new }
        ensures no_pin { result ≢ Err LookFault.NoPin }
        ensures faults { RisesOnly (is_keeper (look_reply result)) (faults self.old) (faults self.new) };

    ghost stays: { (x : Self) → goes x x };

    ghost further: { (x y z : Self) → goes x y → goes y z → goes x z };

    ghost fails_later: { (x y z : Self) → goes x y → fails y z → fails x z };
}
