ghost use Rattle.std.specs.Prelude.{◌≡◌, ◌≤◌, length, true, false};
ghost use Rattle.cd_event.specs.Replies.{who_of, look_reply};
ghost use Rattle.cd_event.specs.Pins.{is_live};
ghost use Rattle.cd_event.specs.Turning.{is_keeper};
ghost use Rattle.cd_event.specs.Looks.{LooksUnder};

use cd_base::Hash256;
use cd_cell::Face;
use cd_event::{At, LookFault, LookUp, PinLook, Turns};

/// Looks twice for the same hashes, over any object.
pub fn twice<L: LookUp>(look: &mut L, hashes: &[Hash256]) -> Result<Vec<Option<Face>>, LookFault>
    requires few { length hashes.now ≤ 256 }
    requires ready { L.ready look.old }
    ensures went { is_keeper (look_reply result) ≡ false → L.goes look.old look.new }
    ensures failed { is_keeper (look_reply result) ≡ true → L.fails look.old look.new }
{
    let first = look.look(hashes)?;
    let then = look.look(hashes)?;
    Ok(then)
}

/// Looks twice under a pin.
pub fn look_twice<T: Turns>(
    turns: &mut T,
    at: At,
    pin: u64,
    hashes: &[Hash256],
) -> Result<Vec<Option<Face>>, LookFault>
    requires few { length hashes.now ≤ 256 }
    requires live { is_live pin (T.made turns.old) ≡ true }
    ensures { LooksUnder T.worker T.faults T.made T.goes T.named (is_keeper (look_reply result))
        (who_of at (T.worker turns.old)) pin turns.old turns.new }
{
    let mut look = PinLook::new(turns, at, pin);
    twice(&mut look, hashes)
}
