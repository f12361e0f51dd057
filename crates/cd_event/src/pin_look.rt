ghost use Rattle.std.specs.Prelude.{◌≡◌, true};
ghost use Rattle.cd_event.specs.Pins.{is_live};
ghost use Rattle.cd_event.specs.Turning.{counted};

use crate::faults::LookFault;
use crate::look_up::LookUp;
use crate::names::At;
use crate::turns::Turns;
use cd_base::Hash256;
use cd_cell::Face;

/// A worker's looks under one of its live pins.
#[derive(Drop)]
pub struct PinLook<'a, T: Turns> {
    turns: &'a mut T,
    at: At,
    pin: u64,
    asked: u64,
}

impl<'a, T: Turns> PinLook<'a, T> {
    /// The pin is a live one of the turns' worker.
    pub fn new(turns: &'a mut T, at: At, pin: u64) -> PinLook<'a, T>
        requires { is_live pin (T.made turns.old) ≡ true }
        ensures turns { result.turns ≡ turns.entry }
        ensures at { (result.at ≡ at) × (result.pin ≡ pin) × (result.asked ≡ 0) }
    {
        PinLook {
            turns,
            at,
            pin,
            asked: 0,
        }
    }
}

/// A count of hashes after some more. It stands still at the last u64.
fn counted(count: u64, more: usize) -> u64
    ensures { result ≡ counted count more }
{
    count.saturating_add(more as u64)
}

impl<'a, T: Turns> LookUp for PinLook<'a, T> {
    ghost use Rattle.std.specs.Prelude.{◌≡◌, true};
    ghost use Rattle.cd_event.specs.Replies.{who_of};
    ghost use Rattle.cd_event.specs.Pins.{is_live, state_of};
    ghost use Rattle.cd_event.specs.Looks.{LooksOn, LooksAndFails};
    ghost use mathlib.Core.Path.{refl, ◌∙◌};
    ghost use Rattle.cd_event.specs.LookLaws.{looks_stay, looks_further, looks_fail_later};

    type Hash = T::Hash;

    ghost tree = { λ p. state_of (T.named p.turns.now) p.pin };

    ghost asked = { λ p. p.asked };

    ghost faults = { λ p. T.faults p.turns.now };

    ghost ready = { λ p. is_live p.pin (T.made p.turns.now) ≡ true };

    ghost goes = { λ p q. (q.turns.ghost_name ≡ p.turns.ghost_name) × (q.at ≡ p.at) × (q.pin ≡ p.pin)
        × LooksOn T.worker T.faults T.made T.goes T.named (who_of p.at (T.worker p.turns.now)) p.pin
        p.turns.now q.turns.now p.asked q.asked };

    ghost fails = { λ p q. (q.turns.ghost_name ≡ p.turns.ghost_name) × (q.at ≡ p.at) × (q.pin ≡ p.pin)
        × LooksAndFails T.worker T.faults T.made T.goes T.named (who_of p.at (T.worker p.turns.now)) p.pin
        p.turns.now q.turns.now p.asked q.asked };

    fn look(&mut self, hashes: &[Hash256]) -> Result<Vec<Option<Face>>, LookFault> {
        match self.turns.look(self.at, self.pin, hashes) {
            Ok(found) => {
                self.asked = counted(self.asked, hashes.len());
                Ok(found)
            }
            Err(LookFault::Keeper) => {
                self.asked = counted(self.asked, hashes.len());
                Err(LookFault::Keeper)
            }
            Err(LookFault::Memory) => Err(LookFault::Memory),
            Err(LookFault::NoPin) => unreachable!(),
        }
    }

    ghost stays = { λ p. (
      refl,
      refl,
      refl,
      looks_stay T.worker T.faults T.made T.goes T.named T.stays
          (who_of p.at (T.worker p.turns.now)) p.pin p.turns.now p.asked,
    ) };

    ghost further = { λ p q r a b. (
      b.0 ∙ a.0,
      b.1 ∙ a.1,
      b.2 ∙ a.2,
      looks_further T.worker T.faults T.made T.goes T.named T.further p.at q.at p.pin q.pin
          p.turns.now q.turns.now r.turns.now p.asked q.asked r.asked a.1 a.2 a.3 b.3,
    ) };

    ghost fails_later = { λ p q r a b. (
      b.0 ∙ a.0,
      b.1 ∙ a.1,
      b.2 ∙ a.2,
      looks_fail_later T.worker T.faults T.made T.goes T.named T.further p.at q.at p.pin q.pin
          p.turns.now q.turns.now r.turns.now p.asked q.asked r.asked a.1 a.2 a.3 b.3,
    ) };
}
