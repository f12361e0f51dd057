ghost use Rattle.std.specs.Prelude.{◌≡◌, ◌↔◌, ℕ, ◌/◌, ◌≤◌, IfSome, IsSome, bit_or};
ghost use Rattle.cd_cell.specs.Masks.{lowest_bits, is_significant, bit_count, level_of_mask};

use std::marker::Model;

/// Which levels above 0 of a cell have a hash and a depth of their own: bit `l - 1` stands for level `l`
/// (TVM documentation, "Level mask"). Contracts see it as a number from 0 to 7.
#[derive(Clone, Copy, Debug, PartialEq, Eq)]
pub struct Mask(u8);

impl Model for Mask {
    ghost Value = { ℕ };

    ghost view = { λ m. m.0 };

    ghost invariant = { λ m. m.0 ≤ 7 };

    ghost inverse = { λ n. record { 0 = n } };
}

impl Mask {
    /// No level above 0.
    pub const NONE: Mask = Mask(0);

    /// The mask with this number; `None` where it is over 7.
    pub fn of(value: u8) -> Option<Mask>
        ensures found { IsSome result ↔ (value ≤ 7) }
        ensures value { IfSome result (λ mask. mask ≡ value) }
    {
        if value > 7 {
            return None;
        }
        Some(Mask(value))
    }

    /// The number, 0 to 7.
    pub fn byte(&self) -> u8
        ensures value { result ≡ self.now }
        ensures small { result ≤ 7 }
    {
        self.0
    }

    /// The greatest level that is significant, 0 to 3.
    pub fn level(&self) -> u8
        ensures value { result ≡ level_of_mask self.now }
        ensures small { result ≤ 3 }
    {
        match self.0 {
            0 => 0,
            1 => 1,
            2 | 3 => 2,
            _ => 3,
        }
    }

    /// The mask of the levels up to `l`.
    pub fn apply(&self, l: u8) -> Mask
        requires { l ≤ 3 }
        ensures { result ≡ lowest_bits self.now l }
    {
        Mask(self.0 % (1 << l))
    }

    /// Whether level `l` has a hash and a depth of its own. Level 0 always has.
    pub fn significant(&self, l: u8) -> bool
        requires { l ≤ 3 }
        ensures { result ≡ is_significant self.now l }
    {
        l == 0 || self.0 >> (l - 1) & 1 == 1
    }

    /// The number of levels above 0 that are significant.
    pub fn count(&self) -> u8
        ensures value { result ≡ bit_count self.now }
        ensures small { result ≤ 3 }
    {
        self.0.count_ones() as u8
    }

    /// The levels that are significant in one of the two.
    pub fn or(&self, other: Mask) -> Mask
        ensures { result ≡ bit_or self.now other }
    {
        Mask(self.0 | other.0)
    }

    /// Each level one lower, as a Merkle cell has them.
    pub fn shifted(&self) -> Mask
        ensures { result ≡ self.now / 2 }
    {
        Mask(self.0 >> 1)
    }
}
