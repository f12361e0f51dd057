ghost use Rattle.std.specs.Prelude.{◌≡◌, ◌∷◌, []};
ghost use Rattle.cd_cell.specs.Fit.{IsFaceFit};
ghost use Rattle.cd_cell.specs.Levels.{mask_of_face, descriptor1, descriptor2};

use crate::face::Face;
use crate::kind::Kind;
use crate::levels::{kind_of, plain_mask};
use crate::mask::Mask;
use crate::pruned::pruned_mask;

impl Face {
    /// The mask of a cell that passes the check (TVM documentation, "Level mask").
    pub fn mask(&self) -> Mask
        requires { IsFaceFit self.now }
        ensures { result ≡ mask_of_face self.now }
    {
        match kind_of(self) {
            Some(Kind::Pruned) => pruned_mask(self),
            Some(kind) => plain_mask(self, kind),
            None => unreachable!(),
        }
    }

    /// The descriptors d1 and d2 of the cell under a mask (TVM documentation, "Standard cell representation").
    pub fn descriptors(&self, mask: Mask) -> [u8; 2]
        ensures { result ≡ descriptor1 self.now mask ∷ descriptor2 self.now.bits ∷ [] }
    {
        let flag = if self.exotic() { 8 } else { 0 };
        let len = self.bits().len();
        [
            self.refs() + flag + 32 * mask.byte(),
            (len / 8 + len.div_ceil(8)) as u8,
        ]
    }
}
