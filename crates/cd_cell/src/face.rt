ghost use Rattle.std.specs.Prelude.{◌≡◌, ◌↔◌, ◌≤◌, ◌<◌, [], ◌∷◌, ◌++◌, length, slice_get, IsSome};
ghost use Rattle.std.specs.Option.{option_copied};

use crate::{Bits, ChildInfo};
use std::marker::Model;

/// A cell without the cells below it: the exotic flag, the bits, and what each of at most four children
/// shows of itself. About 700 bytes. Contracts see the children as a list.
#[derive(Clone, Copy, Debug)]
pub struct Face {
    exotic: bool,
    bits: Bits,
    refs: u8,
    // The first `refs` are the children; behind them stands a filler, so that equal faces are equal values.
    kids: [ChildInfo; 4],
}

impl Model for Face {
    ghost use Rattle.std.specs.Prelude.{length, take};
    ghost use Rattle.cd_cell.specs.FaceView.{FaceView};
    ghost use Rattle.cd_cell.specs.FaceKids.{four_kids, AreKids};

    ghost Value = { FaceView };

    ghost view = { λ f. record { exotic = f.exotic; bits = f.bits; kids = take f.refs f.kids } };

    ghost invariant = { λ f. AreKids f.refs f.kids };

    ghost inverse = { λ f. record { exotic = f.exotic; bits = f.bits; refs = length f.kids; kids = four_kids f.kids } };
}

impl Face {
    /// A face of at most four children.
    pub fn new(exotic: bool, bits: Bits, kids: &[ChildInfo]) -> Face
        requires { length kids.now ≤ 4 }
        ensures { result ≡ record { exotic = exotic; bits = bits; kids = kids.now } }
    {
        let mut four = [ChildInfo::NONE; 4];
        four[..kids.len()].copy_from_slice(kids);
        Face {
            exotic,
            bits,
            refs: kids.len() as u8,
            kids: four,
        }
    }

    /// Gives the face this flag and these bits.
    pub fn set_data(&mut self, exotic: bool, bits: &Bits)
        ensures { self.new ≡ record { exotic = exotic; bits = bits.now; kids = self.old.kids } }
    {
        self.exotic = exotic;
        self.bits = *bits;
    }

    /// Puts a child behind the others.
    pub fn push(&mut self, kid: &ChildInfo)
        requires { length self.old.kids < 4 }
        ensures { self.new ≡ record self.old { kids = self.old.kids ++ kid.now ∷ [] } }
    {
        self.kids[self.refs as usize] = *kid;
        self.refs += 1;
    }

    /// Whether the cell is exotic.
    pub fn exotic(&self) -> bool
        ensures { result ≡ self.now.exotic }
    {
        self.exotic
    }

    /// The data bits.
    pub fn bits(&self) -> &Bits
        ensures { result.now ≡ self.now.bits }
    {
        &self.bits
    }

    /// The number of the children.
    pub fn refs(&self) -> u8
        ensures value { result ≡ length self.now.kids }
        ensures few { result ≤ 4 }
    {
        self.refs
    }

    /// What the children show of themselves.
    pub fn kids(&self) -> &[ChildInfo]
        ensures value { result.now ≡ self.now.kids }
        ensures few { length result.now ≤ 4 }
    {
        &self.kids[..self.refs as usize]
    }

    /// What the child in a place shows of itself; `None` where there is none.
    pub fn child(&self, place: u8) -> Option<&ChildInfo>
        ensures value { option_copied result ≡ slice_get self.now.kids place }
        ensures found { IsSome result ↔ (place < length self.now.kids) }
    {
        self.kids().get(place as usize)
    }
}

impl PartialEq for Face {
    ghost use Rattle.std.specs.Prelude.{◌≡◌, ◌↔◌, IsTrue};
    ghost use Rattle.std.specs.Cmp.{partial_equiv_from_equiv};
    ghost use Rattle.cd_cell.specs.Equality.{same_face, same_face-laws};

    ghost eq = { same_face };

    ghost laws = { partial_equiv_from_equiv same_face-laws };

    fn eq(&self, other: &Face) -> bool
        ensures test { result ≡ same_face self.now other.now }
        ensures value { IsTrue result ↔ (self.now ≡ other.now) }
    {
        self.exotic == other.exotic && self.bits == other.bits && self.kids() == other.kids()
    }
}

impl Eq for Face {
    ghost use Rattle.cd_cell.specs.Equality.{same_face-laws};

    ghost laws = { same_face-laws };
}
