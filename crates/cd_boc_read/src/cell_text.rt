ghost use Rattle.std.specs.Prelude.{◌≡◌, take};

use cd_cell::{Bits, Mask};

/// A cell as its text has it.
#[derive(Drop)]
pub(crate) struct CellText<'a> {
    pub exotic: bool,
    /// The mask that the first descriptor states.
    pub mask: Mask,
    /// The stored hashes and depths, if there are any.
    pub stored: Option<&'a [u8]>,
    pub bits: Bits,
    /// The numbers of the children, with zeros behind them.
    pub refs: [u32; 4],
    /// How many children there are, at most 4.
    pub count: u8,
}

impl CellText<'_> {
    /// The numbers of the children.
    pub fn children(&self) -> &[u32]
        ensures { result.now ≡ take self.now.count self.now.refs }
    {
        &self.refs[..usize::from(self.count).min(4)]
    }
}
