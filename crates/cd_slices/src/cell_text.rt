ghost use Rattle.std.specs.Prelude.{◌≡◌, ◌+◌, ◌*◌, ◌^◌, ◌<◌, ◌≤◌, length, take, All, IfOk};
ghost use Rattle.cd_cell.specs.GoodFace.{IsGoodFace};
ghost use Rattle.cd_boc_write.specs.CellTexts.{cell_text};
ghost use Rattle.cd_boc_write.specs.Exports.{text_of_face};
ghost use Rattle.cd_slices.specs.Windows.{filled};

use cd_boc_write::{WriteFault, put_cell};
use cd_cell::Face;
use std::alloc::Global;

/// The text of a cell, which was planned to be so long: a longer one is cut, and a shorter one filled with zeros.
pub fn planned_text(
    alloc: Global,
    face: &Face,
    refs: &[u32; 4],
    size: u8,
    len: usize,
) -> Result<Vec<u8>, WriteFault>
    requires good { IsGoodFace face.now }
    requires some_size { 1 ≤ size }
    requires most_size { size ≤ 4 }
    requires fits { All (λ number. number < 256 ^ size) refs.now }
    ensures { IfOk result (λ text. text.items
        ≡ filled len (cell_text size (text_of_face face.now (take (length face.now.kids) refs.now)))) }
{
    let mut text = Vec::with_capacity(alloc, len)?;
    put_cell(&mut text, face, &refs[..face.refs() as usize], size)?;
    text.resize(len, 0)?;
    Ok(text)
}
