ghost use Rattle.std.specs.Prelude.{◌≡◌, ◌+◌, ◌*◌, ◌^◌, ◌<◌, ◌≤◌, ◌++◌, length, take, All, OnOk, OnErr};
ghost use Rattle.std.specs.Vec.{vec_len};
ghost use Rattle.cd_cell.specs.BitText.{byte_count};
ghost use Rattle.cd_cell.specs.GoodFace.{IsGoodFace};
ghost use Rattle.cd_boc_write.specs.CellTexts.{cell_text};
ghost use Rattle.cd_boc_write.specs.Exports.{text_of_face};

use crate::numbers::put_numbers;
use crate::write_fault::WriteFault;
use cd_cell::Face;
use std::alloc::AllocError;

/// Adds the text of a cell to a bag's cell data: the descriptors, the data, and the numbers of the children in `size`
/// bytes each (TVM documentation, "Cell serialization"). At want of memory nothing changes.
pub fn put_cell(out: &mut Vec<u8>, face: &Face, refs: &[u32], size: u8) -> Result<(), WriteFault>
    requires good { IsGoodFace face.now }
    requires some_size { 1 ≤ size }
    requires most_size { size ≤ 4 }
    requires counted { length refs.now ≡ length face.now.kids }
    requires fits { All (λ number. number < 256 ^ size) refs.now }
    ensures ok { OnOk result
        (out.new.items ≡ out.old.items ++ cell_text size (text_of_face face.now refs.now)) }
    ensures err { OnErr result (out.new.items ≡ out.old.items) }
{
    let start = out.len();
    if add_cell(out, face, refs, size).is_err() {
        out.truncate(start);
        return Err(WriteFault::Memory);
    }
    Ok(())
}

// Adds the text of a cell; at want of memory some of it.
fn add_cell(out: &mut Vec<u8>, face: &Face, refs: &[u32], size: u8) -> Result<(), AllocError>
    requires good { IsGoodFace face.now }
    requires size { size ≤ 4 }
    requires counted { length refs.now ≡ length face.now.kids }
    ensures ok { OnOk result
        (out.new.items ≡ out.old.items ++ cell_text size (text_of_face face.now refs.now)) }
    ensures err { OnErr result (take (vec_len out.old) out.new.items ≡ out.old.items) }
{
    out.extend_from_slice(&face.descriptors(face.mask()))?;
    out.extend_from_slice(face.bits().data())?;
    put_numbers(out, refs, size)
}

/// The bytes of a cell's text.
pub fn text_len(face: &Face, size: u8) -> u64
    requires { size ≤ 4 }
    ensures value { result ≡ 2 + byte_count (length face.now.bits) + size * length face.now.kids }
    ensures few { result ≤ 146 }
{
    2 + face.bits().data().len() as u64 + u64::from(size * face.refs())
}
