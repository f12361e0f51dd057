ghost use Rattle.std.specs.Prelude.{◌≡◌, ◌+◌, ◌<◌, ◌≤◌, ◌++◌, [], ◌∷◌, List, length, slice_index, OnOk};
ghost use Rattle.cd_cell.specs.declared.new_cell.NewCell.{NewCell};
ghost use Rattle.cd_boc_write.specs.Exports.{export_text};
ghost use Rattle.cd_boc_write.specs.Layouts.{data_len, start_of, IsLayout};

use crate::numbers::{put_number, put_offsets};
use crate::shape::{HAS_CRC, HAS_INDEX};
use cd_cell::Listed;
use std::alloc::AllocError;

const CRC_LEN: u64 = 4;

/// Where the parts of an export text lie, and how its numbers are written.
#[derive(Drop)]
pub struct Layout {
    /// The bytes of a number of cells or of a cell's number: the fewest that do, 1 to 4.
    pub size: u8,
    /// The bytes of an offset in the cell data: the fewest that do, 1 to 8.
    pub off_bytes: u8,
    /// The bytes before the cell data.
    pub header_len: u64,
    /// Where the text of each cell ends, from the beginning of the cell data.
    pub ends: Listed<u64>,
    pub ghost laid_out: { IsLayout size off_bytes header_len ends },
}

impl Layout {
    ghost use Rattle.cd_boc_write.specs.LayoutOf.{IsLayoutOf, header_laid};

    /// The bytes of the whole text, with the checksum. Takes no memory.
    pub fn total(&self) -> u64
        ensures sum { result ≡ self.now.header_len + data_len self.now.ends + 4 }
        ensures text { (cells : List NewCell) → IsLayoutOf cells self.now
            → result ≡ length (export_text cells) }
    {
        self.header_len + self.data_len() + CRC_LEN
    }

    /// The bytes of the cell data. Takes no memory.
    pub fn data_len(&self) -> u64
        ensures { result ≡ data_len self.now.ends }
    {
        last_end(self.ends.as_slice())
    }

    /// The number of the cell in whose text an offset in the cell data lies, by a binary search. Takes no memory.
    pub fn cell_at(&self, offset: u64) -> u32
        requires { offset < data_len self.now.ends }
        ensures cell { result < length self.now.ends }
        ensures from { start_of self.now.ends result ≤ offset }
        ensures before { offset < slice_index self.now.ends result }
    {
        self.ends.as_slice().partition_point(|end| *end <= offset) as u32
    }

    // Adds all that stands before the cell data.
    pub(crate) fn put_header(&self, out: &mut Vec<u8>) -> Result<(), AllocError>
        ensures { OnOk result (out.new.items ≡ out.old.items ++ header_laid self.now) }
    {
        let flags = HAS_INDEX + HAS_CRC + self.size;
        let ends = self.ends.as_slice();
        out.extend_from_slice(&[0xb5, 0xee, 0x9c, 0x72, flags, self.off_bytes])?;
        put_number(out, ends.len() as u64, self.size)?;
        // One root, and no cell is absent.
        put_number(out, 1, self.size)?;
        put_number(out, 0, self.size)?;
        put_number(out, self.data_len(), self.off_bytes)?;
        // The root is the first cell.
        put_number(out, 0, self.size)?;
        put_offsets(out, ends, self.off_bytes)
    }
}

// The last end, which is the number of bytes of the cell data.
pub(crate) fn last_end(ends: &[u64]) -> u64
    ensures { result ≡ data_len ends.now }
{
    ends.last().copied().unwrap_or(0)
}
