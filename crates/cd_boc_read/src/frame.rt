ghost use Rattle.std.specs.Prelude.{◌≡◌, ◌+◌, ◌^◌, ◌<◌, ◌≤◌, ◌==◌, length, take, drop, IfOk};
ghost use Rattle.cd_boc_read.specs.Grammar.{IsShape};
ghost use Rattle.cd_boc_read.specs.Reading as spec;
ghost use Rattle.cd_base.specs.Reading.{Gives, GivesUnless};
ghost use Rattle.cd_boc_read.specs.declared.bag_fault.BagFault.TheVariants.{Memory};
ghost use Rattle.cd_boc_read.specs.Views.{parts_view};

use crate::bag_fault::BagFault;
use crate::counts::Counts;
use crate::fields::{numbers_in, small_at};
use crate::frame_text::FrameText;
use cd_base::{byte_at, crc32c, from_le, number_at, part_at};
use cd_boc_write::{HAS_CACHE_BITS, HAS_CRC, HAS_INDEX, Shape, ZERO_BITS};
use cd_cell::MOST_CELLS;
use std::alloc::Global;

/// Whether the two zero bits are zero, and cache bits come with an index alone.
#[tactic(auto, unfolding(crate::specs::Reading::are_flags))]
fn are_flags(flags: u8) -> bool
    ensures { result ≡ spec.are_flags flags }
{
    flags / ZERO_BITS % 4 == 0 && (flags / HAS_CACHE_BITS % 2 != 1 || flags / HAS_INDEX % 2 == 1)
}

#[tactic(auto, unfolding(crate::specs::Reading::are_sizes))]
fn are_sizes(size: u8, off_bytes: u8) -> bool
    ensures { result ≡ spec.are_sizes size off_bytes }
{
    1 <= size && size <= 4 && 1 <= off_bytes && off_bytes <= 8
}

#[tactic(auto, unfolding(crate::specs::Reading::shape_of))]
fn shape_of(flags: u8, off_bytes: u8) -> Shape
    ensures { result ≡ spec.shape_of flags off_bytes }
{
    Shape {
        size: flags % 8,
        off_bytes,
        has_index: flags / HAS_INDEX % 2 == 1,
        has_crc: flags / HAS_CRC % 2 == 1,
        has_cache_bits: flags / HAS_CACHE_BITS % 2 == 1,
    }
}

#[tactic(auto, unfolding(crate::specs::Reading::shape_at))]
fn shape_at(cut: BagFault, bytes: &[u8]) -> Result<(Shape, &[u8]), BagFault>
    ensures exact { Gives (λ x. (x.0, x.1.now)) result (spec.shape_at cut bytes.now) }
    ensures shape { IfOk result (λ x. IsShape x.0) }
    ensures rest { IfOk result (λ x. length x.1.now ≤ length bytes.now) }
{
    let (magic, rest) = small_at(cut, 4, bytes)?;
    if magic != 0xb5ee9c72 {
        return Err(BagFault::Magic { value: magic });
    }
    let (flags, rest) = byte_at(cut, rest)?;
    let (off_bytes, rest) = byte_at(cut, rest)?;
    if !are_flags(flags) {
        return Err(BagFault::Flags { value: flags });
    }
    let size = flags % 8;
    if !are_sizes(size, off_bytes) {
        return Err(BagFault::Sizes { size, off_bytes });
    }
    Ok((shape_of(flags, off_bytes), rest))
}

#[tactic(auto, unfolding(crate::specs::Reading::counts_at))]
fn counts_at<'a>(
    cut: BagFault,
    shape: &Shape,
    bytes: &'a [u8],
) -> Result<(Counts, &'a [u8]), BagFault>
    requires { IsShape shape.now }
    ensures exact { Gives (λ x. (x.0, x.1.now)) result (spec.counts_at cut shape.now bytes.now) }
    ensures few { IfOk result (λ x. x.0.cells ≤ MOST_CELLS) }
    ensures rooted { IfOk result (λ x. x.0.roots ≤ x.0.cells) }
    ensures rest { IfOk result (λ x. length x.1.now ≤ length bytes.now) }
{
    let (cells, rest) = small_at(cut, shape.size, bytes)?;
    let (roots, rest) = small_at(cut, shape.size, rest)?;
    let (absent, rest) = small_at(cut, shape.size, rest)?;
    let (total, rest) = number_at(cut, shape.off_bytes, rest)?;
    if roots < 1 {
        return Err(BagFault::Roots { roots, cells });
    }
    if roots > cells {
        return Err(BagFault::Roots { roots, cells });
    }
    if absent != 0 {
        return Err(BagFault::Absent { absent });
    }
    if cells > MOST_CELLS {
        return Err(BagFault::Limit { cells });
    }
    Ok((
        Counts {
            cells,
            roots,
            total,
        },
        rest,
    ))
}

/// Whether each root names a cell, and if not, which is the first that doesn't.
fn are_cells(cells: u32, numbers: &[u32]) -> Result<(), BagFault>
    requires { length numbers.now < 2 ^ 32 }
    ensures { Gives (λ _. tt) result (spec.are_cells cells 0 numbers.now) }
{
    for (place, number) in numbers.iter().enumerate() {
        if *number >= cells {
            return Err(BagFault::RootIndex { root: place as u32 });
        }
    }
    Ok(())
}

#[tactic(auto, unfolding(crate::specs::Reading::roots_at, crate::specs::Reading::numbers_at))]
fn roots_at<'a>(
    alloc: Global,
    cut: BagFault,
    size: u8,
    counts: &Counts,
    bytes: &'a [u8],
) -> Result<(Vec<u32>, &'a [u8]), BagFault>
    requires size { size ≤ 4 }
    requires few { counts.now.roots ≤ MOST_CELLS }
    ensures exact { GivesUnless Memory (λ x. (x.0.items, x.1.now)) result
        (spec.roots_at cut size counts.now bytes.now) }
    ensures rest { IfOk result (λ x. length x.1.now ≤ length bytes.now) }
{
    let len = counts.roots as usize * usize::from(size);
    let (part, rest) = part_at(cut, len, bytes)?;
    let roots = numbers_in(alloc, size, counts.roots, part)?;
    are_cells(counts.cells, &roots)?;
    Ok((roots, rest))
}

/// The bytes of the index.
fn index_len(shape: &Shape, cells: u32) -> usize
    requires shape { IsShape shape.now }
    requires few { cells ≤ MOST_CELLS }
    ensures { result ≡ spec.index_len shape.now cells }
{
    if shape.has_index {
        cells as usize * usize::from(shape.off_bytes)
    } else {
        0
    }
}

/// Behind the front stand its checksum, if there is to be one, and nothing else.
#[tactic(auto, unfolding(crate::specs::Reading::end_at))]
fn end_at(cut: BagFault, has_crc: bool, front: &[u8], bytes: &[u8]) -> Result<(), BagFault>
    requires { length front.now + length bytes.now < 2 ^ 64 }
    ensures { Gives (λ _. tt) result (spec.end_at cut has_crc front.now bytes.now) }
{
    if !has_crc {
        if !bytes.is_empty() {
            return Err(BagFault::Extra {
                at: front.len() as u64,
            });
        }
        return Ok(());
    }
    let (crc, rest) = part_at(cut, 4, bytes)?;
    if !rest.is_empty() {
        return Err(BagFault::Extra {
            at: front.len() as u64 + 4,
        });
    }
    let stated = from_le(crc) as u32;
    let real = crc32c(front);
    if stated != real {
        return Err(BagFault::Crc { stated, real });
    }
    Ok(())
}

/// All of a bag but what its cell data say.
#[tactic(auto, unfolding(crate::specs::Reading::frame_at))]
pub(crate) fn frame_at(alloc: Global, bytes: &[u8]) -> Result<FrameText<'_>, BagFault>
    ensures exact { GivesUnless Memory parts_view result (spec.frame_at bytes.now) }
    ensures shape { IfOk result (λ frame. IsShape frame.shape) }
{
    let cut = BagFault::Cut {
        at: bytes.len() as u64,
    };
    let (shape, rest) = shape_at(cut, bytes)?;
    let (counts, rest) = counts_at(cut, &shape, rest)?;
    let (roots, rest) = roots_at(alloc, cut, shape.size, &counts, rest)?;
    let (index, rest) = part_at(cut, index_len(&shape, counts.cells), rest)?;
    let (cell_data, rest) = part_at(cut, counts.total as usize, rest)?;
    let front = &bytes[..bytes.len() - rest.len()];
    end_at(cut, shape.has_crc, front, rest)?;
    Ok(FrameText {
        shape,
        cells: counts.cells,
        roots,
        index,
        cell_data,
    })
}
