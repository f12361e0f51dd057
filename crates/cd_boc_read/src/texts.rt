ghost use Rattle.std.specs.Prelude.{◌≡◌, ◌*◌, ◌%◌, ◌≤◌, ◌==◌, length, take, IfOk};
ghost use Rattle.std.specs.List.{list_all};
ghost use Rattle.cd_boc_read.specs.Grammar.{IsShape, stored_len};
ghost use Rattle.cd_boc_read.specs.Reading as spec;
ghost use Rattle.cd_base.specs.Reading.{Gives, GivesUnless};
ghost use Rattle.cd_boc_read.specs.declared.bag_fault.BagFault.TheVariants.{Memory};
ghost use Rattle.cd_boc_read.specs.Views.{text_view, text_views, parts_view};

use crate::bag_fault::BagFault;
use crate::cell_text::CellText;
use crate::fields::{parted, small};
use crate::frame_text::FrameText;
use cd_base::{from_be, part_at};
use cd_boc_write::Shape;
use cd_cell::{Bits, Mask};
use std::alloc::Global;

/// The bytes of stored hashes and depths, by the first descriptor.
fn stored_bytes(first: u8) -> usize
    ensures { result ≡ spec.stored_bytes first }
{
    if first / 16 % 2 != 1 {
        return 0;
    }
    let mask = first / 32;
    34 * (usize::from(mask % 2 + mask / 2 % 2 + mask / 4 % 2) + 1)
}

/// Whether the reference leads to a cell behind this one.
#[tactic(auto, unfolding(crate::specs::Reading::is_later))]
fn is_later(cells: u32, number: u32, reference: u32) -> bool
    ensures { result ≡ spec.is_later cells number reference }
{
    number < reference && reference < cells
}

/// Whether each reference leads to a cell behind this one.
fn are_later(cells: u32, number: u32, list: &[u32]) -> bool
    ensures { result ≡ list_all (spec.is_later cells number) list.now }
{
    list.iter()
        .all(|reference| is_later(cells, number, *reference))
}

/// Numbers that stand in bytes one behind another, at most four, with zeros behind them.
fn four(size: u8, count: u8, bytes: &[u8]) -> [u32; 4]
    requires size { size ≤ 4 }
    requires count { count ≤ 4 }
    ensures { take count result ≡ spec.numbers_in size count bytes.now }
{
    let size = usize::from(size);
    let (first, rest) = parted(bytes, size);
    let (second, rest) = parted(rest, size);
    let (third, rest) = parted(rest, size);
    let (fourth, _) = parted(rest, size);
    [small(first), small(second), small(third), small(fourth)]
}

/// What stands behind the descriptors of a text.
#[tactic(auto, unfolding(crate::specs::Reading::parts_at, crate::specs::Reading::numbers_at, crate::specs::Reading::text_of, crate::specs::Reading::is_completed))]
fn parts_at<'a>(
    fault: BagFault,
    size: u8,
    cells: u32,
    number: u32,
    first: u8,
    second: u8,
    bytes: &'a [u8],
) -> Result<(CellText<'a>, &'a [u8]), BagFault>
    requires size { size ≤ 4 }
    requires count { first % 8 ≤ 4 }
    ensures exact { Gives (λ x. (text_view x.0, x.1.now)) result
        (spec.parts_at fault size cells number first second bytes.now) }
    ensures rest { IfOk result (λ x. length x.1.now ≤ length bytes.now) }
{
    let count = first % 8;
    let (stored, rest) = part_at(fault, stored_bytes(first), bytes)?;
    let (held, rest) = part_at(fault, (usize::from(second) + 1) / 2, rest)?;
    let (list, rest) = part_at(fault, usize::from(count) * usize::from(size), rest)?;
    let Some(bits) = Bits::from_data(held, second % 2 == 0) else {
        return Err(BagFault::Completion { cell: number });
    };
    let refs = four(size, count, list);
    if !are_later(cells, number, &refs[..usize::from(count)]) {
        return Err(BagFault::Order { cell: number });
    }
    let mask = Mask::of(first / 32).unwrap();
    let stored = if first / 16 % 2 == 1 {
        Some(stored)
    } else {
        None
    };
    let text = CellText {
        exotic: first / 8 % 2 == 1,
        mask,
        stored,
        bits,
        refs,
        count,
    };
    Ok((text, rest))
}

/// The text of the cell with this number, and the bytes behind it; the fault is that of a text that passes the end.
#[tactic(auto, unfolding(crate::specs::Reading::text_at))]
fn text_at<'a>(
    fault: BagFault,
    size: u8,
    cells: u32,
    number: u32,
    bytes: &'a [u8],
) -> Result<(CellText<'a>, &'a [u8]), BagFault>
    requires size { size ≤ 4 }
    ensures exact { Gives (λ x. (text_view x.0, x.1.now)) result
        (spec.text_at fault size cells number bytes.now) }
    ensures rest { IfOk result (λ x. length x.1.now ≤ length bytes.now) }
{
    let [first, second, rest @ ..] = bytes else {
        return Err(fault);
    };
    if first % 8 > 4 {
        return Err(BagFault::Descriptor { cell: number });
    }
    parts_at(fault, size, cells, number, *first, *second, rest)
}

/// Whether what the index states first, if there is an index, is this end.
#[tactic(auto, unfolding(crate::specs::Reading::is_end))]
fn is_end(shape: &Shape, index: &[u8], end: u64) -> bool
    requires { IsShape shape.now }
    ensures { result ≡ spec.is_end shape.now index.now end }
{
    if !shape.has_index {
        return true;
    }
    let (entry, _) = parted(index, usize::from(shape.off_bytes));
    let entry = from_be(entry);
    if shape.has_cache_bits {
        return entry / 2 == end;
    }
    entry == end
}

/// The texts of all cells, which are all of the cell data.
pub(crate) fn texts_at<'a>(
    alloc: Global,
    frame: &FrameText<'a>,
) -> Result<Vec<CellText<'a>>, BagFault>
    requires { IsShape frame.now.shape }
    ensures { GivesUnless Memory (λ texts. text_views texts.items) result
        (spec.all_texts_at (parts_view frame.now)) }
{
    let stated = frame.cell_data.len() as u64;
    let most = frame.cell_data.len() / 2 + 1;
    let mut texts = Vec::with_capacity(alloc, most.min(frame.cells as usize))?;
    let mut index = frame.index;
    let mut rest = frame.cell_data;
    for number in 0..frame.cells {
        let used = stated - rest.len() as u64;
        let fault = BagFault::Length {
            stated,
            used,
            cell: number,
        };
        match text_at(fault, frame.shape.size, frame.cells, number, rest) {
            Err(fault) => return Err(fault),
            Ok((text, after)) => {
                if !is_end(&frame.shape, index, stated - after.len() as u64) {
                    return Err(BagFault::Index { cell: number });
                }
                if texts.push(text).is_err() {
                    return Err(BagFault::Memory);
                }
                (_, index) = parted(index, usize::from(frame.shape.off_bytes));
                rest = after;
            }
        }
    }
    if !rest.is_empty() {
        let used = stated - rest.len() as u64;
        return Err(BagFault::Length {
            stated,
            used,
            cell: frame.cells,
        });
    }
    Ok(texts)
}
