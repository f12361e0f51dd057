ghost use Rattle.std.specs.Prelude.{◌≡◌, ◌+◌, ◌-◌, ◌^◌, ◌<◌, ◌≤◌, ◌++◌, ℕ, List, Ok, Err, Some, None, length, map, min, All, IfOk, IfSome, OnOk, slice_index};
ghost use Rattle.cd_base.specs.declared.hash.Hash256.{Hash256};
ghost use Rattle.cd_cell.specs.Tree.{Tree};
ghost use Rattle.cd_cell.specs.declared.new_cell.NewCell.{NewCell};
ghost use Rattle.cd_cell.specs.Export.{distinct_cells};
ghost use Rattle.cd_cell.specs.Listings.{listed_at, new_cell_of};
ghost use Rattle.cd_boc_write.specs.CellTexts.{cell_text};
ghost use Rattle.cd_boc_write.specs.Exports.{export_text, export_frame, text_of_cell, bag_of};
ghost use Rattle.cd_boc_write.specs.Layouts.{data_len, start_of};
ghost use Rattle.cd_event.specs.Turning.{AskedAfter, HandsOn, RisesOnly};
ghost use Rattle.cd_looks.specs.Answers.{AskedAtMost};
ghost use Rattle.cd_slices.specs.Faults.{IsLookFault, is_slice_failed, slice_refusal};
ghost use Rattle.cd_slices.specs.Windows.{part_of, window, window_len};

use crate::cell_text::planned_text;
use crate::faults::SliceFault;
use crate::windows::put_window;
use cd_base::Hash256;
use cd_boc_write::Layout;
use cd_event::LookUp;
use cd_looks::look_face;
use std::alloc::Global;

/// The bytes that a slice may have at most.
pub const MOST_SLICE: u32 = 2_097_152;

/// A cell of an export: its hash, and the numbers of its children, behind which stand zeros.
#[derive(Clone, Copy)]
pub struct PlannedCell {
    pub hash: Hash256,
    pub refs: [u32; 4],
}

/// The plan of an export text: all of it but the cells' own data, in at most 64 bytes a cell.
#[derive(Drop)]
pub struct Export {
    pub(crate) cells: Vec<PlannedCell>,
    pub(crate) layout: Layout,
    // All that stands before the cell data.
    pub(crate) head: Vec<u8>,
    // The bytes of the checksum, which end the text.
    pub(crate) crc: [u8; 4],
    ghost counted: { length cells.items ≡ length layout.ends },
    ghost headed: { length head.items ≡ layout.header_len },
    ghost numbered: { All (λ c. All (λ number. number < 256 ^ layout.size) c.refs) cells.items },
}

impl Export {
    ghost use Rattle.cd_slices.specs.Planned.{IsPlanOf, IsPlanOfTree, cells_met, text_len};

    /// The bytes of the whole text. Takes no memory.
    pub fn len(&self) -> u64
        ensures text { (cells : List NewCell) → IsPlanOf cells self.now → result ≡ length (export_text cells) }
        ensures tree { (H : List ℕ → Hash256) (t : Tree) → IsPlanOfTree H t self.now → result ≡ length (bag_of H t) }
        ensures value { result ≡ text_len self.now }
        ensures low { result < 2 ^ 34 }
    {
        self.layout.total()
    }

    /// The part of the text from an offset on: `max` bytes, or all that are left. It looks only at cells whose text the
    /// part meets, each once.
    pub fn slice<L: LookUp>(
        &self,
        alloc: Global,
        look: &mut L,
        offset: u64,
        max: u32,
    ) -> Result<Vec<u8>, SliceFault>
        requires { L.ready look.old }
        ensures ready { L.ready look.new }
        ensures told { L.tree look.new ≡ L.tree look.old }

        // What is cut, and when nothing is.
        ensures part { IfOk result (λ part. (t : Tree) → L.tree look.old ≡ Some t
            → IsPlanOfTree L.Hash.digest_of t self.now
            → part.items ≡ part_of (bag_of L.Hash.digest_of t) offset max) }
        ensures bytes { IfOk result (λ part. length part.items ≡ min max (text_len self.now - offset)) }
        ensures refused { IfSome (slice_refusal (text_len self.now) offset max) (λ fault. result ≡ Err fault) }
        ensures only_refused { slice_refusal (text_len self.now) offset max ≡ None → IsLookFault result }

        // What lies between two states of the look.
        ensures asked { AskedAtMost (cells_met self.now.layout offset (offset + max))
            (L.asked look.old) (L.asked look.new) }
        ensures hands_on { HandsOn L.goes L.fails (is_slice_failed result) look.old look.new }
        ensures faults { RisesOnly (is_slice_failed result) (L.faults look.old) (L.faults look.new) }
    {
        let len = self.len();
        if offset > len {
            return Err(SliceFault::PastEnd { offset, len });
        }
        if max > MOST_SLICE {
            return Err(SliceFault::SliceBig { max });
        }
        self.cut(alloc, look, offset, len.min(offset + u64::from(max)))
    }

    // The part of the text between two offsets.
    fn cut<L: LookUp>(
        &self,
        alloc: Global,
        look: &mut L,
        offset: u64,
        until: u64,
    ) -> Result<Vec<u8>, SliceFault>
        requires ready { L.ready look.old }
        requires ordered { offset ≤ until }
        requires within { until ≤ text_len self.now }
        ensures ready { L.ready look.new }
        ensures told { L.tree look.new ≡ L.tree look.old }
        ensures part { IfOk result (λ part. (t : Tree) → L.tree look.old ≡ Some t
            → IsPlanOfTree L.Hash.digest_of t self.now
            → part.items ≡ window 0 offset until (bag_of L.Hash.digest_of t)) }
        ensures bytes { IfOk result (λ part. length part.items ≡ until - offset) }
        ensures asked { AskedAtMost (cells_met self.now.layout offset until)
            (L.asked look.old) (L.asked look.new) }
        ensures hands_on { HandsOn L.goes L.fails (is_slice_failed result) look.old look.new }
        ensures no_refusal { IsLookFault result }
        ensures faults { RisesOnly (is_slice_failed result) (L.faults look.old) (L.faults look.new) }
    {
        let mut part = Vec::with_capacity(alloc, (until - offset) as usize)?;
        put_window(&mut part, &self.head, 0, offset, until)?;
        self.put_cells(alloc, look, &mut part, offset, until)?;
        let checksum_at = self.len() - 4;
        put_window(&mut part, &self.crc, checksum_at, offset, until)?;
        Ok(part)
    }

    // Adds what of the cells' texts lies between two offsets.
    fn put_cells<L: LookUp>(
        &self,
        alloc: Global,
        look: &mut L,
        part: &mut Vec<u8>,
        from: u64,
        until: u64,
    ) -> Result<(), SliceFault>
        requires ready { L.ready look.old }
        requires low { until < 2 ^ 34 }
        ensures ready { L.ready look.new }
        ensures told { L.tree look.new ≡ L.tree look.old }
        ensures part { OnOk result ((t : Tree) → L.tree look.old ≡ Some t → (cells : List NewCell)
            → cells ≡ map (new_cell_of L.Hash.digest_of) (distinct_cells L.Hash.digest_of t)
            → IsPlanOf cells self.now
            → part.new.items ≡ part.old.items
            ++ window self.now.layout.header_len from until (export_frame cells).cell_data) }
        ensures bytes { OnOk result (length part.new.items ≡ length part.old.items
            + window_len self.now.layout.header_len from until (data_len self.now.layout.ends)) }
        ensures asked { AskedAtMost (cells_met self.now.layout from until)
            (L.asked look.old) (L.asked look.new) }
        ensures hands_on { HandsOn L.goes L.fails (is_slice_failed result) look.old look.new }
        ensures no_refusal { IsLookFault result }
        ensures faults { RisesOnly (is_slice_failed result) (L.faults look.old) (L.faults look.new) }
    {
        let head = self.layout.header_len;
        let begin = from.saturating_sub(head);
        if begin >= self.layout.data_len() {
            return Ok(());
        }
        for number in self.layout.cell_at(begin) as usize..self.cells.len() {
            let start = head + self.start_of(number);
            if start >= until {
                break;
            }
            let text = self.text_of(alloc, look, number)?;
            put_window(part, &text, start, from, until)?;
        }
        Ok(())
    }

    // Where the text of a cell begins in the cell data.
    fn start_of(&self, number: usize) -> u64
        requires { number < length self.now.layout.ends }
        ensures { result ≡ start_of self.now.layout.ends number }
    {
        if number == 0 {
            return 0;
        }
        self.layout.ends.as_slice()[number - 1]
    }

    // The text of a cell, as long as it was planned.
    fn text_of<L: LookUp>(
        &self,
        alloc: Global,
        look: &mut L,
        number: usize,
    ) -> Result<Vec<u8>, SliceFault>
        requires ready { L.ready look.old }
        requires there { number < length self.now.layout.ends }
        ensures ready { L.ready look.new }
        ensures told { L.tree look.new ≡ L.tree look.old }
        ensures text { IfOk result (λ text. (t : Tree) → L.tree look.old ≡ Some t → (cells : List NewCell)
            → cells ≡ map (new_cell_of L.Hash.digest_of) (distinct_cells L.Hash.digest_of t)
            → IsPlanOf cells self.now
            → text.items ≡ cell_text self.now.layout.size (text_of_cell cells (listed_at cells number))) }
        ensures bytes { IfOk result (λ text. length text.items
            ≡ slice_index self.now.layout.ends number - start_of self.now.layout.ends number) }
        ensures asked { AskedAfter result 1 (L.asked look.old) (L.asked look.new) }
        ensures hands_on { HandsOn L.goes L.fails (is_slice_failed result) look.old look.new }
        ensures no_refusal { IsLookFault result }
        ensures faults { RisesOnly (is_slice_failed result) (L.faults look.old) (L.faults look.new) }
    {
        let cell = &self.cells[number];
        let len = self.layout.ends.as_slice()[number] - self.start_of(number);
        let face = look_face(look, &cell.hash)?;
        let text = planned_text(alloc, &face, &cell.refs, self.layout.size, len as usize)?;
        Ok(text)
    }
}
