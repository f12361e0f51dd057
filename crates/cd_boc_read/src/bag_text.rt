ghost use Rattle.cd_boc_read.specs.Reading as spec;
ghost use Rattle.cd_base.specs.Reading.{GivesUnless};
ghost use Rattle.cd_boc_read.specs.declared.bag_fault.BagFault.TheVariants.{Memory};
ghost use Rattle.cd_boc_read.specs.Views.{bag_view};

use crate::bag_fault::BagFault;
use crate::cell_text::CellText;
use crate::frame::frame_at;
use crate::frame_text::FrameText;
use crate::texts::texts_at;
use std::alloc::Global;

/// A bag as its text has it.
#[derive(Drop)]
pub(crate) struct BagText<'a> {
    pub frame: FrameText<'a>,
    pub texts: Vec<CellText<'a>>,
}

/// The frame and the texts of all cells.
#[tactic(auto, unfolding(crate::specs::Reading::bag_at))]
pub(crate) fn bag_at(alloc: Global, bytes: &[u8]) -> Result<BagText<'_>, BagFault>
    ensures { GivesUnless Memory bag_view result (spec.bag_at bytes.now) }
{
    let frame = frame_at(alloc, bytes)?;
    let texts = texts_at(alloc, &frame)?;
    Ok(BagText { frame, texts })
}
