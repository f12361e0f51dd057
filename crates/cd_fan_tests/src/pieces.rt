//! Slices, one behind the other.

use crate::ListedLook;
use cd_slices::Export;
use std::alloc::Global;
use std::test::Fail;

/// All slices of this size, one behind the other.
pub fn joined(
    alloc: Global,
    export: &Export,
    look: &mut ListedLook,
    size: u32,
) -> Result<Vec<u8>, Fail> {
    let mut text = Vec::new(alloc);
    for _ in 0..export.len() {
        let piece = export.slice(alloc, look, text.len() as u64, size)?;
        text.extend_from_slice(&piece)?;
    }
    Ok(text)
}
