//! A store that is stopped after a batch, and opened again.

use crate::scripts::{Held, Script, has_blocks, has_cells, play};
use cd_cell::WeakSum;
use cd_core::Core;
use cd_keeper::SteadyKeeper;
use cd_restart::open_core;
use std::alloc::Global;
use std::test::Fail;

/// Opens what a keeper holds, and gives the keeper that was settled.
fn settled(alloc: Global, keeper: SteadyKeeper) -> Result<SteadyKeeper, Fail> {
    let core: Core<SteadyKeeper, WeakSum> = match open_core(alloc, keeper, 9) {
        Ok(core) => core,
        Err(_) => return Err(Fail::from("the store isn't opened")),
    };
    let (keeper, _) = core.close();
    Ok(keeper)
}

/// Whether a script's store, stopped before its first batch and after each one, is opened with this in it.
pub(crate) fn opens_after_each_batch(
    alloc: Global,
    script: &Script,
    opened: &[Held],
) -> Result<bool, Fail> {
    let mut failed = 0;
    let keeper = play(alloc, script, Vec::new(alloc), &mut failed)?;
    let batches = keeper.inner.batches();
    if opened.len() as u64 != batches.saturating_add(1) {
        return Ok(false);
    }
    for (held, batch) in opened.iter().zip(0..=batches) {
        let stopped = keeper.inner.at(batch)?.ok_or("no such batch")?;
        let mut keeper = settled(alloc, stopped)?;
        if !has_cells(&mut keeper, held.0)? || !has_blocks(alloc, &mut keeper, held.1)? {
            return Ok(false);
        }
    }
    Ok(true)
}
