//! What the commands print.
ghost use Rattle.std.specs.Prelude.{◌≡◌, IfOk, length, string_bytes};
ghost use Rattle.cd_upkeep.specs.Texts.{totals_text, migrated_text};

use cd_base::Memory;
use cd_migrate::Migrated;
use cd_restart::Opened;
use std::alloc::Global;
use std::fmt::Write;

/// How much a store holds, in three lines.
#[tactic(auto, unfolding(crate::specs::Texts::totals_text))]
pub fn totals_text(alloc: Global, opened: &Opened) -> Result<String, Memory>
    ensures { IfOk result (λ text. string_bytes text
        ≡ totals_text (length opened.now.blocks) opened.now.cells opened.now.counts) }
{
    let blocks = opened.blocks.as_slice().len();
    let cells = opened.cells;
    let counts = opened.counts;
    let mut text = String::new(alloc);
    write!(text, "blocks {blocks}\ncells {cells}\ncounts {counts}\n")?;
    Ok(text)
}

/// What a migration went over, in two lines.
#[tactic(auto, unfolding(crate::specs::Texts::migrated_text))]
pub fn migrated_text(alloc: Global, done: &Migrated) -> Result<String, Memory>
    ensures { IfOk result (λ text. string_bytes text ≡ migrated_text done.now) }
{
    let Migrated { records, rewritten } = *done;
    let mut text = String::new(alloc);
    write!(text, "records {records}\nrewritten {rewritten}\n")?;
    Ok(text)
}
