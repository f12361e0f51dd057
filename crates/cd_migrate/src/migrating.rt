//! Records of version 1 are rewritten, batch by batch.

ghost use Rattle.std.specs.Prelude.{◌≡◌, ◌+◌, ◌≤◌, ◌∷◌, [], None, Some, IsTrue, IfOk, IfSome, OnOk, OnErr, length, min};
ghost use Rattle.std.specs.Option.{option_map};
ghost use Rattle.std.specs.FinMap as finite;
ghost use Rattle.cd_base.specs.Counts.{one_more};
ghost use Rattle.cd_keeper.specs.Contents.{Contents, is_above};
ghost use Rattle.cd_keeper.specs.Keeping.{KeepsHeld, IsApplied};
ghost use Rattle.cd_world.specs.Walks.{above};
ghost use Rattle.cd_migrate.specs.Answers.{HasMigrateCause, IsSoFar};
ghost use Rattle.cd_migrate.specs.Rewritten.{AreMade, all_batches, migrated_of};
ghost use Rattle.cd_migrate.specs.Walking.{IsApart, IsUnderWay, IsPart, bound_of, only_puts};

use crate::limits::BATCH_RECORDS;
use crate::migrate_fault::MigrateFault;
use crate::migrated::Migrated;
use crate::rewriting::renewed;
use cd_base::Hash256;
use cd_keeper::{Batch, Keeper};
use std::alloc::Global;

/// What was gone over, and the records that the next batch puts.
#[derive(Drop)]
struct Migration {
    /// The hash that was met last.
    after: Option<Hash256>,
    batch: Batch,
    done: Migrated,
}

impl Migration {
    fn new(alloc: Global) -> Migration
        ensures { result ≡ record {
          after = None;
          batch = only_puts [];
          done = record { records = 0; rewritten = 0 };
        } }
    {
        Migration {
            after: None,
            batch: Batch::new(alloc),
            done: Migrated {
                records: 0,
                rewritten: 0,
            },
        }
    }

    /// Makes the batch, and begins the next one.
    fn write<K: Keeper>(&mut self, alloc: Global, keeper: &mut K) -> Result<(), MigrateFault>
        ensures done { OnOk result (IsApplied K.held K.trail K.batches self.old.batch keeper.old keeper.new) }
        ensures begun { OnOk result (self.new ≡ record self.old { batch = only_puts [] }) }
        ensures undone { OnErr result (KeepsHeld K.held K.trail K.batches keeper.old keeper.new) }
        ensures reads { K.reads keeper.new ≡ K.reads keeper.old }
        ensures cause { HasMigrateCause (K.faults keeper.old) (K.faults keeper.new) result }
    {
        keeper.apply(&self.batch)?;
        self.batch = Batch::new(alloc);
        Ok(())
    }

    /// Takes in the next record, and makes the batch where it is full.
    fn take_in<K: Keeper>(
        &mut self,
        alloc: Global,
        keeper: &mut K,
        hash: Hash256,
        bytes: &[u8],
    ) -> Result<(), MigrateFault>
        requires above { IsTrue (is_above (bound_of self.old) hash.0) }
        requires apart { IsApart self.old }
        ensures met { OnOk result (self.new.after ≡ Some hash) }
        ensures apart { OnOk result (IsApart self.new) }
        ensures way { (contents : Contents) (start : K)
            → IsUnderWay K.held K.trail K.batches contents start keeper.old self.old
            → above (bound_of self.old) (finite.entries contents.cells)
            ≡ (hash.0, bytes.now) ∷ above (Some hash.0) (finite.entries contents.cells)
            → OnOk result (IsUnderWay K.held K.trail K.batches contents start keeper.new self.new) }
        ensures part { (contents : Contents) (start : K)
            → IsUnderWay K.held K.trail K.batches contents start keeper.old self.old
            → OnErr result (IsPart K.held K.trail K.batches contents start keeper.new result) }
        ensures reads { K.reads keeper.new ≡ K.reads keeper.old }
        ensures cause { HasMigrateCause (K.faults keeper.old) (K.faults keeper.new) result }
    {
        self.after = Some(hash);
        self.done.records = self.done.records.saturating_add(1);
        let Some(text) = renewed(alloc, bytes)? else {
            return Ok(());
        };
        self.batch.put_cell(hash, text)?;
        self.done.rewritten = self.done.rewritten.saturating_add(1);
        if self.batch.put_cells().len() < BATCH_RECORDS {
            return Ok(());
        }
        self.write(alloc, keeper)
    }

    /// Makes the last batch, if records are left for it.
    fn finish<K: Keeper>(self, keeper: &mut K) -> Result<Migrated, MigrateFault>
        requires apart { IsApart self }
        ensures part { (contents : Contents) (start : K)
            → IsUnderWay K.held K.trail K.batches contents start keeper.old self
            → above (bound_of self) (finite.entries contents.cells) ≡ []
            → IsPart K.held K.trail K.batches contents start keeper.new result }
        ensures numbers { (contents : Contents) (start : K)
            → IsUnderWay K.held K.trail K.batches contents start keeper.old self
            → above (bound_of self) (finite.entries contents.cells) ≡ []
            → IfOk result (λ done. done ≡ migrated_of contents) }
        ensures reads { K.reads keeper.new ≡ K.reads keeper.old }
        ensures cause { HasMigrateCause (K.faults keeper.old) (K.faults keeper.new) result }
    {
        if self.batch.put_cells().is_empty() {
            return Ok(self.done);
        }
        keeper.apply(&self.batch)?;
        Ok(self.done)
    }
}

/// Rewrites the records of version 1 in version 2, in the order of their hashes, 4,096 in each batch and the rest in the
/// last one; with none it makes no batch. Reads each record once. After `Keeper` or want of memory the batches so far
/// stand, and a second call goes on from there. Bytes that are no record are counted and left.
pub fn migrate<K: Keeper>(alloc: Global, keeper: &mut K) -> Result<Migrated, MigrateFault>
    ensures part { IfSome (K.held keeper.old)
        (λ contents. IsPart K.held K.trail K.batches contents keeper.old keeper.new result) }
    ensures numbers { IfOk result (λ done. IfSome (K.held keeper.old)
        (λ contents. done ≡ migrated_of contents)) }
    ensures reads { IfSome (K.held keeper.old) (λ contents.
        K.reads keeper.new ≤ K.reads keeper.old + (length (finite.entries contents.cells) + 1)) }
    ensures cause { HasMigrateCause (K.faults keeper.old) (K.faults keeper.new) result }
{
    let mut migration = Migration::new(alloc);
    'reading: for _ in 0..u64::MAX {
        let Some((hash, bytes)) = keeper.next_cell(migration.after)? else {
            return migration.finish(keeper);
        };
        migration.take_in(alloc, keeper, hash, bytes.as_slice())?;
    }
    // No keeper has as many.
    Err(MigrateFault::Memory)
}
