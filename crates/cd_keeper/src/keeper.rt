ghost use Rattle.std.specs.Prelude.{◌≡◌, ℕ, List, Option, IsTrue, IfSome, IfOk, OnOk, OnErr};
ghost use Rattle.std.specs.Option.{option_map};
ghost use Rattle.std.specs.FinMap as finite;
ghost use Rattle.cd_base.specs.Counts.{one_more};
ghost use Rattle.cd_keeper.specs.Contents.{Contents, next_entry, is_above};
ghost use Rattle.cd_keeper.specs.Keeping.{KeepsHeld, IsApplied, HasKeepCause};
ghost use Rattle.cd_keeper.specs.Shown.{entry_of, hash_bytes, desc_bytes};

use crate::batch::Batch;
use crate::fault::KeepFault;
use cd_base::Hash256;

/// Two tables of bytes that outlive the store: records of cells under their hashes, and descriptions of blocks under their keys. They change by whole batches.
pub trait Keeper: Drop {
    /// The two tables, where the keeper tells them.
    ghost held: { Self → Option Contents };

    /// The contents after each batch since the keeper was made, where it tells them.
    ghost trail: { Self → Option (List Contents) };

    /// How many batches were applied. The count stands still at the last u64, as those below do.
    ghost batches: { Self → ℕ };

    /// How many faults there were. The count never falls.
    ghost faults: { Self → ℕ };

    /// How many reading calls there were, which are all calls but `apply`.
    ghost reads: { Self → ℕ };

    /// The record under a hash, if there is one.
    fn get_cell(&mut self, key: &Hash256) -> Result<Option<Vec<u8>>, KeepFault>
        ensures value { IfOk result (λ found. IfSome (held self.old)
            (λ contents. option_map (λ record_bytes. record_bytes.items) found
            ≡ finite.get contents.cells key.now.0)) }
        ensures keeps { KeepsHeld held trail batches self.old self.new }
        ensures reads { reads self.new ≡ one_more (reads self.old) }
        ensures cause { HasKeepCause (faults self.old) (faults self.new) result };

    /// The record with the least hash above `after`, or with the least of all without a bound.
    fn next_cell(&mut self, after: Option<Hash256>) -> Result<Option<(Hash256, Vec<u8>)>, KeepFault>
        ensures value { IfOk result (λ found. IfSome (held self.old)
            (λ contents. option_map (entry_of hash_bytes) found
            ≡ next_entry contents.cells (option_map hash_bytes after))) }
        ensures above { IfOk result (λ found. IfSome found
            (λ entry. IsTrue (is_above (option_map hash_bytes after) entry.0.0))) }
        ensures keeps { KeepsHeld held trail batches self.old self.new }
        ensures reads { reads self.new ≡ one_more (reads self.old) }
        ensures cause { HasKeepCause (faults self.old) (faults self.new) result };

    /// The description under a key, if there is one.
    fn get_desc(&mut self, key: &[u8; 80]) -> Result<Option<Vec<u8>>, KeepFault>
        ensures value { IfOk result (λ found. IfSome (held self.old)
            (λ contents. option_map (λ description. description.items) found
            ≡ finite.get contents.descs key.now)) }
        ensures keeps { KeepsHeld held trail batches self.old self.new }
        ensures reads { reads self.new ≡ one_more (reads self.old) }
        ensures cause { HasKeepCause (faults self.old) (faults self.new) result };

    /// The description with the least key above `after`, or with the least of all without a bound.
    fn next_desc(
        &mut self,
        after: Option<[u8; 80]>,
    ) -> Result<Option<([u8; 80], Vec<u8>)>, KeepFault>
        ensures value { IfOk result (λ found. IfSome (held self.old)
            (λ contents. option_map (entry_of desc_bytes) found
            ≡ next_entry contents.descs after)) }
        ensures above { IfOk result (λ found. IfSome found
            (λ entry. IsTrue (is_above after entry.0))) }
        ensures keeps { KeepsHeld held trail batches self.old self.new }
        ensures reads { reads self.new ≡ one_more (reads self.old) }
        ensures cause { HasKeepCause (faults self.old) (faults self.new) result };

    /// Makes all puts and drops of a batch, or none. A drop of a key that isn't there does nothing.
    fn apply(&mut self, batch: &Batch) -> Result<(), KeepFault>
        ensures done { OnOk result (IsApplied held trail batches batch.now self.old self.new) }
        ensures undone { OnErr result (KeepsHeld held trail batches self.old self.new) }
        ensures reads { reads self.new ≡ reads self.old }
        ensures cause { HasKeepCause (faults self.old) (faults self.new) result };
}
