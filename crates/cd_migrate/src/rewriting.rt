//! The records of a batch, gathered in the order of their hashes.

ghost use Rattle.std.specs.Prelude.{◌≡◌, ◌∷◌, ◌++◌, [], Option, Some, None, IfOk, IfSome, OnOk, OnErr, length, if◌then◌else◌};
ghost use Rattle.std.specs.Option.{option_map};
ghost use Rattle.std.specs.FinMap as finite;
ghost use Rattle.cd_base.specs.Numbers.{IsBytes};
ghost use Rattle.cd_keeper.specs.Contents.{is_above, next_entry, Contents};
ghost use Rattle.cd_keeper.specs.Keeping.{KeepsHeld, HasKeepCause};
ghost use Rattle.cd_keeper.specs.Shown.{hash_bytes};
ghost use Rattle.cd_world.specs.Image.{plain_record};
ghost use Rattle.cd_migrate.specs.Rewritten.{is_old_text};

use cd_base::Memory;
use cd_record::{decode, encode, version_of};
use std::alloc::Global;

/// The text in version 2 of a record in version 1; none where the bytes are no such record.
pub fn renewed(alloc: Global, bytes: &[u8]) -> Result<Option<Vec<u8>>, Memory>
    ensures { IfOk result (λ found. option_map (λ text. text.items) found
        ≡ (if is_old_text bytes.now then Some (plain_record bytes.now) else None)) }
{
    if version_of(bytes) != Some(1) {
        return Ok(None);
    }
    match decode(bytes) {
        Ok(record) => Ok(Some(encode(alloc, &record)?)),
        Err(_) => Ok(None),
    }
}
