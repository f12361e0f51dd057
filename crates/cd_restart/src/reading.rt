//! Reading what a keeper holds, in the order of the keys.

ghost use Rattle.std.specs.Prelude.{◌≡◌, ℕ, List, [], None, IfSome, IfOk, OnOk};
ghost use Rattle.std.specs.List.{AllByRecursion};
ghost use Rattle.std.specs.Option.{option_map};
ghost use Rattle.std.specs.FinMap as finite;
ghost use Rattle.cd_base.specs.declared.hash.Hash256.{Hash256};
ghost use Rattle.cd_base.specs.Numbers.{IsBytes};
ghost use Rattle.cd_cell.specs.Fit.{IsFaceFit};
ghost use Rattle.cd_keeper.specs.Keeping.{KeepsHeld};
ghost use Rattle.cd_keeper.specs.Shown.{hash_bytes};
ghost use Rattle.cd_restart.specs.Lists.{first_of};
ghost use Rattle.cd_restart.specs.Stored.{IsDescEntry, IsCellEntry, blocks_in, cells_in};
ghost use Rattle.cd_restart.specs.ScanFaults as faults;
ghost use Rattle.cd_restart.specs.Rows.{AreRowsOf, kid_references};
ghost use Rattle.cd_restart.specs.Walks.{IsNext, IsBlockAbove, IsCellNext, IsBlockNext};
ghost use Rattle.cd_restart.specs.Answers as answers;
ghost use Rattle.cd_restart.specs.Answers.{Answers, HasScanCause};

use crate::scan_fault::ScanFault;
use cd_base::Hash256;
use cd_block::{Descr, DescrFault, decode_descr};
use cd_keeper::Keeper;
use cd_record::{Record, decode};
use std::alloc::Global;

/// Tells a proof that bytes are bytes, and does nothing.
fn known(bytes: &[u8])
    ensures { IsBytes bytes.now }
{
    let _bytes = bytes;
}

/// The block with the least key above `after`.
pub fn next_block<K: Keeper>(
    alloc: Global,
    keeper: &mut K,
    after: Option<[u8; 80]>,
) -> Result<Option<Descr>, ScanFault>
    ensures next { IfSome (K.held keeper.old) (λ contents.
        IsNext faults.desc_fault IsBlockNext (finite.entries contents.descs) after result) }
    ensures above { IfOk result (λ found. IfSome found (IsBlockAbove after)) }
    ensures keeps { KeepsHeld K.held K.trail K.batches keeper.old keeper.new }
    ensures cause { HasScanCause (K.faults keeper.old) (K.faults keeper.new) result }
{
    let Some(found) = keeper.next_desc(after)? else {
        return Ok(None);
    };
    let key = found.0;
    let value = found.1;
    known(&key);
    known(value.as_slice());
    match decode_descr(alloc, &key, value.as_slice()) {
        Ok(block) => Ok(Some(block)),
        Err(fault) => Err(of_descr(&key, fault)),
    }
}

/// A fault of a description under its key.
fn of_descr(key: &[u8; 80], fault: DescrFault) -> ScanFault
    ensures { result ≡ answers.of_descr key.now fault }
{
    match fault {
        DescrFault::Memory => ScanFault::Memory,
        DescrFault::Version | DescrFault::Cut | DescrFault::Extra | DescrFault::Form => {
            let key = *key;
            ScanFault::Desc { key }
        }
    }
}

/// The cell with the least hash above `after`.
pub fn next_record<K: Keeper>(
    keeper: &mut K,
    after: Option<Hash256>,
) -> Result<Option<(Hash256, Record)>, ScanFault>
    ensures next { IfSome (K.held keeper.old) (λ contents.
        IsNext faults.record_fault IsCellNext (finite.entries contents.cells) (option_map hash_bytes after) result) }
    ensures fit { IfOk result (λ found. IfSome found (λ c. IsFaceFit c.1.face)) }
    ensures keeps { KeepsHeld K.held K.trail K.batches keeper.old keeper.new }
    ensures cause { HasScanCause (K.faults keeper.old) (K.faults keeper.new) result }
{
    let Some((hash, value)) = keeper.next_cell(after)? else {
        return Ok(None);
    };
    known(value.as_slice());
    match decode(value.as_slice()) {
        Ok(record) => Ok(Some((hash, record))),
        Err(fault) => Err(ScanFault::Record { hash, fault }),
    }
}
