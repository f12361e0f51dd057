ghost use Rattle.std.specs.Prelude.{◌≡◌, IfOk, IfSome};
ghost use Rattle.cd_keeper.specs.Keeping.{KeepsHeld};
ghost use Rattle.inspect_store.specs.StoreVerdicts.{IsTrueOfContents, IsOwnVerdict, HasVerdictCause};

use cd_cell::Hash32;
use cd_keeper::Keeper;
use cd_restart::{Opened, ScanFault, scan};
use std::alloc::{AllocError, Global};
use std::fmt;

/// What is said of a store.
#[derive(Drop)]
pub enum StoreVerdict {
    /// It is one, and holds this.
    Store(Opened),
    /// It is none: the first thing that is wrong with it.
    Refused(ScanFault),
    /// The database refused: it is none, it is damaged, or it hasn't the tables of a store.
    NoDatabase,
}

/// What is said of what a keeper holds, unless memory runs out. Nothing is written.
pub fn verdict_of<K: Keeper, H: Hash32>(
    alloc: Global,
    keeper: &mut K,
) -> Result<StoreVerdict, AllocError>
    ensures said { IfOk result (λ verdict. IfSome (K.held keeper.old)
        (λ contents. IsTrueOfContents H.digest_of contents verdict)) }
    ensures own { IfOk result IsOwnVerdict }
    ensures cause { IfOk result (HasVerdictCause (K.faults keeper.old) (K.faults keeper.new)) }
    ensures keeps { KeepsHeld K.held K.trail K.batches keeper.old keeper.new }
{
    match scan::<K, H>(alloc, keeper) {
        Ok(opened) => Ok(StoreVerdict::Store(opened)),
        Err(ScanFault::Memory) => Err(AllocError),
        Err(ScanFault::Keeper) => Ok(StoreVerdict::NoDatabase),
        Err(fault) => Ok(StoreVerdict::Refused(fault)),
    }
}

/// A description's key, as it is printed.
#[derive(Clone, Copy)]
struct Key([u8; 80]);

impl fmt::Display for Key {
    fn fmt<W: fmt::Write>(&self, f: &mut fmt::Formatter<W>) -> fmt::Result {
        for byte in &self.0 {
            write!(f, "{byte:02x}")?;
        }
        Ok(())
    }
}

/// A refusal of a block with its fields; keys and hashes are in hexadecimal.
fn write_block_fault<W: fmt::Write>(f: &mut fmt::Formatter<W>, fault: &ScanFault) -> fmt::Result {
    match fault {
        ScanFault::Desc { key } => write!(f, "Desc {{ key: {} }}", Key(*key)),
        ScanFault::Lineage { key } => write!(f, "Lineage {{ key: {} }}", Key(*key)),
        ScanFault::RootMissing { key, root } => {
            write!(f, "RootMissing {{ key: {}, root: {root} }}", Key(*key))
        }
        ScanFault::RootDepth { key, stated, real } => {
            write!(
                f,
                "RootDepth {{ key: {}, stated: {stated}, real: {real} }}",
                Key(*key)
            )
        }
        _ => write!(f, "{fault:?}"),
    }
}

/// A refusal with its fields.
fn write_fault<W: fmt::Write>(f: &mut fmt::Formatter<W>, fault: &ScanFault) -> fmt::Result {
    match fault {
        ScanFault::Record { hash, fault } => {
            write!(f, "Record {{ hash: {hash}, fault: {fault:?} }}")
        }
        ScanFault::WrongKey { hash, real } => write!(
            f,
            "WrongKey {{ hash: {hash}, real: {real} }}"
        ),
        ScanFault::Missing { parent, child } => {
            write!(f, "Missing {{ parent: {parent}, child: {child} }}")
        }
        ScanFault::ChildInfo { parent, child } => {
            write!(f, "ChildInfo {{ parent: {parent}, child: {child} }}")
        }
        ScanFault::Count {
            hash,
            stored,
            counted,
        } => write!(
            f,
            "Count {{ hash: {hash}, stored: {stored}, counted: {counted} }}"
        ),
        fault => write_block_fault(f, fault),
    }
}

impl fmt::Display for StoreVerdict {
    fn fmt<W: fmt::Write>(&self, f: &mut fmt::Formatter<W>) -> fmt::Result {
        match self {
            StoreVerdict::Store(opened) => write!(
                f,
                "ok blocks {} cells {} counts {}",
                opened.blocks.as_slice().len(),
                opened.cells,
                opened.counts
            ),
            StoreVerdict::Refused(fault) => write_fault(f, fault),
            StoreVerdict::NoDatabase => f.write_str("not a database of a store"),
        }
    }
}
