use cd_base::{Hash256, Memory as NoMemory};
use cd_keeper::KeepFault;
use cd_record::RecordFault;
use std::alloc::{AllocError, AllocFailed};
use thiserror::Error;

/// Why what a keeper holds isn't a store. All keys are looked at for one refusal before the next one, in this order, and
/// the first key that has it is named.
#[derive(Clone, Copy, Debug, PartialEq, Eq, Error)]
pub enum ScanFault {
    /// The description under this key is none.
    #[error("a description is damaged")]
    Desc {
        key: [u8; 80],
    },
    /// The block can't have its parents, or is a zero state whose name has another root hash.
    #[error("a block's description does not fit its name")]
    Lineage {
        key: [u8; 80],
    },
    /// What stands under this hash is no record.
    #[error("the record of {hash} is damaged: {fault}")]
    Record {
        hash: Hash256,
        fault: RecordFault,
    },
    /// The record's cell has another hash.
    #[error("the record of {real} stands under {hash}")]
    WrongKey {
        hash: Hash256,
        real: Hash256,
    },
    /// No record stands under the hash of this child of a stored cell; it is the first such child.
    #[error("the child {child} of {parent} is missing")]
    Missing {
        parent: Hash256,
        child: Hash256,
    },
    /// The cell under the hash of this child shows something else than its parent says; it is the first such child.
    #[error("the child {child} of {parent} is another cell")]
    ChildInfo {
        parent: Hash256,
        child: Hash256,
    },
    /// No record of a cell of mask 0 stands under the root hash of a block's state.
    #[error("the root {root} of a block is missing")]
    RootMissing {
        key: [u8; 80],
        root: Hash256,
    },
    /// The state's depth isn't the one that its description states.
    #[error("a state of depth {real} is described as one of depth {stated}")]
    RootDepth {
        key: [u8; 80],
        stated: u16,
        real: u16,
    },
    /// The stored count isn't the number of the blocks of which the cell is the root and of its places in stored cells.
    #[error("the count of {hash} is {stored}, and {counted} were counted")]
    Count {
        hash: Hash256,
        stored: u64,
        counted: u64,
    },
    /// The keeper failed, and its count of faults rose in the call.
    #[error("the keeper failed")]
    Keeper,
    /// Memory ran out.
    #[error("out of memory")]
    Memory,
}

impl From<NoMemory> for ScanFault {
    ghost use Rattle.std.specs.Prelude.{◌≡◌};
    ghost use Rattle.cd_restart.specs.declared.scan_fault.ScanFault.TheVariants.{Memory};

    ghost from_gives = { λ _ fault. fault ≡ Memory };

    fn from(_error: NoMemory) -> ScanFault {
        ScanFault::Memory
    }
}

impl From<AllocError> for ScanFault {
    ghost use Rattle.std.specs.Prelude.{◌≡◌};
    ghost use Rattle.cd_restart.specs.declared.scan_fault.ScanFault.TheVariants.{Memory};

    ghost from_gives = { λ _ fault. fault ≡ Memory };

    fn from(_error: AllocError) -> ScanFault {
        ScanFault::Memory
    }
}

impl<T: Drop> From<AllocFailed<T>> for ScanFault {
    ghost use Rattle.std.specs.Prelude.{◌≡◌};
    ghost use Rattle.cd_restart.specs.declared.scan_fault.ScanFault.TheVariants.{Memory};

    ghost from_gives = { λ _ fault. fault ≡ Memory };

    fn from(_error: AllocFailed<T>) -> ScanFault {
        ScanFault::Memory
    }
}

impl From<KeepFault> for ScanFault {
    ghost use Rattle.std.specs.Prelude.{◌≡◌};
    ghost use Rattle.cd_restart.specs.Answers.{of_keep};

    ghost from_gives = { λ given fault. fault ≡ of_keep given };

    fn from(fault: KeepFault) -> ScanFault {
        match fault {
            KeepFault::Failed => ScanFault::Keeper,
            KeepFault::Memory => ScanFault::Memory,
        }
    }
}
