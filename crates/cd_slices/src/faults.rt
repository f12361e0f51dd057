ghost use Rattle.std.specs.Prelude.{◌≡◌};
ghost use Rattle.cd_slices.specs.Faults.{plan_fault, slice_fault};

use cd_base::Memory;
use cd_boc_write::WriteFault;
use cd_event::LookFault;
use std::alloc::{AllocError, AllocFailed};
use thiserror::Error;

/// Why no export is planned.
#[derive(Clone, Copy, Debug, PartialEq, Eq, Error)]
pub enum PlanFault {
    /// A bag has at most so many cells, and the state has more distinct ones.
    #[error("more than {limit} cells")]
    TooMany { limit: u64 },
    /// A look failed.
    #[error("{0}")]
    Look(LookFault),
    /// Memory ran out.
    #[error("out of memory")]
    Memory,
}

/// Why no slice is cut. Of several causes the first in this order is given.
#[derive(Clone, Copy, Debug, PartialEq, Eq, Error)]
pub enum SliceFault {
    /// The offset lies behind the end of the text.
    #[error("an offset of {offset} in a text of {len} bytes")]
    PastEnd { offset: u64, len: u64 },
    /// A slice of more bytes than one may have.
    #[error("a slice of {max} bytes")]
    SliceBig { max: u32 },
    /// A look failed.
    #[error("{0}")]
    Look(LookFault),
    /// Memory ran out.
    #[error("out of memory")]
    Memory,
}

// A look's fault as a plan's: want of memory is its own.
impl From<LookFault> for PlanFault {
    ghost from_gives = { λ fault given. given ≡ plan_fault fault };

    fn from(fault: LookFault) -> PlanFault {
        match fault {
            LookFault::Memory => PlanFault::Memory,
            fault => PlanFault::Look(fault),
        }
    }
}

impl From<Memory> for PlanFault {
    ghost use Rattle.std.specs.Prelude.{◌≡◌};
    ghost use Rattle.cd_slices.specs.declared.faults.PlanFault.{PlanFault};

    ghost from_gives = { λ fault given. given ≡ PlanFault.Memory };

    fn from(_fault: Memory) -> PlanFault {
        PlanFault::Memory
    }
}

impl From<AllocError> for PlanFault {
    ghost use Rattle.std.specs.Prelude.{◌≡◌};
    ghost use Rattle.cd_slices.specs.declared.faults.PlanFault.{PlanFault};

    ghost from_gives = { λ fault given. given ≡ PlanFault.Memory };

    fn from(_fault: AllocError) -> PlanFault {
        PlanFault::Memory
    }
}

impl<T: Drop> From<AllocFailed<T>> for PlanFault {
    ghost use Rattle.std.specs.Prelude.{◌≡◌};
    ghost use Rattle.cd_slices.specs.declared.faults.PlanFault.{PlanFault};

    ghost from_gives = { λ fault given. given ≡ PlanFault.Memory };

    fn from(_fault: AllocFailed<T>) -> PlanFault {
        PlanFault::Memory
    }
}

impl From<WriteFault> for PlanFault {
    ghost use Rattle.std.specs.Prelude.{◌≡◌};
    ghost use Rattle.cd_slices.specs.declared.faults.PlanFault.{PlanFault};

    ghost from_gives = { λ fault given. given ≡ PlanFault.Memory };

    fn from(_fault: WriteFault) -> PlanFault {
        PlanFault::Memory
    }
}

// A look's fault as a slice's: want of memory is its own.
impl From<LookFault> for SliceFault {
    ghost from_gives = { λ fault given. given ≡ slice_fault fault };

    fn from(fault: LookFault) -> SliceFault {
        match fault {
            LookFault::Memory => SliceFault::Memory,
            fault => SliceFault::Look(fault),
        }
    }
}

impl From<AllocError> for SliceFault {
    ghost use Rattle.std.specs.Prelude.{◌≡◌};
    ghost use Rattle.cd_slices.specs.declared.faults.SliceFault.{SliceFault};

    ghost from_gives = { λ fault given. given ≡ SliceFault.Memory };

    fn from(_fault: AllocError) -> SliceFault {
        SliceFault::Memory
    }
}

impl From<WriteFault> for SliceFault {
    ghost use Rattle.std.specs.Prelude.{◌≡◌};
    ghost use Rattle.cd_slices.specs.declared.faults.SliceFault.{SliceFault};

    ghost from_gives = { λ fault given. given ≡ SliceFault.Memory };

    fn from(_fault: WriteFault) -> SliceFault {
        SliceFault::Memory
    }
}
