ghost use Rattle.std.specs.Prelude.{◌≡◌};
ghost use Rattle.cd_fan.specs.Faults.{fan_fault};

use cd_event::LookFault;
use cd_slices::SliceFault;
use std::alloc::{AllocError, AllocFailed};
use thiserror::Error;

/// Why a text isn't served to its end.
#[derive(Clone, Copy, Debug, PartialEq, Eq, Error)]
pub enum FanFault {
    /// A look failed.
    #[error("{0}")]
    Look(LookFault),
    /// Memory ran out.
    #[error("out of memory")]
    Memory,
}

impl From<SliceFault> for FanFault {
    ghost from_gives = { λ fault given. given ≡ fan_fault fault };

    // A slice at an offset of the text, and of no more than a slice may have, is refused by a look or by memory alone.
    fn from(fault: SliceFault) -> FanFault {
        match fault {
            SliceFault::Look(fault) => FanFault::Look(fault),
            _ => FanFault::Memory,
        }
    }
}

impl From<AllocError> for FanFault {
    ghost use Rattle.std.specs.Prelude.{◌≡◌};
    ghost use Rattle.cd_fan.specs.declared.fan_fault.FanFault.{FanFault};

    ghost from_gives = { λ fault given. given ≡ FanFault.Memory };

    fn from(_fault: AllocError) -> FanFault {
        FanFault::Memory
    }
}

impl<T: Drop> From<AllocFailed<T>> for FanFault {
    ghost use Rattle.std.specs.Prelude.{◌≡◌};
    ghost use Rattle.cd_fan.specs.declared.fan_fault.FanFault.{FanFault};

    ghost from_gives = { λ fault given. given ≡ FanFault.Memory };

    fn from(_fault: AllocFailed<T>) -> FanFault {
        FanFault::Memory
    }
}
