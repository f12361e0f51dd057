use crate::names::OptionName;
use std::alloc::{AllocError, AllocFailed};
use thiserror::Error;

/// Why words were refused.
#[derive(Clone, Copy, Debug, PartialEq, Eq, Error)]
pub enum WordFault {
    /// The words are not a command with its options.
    #[error("the words are not a command with its options")]
    Usage,
    /// The value of this option is none that it may have: of the options so given, the first.
    #[error("the value of --{option} is none that it may have")]
    BadValue { option: OptionName },
    /// Memory ran out.
    #[error("out of memory")]
    Memory,
}

impl From<AllocError> for WordFault {
    ghost use Rattle.std.specs.Prelude.{◌≡◌};
    ghost use Rattle.cd_words.specs.declared.fault.WordFault.TheVariants.{Memory};

    ghost from_gives = { λ _ e. e ≡ Memory };

    fn from(_error: AllocError) -> WordFault {
        WordFault::Memory
    }
}

impl<T: Drop> From<AllocFailed<T>> for WordFault {
    ghost use Rattle.std.specs.Prelude.{◌≡◌};
    ghost use Rattle.cd_words.specs.declared.fault.WordFault.TheVariants.{Memory};

    ghost from_gives = { λ _ e. e ≡ Memory };

    fn from(_error: AllocFailed<T>) -> WordFault {
        WordFault::Memory
    }
}
