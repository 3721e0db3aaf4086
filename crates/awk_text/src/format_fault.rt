// Why a formatted text can't be had.

use std::alloc::{AllocError, AllocFailed};
use thiserror::Error;

/// Why a formatted text was refused.
#[derive(Clone, Copy, Debug, PartialEq, Eq, Error)]
pub enum FormatFault {
    /// F1.
    #[error("out of memory")]
    Memory,
    /// F3: a value's number is out of range.
    #[error("number out of range")]
    Range,
    /// F7: what is no directive, or a number that is no byte.
    #[error("format refused")]
    Format,
}

impl From<AllocError> for FormatFault {
    ghost use Rattle.std.specs.Prelude.{◌≡◌};
    ghost use Rattle.awk_text.specs.declared.format_fault.FormatFault.TheVariants.{Memory};

    ghost from_gives = { λ _ e. e ≡ Memory };

    fn from(_: AllocError) -> Self {
        FormatFault::Memory
    }
}

impl<T: Drop> From<AllocFailed<T>> for FormatFault {
    ghost use Rattle.std.specs.Prelude.{◌≡◌};
    ghost use Rattle.awk_text.specs.declared.format_fault.FormatFault.TheVariants.{Memory};

    ghost from_gives = { λ _ e. e ≡ Memory };

    fn from(_: AllocFailed<T>) -> Self {
        FormatFault::Memory
    }
}
