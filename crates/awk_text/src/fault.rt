// Why a text can't be had.

use awk_ere::PatternFault;
use std::alloc::{AllocError, AllocFailed};
use thiserror::Error;

/// Why work on a text was refused.
#[derive(Clone, Copy, Debug, PartialEq, Eq, Error)]
pub enum TextFault {
    /// F1.
    #[error("out of memory")]
    Memory,
    /// F6: the text of a separator spells no ERE.
    #[error("pattern refused")]
    Pattern,
}

impl From<AllocError> for TextFault {
    ghost use Rattle.std.specs.Prelude.{◌≡◌};
    ghost use Rattle.awk_text.specs.declared.fault.TextFault.TheVariants.{Memory};

    ghost from_gives = { λ _ e. e ≡ Memory };

    fn from(_: AllocError) -> Self {
        TextFault::Memory
    }
}

impl<T: Drop> From<AllocFailed<T>> for TextFault {
    ghost use Rattle.std.specs.Prelude.{◌≡◌};
    ghost use Rattle.awk_text.specs.declared.fault.TextFault.TheVariants.{Memory};

    ghost from_gives = { λ _ e. e ≡ Memory };

    fn from(_: AllocFailed<T>) -> Self {
        TextFault::Memory
    }
}

impl From<PatternFault> for TextFault {
    ghost use Rattle.std.specs.Prelude.{◌≡◌};
    ghost use Rattle.awk_text.specs.support.Faults.{text_fault};

    ghost from_gives = { λ fault e. e ≡ text_fault fault };

    fn from(fault: PatternFault) -> Self {
        match fault {
            PatternFault::Memory => TextFault::Memory,
            PatternFault::IllFormed | PatternFault::BadCount | PatternFault::TooLarge => {
                TextFault::Pattern
            }
        }
    }
}
