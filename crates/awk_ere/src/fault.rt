// Why a pattern was refused.

ghost use Rattle.std.specs.Prelude.{Some};
ghost use Rattle.awk_ere.specs.definitions.Limits.{fault_text};

use std::alloc::{AllocError, AllocFailed};
use std::error::Error;
use std::fmt;

/// Why a pattern was refused.
#[derive(Clone, Copy, Debug, PartialEq, Eq)]
pub enum PatternFault {
    /// P0: memory was refused.
    Memory,
    /// P1: the text is no pattern.
    IllFormed,
    /// P2: a count is above 255 or its least is above its greatest, or a range descends.
    BadCount,
    /// P3: more than 200 parentheses are open at once, or the size is above 10,000.
    TooLarge,
}

impl fmt::Display for PatternFault {
    ghost output = { λ fault. Some (fault_text fault) };

    /// The code and its text, such as `P1: pattern ill-formed`.
    fn fmt<W: fmt::Write>(&self, f: &mut fmt::Formatter<W>) -> fmt::Result {
        match self {
            PatternFault::Memory => write!(f, "P0: out of memory"),
            PatternFault::IllFormed => write!(f, "P1: pattern ill-formed"),
            PatternFault::BadCount => write!(f, "P2: interval or range refused"),
            PatternFault::TooLarge => write!(f, "P3: pattern too large"),
        }
    }
}

impl Error for PatternFault {}

impl From<AllocError> for PatternFault {
    ghost use Rattle.std.specs.Prelude.{◌≡◌};
    ghost use Rattle.awk_ere.specs.declared.fault.PatternFault.TheVariants.{Memory};

    ghost from_gives = { λ _ e. e ≡ Memory };

    fn from(_: AllocError) -> Self {
        PatternFault::Memory
    }
}

impl<T: Drop> From<AllocFailed<T>> for PatternFault {
    ghost use Rattle.std.specs.Prelude.{◌≡◌};
    ghost use Rattle.awk_ere.specs.declared.fault.PatternFault.TheVariants.{Memory};

    ghost from_gives = { λ _ e. e ≡ Memory };

    fn from(_: AllocFailed<T>) -> Self {
        PatternFault::Memory
    }
}
