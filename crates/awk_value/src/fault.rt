// Why a value could not be made.

ghost use Rattle.std.specs.Prelude.{◌≡◌};
ghost use Rattle.awk_value.specs.declared.fault.ValueFault.TheVariants.{Memory};

use std::alloc::{AllocError, AllocFailed};
use thiserror::Error;

/// Why a value could not be made.
#[derive(Clone, Copy, Debug, PartialEq, Eq, Error)]
pub enum ValueFault {
    /// F1: memory was refused.
    #[error("out of memory")]
    Memory,
    /// F3: the number is below -2^127 or above 2^127 - 1.
    #[error("number out of range")]
    Range,
    /// F4: the divisor is 0.
    #[error("division by zero")]
    ZeroDivisor,
    /// F5: the exponent is below 0.
    #[error("negative exponent")]
    NegativePower,
}

impl From<AllocError> for ValueFault {
    ghost from_gives = { λ _ e. e ≡ Memory };

    fn from(_error: AllocError) -> ValueFault {
        ValueFault::Memory
    }
}

impl<T: Drop> From<AllocFailed<T>> for ValueFault {
    ghost from_gives = { λ _ e. e ≡ Memory };

    fn from(error: AllocFailed<T>) -> ValueFault {
        ValueFault::from(AllocError::from(error))
    }
}
