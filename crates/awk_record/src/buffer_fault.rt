// Why a buffer gives no next record.

use std::alloc::AllocError;
use thiserror::Error;

/// Why a next record was refused.
#[derive(Clone, Copy, Debug, PartialEq, Eq, Error)]
pub enum BufferFault {
    /// F1.
    #[error("out of memory")]
    Memory,
    /// F16.
    #[error("record too long")]
    RecordTooLong,
}

impl From<AllocError> for BufferFault {
    ghost use Rattle.std.specs.Prelude.{◌≡◌};
    ghost use Rattle.awk_record.specs.declared.buffer_fault.BufferFault.TheVariants.{Memory};

    ghost from_gives = { λ _ e. e ≡ Memory };

    fn from(_: AllocError) -> Self {
        BufferFault::Memory
    }
}
