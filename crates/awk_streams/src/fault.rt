// Why a stream can't go on.

use awk_record::BufferFault;
use std::alloc::AllocError;
use thiserror::Error;

/// Why a stream can't go on.
#[derive(Clone, Copy, Debug, PartialEq, Eq, Error)]
pub enum StreamFault {
    /// F1.
    #[error("out of memory")]
    Memory,
    /// F2.
    #[error("write failed")]
    WriteFailed,
    /// F9: the input can't be opened, or it broke.
    #[error("input not readable")]
    InputNotReadable,
    /// F10: a named output can't be opened.
    #[error("output not opened")]
    OutputNotOpened,
    /// F13.
    #[error("too many streams")]
    TooManyStreams,
    /// F16.
    #[error("record too long")]
    RecordTooLong,
}

impl From<BufferFault> for StreamFault {
    ghost use Rattle.std.specs.Prelude.{◌≡◌};
    ghost use Rattle.awk_streams.specs.definitions.Inputs.{input_fault_of};

    ghost from_gives = { λ fault e. e ≡ input_fault_of fault };

    fn from(fault: BufferFault) -> Self {
        match fault {
            BufferFault::Memory => StreamFault::Memory,
            BufferFault::RecordTooLong => StreamFault::RecordTooLong,
        }
    }
}

impl From<AllocError> for StreamFault {
    ghost use Rattle.std.specs.Prelude.{◌≡◌};
    ghost use Rattle.awk_streams.specs.declared.fault.StreamFault.TheVariants.{Memory};

    ghost from_gives = { λ _ e. e ≡ Memory };

    fn from(_: AllocError) -> Self {
        StreamFault::Memory
    }
}
