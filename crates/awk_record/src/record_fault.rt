// Why a record can't be had.

use awk_text::TextFault;
use std::alloc::{AllocError, AllocFailed};
use thiserror::Error;

/// Why a record, a field or room for them was refused.
#[derive(Clone, Copy, Debug, PartialEq, Eq, Error)]
pub enum RecordFault {
    /// F1.
    #[error("out of memory")]
    Memory,
    /// F6: the text of the separator spells no ERE.
    #[error("bad pattern")]
    Pattern,
    /// F8.
    #[error("field number out of range")]
    FieldNumber,
}

impl From<AllocError> for RecordFault {
    ghost use Rattle.std.specs.Prelude.{◌≡◌};
    ghost use Rattle.awk_record.specs.declared.record_fault.RecordFault.TheVariants.{Memory};

    ghost from_gives = { λ _ e. e ≡ Memory };

    fn from(_: AllocError) -> Self {
        RecordFault::Memory
    }
}

impl<T: Drop> From<AllocFailed<T>> for RecordFault {
    ghost use Rattle.std.specs.Prelude.{◌≡◌};
    ghost use Rattle.awk_record.specs.declared.record_fault.RecordFault.TheVariants.{Memory};

    ghost from_gives = { λ _ e. e ≡ Memory };

    fn from(_: AllocFailed<T>) -> Self {
        RecordFault::Memory
    }
}

impl From<TextFault> for RecordFault {
    ghost use Rattle.std.specs.Prelude.{◌≡◌};
    ghost use Rattle.awk_record.specs.support.Found.{text_fault};

    ghost from_gives = { λ fault e. e ≡ text_fault fault };

    fn from(fault: TextFault) -> Self {
        match fault {
            TextFault::Memory => RecordFault::Memory,
            TextFault::Pattern => RecordFault::Pattern,
        }
    }
}
