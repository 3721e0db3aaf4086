// Why a part of a run ends early.

ghost use Rattle.std.specs.Prelude.{◌≡◌};
ghost use Rattle.awk_semantics.specs.definitions.Faults.{value_fault, record_fault, format_fault};
ghost use Rattle.awk_semantics.specs.support.PartFaults.{stream_fault, pattern_fault, text_fault};
ghost use Rattle.awk_semantics.specs.declared.halt.Halt.TheVariants.{Fault as FaultHalt};
ghost use Rattle.awk_semantics.specs.declared.fault.Fault.TheVariants.{OutOfMemory};

use crate::fault::Fault;
use awk_ere::PatternFault;
use awk_record::RecordFault;
use awk_streams::StreamFault;
use awk_text::{FormatFault, TextFault};
use awk_value::ValueFault;
use std::alloc::{AllocError, AllocFailed};

/// Why a part of a run ends early.
#[derive(Clone, Copy)]
pub enum Halt {
    Fault(Fault),
    OutOfSteps,
    /// `next`: the actions on this record end (POSIX awk, Actions).
    Next,
    /// `exit`: the run goes to its end, with the exit status that stands then (POSIX awk, Actions).
    Exit,
}

impl From<AllocError> for Halt {
    ghost from_gives = { λ _ h. h ≡ FaultHalt OutOfMemory };

    fn from(_error: AllocError) -> Halt {
        Halt::Fault(Fault::OutOfMemory)
    }
}

impl<T: Drop> From<AllocFailed<T>> for Halt {
    ghost from_gives = { λ _ h. h ≡ FaultHalt OutOfMemory };

    fn from(_error: AllocFailed<T>) -> Halt {
        Halt::Fault(Fault::OutOfMemory)
    }
}

impl From<ValueFault> for Halt {
    ghost from_gives = { λ fault h. h ≡ FaultHalt (value_fault fault) };

    fn from(fault: ValueFault) -> Halt {
        Halt::Fault(Fault::from(fault))
    }
}

impl From<RecordFault> for Halt {
    ghost from_gives = { λ fault h. h ≡ FaultHalt (record_fault fault) };

    fn from(fault: RecordFault) -> Halt {
        Halt::Fault(Fault::from(fault))
    }
}

impl From<PatternFault> for Halt {
    ghost from_gives = { λ fault h. h ≡ FaultHalt (pattern_fault fault) };

    fn from(fault: PatternFault) -> Halt {
        Halt::Fault(Fault::from(fault))
    }
}

impl From<StreamFault> for Halt {
    ghost from_gives = { λ fault h. h ≡ FaultHalt (stream_fault fault) };

    fn from(fault: StreamFault) -> Halt {
        Halt::Fault(Fault::from(fault))
    }
}

impl From<FormatFault> for Halt {
    ghost from_gives = { λ fault h. h ≡ FaultHalt (format_fault fault) };

    fn from(fault: FormatFault) -> Halt {
        Halt::Fault(Fault::from(fault))
    }
}

impl From<TextFault> for Halt {
    ghost from_gives = { λ fault h. h ≡ FaultHalt (text_fault fault) };

    fn from(fault: TextFault) -> Halt {
        Halt::Fault(Fault::from(fault))
    }
}
