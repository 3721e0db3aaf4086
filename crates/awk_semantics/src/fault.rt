// The faults of a run, and those of its parts as such.

ghost use Rattle.std.specs.Prelude.{◌≡◌};
ghost use Rattle.awk_semantics.specs.definitions.Faults.{value_fault, record_fault, format_fault};
ghost use Rattle.awk_semantics.specs.support.PartFaults.{stream_fault, pattern_fault, text_fault};
ghost use Rattle.awk_semantics.specs.definitions.Outcome.{fault_text};

use awk_ere::PatternFault;
use awk_record::RecordFault;
use awk_streams::StreamFault;
use awk_text::{FormatFault, TextFault};
use awk_value::ValueFault;

/// A fault of a run, by its number.
#[derive(Clone, Copy, Debug, PartialEq, Eq)]
pub enum Fault {
    /// F1: memory was refused.
    OutOfMemory,
    /// F2: a write or a flush failed.
    WriteFailed,
    /// F3: a number below -2^127 or above 2^127 - 1.
    NumberOutOfRange,
    /// F4: a zero divisor.
    DivisionByZero,
    /// F5: a power with a negative exponent.
    NegativeExponent,
    /// F6: a text that is no pattern of this profile.
    PatternRefused,
    /// F7: a format that is none of this profile.
    FormatRefused,
    /// F8: a field number below 0, or an assigned one above 16,777,216.
    FieldNumberOutOfRange,
    /// F9: a main input that can't be opened, or broke.
    InputNotReadable,
    /// F10: an output that can't be opened.
    OutputNotOpened,
    /// F11: the bodies of the active calls are too high together.
    CallsTooDeep,
    /// F12: `next` where no record is at hand.
    NextWithoutRecord,
    /// F13: more than 200 streams open at once.
    TooManyStreams,
    /// F14: a command-line assignment that can't be made.
    AssignmentRefused,
    /// F16: a record above 1,073,741,824 bytes.
    RecordTooLong,
}

/// The line on standard error for a fault, without its newline.
pub fn fault_line(fault: Fault) -> &'static str
    ensures { result.now ≡ fault_text fault }
{
    match fault {
        Fault::OutOfMemory => "awk: fault 1: out of memory",
        Fault::WriteFailed => "awk: fault 2: write failed",
        Fault::NumberOutOfRange => "awk: fault 3: number out of range",
        Fault::DivisionByZero => "awk: fault 4: division by zero",
        Fault::NegativeExponent => "awk: fault 5: negative exponent",
        Fault::PatternRefused => "awk: fault 6: pattern refused",
        Fault::FormatRefused => "awk: fault 7: format refused",
        Fault::FieldNumberOutOfRange => "awk: fault 8: field number out of range",
        Fault::InputNotReadable => "awk: fault 9: input not readable",
        Fault::OutputNotOpened => "awk: fault 10: output not opened",
        Fault::CallsTooDeep => "awk: fault 11: calls too deep",
        Fault::NextWithoutRecord => "awk: fault 12: next without a record",
        Fault::TooManyStreams => "awk: fault 13: too many streams",
        Fault::AssignmentRefused => "awk: fault 14: assignment refused",
        Fault::RecordTooLong => "awk: fault 16: record too long",
    }
}

impl From<ValueFault> for Fault {
    ghost from_gives = { λ fault f. f ≡ value_fault fault };

    fn from(fault: ValueFault) -> Fault {
        match fault {
            ValueFault::Memory => Fault::OutOfMemory,
            ValueFault::Range => Fault::NumberOutOfRange,
            ValueFault::ZeroDivisor => Fault::DivisionByZero,
            ValueFault::NegativePower => Fault::NegativeExponent,
        }
    }
}

impl From<RecordFault> for Fault {
    ghost from_gives = { λ fault f. f ≡ record_fault fault };

    fn from(fault: RecordFault) -> Fault {
        match fault {
            RecordFault::Memory => Fault::OutOfMemory,
            RecordFault::Pattern => Fault::PatternRefused,
            RecordFault::FieldNumber => Fault::FieldNumberOutOfRange,
        }
    }
}

impl From<PatternFault> for Fault {
    ghost from_gives = { λ fault f. f ≡ pattern_fault fault };

    fn from(fault: PatternFault) -> Fault {
        match fault {
            PatternFault::Memory => Fault::OutOfMemory,
            PatternFault::IllFormed | PatternFault::BadCount | PatternFault::TooLarge => {
                Fault::PatternRefused
            }
        }
    }
}

impl From<StreamFault> for Fault {
    ghost from_gives = { λ fault f. f ≡ stream_fault fault };

    fn from(fault: StreamFault) -> Fault {
        match fault {
            StreamFault::Memory => Fault::OutOfMemory,
            StreamFault::WriteFailed => Fault::WriteFailed,
            StreamFault::InputNotReadable => Fault::InputNotReadable,
            StreamFault::OutputNotOpened => Fault::OutputNotOpened,
            StreamFault::TooManyStreams => Fault::TooManyStreams,
            StreamFault::RecordTooLong => Fault::RecordTooLong,
        }
    }
}

impl From<FormatFault> for Fault {
    ghost from_gives = { λ fault f. f ≡ format_fault fault };

    fn from(fault: FormatFault) -> Fault {
        match fault {
            FormatFault::Memory => Fault::OutOfMemory,
            FormatFault::Range => Fault::NumberOutOfRange,
            FormatFault::Format => Fault::FormatRefused,
        }
    }
}

impl From<TextFault> for Fault {
    ghost from_gives = { λ fault f. f ≡ text_fault fault };

    fn from(fault: TextFault) -> Fault {
        match fault {
            TextFault::Memory => Fault::OutOfMemory,
            TextFault::Pattern => Fault::PatternRefused,
        }
    }
}
