// Why a text is no program.

ghost use Rattle.std.specs.Prelude.{◌≡◌, Some};
ghost use Rattle.awk_lex.specs.definitions.Refused.{IsOutOfMemory, code_text, refusal_text};

use std::alloc::{AllocError, AllocFailed};
use std::fmt;

/// Why a text is no program.
#[derive(Clone, Copy, PartialEq, Eq)]
pub enum RefusalCode {
    /// L1: a byte that begins no token.
    UnexpectedByte,
    /// L2: a string that its line or the text ends.
    OpenString,
    /// L3: a string with an escape that isn't one of the table.
    EscapeRefused,
    /// L4: an ERE that its line or the text ends.
    OpenPattern,
    /// L5: a number that goes on with a letter, an underscore or a point, or is above 2^127 - 1.
    NumberRefused,
    /// L6: more than 1,048,576 bytes.
    ProgramTooLong,
    /// S1: no tree spells the tokens.
    NotAProgram,
    /// S2: the tree is higher than 200.
    NestedTooDeep,
    /// P1: an ERE that is no pattern, even if counts and the order of ranges are ignored.
    PatternIllFormed,
    /// P2: an ERE with a count above 255, a least count above its greatest, or a range that descends.
    PatternCountRefused,
    /// P3: an ERE with more than 200 parentheses open at once, or of a size above 10,000.
    PatternTooLarge,
    /// K1: a name that is both an array and a scalar.
    ArrayAndScalar,
    /// K2: a call of a name that is no function.
    UnknownFunction,
    /// K3: a function that is defined twice.
    DefinedTwice,
    /// K4: a call with more arguments than its function has parameters.
    TooManyArguments,
    /// K5: a parameter that is repeated, or named as a function or a special variable.
    ParameterRefused,
    /// K6: a `next`, `nextfile`, `break`, `continue` or `return` where it ends nothing.
    StatementOutOfPlace,
    /// K7: a name that other awks give a meaning which this one leaves out.
    NameLeftOut,
    /// K8: a function's name without a call, or a function named as a special variable.
    FunctionAsVariable,
    /// M0: memory was refused.
    OutOfMemory,
}

impl RefusalCode {
    /// The code and its text, such as `L1: unexpected byte`.
    fn text(self) -> &'static str
        ensures { result.now ≡ code_text self }
    {
        match self {
            RefusalCode::UnexpectedByte => "L1: unexpected byte",
            RefusalCode::OpenString => "L2: open string",
            RefusalCode::EscapeRefused => "L3: escape refused",
            RefusalCode::OpenPattern => "L4: open pattern",
            RefusalCode::NumberRefused => "L5: number refused",
            RefusalCode::ProgramTooLong => "L6: program too long",
            RefusalCode::NotAProgram => "S1: not a program",
            RefusalCode::NestedTooDeep => "S2: nested too deep",
            RefusalCode::PatternIllFormed => "P1: pattern ill-formed",
            RefusalCode::PatternCountRefused => "P2: interval or range refused",
            RefusalCode::PatternTooLarge => "P3: pattern too large",
            RefusalCode::ArrayAndScalar => "K1: array and scalar",
            RefusalCode::UnknownFunction => "K2: unknown function",
            RefusalCode::DefinedTwice => "K3: function defined twice",
            RefusalCode::TooManyArguments => "K4: too many arguments",
            RefusalCode::ParameterRefused => "K5: parameter refused",
            RefusalCode::StatementOutOfPlace => "K6: statement out of place",
            RefusalCode::NameLeftOut => "K7: name left out",
            RefusalCode::FunctionAsVariable => "K8: function used as a variable",
            RefusalCode::OutOfMemory => "M0: out of memory",
        }
    }
}

impl fmt::Display for RefusalCode {
    ghost output = { λ code. Some (code_text code) };

    /// The code and its text, such as `L1: unexpected byte`.
    fn fmt<W: fmt::Write>(&self, f: &mut fmt::Formatter<W>) -> fmt::Result {
        f.write_str(self.text())
    }
}

/// A refused text: why, and on which line (from 1).
#[derive(Clone, Copy, PartialEq, Eq)]
pub struct Refusal {
    pub code: RefusalCode,
    pub line: u64,
}

const OUT_OF_MEMORY: Refusal = Refusal {
    code: RefusalCode::OutOfMemory,
    line: 1,
};

impl fmt::Display for Refusal {
    ghost output = { λ refusal. Some (refusal_text refusal) };

    /// The line, the code and its text, such as `line 3: refusal L1: unexpected byte`.
    fn fmt<W: fmt::Write>(&self, f: &mut fmt::Formatter<W>) -> fmt::Result {
        let line = self.line;
        let code = self.code;
        write!(f, "line {line}: refusal {code}")
    }
}

impl From<AllocError> for Refusal {
    ghost from_gives = { λ _ r. IsOutOfMemory r };

    fn from(_error: AllocError) -> Refusal {
        OUT_OF_MEMORY
    }
}

impl<T: Drop> From<AllocFailed<T>> for Refusal {
    ghost from_gives = { λ _ r. IsOutOfMemory r };

    fn from(_error: AllocFailed<T>) -> Refusal {
        OUT_OF_MEMORY
    }
}
