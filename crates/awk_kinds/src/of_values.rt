// Built-in functions of values alone.

ghost use Rattle.std.specs.Prelude.{◌≡◌};
ghost use Rattle.awk_kinds.specs.definitions.OfValues.{is_of_values};

use awk_lex::token::BuiltIn;

/// Whether a built-in function makes a value of values alone. `length` is none: it is of the record, or of an array, too. (POSIX awk,
/// Arithmetic Functions; String Functions)
pub fn is_of_values(function: BuiltIn) -> bool
    ensures { result ≡ is_of_values function }
{
    match function {
        BuiltIn::Substr
        | BuiltIn::Index
        | BuiltIn::Sprintf
        | BuiltIn::ToLower
        | BuiltIn::ToUpper
        | BuiltIn::Int => true,
        BuiltIn::Length
        | BuiltIn::Split
        | BuiltIn::Sub
        | BuiltIn::Gsub
        | BuiltIn::Match
        | BuiltIn::System
        | BuiltIn::Close
        | BuiltIn::Fflush => false,
    }
}
