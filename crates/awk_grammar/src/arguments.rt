// How many arguments the built-in functions take (POSIX awk, Functions).

ghost use Rattle.std.specs.Prelude.{◌≡◌};
ghost use Rattle.awk_grammar.specs.definitions.Arguments.{accepts, is_between};

use awk_lex::token::BuiltIn;

// Whether the count lies between two bounds.
fn is_between(low: usize, high: usize, count: usize) -> bool
    ensures { result ≡ is_between low high count }
{
    low <= count && count <= high
}

/// Whether a built-in function may have so many arguments. A third one, of `sub` and `gsub`, must be a place.
pub fn accepts(function: BuiltIn, count: usize, third_is_place: bool) -> bool
    ensures { result ≡ accepts function count third_is_place }
{
    match function {
        BuiltIn::Length => count <= 1,
        BuiltIn::Substr => is_between(2, 3, count),
        BuiltIn::Index => is_between(2, 2, count),
        BuiltIn::Split => is_between(2, 3, count),
        BuiltIn::Sub => is_between(2, 3, count) && third_is_place,
        BuiltIn::Gsub => is_between(2, 3, count) && third_is_place,
        BuiltIn::Match => is_between(2, 2, count),
        BuiltIn::Sprintf => 1 <= count,
        BuiltIn::ToLower => is_between(1, 1, count),
        BuiltIn::ToUpper => is_between(1, 1, count),
        BuiltIn::Int => is_between(1, 1, count),
        BuiltIn::System => is_between(1, 1, count),
        BuiltIn::Close => is_between(1, 1, count),
        BuiltIn::Fflush => count <= 1,
    }
}
