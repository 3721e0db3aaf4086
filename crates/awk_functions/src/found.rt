// What searches in texts find.

ghost use Rattle.std.specs.Prelude.{◌≡◌};
ghost use Rattle.awk_semantics.specs.Texts.{start_of, length_of};

use awk_text::Span;
use awk_value::Bytes;

/// A text with matches of a pattern exchanged (POSIX awk, String Functions: sub, gsub).
#[derive(Drop)]
pub struct Exchanged {
    /// How many matches were exchanged, at least 1.
    pub count: u64,
    /// The text with the replacements in their places.
    pub text: Bytes,
}

/// The position from 1 at which a match begins, or 0 where none was found: RSTART, and what `match` gives. (POSIX awk, String
/// Functions: match)
pub fn start_of(found: Option<Span>) -> i128
    ensures { result ≡ start_of found }
{
    match found {
        Some(span) => span.start as i128 + 1,
        None => 0,
    }
}

/// The number of bytes of a match, or -1 where none was found: RLENGTH. (POSIX awk, String Functions: match)
pub fn length_of(found: Option<Span>) -> i128
    ensures { result ≡ length_of found }
{
    match found {
        Some(span) => span.end.saturating_sub(span.start) as i128,
        None => -1,
    }
}
