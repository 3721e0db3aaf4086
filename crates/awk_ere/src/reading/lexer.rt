// The tokens of a pattern, read from the front of a text.

ghost use Rattle.std.specs.Prelude.{◌≡◌, ℕ, List, Some};
ghost use Rattle.std.specs.Option.{option_map};
ghost use Rattle.awk_ere.specs.definitions.Tree.{class_of};
ghost use Rattle.awk_ere.specs.definitions.Brackets.{Bracket, bracket_has};
ghost use Rattle.awk_ere.specs.definitions.Tokens.{atom, bracket};
ghost use Rattle.awk_ere.specs.support.Lexer.{escape_token, sign, token_at};
ghost use Rattle.awk_ere.specs.support.TokenValues.{seen_token, seen_front};

use crate::reading::bracket::bracket_at;
use crate::reading::escape::escape_at;
use crate::reading::interval::interval_at;
use crate::token::{BYTE_COUNT, Repeat, Token};

/// The token that a byte alone is.
fn sign(byte: u8) -> Token
    ensures { result ≡ seen_token (sign byte) }
{
    match byte {
        b'.' => Token::Any,
        b'^' => Token::Start,
        b'$' => Token::End,
        b'(' => Token::Open,
        b')' => Token::Close,
        b'|' => Token::Bar,
        b'*' => Token::Again(Repeat::Star),
        b'+' => Token::Again(Repeat::Plus),
        b'?' => Token::Again(Repeat::Option),
        _ => Token::Byte(byte),
    }
}

/// An escape behind its backslash.
fn escaped(bytes: &[u8]) -> Option<(Token, &[u8])>
    ensures { option_map (λ r. (r.0, r.1.now)) result ≡ option_map seen_front (escape_token bytes.now) }
{
    let (byte, rest) = escape_at(bytes)?;
    Some((Token::Byte(byte), rest))
}

/// The token at the front of a pattern's text, and what follows it: `None` where none stands there (XBD 9.4).
/// A bracket leaves its class in `set`; what any other token leaves there may be anything.
pub fn token_at<'a>(bytes: &'a [u8], set: &mut [bool; BYTE_COUNT]) -> Option<(Token, &'a [u8])>
    ensures found { option_map (λ r. (r.0, r.1.now)) result ≡ option_map seen_front (token_at bytes.now) }
    ensures set { (k : Bracket) (rest : List ℕ) → token_at bytes.now ≡ Some (atom (bracket k), rest) →
        set.new ≡ class_of (bracket_has k) }
{
    match bytes {
        [] => None,
        [b'\\', behind @ ..] => escaped(behind),
        [b'[', behind @ ..] => bracket_at(behind, set),
        [b'{', behind @ ..] => interval_at(behind),
        [byte, behind @ ..] => Some((sign(*byte), behind)),
    }
}
