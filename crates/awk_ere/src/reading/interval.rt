// The intervals of a pattern (XBD 9.4.6).

ghost use Rattle.std.specs.Prelude.{◌≡◌};
ghost use Rattle.std.specs.Option.{option_map};
ghost use Rattle.awk_ere.specs.support.Lexer.{interval_token};
ghost use Rattle.awk_ere.specs.support.TokenValues.{digit_seen, end_seen, number_seen, seen_front};

use crate::token::{GREATEST_COUNT, Repeat, Token};

/// The value of the digit in front, and what follows it.
fn digit_at(bytes: &[u8]) -> Option<(u8, &[u8])>
    ensures { option_map (λ r. (r.0, r.1.now)) result ≡ digit_seen bytes.now }
{
    match bytes {
        [digit @ b'0'..=b'9', rest @ ..] => Some((digit - b'0', rest)),
        _ => None,
    }
}

/// The digits in front as a number, or one more than the greatest count where it is above that, and what follows them.
fn number_at(bytes: &[u8]) -> Option<(u16, &[u8])>
    ensures { option_map (λ r. (r.0, r.1.now)) result ≡ number_seen bytes.now }
{
    let mut rest = bytes;
    let mut number = 0;
    while let Some((digit, behind)) = digit_at(rest) {
        number = u16::min(10 * number + u16::from(digit), GREATEST_COUNT + 1);
        rest = behind;
    }
    if rest.len() < bytes.len() {
        Some((number, rest))
    } else {
        None
    }
}

/// The end of an interval behind its comma, where this is its least count: a closing brace or a second number.
fn end_at(least: u16, bytes: &[u8]) -> Option<(Token, &[u8])>
    ensures { option_map (λ r. (r.0, r.1.now)) result ≡ end_seen least bytes.now }
{
    if let [b'}', rest @ ..] = bytes {
        return Some((Token::Again(Repeat::AtLeast(least)), rest));
    }
    match number_at(bytes)? {
        (most, [b'}', rest @ ..]) => Some((Token::Again(Repeat::Between(least, most)), rest)),
        _ => None,
    }
}

/// An interval behind its `{`, and what follows it: a number, a number and a comma, or two numbers with a comma.
pub(crate) fn interval_at(bytes: &[u8]) -> Option<(Token, &[u8])>
    ensures { option_map (λ r. (r.0, r.1.now)) result ≡ option_map seen_front (interval_token bytes.now) }
{
    match number_at(bytes)? {
        (least, [b'}', rest @ ..]) => Some((Token::Again(Repeat::Exactly(least)), rest)),
        (least, [b',', rest @ ..]) => end_at(least, rest),
        _ => None,
    }
}
