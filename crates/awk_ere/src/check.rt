// The check of a whole text in constant memory.

ghost use Rattle.std.specs.Prelude.{◌≡◌, ◌+◌, ◌<◌, ◌≤◌, ◌^◌, IfSome};
ghost use Rattle.awk_ere.specs.support.Checks.{place_behind, may_stop, is_bad, Checked};

use crate::reading::lexer::token_at;
use crate::token::{BYTE_COUNT, GREATEST_COUNT, Repeat, Token};

/// What stands directly before, in the innermost open group.
#[derive(Clone, Copy)]
enum Before {
    Nothing,
    Anchor,
    Part,
}

/// Where the check stands: what stands before, and how many groups are open.
#[derive(Clone, Copy)]
struct CheckState {
    before: Before,
    groups: usize,
}

/// What is known of a text that is a pattern, whatever its counts, ranges and size are.
#[derive(Clone, Copy)]
pub struct Facts {
    /// Whether a count is above 255, a least count above its greatest, or a range descends.
    pub bad: bool,
    /// How many of its parentheses are open at once.
    pub opened: usize,
}

impl CheckState {
    /// Where the check stands behind a token: `None` where the token may not stand here.
    fn behind(self, token: Token) -> Option<CheckState>
        requires { self.groups + 1 < 2 ^ 64 }
        ensures is { result ≡ place_behind token self }
        ensures near { IfSome result (λ place. place.groups ≤ self.groups + 1) }
    {
        let (before, groups) = match (token, self.before) {
            (Token::Byte(_) | Token::Any | Token::Bracket(_), _) => (Before::Part, self.groups),
            (Token::Start | Token::End, _) => (Before::Anchor, self.groups),
            (Token::Open, _) => (Before::Nothing, self.groups + 1),
            (Token::Close, Before::Anchor | Before::Part) => (
                Before::Part,
                self.groups.checked_sub(1)?,
            ),
            (Token::Bar, Before::Anchor | Before::Part) => (Before::Nothing, self.groups),
            (Token::Again(_), Before::Part) => (Before::Part, self.groups),
            _ => return None,
        };
        Some(CheckState { before, groups })
    }

    /// Whether a pattern may end here.
    fn may_stop(self) -> bool
        ensures { result ≡ may_stop self }
    {
        !matches!(self.before, Before::Nothing) && self.groups == 0
    }
}

/// Whether a count or a range of the token is refused.
fn is_bad(token: Token) -> bool
    ensures { result ≡ is_bad token }
{
    match token {
        Token::Bracket(ordered) => !ordered,
        Token::Again(Repeat::Exactly(count) | Repeat::AtLeast(count)) => count > GREATEST_COUNT,
        Token::Again(Repeat::Between(least, most)) => most > GREATEST_COUNT || least > most,
        _ => false,
    }
}

/// Whether the text is a pattern, and what is known of it: `None` where it is none, even if counts and the order of
/// ranges are ignored (XBD 9.4). Takes no memory that grows with the text.
pub fn check(text: &[u8]) -> Option<Facts>
    ensures { Checked text.now result }
{
    let mut bad = false;
    let mut opened = 0;
    if text.is_empty() {
        return Some(Facts { bad, opened });
    }
    let mut set = [false; BYTE_COUNT];
    let mut place = CheckState {
        before: Before::Nothing,
        groups: 0,
    };
    let mut rest = text;
    while !rest.is_empty() {
        let (token, behind) = token_at(rest, &mut set)?;
        place = place.behind(token)?;
        bad |= is_bad(token);
        opened = opened.max(place.groups);
        rest = behind;
    }
    if place.may_stop() {
        Some(Facts { bad, opened })
    } else {
        None
    }
}
