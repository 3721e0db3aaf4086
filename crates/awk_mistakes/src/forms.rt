// Expressions that mean something else than they look like.

use crate::mistakes::Mistakes;
use crate::statements::closing;
use awk_findings::calls::{arguments, kind_before, kind_behind, name_of, only_token, string_of};
use awk_lex::token::{BuiltIn, Keyword, Kind, Operator, Token};
use std::alloc::AllocError;

/// How many tokens the operand behind a `!` has, where it is a name, an element, a number, a string or a field.
fn operand_length(tokens: &[Token], not: usize) -> Option<usize> {
    let first = not.checked_add(1)?;
    let second = first.checked_add(1)?;
    match (
        kind_behind(tokens, first, 0)?,
        kind_behind(tokens, second, 0),
    ) {
        (Kind::Name(_), Some(Kind::OpenBracket)) | (Kind::Dollar, Some(Kind::OpenParenthesis)) => {
            closing(tokens, second)?.checked_sub(not)
        }
        (Kind::Name(_) | Kind::Number(_) | Kind::String(_), _) => Some(1),
        (Kind::Dollar, Some(Kind::Name(_) | Kind::Number(_))) => Some(2),
        _ => None,
    }
}

/// Whether two tokens stand side by side in the text.
fn touch(tokens: &[Token], at: usize) -> bool {
    match (tokens.get(at), tokens.get(at.saturating_add(1))) {
        (Some(left), Some(right)) => left.end == right.start,
        _ => false,
    }
}

/// The value or the name of a token, where it tells which place is assigned.
fn is_same(left: &Token, right: &Token) -> bool {
    match (&left.kind, &right.kind) {
        (Kind::Number(left), Kind::Number(right)) => left == right,
        _ => match (name_of(left), name_of(right)) {
            (Some(left), Some(right)) => left == right,
            _ => false,
        },
    }
}

/// The first token behind the place that a `getline` may set.
fn behind_place(tokens: &[Token], getline: usize) -> Option<usize> {
    let first = getline.checked_add(1)?;
    let last = match (
        kind_behind(tokens, first, 0)?,
        kind_behind(tokens, first, 1),
    ) {
        (Kind::Name(_), Some(Kind::OpenBracket)) => closing(tokens, first.checked_add(1)?)?,
        (Kind::Dollar, Some(Kind::OpenParenthesis)) => closing(tokens, first.checked_add(1)?)?,
        (Kind::Dollar, Some(_)) => first.checked_add(1)?,
        (Kind::Name(_), _) => first,
        _ => return Some(first),
    };
    last.checked_add(1)
}

/// The file's sign, `<`, of a `getline` that reads a file.
fn file_sign(tokens: &[Token], getline: usize) -> Option<usize> {
    let sign = behind_place(tokens, getline)?;
    match kind_behind(tokens, sign, 0)? {
        Kind::Operator(Operator::Less) => Some(sign),
        _ => None,
    }
}

/// Whether the condition between two brackets takes what `getline` gives of a file for the truth, and by which token.
fn untested_getline(tokens: &[Token], open: usize, close: usize) -> Option<usize> {
    let mut found = None;
    let mut sign = None;
    for at in open..close {
        match kind_behind(tokens, at, 0)? {
            Kind::Keyword(Keyword::Getline) => {
                found = Some(at);
                sign = file_sign(tokens, at);
            }
            Kind::Operator(Operator::Less) if sign == Some(at) => {}
            Kind::Not
            | Kind::Operator(
                Operator::And
                | Operator::Less
                | Operator::LessEqual
                | Operator::Equal
                | Operator::NotEqual
                | Operator::Greater
                | Operator::GreaterEqual,
            ) => return None,
            _ => {}
        }
    }
    let _ = sign?;
    found
}

impl<'a> Mistakes<'a> {
    /// `x == /re/`.
    pub(crate) fn add_compared_pattern(&mut self, at: usize) -> Result<(), AllocError> {
        let is_beside = matches!(kind_before(self.tokens, at, 1), Some(Kind::Ere(_)));
        let behind = at.saturating_add(1);
        match self.tokens.get(behind) {
            Some(token) if !is_beside && matches!(token.kind, Kind::Ere(_)) => self.add(
                token,
                b"a pattern that is compared is 1 or 0, as the record matches it",
                b"write x ~ /re/, or x !~ /re/",
            ),
            _ => Ok(()),
        }
    }

    /// `! x ~ y` and `! k in a`.
    pub(crate) fn add_not(&mut self, at: usize) -> Result<(), AllocError> {
        let (Some(length), Some(token)) = (operand_length(self.tokens, at), self.tokens.get(at))
        else {
            return Ok(());
        };
        match kind_behind(self.tokens, at, length.saturating_add(1)) {
            Some(Kind::Operator(Operator::Matches | Operator::NotMatches)) => self.add(
                token,
                b"! is taken before ~: it is (! x) ~ y",
                b"write x !~ y, or ! (x ~ y)",
            ),
            Some(Kind::Keyword(Keyword::In)) => self.add(
                token,
                b"! is taken before in: it is (! k) in a",
                b"write ! (k in a)",
            ),
            _ => Ok(()),
        }
    }

    /// `$NF-1`.
    pub(crate) fn add_last_field(&mut self, at: usize) -> Result<(), AllocError> {
        let is_last = match kind_behind(self.tokens, at, 1) {
            Some(Kind::Name(name)) => name.as_slice() == b"NF".as_slice(),
            _ => false,
        };
        let is_less = matches!(
            (
                kind_behind(self.tokens, at, 2),
                kind_behind(self.tokens, at, 3)
            ),
            (Some(Kind::Operator(Operator::Minus)), Some(Kind::Number(_)))
        );
        let name = at.saturating_add(1);
        let minus = at.saturating_add(2);
        if !is_last || !is_less || !touch(self.tokens, name) || !touch(self.tokens, minus) {
            return Ok(());
        }
        self.add_stretch(
            at,
            at.saturating_add(4),
            b"a number is taken from the last field here: it is ($NF) - 1",
            b"the field before the last is $(NF-1)",
        )
    }

    /// `x =+ 2`.
    pub(crate) fn add_signed(&mut self, at: usize) -> Result<(), AllocError> {
        let sign = at.saturating_add(1);
        if !touch(self.tokens, at) || touch(self.tokens, sign) {
            return Ok(());
        }
        let behind = sign.saturating_add(1);
        match kind_behind(self.tokens, sign, 0) {
            Some(Kind::Operator(Operator::Plus)) => self.add_stretch(
                at,
                behind,
                b"=+ assigns what stands behind it",
                b"what adds is +=",
            ),
            Some(Kind::Operator(Operator::Minus)) => self.add_stretch(
                at,
                behind,
                b"=- assigns what stands behind it, with the sign turned",
                b"what subtracts is -=",
            ),
            _ => Ok(()),
        }
    }

    /// `$1 = gsub(..)`, where what is changed is assigned.
    pub(crate) fn add_counted_exchange(&mut self, at: usize) -> Result<(), AllocError> {
        let call = at.saturating_add(1);
        let Some(Kind::BuiltIn(BuiltIn::Sub | BuiltIn::Gsub)) = kind_behind(self.tokens, call, 0)
        else {
            return Ok(());
        };
        let Some(target) = at.checked_sub(1).and_then(|place| self.tokens.get(place)) else {
            return Ok(());
        };
        let is_field = matches!(kind_before(self.tokens, at, 2), Some(Kind::Dollar));
        let all = arguments(self.alloc, self.tokens, call)?;
        let counts = match all.get(1) {
            Some(stretch) => string_of(self.tokens, *stretch) == Some(b"&".as_slice()),
            None => true,
        };
        let is_changed = match all.get(2) {
            None => is_field && !counts,
            Some(stretch) if is_field => {
                stretch.to == stretch.from.saturating_add(2)
                    && self
                        .tokens
                        .get(stretch.from.saturating_add(1))
                        .is_some_and(|changed| is_same(changed, target))
            }
            Some(stretch) => only_token(self.tokens, *stretch).is_some_and(|changed| is_same(
                changed, target,
            )),
        };
        match self.tokens.get(call) {
            Some(token) if is_changed => self.add(
                token,
                b"sub and gsub give how many were exchanged, and this number is assigned",
                b"the text is changed in its place: leave the assignment out",
            ),
            _ => Ok(()),
        }
    }

    /// `while (getline line < file)`.
    pub(crate) fn add_while(&mut self, at: usize) -> Result<(), AllocError> {
        let open = at.saturating_add(1);
        let found = closing(self.tokens, open).and_then(|close| untested_getline(
            self.tokens,
            open,
            close,
        ));
        match found.and_then(|place| self.tokens.get(place)) {
            Some(token) => self.add(
                token,
                b"getline is -1 where the file can't be read: that is true, and the loop goes on",
                b"write while ((getline line < file) > 0)",
            ),
            None => Ok(()),
        }
    }

    /// `if (x) ;` before other statements.
    pub(crate) fn add_if(&mut self, at: usize) -> Result<(), AllocError> {
        let open = at.saturating_add(1);
        let Some(semicolon) = closing(self.tokens, open).and_then(|close| close.checked_add(1))
        else {
            return Ok(());
        };
        let Some(token) = self.tokens.get(semicolon) else {
            return Ok(());
        };
        if !matches!(token.kind, Kind::Semicolon) {
            return Ok(());
        }
        let behind = next_word(self.tokens, semicolon);
        match behind.and_then(|place| kind_behind(self.tokens, place, 0)) {
            None | Some(Kind::CloseBrace | Kind::Keyword(Keyword::Else)) => Ok(()),
            Some(_) => self.add(
                token,
                b"the ; is all that the if decides on: what stands behind it is always run",
                b"leave the ; out",
            ),
        }
    }
}

/// The first token from a place on that is neither a semicolon nor a newline.
pub(crate) fn next_word(tokens: &[Token], from: usize) -> Option<usize> {
    for (count, token) in tokens.get(from..)?.iter().enumerate() {
        if !matches!(token.kind, Kind::Semicolon | Kind::Newline) {
            return from.checked_add(count);
        }
    }
    None
}
