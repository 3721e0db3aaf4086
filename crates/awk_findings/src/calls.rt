// Calls and lists, token by token.

use crate::finding::{Finding, Place};
use crate::text::bytes_of;
use awk_lex::token::{Keyword, Kind, Operator, Token};
use std::alloc::{AllocError, Global};

/// A stretch of tokens, from one up to another.
#[derive(Clone, Copy)]
pub struct Stretch {
    pub from: usize,
    pub to: usize,
}

/// What a list's brackets are to it.
#[derive(Clone, Copy)]
enum Bracket {
    Open,
    Close,
    None,
}

fn bracket_of(kind: &Kind) -> Bracket {
    match kind {
        Kind::OpenParenthesis | Kind::OpenBracket | Kind::OpenBrace => Bracket::Open,
        Kind::CloseParenthesis | Kind::CloseBracket | Kind::CloseBrace => Bracket::Close,
        _ => Bracket::None,
    }
}

/// The place of a token.
pub fn place_of(token: &Token) -> Place {
    Place {
        start: token.start,
        end: token.end,
    }
}

/// The token at a place as it stands in the text.
pub fn text_of<'a>(text: &'a [u8], token: &Token) -> &'a [u8] {
    bytes_of(text, place_of(token))
}

/// The name that a token is.
pub fn name_of(token: &Token) -> Option<&[u8]> {
    match &token.kind {
        Kind::Name(name) | Kind::Called(name) => Some(name.as_slice()),
        _ => None,
    }
}

/// The kind of the token so many places before one.
pub fn kind_before(tokens: &[Token], at: usize, count: usize) -> Option<&Kind> {
    let token = tokens.get(at.checked_sub(count)?)?;
    Some(&token.kind)
}

/// The kind of the token so many places behind one.
pub fn kind_behind(tokens: &[Token], at: usize, count: usize) -> Option<&Kind> {
    let token = tokens.get(at.checked_add(count)?)?;
    Some(&token.kind)
}

/// The arguments of the call whose name stands at a place.
pub fn arguments(alloc: Global, tokens: &[Token], at: usize) -> Result<Vec<Stretch>, AllocError> {
    let mut found = Vec::new(alloc);
    let open = at.saturating_add(1);
    let mut from = open.saturating_add(1);
    let mut depth = 0usize;
    for (count, token) in tokens.get(open..).unwrap_or(&[]).iter().enumerate() {
        let to = open.saturating_add(count);
        match bracket_of(&token.kind) {
            Bracket::Open => depth = depth.saturating_add(1),
            Bracket::Close => depth = depth.saturating_sub(1),
            Bracket::None => {}
        }
        if depth == 0 {
            if from < to {
                found.push(Stretch { from, to })?;
            }
            break;
        }
        if depth == 1 && matches!(token.kind, Kind::Comma) {
            found.push(Stretch { from, to })?;
            from = to.saturating_add(1);
        }
    }
    Ok(found)
}

/// The one token of a stretch, where it is one.
pub fn only_token(tokens: &[Token], stretch: Stretch) -> Option<&Token> {
    if stretch.from.saturating_add(1) != stretch.to {
        return None;
    }
    tokens.get(stretch.from)
}

/// The number that a stretch of tokens is, with a minus or without.
pub(crate) fn constant_of(tokens: &[Token], stretch: Stretch) -> Option<i128> {
    match tokens.get(stretch.from..stretch.to)? {
        [only] => match &only.kind {
            Kind::Number(value) => Some(*value),
            _ => None,
        },
        [sign, only] => match (&sign.kind, &only.kind) {
            (Kind::Operator(Operator::Minus), Kind::Number(value)) => value.checked_neg(),
            _ => None,
        },
        _ => None,
    }
}

/// The bytes of the string that a stretch of tokens is.
pub fn string_of(tokens: &[Token], stretch: Stretch) -> Option<&[u8]> {
    match &only_token(tokens, stretch)?.kind {
        Kind::String(bytes) => Some(bytes.as_slice()),
        _ => None,
    }
}

/// The place of a stretch of tokens.
pub fn place_of_stretch(tokens: &[Token], stretch: Stretch) -> Option<Place> {
    let first = tokens.get(stretch.from)?;
    let last = tokens.get(stretch.to.checked_sub(1)?)?;
    Some(Place {
        start: first.start,
        end: last.end,
    })
}

/// A finding at a token.
pub fn finding_at(
    alloc: Global,
    token: &Token,
    message: &[&[u8]],
    advice: &[u8],
) -> Result<Finding, AllocError> {
    Finding::new(alloc, Some(place_of(token)), message, advice)
}

/// Whether the token at a place is a `|` before which no command stands that is read.
fn is_pipe(tokens: &[Token], at: usize) -> bool {
    matches!(kind_behind(tokens, at, 0), Some(Kind::Bar))
        && !matches!(
            kind_behind(tokens, at, 1),
            Some(Kind::Keyword(Keyword::Getline))
        )
}

/// Whether the token at a place leads what is printed to a file or a command, if it stands in a print.
pub fn is_target_sign(tokens: &[Token], at: usize) -> bool {
    matches!(
        kind_behind(tokens, at, 0),
        Some(Kind::Append | Kind::Operator(Operator::Greater))
    ) || is_pipe(tokens, at)
}

/// Whether the right operand of a match ends with a token.
pub(crate) fn stands_alone(tokens: &[Token], at: usize) -> bool {
    let looser = matches!(
        kind_behind(tokens, at, 1),
        Some(
            Kind::Question
                | Kind::Operator(Operator::And | Operator::Or)
                | Kind::Keyword(Keyword::In)
        )
    );
    looser || ends_value(tokens, at) || is_target_sign(tokens, at.saturating_add(1))
}

/// Whether a value that is printed, outside of parentheses, ends with a token.
pub(crate) fn ends_printed(tokens: &[Token], at: usize) -> bool {
    ends_value(tokens, at) || is_target_sign(tokens, at.saturating_add(1))
}

/// Whether a value ends with a token: a statement, an argument or brackets end behind it.
pub fn ends_value(tokens: &[Token], at: usize) -> bool {
    match kind_behind(tokens, at, 1) {
        None => true,
        Some(kind) => matches!(
            kind,
            Kind::Comma
                | Kind::Semicolon
                | Kind::Newline
                | Kind::CloseParenthesis
                | Kind::CloseBracket
                | Kind::CloseBrace
                | Kind::OpenBrace
                | Kind::Colon
        ),
    }
}

/// The place of bytes of a string in the text, by where they stand in what it stands for.
pub(crate) fn place_in_string(text: &[u8], token: &Token, from: usize, to: usize) -> Place {
    let source = text_of(text, token);
    let mut place = Place {
        start: token.end,
        end: token.end,
    };
    let mut count = 0usize;
    let mut left = 1usize;
    for at in 0..source.len() {
        if left > 0 {
            left -= 1;
            continue;
        }
        if count == from {
            place.start = token.start.saturating_add(at);
        }
        if count == to {
            place.end = token.start.saturating_add(at);
            return place;
        }
        count = count.saturating_add(1);
        left = spelled_length(source.get(at..).unwrap_or(b"")).saturating_sub(1);
    }
    place
}

/// How many bytes of a string's text spell the first that it stands for.
fn spelled_length(source: &[u8]) -> usize {
    match source {
        [b'\\', b'0'..=b'7', b'0'..=b'7', b'0'..=b'7', ..] => 4,
        [b'\\', b'0'..=b'7', b'0'..=b'7', ..] => 3,
        [b'\\', ..] => 2,
        _ => 1,
    }
}
