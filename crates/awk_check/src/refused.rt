// What is told of a text that is refused.

use crate::expected::{expected_behind, numbered, refused_at};
use awk_findings::{
    Finding, Place, last_open, lexical_finding, name_finding, open_list, pattern_finding,
    plain_finding, syntax_advice, syntax_finding,
};
use awk_lex::lexer::tokens;
use awk_lex::refusal::{Refusal, RefusalCode};
use awk_lex::token::{Kind, Token};
use awk_syntax::parse;
use std::alloc::{AllocError, Global};

/// The most bytes of a token that a message shows.
const SHOWN: usize = 60;

/// Gives each token its number, from 1, for its line.
fn number_all(tokens: &mut Vec<Token>) {
    for (at, token) in tokens.iter_mut().enumerate() {
        token.line = (at as u64).saturating_add(1);
    }
}

/// The tokens of a text that is a list of them; their lines are their numbers.
fn numbered_tokens(alloc: Global, text: &[u8]) -> Result<Vec<Token>, AllocError> {
    match tokens(alloc, text) {
        Ok(found) => {
            let mut found = found;
            number_all(&mut found);
            Ok(found)
        }
        Err(_) => Err(AllocError),
    }
}

/// Whether the tokens, which are refused at the last one, only end too early.
fn ends_early(alloc: Global, tokens: &mut Vec<Token>) -> Result<bool, AllocError> {
    let count = tokens.len();
    tokens.push(numbered(Kind::Newline, count.saturating_add(1)))?;
    let refused = refused_at(alloc, tokens.as_slice())?;
    let _ = tokens.pop();
    Ok(refused != Some(count))
}

fn place_of(token: &Token) -> Place {
    Place {
        start: token.start,
        end: token.end,
    }
}

/// The token as a message shows it.
fn shown<'a>(text: &'a [u8], token: &Token) -> &'a [u8] {
    match token.kind {
        Kind::Newline => b"a newline",
        _ => {
            let found = text.get(token.start..token.end).unwrap_or(b"");
            found.get(..SHOWN).unwrap_or(found)
        }
    }
}

/// What is told where the text ends too early.
fn early_end(alloc: Global, found: &mut Vec<Token>) -> Result<Finding, AllocError> {
    let place = found.last().map(|token| place_of(token));
    let other = last_open(alloc, found.as_slice())?;
    let expected = expected_behind(alloc, found)?;
    let advice = match other {
        Some(_) => b"close what is open".as_slice(),
        None => b"",
    };
    syntax_finding(
        alloc,
        place,
        &[b": the text ends too early"],
        other,
        expected,
        advice,
    )
}

/// Whether a token stands in no list.
fn is_end(kind: &Kind) -> bool {
    matches!(
        kind,
        Kind::CloseBrace | Kind::OpenBrace | Kind::Newline | Kind::Semicolon
    )
}

/// What is told of a text that is tokens and no program.
fn refused_syntax(alloc: Global, text: &[u8]) -> Result<Finding, AllocError> {
    let mut found = numbered_tokens(alloc, text)?;
    let number = refused_at(alloc, found.as_slice())?.unwrap_or(0);
    if number == found.len() && ends_early(alloc, &mut found)? {
        return early_end(alloc, &mut found);
    }
    let Some(at) = number.checked_sub(1) else {
        return plain_finding(alloc, RefusalCode::NotAProgram);
    };
    let Some(token) = found.get(at) else {
        return plain_finding(alloc, RefusalCode::NotAProgram);
    };
    let place = place_of(token);
    let word = shown(text, token);
    let advice = syntax_advice(found.as_slice(), at);
    let ends_list = matches!(found.get(at), Some(token) if is_end(&token.kind));
    found.truncate(at);
    let other = if ends_list {
        open_list(alloc, found.as_slice())?
    } else {
        None
    };
    let expected = expected_behind(alloc, &mut found)?;
    let message = [b": ".as_slice(), word, b" can't stand here"];
    syntax_finding(alloc, Some(place), &message, other, expected, advice)
}

/// What is told of a program with an ERE that is refused.
fn refused_pattern(alloc: Global, text: &[u8], code: RefusalCode) -> Result<Finding, AllocError> {
    let found = numbered_tokens(alloc, text)?;
    let Err(refusal) = parse(alloc, found.as_slice()) else {
        return plain_finding(alloc, code);
    };
    if refusal.code == RefusalCode::OutOfMemory {
        return Err(AllocError);
    }
    let number = usize::try_from(refusal.line).unwrap_or(0);
    match number.checked_sub(1).and_then(|at| found.get(at)) {
        Some(token) => pattern_finding(alloc, text, token, code),
        None => plain_finding(alloc, code),
    }
}

/// What is told of a program that is refused for its names, or for where its statements stand.
fn refused_name(alloc: Global, text: &[u8], code: RefusalCode) -> Result<Finding, AllocError> {
    let found = numbered_tokens(alloc, text)?;
    match parse(alloc, &found) {
        Ok(tree) => name_finding(alloc, text, &found, &tree.items, code),
        Err(_) => Err(AllocError),
    }
}

/// What is told of a text that is refused.
pub(crate) fn refused_finding(
    alloc: Global,
    text: &[u8],
    refusal: Refusal,
) -> Result<Finding, AllocError> {
    let code = refusal.code;
    match code {
        RefusalCode::OutOfMemory => Err(AllocError),
        RefusalCode::UnexpectedByte
        | RefusalCode::OpenString
        | RefusalCode::EscapeRefused
        | RefusalCode::OpenPattern
        | RefusalCode::NumberRefused
        | RefusalCode::ProgramTooLong => lexical_finding(alloc, text, refusal),
        RefusalCode::NotAProgram => refused_syntax(alloc, text),
        RefusalCode::PatternIllFormed
        | RefusalCode::PatternCountRefused
        | RefusalCode::PatternTooLarge => refused_pattern(alloc, text, code),
        RefusalCode::NestedTooDeep => plain_finding(alloc, code),
        _ => refused_name(alloc, text, code),
    }
}
