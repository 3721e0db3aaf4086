// Which tokens could stand where one can't.

use awk_lex::refusal::RefusalCode;
use awk_lex::token::{AssignmentOperator, Keyword, Kind, Operator, Token};
use awk_syntax::parse;
use std::alloc::{AllocError, Global};

/// How many tokens are tried.
const TRIED: usize = 14;

/// A token that is tried, and what stands for those like it.
fn candidate(number: usize) -> (Kind, &'static [u8]) {
    match number {
        0 => (Kind::Number(0), b"a value"),
        1 => (Kind::Operator(Operator::Or), b"an operator"),
        2 => (Kind::Assign(AssignmentOperator::Plain), b"`=`"),
        3 => (Kind::Comma, b"`,`"),
        4 => (Kind::Semicolon, b"`;`"),
        5 => (Kind::Newline, b"a newline"),
        6 => (Kind::OpenParenthesis, b"`(`"),
        7 => (Kind::CloseParenthesis, b"`)`"),
        8 => (Kind::OpenBracket, b"`[`"),
        9 => (Kind::CloseBracket, b"`]`"),
        10 => (Kind::OpenBrace, b"`{`"),
        11 => (Kind::CloseBrace, b"`}`"),
        12 => (Kind::Keyword(Keyword::In), b"`in`"),
        _ => (Kind::Keyword(Keyword::While), b"`while`"),
    }
}

/// A token with a number for its line.
pub(crate) fn numbered(kind: Kind, number: usize) -> Token {
    Token {
        kind,
        line: number as u64,
        start: 0,
        end: 0,
    }
}

/// Where tokens whose lines are their numbers, from 1, are refused as no program: the number of the token.
pub(crate) fn refused_at(alloc: Global, tokens: &[Token]) -> Result<Option<usize>, AllocError> {
    match parse(alloc, tokens) {
        Err(refusal) => match refusal.code {
            RefusalCode::NotAProgram => Ok(usize::try_from(refusal.line).ok()),
            RefusalCode::OutOfMemory => Err(AllocError),
            _ => Ok(None),
        },
        Ok(_) => Ok(None),
    }
}

/// Whether a token could stand behind these, whose lines are their numbers.
fn fits(alloc: Global, tokens: &mut Vec<Token>, kind: Kind) -> Result<bool, AllocError> {
    let number = tokens.len().saturating_add(1);
    tokens.push(numbered(kind, number))?;
    tokens.push(numbered(Kind::Newline, number.saturating_add(1)))?;
    let refused = refused_at(alloc, tokens.as_slice())?;
    let _ = tokens.pop();
    let _ = tokens.pop();
    Ok(refused != Some(number))
}

/// What could stand behind tokens whose lines are their numbers, in one line.
pub(crate) fn expected_behind(
    alloc: Global,
    tokens: &mut Vec<Token>,
) -> Result<Vec<u8>, AllocError> {
    let mut line = Vec::new(alloc);
    let mut takes_value = false;
    for number in 0..TRIED {
        let (kind, label) = candidate(number);
        let is_value = number == 0;
        if (number == 6 && takes_value) || !fits(alloc, tokens, kind)? {
            continue;
        }
        takes_value = takes_value || is_value;
        if !line.is_empty() {
            line.extend_from_slice(b", ")?;
        }
        line.extend_from_slice(label)?;
    }
    Ok(line)
}
