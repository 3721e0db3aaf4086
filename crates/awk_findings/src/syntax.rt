// What to write instead of a token that can't stand where it stands.

use crate::calls::{kind_before, kind_behind, place_of};
use crate::finding::Note;
use awk_lex::token::{AssignmentOperator, BuiltIn, Keyword, Kind, Operator, Token};
use std::alloc::{AllocError, Global};

/// What is open before a token.
#[derive(Clone, Copy)]
struct Opened {
    braces: usize,
    /// How many parentheses and brackets are open in the innermost braces.
    lists: usize,
    /// The token behind which the statement began.
    statement: usize,
}

/// What is open before the token at a place.
fn opened_before(tokens: &[Token], at: usize) -> Opened {
    let mut opened = Opened {
        braces: 0,
        lists: 0,
        statement: 0,
    };
    for (place, token) in tokens.iter().enumerate().take(at) {
        match token.kind {
            Kind::OpenBrace => opened.braces = opened.braces.saturating_add(1),
            Kind::CloseBrace => opened.braces = opened.braces.saturating_sub(1),
            Kind::OpenParenthesis | Kind::OpenBracket => {
                opened.lists = opened.lists.saturating_add(1);
            }
            Kind::CloseParenthesis | Kind::CloseBracket => {
                opened.lists = opened.lists.saturating_sub(1);
            }
            _ => {}
        }
        let ends = matches!(
            token.kind,
            Kind::OpenBrace | Kind::CloseBrace | Kind::Newline | Kind::Semicolon
        );
        if ends && opened.lists == 0 {
            opened.statement = place;
        }
    }
    opened
}

/// The bracket that is open before the token at a place, the innermost.
fn open_before(tokens: &[Token], at: usize) -> Option<usize> {
    let mut closed = 0usize;
    for place in (0..at).rev() {
        match kind_behind(tokens, place, 0)? {
            Kind::CloseParenthesis | Kind::CloseBracket => closed = closed.saturating_add(1),
            Kind::OpenParenthesis | Kind::OpenBracket if closed == 0 => return Some(place),
            Kind::OpenParenthesis | Kind::OpenBracket => closed = closed.saturating_sub(1),
            _ => {}
        }
    }
    None
}

/// Whether the parenthesis that closes at a place is that of an if, a while or a for.
fn closes_head(tokens: &[Token], close: usize) -> bool {
    match open_before(tokens, close) {
        Some(open) => matches!(
            kind_before(tokens, open, 1),
            Some(Kind::Keyword(Keyword::If | Keyword::While | Keyword::For))
        ),
        None => false,
    }
}

/// Whether a pattern stands between two tokens: what is compared, matched or joined by && and ||.
fn has_pattern(tokens: &[Token], from: usize, to: usize) -> bool {
    for token in tokens.get(from..to).unwrap_or(&[]) {
        let tells = match &token.kind {
            Kind::Ere(_) | Kind::Not | Kind::Operator(Operator::And | Operator::Or) => true,
            kind => is_comparison(kind),
        };
        if tells {
            return true;
        }
    }
    false
}

/// Whether a print with a target stands between two tokens.
fn has_target(tokens: &[Token], from: usize, to: usize) -> bool {
    let mut prints = false;
    for token in tokens.get(from..to).unwrap_or(&[]) {
        match token.kind {
            Kind::Keyword(Keyword::Print | Keyword::Printf) => prints = true,
            Kind::Operator(Operator::Greater) | Kind::Append | Kind::Bar if prints => return true,
            _ => {}
        }
    }
    false
}

fn is_comparison(kind: &Kind) -> bool {
    matches!(
        kind,
        Kind::Operator(
            Operator::Less
                | Operator::LessEqual
                | Operator::Equal
                | Operator::NotEqual
                | Operator::Greater
                | Operator::GreaterEqual
                | Operator::Matches
                | Operator::NotMatches
        )
    )
}

/// How many arguments a built-in function takes.
fn argument_advice(function: BuiltIn) -> &'static [u8] {
    match function {
        BuiltIn::Length => b"length takes one argument or none",
        BuiltIn::Substr => b"substr takes a text, a position, and perhaps a count",
        BuiltIn::Index => b"index takes a text and what is looked for in it",
        BuiltIn::Split => b"split takes a text, an array, and perhaps a separator",
        BuiltIn::Sub | BuiltIn::Gsub => {
            b"sub and gsub take a pattern, a text, and perhaps a name, an element or a field"
        }
        BuiltIn::Match => b"match takes a text and a pattern",
        BuiltIn::Sprintf => b"sprintf takes a format and its values",
        BuiltIn::Close => b"close takes the name alone",
        _ => b"it takes one argument",
    }
}

/// What to write where an expression ends in a list.
fn list_advice(tokens: &[Token], at: usize, kind: &Kind) -> &'static [u8] {
    let Some(open) = open_before(tokens, at) else {
        return b"";
    };
    match kind_before(tokens, open, 1) {
        Some(Kind::BuiltIn(function)) => argument_advice(*function),
        Some(Kind::Keyword(Keyword::For)) if matches!(kind, Kind::CloseParenthesis) => {
            b"a for has three parts, for (i = 1; i <= n; i++), or it walks, for (k in a)"
        }
        Some(Kind::Keyword(Keyword::For)) => {
            b"each part of a for is one expression: set the other variable before it"
        }
        _ => b"",
    }
}

const NO_DECLARATIONS: &[u8] = b"variables aren't declared: leave the word before the name out";

pub(crate) const REMARKS: &[u8] = b"a remark begins with # and goes to the end of the line";

const STATEMENT_MISSING: &[u8] = b"a statement is missing before the }: write ; for none";

/// Whether a function is raised or lowered directly before a token.
fn is_behind_raised(tokens: &[Token], at: usize) -> bool {
    matches!(
        (kind_before(tokens, at, 1), kind_before(tokens, at, 2)),
        (Some(Kind::Increment(_)), Some(Kind::BuiltIn(_)))
    )
}

/// What to write instead of a token behind another one.
fn pair_advice(before: &Kind, kind: &Kind) -> &'static [u8] {
    match (before, kind) {
        (Kind::Operator(Operator::Times), Kind::Operator(Operator::Times)) => {
            b"a power is x ^ y"
        }
        (Kind::Operator(Operator::Times), Kind::Assign(AssignmentOperator::Multiply)) => {
            b"a power is assigned by x ^= y"
        }
        (Kind::Keyword(Keyword::If | Keyword::While), _) => {
            b"the condition stands in parentheses"
        }
        (Kind::Keyword(Keyword::For), _) => {
            b"behind for stand parentheses: for (k in a), or for (i = 1; i <= n; i++)"
        }
        (Kind::Assign(AssignmentOperator::Plain), Kind::Operator(Operator::Matches)) => {
            b"whether a text matches is x ~ /pattern/"
        }
        (Kind::Operator(Operator::Less), Kind::Operator(Operator::Greater)) => {
            b"whether two values differ is x != y"
        }
        (Kind::Operator(Operator::Less), Kind::Operator(Operator::Less)) => {
            b"bits are moved by x * 2 ^ n"
        }
        (Kind::Assign(AssignmentOperator::Plain), Kind::Operator(Operator::Greater)) => {
            b"what is at least as great is x >= y"
        }
        (
            Kind::Operator(Operator::Equal | Operator::NotEqual),
            Kind::Assign(AssignmentOperator::Plain),
        ) => b"two values are compared by == and !=",
        (Kind::Colon, Kind::Assign(AssignmentOperator::Plain)) => b"an assignment is x = 1",
        (Kind::CloseBracket, Kind::OpenBracket) => {
            b"an element is no array: write a[i, j], whose key joins both by SUBSEP"
        }
        (Kind::BuiltIn(BuiltIn::Int), Kind::Name(_)) => NO_DECLARATIONS,
        (Kind::BuiltIn(BuiltIn::Length), _) => b"",
        (
            Kind::BuiltIn(_),
            Kind::String(_) | Kind::Name(_) | Kind::Number(_) | Kind::Dollar | Kind::Ere(_),
        ) => b"what a function takes stands in parentheses behind its name",
        (Kind::Dollar, _) => b"behind $ more than a name or a number stands in parentheses: $(-1)",
        (Kind::Keyword(Keyword::Begin | Keyword::End), Kind::Newline) => {
            b"the { stands on the line of BEGIN or END"
        }
        (Kind::Keyword(Keyword::Begin | Keyword::End), _) => b"behind BEGIN and END stands a {",
        (Kind::Newline | Kind::Semicolon, Kind::Keyword(Keyword::Else)) => {
            b"before else stands one statement, or several in braces"
        }
        (Kind::Newline, Kind::Operator(_) | Kind::Question | Kind::Colon) => {
            b"an operator stands at the end of the line before, behind && and || without a backslash"
        }
        (Kind::Keyword(Keyword::Else | Keyword::Do), Kind::CloseBrace) => STATEMENT_MISSING,
        _ => b"",
    }
}

/// What to write instead of a token, whatever stands before it.
fn token_advice(tokens: &[Token], at: usize, kind: &Kind, opened: Opened) -> &'static [u8] {
    match kind {
        Kind::CloseBrace if opened.braces == 0 => b"no { is open here",
        Kind::CloseBrace | Kind::OpenBrace | Kind::Semicolon if opened.lists > 0 => {
            b"a ) or ] is missing before it"
        }
        Kind::CloseBrace if closes_head(tokens, at.saturating_sub(1)) => STATEMENT_MISSING,
        Kind::OpenBrace if opened.braces > 0 && has_pattern(tokens, opened.statement, at) => {
            b"in braces a condition stands behind if: if (x == 1) { .. }"
        }
        Kind::Colon if matches!(kind_behind(tokens, at, 1), Some(Kind::Assign(_))) => {
            b"an assignment is x = 1"
        }
        Kind::OpenBracket => b"there are no lists: split(\"1 2 3\", a) makes an array of three",
        Kind::Keyword(Keyword::Function | Keyword::Begin | Keyword::End) if opened.braces > 0 => {
            b"a } is missing before it"
        }
        Kind::Assign(_) => {
            b"a name, an element or a field is assigned; as an operand the assignment stands in parentheses"
        }
        _ if is_comparison(kind) => {
            b"comparisons don't chain: (a < b) < c; an operand of && stands before it"
        }
        Kind::Comma | Kind::CloseParenthesis => list_advice(tokens, at, kind),
        Kind::Newline if opened.lists > 0 => match kind_before(tokens, at, 1) {
            Some(Kind::Semicolon) => {
                b"the parts of a for stand on one line, or a backslash ends the line"
            }
            _ => b"a list goes on behind a comma, && and ||, and else behind a backslash",
        },
        _ => b"",
    }
}

/// Whether a pattern is likely the front of another language's remark.
pub(crate) fn is_remark(ere: &[u8]) -> bool {
    ere.is_empty() || (ere.starts_with(b"*") && ere.ends_with(b"*"))
}

/// What to write instead of a word that is no keyword, or of a pattern, in a statement.
fn word_advice(tokens: &[Token], from: usize, to: usize) -> &'static [u8] {
    for token in tokens.get(from..to).unwrap_or(&[]) {
        match &token.kind {
            Kind::Name(word) | Kind::Called(word) => match word.as_slice() {
                b"elseif" | b"elsif" | b"elif" => return b"write else if",
                b"switch" | b"case" | b"foreach" => {
                    return b"there is no such statement: write if and else if, or for (k in a)";
                }
                b"func" | b"def" | b"sub" => return b"write function",
                b"var"
                | b"let"
                | b"local"
                | b"my"
                | b"global"
                | b"string"
                | b"float"
                | b"double"
                | b"char"
                | b"const" => return NO_DECLARATIONS,
                _ => {}
            },
            Kind::Ere(ere) if is_remark(ere.as_slice()) => return REMARKS,
            Kind::Ere(_) => return b"a slash in a pattern, also in brackets, is written \\/",
            _ => {}
        }
    }
    b""
}

/// What to write instead of the token at a place, which can't stand there.
pub fn syntax_advice(tokens: &[Token], at: usize) -> &'static [u8] {
    let Some(kind) = kind_behind(tokens, at, 0) else {
        return b"";
    };
    if is_behind_raised(tokens, at) {
        return b"a variable, an element or a field is raised or lowered: this is a function";
    }
    let opened = opened_before(tokens, at);
    if let Some(before) = kind_before(tokens, at, 1) {
        let advice = pair_advice(before, kind);
        if !advice.is_empty() {
            return advice;
        }
    }
    if opened.lists == 0 && has_target(tokens, opened.statement, at) {
        return match kind {
            Kind::Operator(Operator::Greater) | Kind::Append | Kind::Bar => {
                b"one print has one target: print | \"sort >out\""
            }
            _ => b"a target that is joined or computed stands in parentheses: print > (a \".out\")",
        };
    }
    let word = match kind {
        Kind::Assign(_) => word_advice(tokens, opened.statement, at),
        _ => b"",
    };
    if !word.is_empty() {
        return word;
    }
    for advice in [
        token_advice(tokens, at, kind, opened),
        word_advice(tokens, opened.statement, at),
    ] {
        if !advice.is_empty() {
            return advice;
        }
    }
    match kind {
        Kind::Keyword(_) if opened.braces > 0 && opened.lists == 0 => {
            b"a ; or a newline stands between two statements, and before else"
        }
        _ => b"",
    }
}

/// The innermost brace, parenthesis or bracket that is open behind all tokens.
pub fn last_open(alloc: Global, tokens: &[Token]) -> Result<Option<Note>, AllocError> {
    let mut open = Vec::new(alloc);
    for token in tokens {
        match token.kind {
            Kind::OpenBrace | Kind::OpenParenthesis | Kind::OpenBracket => {
                open.push(place_of(token))?;
            }
            Kind::CloseBrace | Kind::CloseParenthesis | Kind::CloseBracket => {
                let _ = open.pop();
            }
            _ => {}
        }
    }
    Ok(
        open.pop().map(|place| Note {
            place,
            message: b"it is opened here",
        }),
    )
}

/// The innermost open bracket behind all tokens, where it is no brace.
pub fn open_list(alloc: Global, tokens: &[Token]) -> Result<Option<Note>, AllocError> {
    if opened_before(tokens, tokens.len()).lists == 0 {
        return Ok(None);
    }
    last_open(alloc, tokens)
}
