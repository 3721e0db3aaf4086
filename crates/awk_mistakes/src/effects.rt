// Statements that do nothing, are never come to, or do something else than they look like.

use crate::forms::next_word;
use crate::mistakes::Mistakes;
use crate::statements::{Item, Simple, closing};
use awk_findings::Note;
use awk_findings::calls::{Stretch, kind_before, kind_behind, name_of, place_of};
use awk_kinds::is_of_values;
use awk_lex::token::{AssignmentOperator, BuiltIn, Keyword, Kind, Operator, Token};
use std::alloc::AllocError;

/// Whether a built-in function only gives a value.
fn gives_only(function: BuiltIn) -> bool {
    matches!(function, BuiltIn::Length) || is_of_values(function)
}

/// Whether something may come of a statement that has this token.
fn does_something(kind: &Kind) -> bool {
    match kind {
        Kind::Assign(_)
        | Kind::Increment(_)
        | Kind::Keyword(_)
        | Kind::Called(_)
        | Kind::OpenBracket
        | Kind::Bar => true,
        Kind::BuiltIn(function) => !gives_only(*function),
        _ => false,
    }
}

/// Whether nothing comes of the statement that these tokens are.
fn is_idle(tokens: &[Token]) -> bool {
    for token in tokens {
        if does_something(&token.kind) {
            return false;
        }
    }
    true
}

/// The first comparison among tokens, outside of brackets.
fn compared(tokens: &[Token]) -> Option<&Token> {
    for token in tokens {
        match token.kind {
            Kind::OpenParenthesis => return None,
            Kind::Operator(
                Operator::Equal | Operator::NotEqual | Operator::Matches | Operator::NotMatches,
            ) => return Some(token),
            _ => {}
        }
    }
    None
}

/// Whether the record is assigned as a whole somewhere.
fn assigns_record(tokens: &[Token]) -> bool {
    for at in 0..tokens.len() {
        let is_record = matches!(
            (kind_behind(tokens, at, 0), kind_behind(tokens, at, 1)),
            (Some(Kind::Dollar), Some(Kind::Number(0)))
        );
        if is_record && matches!(kind_behind(tokens, at, 2), Some(Kind::Assign(_))) {
            return true;
        }
    }
    false
}

/// The token that is the file which a print is led to, where it is one alone.
pub(crate) fn target_of(tokens: &[Token], statement: Stretch) -> Option<&Token> {
    let mut depth = 0usize;
    for at in statement.from..statement.to {
        match kind_behind(tokens, at, 0)? {
            Kind::OpenParenthesis | Kind::OpenBracket => depth = depth.saturating_add(1),
            Kind::CloseParenthesis | Kind::CloseBracket => depth = depth.saturating_sub(1),
            Kind::Operator(Operator::Greater) | Kind::Append if depth == 0 => {
                let target = at.saturating_add(1);
                if target.saturating_add(1) == statement.to {
                    return tokens.get(target);
                }
                return None;
            }
            _ => {}
        }
    }
    None
}

impl<'a> Mistakes<'a> {
    /// `print x > 10`.
    pub(crate) fn add_numbered_target(&mut self, statement: Stretch) -> Result<(), AllocError> {
        match target_of(self.tokens, statement) {
            Some(token) if matches!(token.kind, Kind::Number(_)) => self.add(
                token,
                b"a number is the name of the file that is printed to",
                b"a comparison that is printed stands in parentheses: print (a > b)",
            ),
            _ => Ok(()),
        }
    }

    /// What stands behind a statement that ends its list.
    pub(crate) fn add_unreached(&mut self, statement: Simple) -> Result<(), AllocError> {
        let ending = self.tokens.get(statement.stretch.from);
        let behind = next_word(self.tokens, statement.stretch.to);
        let (Some(ending), Some(place), true) = (ending, behind, statement.is_listed) else {
            return Ok(());
        };
        match self.tokens.get(place) {
            Some(token) if !matches!(token.kind, Kind::CloseBrace) => {
                let note = Note {
                    place: place_of(ending),
                    message: b"it ends the list of statements here",
                };
                self.add_with(token, b"what stands here is never run", Some(note), b"")
            }
            _ => Ok(()),
        }
    }

    /// FS, assigned as the first thing of a rule without a pattern.
    pub(crate) fn add_late_separator(&mut self, statement: Simple) -> Result<(), AllocError> {
        let from = statement.stretch.from;
        let is_first = matches!(kind_before(self.tokens, from, 1), Some(Kind::OpenBrace));
        let is_rule = statement.item == Item::Action && statement.braces == 1;
        let is_assigned = matches!(
            kind_behind(self.tokens, from, 1),
            Some(Kind::Assign(AssignmentOperator::Plain))
        );
        match self.tokens.get(from) {
            Some(token) if is_first && is_rule && is_assigned && is_separator(token) => {
                if assigns_record(self.tokens) {
                    return Ok(());
                }
                self.add(
                    token,
                    b"FS that is set here splits the next record, and not this one",
                    b"set it in BEGIN, or by -F",
                )
            }
            _ => Ok(()),
        }
    }

    /// A comparison, or a call that only gives a value, as a statement.
    pub(crate) fn add_idle(&mut self, statement: Stretch) -> Result<(), AllocError> {
        let all = self.tokens;
        let tokens = all.get(statement.from..statement.to).unwrap_or(&[]);
        if !is_idle(tokens) {
            return Ok(());
        }
        if let Some(token) = compared(tokens) {
            let advice = match token.kind {
                Kind::Operator(Operator::Equal) => b"an assignment is x = 1".as_slice(),
                _ => b"",
            };
            return self.add(token, b"nothing comes of this comparison", advice);
        }
        let open = statement.from.saturating_add(1);
        match tokens.first() {
            Some(token) if matches!(token.kind, Kind::BuiltIn(_)) => {
                if closing(all, open) != statement.to.checked_sub(1) {
                    return Ok(());
                }
                self.add(
                    token,
                    b"nothing comes of this call: it gives a value, and changes none",
                    b"assign it, as x = toupper(x)",
                )
            }
            _ => Ok(()),
        }
    }

    /// A block on the line behind a pattern.
    pub(crate) fn add_lone_block(&mut self, at: usize) -> Result<(), AllocError> {
        let pattern = at.checked_sub(2).and_then(|place| self.tokens.get(place));
        let (Some(pattern), Some(token)) = (pattern, self.tokens.get(at)) else {
            return Ok(());
        };
        let note = Note {
            place: place_of(pattern),
            message: b"the pattern ends here, and prints its records",
        };
        self.add_with(
            token,
            b"a block on a line of its own is run on each record",
            Some(note),
            b"the { stands on the line of its pattern",
        )
    }
}

/// Whether a token is FS.
fn is_separator(token: &Token) -> bool {
    match &token.kind {
        Kind::Name(name) => name.as_slice() == b"FS".as_slice(),
        _ => false,
    }
}

/// Whether a token may keep a function from coming to what stands behind it.
fn decides(kind: &Kind) -> bool {
    matches!(
        kind,
        Kind::Question
            | Kind::Operator(Operator::And | Operator::Or)
            | Kind::Keyword(
                Keyword::If
                    | Keyword::While
                    | Keyword::For
                    | Keyword::Do
                    | Keyword::Next
                    | Keyword::NextFile
                    | Keyword::Exit
            )
    )
}

/// The call by which a function, whose body follows these tokens, calls itself whatever it is given.
fn endless_call<'a>(body: &'a [Token], function: &[u8]) -> Option<&'a Token> {
    let mut braces = 0usize;
    let mut returns = false;
    for token in body {
        match &token.kind {
            Kind::OpenBrace => braces = braces.saturating_add(1),
            Kind::CloseBrace if braces <= 1 => return None,
            Kind::CloseBrace => braces -= 1,
            Kind::Keyword(Keyword::Return) => returns = true,
            Kind::Semicolon | Kind::Newline if returns => return None,
            Kind::Called(name) if name.as_slice() == function => return Some(token),
            // (another function may exit)
            Kind::Called(_) => return None,
            kind if decides(kind) => return None,
            _ => {}
        }
    }
    None
}

impl<'a> Mistakes<'a> {
    /// A function that always calls itself.
    pub(crate) fn add_endless(&mut self, at: usize) -> Result<(), AllocError> {
        let name = at.saturating_add(1);
        let all = self.tokens;
        let Some(function) = all.get(name).and_then(|token| name_of(token)) else {
            return Ok(());
        };
        let body = all.get(name.saturating_add(1)..).unwrap_or(&[]);
        match endless_call(body, function) {
            Some(token) => self.add(
                token,
                b"each call of this function comes to this call: fault 11 when it is met, if no other comes before",
                b"decide by an if whether it is called again",
            ),
            None => Ok(()),
        }
    }
}
