// Which statement stands where it ends nothing.

use crate::calls::{finding_at, text_of};
use crate::finding::Finding;
use awk_grammar::tree::{Item, SimpleStatement, Statement};
use awk_lex::token::{Keyword, Kind, Token};
use std::alloc::{AllocError, Global};

/// Where a statement stands.
#[derive(Clone, Copy)]
struct Surroundings {
    in_loop: bool,
    in_rule: bool,
    in_function: bool,
}

/// A walk over the statements that end something, in the order of the text.
#[derive(Clone, Copy)]
struct EndingWalk {
    /// How many were met.
    count: usize,
    /// The number of the first that is out of place.
    first: Option<usize>,
}

/// Whether the statement ends something, and whether it may stand there.
fn ending(statement: &SimpleStatement, around: Surroundings) -> Option<bool> {
    match statement {
        SimpleStatement::Break | SimpleStatement::Continue => Some(around.in_loop),
        SimpleStatement::Next | SimpleStatement::NextFile => {
            Some(around.in_rule || around.in_function)
        }
        SimpleStatement::Return(_) => Some(around.in_function),
        _ => None,
    }
}

impl EndingWalk {
    fn meet(&mut self, statement: &SimpleStatement, around: Surroundings) {
        let Some(may_stand) = ending(statement, around) else {
            return;
        };
        if !may_stand && self.first.is_none() {
            self.first = Some(self.count);
        }
        self.count = self.count.saturating_add(1);
    }

    #[cycle(endings)]
    fn walk(&mut self, statement: &Statement, around: Surroundings) {
        let inside = Surroundings {
            in_loop: true,
            ..around
        };
        match statement {
            Statement::Empty => {}
            Statement::Simple(simple) => self.meet(simple, around),
            Statement::Block(all) => self.walk_all(all, around),
            Statement::If(_, then) => self.walk(then, around),
            Statement::IfElse(_, then, other) => {
                self.walk(then, around);
                self.walk(other, around);
            }
            Statement::While(_, body)
            | Statement::Do(body, _)
            | Statement::ForIn(_, _, body)
            | Statement::For(_, body) => self.walk(body, inside),
        }
    }

    #[cycle(endings)]
    fn walk_all(&mut self, all: &[Statement], around: Surroundings) {
        for statement in all {
            self.walk(statement, around);
        }
    }

    fn walk_item(&mut self, item: &Item) {
        let outside = Surroundings {
            in_loop: false,
            in_rule: false,
            in_function: false,
        };
        match item {
            Item::Begin(all) | Item::End(all) => self.walk_all(all, outside),
            Item::Action(all) | Item::PatternAction(_, all) => self.walk_all(
                all,
                Surroundings {
                    in_rule: true,
                    ..outside
                },
            ),
            Item::Function(_, _, all) => self.walk_all(
                all,
                Surroundings {
                    in_function: true,
                    ..outside
                },
            ),
            Item::PatternOnly(_) => {}
        }
    }
}

/// Whether a token begins a statement that ends something.
fn is_ending(token: &Token) -> bool {
    matches!(
        token.kind,
        Kind::Keyword(
            Keyword::Break | Keyword::Continue | Keyword::Next | Keyword::NextFile | Keyword::Return
        )
    )
}

/// Where such a statement may stand.
fn where_it_may_stand(token: &Token) -> &'static [u8] {
    match token.kind {
        Kind::Keyword(Keyword::Break | Keyword::Continue) => b" outside a loop",
        Kind::Keyword(Keyword::Next | Keyword::NextFile) => b" in BEGIN or END",
        _ => b" outside a function",
    }
}

fn ending_advice(token: &Token) -> &'static [u8] {
    match token.kind {
        Kind::Keyword(Keyword::Break | Keyword::Continue) => {
            b"of a rule next ends the actions on the record"
        }
        Kind::Keyword(Keyword::Next | Keyword::NextFile) => b"exit ends them",
        _ => b"exit ends the actions",
    }
}

/// The token of the statement with this number of those that end something.
fn ending_token(tokens: &[Token], number: usize) -> Option<&Token> {
    let mut left = number;
    for token in tokens {
        if is_ending(token) {
            if left == 0 {
                return Some(token);
            }
            left -= 1;
        }
    }
    None
}

/// What is told of a statement, with its first word, that stands where it ends nothing.
fn misplaced_finding(
    alloc: Global,
    token: &Token,
    word: &[u8],
    place: &[u8],
) -> Result<Finding, AllocError> {
    finding_at(alloc, token, &[b": ", word, place], ending_advice(token))
}

/// K6: the first statement that stands where it ends nothing.
pub(crate) fn misplaced(
    alloc: Global,
    text: &[u8],
    tokens: &[Token],
    items: &[Item],
) -> Result<Option<Finding>, AllocError> {
    let mut walk = EndingWalk {
        count: 0,
        first: None,
    };
    for item in items {
        walk.walk_item(item);
    }
    let Some(number) = walk.first else {
        return Ok(None);
    };
    let Some(token) = ending_token(tokens, number) else {
        return Ok(None);
    };
    let place = where_it_may_stand(token);
    Ok(Some(misplaced_finding(alloc, token, text_of(text, token), place)?))
}
