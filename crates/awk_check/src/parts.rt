// The statements and patterns of a program in the order of its text, and where each stands.

use crate::reasons::Part as Surroundings;
use crate::statements::StatementScan;
use awk_findings::Place;
use awk_findings::calls::{kind_before, kind_behind, place_of};
use awk_lex::token::{Keyword, Kind, Token};
use std::alloc::{AllocError, Global};

/// A statement or a pattern.
#[derive(Clone, Copy)]
pub(crate) struct Part {
    /// Where it stands, without the statements in it.
    pub(crate) place: Place,
    /// The token that is the name of the function that it stands in.
    pub(crate) function: Option<usize>,
}

/// A scan of the tokens of an accepted program.
#[derive(Drop)]
struct PartScan<'a> {
    tokens: &'a [Token],
    statements: StatementScan<'a>,
    parts: Vec<Part>,
    /// The part that goes on here.
    current: Option<usize>,
    /// The `for` whose parentheses are open.
    head: Option<usize>,
    /// How many semicolons these have so far.
    semicolons: usize,
    function: Option<usize>,
}

/// Whether a token may begin a statement or a pattern.
fn may_begin(kind: &Kind) -> bool {
    !matches!(
        kind,
        Kind::Newline
            | Kind::Semicolon
            | Kind::OpenBrace
            | Kind::CloseBrace
            | Kind::Keyword(Keyword::Begin | Keyword::End | Keyword::Function | Keyword::Else)
    )
}

/// Whether the `for` at a token goes over the keys of an array.
fn is_walk(tokens: &[Token], at: usize) -> bool {
    matches!(kind_behind(tokens, at, 3), Some(Kind::Keyword(Keyword::In)))
        && matches!(kind_behind(tokens, at, 5), Some(Kind::CloseParenthesis))
}

impl<'a> PartScan<'a> {
    /// Whether a part of the `for` whose parentheses are open begins at a token.
    fn begins_in_head(&self, at: usize, kind: &Kind) -> bool {
        if self.head.is_none() || self.statements.items.lists != 1 {
            return false;
        }
        match kind_before(self.tokens, at, 1) {
            Some(Kind::OpenParenthesis) => !matches!(kind, Kind::Semicolon),
            Some(Kind::Semicolon) => {
                self.semicolons == 2 && !matches!(kind, Kind::CloseParenthesis)
            }
            _ => false,
        }
    }

    /// Whether a statement or a pattern begins at a token.
    fn begins(&self, at: usize, kind: &Kind) -> bool {
        let is_loop_end = self.statements.ends_do && matches!(kind, Kind::Keyword(Keyword::While));
        (self.statements.begins && may_begin(kind) && !is_loop_end) || self.begins_in_head(at, kind)
    }

    /// Begins a statement or a pattern.
    fn begin(&mut self, at: usize, token: &Token) -> Result<(), AllocError> {
        let number = self.parts.len();
        self.parts.push(Part {
            place: place_of(token),
            function: self.function,
        })?;
        self.current = Some(number);
        if matches!(token.kind, Kind::Keyword(Keyword::For)) && !is_walk(self.tokens, at) {
            self.head = Some(number);
            self.semicolons = 0;
        }
        Ok(())
    }

    /// The part that goes on here has a token more.
    fn extend(&mut self, token: &Token) {
        if let Some(part) = self.current.and_then(|number| self.parts.get_mut(number)) {
            part.place.end = token.end;
        }
    }

    /// Goes over what a token is to the parts, before the statements go over it.
    fn meet(&mut self, at: usize, token: &Token) -> Result<(), AllocError> {
        match token.kind {
            Kind::Keyword(Keyword::Function) => self.function = Some(at.saturating_add(1)),
            Kind::Semicolon if self.head.is_some() => {
                self.semicolons = self.semicolons.saturating_add(1);
                self.current = self.head;
                self.extend(token);
            }
            Kind::Semicolon | Kind::OpenBrace | Kind::CloseBrace => self.current = None,
            Kind::Newline => {}
            Kind::CloseParenthesis if self.statements.items.lists == 1 && self.head.is_some() => {
                self.current = self.head;
                self.head = None;
                self.extend(token);
            }
            ref kind if self.begins(at, kind) => self.begin(at, token)?,
            _ => self.extend(token),
        }
        Ok(())
    }

    /// Goes over a token.
    fn step(&mut self, at: usize, token: &Token) -> Result<(), AllocError> {
        self.meet(at, token)?;
        self.statements.step(at, &token.kind)?;
        if self.statements.begins {
            self.current = None;
        }
        if self.statements.begins && self.statements.items.part == Surroundings::Pattern {
            self.function = None;
        }
        Ok(())
    }
}

/// The statements and patterns of an accepted program, with those in the parentheses of a `for`, in the order of its text.
pub(crate) fn parts_of(alloc: Global, tokens: &[Token]) -> Result<Vec<Part>, AllocError> {
    let mut scan = PartScan {
        tokens,
        statements: StatementScan::new(alloc, tokens),
        parts: Vec::new(alloc),
        current: None,
        head: None,
        semicolons: 0,
        function: None,
    };
    for (at, token) in tokens.iter().enumerate() {
        scan.step(at, token)?;
    }
    Ok(scan.parts)
}
