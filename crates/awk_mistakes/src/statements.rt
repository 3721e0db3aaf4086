// The simple statements of a program, by their tokens.

use awk_findings::calls::{Stretch, kind_before};
use awk_lex::token::{Keyword, Kind, Operator, Token};
use std::alloc::{AllocError, Global};

/// What a statement stands in.
#[derive(Clone, Copy, PartialEq, Eq)]
pub(crate) enum Item {
    Begin,
    End,
    Function,
    /// A rule without a pattern.
    Action,
    /// A rule with a pattern.
    Rule,
}

/// A simple statement.
#[derive(Clone, Copy)]
pub(crate) struct Simple {
    pub(crate) stretch: Stretch,
    /// Whether it stands in a list of statements, and is no body of an if, an else or a loop.
    pub(crate) is_listed: bool,
    /// How many braces it stands in.
    pub(crate) braces: usize,
    pub(crate) item: Item,
}

/// The statements of a program, and what else is seen on the way.
#[derive(Drop)]
pub(crate) struct Statements {
    pub(crate) simple: Vec<Simple>,
    /// The braces that stand on the line behind a pattern alone.
    pub(crate) lone_blocks: Vec<usize>,
    /// Whether there is anything but BEGIN and functions.
    pub(crate) has_rules: bool,
}

/// What an open parenthesis or bracket belongs to.
#[derive(Clone, Copy, PartialEq, Eq)]
enum Owner {
    /// `if (`, `while (` or `for (`
    Head,
    Other,
}

/// A scan for statements.
#[derive(Drop)]
struct StatementScan {
    found: Statements,
    /// The parentheses and brackets that are open.
    owners: Vec<Owner>,
    braces: usize,
    /// The item that has begun.
    item: Option<Item>,
    /// The token that ended the line of a pattern alone.
    lone_pattern: Option<usize>,
    /// The token at which a simple statement began.
    begun: Option<usize>,
    /// Whether the statement to come is the body of an if, an else or a loop.
    depends: bool,
}

fn owner_of(tokens: &[Token], open: usize) -> Owner {
    match kind_before(tokens, open, 1) {
        Some(Kind::Keyword(Keyword::If | Keyword::While | Keyword::For)) => Owner::Head,
        _ => Owner::Other,
    }
}

/// The item that begins with a token which is no brace.
fn item_of(kind: &Kind) -> Item {
    match kind {
        Kind::Keyword(Keyword::Begin) => Item::Begin,
        Kind::Keyword(Keyword::End) => Item::End,
        Kind::Keyword(Keyword::Function) => Item::Function,
        _ => Item::Rule,
    }
}

/// Whether a line goes on behind a newline.
fn goes_on(tokens: &[Token], newline: usize) -> bool {
    matches!(
        kind_before(tokens, newline, 1),
        Some(Kind::Comma | Kind::Operator(Operator::And | Operator::Or))
    )
}

impl StatementScan {
    fn begin_item(&mut self, item: Item) {
        self.item = Some(item);
        if !matches!(item, Item::Begin | Item::Function) {
            self.found.has_rules = true;
        }
    }

    /// A token that stands in an item or in a statement, or begins one.
    fn begin(&mut self, at: usize, kind: &Kind) {
        if !self.owners.is_empty() {
            return;
        }
        if self.braces == 0 {
            if self.item.is_none() {
                self.begin_item(item_of(kind));
            }
        } else if self.begun.is_none() {
            self.begun = Some(at);
        }
    }

    /// A token behind a statement.
    fn end(&mut self, at: usize) -> Result<(), AllocError> {
        let Some(from) = self.begun else {
            return Ok(());
        };
        self.begun = None;
        let statement = Simple {
            stretch: Stretch { from, to: at },
            is_listed: !self.depends,
            braces: self.braces,
            item: self.item.unwrap_or(Item::Action),
        };
        self.found.simple.push(statement)?;
        self.depends = false;
        Ok(())
    }

    fn open_brace(&mut self, at: usize) -> Result<(), AllocError> {
        if self.braces == 0 && self.item.is_none() {
            self.begin_item(Item::Action);
            if at > 0 && self.lone_pattern == at.checked_sub(1) {
                self.found.lone_blocks.push(at)?;
            }
        }
        self.braces = self.braces.saturating_add(1);
        self.begun = None;
        self.depends = false;
        Ok(())
    }

    fn close_brace(&mut self, at: usize) -> Result<(), AllocError> {
        self.end(at)?;
        self.braces = self.braces.saturating_sub(1);
        self.depends = false;
        if self.braces == 0 {
            self.item = None;
        }
        Ok(())
    }

    /// A newline outside of parentheses and brackets.
    fn newline(&mut self, tokens: &[Token], at: usize) -> Result<(), AllocError> {
        if goes_on(tokens, at) {
            return Ok(());
        }
        self.end(at)?;
        if self.braces == 0 && self.item == Some(Item::Rule) {
            self.item = None;
            self.lone_pattern = Some(at);
        }
        Ok(())
    }

    fn semicolon(&mut self, at: usize) -> Result<(), AllocError> {
        self.end(at)?;
        self.depends = false;
        if self.braces == 0 {
            self.item = None;
        }
        Ok(())
    }

    fn step(&mut self, tokens: &[Token], at: usize, token: &Token) -> Result<(), AllocError> {
        match &token.kind {
            Kind::OpenParenthesis | Kind::OpenBracket => {
                let owner = owner_of(tokens, at);
                if owner == Owner::Other {
                    self.begin(at, &token.kind);
                }
                self.owners.push(owner)?;
            }
            Kind::CloseParenthesis | Kind::CloseBracket => {
                self.depends = self.depends || self.owners.pop() == Some(Owner::Head);
            }
            Kind::OpenBrace => self.open_brace(at)?,
            Kind::CloseBrace => self.close_brace(at)?,
            Kind::Newline if self.owners.is_empty() => self.newline(tokens, at)?,
            Kind::Semicolon if self.owners.is_empty() => self.semicolon(at)?,
            Kind::Keyword(Keyword::Else | Keyword::Do) => self.depends = true,
            Kind::Keyword(Keyword::If | Keyword::While | Keyword::For) => {}
            kind => self.begin(at, kind),
        }
        Ok(())
    }
}

/// The simple statements of an accepted program.
pub(crate) fn statements_of(alloc: Global, tokens: &[Token]) -> Result<Statements, AllocError> {
    let mut scan = StatementScan {
        found: Statements {
            simple: Vec::new(alloc),
            lone_blocks: Vec::new(alloc),
            has_rules: false,
        },
        owners: Vec::new(alloc),
        braces: 0,
        item: None,
        lone_pattern: None,
        begun: None,
        depends: false,
    };
    for (at, token) in tokens.iter().enumerate() {
        scan.step(tokens, at, token)?;
    }
    let StatementScan { found, .. } = scan;
    Ok(found)
}

/// The bracket that closes the one at a place.
pub(crate) fn closing(tokens: &[Token], open: usize) -> Option<usize> {
    let mut depth = 0usize;
    for (count, token) in tokens.get(open..)?.iter().enumerate() {
        match token.kind {
            Kind::OpenParenthesis | Kind::OpenBracket => depth = depth.saturating_add(1),
            Kind::CloseParenthesis | Kind::CloseBracket => depth = depth.saturating_sub(1),
            _ => {}
        }
        if depth == 0 {
            return open.checked_add(count);
        }
    }
    None
}
