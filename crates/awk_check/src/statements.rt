// Where statements begin and end among tokens, and which variables of the record are set there, and which arrays filled.

use crate::reasons::{ItemScan, Part, goes_on};
use awk_findings::calls::{Stretch, arguments, kind_before, kind_behind, name_of, only_token};
use awk_kinds::Special;
use awk_lex::token::{AssignmentOperator, BuiltIn, Keyword, Kind, Token};
use awk_pieces::tells_apart;
use std::alloc::{AllocError, Global};

/// What statements stand in.
#[derive(Clone, Copy, PartialEq, Eq)]
enum Surrounding {
    Braces,
    /// An `if`, before its `else`.
    If,
    Do,
    /// Another statement that has them for its body.
    Other,
}

/// What is open: at its end is forgotten what was set in it.
#[derive(Clone, Copy)]
struct Scope {
    surrounding: Surrounding,
    /// How many names were set before, and how many arrays filled.
    set: usize,
    filled: usize,
}

/// A scan of statements, which keeps the names that rules and END set by statements of their own, and the arrays that
/// rules fill so.
#[derive(Drop)]
pub(crate) struct StatementScan<'a> {
    alloc: Global,
    tokens: &'a [Token],
    pub(crate) items: ItemScan,
    /// Whether a statement begins here.
    pub(crate) begins: bool,
    /// The first token of the statement.
    first: usize,
    /// What the parentheses stand before that are open, or open next.
    head: Option<Surrounding>,
    /// Whether the body of a `do` has ended, whose `while` comes next.
    pub(crate) ends_do: bool,
    scopes: Vec<Scope>,
    /// The token of the name that is set behind the statement.
    setting: Option<usize>,
    /// The token of the name that gets keys in what the parentheses stand before.
    walking: Option<usize>,
    /// The tokens of the names that were set before, in turn.
    set: Vec<usize>,
    /// The token of the array that is filled behind the statement, and those of the arrays that were before.
    filling: Option<usize>,
    filled: Vec<usize>,
}

/// Whether a variable is one of awk's own.
pub(crate) fn is_of_awk(name: &[u8]) -> bool {
    name == b"NF".as_slice() || tells_apart(name) || Special::named(name).is_some()
}

/// Whether one of these tokens is the name: the last ones are looked at first.
pub(crate) fn have_name(tokens: &[Token], places: &[usize], name: &[u8]) -> bool {
    for place in places.iter().rev() {
        if let Some(token) = tokens.get(*place) {
            if name_of(token) == Some(name) {
                return true;
            }
        }
    }
    false
}

/// Whether a token is the first in the parentheses of a `for`.
pub(crate) fn begins_for(tokens: &[Token], at: usize) -> bool {
    matches!(kind_before(tokens, at, 1), Some(Kind::OpenParenthesis))
        && matches!(
            kind_before(tokens, at, 2),
            Some(Kind::Keyword(Keyword::For))
        )
}

/// The tokens at which rules set names by statements of their own, or as a `for` begins.
pub(crate) fn names_set(alloc: Global, tokens: &[Token]) -> Result<Vec<usize>, AllocError> {
    let mut names = Vec::new(alloc);
    let mut scan = StatementScan::new(alloc, tokens);
    for (at, token) in tokens.iter().enumerate() {
        if let Kind::Name(name) = &token.kind {
            if scan.sets(at, name.as_slice()) {
                names.push(at)?;
            }
        }
        scan.step(at, &token.kind)?;
    }
    Ok(names)
}

/// The token of the array that the `split` at a token fills.
pub(crate) fn array_split(
    alloc: Global,
    tokens: &[Token],
    at: usize,
) -> Result<Option<usize>, AllocError> {
    let all = arguments(alloc, tokens, at)?;
    Ok(match all.get(1) {
        Some(stretch) if only_token(tokens, *stretch).is_some() => Some(stretch.from),
        _ => None,
    })
}

/// The tokens of the arrays that rules fill by statements of their own, or as a `for` begins.
pub(crate) fn arrays_filled(alloc: Global, tokens: &[Token]) -> Result<Vec<usize>, AllocError> {
    let mut arrays = Vec::new(alloc);
    let mut scan = StatementScan::new(alloc, tokens);
    for (at, token) in tokens.iter().enumerate() {
        if let Some(array) = scan.array_filled(at, &token.kind)? {
            arrays.push(array)?;
        }
        scan.step(at, &token.kind)?;
    }
    Ok(arrays)
}

/// Whether `else` stands behind a token, over newlines.
fn is_before_else(tokens: &[Token], at: usize) -> bool {
    for token in tokens.get(at.saturating_add(1)..).unwrap_or(&[]) {
        match token.kind {
            Kind::Newline => {}
            Kind::Keyword(Keyword::Else) => return true,
            _ => return false,
        }
    }
    false
}

impl<'a> StatementScan<'a> {
    /// A scan as it begins.
    pub(crate) fn new(alloc: Global, tokens: &'a [Token]) -> StatementScan<'a> {
        StatementScan {
            alloc,
            tokens,
            items: ItemScan::new(),
            begins: true,
            first: 0,
            head: None,
            ends_do: false,
            scopes: Vec::new(alloc),
            setting: None,
            walking: None,
            set: Vec::new(alloc),
            filling: None,
            filled: Vec::new(alloc),
        }
    }

    /// Whether a statement of its own, or a `for` as it begins, assigns what begins at a token, and no other than that.
    fn is_assigned(&self, at: usize) -> bool {
        if !matches!(kind_before(self.tokens, at, 1), Some(Kind::Assign(_))) {
            return false;
        }
        let place = self.tokens.get(self.first..at.saturating_sub(1));
        for token in place.unwrap_or(&[]) {
            if matches!(token.kind, Kind::Assign(_) | Kind::Keyword(_)) {
                return false;
            }
        }
        true
    }

    /// The token of the array that the statement of a rule fills or empties of which this is a token: by `split`, alone or
    /// assigned, or by `delete` without a subscript.
    pub(crate) fn array_filled(&self, at: usize, kind: &Kind) -> Result<Option<usize>, AllocError> {
        if self.items.part != Part::Rule {
            return Ok(None);
        }
        let begins = self.begins || begins_for(self.tokens, at);
        match kind {
            Kind::BuiltIn(BuiltIn::Split) if begins || self.is_assigned(at) => {
                array_split(self.alloc, self.tokens, at)
            }
            Kind::Keyword(Keyword::Delete) if begins => {
                let is_whole = !matches!(kind_behind(self.tokens, at, 2), Some(Kind::OpenBracket));
                Ok(if is_whole {
                    Some(at.saturating_add(1))
                } else {
                    None
                })
            }
            _ => Ok(None),
        }
    }

    /// Whether the array was filled before.
    pub(crate) fn was_filled(&self, name: &[u8]) -> bool {
        have_name(self.tokens, &self.filled, name)
    }

    /// Whether a statement of its own, or a `for` as it begins, sets the name at a token, and it isn't one of awk's.
    fn is_setting(&self, at: usize, name: &[u8]) -> bool {
        let is_plain = matches!(
            kind_behind(self.tokens, at, 1),
            Some(Kind::Assign(AssignmentOperator::Plain))
        );
        let may_set = self.begins || begins_for(self.tokens, at);
        is_plain && may_set && !is_of_awk(name)
    }

    /// Whether a rule sets the name at a token so.
    pub(crate) fn sets(&self, at: usize, name: &[u8]) -> bool {
        self.items.part == Part::Rule && self.is_setting(at, name)
    }

    /// Whether END sets the name at a token so.
    pub(crate) fn sets_in_end(&self, at: usize, name: &[u8]) -> bool {
        self.items.part == Part::End && self.is_setting(at, name)
    }

    /// Whether the name at a token gets the keys of an array.
    pub(crate) fn gets_keys(&self, at: usize) -> bool {
        begins_for(self.tokens, at)
            && matches!(
                kind_behind(self.tokens, at, 1),
                Some(Kind::Keyword(Keyword::In))
            )
    }

    /// Whether the name was set before.
    pub(crate) fn was_set(&self, name: &[u8]) -> bool {
        have_name(self.tokens, &self.set, name)
    }

    /// Whether these tokens are a name that was set before.
    pub(crate) fn is_set_before(&self, place: Stretch) -> bool {
        match only_token(self.tokens, place) {
            Some(token) => match name_of(token) {
                Some(name) => self.was_set(name),
                None => false,
            },
            None => false,
        }
    }

    /// Keeps the name that the statement sets, and the array that it fills, behind it.
    fn keep(&mut self) -> Result<(), AllocError> {
        if let Some(at) = self.setting {
            self.set.push(at)?;
            self.setting = None;
        }
        if let Some(at) = self.filling {
            self.filled.push(at)?;
            self.filling = None;
        }
        Ok(())
    }

    fn enter(&mut self, surrounding: Surrounding) -> Result<(), AllocError> {
        let set = self.set.len();
        let filled = self.filled.len();
        self.scopes.push(Scope {
            surrounding,
            set,
            filled,
        })?;
        Ok(())
    }

    /// Leaves all that is open but the first of it.
    fn leave(&mut self, kept: usize) {
        if let Some(scope) = self.scopes.get(kept) {
            self.set.truncate(scope.set);
            self.filled.truncate(scope.filled);
        }
        self.scopes.truncate(kept);
    }

    /// How many stay open behind a statement that ends: the braces around it, a `do` that is the body of others, and
    /// what an `if` is in that has its `else` to come.
    fn kept(&self, is_before_else: bool) -> usize {
        let mut kept = self.scopes.len();
        for scope in self.scopes.iter().rev() {
            if scope.surrounding == Surrounding::Braces {
                return kept;
            }
            kept = kept.saturating_sub(1);
            if scope.surrounding == Surrounding::Do
                || (scope.surrounding == Surrounding::If && is_before_else)
            {
                return kept;
            }
        }
        kept
    }

    /// Ends a statement with a token, and those whose last part it is.
    fn end(&mut self, at: usize) -> Result<(), AllocError> {
        self.keep()?;
        let kept = self.kept(is_before_else(self.tokens, at));
        self.ends_do = match self.scopes.get(kept) {
            Some(scope) => scope.surrounding == Surrounding::Do,
            None => false,
        };
        self.leave(kept);
        Ok(())
    }

    /// Ends what stands in braces, and the statement that they are.
    fn close(&mut self, at: usize) -> Result<(), AllocError> {
        self.keep()?;
        let braces = self.kept(false).saturating_sub(1);
        self.leave(braces);
        self.end(at)
    }

    /// Goes over a word, and tells whether a statement begins behind it.
    fn word(&mut self, keyword: Keyword) -> Result<bool, AllocError> {
        match keyword {
            Keyword::If => self.head = Some(Surrounding::If),
            Keyword::While if self.ends_do => self.ends_do = false,
            Keyword::While | Keyword::For => self.head = Some(Surrounding::Other),
            Keyword::Else => self.enter(Surrounding::Other)?,
            Keyword::Do => self.enter(Surrounding::Do)?,
            _ => {}
        }
        Ok(matches!(keyword, Keyword::Else | Keyword::Do))
    }

    /// Goes over the end of parentheses, and tells whether a statement begins behind it.
    fn parenthesis(&mut self) -> Result<bool, AllocError> {
        match self.head {
            Some(surrounding) if self.items.lists == 1 => {
                self.head = None;
                self.enter(surrounding)?;
                if let Some(at) = self.walking {
                    self.set.push(at)?;
                    self.walking = None;
                }
                Ok(true)
            }
            _ => Ok(false),
        }
    }

    /// Goes over a semicolon, and tells whether a statement begins behind it: in parentheses it is one of a `for`.
    fn semicolon(&mut self, at: usize) -> Result<bool, AllocError> {
        if self.items.lists > 0 {
            self.keep()?;
            return Ok(false);
        }
        self.end(at)?;
        Ok(true)
    }

    /// Goes over a newline, and tells whether a statement begins behind it.
    fn newline(&mut self, at: usize) -> Result<bool, AllocError> {
        if self.begins {
            return Ok(true);
        }
        if self.items.lists > 0 || goes_on(kind_before(self.tokens, at, 1)) {
            return Ok(false);
        }
        self.end(at)?;
        Ok(true)
    }

    /// Goes over a token.
    pub(crate) fn step(&mut self, at: usize, kind: &Kind) -> Result<(), AllocError> {
        if self.begins || begins_for(self.tokens, at) {
            self.first = at;
        }
        if let Some(array) = self.array_filled(at, kind)? {
            self.filling = Some(array);
        }
        self.begins = match kind {
            Kind::Name(name) => {
                if self.sets(at, name.as_slice()) || self.sets_in_end(at, name.as_slice()) {
                    self.setting = Some(at);
                }
                if self.gets_keys(at) {
                    self.walking = Some(at);
                }
                false
            }
            Kind::OpenBrace => {
                self.enter(Surrounding::Braces)?;
                true
            }
            Kind::CloseBrace => {
                self.close(at)?;
                true
            }
            Kind::Keyword(keyword) => self.word(*keyword)?,
            Kind::CloseParenthesis => self.parenthesis()?,
            Kind::Semicolon => self.semicolon(at)?,
            Kind::Newline => self.newline(at)?,
            _ => false,
        };
        self.items.step(kind);
        Ok(())
    }
}
