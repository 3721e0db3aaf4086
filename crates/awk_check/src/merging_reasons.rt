// Why a program that sums up isn't known to run in two stages.

use crate::reasons::{
    Part, behind_place, exchanged_elsewhere, finding_of, goes_on, is_between, is_set,
    plain_finding, reason_of_function,
};
use crate::statements::{StatementScan, begins_for, have_name, is_of_awk, names_set};
use awk_findings::Finding;
use awk_findings::calls::{kind_before, kind_behind};
use awk_kinds::is_of_values;
use awk_lex::token::{
    AssignmentOperator, BuiltIn, IncrementOperator, Keyword, Kind, Operator, Token,
};
use awk_merging::Sum;
use awk_pieces::tells_apart;
use std::alloc::{AllocError, Global};

const NOT_KNOWN: &[u8] = b"not known to run in two stages: ";

/// A scan for the first reason.
#[derive(Drop)]
struct MergingScan<'a> {
    tokens: &'a [Token],
    sums: &'a [Sum],
    /// The tokens at which rules set names by statements of their own.
    own: Vec<usize>,
    statements: StatementScan<'a>,
    /// Where the pattern that is open begins.
    pattern: Option<usize>,
}

/// Whether a statement begins behind a token.
fn begins_behind(kind: Option<&Kind>) -> bool {
    matches!(
        kind,
        None | Some(
            Kind::OpenBrace
                | Kind::CloseBrace
                | Kind::Newline
                | Kind::Semicolon
                | Kind::CloseParenthesis
                | Kind::Keyword(Keyword::Else | Keyword::Do)
        )
    )
}

/// Whether a statement begins at a token that adds to the variable or element whose name stands there.
fn is_addition(tokens: &[Token], at: usize) -> bool {
    match kind_before(tokens, at, 1) {
        Some(Kind::Increment(IncrementOperator::Increment)) => {
            let sign = at.saturating_sub(1);
            begins_behind(kind_before(tokens, sign, 1)) || begins_for(tokens, sign)
        }
        kind => {
            (begins_behind(kind) || begins_for(tokens, at))
                && matches!(
                    behind_place(tokens, at),
                    Some(
                        Kind::Assign(AssignmentOperator::Add)
                            | Kind::Increment(IncrementOperator::Increment)
                    )
                )
        }
    }
}

/// Why a built-in function in END is a reason.
fn reason_of_call_in_end(function: BuiltIn) -> &'static [u8] {
    match function {
        BuiltIn::Length => b"",
        _ if is_of_values(function) => b"",
        _ => b" in END",
    }
}

impl<'a> MergingScan<'a> {
    fn part(&self) -> Part {
        self.statements.items.part
    }

    /// Whether some rule sets the name by a statement of its own.
    fn is_own(&self, name: &[u8]) -> bool {
        have_name(self.tokens, &self.own, name)
    }

    /// The sum of a name.
    fn sum_of(&self, name: &[u8]) -> Option<&'a Sum> {
        for sum in self.sums {
            if sum.name() == name {
                return Some(sum);
            }
        }
        None
    }

    /// Why a name that is set in a rule or a pattern, and is no sum, is a reason.
    fn reason_of_set(&self, at: usize, name: &[u8]) -> &'static [u8] {
        if name == b"NF".as_slice() || self.statements.sets(at, name) {
            return b"";
        }
        if is_of_awk(name) || !self.is_own(name) {
            return b" is assigned in a rule, and not summed up";
        }
        // (the last part of a `for` is a statement too, and makes nothing known)
        let is_last = matches!(kind_before(self.tokens, at, 1), Some(Kind::Semicolon));
        let is_plain = matches!(
            kind_behind(self.tokens, at, 1),
            Some(Kind::Assign(AssignmentOperator::Plain))
        );
        if self.statements.was_set(name) || is_last && is_plain {
            return b"";
        }
        b" is changed before it is set for the record"
    }

    /// Why a name in a rule or a pattern is a reason.
    fn reason_in_rule(&self, at: usize, name: &[u8]) -> &'static [u8] {
        let is_set = is_set(self.tokens, at);
        if self.sum_of(name).is_some() {
            return match self.part() {
                Part::Rule if is_addition(self.tokens, at) => b"",
                _ if is_set => b" is summed up, and set otherwise than by a statement += or ++",
                _ => b" is summed up, and read for a record",
            };
        }
        if tells_apart(name) {
            return b" may be another on each piece";
        }
        if matches!(kind_behind(self.tokens, at, 1), Some(Kind::OpenBracket)) {
            return b" is an array that is not summed up";
        }
        if is_set {
            return self.reason_of_set(at, name);
        }
        if self.is_own(name) && !self.statements.was_set(name) {
            return b" is read before it is set for the record";
        }
        b""
    }

    /// Why a name in BEGIN is a reason.
    fn reason_in_begin(&self, at: usize, name: &[u8]) -> &'static [u8] {
        let is_set = is_set(self.tokens, at);
        match kind_behind(self.tokens, at, 1) {
            Some(Kind::OpenBracket) => b" is an array, in BEGIN",
            Some(Kind::Assign(AssignmentOperator::Plain))
                if begins_behind(kind_before(self.tokens, at, 1)) => {
                match name {
                    b"RS" | b"NF" => b" is set before the records",
                    _ if tells_apart(name) => b" is set before the records",
                    _ if self.sum_of(name).is_some() =>
                        b" is summed up, and set before the records",
                    _ => b"",
                }
            }
            _ if is_set => b": in BEGIN names may be assigned by statements = alone",
            _ => b"",
        }
    }

    /// Whether a name in END has there what the last record left in it: the last part of a `for` sets a name too, and
    /// makes nothing known.
    fn is_of_record(&self, at: usize, name: &[u8]) -> bool {
        let is_last = matches!(kind_before(self.tokens, at, 1), Some(Kind::Semicolon))
            && matches!(
                kind_behind(self.tokens, at, 1),
                Some(Kind::Assign(AssignmentOperator::Plain))
            );
        let is_set_here = self.statements.gets_keys(at)
            || self.statements.sets_in_end(at, name)
            || is_last;
        self.is_own(name) && !is_set_here && !self.statements.was_set(name)
    }

    /// Whether a name in END is an array's.
    fn is_array(&self, at: usize) -> bool {
        let is_behind = matches!(
            kind_before(self.tokens, at, 1),
            Some(Kind::Keyword(Keyword::In | Keyword::Delete))
        );
        is_behind || matches!(kind_behind(self.tokens, at, 1), Some(Kind::OpenBracket))
    }

    /// Why a name in END is a reason.
    fn reason_in_end(&self, at: usize, name: &[u8]) -> &'static [u8] {
        if tells_apart(name) || name == b"NF".as_slice() {
            return b" is read in END";
        }
        let gets_keys = self.statements.gets_keys(at);
        if is_of_awk(name) && (is_set(self.tokens, at) || gets_keys) {
            return b" is awk's own, and set in END";
        }
        match self.sum_of(name) {
            Some(Sum::ByKey(_)) => b"",
            _ if self.is_array(at) => b" is an array that is not summed up",
            Some(Sum::Alone(_)) if gets_keys => b" is summed up, and gets keys in END",
            _ if self.is_of_record(at, name) => b" is set for each record, and read in END",
            _ => b"",
        }
    }

    /// Why a name is a reason.
    fn reason_of_name(&self, at: usize, name: &[u8]) -> &'static [u8] {
        match name {
            b"merge_what" | b"merge_key" if !self.is_own(name) => {
                b" is a name of the programs for the two stages"
            }
            _ => match self.part() {
                Part::Begin => self.reason_in_begin(at, name),
                Part::End => self.reason_in_end(at, name),
                _ => self.reason_in_rule(at, name),
            },
        }
    }

    /// Why a keyword in END is a reason.
    fn reason_of_keyword_in_end(&self, at: usize, keyword: Keyword) -> &'static [u8] {
        match keyword {
            Keyword::If | Keyword::Else | Keyword::While | Keyword::Do | Keyword::For => b"",
            Keyword::In | Keyword::Break | Keyword::Continue => b"",
            Keyword::Delete | Keyword::Exit => b"",
            Keyword::Print | Keyword::Printf => match kind_behind(self.tokens, at, 1) {
                Some(Kind::Newline | Kind::Semicolon | Kind::CloseBrace) => {
                    b" without a list, in END"
                }
                _ => b"",
            },
            _ => b" in END",
        }
    }

    /// Why a keyword is a reason.
    fn reason_of_keyword(&self, at: usize, keyword: Keyword) -> &'static [u8] {
        match keyword {
            Keyword::Begin | Keyword::End => b"",
            Keyword::Function => b" stands beside the rules",
            Keyword::Getline => b" reads another input",
            _ if self.part() == Part::End => self.reason_of_keyword_in_end(at, keyword),
            _ if self.part() == Part::Begin => b" in BEGIN",
            Keyword::If | Keyword::Else | Keyword::Next => b"",
            Keyword::While | Keyword::Do | Keyword::Break | Keyword::Continue => b"",
            Keyword::For => match kind_behind(self.tokens, at, 3) {
                Some(Kind::Keyword(Keyword::In)) => b" goes over an array, in a rule",
                _ => b"",
            },
            Keyword::Exit | Keyword::NextFile => b" passes over the records behind",
            _ => b" in a rule",
        }
    }

    /// Why a call of a built-in function is a reason.
    fn reason_of_call(
        &self,
        alloc: Global,
        at: usize,
        function: BuiltIn,
    ) -> Result<&'static [u8], AllocError> {
        let reason = reason_of_function(function);
        if !reason.is_empty() {
            return Ok(reason);
        }
        if self.part() == Part::End {
            return Ok(reason_of_call_in_end(function));
        }
        if let BuiltIn::Sub | BuiltIn::Gsub = function {
            return Ok(match exchanged_elsewhere(alloc, self.tokens, at)? {
                Some(place) if !self.statements.is_set_before(place) => {
                    b" exchanges in what is neither a field nor set before for the record"
                }
                _ => b"",
            });
        }
        Ok(b"")
    }

    /// Why a token is a reason, behind its text, or nothing where it is none.
    fn reason(&self, alloc: Global, at: usize, kind: &Kind) -> Result<&'static [u8], AllocError> {
        Ok(match kind {
            Kind::Name(name) => self.reason_of_name(at, name.as_slice()),
            Kind::Keyword(keyword) => self.reason_of_keyword(at, *keyword),
            Kind::BuiltIn(function) => self.reason_of_call(alloc, at, *function)?,
            Kind::Dollar if self.part() == Part::End => b" reads a field in END",
            Kind::Ere(_) if self.part() == Part::End => match kind_before(self.tokens, at, 1) {
                Some(Kind::Operator(Operator::Matches | Operator::NotMatches)) => b"",
                _ => b" in END is of the record",
            },
            _ => self.statements.items.reason(kind),
        })
    }

    /// Where a pattern without an action begins that ends before a token.
    fn lone_pattern(&self, at: usize, kind: &Kind) -> Option<usize> {
        if self.statements.items.lists > 0 || !matches!(kind, Kind::Newline | Kind::Semicolon) {
            return None;
        }
        if goes_on(kind_before(self.tokens, at, 1)) {
            return None;
        }
        self.pattern
    }

    /// Goes over a token.
    fn step(&mut self, at: usize, kind: &Kind) -> Result<(), AllocError> {
        self.statements.step(at, kind)?;
        if self.part() != Part::Pattern {
            self.pattern = None;
        } else if !is_between(kind) && self.statements.items.next == Part::Rule {
            self.pattern = Some(self.pattern.unwrap_or(at));
        }
        Ok(())
    }
}

/// A finding that answers no, with what is behind.
pub(crate) fn plain_merging_finding(alloc: Global, reason: &[u8]) -> Result<Finding, AllocError> {
    plain_finding(alloc, NOT_KNOWN, reason)
}

/// The first reason that is found why a program with these sums isn't known to run in two stages, and
/// the plain one where its text has none.
pub(crate) fn merging_finding(
    alloc: Global,
    text: &[u8],
    tokens: &[Token],
    sums: &[Sum],
    plain: &[u8],
) -> Result<Finding, AllocError> {
    let mut scan = MergingScan {
        tokens,
        sums,
        own: names_set(alloc, tokens)?,
        statements: StatementScan::new(alloc, tokens),
        pattern: None,
    };
    for (at, token) in tokens.iter().enumerate() {
        let reason = scan.reason(alloc, at, &token.kind)?;
        if !reason.is_empty() {
            return finding_of(alloc, text, token, NOT_KNOWN, reason);
        }
        if let Some(first) = scan
            .lone_pattern(at, &token.kind)
            .and_then(|at| tokens.get(at))
        {
            return finding_of(
                alloc,
                text,
                first,
                NOT_KNOWN,
                b" begins a pattern without an action, which prints",
            );
        }
        scan.step(at, &token.kind)?;
    }
    plain_merging_finding(alloc, plain)
}
