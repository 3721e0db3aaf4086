// Why a program isn't known to run on pieces of its input.

use crate::reasons::{
    Part, exchanged_elsewhere, finding_of, is_set, plain_finding, reason_of_function,
};
use crate::statements::{
    StatementScan, array_split, arrays_filled, have_name, is_of_awk, names_set,
};
use awk_findings::Finding;
use awk_findings::calls::{kind_before, kind_behind, name_of};
use awk_lex::token::{AssignmentOperator, BuiltIn, Keyword, Kind, Token};
use awk_pieces::tells_apart;
use std::alloc::{AllocError, Global};

const NOT_KNOWN: &[u8] = b"not known to run on pieces: ";

/// A scan for the first reason.
#[derive(Drop)]
struct PiecesScan<'a> {
    tokens: &'a [Token],
    /// The tokens at which rules set names by statements of their own, and fill arrays.
    own: Vec<usize>,
    arrays: Vec<usize>,
    /// The token of the array that the last `split` fills.
    split: Option<usize>,
    statements: StatementScan<'a>,
}

impl PiecesScan<'_> {
    fn part(&self) -> Part {
        self.statements.items.part
    }

    /// Whether some rule sets the name by a statement of its own.
    fn is_own(&self, name: &[u8]) -> bool {
        have_name(self.tokens, &self.own, name)
    }

    /// Whether some rule fills the array by a statement of its own.
    fn is_own_array(&self, name: &[u8]) -> bool {
        have_name(self.tokens, &self.arrays, name) && !self.is_own(name) && !is_of_awk(name)
    }

    /// Why a name in BEGIN is a reason.
    fn reason_in_begin(&self, at: usize, name: &[u8]) -> &'static [u8] {
        let behind = kind_behind(self.tokens, at, 1);
        if self.statements.begins {
            return match behind {
                Some(Kind::Assign(AssignmentOperator::Plain)) => match name {
                    b"RS" | b"NF" => b" is set before the records",
                    _ if tells_apart(name) => b" is set before the records",
                    _ => b"",
                },
                _ => b": in BEGIN names may be assigned by = alone",
            };
        }
        if matches!(behind, Some(Kind::OpenBracket)) {
            return b" is an array";
        }
        if is_set(self.tokens, at) && name != b"NF".as_slice() {
            return b" is assigned in an expression";
        }
        b""
    }

    /// Why a name that is set in a rule or a pattern is a reason.
    fn reason_of_set(&self, at: usize, name: &[u8]) -> &'static [u8] {
        if name == b"NF".as_slice() || self.statements.sets(at, name) {
            return b"";
        }
        if is_of_awk(name) {
            return b" is assigned in a rule";
        }
        if self.statements.was_set(name) {
            return b"";
        }
        // (the last part of a `for` is a statement too, and makes nothing known)
        let is_last = matches!(kind_before(self.tokens, at, 1), Some(Kind::Semicolon));
        match kind_behind(self.tokens, at, 1) {
            Some(Kind::Assign(AssignmentOperator::Plain)) if is_last && self.is_own(name) => b"",
            Some(Kind::Assign(AssignmentOperator::Plain)) => {
                b" is assigned in an expression, and not set before for the record"
            }
            _ => b" is changed before it is set for the record",
        }
    }

    /// Why the name of an array in a rule or a pattern is a reason: where it isn't filled there.
    fn reason_of_array(&self, at: usize, name: &[u8]) -> &'static [u8] {
        let is_filled = self.split == Some(at) || self.statements.was_filled(name);
        let is_deleted = matches!(
            kind_before(self.tokens, at, 1),
            Some(Kind::Keyword(Keyword::Delete))
        ) && !matches!(kind_behind(self.tokens, at, 1), Some(Kind::OpenBracket));
        if is_filled || is_deleted {
            return b"";
        }
        b" is read before it is filled for the record"
    }

    /// Why a name in a rule or a pattern is a reason.
    fn reason_in_rule(&self, at: usize, name: &[u8]) -> &'static [u8] {
        if self.is_own_array(name) {
            return self.reason_of_array(at, name);
        }
        if matches!(kind_behind(self.tokens, at, 1), Some(Kind::OpenBracket)) {
            return b" is an array";
        }
        if is_set(self.tokens, at) {
            return self.reason_of_set(at, name);
        }
        if tells_apart(name) {
            return b" is read in a rule";
        }
        if !self.statements.was_set(name) && self.is_own(name) {
            return b" is read before it is set for the record";
        }
        b""
    }

    /// Why a keyword is a reason.
    fn reason_of_keyword(&self, at: usize, keyword: Keyword) -> &'static [u8] {
        match keyword {
            Keyword::Begin => b"",
            Keyword::End => b" stands behind all records",
            Keyword::Function => b" stands beside the rules",
            Keyword::Getline => b" reads another input",
            _ if self.part() == Part::Begin => b" in BEGIN",
            Keyword::For => match kind_behind(self.tokens, at, 3) {
                Some(Kind::Keyword(Keyword::In)) => b" goes over an array",
                _ => b"",
            },
            Keyword::In | Keyword::Delete => match kind_behind(self.tokens, at, 1) {
                Some(Kind::Name(name)) if self.is_own_array(name.as_slice()) => b"",
                _ if matches!(keyword, Keyword::In) => b" looks into an array",
                _ => b" in a rule",
            },
            Keyword::Exit | Keyword::NextFile => b" passes over the records behind",
            Keyword::Return => b" in a rule",
            _ => b"",
        }
    }

    /// Why a call of a built-in function is a reason.
    fn reason_of_call(
        &self,
        alloc: Global,
        at: usize,
        function: BuiltIn,
    ) -> Result<&'static [u8], AllocError> {
        if let BuiltIn::Sub | BuiltIn::Gsub = function {
            return Ok(match exchanged_elsewhere(alloc, self.tokens, at)? {
                Some(place) if !self.statements.is_set_before(place) => {
                    b" exchanges in what is neither a field nor set before for the record"
                }
                _ => b"",
            });
        }
        if matches!(function, BuiltIn::Split) && self.part() != Part::Begin {
            return self.reason_of_split(alloc, at);
        }
        Ok(reason_of_function(function))
    }

    /// Why a `split` in a rule or a pattern is a reason: where no statement of its own fills the array.
    fn reason_of_split(&self, alloc: Global, at: usize) -> Result<&'static [u8], AllocError> {
        let array = match array_split(alloc, self.tokens, at)? {
            Some(array) => self.tokens.get(array),
            None => None,
        };
        let is_own = match array {
            Some(token) => match name_of(token) {
                Some(name) => self.is_own_array(name),
                None => false,
            },
            None => false,
        };
        Ok(if is_own {
            b""
        } else {
            b" makes an array, and no statement of its own does"
        })
    }

    /// Why a token is a reason, behind its text, or nothing where it is none.
    fn reason(&self, alloc: Global, at: usize, kind: &Kind) -> Result<&'static [u8], AllocError> {
        let reason = self.statements.items.reason(kind);
        if !reason.is_empty() {
            return Ok(reason);
        }
        let is_begin = self.part() == Part::Begin;
        Ok(match kind {
            Kind::Name(name) if is_begin => self.reason_in_begin(at, name.as_slice()),
            Kind::Name(name) => self.reason_in_rule(at, name.as_slice()),
            Kind::Keyword(keyword) => self.reason_of_keyword(at, *keyword),
            Kind::BuiltIn(function) => self.reason_of_call(alloc, at, *function)?,
            Kind::Newline | Kind::Semicolon | Kind::CloseBrace => b"",
            _ if is_begin && self.statements.begins => {
                b": in BEGIN names may be assigned by = alone"
            }
            _ => b"",
        })
    }
}

/// The first reason that is found why a program isn't known to run on pieces of its input, and the plain one
/// where its text has none.
pub(crate) fn pieces_finding(
    alloc: Global,
    text: &[u8],
    tokens: &[Token],
    plain: &[u8],
) -> Result<Finding, AllocError> {
    let mut scan = PiecesScan {
        tokens,
        own: names_set(alloc, tokens)?,
        arrays: arrays_filled(alloc, tokens)?,
        split: None,
        statements: StatementScan::new(alloc, tokens),
    };
    for (at, token) in tokens.iter().enumerate() {
        if matches!(token.kind, Kind::BuiltIn(BuiltIn::Split)) {
            scan.split = array_split(alloc, tokens, at)?;
        }
        let reason = scan.reason(alloc, at, &token.kind)?;
        if !reason.is_empty() {
            return finding_of(alloc, text, token, NOT_KNOWN, reason);
        }
        scan.statements.step(at, &token.kind)?;
    }
    plain_finding(alloc, NOT_KNOWN, plain)
}
