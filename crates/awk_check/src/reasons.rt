// What the scans for reasons have in common: where a token stands, what a name is there, and how a reason is told.

use awk_findings::calls::{
    Stretch, arguments, finding_at, kind_before, kind_behind, name_of, text_of,
};
use awk_findings::{Finding, Severity};
use awk_lex::token::{BuiltIn, Keyword, Kind, Operator, Token};
use std::alloc::{AllocError, Global};

/// What a token stands in.
#[derive(Clone, Copy, PartialEq, Eq)]
pub(crate) enum Part {
    /// Between items, or in a pattern.
    Pattern,
    Begin,
    Rule,
    End,
    Function,
}

/// A scan that tells in which part of a program it is.
#[derive(Clone, Copy)]
pub(crate) struct ItemScan {
    pub(crate) part: Part,
    /// What the next brace between items opens.
    pub(crate) next: Part,
    /// How many braces are open.
    braces: usize,
    /// How many parentheses and brackets are.
    pub(crate) lists: usize,
    /// Whether it prints.
    prints: bool,
}

/// Whether what stands behind a token begins anew.
pub(crate) fn is_between(kind: &Kind) -> bool {
    matches!(
        kind,
        Kind::OpenBrace | Kind::CloseBrace | Kind::Newline | Kind::Semicolon
    )
}

/// Whether what is open goes on behind a newline that stands behind this.
pub(crate) fn goes_on(kind: Option<&Kind>) -> bool {
    matches!(
        kind,
        Some(Kind::Operator(Operator::And | Operator::Or) | Kind::Comma)
    )
}

impl ItemScan {
    /// A scan as it begins.
    pub(crate) fn new() -> ItemScan {
        ItemScan {
            part: Part::Pattern,
            next: Part::Rule,
            braces: 0,
            lists: 0,
            prints: false,
        }
    }

    /// Goes into braces.
    fn open(&mut self) {
        if self.braces == 0 {
            self.part = self.next;
            self.next = Part::Rule;
        }
        self.braces = self.braces.saturating_add(1);
    }

    /// Goes out of braces.
    fn close(&mut self) {
        self.braces = self.braces.saturating_sub(1);
        if self.braces == 0 {
            self.part = Part::Pattern;
        }
    }

    /// Goes over a token.
    pub(crate) fn step(&mut self, kind: &Kind) {
        match kind {
            Kind::OpenBrace => self.open(),
            Kind::CloseBrace => self.close(),
            Kind::OpenParenthesis | Kind::OpenBracket => self.lists = self.lists.saturating_add(1),
            Kind::CloseParenthesis | Kind::CloseBracket => {
                self.lists = self.lists.saturating_sub(1);
            }
            Kind::Keyword(Keyword::Begin) => self.next = Part::Begin,
            Kind::Keyword(Keyword::End) => self.next = Part::End,
            Kind::Keyword(Keyword::Function) => self.next = Part::Function,
            Kind::Keyword(Keyword::Print | Keyword::Printf) => self.prints = true,
            _ => {}
        }
        self.prints = self.prints && !is_between(kind);
    }

    /// Why a token is a reason wherever it stands, behind its text, or nothing where it is none.
    pub(crate) fn reason(&self, kind: &Kind) -> &'static [u8] {
        let prints = self.prints && self.lists == 0;
        match kind {
            Kind::Called(_) => b" is called",
            Kind::Operator(Operator::Greater) | Kind::Append | Kind::Bar if prints => {
                b" prints elsewhere than to standard output"
            }
            Kind::Comma if self.part == Part::Pattern && self.lists == 0 => b" makes a range",
            Kind::OpenBrace if self.part == Part::Begin => b" in BEGIN",
            _ => b"",
        }
    }
}

/// Why a call of a built-in function is a reason wherever it stands.
pub(crate) fn reason_of_function(function: BuiltIn) -> &'static [u8] {
    match function {
        BuiltIn::Split => b" makes an array",
        BuiltIn::Match => b" sets RSTART and RLENGTH",
        BuiltIn::System | BuiltIn::Close | BuiltIn::Fflush => b" acts outside",
        _ => b"",
    }
}

/// Where the list in brackets ends that begins at a token: at its last one.
fn list_end(tokens: &[Token], open: usize) -> usize {
    let mut depth = 0usize;
    for (count, token) in tokens.get(open..).unwrap_or(&[]).iter().enumerate() {
        match token.kind {
            Kind::OpenBracket => depth = depth.saturating_add(1),
            Kind::CloseBracket => depth = depth.saturating_sub(1),
            _ => {}
        }
        if depth == 0 {
            return open.saturating_add(count);
        }
    }
    tokens.len()
}

/// What stands behind the variable or element whose name stands at a token.
pub(crate) fn behind_place(tokens: &[Token], at: usize) -> Option<&Kind> {
    match kind_behind(tokens, at, 1) {
        Some(Kind::OpenBracket) => kind_behind(tokens, list_end(tokens, at.saturating_add(1)), 1),
        kind => kind,
    }
}

/// Whether it is a field's number.
fn is_field_number(tokens: &[Token], at: usize) -> bool {
    match kind_before(tokens, at, 1) {
        Some(Kind::Dollar) => true,
        Some(Kind::Operator(Operator::Plus | Operator::Minus) | Kind::Not) => {
            matches!(kind_before(tokens, at, 2), Some(Kind::Dollar))
        }
        _ => false,
    }
}

/// Whether it is set there.
pub(crate) fn is_set(tokens: &[Token], at: usize) -> bool {
    let behind = matches!(
        behind_place(tokens, at),
        Some(Kind::Assign(_) | Kind::Increment(_))
    );
    let before = matches!(kind_before(tokens, at, 1), Some(Kind::Increment(_)));
    (behind || before) && !is_field_number(tokens, at)
}

/// What `sub` or `gsub` at a token exchanges in, where that is neither a field nor NF.
pub(crate) fn exchanged_elsewhere(
    alloc: Global,
    tokens: &[Token],
    at: usize,
) -> Result<Option<Stretch>, AllocError> {
    let all = arguments(alloc, tokens, at)?;
    let Some(stretch) = all.get(2) else {
        return Ok(None);
    };
    let is_of_record = match tokens.get(stretch.from..stretch.to) {
        Some([only]) => name_of(only) == Some(b"NF".as_slice()),
        Some([first, ..]) => matches!(first.kind, Kind::Dollar),
        _ => false,
    };
    Ok(if is_of_record { None } else { Some(*stretch) })
}

/// A finding that answers no: what isn't known, and the reason.
pub(crate) fn plain_finding(
    alloc: Global,
    not_known: &[u8],
    reason: &[u8],
) -> Result<Finding, AllocError> {
    let mut finding = Finding::new(alloc, None, &[not_known, reason], b"")?;
    finding.severity = Severity::Note;
    Ok(finding)
}

/// As `plain_finding`, at a token, whose text stands before the reason.
pub(crate) fn finding_of(
    alloc: Global,
    text: &[u8],
    token: &Token,
    not_known: &[u8],
    reason: &[u8],
) -> Result<Finding, AllocError> {
    let message = [not_known, text_of(text, token), reason];
    let mut finding = finding_at(alloc, token, &message, b"")?;
    finding.severity = Severity::Note;
    Ok(finding)
}
