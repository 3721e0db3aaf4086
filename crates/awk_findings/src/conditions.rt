// Assignments where a comparison is likely meant.

use crate::calls::{kind_before, kind_behind};
use crate::warnings::Warnings;
use awk_lex::token::{AssignmentOperator, Keyword, Kind, Token};
use std::alloc::{AllocError, Global};

/// What an open bracket belongs to.
#[derive(Clone, Copy, PartialEq, Eq)]
enum Owner {
    /// `if (` or `while (`
    Condition,
    Brace,
    Other,
}

/// A scan for assignments by the brackets they stand in.
#[derive(Drop)]
struct ConditionScan {
    owners: Vec<Owner>,
    found: Vec<usize>,
}

fn owner_of(tokens: &[Token], open: usize) -> Owner {
    match kind_before(tokens, open, 1) {
        Some(Kind::Keyword(Keyword::If | Keyword::While)) => Owner::Condition,
        _ => Owner::Other,
    }
}

/// Whether a constant alone stands between an assignment and what ends it.
fn assigns_constant(tokens: &[Token], at: usize) -> bool {
    let is_constant = matches!(
        kind_behind(tokens, at, 1),
        Some(Kind::Number(_) | Kind::String(_))
    );
    let ends = match kind_behind(tokens, at, 2) {
        None => true,
        Some(kind) => matches!(
            kind,
            Kind::CloseParenthesis | Kind::OpenBrace | Kind::Newline | Kind::Semicolon | Kind::Comma
        ),
    };
    is_constant && ends
}

/// Whether a name alone, or a field by a name or a number, stands between an assignment and the end of its brackets.
fn assigns_place(tokens: &[Token], at: usize) -> bool {
    let length = match (kind_behind(tokens, at, 1), kind_behind(tokens, at, 2)) {
        (Some(Kind::Name(_)), _) => 2,
        (Some(Kind::Dollar), Some(Kind::Name(_) | Kind::Number(_))) => 3,
        _ => return false,
    };
    matches!(
        kind_behind(tokens, at, length),
        Some(Kind::CloseParenthesis)
    )
}

impl ConditionScan {
    fn step(&mut self, tokens: &[Token], at: usize, token: &Token) -> Result<(), AllocError> {
        match &token.kind {
            Kind::OpenParenthesis => self.owners.push(owner_of(tokens, at))?,
            Kind::OpenBracket => self.owners.push(Owner::Other)?,
            Kind::OpenBrace => self.owners.push(Owner::Brace)?,
            Kind::CloseParenthesis | Kind::CloseBracket | Kind::CloseBrace => {
                let _ = self.owners.pop();
            }
            Kind::Assign(AssignmentOperator::Plain) => {
                let owner = self.owners.last().copied();
                let is_condition = match owner {
                    Some(Owner::Condition) => {
                        assigns_constant(tokens, at) || assigns_place(tokens, at)
                    }
                    None => assigns_constant(tokens, at),
                    _ => false,
                };
                if is_condition {
                    self.found.push(at)?;
                }
            }
            _ => {}
        }
        Ok(())
    }
}

/// Adds the assignments of constants that are conditions or patterns.
pub(crate) fn add_conditions(alloc: Global, warnings: &mut Warnings) -> Result<(), AllocError> {
    let mut scan = ConditionScan {
        owners: Vec::new(alloc),
        found: Vec::new(alloc),
    };
    let tokens = warnings.tokens;
    for (at, token) in tokens.iter().enumerate() {
        scan.step(tokens, at, token)?;
    }
    for at in scan.found.as_slice() {
        if let Some(token) = tokens.get(*at) {
            warnings.add(
                token,
                &[b"an assignment is the condition"],
                b"== compares; an assignment that is meant stands in parentheses of its own",
            )?;
        }
    }
    Ok(())
}
