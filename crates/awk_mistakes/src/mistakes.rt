// What an accepted program likely doesn't mean.

use crate::statements::{Simple, Statements, statements_of};
use awk_findings::calls::{Stretch, finding_at, place_of_stretch};
use awk_findings::{Finding, Note};
use awk_lex::token::{AssignmentOperator, BuiltIn, Keyword, Kind, Operator, Token};
use std::alloc::{AllocError, Global};

/// What is told of a program.
#[derive(Drop)]
pub(crate) struct Mistakes<'a> {
    pub(crate) alloc: Global,
    pub(crate) tokens: &'a [Token],
    found: Vec<Finding>,
}

impl<'a> Mistakes<'a> {
    /// Tells of a token.
    pub(crate) fn add(
        &mut self,
        token: &Token,
        message: &[u8],
        advice: &[u8],
    ) -> Result<(), AllocError> {
        let finding = finding_at(self.alloc, token, &[message], advice)?;
        self.found.push(finding)?;
        Ok(())
    }

    /// Tells of a token, and of another place that it has to do with.
    pub(crate) fn add_with(
        &mut self,
        token: &Token,
        message: &[u8],
        other: Option<Note>,
        advice: &[u8],
    ) -> Result<(), AllocError> {
        let mut finding = finding_at(self.alloc, token, &[message], advice)?;
        finding.other = other;
        self.found.push(finding)?;
        Ok(())
    }

    /// Tells of the tokens from one up to another.
    pub(crate) fn add_stretch(
        &mut self,
        from: usize,
        to: usize,
        message: &[u8],
        advice: &[u8],
    ) -> Result<(), AllocError> {
        let place = place_of_stretch(self.tokens, Stretch { from, to });
        let finding = Finding::new(self.alloc, place, &[message], advice)?;
        self.found.push(finding)?;
        Ok(())
    }

    /// What an operator between two operands may not mean.
    fn add_operator(&mut self, at: usize, operator: Operator) -> Result<(), AllocError> {
        match operator {
            Operator::Divide | Operator::Remainder => self.add_division(at),
            Operator::Power => self.add_power(at),
            Operator::Equal | Operator::NotEqual => self.add_compared_pattern(at),
            _ => Ok(()),
        }
    }

    /// What a token may not mean, with those around it.
    fn add_token(&mut self, at: usize, token: &Token) -> Result<(), AllocError> {
        match &token.kind {
            Kind::Operator(operator) => self.add_operator(at, *operator),
            Kind::Assign(AssignmentOperator::Divide | AssignmentOperator::Remainder) => {
                self.add_assigned_division(at)
            }
            Kind::Assign(AssignmentOperator::Plain) => {
                self.add_signed(at)?;
                self.add_counted_exchange(at)
            }
            Kind::Dollar => {
                self.add_negative_field(at)?;
                self.add_last_field(at)
            }
            Kind::Not => self.add_not(at),
            Kind::Keyword(Keyword::While) => self.add_while(at),
            Kind::Keyword(Keyword::If) => self.add_if(at),
            Kind::Keyword(Keyword::Function) => self.add_endless(at),
            Kind::BuiltIn(BuiltIn::Sprintf) => self.add_sprintf(at),
            _ => Ok(()),
        }
    }

    /// What a statement may not mean.
    fn add_statement(&mut self, statement: Simple) -> Result<(), AllocError> {
        let Some(first) = self.tokens.get(statement.stretch.from) else {
            return Ok(());
        };
        match &first.kind {
            Kind::Keyword(Keyword::Print) => self.add_numbered_target(statement.stretch),
            Kind::Keyword(Keyword::Printf) => {
                self.add_numbered_target(statement.stretch)?;
                self.add_printf(statement.stretch)
            }
            Kind::Keyword(
                Keyword::Next
                | Keyword::NextFile
                | Keyword::Exit
                | Keyword::Return
                | Keyword::Break
                | Keyword::Continue,
            ) => self.add_unreached(statement),
            Kind::Keyword(_) => Ok(()),
            _ => {
                self.add_late_separator(statement)?;
                self.add_idle(statement.stretch)
            }
        }
    }

    fn add_tokens(&mut self) -> Result<(), AllocError> {
        let tokens = self.tokens;
        for (at, token) in tokens.iter().enumerate() {
            self.add_token(at, token)?;
        }
        Ok(())
    }

    fn add_statements(&mut self, all: &Statements) -> Result<(), AllocError> {
        for statement in all.simple.as_slice() {
            self.add_statement(*statement)?;
        }
        Ok(())
    }

    /// The blocks on the line behind a pattern.
    fn add_lone_blocks(&mut self, all: &Statements) -> Result<(), AllocError> {
        for at in all.lone_blocks.as_slice() {
            self.add_lone_block(*at)?;
        }
        Ok(())
    }
}

/// What an accepted program likely doesn't mean, by its tokens.
pub fn find_mistakes(alloc: Global, tokens: &[Token]) -> Result<Vec<Finding>, AllocError> {
    let mut mistakes = Mistakes {
        alloc,
        tokens,
        found: Vec::new(alloc),
    };
    mistakes.add_tokens()?;
    let all = statements_of(alloc, tokens)?;
    mistakes.add_statements(&all)?;
    mistakes.add_lone_blocks(&all)?;
    let Mistakes { found, .. } = mistakes;
    Ok(found)
}
