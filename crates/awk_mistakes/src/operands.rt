// Operands that the run can't read, and files that it can't write.

use crate::effects::target_of;
use crate::statements::{Item, Simple, statements_of};
use awk_findings::calls::place_of;
use awk_findings::{Finding, Place};
use awk_lex::lexer::tokens;
use awk_lex::token::{BuiltIn, Keyword, Kind, Token};
use std::alloc::{AllocError, Global};

/// Whether a program changes its operands, or asks for them.
fn knows_operands(tokens: &[Token]) -> bool {
    for token in tokens {
        if let Kind::Name(name) = &token.kind {
            if matches!(name.as_slice(), b"ARGV" | b"ARGC") {
                return true;
            }
        }
    }
    false
}

/// Whether the run may end before anything is read.
fn ends_early(tokens: &[Token], all: &[Simple]) -> bool {
    for statement in all {
        let first = tokens.get(statement.stretch.from);
        let ends = first.is_some_and(|token| matches!(token.kind, Kind::Keyword(Keyword::Exit)));
        if ends && statement.item != Item::End {
            return true;
        }
    }
    false
}

/// Whether an accepted program reads all its operands as they stand in the words.
pub fn reads_operands(alloc: Global, text: &[u8]) -> Result<bool, AllocError> {
    let Ok(found) = tokens(alloc, text) else {
        return Err(AllocError);
    };
    if knows_operands(&found) {
        return Ok(false);
    }
    let all = statements_of(alloc, &found)?;
    Ok(all.has_rules && !ends_early(&found, &all.simple))
}

/// What is told of an operand that can't be read, and why.
pub fn operand_finding(alloc: Global, name: &[u8], cause: &[u8]) -> Result<Finding, AllocError> {
    let message = [
        b"this operand can't be read now, fault 9 if so at its turn: ".as_slice(),
        name,
        b": ",
        cause,
    ];
    Finding::new(alloc, None, &message, b"")
}

/// A file that a program prints to, by its name, and where that stands.
#[derive(Drop)]
pub struct Output {
    pub name: Vec<u8>,
    pub place: Place,
}

/// Whether a program runs commands, which may make folders.
fn runs_commands(tokens: &[Token]) -> bool {
    for token in tokens {
        if matches!(token.kind, Kind::Bar | Kind::BuiltIn(BuiltIn::System)) {
            return true;
        }
    }
    false
}

/// Adds the files that statements print to by names in the text.
fn add_outputs(
    alloc: Global,
    tokens: &[Token],
    all: &[Simple],
    outputs: &mut Vec<Output>,
) -> Result<(), AllocError> {
    for statement in all {
        let first = tokens.get(statement.stretch.from);
        let prints = first.is_some_and(|token| {
            matches!(token.kind, Kind::Keyword(Keyword::Print | Keyword::Printf))
        });
        let Some(token) = target_of(tokens, statement.stretch) else {
            continue;
        };
        if let (true, Kind::String(name)) = (prints, &token.kind) {
            outputs.push(Output {
                name: name.as_slice().to_vec(alloc)?,
                place: place_of(token),
            })?;
        }
    }
    Ok(())
}

/// The files that an accepted program, which runs no commands, prints to by names in its text.
pub fn outputs_of(alloc: Global, text: &[u8]) -> Result<Vec<Output>, AllocError> {
    let Ok(found) = tokens(alloc, text) else {
        return Err(AllocError);
    };
    let mut outputs = Vec::new(alloc);
    if !runs_commands(&found) {
        let all = statements_of(alloc, &found)?;
        add_outputs(alloc, &found, &all.simple, &mut outputs)?;
    }
    Ok(outputs)
}

/// What is told of a file that can't be written, and why.
pub fn output_finding(alloc: Global, output: &Output, cause: &[u8]) -> Result<Finding, AllocError> {
    let message = [
        b"this file can't be opened now, fault 10 if so when it is met: ".as_slice(),
        cause,
    ];
    Finding::new(alloc, Some(output.place), &message, b"")
}
