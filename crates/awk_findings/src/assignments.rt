// What an assignment of the command line may not mean.

use crate::finding::{Finding, joined, shown};
use crate::patterns::ere_fault;
use crate::warnings::is_ere_byte;
use awk_ere::{Pattern, PatternFault};
use awk_lex::escapes::{EscapeFault, unescape};
use awk_lex::words::{is_left_out, is_reserved};
use std::alloc::{AllocError, Global};

/// What is told of `name=text`.
fn told_of(
    alloc: Global,
    told: &[u8],
    name: &[u8],
    text: &[u8],
    advice: &[u8],
) -> Result<Option<Finding>, AllocError> {
    let finding = Finding::new(alloc, None, &[told, name, b"=", shown(text)], advice)?;
    Ok(Some(finding))
}

/// What to write instead of a separator that is no pattern.
fn separator_advice(alloc: Global, separator: &[u8]) -> Result<Vec<u8>, AllocError> {
    let first = separator.first().copied().unwrap_or(b' ');
    if separator.iter().all(|byte| *byte == first) {
        let mut advice = joined(alloc, &[b"for these bytes themselves write "])?;
        for byte in separator {
            if is_ere_byte(*byte) {
                advice.extend_from_slice(b"\\\\")?;
            }
            advice.push(*byte)?;
        }
        return Ok(advice);
    }
    let advice = match ere_fault(separator) {
        Some(fault) => fault.advice,
        None => b"",
    };
    joined(alloc, &[advice, b"; here each backslash stands twice"])
}

/// What is told of a separator of fields.
fn separator_fault(
    alloc: Global,
    separator: &[u8],
    name: &[u8],
    text: &[u8],
) -> Result<Option<Finding>, AllocError> {
    if separator.len() < 2 {
        return Ok(None);
    }
    match Pattern::read(alloc, separator) {
        Ok(_) => Ok(None),
        Err(PatternFault::Memory) => Err(AllocError),
        Err(_) => {
            let advice = separator_advice(alloc, separator)?;
            told_of(
                alloc,
                b"no pattern, fault 6 before the run: ",
                name,
                text,
                &advice,
            )
        }
    }
}

/// What is told of an assignment that the command line makes, by its name and its text as it stands there.
pub fn assignment_finding(
    alloc: Global,
    name: &[u8],
    text: &[u8],
) -> Result<Option<Finding>, AllocError> {
    if is_reserved(name) || is_left_out(name) {
        let told = b"no name of a variable, fault 14 before the run: ";
        return told_of(alloc, told, name, text, b"choose another name");
    }
    let mut value = Vec::new(alloc);
    match unescape(text, &mut value) {
        Ok(()) => {}
        Err(EscapeFault::Memory) => return Err(AllocError),
        Err(EscapeFault::BadEscape) => {
            let told = b"an escape that strings don't have, fault 14 before the run: ";
            let advice = b"in an assignment, as in a string, a backslash stands twice";
            return told_of(alloc, told, name, text, advice);
        }
    }
    match name {
        b"FS" => separator_fault(alloc, &value, name, text),
        b"RS" if value.len() > 1 && value.iter().any(|byte| is_ere_byte(*byte)) => told_of(
            alloc,
            b"RS stands for its bytes: in other awks it is a pattern: ",
            name,
            text,
            b"one byte, or an empty RS for paragraphs, and sub for the rest",
        ),
        _ => Ok(None),
    }
}
