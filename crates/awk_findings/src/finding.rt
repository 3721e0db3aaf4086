// What is told of a program: where it stands, what it is, and what to write instead.

use std::alloc::{AllocError, Global};

/// The most bytes that a message shows of the program's text.
const SHOWN: usize = 60;

/// A stretch of a program's text, by its bytes.
#[derive(Clone, Copy)]
pub struct Place {
    pub start: usize,
    pub end: usize,
}

/// How bad a finding is.
#[derive(Clone, Copy, PartialEq, Eq)]
pub enum Severity {
    /// The program is refused.
    Error,
    /// It may not mean what it says.
    Warning,
    /// An answer.
    Note,
}

/// Another stretch of the text that a finding has to do with, and what stands there.
#[derive(Clone, Copy)]
pub struct Note {
    pub place: Place,
    pub message: &'static [u8],
}

/// What is told of a program.
#[derive(Drop)]
pub struct Finding {
    pub severity: Severity,
    /// The stretch of the text that it is told of, where one is known.
    pub place: Option<Place>,
    /// What it is, in one line.
    pub message: Vec<u8>,
    /// Another stretch that it has to do with, where there is one.
    pub other: Option<Note>,
    /// What could stand there, in one line, or empty.
    pub expected: Vec<u8>,
    /// What to write instead, in one line, or empty.
    pub advice: Vec<u8>,
}

/// The parts, one behind the other.
pub(crate) fn joined(alloc: Global, parts: &[&[u8]]) -> Result<Vec<u8>, AllocError> {
    let mut bytes = Vec::new(alloc);
    for part in parts {
        bytes.extend_from_slice(part)?;
    }
    Ok(bytes)
}

/// The front of a text that is shown.
pub(crate) fn shown(text: &[u8]) -> &[u8] {
    let end = text.iter().position(|byte| *byte == b'\n');
    let line = &text[..end.unwrap_or(text.len()).min(text.len())];
    &line[..line.len().min(SHOWN)]
}

impl Finding {
    /// A warning whose message is these parts.
    pub fn new(
        alloc: Global,
        place: Option<Place>,
        message: &[&[u8]],
        advice: &[u8],
    ) -> Result<Finding, AllocError> {
        Ok(Finding {
            severity: Severity::Warning,
            place,
            message: joined(alloc, message)?,
            other: None,
            expected: Vec::new(alloc),
            advice: advice.to_vec(alloc)?,
        })
    }
}
