// The lines that tell findings.

use crate::finding::{Finding, Place, Severity};
use crate::letters::{add_blanks, add_visible, goes_on, width_of_all};
use crate::text::{Lines, bytes_of};
use std::alloc::{AllocError, Global};

/// A part of a program's text: the name of its file, and where in the text it begins.
#[derive(Drop)]
pub struct Source {
    pub name: Vec<u8>,
    pub start: usize,
}

/// The most bytes of a line that are shown.
const SHOWN: usize = 200;

/// How many bytes of a long line are shown before a stretch.
const BEFORE: usize = 80;

/// What stands for the part of a line that isn't shown.
const CUT: &[u8] = b"...";

/// A program's text with the files that it is joined of.
#[derive(Drop)]
struct Listing<'a> {
    alloc: Global,
    sources: &'a [Source],
    text: &'a [u8],
    lines: Lines,
}

/// The nearest place at or before this one at which a letter begins.
fn letter_start(bytes: &[u8], at: usize) -> usize {
    let mut start = at;
    for _ in 0..3 {
        match bytes.get(start) {
            Some(byte) if goes_on(*byte) => start = start.saturating_sub(1),
            _ => return start,
        }
    }
    start
}

/// The part of a line that is shown with a stretch of it.
fn window(line: &[u8], from: usize) -> Place {
    if line.len() <= SHOWN {
        return Place {
            start: 0,
            end: line.len(),
        };
    }
    let start = match from.checked_sub(BEFORE) {
        Some(start) if from > SHOWN.saturating_sub(BEFORE) => letter_start(line, start),
        _ => 0,
    };
    let end = start.saturating_add(SHOWN);
    Place {
        start,
        end: if end < line.len() {
            letter_start(line, end)
        } else {
            line.len()
        },
    }
}

/// The part of a line with a stretch of it, and below it a caret and tildes under the stretch.
fn add_line(out: &mut Vec<u8>, line: &[u8], stretch: Place) -> Result<(), AllocError> {
    let part = window(line, stretch.start);
    let is_cut = part.start > 0;
    out.extend_from_slice(b"    ")?;
    if is_cut {
        out.extend_from_slice(CUT)?;
    }
    add_visible(out, bytes_of(line, part))?;
    if part.end < line.len() {
        out.extend_from_slice(CUT)?;
    }
    out.extend_from_slice(b"\n    ")?;
    if is_cut {
        add_blanks(out, CUT)?;
    }
    let from = stretch.start.min(part.end);
    let before = Place {
        start: part.start,
        end: from,
    };
    add_blanks(out, bytes_of(line, before))?;
    out.push(b'^')?;
    let under = Place {
        start: from,
        end: stretch.end.min(part.end),
    };
    for _ in 1..width_of_all(bytes_of(line, under)) {
        out.push(b'~')?;
    }
    out.push(b'\n')?;
    Ok(())
}

fn add_note(out: &mut Vec<u8>, label: &[u8], note: &[u8]) -> Result<(), AllocError> {
    if note.is_empty() {
        return Ok(());
    }
    out.extend_from_slice(label)?;
    add_visible(out, note)?;
    out.push(b'\n')?;
    Ok(())
}

/// How bad a finding is, in the words that editors know.
fn label_of(severity: Severity) -> &'static [u8] {
    match severity {
        Severity::Error => b"error: ",
        Severity::Warning => b"warning: ",
        Severity::Note => b"note: ",
    }
}

/// The part of a text that a byte stands in, of the parts that it is joined of.
pub fn source_at(sources: &[Source], at: usize) -> Option<&Source> {
    let count = sources.partition_point(|source| source.start <= at);
    sources.get(count.saturating_sub(1))
}

impl<'a> Listing<'a> {
    /// `FILE:LINE:COLUMN: LABEL: MESSAGE`, the line, and below it a caret and tildes.
    fn add_at(
        &self,
        out: &mut Vec<u8>,
        place: Place,
        label: &[u8],
        message: &[u8],
    ) -> Result<(), AllocError> {
        let Some(source) = source_at(self.sources, place.start) else {
            return add_note(out, label, message);
        };
        let line = self.lines.line_of(source.start, place.start);
        let start = place.start.saturating_sub(line.stretch.start);
        let number = line.number;
        let column = start.saturating_add(1);
        let numbers = format!(in self.alloc; ":{number}:{column}: ")?;
        add_visible(out, &source.name)?;
        out.extend_from_slice(numbers.as_bytes())?;
        add_note(out, label, message)?;
        let stretch = Place {
            start,
            end: place.end.saturating_sub(line.stretch.start),
        };
        add_line(out, bytes_of(self.text, line.stretch), stretch)
    }

    /// A finding with all that belongs to it.
    fn add(&self, out: &mut Vec<u8>, finding: &Finding) -> Result<(), AllocError> {
        let label = label_of(finding.severity);
        match (finding.place, self.sources.first()) {
            (Some(place), _) => self.add_at(out, place, label, &finding.message)?,
            (None, Some(source)) => {
                add_visible(out, &source.name)?;
                out.extend_from_slice(b": ")?;
                add_note(out, label, &finding.message)?;
            }
            (None, None) => add_note(out, label, &finding.message)?,
        }
        add_note(out, b"    expected: ", &finding.expected)?;
        add_note(out, b"    instead: ", &finding.advice)?;
        match finding.other {
            Some(other) => self.add_at(out, other.place, b"note: ", other.message),
            None => Ok(()),
        }
    }
}

/// Adds the lines that tell findings of a text, which is joined of these files. Of each: its place, how bad it is and
/// what it is, the line with a caret, what could stand there, what to write instead, and another place that it has to
/// do with. A question mark stands for each byte or letter of the text that would steer a terminal.
pub fn write_findings(
    alloc: Global,
    out: &mut Vec<u8>,
    sources: &[Source],
    text: &[u8],
    findings: &[Finding],
) -> Result<(), AllocError> {
    let listing = Listing {
        alloc,
        sources,
        text,
        lines: Lines::of(alloc, text)?,
    };
    for finding in findings {
        listing.add(out, finding)?;
    }
    Ok(())
}
