// How often the statements of a program ran.

use crate::parts::Part;
use crate::run_places::Outline;
use crate::trace::Trace;
use awk_findings::{Lines, Source, add_visible, source_at};
use std::alloc::{AllocError, Global};

/// The first line of a part of a text.
fn first_line<'a>(text: &'a [u8], part: &Part) -> &'a [u8] {
    let bytes = text.get(part.place.start..part.place.end).unwrap_or(b"");
    let end = bytes.iter().position(|byte| *byte == b'\n');
    bytes.get(..end.unwrap_or(bytes.len())).unwrap_or(b"")
}

/// Adds `FILE:LINE:COLUMN: COUNT: TEXT`.
fn add_count(
    alloc: Global,
    out: &mut Vec<u8>,
    source: &Source,
    lines: &Lines,
    text: &[u8],
    part: &Part,
    count: u64,
) -> Result<(), AllocError> {
    let line = lines.line_of(source.start, part.place.start);
    let number = line.number;
    let column = part
        .place
        .start
        .saturating_sub(line.stretch.start)
        .saturating_add(1);
    let numbers = format!(in alloc; ":{number}:{column}: {count}: ")?;
    add_visible(out, &source.name)?;
    out.extend_from_slice(numbers.as_bytes())?;
    add_visible(out, first_line(text, part))?;
    out.push(b'\n')?;
    Ok(())
}

/// Adds how often each statement ran, and each pattern without an action printed, in the order of the text.
pub(crate) fn add_counts(
    alloc: Global,
    out: &mut Vec<u8>,
    sources: &[Source],
    outline: &Outline,
    trace: &Trace,
) -> Result<(), AllocError> {
    let lines = Lines::of(alloc, &trace.text)?;
    for (number, part) in outline.parts.iter().enumerate() {
        if let Some(head) = outline.head_of(number) {
            if let Some(source) = source_at(sources, part.place.start) {
                let count = trace.count_at(head);
                add_count(alloc, out, source, &lines, &trace.text, part, count)?;
            }
        }
    }
    Ok(())
}
