// Which directives of a format are none here.

/// A directive that is none, by its bytes in the format.
#[derive(Clone, Copy)]
pub struct FormatFault {
    pub start: usize,
    pub end: usize,
    pub advice: &'static [u8],
}

/// What a byte of a format stands in.
#[derive(Clone, Copy)]
enum Part {
    Text,
    /// Directly behind the percent sign at this byte.
    Percent(usize),
    /// Behind the flags or in the width.
    Width(usize),
    /// Behind the point.
    Precision(usize),
}

const NO_FRACTIONS: &[u8] = b"no fractions here: scale, as printf \"%d.%02d\", c / 100, c % 100";

/// What to write instead of a directive whose fault is this byte, by the byte behind it.
fn directive_advice(byte: u8, next: u8) -> &'static [u8] {
    match byte {
        b'l' | b'h' | b'L' if matches!(next, b'e' | b'E' | b'f' | b'F' | b'g' | b'G') =>
            NO_FRACTIONS,
        b'e' | b'E' | b'f' | b'F' | b'g' | b'G' | b'a' | b'A' => { NO_FRACTIONS }
        b'*' => b"write the number in the format's text, or join it: \"%\" n \"d\"",
        b'l' | b'h' | b'L' | b'j' | b'z' | b't' => b"numbers have one size: leave the letter out",
        b'\'' => b"no thousands are set apart here: leave the flag out",
        b'$' => b"the values are taken in their order: write %s and give them so",
        b'b' | b'q' => b"it is the shell's own: write %s, and escapes in the string itself",
        b'%' => b"%% alone is a percent sign",
        _ => b"a percent sign is %%",
    }
}

fn fault(format: &[u8], start: usize, at: usize) -> Option<FormatFault> {
    let end = at.saturating_add(1);
    let byte = format.get(at).copied().unwrap_or(b' ');
    let next = format.get(end).copied().unwrap_or(b' ');
    Some(FormatFault {
        start,
        end,
        advice: directive_advice(byte, next),
    })
}

/// The part behind a byte, or `None` where the directive is none.
fn part_behind(part: Part, at: usize, byte: u8) -> Option<Part> {
    match (part, byte) {
        (Part::Text, b'%') => Some(Part::Percent(at)),
        (Part::Text, _) | (Part::Percent(_), b'%') => Some(Part::Text),
        (Part::Percent(start), b'-' | b'+' | b' ' | b'#' | b'0') => Some(Part::Percent(start)),
        (Part::Percent(start) | Part::Width(start), b'0'..=b'9') => Some(Part::Width(start)),
        (Part::Percent(start) | Part::Width(start), b'.') => Some(Part::Precision(start)),
        (Part::Precision(start), b'0'..=b'9') => Some(Part::Precision(start)),
        (_, b'd' | b'i' | b'o' | b'x' | b'X' | b'u' | b'c' | b's') => Some(Part::Text),
        _ => None,
    }
}

fn start_of(part: Part) -> Option<usize> {
    match part {
        Part::Text => None,
        Part::Percent(start) | Part::Width(start) | Part::Precision(start) => Some(start),
    }
}

/// The first directive of a format that is none.
pub fn format_fault(format: &[u8]) -> Option<FormatFault> {
    let mut part = Part::Text;
    for (at, byte) in format.iter().enumerate() {
        match part_behind(part, at, *byte) {
            Some(behind) => part = behind,
            None => return fault(format, start_of(part)?, at),
        }
    }
    let start = start_of(part)?;
    Some(FormatFault {
        start,
        end: format.len(),
        advice: directive_advice(b' ', b' '),
    })
}
