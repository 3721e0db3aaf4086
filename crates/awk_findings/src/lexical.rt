// Where a text breaks that is no list of tokens, and what to write instead.

use crate::finding::{Finding, Place, Severity, joined, shown};
use crate::scan::{LineScan, Within, divides_at_end};
use crate::text::{bytes_of, numbered_line};
use awk_lex::refusal::{Refusal, RefusalCode};
use awk_lex::words::is_word_byte;
use std::alloc::{AllocError, Global};

/// Whether a byte of a line begins no token.
fn is_unexpected(line: &[u8], at: usize, byte: u8) -> bool {
    let next = line.get(at.saturating_add(1)).copied().unwrap_or(b'\n');
    let last = line.get(at.saturating_sub(1)).copied().unwrap_or(b'\n');
    match byte {
        b'.' | b'\'' | b'@' | b'`' | 0..=8 | 11..=31 | 127..=255 => true,
        b'&' => next != b'&' && (at == 0 || last != b'&'),
        b'\\' => at.saturating_add(1) < line.len(),
        _ => false,
    }
}

/// Whether an escape of this byte, and what stands behind it, is none of a string's.
fn is_bad_escape(byte: u8, behind: &[u8]) -> bool {
    match byte {
        b'"' | b'/' | b'\\' | b'a' | b'b' | b'f' | b'n' | b'r' | b't' | b'v' => false,
        b'0'..=b'3' => false,
        b'4'..=b'7' => matches!(behind, [b'0'..=b'7', b'0'..=b'7', ..]),
        _ => true,
    }
}

/// Where the first escape of a string's text stands that is none.
fn bad_escape(body: &[u8]) -> Option<usize> {
    let mut is_escaped = false;
    for (at, byte) in body.iter().enumerate() {
        if is_escaped {
            let behind = body.get(at.saturating_add(1)..).unwrap_or(b"");
            if is_bad_escape(*byte, behind) {
                return at.checked_sub(1);
            }
            is_escaped = false;
        } else {
            is_escaped = *byte == b'\\';
        }
    }
    None
}

/// The end of the escape whose backslash stands at a place.
fn end_of_escape(line: &[u8], start: usize) -> usize {
    match line.get(start..) {
        Some([_, b'0'..=b'7', b'0'..=b'7', b'0'..=b'7', ..]) => start.saturating_add(4),
        _ => start.saturating_add(2),
    }
}

/// Whether digits spell a number above 2^127 - 1.
fn is_too_large(digits: &[u8]) -> bool {
    let mut value = 0i128;
    for digit in digits {
        let unit = i128::from(digit.wrapping_sub(b'0'));
        match value
            .checked_mul(10)
            .and_then(|tens| tens.checked_add(unit))
        {
            Some(sum) => value = sum,
            None => return true,
        }
    }
    false
}

/// The end of the letters, digits, underscores and points from a place on.
fn end_of_number(line: &[u8], from: usize) -> usize {
    for (at, byte) in line.iter().enumerate().skip(from) {
        if !is_word_byte(*byte) && *byte != b'.' {
            return at;
        }
    }
    line.len()
}

/// Where the fault stands if it is told at this byte of the line, of which the scan was within something before it.
fn fault_at(code: RefusalCode, before: Within, line: &[u8], at: usize, byte: u8) -> Option<Place> {
    match (code, before) {
        (RefusalCode::UnexpectedByte, Within::Nothing | Within::Word(_) | Within::Number(_))
            if is_unexpected(line, at, byte) => Some(Place {
            start: at,
            end: at.saturating_add(1),
        }),
        (RefusalCode::EscapeRefused, Within::Text(start, false)) if byte == b'"' => {
            let from = start.saturating_add(1);
            let escape = bad_escape(line.get(from..at).unwrap_or(b""))?;
            let start = from.saturating_add(escape);
            Some(Place {
                start,
                end: end_of_escape(line, start),
            })
        }
        (RefusalCode::NumberRefused, Within::Number(start)) if !byte.is_ascii_digit() => {
            let goes_on = is_word_byte(byte) || byte == b'.';
            if !goes_on && !is_too_large(line.get(start..at).unwrap_or(b"")) {
                return None;
            }
            Some(Place {
                start,
                end: end_of_number(line, at),
            })
        }
        _ => None,
    }
}

/// Where the fault stands on its line.
fn fault_on(
    alloc: Global,
    code: RefusalCode,
    line: &[u8],
    divides: bool,
) -> Result<Option<Place>, AllocError> {
    let mut scan = LineScan::new(divides);
    for (at, byte) in line.iter().enumerate() {
        let before = scan.within;
        scan.step(alloc, line, at, *byte)?;
        if let Some(place) = fault_at(code, before, line, at, *byte) {
            return Ok(Some(place));
        }
    }
    let end = line.len();
    Ok(match (code, scan.within) {
        (RefusalCode::OpenString, Within::Text(start, _)) => Some(Place { start, end }),
        (RefusalCode::OpenPattern, Within::Pattern(start, _)) => Some(Place { start, end }),
        (RefusalCode::NumberRefused, Within::Number(start)) => Some(Place { start, end }),
        _ => None,
    })
}

/// Whether bytes begin with a quotation mark of books.
fn is_curly(bytes: &[u8]) -> bool {
    matches!(bytes, [0xe2, 0x80, 0x98..=0x9f, ..])
}

/// What to write instead of a byte that begins no token, by the byte before it and those from it on.
fn byte_advice(byte: u8, before: u8, behind: &[u8]) -> &'static [u8] {
    match byte {
        _ if is_curly(behind) => b"a string stands between straight quotes, as \"x\"",
        b'&' if before == b'|' => {
            b"there is no command that is both written to and read: print to \"cmd >file\", close it, and read the file"
        }
        b'\'' =>
            b"strings stand between double quotes; in a shell's single quotes write '\\'' or \\047",
        b'.' => b"numbers are whole and have no point; texts are joined by standing side by side",
        b'&' => b"&& is the and of two conditions; there is no other",
        b'@' => b"directives of gawk, as @include, are left out: join files by several -f",
        b'\\' => b"a backslash continues a line only where the line ends directly behind it",
        b'`' => b"a command is read by \"command\" | getline, and run by system(\"command\")",
        b'\r' => b"the lines end in CR LF: take the carriage returns away, as by tr -d '\\r'",
        128..=255 => b"bytes above 127 stand only in strings, patterns and remarks",
        _ => b"",
    }
}

/// What to write instead of an escape that a string doesn't have.
fn escape_advice(byte: u8) -> &'static [u8] {
    match byte {
        b'x' => b"write the byte in octal, as \"\\101\" for A",
        b'u' => b"write the bytes themselves, or in octal as \"\\303\\274\"",
        b's' => b"in a pattern write [[:space:]], and in a string \" \"",
        b'S' => b"in a pattern write [^[:space:]]",
        b'w' | b'W' => b"in a pattern write [[:alnum:]_] or [^[:alnum:]_]",
        b'd' | b'D' => b"in a pattern write [0-9] or [^0-9]",
        b'0'..=b'7' => b"an octal escape is at most \\377",
        b'.' | b'*' | b'+' | b'?' | b'|' | b'(' | b')' | b'[' | b']' | b'{' | b'}' | b'^' | b'$' =>
            {
                b"a string that is a pattern needs two backslashes, as \"\\\\.\"; else leave the backslash out"
            }
        _ => b"write two backslashes for one, or leave it out",
    }
}

/// What to write instead of a number that is refused.
fn number_advice(number: &[u8]) -> &'static [u8] {
    if number.contains(&b'.') {
        return b"only whole numbers here: scale by hand, as cents for euros";
    }
    match number {
        [b'0', b'x' | b'X', ..] => b"only decimal numbers here",
        _ if number.iter().any(|byte| *byte == b'e' || *byte == b'E') => {
            b"no exponents here: write the zeros, or 10 ^ n"
        }
        _ if number.iter().all(|byte| byte.is_ascii_digit()) => {
            b"numbers go up to 2^127 - 1 = 170141183460469231731687303715884105727"
        }
        _ =>
            b"a name begins with a letter or an underscore; two values that are joined need a blank",
    }
}

/// What to write instead of what was found on a line, behind such a byte, where the line goes on so.
fn advice_on(code: RefusalCode, found: &[u8], before: u8, behind: &[u8]) -> &'static [u8] {
    match code {
        RefusalCode::UnexpectedByte => {
            byte_advice(found.first().copied().unwrap_or(b' '), before, behind)
        }
        RefusalCode::OpenString if behind.ends_with(b"\\") => {
            b"a string ends on its line: join two, as \"a\" \"b\", with the backslash between them"
        }
        RefusalCode::OpenString => b"close it with \" on the same line; \\n is a newline",
        RefusalCode::EscapeRefused => escape_advice(found.get(1).copied().unwrap_or(b' ')),
        RefusalCode::OpenPattern => {
            b"a pattern ends on its line with /, also in brackets, and a slash in it is \\/; if it divides, what stands before it needs parentheses"
        }
        RefusalCode::NumberRefused => number_advice(found),
        RefusalCode::ProgramTooLong => b"a program has at most 1,048,576 bytes",
        _ => b"",
    }
}

/// Whether a byte can be shown as it is.
fn is_visible(found: &[u8]) -> bool {
    found.iter().all(|byte| *byte >= b' ' && *byte != 127)
}

/// What was found there, as a message shows it.
fn found_text(alloc: Global, found: &[u8]) -> Result<Vec<u8>, AllocError> {
    match found {
        [byte] if *byte < b' ' || *byte >= 127 => {
            let number = format!(in alloc; ": the byte {byte}")?;
            Ok(number.as_bytes().to_vec(alloc)?)
        }
        _ if found.is_empty() || !is_visible(found) => Ok(Vec::new(alloc)),
        _ => joined(alloc, &[b": ", shown(found)]),
    }
}

/// The byte before a place.
fn byte_before(text: &[u8], place: Option<Place>) -> u8 {
    match place {
        Some(place) => text
            .get(place.start.saturating_sub(1))
            .copied()
            .unwrap_or(b' '),
        None => b' ',
    }
}

/// What is told of a text that is no list of tokens.
pub fn lexical_finding(
    alloc: Global,
    text: &[u8],
    refusal: Refusal,
) -> Result<Finding, AllocError> {
    let code = refusal.code;
    let label = format!(in alloc; "refusal {code}")?;
    let stretch = numbered_line(text, refusal.line);
    let line = bytes_of(text, stretch);
    let before = text.get(..stretch.start).unwrap_or(b"");
    let fault = match code {
        RefusalCode::ProgramTooLong => None,
        _ => fault_on(alloc, code, line, divides_at_end(alloc, before)?)?,
    };
    let behind = match fault {
        Some(fault) => line.get(fault.start..).unwrap_or(b""),
        None => b"",
    };
    let (found, place) = match fault {
        Some(fault) => {
            let place = Place {
                start: stretch.start.saturating_add(fault.start),
                end: stretch.start.saturating_add(fault.end),
            };
            (bytes_of(line, fault), Some(place))
        }
        None => (b"".as_slice(), None),
    };
    let advice = advice_on(code, found, byte_before(text, place), behind);
    let shown = found_text(alloc, found)?;
    let mut finding = Finding::new(alloc, place, &[label.as_bytes(), &shown], advice)?;
    finding.severity = Severity::Error;
    Ok(finding)
}
