// Bytes as a terminal may be given them, letter by letter.

use std::alloc::AllocError;

/// A byte, or the bytes of a letter of UTF-8, as they are shown.
#[derive(Clone, Copy)]
struct Letter {
    /// How many bytes it is.
    length: usize,
    /// How many columns it takes.
    width: usize,
    /// Whether it would steer a terminal.
    steers: bool,
}

/// How many bytes a letter has that begins with this one, if it is one of UTF-8.
fn length_of(first: u8) -> usize {
    match first {
        0xc2..=0xdf => 2,
        0xe0..=0xef => 3,
        0xf0..=0xf4 => 4,
        _ => 1,
    }
}

/// How many columns a terminal gives to a letter: none to marks over the one before, two to those of East Asia.
fn width_of(letter: char) -> usize {
    match letter as u32 {
        0x300..=0x36f | 0x200b..=0x200f | 0xfe00..=0xfe0f | 0xfe20..=0xfe2f => 0,
        0x1100..=0x115f
        | 0x2e80..=0xa4cf
        | 0xac00..=0xd7a3
        | 0xf900..=0xfaff
        | 0xfe30..=0xfe6f
        | 0xff00..=0xff60
        | 0xffe0..=0xffe6
        | 0x1f300..=0x1faff
        | 0x20000..=0x3fffd => 2,
        _ => 1,
    }
}

/// The letter of UTF-8 that these bytes begin with, where it has several.
fn long_letter(bytes: &[u8]) -> Option<char> {
    let length = length_of(*bytes.first()?);
    if length < 2 {
        return None;
    }
    match std::str::from_utf8(bytes.get(..length)?) {
        Ok(letter) => letter.chars().next(),
        Err(_) => None,
    }
}

/// The first letter of these bytes.
fn first_letter(bytes: &[u8]) -> Letter {
    let first = bytes.first().copied().unwrap_or(b' ');
    match long_letter(bytes) {
        Some(letter) => Letter {
            length: length_of(first),
            width: width_of(letter),
            steers: (letter as u32) < 160,
        },
        None => Letter {
            length: 1,
            width: 1,
            steers: matches!(first, 0..=8 | 10..=31 | 127..=159),
        },
    }
}

/// Whether a byte goes on with a letter of UTF-8 that began before it.
pub(crate) fn goes_on(byte: u8) -> bool {
    matches!(byte, 0x80..=0xbf)
}

/// Adds bytes as they are shown: a question mark stands for what would steer a terminal.
pub fn add_visible(out: &mut Vec<u8>, bytes: &[u8]) -> Result<(), AllocError> {
    let mut left = 0usize;
    for (at, byte) in bytes.iter().enumerate() {
        if left > 0 {
            left -= 1;
            continue;
        }
        let letter = first_letter(bytes.get(at..).unwrap_or(b""));
        if letter.steers {
            out.push(b'?')?;
        } else {
            out.push(*byte)?;
            let others = at.saturating_add(1)..at.saturating_add(letter.length);
            out.extend_from_slice(bytes.get(others).unwrap_or(b""))?;
        }
        left = letter.length.saturating_sub(1);
    }
    Ok(())
}

/// Adds blanks as wide as bytes that are shown, and tabs for tabs.
pub(crate) fn add_blanks(out: &mut Vec<u8>, bytes: &[u8]) -> Result<(), AllocError> {
    let mut left = 0usize;
    for (at, byte) in bytes.iter().enumerate() {
        if left > 0 {
            left -= 1;
            continue;
        }
        if *byte == b'\t' {
            out.push(b'\t')?;
            continue;
        }
        let letter = first_letter(bytes.get(at..).unwrap_or(b""));
        for _ in 0..letter.width {
            out.push(b' ')?;
        }
        left = letter.length.saturating_sub(1);
    }
    Ok(())
}

/// How many columns bytes take that are shown.
pub(crate) fn width_of_all(bytes: &[u8]) -> usize {
    let mut width = 0usize;
    let mut left = 0usize;
    for at in 0..bytes.len() {
        if left > 0 {
            left -= 1;
            continue;
        }
        let letter = first_letter(bytes.get(at..).unwrap_or(b""));
        width = width.saturating_add(letter.width);
        left = letter.length.saturating_sub(1);
    }
    width
}
