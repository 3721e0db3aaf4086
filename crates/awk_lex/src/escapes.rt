// The bytes that a text with escapes stands for.
ghost use Rattle.std.specs.Prelude.{◌≡◌, ◌+◌, ◌-◌, ◌<◌, ◌≤◌, ◌∷◌, ◌++◌, true, None, Some, Err, OnOk, IfSome, length};
ghost use Rattle.std.specs.Option.{option_map};
ghost use Rattle.awk_lex.specs.definitions.Escapes.{letter, is_octal, octal_digits, octal, octal_escape};
ghost use Rattle.awk_lex.specs.definitions.Escapes.{escape, first_symbol, unescaped};

use std::alloc::{AllocError, AllocFailed};

/// Why the escapes of a text were not replaced.
#[derive(Clone, Copy)]
pub enum EscapeFault {
    /// F1.
    Memory,
    /// An escape that isn't one of the table: L3 in a program, F14 in an assignment before a file.
    BadEscape,
}

impl From<AllocError> for EscapeFault {
    ghost use Rattle.std.specs.Prelude.{◌≡◌};
    ghost use Rattle.awk_lex.specs.declared.escapes.EscapeFault.TheVariants.{Memory};

    ghost from_gives = { λ _ e. e ≡ Memory };

    fn from(_: AllocError) -> Self {
        EscapeFault::Memory
    }
}

impl<T: Drop> From<AllocFailed<T>> for EscapeFault {
    ghost use Rattle.std.specs.Prelude.{◌≡◌};
    ghost use Rattle.awk_lex.specs.declared.escapes.EscapeFault.TheVariants.{Memory};

    ghost from_gives = { λ _ e. e ≡ Memory };

    fn from(_: AllocFailed<T>) -> Self {
        EscapeFault::Memory
    }
}

/// A byte that a text stands for, and how many of the text's bytes behind the
/// first stand for it too.
#[derive(Clone, Copy)]
struct Symbol {
    byte: u8,
    behind: usize,
}

// What a backslash and a byte that is no octal digit stand for.
fn letter(byte: u8) -> Option<u8>
    ensures { result ≡ letter byte }
{
    match byte {
        b'"' | b'/' | b'\\' => Some(byte),
        b'a' => Some(7),
        b'b' => Some(8),
        b'f' => Some(12),
        b'n' => Some(b'\n'),
        b'r' => Some(b'\r'),
        b't' => Some(b'\t'),
        b'v' => Some(11),
        _ => None,
    }
}

// A number that so many digits write, if it is a byte.
fn octal(value: u16, digits: usize) -> Option<Symbol>
    ensures { result ≡ octal value digits }
{
    if value > 255 {
        return None;
    }
    Some(Symbol {
        byte: value as u8,
        behind: digits,
    })
}

fn is_octal(byte: u8) -> bool
    ensures { result ≡ is_octal byte }
{
    matches!(byte, b'0'..=b'7')
}

// The value of an octal digit.
fn digit(byte: u8) -> u16
    requires { is_octal byte ≡ true }
    ensures is { result ≡ byte - 48 }
    ensures small { result < 8 }
{
    u16::from(byte - b'0')
}

// What a backslash in front of an octal digit and a text stands for: a number of three digits at the most.
fn octal_escape(first: u8, text: &[u8]) -> Option<Symbol>
    requires { is_octal first ≡ true }
    ensures is { result ≡ octal_escape (octal_digits (first ∷ text.now)) }
    ensures within { IfSome result (λ symbol. symbol.behind ≤ 1 + length text.now) }
{
    let value = digit(first);
    match text {
        [second, third, ..] if is_octal(*second) && is_octal(*third) => {
            octal((value * 8 + digit(*second)) * 8 + digit(*third), 3)
        }
        [second, ..] if is_octal(*second) => octal(value * 8 + digit(*second), 2),
        _ => octal(value, 1),
    }
}

// What a backslash in front of the text stands for.
fn escape(text: &[u8]) -> Option<Symbol>
    ensures is { result ≡ escape text.now }
    ensures within { IfSome result (λ symbol. symbol.behind ≤ length text.now) }
{
    match text {
        [] => Some(Symbol {
            byte: b'\\',
            behind: 0,
        }),
        [first, others @ ..] if is_octal(*first) => octal_escape(*first, others),
        [first, ..] => Some(Symbol {
            byte: letter(*first)?,
            behind: 1,
        }),
    }
}

// What stands at the front of a text, by its first byte and the text behind.
fn first_symbol(first: u8, text: &[u8]) -> Option<Symbol>
    ensures is { result ≡ first_symbol first text.now }
    ensures within { IfSome result (λ symbol. symbol.behind ≤ length text.now) }
{
    if first == b'\\' {
        escape(text)
    } else {
        Some(Symbol {
            byte: first,
            behind: 0,
        })
    }
}

/// Adds the bytes that the text stands for to those in `into`: each escape of
/// the table in POSIX awk, "Lexical Conventions", for its byte, a backslash at
/// the end for itself, and each other byte for itself. Any other escape is
/// bad. What an `Err` leaves in `into` behind what it held may be anything.
pub fn unescape(text: &[u8], into: &mut Vec<u8>) -> Result<(), EscapeFault>
    ensures text { OnOk result (
        option_map (λ bytes. into.old.items ++ bytes) (unescaped text.now) ≡ Some into.new.items) }
    ensures bad { result ≡ Err EscapeFault.BadEscape → unescaped text.now ≡ None }
{
    let mut place = 0;
    while place < text.len() {
        let first = text[place];
        place += 1;
        let Some(symbol) = first_symbol(first, &text[place..]) else {
            return Err(EscapeFault::BadEscape);
        };
        into.push(symbol.byte)?;
        place += symbol.behind;
    }
    Ok(())
}
