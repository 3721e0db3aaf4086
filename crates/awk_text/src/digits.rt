// The digits of a number, and what stands before them.

ghost use Rattle.std.specs.Prelude.{◌≡◌, ◌≤◌, ◌<◌, length, drop};
ghost use Rattle.std.specs.Fmt.{digits, digit_glyph};
ghost use Rattle.awk_text.specs.definitions.Directives.{magnitude_of, unsigned_of, digits_in, is_left_out as left_out};
ghost use Rattle.awk_text.specs.definitions.Directives.{prefix_of, sign_of};

use crate::directive::{Flags, Notation};

/// Room for the digits of a number in any base.
pub(crate) const MOST_DIGITS: usize = 64;

fn glyph(upper: bool, digit: u8) -> u8
    requires { digit < 16 }
    ensures { result ≡ digit_glyph upper digit }
{
    if digit < 10 {
        b'0' + digit
    } else if upper {
        b'A' + (digit - 10)
    } else {
        b'a' + (digit - 10)
    }
}

// Writes the digits at the end of the buffer, and gives the place where they begin.
#[inline]
fn write_in_base(buffer: &mut [u8], base: u8, upper: bool, number: u128) -> usize
    requires size { length buffer.old ≡ 64 }
    requires low { 2 ≤ base }
    requires high { base ≤ 16 }
    ensures within { result ≤ 64 }
    ensures size { length buffer.new ≡ 64 }
    ensures digits { drop result buffer.new ≡ digits base upper number }
{
    let mut rest = number;
    let mut at: usize = 64;
    while at > 0 {
        at -= 1;
        buffer[at] = glyph(upper, (rest % base as u128) as u8);
        rest = rest / base as u128;
        if rest == 0 {
            return at;
        }
    }
    at
}

/// Writes the digits of a number at the end of the buffer, and gives the place where they begin.
pub(crate) fn write_digits(buffer: &mut [u8], notation: Notation, number: u128) -> usize
    requires size { length buffer.old ≡ 64 }
    ensures within { result ≤ 64 }
    ensures size { length buffer.new ≡ 64 }
    ensures digits { drop result buffer.new ≡ digits_in notation number }
{
    match notation {
        Notation::Decimal => write_in_base(buffer, 10, false, number),
        Notation::Unsigned => write_in_base(buffer, 10, false, number),
        Notation::Octal => write_in_base(buffer, 8, false, number),
        Notation::LowerHexadecimal => write_in_base(buffer, 16, false, number),
        Notation::UpperHexadecimal => write_in_base(buffer, 16, true, number),
    }
}

// The number as an unsigned one of 128 bits.
fn unsigned(number: i128) -> u128
    ensures { result ≡ unsigned_of number }
{
    if number >= 0 {
        number as u128
    } else {
        u128::MAX - (-1 - number) as u128
    }
}

/// The number whose digits are written.
pub(crate) fn magnitude(notation: Notation, number: i128) -> u128
    ensures { result ≡ magnitude_of notation number }
{
    match notation {
        Notation::Decimal => number.unsigned_abs(),
        Notation::Unsigned => unsigned(number),
        Notation::Octal => unsigned(number),
        Notation::LowerHexadecimal => unsigned(number),
        Notation::UpperHexadecimal => unsigned(number),
    }
}

/// Whether a number has no digits.
pub(crate) fn is_left_out(precision: Option<u16>, magnitude: u128) -> bool
    ensures { result ≡ left_out precision magnitude }
{
    match precision {
        Some(precision) => precision == 0 && magnitude == 0,
        None => false,
    }
}

fn sign(flags: Flags, number: i128) -> &'static [u8]
    ensures text { result.now ≡ sign_of flags number }
    ensures short { length result.now ≤ 1 }
{
    if number < 0 {
        return b"-";
    }
    if flags.plus {
        return b"+";
    }
    if flags.space { b" " } else { b"" }
}

/// The sign, or what tells the base.
pub(crate) fn prefix(notation: Notation, flags: Flags, number: i128) -> &'static [u8]
    ensures text { result.now ≡ prefix_of notation flags number }
    ensures short { length result.now ≤ 2 }
{
    match notation {
        Notation::Decimal => sign(flags, number),
        Notation::LowerHexadecimal => {
            if flags.sharp && number != 0 {
                b"0x"
            } else {
                b""
            }
        }
        Notation::UpperHexadecimal => {
            if flags.sharp && number != 0 {
                b"0X"
            } else {
                b""
            }
        }
        Notation::Unsigned => b"",
        Notation::Octal => b"",
    }
}
