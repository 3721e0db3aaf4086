// Reading a format from its front: each function gives what it has read and what follows it.

ghost use Rattle.std.specs.Prelude.{◌≡◌, ◌<◌, ◌≤◌, None, Some, length, MatchOption, IfOk, IfErr, IfSome};
ghost use Rattle.awk_text.specs.definitions.Reading.{is_flag as flag, with_flag as flag_added, no_flags, flags_from};
ghost use Rattle.awk_text.specs.definitions.Reading.{after_flags, count_of, precision_of, conversion_of, directive_of};
ghost use Rattle.awk_text.specs.definitions.Reading.{before_percent, from_percent, behind_percent, first_part};
ghost use Rattle.awk_text.specs.declared.format_fault.FormatFault.TheVariants.{Memory};

use crate::directive::{Conversion, Directive, Flags, Notation};
use crate::format_fault::FormatFault;
use crate::part::Part;
use awk_value::Bytes;
use std::alloc::Global;

/// The greatest width and precision.
const MOST: u32 = 65_535;

fn is_flag(byte: u8) -> bool
    ensures { result ≡ flag byte }
{
    byte == b'-' || byte == b'+' || byte == b' ' || byte == b'#' || byte == b'0'
}

// The flags and the one that the byte is.
fn with_flag(flags: Flags, byte: u8) -> Flags
    ensures { result ≡ flag_added flags byte }
{
    Flags {
        minus: flags.minus || byte == b'-',
        plus: flags.plus || byte == b'+',
        space: flags.space || byte == b' ',
        sharp: flags.sharp || byte == b'#',
        zero: flags.zero || byte == b'0',
    }
}

fn read_flags(text: &[u8]) -> (Flags, &[u8])
    ensures flags { result.0 ≡ flags_from no_flags text.now }
    ensures rest { result.1.now ≡ after_flags text.now }
    ensures short { length result.1.now ≤ length text.now }
{
    let mut flags = Flags {
        minus: false,
        plus: false,
        space: false,
        sharp: false,
        zero: false,
    };
    let mut rest = text;
    while let Some((first, others)) = rest.split_first() {
        if !is_flag(*first) {
            break;
        }
        flags = with_flag(flags, *first);
        rest = others;
    }
    (flags, rest)
}

// The digits in front as a width or a precision; nothing where they are above the greatest.
#[tactic(auto, using(crate::proofs::ReadingLemmas::count_refused, crate::proofs::ReadingLemmas::count_is))]
fn read_count(text: &[u8]) -> Option<(u16, &[u8])>
    ensures short { IfSome result (λ r. length r.1.now ≤ length text.now) }
    ensures count { MatchOption result (count_of text.now ≡ None) (λ r. count_of text.now ≡ Some (r.0, r.1.now)) }
{
    let mut value: u32 = 0;
    let mut rest = text;
    while let Some((first, others)) = rest.split_first() {
        if !first.is_ascii_digit() {
            break;
        }
        value = value * 10 + (*first - b'0') as u32;
        if value > MOST {
            return None;
        }
        rest = others;
    }
    Some((value as u16, rest))
}

fn read_precision(text: &[u8]) -> Option<(Option<u16>, &[u8])>
    ensures short { IfSome result (λ r. length r.1.now ≤ length text.now) }
    ensures precision { MatchOption result
        (precision_of text.now ≡ None)
        (λ r. precision_of text.now ≡ Some (r.0, r.1.now)) }
{
    match text.split_first() {
        Some((b'.', others)) => {
            let (count, rest) = read_count(others)?;
            Some((Some(count), rest))
        }
        _ => Some((None, text)),
    }
}

fn conversion(byte: u8) -> Option<Conversion>
    ensures { result ≡ conversion_of byte }
{
    match byte {
        b'd' | b'i' => Some(Conversion::Integer(Notation::Decimal)),
        b'o' => Some(Conversion::Integer(Notation::Octal)),
        b'x' => Some(Conversion::Integer(Notation::LowerHexadecimal)),
        b'X' => Some(Conversion::Integer(Notation::UpperHexadecimal)),
        b'u' => Some(Conversion::Integer(Notation::Unsigned)),
        b'c' => Some(Conversion::Character),
        b's' => Some(Conversion::Text),
        _ => None,
    }
}

// The directive behind a percent sign; nothing where none stands there.
fn read_directive(text: &[u8]) -> Option<(Directive, &[u8])>
    ensures short { IfSome result (λ r. length r.1.now ≤ length text.now) }
    ensures directive { MatchOption result
        (directive_of text.now ≡ None)
        (λ r. directive_of text.now ≡ Some (r.0, r.1.now)) }
{
    let (flags, rest) = read_flags(text);
    let (width, rest) = read_count(rest)?;
    let (precision, rest) = read_precision(rest)?;
    let (first, rest) = rest.split_first()?;
    let conversion = conversion(*first)?;
    let directive = Directive {
        flags,
        width,
        precision,
        conversion,
    };
    Some((directive, rest))
}

// What follows the plain bytes in front.
fn skip_plain(text: &[u8]) -> &[u8]
    ensures rest { result.now ≡ from_percent text.now }
    ensures short { length result.now ≤ length text.now }
{
    let mut rest = text;
    while let Some((first, others)) = rest.split_first() {
        if *first == b'%' {
            break;
        }
        rest = others;
    }
    rest
}

// The plain bytes in front.
#[tactic(auto, using(crate::proofs::ReadingLemmas::front_is))]
fn plain_front<'a>(text: &'a [u8], rest: &[u8]) -> &'a [u8]
    requires rest { rest.now ≡ from_percent text.now }
    requires short { length rest.now ≤ length text.now }
    ensures { result.now ≡ before_percent text.now }
{
    &text[..text.len() - rest.len()]
}

// What stands behind a percent sign.
fn read_behind_percent(alloc: Global, text: &[u8]) -> Result<(Part, &[u8]), FormatFault>
    ensures part { IfOk result (λ r. behind_percent text.now ≡ (r.0, r.1.now)) }
    ensures short { IfOk result (λ r. length r.1.now ≤ length text.now) }
    ensures fault { IfErr result (λ fault. fault ≡ Memory) }
{
    if let Some((b'%', rest)) = text.split_first() {
        return Ok((Part::Plain(Bytes::from_slice(alloc, b"%")?), rest));
    }
    match read_directive(text) {
        Some((directive, rest)) => Ok((Part::Directed(directive), rest)),
        None => Ok((Part::Refused, &[])),
    }
}

/// The part in front of a text that isn't empty, and what follows it. The fault is `Memory`.
pub(crate) fn read_part(alloc: Global, text: &[u8]) -> Result<(Part, &[u8]), FormatFault>
    requires { 0 < length text.now }
    ensures part { IfOk result (λ r. first_part text.now ≡ (r.0, r.1.now)) }
    ensures short { IfOk result (λ r. length r.1.now < length text.now) }
    ensures fault { IfErr result (λ fault. fault ≡ Memory) }
{
    let Some((first, others)) = text.split_first() else {
        return Ok((Part::Refused, b""));
    };
    if *first == b'%' {
        return read_behind_percent(alloc, others);
    }
    let rest = skip_plain(others);
    let plain = Bytes::from_slice(alloc, plain_front(text, rest))?;
    Ok((Part::Plain(plain), rest))
}
