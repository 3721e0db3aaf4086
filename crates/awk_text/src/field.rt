// The fields that directives write: a text brought to its width.

ghost use Rattle.std.specs.Prelude.{◌≡◌, ◌≤◌, ◌++◌, length, replicate, Bool, OnOk};
ghost use Rattle.awk_text.specs.support.Begun.{IsBegun, padding_of};
ghost use Rattle.awk_text.specs.definitions.Directives.{padded, at_least, with_octal_zero, digits_in, begins_with_zero};
ghost use Rattle.awk_text.specs.definitions.Directives.{is_filled, integer_field, shown_digits, integer_text, text_field};
ghost use Rattle.awk_text.specs.definitions.Directives.{cut_to};

use crate::digits::{MOST_DIGITS, is_left_out, magnitude, prefix, write_digits};
use crate::directive::{Directive, Notation};
use itoa::Buffer;
use std::alloc::AllocError;

/// How many bytes fill a field: spaces in front, zeros behind the prefix, and spaces behind.
#[derive(Clone, Copy)]
pub(crate) struct Padding {
    pub before: usize,
    pub zeros: usize,
    pub behind: usize,
}

fn place_padding(minus: bool, zeros: bool, missing: usize) -> Padding
    ensures { result ≡ padding_of minus zeros missing }
{
    if minus {
        Padding {
            before: 0,
            zeros: 0,
            behind: missing,
        }
    } else if zeros {
        Padding {
            before: 0,
            zeros: missing,
            behind: 0,
        }
    } else {
        Padding {
            before: missing,
            zeros: 0,
            behind: 0,
        }
    }
}

// Adds a byte so many times.
#[tactic(auto, using(crate::proofs::FieldLemmas::begun_by, crate::proofs::FieldLemmas::begun_same))]
fn add_run(out: &mut Vec<u8>, byte: u8, count: usize) -> Result<(), AllocError>
    ensures text { OnOk result (out.new.items ≡ out.old.items ++ replicate count byte) }
    ensures begun { IsBegun out.old.items out.new.items }
{
    for i in 0..count {
        out.push(byte)?;
    }
    Ok(())
}

#[tactic(auto, using(crate::proofs::FieldLemmas::begun_by, crate::proofs::FieldLemmas::begun_same))]
fn add_bytes(out: &mut Vec<u8>, bytes: &[u8]) -> Result<(), AllocError>
    ensures text { OnOk result (out.new.items ≡ out.old.items ++ bytes.now) }
    ensures begun { IsBegun out.old.items out.new.items }
{
    out.extend_from_slice(bytes)?;
    Ok(())
}

// Adds the prefix and the body, whose first `lead` bytes are zeros, brought to the width.
#[tactic(auto, using(crate::proofs::FieldLemmas::begun_trans))]
fn add_padded(
    out: &mut Vec<u8>,
    directive: &Directive,
    zeros: bool,
    prefix: &[u8],
    lead: usize,
    body: &[u8],
) -> Result<(), AllocError>
    requires prefix { length prefix.now ≤ 2 }
    requires lead { lead ≤ 65535 }
    ensures text { OnOk result (out.new.items ≡ out.old.items
        ++ padded directive.now.flags.minus zeros directive.now.width prefix.now (replicate lead 48 ++ body.now)) }
    ensures begun { IsBegun out.old.items out.new.items }
{
    let width = directive.width as usize;
    let missing = width.saturating_sub(prefix.len() + lead + body.len());
    let padding = place_padding(directive.flags.minus, zeros, missing);
    add_run(out, b' ', padding.before)?;
    add_bytes(out, prefix)?;
    add_run(out, b'0', padding.zeros + lead)?;
    add_bytes(out, body)?;
    add_run(out, b' ', padding.behind)?;
    Ok(())
}

fn starts_with_zero(digits: &[u8]) -> bool
    ensures { result ≡ begins_with_zero digits.now }
{
    match digits.split_first() {
        Some((first, _)) => *first == b'0',
        None => false,
    }
}

// How many zeros stand before the digits.
fn leading_zeros(directive: &Directive, notation: Notation, digits: &[u8]) -> usize
    ensures short { result ≤ 65535 }
    ensures zeros { replicate result 48 ++ digits.now
        ≡ with_octal_zero notation directive.now.flags.sharp (at_least directive.now.precision digits.now) }
{
    let lead = match directive.precision {
        Some(precision) => (precision as usize).saturating_sub(digits.len()),
        None => 0,
    };
    match notation {
        Notation::Octal => {
            if directive.flags.sharp && lead == 0 && !starts_with_zero(digits) {
                1
            } else {
                lead
            }
        }
        _ => lead,
    }
}

fn fills_with_zeros(directive: &Directive) -> bool
    ensures { result ≡ is_filled directive.now }
{
    directive.flags.zero && directive.precision.is_none()
}

// Adds the prefix and the digits with the zeros that the precision asks for.
fn add_digits(
    out: &mut Vec<u8>,
    directive: &Directive,
    notation: Notation,
    prefix: &[u8],
    digits: &[u8],
) -> Result<(), AllocError>
    requires prefix { length prefix.now ≤ 2 }
    ensures text { OnOk result (out.new.items ≡ out.old.items ++ integer_field directive.now prefix.now
        (with_octal_zero notation directive.now.flags.sharp (at_least directive.now.precision digits.now))) }
    ensures begun { IsBegun out.old.items out.new.items }
{
    let lead = leading_zeros(directive, notation, digits);
    let zeros = fills_with_zeros(directive);
    add_padded(out, directive, zeros, prefix, lead, digits)?;
    Ok(())
}

// Adds the digits of an octal or hexadecimal number.
fn add_in_base(
    out: &mut Vec<u8>,
    directive: &Directive,
    notation: Notation,
    prefix: &[u8],
    magnitude: u128,
) -> Result<(), AllocError>
    requires prefix { length prefix.now ≤ 2 }
    ensures text { OnOk result (out.new.items ≡ out.old.items ++ integer_field directive.now prefix.now
        (with_octal_zero notation directive.now.flags.sharp
        (at_least directive.now.precision (digits_in notation magnitude)))) }
    ensures begun { IsBegun out.old.items out.new.items }
{
    let mut buffer = [0u8; MOST_DIGITS];
    let start = write_digits(&mut buffer, notation, magnitude);
    let digits = &buffer[start..];
    add_digits(out, directive, notation, prefix, digits)?;
    Ok(())
}

// Adds the digits of a number, behind a prefix.
fn add_magnitude(
    out: &mut Vec<u8>,
    directive: &Directive,
    notation: Notation,
    prefix: &[u8],
    magnitude: u128,
) -> Result<(), AllocError>
    requires prefix { length prefix.now ≤ 2 }
    ensures text { OnOk result (out.new.items ≡ out.old.items
        ++ integer_field directive.now prefix.now (shown_digits directive.now notation magnitude)) }
    ensures begun { IsBegun out.old.items out.new.items }
{
    if is_left_out(directive.precision, magnitude) {
        return add_digits(out, directive, notation, prefix, b"");
    }
    match notation {
        Notation::Decimal => {
            let mut buffer = Buffer::new();
            let digits = buffer.format(magnitude).as_bytes();
            add_digits(out, directive, notation, prefix, digits)
        }
        Notation::Unsigned => {
            let mut buffer = Buffer::new();
            let digits = buffer.format(magnitude).as_bytes();
            add_digits(out, directive, notation, prefix, digits)
        }
        _ => add_in_base(out, directive, notation, prefix, magnitude),
    }
}

/// Adds what `d`, `i`, `u`, `o`, `x` or `X` gives of a number.
pub(crate) fn add_integer(
    out: &mut Vec<u8>,
    directive: &Directive,
    notation: Notation,
    number: i128,
) -> Result<(), AllocError>
    ensures text { OnOk result (out.new.items ≡ out.old.items ++ integer_text directive.now notation number) }
    ensures begun { IsBegun out.old.items out.new.items }
{
    let prefix = prefix(notation, directive.flags, number);
    let magnitude = magnitude(notation, number);
    add_magnitude(out, directive, notation, prefix, magnitude)?;
    Ok(())
}

/// Adds a text, brought to the width.
pub(crate) fn add_text(
    out: &mut Vec<u8>,
    directive: &Directive,
    text: &[u8],
) -> Result<(), AllocError>
    ensures text { OnOk result (out.new.items ≡ out.old.items ++ text_field directive.now text.now) }
    ensures begun { IsBegun out.old.items out.new.items }
{
    add_padded(out, directive, false, b"", 0, text)
}

/// The text, cut to a precision.
pub(crate) fn cut(precision: Option<u16>, text: &[u8]) -> &[u8]
    ensures { result.now ≡ cut_to precision text.now }
{
    match precision {
        Some(precision) => if (precision as usize) < text.len() {
            &text[..precision as usize]
        } else {
            text
        },
        None => text,
    }
}
