// The number that a text spells.

ghost use Rattle.std.specs.Prelude.{◌≡◌, ℕ, ◌+◌, ◌*◌, ◌^◌, ◌<◌, ◌≤◌, length, MatchOption, true, pos, [], Ok, Some, None, IfSome, OnSome};
ghost use Rattle.awk_value.specs.definitions.Arithmetic.{range_checked};
ghost use Rattle.awk_value.specs.definitions.Numbers.{after_blanks, has_minus, after_sign, has_digit, digits_value};
ghost use Rattle.awk_value.specs.definitions.Numbers.{after_digits, signed_number, text_number, numeric_text};
ghost use Rattle.awk_value.specs.definitions.Numbers.{is_blank_or_newline as blank_or_newline};

use crate::fault::ValueFault;

/// From here on a `u64` may have no room for one more digit.
const SHORT_LIMIT: u64 = 1_000_000_000_000_000_000;

/// The largest number to which a digit may be added before it passes 2^127.
const LAST_TENTH: u128 = 17_014_118_346_046_923_173_168_730_371_588_410_572;

/// The size of the least number, 2^127.
const LEAST_SIZE: u128 = 0x8000_0000_0000_0000_0000_0000_0000_0000;

#[inline]
fn is_blank_or_newline(byte: u8) -> bool
    ensures { result ≡ blank_or_newline byte }
{
    byte == b' ' || byte == b'\t' || byte == b'\n'
}

/// What follows the blanks in front.
#[inline]
fn skip_blanks(text: &[u8]) -> &[u8]
    ensures { result.now ≡ after_blanks text.now }
{
    let mut rest = text;
    while let Some((first, others)) = rest.split_first() {
        if !is_blank_or_newline(*first) {
            break;
        }
        rest = others;
    }
    rest
}

/// Whether a minus stands in front.
#[inline]
fn is_negative(text: &[u8]) -> bool
    ensures { result ≡ has_minus text.now }
{
    match text.split_first() {
        Some((first, _)) => *first == b'-',
        None => false,
    }
}

/// What follows the sign in front, if there is one.
#[inline]
fn skip_sign(text: &[u8]) -> &[u8]
    ensures { result.now ≡ after_sign text.now }
{
    match text.split_first() {
        Some((first, others)) if *first == b'+' || *first == b'-' => others,
        _ => text,
    }
}

/// Reads the digits in front as long as a `u64` surely has room: their value, and what is left.
#[inline]
fn read_short(text: &[u8]) -> (u64, &[u8])
    ensures value { digits_value result.0 result.1.now ≡ digits_value 0 text.now }
    ensures rest { after_digits result.1.now ≡ after_digits text.now }
    ensures room { result.0 < 10 ^ 19 }
{
    let mut value: u64 = 0;
    let mut rest = text;
    while let Some((first, others)) = rest.split_first() {
        if value >= SHORT_LIMIT || !first.is_ascii_digit() {
            break;
        }
        value = value * 10 + (*first - b'0') as u64;
        rest = others;
    }
    (value, rest)
}

/// Reads on after digits of the value `start`: the value of all of them, and what is left; or
/// nothing where the value passes 2^127.
#[tactic(auto, using(crate::proofs::DigitsPastRange::digits_pass))]
fn read_long(start: u64, text: &[u8]) -> Option<(u128, &[u8])>
    ensures { MatchOption result
        (2 ^ 127 < digits_value start text.now)
        (λ r. (r.0 ≡ digits_value start text.now) × (r.1.now ≡ after_digits text.now)) }
{
    let mut value = start as u128;
    let mut rest = text;
    while let Some((first, others)) = rest.split_first() {
        if !first.is_ascii_digit() {
            break;
        }
        if value > LAST_TENTH {
            return None;
        }
        value = value * 10 + (*first - b'0') as u128;
        rest = others;
    }
    Some((value, rest))
}

/// The number of this sign and size.
#[inline]
fn with_sign(negative: bool, size: u128) -> Result<i128, ValueFault>
    ensures { result ≡ range_checked (signed_number negative size) }
{
    if size < LEAST_SIZE {
        let number = size as i128;
        return Ok(if negative { -number } else { number });
    }
    if negative && size == LEAST_SIZE {
        return Ok(i128::MIN);
    }
    Err(ValueFault::Range)
}

/// So many digits have room in a `u64`.
const FEW: usize = 18;

/// The value of a text that is digits and nothing else, at least one and few; nothing of another.
#[inline(always)]
fn few_digits(text: &[u8]) -> Option<u64>
    ensures value { IfSome result (λ n. n ≡ digits_value 0 text.now) }
    ensures digits { OnSome result (has_digit text.now ≡ true) }
    ensures rest { OnSome result (after_digits text.now ≡ []) }
    ensures few { IfSome result (λ n. n < 10 ^ 18) }
{
    if text.is_empty() || text.len() > FEW {
        return None;
    }
    let mut value: u64 = 0;
    for byte in text {
        if !byte.is_ascii_digit() {
            return None;
        }
        value = value * 10 + (*byte - b'0') as u64;
    }
    Some(value)
}

/// The number of a text that is a minus or nothing, and then digits and nothing else, at least one
/// and few; nothing of another.
#[inline(always)]
fn few_signed_digits(text: &[u8]) -> Option<i128>
    ensures number { IfSome result (λ n. text_number text.now ≡ Ok n) }
    ensures numeric { IfSome result (λ n. numeric_text text.now ≡ Some n) }
{
    match text.split_first() {
        Some((first, others)) if *first == b'-' => Some(-(few_digits(others)? as i128)),
        _ => Some(few_digits(text)? as i128),
    }
}

/// Whether a byte behind the digits stands in front: then the text begins with no number.
#[inline(always)]
fn is_wordy(text: &[u8]) -> bool
    ensures number { result ≡ true → text_number text.now ≡ Ok (pos 0) }
    ensures numeric { result ≡ true → numeric_text text.now ≡ None }
{
    match text.split_first() {
        Some((first, _)) => *first > b'9',
        None => false,
    }
}

/// The number that the text begins with, or 0; the fault is `Range`.
#[inline(always)]
pub(crate) fn number_of_text(text: &[u8]) -> Result<i128, ValueFault>
    ensures { result ≡ text_number text.now }
{
    if is_wordy(text) {
        return Ok(0);
    }
    if let Some(n) = few_signed_digits(text) {
        return Ok(n);
    }
    number_of_any(text)
}

/// The same, of any text.
#[tactic(auto, using(crate::proofs::RangeIsInt128::far_out_of_range))]
#[inline(never)]
fn number_of_any(text: &[u8]) -> Result<i128, ValueFault>
    ensures { result ≡ text_number text.now }
{
    let text = skip_blanks(text);
    let negative = is_negative(text);
    let (start, rest) = read_short(skip_sign(text));
    match read_long(start, rest) {
        Some((size, _)) => with_sign(negative, size),
        None => Err(ValueFault::Range),
    }
}

/// The number that the text is, where it is a number and nothing else, and in range.
#[inline(always)]
pub(crate) fn numeric_of_text(text: &[u8]) -> Option<i128>
    ensures { result ≡ numeric_text text.now }
{
    if is_wordy(text) {
        return None;
    }
    if let Some(n) = few_signed_digits(text) {
        return Some(n);
    }
    numeric_of_any(text)
}

/// The same, of any text.
#[tactic(auto, using(crate::proofs::RangeIsInt128::far_out_of_range))]
#[inline(never)]
fn numeric_of_any(text: &[u8]) -> Option<i128>
    ensures { result ≡ numeric_text text.now }
{
    let text = skip_blanks(text);
    let negative = is_negative(text);
    let digits = skip_sign(text);
    if !digits.first()?.is_ascii_digit() {
        return None;
    }
    let (start, rest) = read_short(digits);
    let (size, rest) = read_long(start, rest)?;
    if !skip_blanks(rest).is_empty() {
        return None;
    }
    with_sign(negative, size).ok()
}
