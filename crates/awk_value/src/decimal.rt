// Which texts are decimal forms of 64-bit numbers.

ghost use Rattle.std.specs.Prelude.{◌≡◌, ◌≤◌, true, false, length, IfSome, IfNone};
ghost use Rattle.std.specs.Fmt.{signed_decimal};
ghost use Rattle.std.specs.Str.{all_ascii_digits};
ghost use Rattle.awk_value.specs.support.Texts.{IsTextKey, digits_after};

use itoa::Buffer;

/// So many digits always spell a 64-bit number.
const FEW: usize = 18;

/// The 64-bit number whose decimal form the text is, if there is one: of `12`, `-3` and `0`, and
/// not of `007`, `+1` and `-0`.
#[inline(always)]
pub(crate) fn decimal_number(text: &[u8]) -> Option<i64>
    ensures some { IfSome result (λ number. text.now ≡ signed_decimal number) }
    ensures none { IfNone result (IsTextKey text.now) }
{
    if text.is_empty() {
        return None;
    }
    let first = text[0];
    if first == b'-' {
        return decimal_of_any(text);
    }
    if !first.is_ascii_digit() {
        return None;
    }
    if text.len() > FEW {
        return decimal_of_any(text);
    }
    if first == b'0' && text.len() > 1 {
        return None;
    }
    match few_digits(text) {
        Some(number) => Some(number as i64),
        None => None,
    }
}

/// The number that digits spell, of which there are at most 18, if all are digits.
#[inline(always)]
fn few_digits(digits: &[u8]) -> Option<u64>
    requires { length digits.now ≤ FEW }
    ensures all { IfSome result (λ number. all_ascii_digits digits.now ≡ true) }
    ensures number { IfSome result (λ number. number ≡ digits_after 0 digits.now) }
    ensures none { IfNone result (all_ascii_digits digits.now ≡ false) }
{
    let mut number: u64 = 0;
    let mut at = 0;
    while at < digits.len() {
        let byte = digits[at];
        if !byte.is_ascii_digit() {
            return None;
        }
        number = number * 10 + (byte - b'0') as u64;
        at += 1;
    }
    Some(number)
}

/// As `decimal_number`, of any text.
#[inline(never)]
fn decimal_of_any(text: &[u8]) -> Option<i64>
    ensures some { IfSome result (λ number. text.now ≡ signed_decimal number) }
    ensures none { IfNone result (IsTextKey text.now) }
{
    if text.len() > 20 {
        return None;
    }
    let Ok(letters) = str::from_utf8(text) else {
        return None;
    };
    let Ok(number) = letters.parse::<i64>() else {
        return None;
    };
    let mut buffer = Buffer::new();
    if buffer.format(number).as_bytes() == text {
        Some(number)
    } else {
        None
    }
}
