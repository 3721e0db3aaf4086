// A value as a number, as a text and as a truth.

ghost use Rattle.std.specs.Prelude.{◌≡◌, ◌++◌, Ok, IfSome, IfOk, IfErr, OnOk, OnErr};
ghost use Rattle.std.specs.Fmt.{signed_decimal};
ghost use Rattle.awk_value.specs.definitions.Values.{num_of, str_of, numeric_of, truth_of};
ghost use Rattle.awk_value.specs.declared.fault.ValueFault.TheVariants.{Memory};
ghost use Rattle.awk_value.specs.declared.value.Value.TheVariants.{Text};

use crate::bytes::Bytes;
use crate::fault::ValueFault;
use crate::number::{number_of_text, numeric_of_text};
use crate::value::Value;
use itoa::Buffer;
use std::alloc::Global;

/// The number of a value: 0 of an uninitialized one, and of a text the number that it begins
/// with behind blanks, or 0 where it begins with none. The fault is `Range`. Takes no memory.
/// (POSIX awk, Expressions in awk.)
pub fn number_of(value: &Value) -> Result<i128, ValueFault>
    ensures { result ≡ num_of value.now }
{
    match value {
        Value::Nothing => Ok(0),
        Value::Number(n) => Ok(*n),
        Value::Text(text) => number_of_text(text.as_slice()),
        Value::Input(text) => number_of_text(text.as_slice()),
    }
}

/// The number as which a value is tested and compared: 0 of an uninitialized one, and of a text
/// from outside the number that it is and nothing else, with blanks around it. `None` of any other
/// text. Takes no memory. (POSIX awk, Expressions in awk: numeric strings.)
pub fn numeric_of(value: &Value) -> Option<i128>
    ensures numeric { result ≡ numeric_of value.now }
    // It is the value's number too.
    ensures number { IfSome result (λ n. num_of value.now ≡ Ok n) }
{
    match value {
        Value::Nothing => Some(0),
        Value::Number(n) => Some(*n),
        Value::Text(_) => None,
        Value::Input(text) => numeric_of_text(text.as_slice()),
    }
}

/// The bytes of a value's text. A number is written into the buffer, so no memory is taken.
pub fn text_in<'a>(value: &'a Value, buffer: &'a mut Buffer) -> &'a [u8]
    ensures { result.now ≡ str_of value.now }
{
    match value {
        Value::Nothing => b"",
        Value::Number(n) => buffer.format(*n).as_bytes(),
        Value::Text(text) => text.as_slice(),
        Value::Input(text) => text.as_slice(),
    }
}

/// The text of a value: the empty text of an uninitialized one, the decimal form of a number. Of
/// a text it shares the memory. The fault is `Memory`. (POSIX awk, Expressions in awk.)
pub fn text_of(alloc: Global, value: &Value) -> Result<Bytes, ValueFault>
    ensures text { IfOk result (λ text. text ≡ str_of value.now) }
    ensures fault { IfErr result (λ fault. fault ≡ Memory) }
{
    Ok(match value {
        Value::Nothing => Bytes::empty(),
        Value::Number(n) => Bytes::from_slice(alloc, Buffer::new().format(*n).as_bytes())?,
        Value::Text(text) => text.clone()?,
        Value::Input(text) => text.clone()?,
    })
}

/// Appends the text of a value, as `text_of` gives it, to the buffer. The fault is `Memory`, and
/// leaves the buffer's bytes as they were.
#[inline]
pub fn append_text(value: &Value, buffer: &mut Vec<u8>) -> Result<(), ValueFault>
    ensures text { OnOk result (buffer.new.items ≡ buffer.old.items ++ str_of value.now) }
    ensures unchanged { OnErr result (buffer.new.items ≡ buffer.old.items) }
    ensures fault { IfErr result (λ fault. fault ≡ Memory) }
{
    match value {
        Value::Nothing => Ok(()),
        Value::Number(n) => append_number(*n, buffer),
        Value::Text(text) => Ok(text.append_to(buffer)?),
        Value::Input(text) => Ok(text.append_to(buffer)?),
    }
}

/// Appends the decimal form of a number.
#[inline(never)]
fn append_number(n: i128, buffer: &mut Vec<u8>) -> Result<(), ValueFault>
    ensures text { OnOk result (buffer.new.items ≡ buffer.old.items ++ signed_decimal n) }
    ensures unchanged { OnErr result (buffer.new.items ≡ buffer.old.items) }
    ensures fault { IfErr result (λ fault. fault ≡ Memory) }
{
    let mut digits = Buffer::new();
    buffer.extend_from_slice(digits.format(n).as_bytes())?;
    Ok(())
}

/// Whether a value is true: a number and a numeric text from outside where it is not 0, any
/// other text where it is not empty. Takes no memory. (POSIX awk, Expressions in awk and
/// Patterns.)
pub fn is_true(value: &Value) -> bool
    ensures { result ≡ truth_of value.now }
{
    match value {
        Value::Nothing => false,
        Value::Number(n) => *n != 0,
        Value::Text(text) => !text.is_empty(),
        Value::Input(text) => match numeric_of_text(text.as_slice()) {
            Some(n) => n != 0,
            None => !text.is_empty(),
        },
    }
}
