// The built-in functions of values alone.

ghost use Rattle.std.specs.Prelude.{◌≡◌, pos, length, slice_get, unwrap_or, IfOk, IfErr};
ghost use Rattle.std.specs.Option.{option_copied, option_map};
ghost use Rattle.awk_value.specs.Values.{str_of};
ghost use Rattle.awk_value.specs.declared.value.Value.TheVariants.{Nothing, Number, Text};
ghost use Rattle.awk_text.specs.Functions.{substr_of, lower_of, upper_of};
ghost use Rattle.awk_semantics.specs.BuiltIns.{applied_all, number_in_value, substr_by};
ghost use Rattle.awk_semantics.specs.Results.{IsWantOfMemory, Yields};
ghost use Rattle.awk_semantics.specs.Texts.{position_of};

use crate::formats::Formats;
use awk_lex::token::BuiltIn;
use awk_semantics::{Halt, law_of_positions};
use awk_text::{index, lower, substr, upper};
use awk_value::{Bytes, Value, number_of, text_in, text_of, to_number};
use itoa::Buffer;
use std::alloc::{AllocError, Global};
use std::borrow::CowSlice;

// The argument at a place, or the one that stands for a missing one.
#[inline]
fn argument<'a>(values: &'a [Value], place: usize, nothing: &'a Value) -> &'a Value
    requires { nothing.now ≡ Nothing }
    ensures { result.now ≡ unwrap_or (slice_get values.now place) Nothing }
{
    values.get(place).unwrap_or(nothing)
}

// The number of bytes of a value's text.
fn length_of(value: &Value) -> Value
    ensures { result ≡ Number (pos (length (str_of value.now))) }
{
    let mut digits = Buffer::new();
    Value::Number(text_in(value, &mut digits).len() as i128)
}

// The first position of a part in a text, or 0.
fn position(text: &Value, part: &Value) -> Value
    ensures { result ≡ Number (pos (position_of (str_of part.now) (str_of text.now))) }
{
    law_of_positions();
    let mut text_digits = Buffer::new();
    let mut part_digits = Buffer::new();
    let position = index(
        text_in(text, &mut text_digits),
        text_in(part, &mut part_digits),
    );
    Value::Number(position as i128)
}

// The part of a text at so many positions from a start on, which shares its memory.
fn shared_part(text: &Bytes, start: i128, count: Option<i128>) -> Result<Value, AllocError>
    ensures { IfOk result (λ part. part ≡ Text (substr_of text.now start count)) }
{
    let span = substr(text.as_slice(), start, count);
    Ok(Value::Text(text.cut(span.start, span.end)?))
}

// As `shared_part`, of bytes, which are copied.
fn copied_part(
    alloc: Global,
    text: &[u8],
    start: i128,
    count: Option<i128>,
) -> Result<Value, AllocError>
    ensures { IfOk result (λ part. part ≡ Text (substr_of text.now start count)) }
{
    let span = substr(text, start, count);
    Ok(Value::Text(Bytes::from_slice(alloc, &text[span.start..span.end])?))
}

// The part of a value's text at so many positions from a start on.
fn part_of(
    alloc: Global,
    value: &Value,
    start: i128,
    count: Option<i128>,
) -> Result<Value, AllocError>
    ensures { IfOk result (λ part. part ≡ Text (substr_of (str_of value.now) start count)) }
{
    match value {
        Value::Text(text) => shared_part(text, start, count),
        Value::Input(text) => shared_part(text, start, count),
        value => {
            let mut digits = Buffer::new();
            copied_part(alloc, text_in(value, &mut digits), start, count)
        }
    }
}

// The part of a value's text at the positions that two values tell, of which the second may be missing.
fn substring(
    alloc: Global,
    text: &Value,
    start: &Value,
    count: Option<&Value>,
) -> Result<Value, Halt>
    ensures { Yields result (substr_by (str_of text.now) (number_in_value start.now)
        (option_map number_in_value (option_copied count.entry))) }
{
    let start = number_of(start)?;
    match count {
        Some(count) => Ok(part_of(alloc, text, start, Some(number_of(count)?))?),
        None => Ok(part_of(alloc, text, start, None)?),
    }
}

// A value's text with its capital letters made small. A text without any is shared.
fn in_lower_case(alloc: Global, value: &Value) -> Result<Value, Halt>
    ensures text { IfOk result (λ small. small ≡ Text (lower_of (str_of value.now))) }
    ensures fault { IfErr result IsWantOfMemory }
{
    let mut digits = Buffer::new();
    match lower(alloc, text_in(value, &mut digits))? {
        CowSlice::Borrowed(_) => Ok(Value::Text(text_of(alloc, value)?)),
        CowSlice::Owned(small) => Ok(Value::Text(Bytes::from_vec(alloc, small)?)),
    }
}

// A value's text with its small letters made capital. A text without any is shared.
fn in_upper_case(alloc: Global, value: &Value) -> Result<Value, Halt>
    ensures text { IfOk result (λ capital. capital ≡ Text (upper_of (str_of value.now))) }
    ensures fault { IfErr result IsWantOfMemory }
{
    let mut digits = Buffer::new();
    match upper(alloc, text_in(value, &mut digits))? {
        CowSlice::Borrowed(_) => Ok(Value::Text(text_of(alloc, value)?)),
        CowSlice::Owned(capital) => Ok(Value::Text(Bytes::from_vec(alloc, capital)?)),
    }
}

/// What a built-in function of values alone makes of them: `length` of an argument, `substr`, `index`, `sprintf`,
/// `tolower`, `toupper` and `int`. A missing argument is uninitialized. Any other function, whose arguments are more than
/// values, gives an uninitialized value here. The faults are F1, F3 and F7. (POSIX awk, Arithmetic Functions; String
/// Functions)
pub fn apply_function(
    function: BuiltIn,
    values: &[Value],
    formats: &mut Formats,
    alloc: Global,
) -> Result<Value, Halt>
    ensures { Yields result (applied_all function values.now) }
{
    let nothing = Value::Nothing;
    let first = argument(values, 0, &nothing);
    let second = argument(values, 1, &nothing);
    match function {
        BuiltIn::Length => Ok(length_of(first)),
        BuiltIn::Substr => substring(alloc, first, second, values.get(2)),
        BuiltIn::Index => Ok(position(first, second)),
        BuiltIn::Sprintf => formats.format_text(values),
        BuiltIn::ToLower => in_lower_case(alloc, first),
        BuiltIn::ToUpper => in_upper_case(alloc, first),
        BuiltIn::Int => Ok(to_number(first)?),
        BuiltIn::Split
        | BuiltIn::Sub
        | BuiltIn::Gsub
        | BuiltIn::Match
        | BuiltIn::System
        | BuiltIn::Close
        | BuiltIn::Fflush => Ok(Value::Nothing),
    }
}
