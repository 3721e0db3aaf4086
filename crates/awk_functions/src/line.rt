// The texts of several values as one.

ghost use Rattle.std.specs.Prelude.{◌≡◌, ◌++◌, map, length, take, false, true, OnOk, IfOk, IfErr, if◌then◌else◌};
ghost use Rattle.std.specs.List.{concat};
ghost use Rattle.std.specs.Fmt.{signed_decimal};
ghost use Rattle.awk_value.specs.Values.{str_of};
ghost use Rattle.awk_semantics.specs.Operators.{line_of, join, join_rest};
ghost use Rattle.awk_semantics.specs.Results.{IsWantOfMemory};

use awk_semantics::Halt;
use awk_value::{Bytes, Value, ValueFault, append_text, text_in, text_of};
use itoa::Buffer;
use std::alloc::Global;
use std::mem;

/// Room for the digits of most numbers.
const NUMBER_ROOM: usize = 20;

/// Texts of so many bytes take no memory, so they are made where they stand.
const SHORT: usize = 22;

// Appends the text of each value behind the separator.
fn append_rest(line: &mut Vec<u8>, values: &[Value], separator: &Value) -> Result<(), Halt>
    ensures text { OnOk result (line.new.items ≡ line.old.items
        ++ join_rest (str_of separator.now) (map str_of values.now)) }
    ensures fault { IfErr result IsWantOfMemory }
{
    for value in values {
        append_text(separator, line)?;
        append_text(value, line)?;
    }
    Ok(())
}

/// Appends the texts of the values, each but the first behind that of the separator. The only fault is want of memory.
/// (POSIX awk, Expressions in awk: arrays; Output Statements)
pub fn join(line: &mut Vec<u8>, values: &[Value], separator: &Value) -> Result<(), Halt>
    ensures text { OnOk result (line.new.items ≡ line.old.items
        ++ join (str_of separator.now) (map str_of values.now)) }
    ensures fault { IfErr result IsWantOfMemory }
{
    match values {
        [] => Ok(()),
        [first, others @ ..] => {
            append_text(first, line)?;
            append_rest(line, others, separator)
        }
    }
}

/// The text of several subscripts, with that of SUBSEP between them: the key of an element. The only fault is want of memory.
/// (POSIX awk, Expressions in awk: arrays)
pub fn joined_key(alloc: Global, values: &[Value], subsep: &Value) -> Result<Bytes, Halt>
    ensures text { IfOk result (λ key. key ≡ join (str_of subsep.now) (map str_of values.now)) }
    ensures fault { IfErr result IsWantOfMemory }
{
    let mut key = Vec::with_capacity(alloc, room_for(values))?;
    join(&mut key, values, subsep)?;
    Ok(Bytes::from_vec(alloc, key)?)
}

/// Makes the line that a print of the values prints, in place of what was there: their texts, with the text of a separator
/// between them and that of another behind. The only fault is want of memory. (POSIX awk, Output Statements)
pub fn make_line(
    line: &mut Vec<u8>,
    values: &[Value],
    between: &Value,
    behind: &Value,
) -> Result<(), Halt>
    ensures text { OnOk result (line.new.items ≡ line_of (str_of between.now) (str_of behind.now) values.now) }
    ensures fault { IfErr result IsWantOfMemory }
{
    line.clear();
    join(line, values, between)?;
    append_text(behind, line)?;
    Ok(())
}

// Appends bytes, which often are but one, to a line that may grow up to this length in its memory: whether they have room there.
#[inline(always)]
fn put_bytes(line: &mut Vec<u8>, end: usize, bytes: &[u8]) -> bool
    ensures { line.new.items ≡ (if result then line.old.items ++ bytes.now else line.old.items) }
{
    let room = end.min(line.capacity()).saturating_sub(line.len());
    if bytes.len() > room {
        return false;
    }
    match bytes {
        [byte] => line.push_reserved(*byte),
        bytes => return line.extend_from_slice(bytes).is_ok(),
    }
    true
}

// As `put_bytes`, of the decimal form of a number.
#[inline(never)]
fn put_number(line: &mut Vec<u8>, end: usize, number: i128) -> bool
    ensures { line.new.items ≡ (if result then line.old.items ++ signed_decimal number else line.old.items) }
{
    let mut digits = Buffer::new();
    put_bytes(line, end, digits.format(number).as_bytes())
}

// As `put_bytes`, of the text of a value.
#[inline(always)]
fn put_text(line: &mut Vec<u8>, end: usize, value: &Value) -> bool
    ensures { line.new.items ≡ (if result then line.old.items ++ str_of value.now else line.old.items) }
{
    match value {
        Value::Nothing => true,
        Value::Number(number) => put_number(line, end, *number),
        Value::Text(text) | Value::Input(text) => text.put_within(line, end),
    }
}

// Appends the text of each value behind the separator, as far as they have room: whether all have.
#[inline(always)]
fn put_rest(line: &mut Vec<u8>, end: usize, values: &[Value], between: &[u8]) -> bool
    ensures text { result ≡ true → line.new.items ≡ line.old.items ++ join_rest between.now (map str_of values.now) }
    ensures front { take (length line.old.items) line.new.items ≡ line.old.items }
{
    for value in values {
        if !put_bytes(line, end, between) {
            return false;
        }
        if !put_text(line, end, value) {
            return false;
        }
    }
    true
}

// Appends the texts of the values, each but the first behind the separator, as far as they have room: whether all have.
#[inline(always)]
fn put_all(line: &mut Vec<u8>, end: usize, values: &[Value], between: &[u8]) -> bool
    ensures text { result ≡ true → line.new.items ≡ line.old.items ++ join between.now (map str_of values.now) }
    ensures front { take (length line.old.items) line.new.items ≡ line.old.items }
{
    match values {
        [] => true,
        [first, others @ ..] => {
            if !put_text(line, end, first) {
                return false;
            }
            put_rest(line, end, others, between)
        }
    }
}

/// Appends the line that a print of the values prints, by these separators, where it takes no more than so many bytes, and no
/// memory. `false` where it does, and then nothing changes. (POSIX awk, Output Statements)
#[inline]
pub fn append_line(
    line: &mut Vec<u8>,
    room: usize,
    values: &[Value],
    between: &[u8],
    behind: &[u8],
) -> bool
    ensures { line.new.items ≡ (if result then line.old.items ++ line_of between.now behind.now values.now else line.old.items) }
{
    let start = line.len();
    let end = start.saturating_add(room);
    if put_all(line, end, values, between) {
        if put_bytes(line, end, behind) {
            return true;
        }
    }
    line.truncate(start);
    false
}

/// The texts of two values, one behind the other, as a text that was made, which is written once. The only fault is want of
/// memory. (POSIX awk, Expressions in awk: string concatenation)
pub fn concatenate(alloc: Global, left: &Value, right: &Value) -> Result<Value, Halt>
    ensures text { IfOk result (λ value. value ≡ Value.Text (str_of left.now ++ str_of right.now)) }
    ensures fault { IfErr result IsWantOfMemory }
{
    let mut left_digits = Buffer::new();
    let mut right_digits = Buffer::new();
    let front = text_in(left, &mut left_digits);
    let behind = text_in(right, &mut right_digits);
    let room = front.len().saturating_add(behind.len());
    if room <= SHORT {
        let mut text = Bytes::from_slice(alloc, front)?;
        text.extend_from_slice(alloc, behind)?;
        return Ok(Value::Text(text));
    }
    let mut text = Vec::with_capacity(alloc, room)?;
    text.extend_from_slice(front)?;
    text.extend_from_slice(behind)?;
    Ok(Value::Text(Bytes::from_vec(alloc, text)?))
}

/// The text of a value with that of another behind it, as a text that was made. It grows in the memory of the first, where
/// nothing else shares that. The only fault is want of memory. (POSIX awk, Expressions in awk: string concatenation)
pub fn append(alloc: Global, left: Value, right: &Value) -> Result<Value, Halt>
    ensures text { IfOk result (λ value. value ≡ Value.Text (str_of left ++ str_of right.now)) }
    ensures fault { IfErr result IsWantOfMemory }
{
    let mut digits = Buffer::new();
    match left {
        Value::Text(mut text) | Value::Input(mut text) => {
            text.extend_from_slice(alloc, text_in(right, &mut digits))?;
            Ok(Value::Text(text))
        }
        left => concatenate(alloc, &left, right),
    }
}

// The text that a value is, or that is made of it.
fn into_text(alloc: Global, value: Value) -> Result<Bytes, ValueFault>
    ensures text { IfOk result (λ text. text ≡ str_of value) }
    ensures fault { IfErr result (λ fault. fault ≡ ValueFault.Memory) }
{
    match value {
        Value::Text(text) | Value::Input(text) => Ok(text),
        value => text_of(alloc, &value),
    }
}

// Appends the text that is written of a value.
#[inline(never)]
fn append_written(alloc: Global, text: &mut Bytes, value: &Value) -> Result<(), ValueFault>
    ensures text { OnOk result (text.new ≡ text.old ++ str_of value.now) }
    ensures fault { IfErr result (λ fault. fault ≡ ValueFault.Memory) }
{
    let mut digits = Buffer::new();
    text.extend_from_slice(alloc, text_in(value, &mut digits))?;
    Ok(())
}

// Appends the text of a value.
#[inline(always)]
fn append_value(alloc: Global, text: &mut Bytes, value: &Value) -> Result<(), ValueFault>
    ensures text { OnOk result (text.new ≡ text.old ++ str_of value.now) }
    ensures fault { IfErr result (λ fault. fault ≡ ValueFault.Memory) }
{
    match value {
        Value::Text(more) | Value::Input(more) => text.extend_from_slice(alloc, more.as_slice())?,
        value => append_written(alloc, text, value)?,
    }
    Ok(())
}

// Appends the text of each value.
fn append_values(alloc: Global, text: &mut Bytes, values: &[Value]) -> Result<(), ValueFault>
    ensures text { OnOk result (text.new ≡ text.old ++ concat (map str_of values.now)) }
    ensures fault { IfErr result (λ fault. fault ≡ ValueFault.Memory) }
{
    for value in values {
        append_value(alloc, text, value)?;
    }
    Ok(())
}

/// Appends the texts of the values, one behind the other, to that of a value, which so becomes a text that was made. It grows in
/// its own memory, where nothing else shares that. The fault is `Memory`, and may leave some of them appended. (POSIX awk,
/// Expressions in awk: string concatenation)
pub fn append_each(alloc: Global, left: &mut Value, values: &[Value]) -> Result<(), ValueFault>
    ensures text { OnOk result (left.new ≡ Value.Text (str_of left.old ++ concat (map str_of values.now))) }
    ensures fault { IfErr result (λ fault. fault ≡ ValueFault.Memory) }
{
    if let Value::Text(text) = left {
        return append_values(alloc, text, values);
    }
    let mut text = into_text(alloc, mem::replace(left, Value::Nothing))?;
    append_values(alloc, &mut text, values)?;
    *left = Value::Text(text);
    Ok(())
}

// About how many bytes the texts of the values take.
fn room_for(values: &[Value]) -> usize {
    let mut room: usize = 0;
    for value in values {
        room = room.saturating_add(match value {
            Value::Nothing => 0,
            Value::Number(_) => NUMBER_ROOM,
            Value::Text(text) => text.len(),
            Value::Input(text) => text.len(),
        });
    }
    room
}

/// The texts of the values, one behind the other, as a text that was made, which is written once. The only fault is want of
/// memory. (POSIX awk, Expressions in awk: string concatenation)
pub fn concatenate_all(alloc: Global, values: &[Value]) -> Result<Value, Halt>
    ensures text { IfOk result (λ value. value ≡ Value.Text (concat (map str_of values.now))) }
    ensures fault { IfErr result IsWantOfMemory }
{
    let mut text = Vec::with_capacity(alloc, room_for(values))?;
    for value in values {
        append_text(value, &mut text)?;
    }
    Ok(Value::Text(Bytes::from_vec(alloc, text)?))
}
