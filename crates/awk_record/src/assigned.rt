// Fields that were assigned, as values, and the text that they make.
ghost use Rattle.std.specs.Prelude.{◌≡◌, true, ◌<◌, ◌-◌, ◌++◌, max, length, slice_set, OnOk, OnErr, IfOk, IfErr};
ghost use Rattle.awk_value.specs.Values.{str_of};
ghost use Rattle.awk_text.specs.Pieces.{stretches_at, stretch_at, AreSpansOf, IsSpanOf};
ghost use Rattle.awk_record.specs.definitions.Record.{assignable, inputs_of, joined, joined_behind, resized};

use crate::record_fault::RecordFault;
use awk_text::Span;
use awk_value::{Bytes, Value, append_text};
use std::alloc::Global;

const MOST_FIELDS: i128 = 16_777_216;

/// A number or a count of fields that is assigned: from 0 up to 16,777,216,
/// else `FieldNumber`.
pub(crate) fn assigned_number(number: i128) -> Result<usize, RecordFault>
    ensures { result ≡ assignable number }
{
    if number < 0 || number > MOST_FIELDS {
        return Err(RecordFault::FieldNumber);
    }
    Ok(number as usize)
}

/// Fills `values` with the stretches of the text, which share its memory. The
/// only error is `Memory`.
pub(crate) fn cut_all(
    text: &Bytes,
    spans: &[Span],
    values: &mut Vec<Value>,
) -> Result<(), RecordFault>
    requires { AreSpansOf text.now spans.now }
    ensures values { OnOk result (values.new.items ≡ inputs_of (stretches_at text.now spans.now)) }
    ensures memory { IfErr result (λ e. e ≡ RecordFault.Memory) }
{
    values.clear();
    for span in spans {
        values.push(Value::Input(Bytes::empty()))?;
        let last = values.len() - 1;
        if !cut_in(text, *span, &mut values[last]) {
            return Err(RecordFault::Memory);
        }
    }
    Ok(())
}

/// Makes a text from outside the stretch of a text, where it stands: whether it could.
#[inline(always)]
fn cut_in(text: &Bytes, span: Span, place: &mut Value) -> bool
    requires { IsSpanOf text.now span }
    ensures { result ≡ true → place.new ≡ Value.Input (stretch_at text.now span) }
{
    match place {
        Value::Input(place) => text.cut_to(span.start, span.end, place),
        _ => false,
    }
}

/// Cuts the values off behind so many, or adds `Nothing` up to there. The only
/// error is `Memory`, and it changes nothing.
pub fn resize(values: &mut Vec<Value>, count: usize) -> Result<(), RecordFault>
    ensures ok { OnOk result (values.new.items ≡ resized count values.old.items) }
    ensures err { OnErr result (values.new.items ≡ values.old.items) }
    ensures memory { IfErr result (λ e. e ≡ RecordFault.Memory) }
{
    Ok(values.resize(count, Value::Nothing)?)
}

/// Puts the value at a number from 1 on, and `Nothing` where values are missing
/// before it. The only error is `Memory`, and it changes nothing.
pub fn set_value(values: &mut Vec<Value>, number: usize, value: Value) -> Result<(), RecordFault>
    requires { 0 < number }
    ensures ok { OnOk result (values.new.items
        ≡ slice_set (resized (max number (length values.old.items)) values.old.items) (number - 1) value) }
    ensures err { OnErr result (values.new.items ≡ values.old.items) }
    ensures memory { IfErr result (λ e. e ≡ RecordFault.Memory) }
{
    if number > values.len() {
        resize(values, number)?;
    }
    values[number - 1] = value;
    Ok(())
}

/// Appends the text of a value. The only error is `Memory`.
#[inline(always)]
fn append_value(value: &Value, text: &mut Vec<u8>) -> Result<(), RecordFault>
    ensures text { OnOk result (text.new.items ≡ text.old.items ++ str_of value.now) }
    ensures memory { IfErr result (λ e. e ≡ RecordFault.Memory) }
{
    if let Value::Text(short) | Value::Input(short) = value
        && short.put_within(text, usize::MAX)
    {
        return Ok(());
    }
    append_text(value, text).map_err(|_| RecordFault::Memory)
}

/// Appends a separator, which most often is one byte. The only error is `Memory`.
#[inline(always)]
fn append_separator(separator: &[u8], text: &mut Vec<u8>) -> Result<(), RecordFault>
    ensures text { OnOk result (text.new.items ≡ text.old.items ++ separator.now) }
    ensures memory { IfErr result (λ e. e ≡ RecordFault.Memory) }
{
    match separator {
        [byte] => text.push(*byte)?,
        _ => text.extend_from_slice(separator)?,
    }
    Ok(())
}

/// Appends the texts of the values, each behind the separator. The only error
/// is `Memory`.
fn append_behind(values: &[Value], separator: &[u8], text: &mut Vec<u8>) -> Result<(), RecordFault>
    ensures text { OnOk result (text.new.items ≡ text.old.items ++ joined_behind separator.now values.now) }
    ensures memory { IfErr result (λ e. e ≡ RecordFault.Memory) }
{
    for value in values {
        append_separator(separator, text)?;
        append_value(value, text)?;
    }
    Ok(())
}

// A short text is copied by a fixed size, where there is so much room.
const FIXED: usize = 16;

// Room for the texts of values with a separator of this length between them; most of those that are written are short.
fn room_for(values: &[Value], separator_len: usize) -> usize {
    let mut room: usize = FIXED;
    for value in values {
        let length = match value {
            Value::Nothing => 0,
            Value::Number(_) => 20,
            Value::Text(text) | Value::Input(text) => text.len(),
        };
        room = room.saturating_add(length).saturating_add(separator_len);
    }
    room
}

/// The texts of the values, with the separator between them. The only error is
/// `Memory`.
pub fn join(alloc: Global, values: &[Value], separator: &[u8]) -> Result<Bytes, RecordFault>
    ensures text { IfOk result (λ text. text ≡ joined separator.now values.now) }
    ensures memory { IfErr result (λ e. e ≡ RecordFault.Memory) }
{
    let mut text = Vec::with_capacity(alloc, room_for(values, separator.len()))?;
    if let Some((first, rest)) = values.split_first() {
        append_value(first, &mut text)?;
        append_behind(rest, separator, &mut text)?;
    }
    Ok(Bytes::from_vec(alloc, text)?)
}
