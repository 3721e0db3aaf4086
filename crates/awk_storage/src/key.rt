// Keys of arrays, by their subscripts. A whole number of 64 bits is looked for without writing it.

ghost use Rattle.std.specs.Prelude.{◌≡◌, [], IfSome, IfOk, IfErr, OnOk, OnErr, is_some, unwrap_or};
ghost use Rattle.std.specs.Borrow.{sem};
ghost use Rattle.std.specs.Fmt.{signed_decimal};
ghost use Rattle.std.specs.Option.{option_copied, option_copied_mut};
ghost use Rattle.awk_value.specs.declared.value.Value.TheVariants.{Nothing};
ghost use Rattle.awk_value.specs.declared.fault.ValueFault.TheVariants.{Memory};
ghost use Rattle.awk_value.specs.Arrays.{value_at, with_pair, with_key, without};
ghost use Rattle.awk_value.specs.Lending.{LendsValue};
ghost use Rattle.awk_text.specs.Pieces.{stretches_at, AreSpansOf};
ghost use Rattle.awk_semantics.specs.definitions.Primitives.{elements_from};
ghost use Rattle.awk_storage.specs.support.Subscripts.{key_of};

use crate::subscript::Subscript;
use awk_text::Span;
use awk_value::{Bytes, Table, Value, ValueFault};
use itoa::Buffer;
use std::alloc::Global;

/// The 64-bit number that a key is, if it is one.
#[inline(always)]
fn whole_number(key: Subscript) -> Option<i64>
    ensures { IfSome result (λ number. key_of key.entry ≡ signed_decimal number) }
{
    match key {
        Subscript::Number(number) => i64::try_from(number).ok(),
        Subscript::Text(_) => None,
    }
}

/// The value at a key, if it is there.
#[inline(always)]
pub(crate) fn get<'a>(table: &'a Table, key: Subscript) -> Option<&'a Value>
    ensures { option_copied result ≡ value_at table.now (key_of key.entry) }
{
    match whole_number(key) {
        Some(number) => table.get_number(number),
        None => get_text(table, key),
    }
}

/// The value at the text of a key, if it is there.
#[inline(never)]
fn get_text<'a>(table: &'a Table, key: Subscript) -> Option<&'a Value>
    ensures { option_copied result ≡ value_at table.now (key_of key.entry) }
{
    table.get(key.text(&mut Buffer::new()))
}

/// The value at a key, if it is there, to be changed.
#[inline]
pub(crate) fn value_mut<'a>(table: &'a mut Table, key: Subscript) -> Option<&'a mut Value>
    ensures* writes_back { sem 𝓛 (LendsValue table.entry (key_of key.entry) result) }
    ensures value { option_copied_mut result ≡ value_at table.old (key_of key.entry) }
{
    match whole_number(key) {
        Some(number) => table.get_number_mut(number),
        None => table.get_mut(key.text(&mut Buffer::new())),
    }
}

/// A copy of the value at a key, which is made where it isn't there.
pub(crate) fn get_or_make(
    table: &mut Table,
    alloc: Global,
    key: Subscript,
) -> Result<Value, ValueFault>
    ensures value { IfOk result (λ v. v ≡ unwrap_or (value_at table.old (key_of key.entry)) Nothing) }
    ensures made { OnOk result (table.new ≡ with_key table.old (key_of key.entry)) }
    ensures fault { IfErr result (λ fault. fault ≡ Memory) }
{
    match whole_number(key) {
        Some(number) => table.get_or_make_number(number),
        None => table.get_or_make(alloc, key.text(&mut Buffer::new())),
    }
}

/// Gives a key a value. An `Err` changes nothing.
#[inline]
pub(crate) fn put(
    table: &mut Table,
    alloc: Global,
    key: Subscript,
    value: Value,
) -> Result<(), ValueFault>
    ensures put { OnOk result (table.new ≡ with_pair table.old (key_of key.entry) value) }
    ensures unchanged { OnErr result (table.new ≡ table.old) }
    ensures fault { IfErr result (λ fault. fault ≡ Memory) }
{
    match whole_number(key) {
        Some(number) => table.put_number(number, value),
        None => table.put(alloc, key.text(&mut Buffer::new()), value),
    }
}

/// Whether there is a value at a key.
#[inline(always)]
pub(crate) fn has(table: &Table, key: Subscript) -> bool
    ensures { result ≡ is_some (value_at table.now (key_of key.entry)) }
{
    match whole_number(key) {
        Some(number) => table.has_number(number),
        None => get_text(table, key).is_some(),
    }
}

/// Removes a key with its value.
pub(crate) fn remove(table: &mut Table, key: Subscript)
    ensures { table.new ≡ without table.old (key_of key.entry) }
{
    match whole_number(key) {
        Some(number) => table.remove_number(number),
        None => table.remove(key.text(&mut Buffer::new())),
    }
}

/// Gives texts from outside to an array that is empty, at the keys from a number on.
pub(crate) fn fill(table: &mut Table, first: u32, texts: Vec<Bytes>) -> Result<(), ValueFault>
    requires { table.old ≡ [] }
    ensures filled { OnOk result (table.new ≡ elements_from first texts.items) }
    ensures fault { IfErr result (λ fault. fault ≡ Memory) }
{
    let mut key = first;
    for text in texts {
        let Some(next) = key.checked_add(1) else {
            return Err(ValueFault::Memory);
        };
        table.add_number(key as i64, Value::Input(text))?;
        key = next;
    }
    Ok(())
}

/// Gives stretches of a text from outside to an array that is empty, at the keys from 1 on. They are cut where they are put, and long
/// ones share the text's memory.
pub(crate) fn fill_stretches(
    table: &mut Table,
    text: &Bytes,
    spans: &[Span],
) -> Result<(), ValueFault>
    requires within { AreSpansOf text.now spans.now }
    requires empty { table.old ≡ [] }
    ensures filled { OnOk result (table.new ≡ elements_from 1 (stretches_at text.now spans.now)) }
    ensures fault { IfErr result (λ fault. fault ≡ Memory) }
{
    let mut key: u32 = 1;
    for span in spans {
        let Some(next) = key.checked_add(1) else {
            return Err(ValueFault::Memory);
        };
        let stretch = text.cut(span.start, span.end)?;
        table.add_number(key as i64, Value::Input(stretch))?;
        key = next;
    }
    Ok(())
}
