// The special variables of a run.
ghost use Rattle.std.specs.Result.{is_err};
ghost use Rattle.std.specs.Prelude.{◌≡◌, ◌≢◌, ◌==◌, ◌≤ℤ◌, ◌<ℤ◌, ◌^◌, ℕ, pos, length, List, [], ◌∷◌, true, false, IfOk, IfErr, IfSome, OnOk, OnErr};
ghost use Rattle.awk_value.specs.Values.{str_of};
ghost use Rattle.awk_text.specs.Separators.{separator_of};
ghost use Rattle.awk_storage.specs.support.SpecialValues.{first_value, initial_specials, with_rows};

use awk_kinds::{FirstValue, OWN_VARIABLES, OwnVariable, Special};
use awk_text::{FieldSeparator, TextFault};
use awk_value::{Bytes, Value, text_of};
use std::alloc::Global;
use std::marker::Model;
use std::mem;

// The text of a value that FS is to have. One that is no field separator is refused.
fn separator_text(alloc: Global, value: &Value) -> Result<Bytes, TextFault>
    ensures text { IfOk result (λ text. text ≡ str_of value.now) }
    ensures accepted { OnOk result (is_err (separator_of (str_of value.now)) ≡ false) }
    ensures refused { IfErr result (λ e. e ≢ TextFault.Memory →
        (e ≡ TextFault.Pattern) × (is_err (separator_of (str_of value.now)) ≡ true)) }
{
    let Ok(text) = text_of(alloc, value) else {
        return Err(TextFault::Memory);
    };
    FieldSeparator::of(alloc, text.as_slice(), false)?;
    Ok(text)
}

// Whether the text of a value is empty.
fn is_empty(value: &Value) -> bool
    ensures { result ≡ (length (str_of value.now) == 0) }
{
    match value {
        Value::Nothing => true,
        Value::Number(_) => false,
        Value::Text(text) | Value::Input(text) => text.is_empty(),
    }
}

// The byte that the text of a value is, where it is one byte.
fn only_byte(value: &Value) -> Option<u8>
    ensures { IfSome result (λ byte. str_of value.now ≡ byte ∷ []) }
{
    match value {
        Value::Text(text) | Value::Input(text) => match text.as_slice() {
            [byte] => Some(*byte),
            _ => None,
        },
        Value::Nothing | Value::Number(_) => None,
    }
}

// Makes a value a number. One that is a number is no more than overwritten.
#[inline(always)]
fn set_number(place: &mut Value, number: i128)
    ensures { place.new ≡ Value.Number number }
{
    if let Value::Number(old) = place {
        *old = number;
    } else {
        *place = Value::Number(number);
    }
}

// Records are counted quickly while their counts are less.
const MANY: i128 = 0x4000_0000_0000_0000;

// A value as the run begins, where ARGV has so many elements. The only fault is `Memory`.
fn first_value(alloc: Global, first: FirstValue, arguments: usize) -> Result<Value, TextFault>
    ensures value { IfOk result (λ value. value ≡ first_value arguments first) }
    ensures memory { IfErr result (λ e. e ≡ TextFault.Memory) }
{
    match first {
        FirstValue::Nothing => Ok(Value::Nothing),
        FirstValue::ArgumentCount => Ok(Value::Number(arguments as i128)),
        FirstValue::Zero => Ok(Value::Number(0)),
        FirstValue::Text(text) => Ok(Value::Text(Bytes::from_slice(alloc, text)?)),
    }
}

// Gives the variables that have these rows their values as the run begins, each at its index. The only fault is `Memory`.
fn put_first_values(
    alloc: Global,
    rows: &[(&[u8], OwnVariable)],
    arguments: usize,
    values: &mut [Value; 13],
) -> Result<(), TextFault>
    ensures values { OnOk result (values.new ≡ with_rows arguments values.old rows.now) }
    ensures memory { IfErr result (λ e. e ≡ TextFault.Memory) }
{
    for (_, own) in rows {
        if let OwnVariable::Kept(special, first) = own {
            values[special.index()] = first_value(alloc, *first, arguments)?;
        }
    }
    Ok(())
}

// The values of the special variables as the run begins, each at its index.
fn initial_specials(alloc: Global, arguments: usize) -> Result<[Value; 13], TextFault>
    ensures specials { IfOk result (λ values. values ≡ initial_specials arguments) }
    ensures memory { IfErr result (λ e. e ≡ TextFault.Memory) }
{
    let mut values = [
        Value::Nothing,
        Value::Nothing,
        Value::Nothing,
        Value::Nothing,
        Value::Nothing,
        Value::Nothing,
        Value::Nothing,
        Value::Nothing,
        Value::Nothing,
        Value::Nothing,
        Value::Nothing,
        Value::Nothing,
        Value::Nothing,
    ];
    put_first_values(alloc, &OWN_VARIABLES, arguments, &mut values)?;
    Ok(values)
}

/// The special variables of a run with their values. No other name has one.
#[derive(Drop)]
pub struct Variables {
    specials: [Value; 13],
    // the text of FS, which is a field separator
    field_separator: Bytes,
    // the byte that RS is, where it is one byte
    record_separator_byte: Option<u8>,
    // whether RS is empty
    newlines_separate: bool,
    alloc: Global,
}

impl Model for Variables {
    ghost use Rattle.std.specs.Prelude.{◌≡◌, ◌==◌, [], ◌∷◌, length, IfSome};
    ghost use Rattle.awk_kinds.specs.definitions.Variables.{Pairs};
    ghost use Rattle.awk_storage.specs.support.SpecialValues.{special_pairs, record_separator, IsSeparator};

    ghost Value = { Pairs };

    ghost view = { λ v. special_pairs v.specials };

    ghost invariant = { λ v. IsSeparator v.specials v.field_separator
        × IfSome v.record_separator_byte (λ byte. record_separator v.specials ≡ byte ∷ [])
        × (v.newlines_separate ≡ (length (record_separator v.specials) == 0)) };
}

impl Variables {
    ghost use Rattle.awk_kinds.specs.definitions.Variables.{value_of, name_of, initial_value, with_value, is_refused, CountsRecords};

    /// The variables before the run, where ARGV has so many elements. The
    /// only fault is `Memory`.
    pub fn new(alloc: Global, arguments: usize) -> Result<Variables, TextFault>
        ensures start { IfOk result (λ v. (x : List ℕ) → value_of v x ≡ initial_value arguments x) }
        ensures memory { IfErr result (λ e. e ≡ TextFault.Memory) }
    {
        let specials = initial_specials(alloc, arguments)?;
        let field_separator = Bytes::from_slice(alloc, b" ")?;
        let record_separator = &specials[Special::Rs.index()];
        let record_separator_byte = only_byte(record_separator);
        let newlines_separate = is_empty(record_separator);
        Ok(Variables {
            specials,
            field_separator,
            record_separator_byte,
            newlines_separate,
            alloc,
        })
    }

    /// The value of a special variable.
    #[inline(always)]
    pub fn special(&self, special: Special) -> &Value
        ensures { result.now ≡ value_of self.now (name_of special) }
    {
        &self.specials[special.index()]
    }

    /// Gives a special variable a value. An `Err` changes nothing: it is
    /// `Pattern`, where the variable is FS and the value's text is no
    /// separator, or `Memory`. Only FS takes memory.
    pub fn set_special(&mut self, special: Special, value: Value) -> Result<(), TextFault>
        ensures set { OnOk result ((x : List ℕ) → value_of self.new x
            ≡ with_value (value_of self.old) (name_of special) value x) }
        ensures accepted { OnOk result (is_refused (name_of special) value ≡ false) }
        ensures err { OnErr result (self.new ≡ self.old) }
        ensures absent { OnErr result (special ≡ Special.Fs) }
        ensures refused { result ≡ Err TextFault.Pattern → is_refused (name_of special) value ≡ true }
    {
        match special {
            Special::Fs => {
                let text = separator_text(self.alloc, &value)?;
                drop(mem::replace(&mut self.field_separator, text));
            }
            Special::Rs => {
                self.record_separator_byte = only_byte(&value);
                self.newlines_separate = is_empty(&value);
            }
            _ => {}
        }
        drop(mem::replace(&mut self.specials[special.index()], value));
        Ok(())
    }

    /// The text of FS, which is a field separator.
    #[inline(always)]
    pub fn field_separator(&self) -> &[u8]
        ensures text { result.now ≡ str_of (value_of self.now (name_of Special.Fs)) }
        ensures accepted { is_err (separator_of result.now) ≡ false }
    {
        self.field_separator.as_slice()
    }

    /// Whether newlines separate fields too: where RS is empty. (POSIX awk,
    /// Variables and Special Variables: RS)
    #[inline(always)]
    pub fn newlines_separate(&self) -> bool
        ensures { result ≡ (length (str_of (value_of self.now (name_of Special.Rs))) == 0) }
    {
        self.newlines_separate
    }

    /// The byte that RS is, where it is one byte. (POSIX awk, Variables and Special Variables: RS)
    #[inline(always)]
    pub fn record_separator_byte(&self) -> Option<u8>
        ensures { IfSome result (λ byte. str_of (value_of self.now (name_of Special.Rs)) ≡ byte ∷ []) }
    {
        self.record_separator_byte
    }

    // NR and FNR, where both are counts that are not too large.
    #[inline(always)]
    fn counts(&self) -> Option<(i128, i128)>
        ensures nr { IfSome result (λ counts. value_of self.now (name_of Special.Nr) ≡ Value.Number counts.0) }
        ensures fnr { IfSome result (λ counts. value_of self.now (name_of Special.Fnr) ≡ Value.Number counts.1) }
        ensures nr_small { IfSome result (λ counts. (pos 0 ≤ℤ counts.0) × (counts.0 <ℤ pos (2 ^ 62))) }
        ensures fnr_small { IfSome result (λ counts. (pos 0 ≤ℤ counts.1) × (counts.1 <ℤ pos (2 ^ 62))) }
    {
        let Value::Number(all) = self.special(Special::Nr) else {
            return None;
        };
        let Value::Number(in_file) = self.special(Special::Fnr) else {
            return None;
        };
        let (all, in_file) = (*all, *in_file);
        if 0 <= all && all < MANY && 0 <= in_file && in_file < MANY {
            return Some((all, in_file));
        }
        None
    }

    // Makes numbers NR and FNR.
    #[inline(always)]
    fn set_counts(&mut self, all: i128, in_file: i128)
        ensures { (x : List ℕ) → value_of self.new x ≡ with_value
            (with_value (value_of self.old) (name_of Special.Nr) (Value.Number all)) (name_of Special.Fnr) (Value.Number in_file) x }
    {
        set_number(&mut self.specials[Special::Nr.index()], all);
        set_number(&mut self.specials[Special::Fnr.index()], in_file);
    }

    /// Counts so many records in NR and FNR, where both are counts that are not too large; else
    /// answers `false`, and nothing changes. Takes no memory. (POSIX awk, Variables and Special
    /// Variables: NR, FNR)
    #[inline(always)]
    pub fn count_records(&mut self, count: usize) -> bool
        ensures counted { result ≡ true → CountsRecords count (value_of self.old) (value_of self.new) }
        ensures kept { result ≡ false → self.new ≡ self.old }
    {
        let Some((all, in_file)) = self.counts() else {
            return false;
        };
        self.set_counts(all + count as i128, in_file + count as i128);
        true
    }

    /// Counts a record, as `count_records` counts many.
    #[inline(always)]
    pub fn count_record(&mut self) -> bool
        ensures counted { result ≡ true → CountsRecords 1 (value_of self.old) (value_of self.new) }
        ensures kept { result ≡ false → self.new ≡ self.old }
    {
        self.count_records(1)
    }
}
