// The record at hand, with its fields.
ghost use Rattle.std.specs.Prelude.{◌≡◌, ◌≢◌, ℕ, true, false, suc, pos, ◌<ℤ◌, ◌≤ℤ◌, min, [], length, slice_get};
ghost use Rattle.std.specs.Prelude.{unwrap_or, IfSome, OnOk, OnErr, IfOk, IfErr, Ok, Err, Some, None, List};
ghost use Rattle.std.specs.Result.{is_err};
ghost use Rattle.awk_text.specs.Separators.{separator_of};
ghost use Rattle.awk_text.specs.Pieces.{stretch_at, IsSpanOf};
ghost use Rattle.awk_text.specs.Fields.{pieces_by};
ghost use Rattle.awk_record.specs.support.Found.{AreFieldsOf};
ghost use Rattle.awk_record.specs.definitions.Record.{inputs_of, joined};
ghost use Rattle.awk_record.specs.support.Viewed.{pair_of};

use crate::assigned::{assigned_number, join, resize, set_value};
use crate::fields::Fields;
use crate::record_fault::RecordFault;
use awk_text::{FieldSeparator, Span, pieces_from_law};
use awk_value::{Bytes, Value};
use std::alloc::Global;
use std::marker::Model;

// The index of the field of this number, or the greatest where that is past it.
#[inline(always)]
fn index_of(number: i128) -> usize
    requires { pos 0 <ℤ number }
    ensures { (i : ℕ) → number ≡ pos (suc i) → result ≡ min i usize.MAX }
{
    match u64::try_from(number) {
        Ok(number) => (number - 1) as usize,
        Err(_) => usize::MAX,
    }
}

// The field at an index of the text, whose memory it shares.
#[inline(always)]
fn cut_at(text: &Bytes, fields: &mut Fields, index: usize) -> Result<Value, RecordFault>
    requires { AreFieldsOf text.now fields.old }
    ensures fields { AreFieldsOf text.now fields.new }
    ensures separator { fields.new.separator ≡ fields.old.separator }
    ensures value { IfOk result (λ value. value
        ≡ unwrap_or (slice_get (inputs_of (pieces_by fields.old.separator text.now)) index) Value.Nothing) }
    ensures none { index ≡ usize.MAX → IfOk result (λ _.
        slice_get (inputs_of (pieces_by fields.old.separator text.now)) index ≡ None) }
    ensures memory { IfErr result (λ e. e ≡ RecordFault.Memory) }
{
    match fields.at(text, index)? {
        Some(span) => Ok(Value::Input(text.cut(span.start, span.end)?)),
        None => Ok(Value::Nothing),
    }
}

// The value at an index, if there is one.
#[inline(always)]
fn kept_at(values: &[Value], index: usize) -> Option<&Value>
    ensures value { IfSome result (λ value. slice_get values.now index ≡ Some value.now) }
    ensures none { index ≡ usize.MAX → slice_get values.now index ≡ None }
{
    values.get(index)
}

// A copy of the value at an index.
fn value_at(values: &[Value], index: usize) -> Result<Value, RecordFault>
    ensures value { IfOk result (λ value. value ≡ unwrap_or (slice_get values.now index) Value.Nothing) }
    ensures none { index ≡ usize.MAX → slice_get values.now index ≡ None }
    ensures memory { IfErr result (λ e. e ≡ RecordFault.Memory) }
{
    match values.get(index) {
        Some(value) => Ok(value.clone()?),
        None => Ok(Value::Nothing),
    }
}

// The separator before any record was read: blanks.
fn blanks(alloc: Global) -> Result<FieldSeparator, RecordFault>
    ensures memory { IfErr result (λ e. e ≡ RecordFault.Memory) }
{
    Ok(FieldSeparator::of(alloc, b" ", false)?)
}

// Where the text and the fields of a record stand.
#[derive(Clone, Copy)]
enum Form {
    // the fields are stretches of the text
    Split,
    // the fields are values, from which the text is still to be made
    Assigned,
    // the fields are values, and the text was made of them
    Joined,
}

// Has `values` hold the fields of a record that stands in this form.
#[inline(always)]
fn take_values(
    form: Form,
    text: &Bytes,
    fields: &mut Fields,
    values: &mut Vec<Value>,
) -> Result<(), RecordFault>
    requires { AreFieldsOf text.now fields.old }
    ensures fields { AreFieldsOf text.now fields.new }
    ensures separator { fields.new.separator ≡ fields.old.separator }
    ensures ok { OnOk result ((between : List ℕ) →
        values.new.items ≡ (pair_of form text.now fields.old.separator between values.old.items).fields) }
    ensures err { OnErr result ((between : List ℕ) →
        pair_of form text.now fields.old.separator between values.new.items
        ≡ pair_of form text.now fields.old.separator between values.old.items) }
    ensures memory { IfErr result (λ e. e ≡ RecordFault.Memory) }
{
    match form {
        Form::Split => fields.all(text, values),
        _ => Ok(()),
    }
}

/// The record at hand: a text, and its fields, which are found as far as they
/// are asked. A field shares the text's memory. Where fields or their count were
/// assigned, the text is made of them when it is asked.
#[derive(Drop)]
pub struct Record {
    alloc: Global,
    form: Form,
    text: Bytes,
    fields: Fields,
    // the fields and what stands between them, where they were assigned
    values: Vec<Value>,
    output_separator: Bytes,
    // whether the fields were lent since in place of the text
    lent: bool,
    joins: u64,
}

impl Model for Record {
    ghost use Rattle.awk_record.specs.support.Found.{AreFieldsOf};
    ghost use Rattle.awk_record.specs.support.Viewed.{pair_of};
    ghost use Rattle.awk_record.specs.definitions.Record.{RecordPair};

    ghost Value = { RecordPair };

    ghost view = { λ r. pair_of r.form r.text r.fields.separator r.output_separator r.values.items };

    ghost invariant = { λ r. AreFieldsOf r.text r.fields };
}

impl Record {
    ghost use Rattle.awk_record.specs.definitions.Record.{assignable, field_of, split_by, with_count, with_field};

    /// The record before any was read: an empty text with no fields. The only
    /// error is `Memory`.
    pub fn new(alloc: Global) -> Result<Record, RecordFault>
        ensures text { IfOk result (λ r. r.text ≡ []) }
        ensures fields { IfOk result (λ r. r.fields ≡ []) }
        ensures memory { IfErr result (λ e. e ≡ RecordFault.Memory) }
    {
        pieces_from_law();
        let text = Bytes::from_slice(alloc, b"")?;
        Ok(Record {
            alloc,
            form: Form::Split,
            output_separator: text.clone()?,
            text,
            fields: Fields::new(alloc, blanks(alloc)?),
            values: Vec::new(alloc),
            lent: false,
            joins: 0,
        })
    }

    /// Makes this text the record, whose fields are what the separator leaves: `separator` is a value of FS, and with
    /// `newline_too`, where RS is empty, a newline separates as well. No field is looked for yet. A separator that isn't the
    /// one of the text before is read, and refused by `Pattern` where it spells no ERE. The other error is `Memory`. An error
    /// changes nothing. (POSIX awk, Regular Expressions; Variables and Special Variables: FS, RS)
    #[inline(always)]
    pub fn set_text(
        &mut self,
        text: Bytes,
        separator: &[u8],
        newline_too: bool,
    ) -> Result<(), RecordFault>
        ensures ok { OnOk result (self.new ≡ split_by (record { text = separator.now; newline_too = newline_too }) text) }
        ensures refused { IfErr result (λ e. e ≢ RecordFault.Memory →
            (e ≡ RecordFault.Pattern) × (is_err (separator_of separator.now) ≡ true)) }
        ensures err { OnErr result (self.new ≡ self.old) }
    {
        pieces_from_law();
        self.fields
            .take_separator(self.alloc, separator, newline_too)?;
        self.fields.restart();
        self.form = Form::Split;
        self.text = text;
        self.values.clear();
        Ok(())
    }

    /// The text of the record. The only error is `Memory`.
    pub fn text(&mut self) -> Result<Bytes, RecordFault>
        ensures text { IfOk result (λ text. text ≡ self.old.text) }
        ensures same { self.new ≡ self.old }
        ensures memory { IfErr result (λ e. e ≡ RecordFault.Memory) }
    {
        if let Form::Assigned = self.form {
            pieces_from_law();
            self.text = join(
                self.alloc,
                self.values.as_slice(),
                self.output_separator.as_slice(),
            )?;
            self.fields.restart();
            self.form = Form::Joined;
            self.joins = self.joins.saturating_add(1);
        }
        Ok(self.text.clone()?)
    }

    /// The text of the record, where it needn't be made of the fields.
    #[inline(always)]
    pub fn text_at_hand(&self) -> Option<&Bytes>
        ensures { IfSome result (λ text. text.now ≡ self.now.text) }
    {
        match self.form {
            Form::Assigned => None,
            Form::Split | Form::Joined => Some(&self.text),
        }
    }

    /// Whether the fields may be written in place of a text that is still to be made of them: once. Who asks again has the text
    /// made, so that what is written often is made once.
    #[inline(always)]
    pub fn lend_once(&mut self) -> bool
        ensures same { self.new ≡ self.old }
    {
        let first = !self.lent;
        self.lent = true;
        first
    }

    /// The fields and what stands between them in the text, where that is still to be made of them.
    #[inline(always)]
    pub fn unjoined(&self) -> Option<(&[Value], &[u8])>
        ensures { IfSome result (λ parts. joined parts.1.now parts.0.now ≡ self.now.text) }
    {
        match self.form {
            Form::Assigned => Some((self.values.as_slice(), self.output_separator.as_slice())),
            Form::Split | Form::Joined => None,
        }
    }

    /// The field of this number from 1 on, where it is kept as a value.
    #[inline(always)]
    pub fn kept_field(&self, number: i128) -> Option<&Value>
        ensures { IfSome result (λ value. field_of self.now number ≡ Ok value.now) }
    {
        if let Form::Split = self.form {
            return None;
        }
        if number <= 0 {
            return None;
        }
        kept_at(self.values.as_slice(), index_of(number))
    }

    /// How many fields the record has, where that is known without a search.
    #[inline(always)]
    pub fn known_count(&self) -> Option<usize>
        ensures { IfSome result (λ n. n ≡ length self.now.fields) }
    {
        match self.form {
            Form::Split => self.fields.known_count(self.text.as_slice()),
            Form::Assigned | Form::Joined => Some(self.values.len()),
        }
    }

    /// How many fields the record has. The only error is `Memory`.
    #[inline(always)]
    pub fn count(&mut self) -> Result<usize, RecordFault>
        ensures count { IfOk result (λ n. n ≡ length self.old.fields) }
        ensures same { self.new ≡ self.old }
        ensures memory { IfErr result (λ e. e ≡ RecordFault.Memory) }
    {
        match self.form {
            Form::Split => self.fields.count(self.text.as_slice()),
            _ => Ok(self.values.len()),
        }
    }

    /// Where in the text the field of this number from 1 on stands, if it is a stretch of it. It takes no text.
    #[inline(always)]
    pub fn stretch(&mut self, number: i128) -> Option<Span>
        ensures field { IfSome result (λ span. field_of self.old number ≡ Ok (Value.Input (stretch_at self.old.text span))) }
        ensures within { IfSome result (IsSpanOf self.old.text) }
        ensures same { self.new ≡ self.old }
    {
        let Form::Split = self.form else {
            return None;
        };
        if number <= 0 {
            return None;
        }
        let Ok(Some(span)) = self.fields.at(&self.text, index_of(number)) else {
            return None;
        };
        Some(span)
    }

    /// The same, where field 0 is the whole text, unless that is still to be made of the fields.
    #[inline(always)]
    fn field_span(&mut self, number: i128) -> Option<Span>
        ensures field { IfSome result (λ span. field_of self.old number ≡ Ok (Value.Input (stretch_at self.old.text span))) }
        ensures within { IfSome result (IsSpanOf self.old.text) }
        ensures same { self.new ≡ self.old }
    {
        if number == 0 {
            let text = self.text_at_hand()?;
            return Some(Span {
                start: 0,
                end: text.len(),
            });
        }
        self.stretch(number)
    }

    /// The text of the field of this number, if it is a stretch of the record's text; field 0 is the whole. Nothing where memory is
    /// refused.
    #[inline(always)]
    pub fn cut_field(&mut self, number: i128) -> Option<Bytes>
        ensures field { IfSome result (λ text. field_of self.old number ≡ Ok (Value.Input text)) }
        ensures same { self.new ≡ self.old }
    {
        let span = self.field_span(number)?;
        let text = self.text_at_hand()?;
        match text.cut(span.start, span.end) {
            Ok(text) => Some(text),
            Err(_) => None,
        }
    }

    /// Field 0 is the whole text, a field past the last is `Nothing`, and a
    /// negative number is refused by `FieldNumber`. The other error is
    /// `Memory`. Takes no time for what stands behind the field.
    #[inline(always)]
    pub fn field(&mut self, number: i128) -> Result<Value, RecordFault>
        ensures field { result ≢ Err RecordFault.Memory → result ≡ field_of self.old number }
        ensures same { self.new ≡ self.old }
    {
        if number <= 0 {
            return self.whole(number);
        }
        self.field_at(index_of(number))
    }

    // Field 0, or the refusal of a negative number.
    #[inline(never)]
    fn whole(&mut self, number: i128) -> Result<Value, RecordFault>
        requires { number ≤ℤ pos 0 }
        ensures field { result ≢ Err RecordFault.Memory → result ≡ field_of self.old number }
        ensures same { self.new ≡ self.old }
    {
        if number < 0 {
            return Err(RecordFault::FieldNumber);
        }
        Ok(Value::Input(self.text()?))
    }

    // The field at an index from 0 on.
    #[inline(always)]
    fn field_at(&mut self, index: usize) -> Result<Value, RecordFault>
        ensures same { self.new ≡ self.old }
        ensures value { IfOk result (λ value. value ≡ unwrap_or (slice_get self.old.fields index) Value.Nothing) }
        ensures none { index ≡ usize.MAX → IfOk result (λ _. slice_get self.old.fields index ≡ None) }
        ensures memory { IfErr result (λ e. e ≡ RecordFault.Memory) }
    {
        match self.form {
            Form::Split => cut_at(&self.text, &mut self.fields, index),
            _ => value_at(self.values.as_slice(), index),
        }
    }

    /// Gives the field this value, and makes those missing before it `Nothing`;
    /// the text is that of the fields with this separator between them, whatever
    /// comes. A number that isn't from 1 to 16,777,216 is refused by
    /// `FieldNumber`: field 0 is set by `set_text`. The other error is `Memory`.
    /// An error changes nothing. (POSIX awk, Variables and Special Variables)
    pub fn set_field(
        &mut self,
        number: i128,
        value: Value,
        separator: Bytes,
    ) -> Result<(), RecordFault>
        ensures ok { OnOk result (Ok self.new ≡ with_field (assignable number) value separator self.old) }
        ensures refused { IfErr result
            (λ e. e ≢ RecordFault.Memory → Err e ≡ with_field (assignable number) value separator self.old) }
        ensures err { OnErr result (self.new ≡ self.old) }
    {
        let number = assigned_number(number)?;
        if number == 0 {
            return Err(RecordFault::FieldNumber);
        }
        take_values(self.form, &self.text, &mut self.fields, &mut self.values)?;
        set_value(&mut self.values, number, value)?;
        self.output_separator = separator;
        self.form = Form::Assigned;
        self.lent = false;
        Ok(())
    }

    /// Gives the record so many fields: those behind are cut off, and missing
    /// ones are `Nothing`; the text is that of the fields with this separator
    /// between them, whatever comes. A count that isn't from 0 to 16,777,216 is
    /// refused by `FieldNumber`; the other error is `Memory`. An error changes
    /// nothing. (POSIX awk, Variables and Special Variables: NF)
    pub fn set_count(&mut self, count: i128, separator: Bytes) -> Result<(), RecordFault>
        ensures ok { OnOk result (Ok self.new ≡ with_count (assignable count) separator self.old) }
        ensures refused { IfErr result
            (λ e. e ≢ RecordFault.Memory → Err e ≡ with_count (assignable count) separator self.old) }
        ensures err { OnErr result (self.new ≡ self.old) }
    {
        let count = assigned_number(count)?;
        take_values(self.form, &self.text, &mut self.fields, &mut self.values)?;
        resize(&mut self.values, count)?;
        self.output_separator = separator;
        self.form = Form::Assigned;
        self.lent = false;
        Ok(())
    }

    /// How often since `new` a text was begun to be split: once for each whose
    /// fields or their count were asked.
    pub fn splits(&self) -> u64 {
        self.fields.splits
    }

    /// How often since `new` the text was made of the fields.
    pub fn joins(&self) -> u64 {
        self.joins
    }
}
