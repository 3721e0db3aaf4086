// The record at hand and its fields.

ghost use Rattle.awk_runtime.specs.support.Simulation.{Changes};
ghost use Rattle.awk_semantics.specs.Primitives.{read_field, put_outside, set_count, set_field, set_record, record_text};
ghost use Rattle.awk_semantics.specs.Outside.{read_outside};
ghost use Rattle.awk_semantics.specs.Items.{begin_record};
ghost use Rattle.awk_semantics.specs.BuiltIns.{record_length};
ghost use Rattle.std.specs.Prelude.{◌≡◌, ◌≢◌, pos, codes, true, false, None, Ok, OnOk, OnErr};
ghost use Rattle.awk_storage.specs.Positions.{assign_by_at};
ghost use Rattle.awk_storage.specs.declared.position.Place.TheVariants.{Field};
ghost use Rattle.awk_runtime.specs.support.Updates.{Gives};
ghost use Rattle.awk_runtime.specs.support.Counting.{count_both};
ghost use Rattle.awk_value.specs.declared.value.Value.TheVariants.{Number};

use crate::runtime::Runtime;
use awk_kinds::Special;
use awk_semantics::Halt;
use awk_value::{Bytes, Value, number_of, text_of};

/// A count, as a value.
pub(crate) fn count_value(count: usize) -> Value
    ensures { result ≡ Number (pos count) }
{
    Value::Number(count as i128)
}

impl Runtime {
    /// The field of a number; `$0` is the record's text, and a field past the last one was never assigned. The faults are F1,
    /// and F8 of a number below 0. (POSIX awk, Variables and Special Variables)
    #[inline(always)]
    pub fn read_field(&mut self, number: i128) -> Result<Value, Halt>
        ensures { Changes (read_field number) self.old self.new result }
    {
        Ok(self.current.field(number)?)
    }

    /// Gives a field a value, and the record the text that its fields then make by OFS; `$0` is the whole record, by FS and RS.
    /// The faults are F1, and F8 of a number that isn't from 0 to 16,777,216. (POSIX awk, Variables and Special Variables)
    pub fn set_field(&mut self, number: i128, value: Value) -> Result<(), Halt>
        ensures { Changes (set_field number value) self.old self.new result }
    {
        if number == 0 {
            return self.set_record(text_of(self.alloc, &value)?);
        }
        self.put_in_field(number, value)
    }

    // Gives a field a value, which it then holds. An `Err` changes nothing.
    #[inline(never)]
    fn put_in_field(&mut self, number: i128, value: Value) -> Result<(), Halt>
        requires { number ≢ pos 0 }
        ensures changes { Changes (set_field number value) self.old self.new result }
        ensures put { OnOk result (Changes (assign_by_at self.old.names.scalars None Field (Number number) value) self.old self.new (Ok value)) }
        ensures kept { OnErr result (self.new ≡ self.old) }
    {
        let separator = text_of(self.alloc, self.specials.special(Special::Ofs))?;
        Ok(self.current.set_field(number, value, separator)?)
    }

    /// Gives the field of a value's number a value, of which no copy is made. The faults are F1, F3 and F8.
    pub fn assign_field(&mut self, number: &Value, value: Value) -> Result<(), Halt>
        ensures { Gives (assign_by_at self.old.names.scalars None Field number.now value) self.old result self.new }
    {
        let number = number_of(number)?;
        self.set_field(number, value)?;
        if let Some(_) = self.current.kept_field(number) {
            return Ok(());
        }
        self.read_field(number)?;
        Ok(())
    }

    /// Gives the field of a number, which isn't 0, a number, which isn't read again. `false`, and nothing changes, where it can't.
    pub fn put_number_in_field(&mut self, number: i128, n: i128) -> bool
        ensures put { result ≡ true → Changes (assign_by_at self.old.names.scalars None Field (Number number) (Number n)) self.old self.new
            (Ok (Number n)) }
        ensures kept { result ≡ false → self.new ≡ self.old }
    {
        if number == 0 {
            return false;
        }
        self.put_in_field(number, Value::Number(n)).is_ok()
    }

    /// Makes the text the record at hand, with the fields that FS and RS of this moment separate. The fault is F1. (POSIX awk,
    /// Regular Expressions; Variables and Special Variables)
    #[inline(always)]
    pub(crate) fn set_record(&mut self, text: Bytes) -> Result<(), Halt>
        ensures { Changes (set_record text) self.old self.new result }
    {
        let separator = self.specials.field_separator();
        let newline_too = self.specials.newlines_separate();
        Ok(self.current.set_text(text, separator, newline_too)?)
    }

    /// The record's text, as a value. The fault is F1.
    pub(crate) fn record_text(&mut self) -> Result<Value, Halt>
        ensures { Changes (record_text) self.old self.new result }
    {
        Ok(Value::Input(self.current.text()?))
    }

    /// The length of the record's text. The fault is F1. (POSIX awk, String Functions: length)
    pub fn record_length(&mut self) -> Result<Value, Halt>
        ensures { Changes (record_length) self.old self.new result }
    {
        let text = self.current.text()?;
        Ok(count_value(text.len()))
    }

    /// Makes the text the record at hand, and counts it in NR and FNR. The faults are F1 and F3. (POSIX awk, Variables and
    /// Special Variables)
    #[inline(always)]
    pub fn begin_record(&mut self, text: Bytes) -> Result<(), Halt>
        ensures { Changes (begin_record text) self.old self.new result }
    {
        self.set_record(text)?;
        if self.count_in_place() {
            return Ok(());
        }
        self.count_in(Special::Nr)?;
        self.count_in(Special::Fnr)
    }

    /// Counts a record in NR and FNR where they stand. `false`, and nothing changes, where they are no counts, or too large.
    #[inline(always)]
    fn count_in_place(&mut self) -> bool
        ensures counted { result ≡ true → Changes count_both self.old self.new (Ok tt) }
        ensures kept { result ≡ false → self.new ≡ self.old }
    {
        self.names.law_of_slots();
        self.specials.count_record()
    }

    /// The number of fields, as a value. The fault is F1. (POSIX awk, Variables and Special Variables: NF)
    pub(crate) fn field_count(&mut self) -> Result<Value, Halt>
        ensures { Changes (read_outside (codes "NF")) self.old self.new result }
    {
        Ok(count_value(self.current.count()?))
    }

    /// Gives the record as many fields as a value's number is, and the text that they make by OFS. The faults are F1, F3 and F8.
    /// (POSIX awk, Variables and Special Variables: NF)
    pub(crate) fn set_field_count(&mut self, value: &Value) -> Result<(), Halt>
        ensures { Changes (put_outside (codes "NF") value.now) self.old self.new result }
    {
        let count = number_of(value)?;
        let separator = text_of(self.alloc, self.specials.special(Special::Ofs))?;
        Ok(self.current.set_count(count, separator)?)
    }
}
