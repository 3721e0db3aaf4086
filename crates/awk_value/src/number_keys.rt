// Keys that are 64-bit numbers: each call stands for the one by the number's decimal form, which
// isn't written.

ghost use Rattle.std.specs.Prelude.{◌≡◌, ◌++◌, ◌∷◌, [], None, is_some, IfOk, IfErr, OnOk, OnErr};
ghost use Rattle.std.specs.Fmt.{signed_decimal};
ghost use Rattle.std.specs.Borrow.{sem};
ghost use Rattle.std.specs.Option.{option_copied, option_copied_mut, unwrap_or};
ghost use Rattle.awk_value.specs.declared.value.Value.TheVariants.{Nothing};
ghost use Rattle.awk_value.specs.declared.fault.ValueFault.TheVariants.{Memory};
ghost use Rattle.awk_value.specs.definitions.Arrays.{value_at, with_pair, with_key, without};

use crate::entry::Entry;
use crate::table::{Table, copy_of};
use crate::{Value, ValueFault};

impl Table {
    ghost use Rattle.awk_value.specs.definitions.Lending.{LendsValue};

    /// Whether the number's decimal form is a key, as `has` tells.
    #[inline]
    pub fn has_number(&self, key: i64) -> bool
        ensures { result ≡ is_some (value_at self.now (signed_decimal key)) }
    {
        self.get_number(key).is_some()
    }

    /// The value at the number's decimal form, as `get` gives it.
    #[inline]
    pub fn get_number(&self, key: i64) -> Option<&Value>
        ensures { option_copied result ≡ value_at self.now (signed_decimal key) }
    {
        match self.numbers.get(key) {
            Some(entry) => Some(&entry.value),
            None => None,
        }
    }

    /// The value at the number's decimal form, to be changed, as `get_mut` gives it.
    #[inline]
    pub fn get_number_mut(&mut self, key: i64) -> Option<&mut Value>
        ensures* writes_back { sem 𝓛 (LendsValue self.entry (signed_decimal key) result) }
        ensures value { option_copied_mut result ≡ value_at self.old (signed_decimal key) }
    {
        match self.numbers.get_mut(key) {
            Some(value) => Some(value),
            None => None,
        }
    }

    /// A copy of the value at the number's decimal form, which is made where it isn't present, as
    /// `get_or_make` makes it. The fault is `Memory`, and changes nothing.
    pub fn get_or_make_number(&mut self, key: i64) -> Result<Value, ValueFault>
        ensures value { IfOk result (λ v. v ≡ unwrap_or (value_at self.old (signed_decimal key)) Nothing) }
        ensures made { OnOk result (self.new ≡ with_key self.old (signed_decimal key)) }
        ensures unchanged { OnErr result (self.new ≡ self.old) }
        ensures fault { IfErr result (λ fault. fault ≡ Memory) }
    {
        match self.get_number(key) {
            Some(value) => copy_of(value),
            None => match self.add_number(key, Value::Nothing) {
                Ok(()) => Ok(Value::Nothing),
                Err(fault) => Err(fault),
            },
        }
    }

    /// Gives the number's decimal form the value, as `put` does. The fault is `Memory`, and changes
    /// nothing.
    #[inline]
    pub fn put_number(&mut self, key: i64, value: Value) -> Result<(), ValueFault>
        ensures put { OnOk result (self.new ≡ with_pair self.old (signed_decimal key) value) }
        ensures unchanged { OnErr result (self.new ≡ self.old) }
        ensures absent { OnErr result (value_at self.old (signed_decimal key) ≡ None) }
        ensures fault { IfErr result (λ fault. fault ≡ Memory) }
    {
        match self.get_number_mut(key) {
            Some(place) => {
                *place = value;
                Ok(())
            }
            None => self.add_number(key, value),
        }
    }

    /// Removes the number's decimal form, as `remove` does.
    pub fn remove_number(&mut self, key: i64)
        ensures { self.new ≡ without self.old (signed_decimal key) }
    {
        self.numbers.remove(key);
    }

    /// Adds the decimal form of a number that isn't a key yet, without looking for it; it goes last.
    /// The fault is `Memory`, and changes nothing.
    #[inline]
    pub fn add_number(&mut self, key: i64, value: Value) -> Result<(), ValueFault>
        requires { value_at self.old (signed_decimal key) ≡ None }
        ensures added { OnOk result (self.new ≡ self.old ++ (signed_decimal key, value) ∷ []) }
        ensures unchanged { OnErr result (self.new ≡ self.old) }
        ensures fault { IfErr result (λ fault. fault ≡ Memory) }
    {
        let stamp = self.next;
        let Some(next) = stamp.checked_add(1) else {
            return Err(ValueFault::Memory);
        };
        self.numbers.add(key, Entry { stamp, value })?;
        self.next = next;
        Ok(())
    }
}
