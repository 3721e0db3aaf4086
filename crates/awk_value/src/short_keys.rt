// Keys that are texts of at most 23 bytes.

ghost use Rattle.std.specs.Prelude.{◌≡◌, ◌++◌, ◌∷◌, [], None, is_some, IfOk, IfErr, OnOk, OnErr};
ghost use Rattle.std.specs.Borrow.{sem};
ghost use Rattle.std.specs.Option.{option_copied, option_copied_mut, unwrap_or};
ghost use Rattle.awk_value.specs.declared.value.Value.TheVariants.{Nothing};
ghost use Rattle.awk_value.specs.declared.fault.ValueFault.TheVariants.{Memory};
ghost use Rattle.awk_value.specs.definitions.Arrays.{value_at, with_pair, with_key, without};
ghost use Rattle.awk_value.specs.support.Texts.{IsTextKey, short_text, IsPadded};

use crate::entry::{Entry, add_entry, set_entry, take_entry};
use crate::short_text::ShortText;
use crate::table::{Table, copy_of};
use crate::{Value, ValueFault};

impl Table {
    ghost use Rattle.awk_value.specs.definitions.Lending.{LendsValue};

    /// As `get`.
    pub(crate) fn get_short(&self, key: ShortText) -> Option<&Value>
        requires text { IsTextKey (short_text key) }
        requires padded { IsPadded key }
        ensures { option_copied result ≡ value_at self.now (short_text key) }
    {
        match self.shorts.get(&key) {
            Some(entry) => Some(&entry.value),
            None => None,
        }
    }

    /// As `get_mut`.
    #[inline]
    pub(crate) fn get_short_mut(&mut self, key: ShortText) -> Option<&mut Value>
        requires text { IsTextKey (short_text key) }
        requires padded { IsPadded key }
        ensures* writes_back { sem 𝓛 (LendsValue self.entry (short_text key) result) }
        ensures value { option_copied_mut result ≡ value_at self.old (short_text key) }
    {
        match self.shorts.get_mut(&key) {
            Some(entry) => Some(&mut entry.value),
            None => None,
        }
    }

    /// As `get_or_make`.
    pub(crate) fn get_or_make_short(&mut self, key: ShortText) -> Result<Value, ValueFault>
        requires text { IsTextKey (short_text key) }
        requires padded { IsPadded key }
        ensures value { IfOk result (λ v. v ≡ unwrap_or (value_at self.old (short_text key)) Nothing) }
        ensures made { OnOk result (self.new ≡ with_key self.old (short_text key)) }
        ensures unchanged { OnErr result (self.new ≡ self.old) }
        ensures fault { IfErr result (λ fault. fault ≡ Memory) }
    {
        match self.get_short(key) {
            Some(value) => copy_of(value),
            None => match self.add_short(key, Value::Nothing) {
                Ok(()) => Ok(Value::Nothing),
                Err(fault) => Err(fault),
            },
        }
    }

    /// As `put`.
    pub(crate) fn put_short(&mut self, key: ShortText, value: Value) -> Result<(), ValueFault>
        requires text { IsTextKey (short_text key) }
        requires padded { IsPadded key }
        ensures put { OnOk result (self.new ≡ with_pair self.old (short_text key) value) }
        ensures unchanged { OnErr result (self.new ≡ self.old) }
        ensures absent { OnErr result (value_at self.old (short_text key) ≡ None) }
        ensures fault { IfErr result (λ fault. fault ≡ Memory) }
    {
        match set_entry(&mut self.shorts, &key, value) {
            Some(value) => self.add_short(key, value),
            None => Ok(()),
        }
    }

    /// As `remove`.
    pub(crate) fn remove_short(&mut self, key: ShortText)
        requires text { IsTextKey (short_text key) }
        requires padded { IsPadded key }
        ensures { self.new ≡ without self.old (short_text key) }
    {
        take_entry(&mut self.shorts, &key);
    }

    /// Adds a new short text, which goes last.
    fn add_short(&mut self, key: ShortText, value: Value) -> Result<(), ValueFault>
        requires text { IsTextKey (short_text key) }
        requires padded { IsPadded key }
        requires new { value_at self.old (short_text key) ≡ None }
        ensures added { OnOk result (self.new ≡ self.old ++ (short_text key, value) ∷ []) }
        ensures unchanged { OnErr result (self.new ≡ self.old) }
        ensures fault { IfErr result (λ fault. fault ≡ Memory) }
    {
        let stamp = self.next;
        let Some(next) = stamp.checked_add(1) else {
            return Err(ValueFault::Memory);
        };
        add_entry(&mut self.shorts, key, Entry { stamp, value })?;
        self.next = next;
        Ok(())
    }
}
