// Keys that are texts of more than 23 bytes.

ghost use Rattle.std.specs.Prelude.{◌≡◌, ◌<◌, ◌++◌, ◌∷◌, [], None, length, is_some, IfOk, IfErr, OnOk, OnErr};
ghost use Rattle.std.specs.Borrow.{sem};
ghost use Rattle.std.specs.Option.{option_copied, option_copied_mut, unwrap_or};
ghost use Rattle.awk_value.specs.declared.value.Value.TheVariants.{Nothing};
ghost use Rattle.awk_value.specs.declared.fault.ValueFault.TheVariants.{Memory};
ghost use Rattle.awk_value.specs.definitions.Arrays.{value_at, with_pair, with_key, without};
ghost use Rattle.awk_value.specs.support.Texts.{IsTextKey};

use crate::entry::Entry;
use crate::table::{Table, copy_of};
use crate::text_entry::{add_text, set_text, take_text};
use crate::{Value, ValueFault};
use std::alloc::Global;

impl Table {
    ghost use Rattle.awk_value.specs.definitions.Lending.{LendsValue};

    /// As `get`.
    pub(crate) fn get_long(&self, key: &[u8]) -> Option<&Value>
        requires text { IsTextKey key.now }
        requires long { 23 < length key.now }
        ensures { option_copied result ≡ value_at self.now key.now }
    {
        match self.longs.get(key) {
            Some(entry) => Some(&entry.value),
            None => None,
        }
    }

    /// As `get_mut`.
    pub(crate) fn get_long_mut(&mut self, key: &[u8]) -> Option<&mut Value>
        requires text { IsTextKey key.now }
        requires long { 23 < length key.now }
        ensures* writes_back { sem 𝓛 (LendsValue self.entry key.now result) }
        ensures value { option_copied_mut result ≡ value_at self.old key.now }
    {
        match self.longs.get_mut(key) {
            Some(entry) => Some(&mut entry.value),
            None => None,
        }
    }

    /// As `get_or_make`.
    pub(crate) fn get_or_make_long(
        &mut self,
        alloc: Global,
        key: &[u8],
    ) -> Result<Value, ValueFault>
        requires text { IsTextKey key.now }
        requires long { 23 < length key.now }
        ensures value { IfOk result (λ v. v ≡ unwrap_or (value_at self.old key.now) Nothing) }
        ensures made { OnOk result (self.new ≡ with_key self.old key.now) }
        ensures unchanged { OnErr result (self.new ≡ self.old) }
        ensures fault { IfErr result (λ fault. fault ≡ Memory) }
    {
        match self.get_long(key) {
            Some(value) => copy_of(value),
            None => match self.add_long(alloc, key, Value::Nothing) {
                Ok(()) => Ok(Value::Nothing),
                Err(fault) => Err(fault),
            },
        }
    }

    /// As `put`.
    pub(crate) fn put_long(
        &mut self,
        alloc: Global,
        key: &[u8],
        value: Value,
    ) -> Result<(), ValueFault>
        requires text { IsTextKey key.now }
        requires long { 23 < length key.now }
        ensures put { OnOk result (self.new ≡ with_pair self.old key.now value) }
        ensures unchanged { OnErr result (self.new ≡ self.old) }
        ensures absent { OnErr result (value_at self.old key.now ≡ None) }
        ensures fault { IfErr result (λ fault. fault ≡ Memory) }
    {
        match set_text(&mut self.longs, key, value) {
            Some(value) => self.add_long(alloc, key, value),
            None => Ok(()),
        }
    }

    /// As `remove`.
    pub(crate) fn remove_long(&mut self, key: &[u8])
        requires text { IsTextKey key.now }
        requires long { 23 < length key.now }
        ensures { self.new ≡ without self.old key.now }
    {
        take_text(&mut self.longs, key);
    }

    /// Adds a new long text, which goes last.
    fn add_long(&mut self, alloc: Global, key: &[u8], value: Value) -> Result<(), ValueFault>
        requires text { IsTextKey key.now }
        requires long { 23 < length key.now }
        requires new { value_at self.old key.now ≡ None }
        ensures added { OnOk result (self.new ≡ self.old ++ (key.now, value) ∷ []) }
        ensures unchanged { OnErr result (self.new ≡ self.old) }
        ensures fault { IfErr result (λ fault. fault ≡ Memory) }
    {
        let stamp = self.next;
        let Some(next) = stamp.checked_add(1) else {
            return Err(ValueFault::Memory);
        };
        add_text(alloc, &mut self.longs, key, Entry { stamp, value })?;
        self.next = next;
        Ok(())
    }
}
