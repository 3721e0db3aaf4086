// The array. A key that is the decimal form of a 64-bit number is kept as that number, any other
// as its text: in place where it has at most 23 bytes. Each entry has the stamp of its making, and a
// removal may move entries: only a walk looks at the order, by the stamps.

ghost use Rattle.std.specs.Prelude.{◌≡◌, [], None, length, is_some, IfOk, IfErr, OnOk, OnErr};
ghost use Rattle.std.specs.Map.{keys_of};
ghost use Rattle.std.specs.Borrow.{sem};
ghost use Rattle.std.specs.Option.{option_copied, option_copied_mut, unwrap_or};
ghost use Rattle.awk_value.specs.declared.value.Value.TheVariants.{Nothing};
ghost use Rattle.awk_value.specs.declared.fault.ValueFault.TheVariants.{Memory};
ghost use Rattle.awk_value.specs.definitions.Arrays.{Array, value_at, with_pair, with_key, without, HasDistinctKeys};

use crate::decimal::decimal_number;
use crate::entry::{Entries, clear_entries};
use crate::hashing::Secret;
use crate::numbers::Numbers;
use crate::short_text::ShortText;
use crate::walk::keys_by_stamp;
use crate::{Bytes, Value, ValueFault};
use indexmap::IndexMap;
use std::alloc::Global;
use std::marker::Model;

/// A copy of a value. The fault is `Memory`.
pub(crate) fn copy_of(value: &Value) -> Result<Value, ValueFault>
    ensures copy { IfOk result (λ copy. copy ≡ value.now) }
    ensures fault { IfErr result (λ fault. fault ≡ Memory) }
{
    Ok(value.clone()?)
}

/// An array: pairs of a key and a value. A key is a text, and no two are equal. A new key goes last,
/// a present key keeps its place, and the others close up where one is removed.
/// (POSIX awk, Expressions in awk)
#[derive(Drop)]
pub struct Table {
    pub(crate) numbers: Numbers,
    pub(crate) shorts: Entries<ShortText>,
    pub(crate) longs: Entries<Vec<u8>>,
    // above all stamps
    pub(crate) next: u64,
}

impl Model for Table {
    ghost use Rattle.awk_value.specs.definitions.Arrays.{Array};
    ghost use Rattle.awk_value.specs.support.StampOrder.{stamp_order};
    ghost use Rattle.std.specs.Prelude.{◌<◌, length};
    ghost use Rattle.std.specs.List.{AllByRecursion};
    ghost use Rattle.std.specs.Map.{keys_of};
    ghost use Rattle.awk_value.specs.support.Texts.{short_text, IsPadded};
    ghost use Rattle.awk_value.specs.support.Entries.{IsConsistent, all_rows, joined};

    ghost Value = { Array };

    ghost view = { λ t. stamp_order t.next (all_rows (λ k. k) (λ e. e.stamp) (λ e. e.value) t.numbers
        (joined (λ s. short_text s) (λ v. v.items) t.shorts.entries t.longs.entries)) };

    ghost invariant = { λ t. IsConsistent (λ k. k) (λ e. e.stamp) (λ e. e.value) t.next t.numbers
        (joined (λ s. short_text s) (λ v. v.items) t.shorts.entries t.longs.entries)
        × AllByRecursion (λ s. IsPadded s) (keys_of t.shorts.entries)
        × AllByRecursion (λ v. 23 < length v.items) (keys_of t.longs.entries) };
}

impl Table {
    ghost use Rattle.awk_value.specs.definitions.Lending.{LendsValue};

    /// The empty array. Takes no memory.
    pub fn new(alloc: Global) -> Table
        ensures { result ≡ [] }
    {
        let secret = Secret::none();
        Table {
            numbers: Numbers::new(alloc, secret),
            shorts: IndexMap::with_hasher(alloc, secret),
            longs: IndexMap::with_hasher(alloc, secret),
            next: 0,
        }
    }

    /// The number of keys, which all differ. Takes no memory.
    pub fn len(&self) -> usize
        ensures len { result ≡ length self.now }
        ensures distinct { HasDistinctKeys self.now }
    {
        // no more keys are present than were made
        let _made = self.next;
        self.numbers.len() + self.shorts.len() + self.longs.len()
    }

    /// Whether the key is present. Takes no memory. (POSIX awk, Expressions in awk: `in`)
    pub fn has(&self, key: &[u8]) -> bool
        ensures { result ≡ is_some (value_at self.now key.now) }
    {
        self.get(key).is_some()
    }

    /// The value at the key, if it is present. Takes no memory.
    pub fn get(&self, key: &[u8]) -> Option<&Value>
        ensures { option_copied result ≡ value_at self.now key.now }
    {
        match decimal_number(key) {
            Some(number) => self.get_number(number),
            None => match ShortText::new(key) {
                Some(short) => self.get_short(short),
                None => self.get_long(key),
            },
        }
    }

    /// The value at the key, to be changed, if it is present. Takes no memory.
    /// (POSIX awk, Expressions in awk: assignment)
    #[inline]
    pub fn get_mut(&mut self, key: &[u8]) -> Option<&mut Value>
        ensures* writes_back { sem 𝓛 (LendsValue self.entry key.now result) }
        ensures value { option_copied_mut result ≡ value_at self.old key.now }
    {
        match decimal_number(key) {
            Some(number) => self.get_number_mut(number),
            None => match ShortText::new(key) {
                Some(short) => self.get_short_mut(short),
                None => self.get_long_mut(key),
            },
        }
    }

    /// A copy of the value at the key, which is made where it isn't present, and then goes last with
    /// an uninitialized value. The fault is `Memory`, and changes nothing.
    /// (POSIX awk, Expressions in awk: references to elements)
    pub fn get_or_make(&mut self, alloc: Global, key: &[u8]) -> Result<Value, ValueFault>
        ensures value { IfOk result (λ v. v ≡ unwrap_or (value_at self.old key.now) Nothing) }
        ensures made { OnOk result (self.new ≡ with_key self.old key.now) }
        ensures unchanged { OnErr result (self.new ≡ self.old) }
        ensures fault { IfErr result (λ fault. fault ≡ Memory) }
    {
        match decimal_number(key) {
            Some(number) => self.get_or_make_number(number),
            None => match ShortText::new(key) {
                Some(short) => self.get_or_make_short(short),
                None => self.get_or_make_long(alloc, key),
            },
        }
    }

    /// Gives the key the value. A present key keeps its place, and a new one goes last. Only a new
    /// key takes memory. The fault is `Memory`, and changes nothing.
    /// (POSIX awk, Expressions in awk: assignment)
    pub fn put(&mut self, alloc: Global, key: &[u8], value: Value) -> Result<(), ValueFault>
        ensures put { OnOk result (self.new ≡ with_pair self.old key.now value) }
        ensures unchanged { OnErr result (self.new ≡ self.old) }
        ensures absent { OnErr result (value_at self.old key.now ≡ None) }
        ensures fault { IfErr result (λ fault. fault ≡ Memory) }
    {
        match decimal_number(key) {
            Some(number) => self.put_number(number, value),
            None => match ShortText::new(key) {
                Some(short) => self.put_short(short, value),
                None => self.put_long(alloc, key, value),
            },
        }
    }

    /// Removes the key, if it is present, with its value; the others keep their order. A key that is
    /// made again goes last. Takes no memory, and no time by the number of keys.
    /// (POSIX awk, Actions: delete)
    pub fn remove(&mut self, key: &[u8])
        ensures { self.new ≡ without self.old key.now }
    {
        match decimal_number(key) {
            Some(number) => self.remove_number(number),
            None => match ShortText::new(key) {
                Some(short) => self.remove_short(short),
                None => self.remove_long(key),
            },
        }
    }

    /// The texts of all keys, in order. The fault is `Memory`. (POSIX awk, Actions: for, in)
    pub fn keys(&self, alloc: Global) -> Result<Vec<Bytes>, ValueFault>
        ensures keys { IfOk result (λ keys. keys.items ≡ keys_of self.now) }
        ensures fault { IfErr result (λ fault. fault ≡ Memory) }
    {
        keys_by_stamp(alloc, self.len(), &self.numbers, &self.shorts, &self.longs)
    }

    /// Removes all keys. Takes no memory.
    pub fn clear(&mut self)
        ensures { self.new ≡ [] }
    {
        self.numbers.clear();
        clear_entries(&mut self.shorts);
        clear_entries(&mut self.longs);
        self.next = 0;
    }
}
