// The arrays by number.

ghost use Rattle.std.specs.Prelude.{◌≡◌, ◌++◌, ◌∷◌, [], length, take, is_some, unwrap_or, slice_set, IfOk, IfErr, OnOk, OnErr};
ghost use Rattle.std.specs.Map.{keys_of};
ghost use Rattle.std.specs.Option.{option_copied, option_copied_mut};
ghost use Rattle.std.specs.Borrow.{sem};
ghost use Rattle.awk_value.specs.declared.value.Value.TheVariants.{Nothing};
ghost use Rattle.awk_value.specs.declared.fault.ValueFault.TheVariants.{Memory};
ghost use Rattle.awk_value.specs.Arrays.{value_at, with_pair, with_key, without};
ghost use Rattle.awk_text.specs.Pieces.{stretches_at, AreSpansOf};
ghost use Rattle.awk_semantics.specs.definitions.Primitives.{elements_from};
ghost use Rattle.awk_storage.specs.support.Subscripts.{key_of};

use crate::key;
use crate::subscript::Subscript;
use awk_text::Span;
use awk_value::{Bytes, Table, Value, ValueFault};
use std::alloc::{AllocFailed, Global};
use std::marker::Model;

/// The arrays of a run, by number. One that is no more is kept, without its elements, and used for the next one.
/// (POSIX awk, Expressions in awk: arrays)
#[derive(Drop)]
pub struct Arrays {
    tables: Vec<Table>,
    live: usize,
    alloc: Global,
}

impl Model for Arrays {
    ghost use Rattle.std.specs.Prelude.{List, ◌≤◌, take, drop, length, All};
    ghost use Rattle.awk_value.specs.Arrays.{Array};
    ghost use Rattle.awk_storage.specs.support.Tables.{AreEmpty};

    ghost Value = { List Array };

    ghost view = { λ a. take a.live a.tables.items };

    ghost invariant = { λ a. (a.live ≤ length a.tables.items) × AreEmpty (drop a.live a.tables.items) };
}

impl Arrays {
    ghost use Rattle.awk_storage.specs.support.Tables.{array_of};
    ghost use Rattle.awk_storage.specs.support.Lending.{LendsElement};

    /// There are none. Takes no memory.
    pub fn new(alloc: Global) -> Arrays
        ensures { result ≡ [] }
    {
        Arrays {
            tables: Vec::new(alloc),
            live: 0,
            alloc,
        }
    }

    /// How many there are.
    pub fn len(&self) -> usize
        ensures { result ≡ length self.now }
    {
        self.live
    }

    /// Adds an empty one, behind the others. An `Err` changes nothing.
    pub fn add(&mut self) -> Result<(), AllocFailed<Table>>
        ensures added { OnOk result (self.new ≡ self.old ++ [] ∷ []) }
        ensures unchanged { OnErr result (self.new ≡ self.old) }
    {
        if self.live < self.tables.as_slice().len() {
            self.live += 1;
            return Ok(());
        }
        self.tables.push(Table::new(self.alloc))?;
        self.live += 1;
        Ok(())
    }

    /// No more than so many are left.
    pub fn truncate(&mut self, count: usize)
        ensures { self.new ≡ take count self.old }
    {
        while self.live > count {
            self.live -= 1;
            self.tables[self.live].clear();
        }
    }

    /// The element at the key of a subscript, if it is there.
    #[inline(always)]
    pub fn get(&self, number: usize, key: Subscript) -> Option<&Value>
        ensures { option_copied result ≡ value_at (array_of self.now number) (key_of key.entry) }
    {
        if number >= self.live {
            return None;
        }
        key::get(&self.tables[number], key)
    }

    /// The element at the key of a subscript, if it is there, to be changed.
    #[inline]
    pub fn value_mut(&mut self, number: usize, key: Subscript) -> Option<&mut Value>
        ensures* writes_back { sem 𝓛 (LendsElement self.entry number (key_of key.entry) result) }
        ensures value { option_copied_mut result ≡ value_at (array_of self.old number) (key_of key.entry) }
    {
        if number >= self.live {
            return None;
        }
        match key::value_mut(&mut self.tables[number], key) {
            Some(value) => Some(value),
            None => None,
        }
    }

    /// A copy of the element at the key of a subscript, which is made where it isn't there. The fault is `Memory`.
    pub fn get_or_make(&mut self, number: usize, key: Subscript) -> Result<Value, ValueFault>
        ensures value { IfOk result (λ v. v ≡ unwrap_or (value_at (array_of self.old number) (key_of key.entry)) Nothing) }
        ensures made { OnOk result (self.new ≡ slice_set self.old number (with_key (array_of self.old number) (key_of key.entry))) }
        ensures fault { IfErr result (λ fault. fault ≡ Memory) }
    {
        if number >= self.live {
            return Ok(Value::Nothing);
        }
        let value = key::get_or_make(&mut self.tables[number], self.alloc, key)?;
        Ok(value)
    }

    /// Gives the element at the key of a subscript a value. The fault is `Memory`, and changes nothing.
    #[inline]
    pub fn put(&mut self, number: usize, key: Subscript, value: Value) -> Result<(), ValueFault>
        ensures put { OnOk result (self.new ≡ slice_set self.old number (with_pair (array_of self.old number) (key_of key.entry) value)) }
        ensures unchanged { OnErr result (self.new ≡ self.old) }
        ensures fault { IfErr result (λ fault. fault ≡ Memory) }
    {
        if number >= self.live {
            return Ok(());
        }
        key::put(&mut self.tables[number], self.alloc, key, value)?;
        Ok(())
    }

    /// Whether there is an element at the key of a subscript.
    #[inline(always)]
    pub fn has(&self, number: usize, key: Subscript) -> bool
        ensures { result ≡ is_some (value_at (array_of self.now number) (key_of key.entry)) }
    {
        if number >= self.live {
            return false;
        }
        key::has(&self.tables[number], key)
    }

    /// Removes the element at the key of a subscript.
    pub fn remove(&mut self, number: usize, key: Subscript)
        ensures { self.new ≡ slice_set self.old number (without (array_of self.old number) (key_of key.entry)) }
    {
        if number >= self.live {
            return;
        }
        key::remove(&mut self.tables[number], key);
    }

    /// Removes all elements of an array. Takes no memory. (POSIX awk, Actions: delete)
    pub fn clear(&mut self, number: usize)
        ensures { self.new ≡ slice_set self.old number [] }
    {
        if number >= self.live {
            return;
        }
        self.tables[number].clear();
    }

    /// How many elements an array has. Takes no memory. (POSIX awk, String Functions: length)
    pub fn count(&self, number: usize) -> usize
        ensures { result ≡ length (array_of self.now number) }
    {
        if number >= self.live {
            return 0;
        }
        self.tables[number].len()
    }

    /// The keys of an array, in order. The fault is `Memory`.
    pub fn keys(&self, number: usize) -> Result<Vec<Bytes>, ValueFault>
        ensures keys { IfOk result (λ keys. keys.items ≡ keys_of (array_of self.now number)) }
        ensures fault { IfErr result (λ fault. fault ≡ Memory) }
    {
        if number >= self.live {
            return Ok(Vec::new(self.alloc));
        }
        self.tables[number].keys(self.alloc)
    }

    /// Empties an array, and gives it texts from outside at the keys from a number on. The fault is `Memory`.
    /// (POSIX awk, Arguments: ARGV)
    pub fn fill(&mut self, number: usize, first: u32, texts: Vec<Bytes>) -> Result<(), ValueFault>
        ensures filled { OnOk result (self.new ≡ slice_set self.old number (elements_from first texts.items)) }
        ensures fault { IfErr result (λ fault. fault ≡ Memory) }
    {
        if number >= self.live {
            return Ok(());
        }
        let table = &mut self.tables[number];
        table.clear();
        key::fill(table, first, texts)?;
        Ok(())
    }

    /// Empties an array, and gives it stretches of a text from outside at the keys from 1 on. The fault is `Memory`.
    /// (POSIX awk, String Functions: split)
    pub fn fill_stretches(
        &mut self,
        number: usize,
        text: &Bytes,
        spans: &[Span],
    ) -> Result<(), ValueFault>
        requires { AreSpansOf text.now spans.now }
        ensures filled { OnOk result (self.new ≡ slice_set self.old number (elements_from 1 (stretches_at text.now spans.now))) }
        ensures fault { IfErr result (λ fault. fault ≡ Memory) }
    {
        if number >= self.live {
            return Ok(());
        }
        let table = &mut self.tables[number];
        table.clear();
        key::fill_stretches(table, text, spans)?;
        Ok(())
    }
}
