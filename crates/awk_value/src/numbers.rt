// The keys that are numbers, with their entries: those from 0 on at their places, and the others by
// a search.

ghost use Rattle.std.specs.Prelude.{◌≡◌, ◌++◌, ◌∷◌, ◌<◌, ◌^◌, [], None, false, length, IsPermutation, MatchOption, IfErr, OnOk, OnErr};
ghost use Rattle.std.specs.Borrow.{sem};
ghost use Rattle.std.specs.Map.{lookup};
ghost use Rattle.std.specs.Option.{option_copied, option_copied_mut, option_map};
ghost use Rattle.std.specs.Ordering.{int_eq};
ghost use Rattle.awk_value.specs.support.DenseKeys.{is_gone, IsTaken};
ghost use Rattle.awk_value.specs.support.Lending.{LendsNumber};
ghost use Rattle.awk_value.specs.declared.fault.ValueFault.TheVariants.{Memory};

use crate::dense::Dense;
use crate::entry::{Entries, Entry, add_entry, clear_entries, take_entry};
use crate::hashing::Secret;
use crate::{Value, ValueFault};
use indexmap::IndexMap;
use std::alloc::Global;
use std::marker::Model;

/// A map by numbers.
#[derive(Drop)]
pub(crate) struct Numbers {
    pub(crate) dense: Dense,
    pub(crate) sparse: Entries<i64>,
}

impl Model for Numbers {
    ghost use Rattle.std.specs.Prelude.{ℤ, List, ◌++◌};
    ghost use Rattle.awk_value.specs.declared.entry.Entry.{Entry};
    ghost use Rattle.awk_value.specs.support.DenseKeys.{numbered};

    ghost Value = { List (ℤ × Entry) };

    ghost view = { λ n. numbered 0 n.dense ++ n.sparse.entries };
}

impl Numbers {
    /// No number is a key. Takes no memory.
    pub(crate) fn new(alloc: Global, secret: Secret) -> Numbers
        ensures { result ≡ [] }
    {
        Numbers {
            dense: Dense::new(alloc),
            sparse: IndexMap::with_hasher(alloc, secret),
        }
    }

    /// How many numbers are keys.
    pub(crate) fn len(&self) -> usize
        requires { length self.now < 2 ^ 64 }
        ensures { result ≡ length self.now }
    {
        self.dense.len() + self.sparse.len()
    }

    /// The entry of a number, if it is a key.
    #[inline]
    pub(crate) fn get(&self, key: i64) -> Option<&Entry>
        ensures { option_copied result ≡ lookup (int_eq key) self.now }
    {
        if let Some(entry) = self.dense.get(key) {
            return Some(entry);
        }
        if self.sparse.is_empty() {
            return None;
        }
        self.sparse.get(&key)
    }

    /// The value of a number, if it is a key, to be changed.
    #[inline]
    pub(crate) fn get_mut(&mut self, key: i64) -> Option<&mut Value>
        ensures* writes_back { sem 𝓛 (LendsNumber self.entry key result) }
        ensures value { option_copied_mut result ≡ option_map (λ e. e.value) (lookup (int_eq key) self.old) }
    {
        if self.dense.has(key) {
            return match self.dense.get_mut(key) {
                Some(value) => Some(value),
                None => None,
            };
        }
        if self.sparse.is_empty() {
            return None;
        }
        match self.sparse.get_mut(&key) {
            Some(entry) => Some(&mut entry.value),
            None => None,
        }
    }

    /// Adds a number that is no key. The fault is `Memory`, and changes nothing.
    #[inline]
    pub(crate) fn add(&mut self, key: i64, entry: Entry) -> Result<(), ValueFault>
        requires new { lookup (int_eq key) self.old ≡ None }
        requires kept { is_gone entry ≡ false }
        ensures added { OnOk result (IsPermutation (self.old ++ (key, entry) ∷ []) self.new) }
        ensures unchanged { OnErr result (self.new ≡ self.old) }
        ensures fault { IfErr result (λ fault. fault ≡ Memory) }
    {
        match self.dense.place_for(key) {
            Some(place) => self.dense.add(place, entry),
            None => add_entry(&mut self.sparse, key, entry),
        }
    }

    /// Removes a number, if it is a key. Takes no memory.
    pub(crate) fn remove(&mut self, key: i64)
        ensures { MatchOption (lookup (int_eq key) self.old) (self.new ≡ self.old) (λ e. IsTaken e self.old self.new) }
    {
        if !self.dense.remove(key) {
            take_entry(&mut self.sparse, &key);
        }
    }

    /// No number is a key any more. Takes no memory.
    pub(crate) fn clear(&mut self)
        ensures { self.new ≡ [] }
    {
        self.dense.clear();
        clear_entries(&mut self.sparse);
    }
}
