// The numbers from 0 on that are keys, each at its own place: no search, and no bytes for the key.

ghost use Rattle.std.specs.Prelude.{◌≡◌, ◌++◌, ◌∷◌, ◌+◌, ◌<◌, ◌≤◌, [], false, pos, length, vec_len, is_some, IsPermutation, IfSome, IfNone, IfErr, OnOk, OnErr, None};
ghost use Rattle.std.specs.Borrow.{sem};
ghost use Rattle.std.specs.Map.{lookup, remove_entry};
ghost use Rattle.std.specs.Option.{option_copied, option_copied_mut, option_map};
ghost use Rattle.std.specs.Ordering.{int_eq};
ghost use Rattle.awk_value.specs.support.DenseKeys.{gap, numbered, is_gone, IsPlaceOf};
ghost use Rattle.awk_value.specs.support.Lending.{LendsPlace};
ghost use Rattle.awk_value.specs.declared.fault.ValueFault.TheVariants.{Memory};

use crate::entry::{Entry, GONE};
use crate::{Value, ValueFault};
use std::alloc::Global;
use std::marker::Model;
use std::mem;

/// Below so many places it doesn't matter how many of the numbers are no keys.
const FEW: usize = 64;

/// The entries of the numbers from 0 on. A number that is no key has one with the stamp `GONE`.
#[derive(Drop)]
pub(crate) struct Dense {
    entries: Vec<Entry>,
    live: usize,
}

impl Model for Dense {
    ghost use Rattle.std.specs.Prelude.{◌≡◌, List, length};
    ghost use Rattle.awk_value.specs.declared.entry.Entry.{Entry};
    ghost use Rattle.awk_value.specs.support.DenseKeys.{numbered};

    ghost Value = { List Entry };

    ghost view = { λ d. d.entries.items };

    ghost invariant = { λ d. d.live ≡ length (numbered 0 d.entries.items) };
}

/// What stands at a place whose number is no key.
#[inline(always)]
fn gap() -> Entry
    ensures { result ≡ gap }
{
    Entry {
        stamp: GONE,
        value: Value::Nothing,
    }
}

/// Adds a place before one that is not right behind the others. The fault is `Memory`.
#[inline(always)]
fn reach(entries: &mut Vec<Entry>, place: usize) -> Result<(), ValueFault>
    requires { place ≤ vec_len entries.old + 1 }
    ensures same { numbered 0 entries.new.items ≡ numbered 0 entries.old.items }
    ensures reached { OnOk result (place ≤ vec_len entries.new) }
    ensures fault { IfErr result (λ fault. fault ≡ Memory) }
{
    if place > entries.len() {
        entries.push(gap())?;
    }
    Ok(())
}

/// Puts the entry of a number that is no key at its place, or behind the others. The fault is
/// `Memory`, and changes nothing.
#[inline(always)]
fn put(entries: &mut Vec<Entry>, place: usize, entry: Entry) -> Result<(), ValueFault>
    requires new { lookup (int_eq (pos place)) (numbered 0 entries.old.items) ≡ None }
    requires near { place ≤ vec_len entries.old }
    requires kept { is_gone entry ≡ false }
    ensures added { OnOk result (IsPermutation (numbered 0 entries.old.items ++ (pos place, entry) ∷ []) (numbered 0 entries.new.items)) }
    ensures unchanged { OnErr result (entries.new.items ≡ entries.old.items) }
    ensures fault { IfErr result (λ fault. fault ≡ Memory) }
{
    if place < entries.len() {
        drop(mem::replace(&mut entries[place], entry));
    } else {
        entries.push(entry)?;
    }
    Ok(())
}

/// Takes the last places away as long as their numbers are no keys.
fn trim(entries: &mut Vec<Entry>)
    ensures { numbered 0 entries.new.items ≡ numbered 0 entries.old.items }
{
    while let Some(last) = entries.last() {
        if last.stamp != GONE {
            return;
        }
        drop(entries.pop());
    }
}

impl Dense {
    /// No number is a key. Takes no memory.
    pub(crate) fn new(alloc: Global) -> Dense
        ensures { result ≡ [] }
    {
        Dense {
            entries: Vec::new(alloc),
            live: 0,
        }
    }

    /// How many numbers are keys.
    pub(crate) fn len(&self) -> usize
        ensures { result ≡ length (numbered 0 self.now) }
    {
        self.live
    }

    /// The entries at the places.
    pub(crate) fn entries(&self) -> &[Entry]
        ensures { result.now ≡ self.now }
    {
        self.entries.as_slice()
    }

    /// The place of a number that is a key.
    #[inline(always)]
    fn find(&self, key: i64) -> Option<usize>
        ensures found { IfSome result (λ place. IsPlaceOf self.now place key) }
        ensures absent { IfNone result (lookup (int_eq key) (numbered 0 self.now) ≡ None) }
    {
        if key < 0 {
            return None;
        }
        let place = key as usize;
        if place >= self.entries.len() {
            return None;
        }
        if self.entries[place].stamp == GONE {
            return None;
        }
        Some(place)
    }

    /// The entry of a number, if it is a key.
    #[inline(always)]
    pub(crate) fn get(&self, key: i64) -> Option<&Entry>
        ensures { option_copied result ≡ lookup (int_eq key) (numbered 0 self.now) }
    {
        match self.find(key) {
            Some(place) => Some(&self.entries[place]),
            None => None,
        }
    }

    /// Whether a number is a key.
    #[inline(always)]
    pub(crate) fn has(&self, key: i64) -> bool
        ensures { result ≡ is_some (lookup (int_eq key) (numbered 0 self.now)) }
    {
        self.get(key).is_some()
    }

    /// The value of a number, if it is a key, to be changed.
    #[inline(always)]
    pub(crate) fn get_mut(&mut self, key: i64) -> Option<&mut Value>
        ensures* writes_back { sem 𝓛 (LendsPlace self.entry key result) }
        ensures value { option_copied_mut result ≡ option_map (λ e. e.value) (lookup (int_eq key) (numbered 0 self.old)) }
    {
        match self.find(key) {
            Some(place) => {
                let entry = &mut self.entries[place];
                Some(&mut entry.value)
            }
            None => None,
        }
    }

    /// Where a number that is no key may be added: at its place among these, or behind them. Not
    /// where half of the numbers would be no keys.
    #[inline(always)]
    pub(crate) fn place_for(&self, key: i64) -> Option<usize>
        ensures { IfSome result (λ place. (key ≡ pos place) × (place ≤ length self.now + 1)) }
    {
        if key < 0 {
            return None;
        }
        let place = key as usize;
        let length = self.entries.len();
        let next = place == length && (length < FEW || self.live >= length / 2);
        if place < length || next || length == 0 && place == 1 {
            Some(place)
        } else {
            None
        }
    }

    /// Adds a number that is no key, at its place. The fault is `Memory`, and changes nothing.
    #[inline]
    pub(crate) fn add(&mut self, place: usize, entry: Entry) -> Result<(), ValueFault>
        requires new { lookup (int_eq (pos place)) (numbered 0 self.old) ≡ None }
        requires near { place ≤ length self.old + 1 }
        requires kept { is_gone entry ≡ false }
        ensures added { OnOk result (IsPermutation (numbered 0 self.old ++ (pos place, entry) ∷ []) (numbered 0 self.new)) }
        ensures unchanged { OnErr result (numbered 0 self.new ≡ numbered 0 self.old) }
        ensures fault { IfErr result (λ fault. fault ≡ Memory) }
    {
        reach(&mut self.entries, place)?;
        put(&mut self.entries, place, entry)?;
        self.live += 1;
        Ok(())
    }

    /// Removes a number, if it is a key, and tells whether it was one. Takes no memory.
    pub(crate) fn remove(&mut self, key: i64) -> bool
        ensures rest { numbered 0 self.new ≡ remove_entry (int_eq key) (numbered 0 self.old) }
        ensures told { result ≡ is_some (lookup (int_eq key) (numbered 0 self.old)) }
    {
        let Some(place) = self.find(key) else {
            return false;
        };
        drop(mem::replace(&mut self.entries[place], gap()));
        self.live -= 1;
        trim(&mut self.entries);
        true
    }

    /// No number is a key any more. Takes no memory.
    pub(crate) fn clear(&mut self)
        ensures { self.new ≡ [] }
    {
        self.entries.clear();
        self.live = 0;
    }
}
