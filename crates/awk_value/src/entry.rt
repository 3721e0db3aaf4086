// What is kept at a key.

ghost use Rattle.std.specs.Prelude.{◌≡◌, [], not, None, IfSome, IfNone, IfErr, OnOk, OnErr};
ghost use Rattle.std.specs.Map.{lookup};
ghost use Rattle.indexmap.specs.IndexMap.{insert_entry, swap_remove_entry, IsUnchanged};
ghost use Rattle.awk_value.specs.support.DenseKeys.{is_gone};
ghost use Rattle.awk_value.specs.support.Rows.{IsSet};
ghost use Rattle.awk_value.specs.declared.fault.ValueFault.TheVariants.{Memory};

use crate::hashing::Secret;
use crate::{Value, ValueFault};
use indexmap::IndexMap;
use std::alloc::AllocError;
use std::hash::Hash;

/// A value, and how many keys were made before its own.
#[derive(Drop)]
pub(crate) struct Entry {
    pub(crate) stamp: u64,
    pub(crate) value: Value,
}

/// Entries by keys, hashed with a secret.
pub(crate) type Entries<K> = IndexMap<K, Entry, Secret>;

/// How many keys a map has at most whose hashes have no secret: so a program with few keys asks the system for no random
/// bytes, which early in a boot may not be there yet.
const MOST_WITHOUT_SECRET: usize = 64;

/// The stamp of an entry at a place without a key.
pub(crate) const GONE: u64 = u64::MAX;

impl Entry {
    /// Whether it is that of a key, and none at a place without one.
    #[inline(always)]
    pub(crate) fn is_kept(&self) -> bool
        ensures { result ≡ not (is_gone self.now) }
    {
        self.stamp != GONE
    }
}

/// Hashes a map's keys with a secret from now on. The fault is `Memory`; the entries stay as they are.
#[inline(never)]
fn take_secret<K: Eq + Hash + Drop>(entries: &mut Entries<K>) -> Result<(), AllocError>
    ensures { IsUnchanged entries.old entries.new }
{
    let mut hashed = IndexMap::with_capacity_and_hasher(
        *entries.allocator(),
        entries.len(),
        Secret::new(),
    )?;
    hashed.append(entries)?;
    *entries = hashed;
    Ok(())
}

/// Adds an entry to a map, where a new key goes last. The fault is `Memory`, and changes nothing.
pub(crate) fn add_entry<K: Eq + Hash + Drop>(
    entries: &mut Entries<K>,
    key: K,
    entry: Entry,
) -> Result<(), ValueFault>
    ensures added { OnOk result (entries.new.entries ≡ insert_entry K.eq entries.old.entries key entry) }
    ensures unchanged { OnErr result (IsUnchanged entries.old entries.new) }
    ensures fault { IfErr result (λ fault. fault ≡ Memory) }
{
    if entries.len() >= MOST_WITHOUT_SECRET && entries.hasher().is_none() {
        take_secret(entries)?;
    }
    entries.insert(key, entry)?;
    Ok(())
}

/// Gives a key of a map the value. Where the key isn't there, the value comes back.
pub(crate) fn set_entry<K: Eq + Hash>(
    entries: &mut Entries<K>,
    key: &K,
    value: Value,
) -> Option<Value>
    ensures set { IfNone result (IsSet (K.eq key.now) entries.old.entries entries.new.entries value) }
    ensures absent { IfSome result (λ v. lookup (K.eq key.now) entries.old.entries ≡ None) }
    ensures unchanged { IfSome result (λ v. entries.new.entries ≡ entries.old.entries) }
    ensures value { IfSome result (λ v. v ≡ value) }
{
    match entries.get_mut(key) {
        Some(entry) => {
            entry.value = value;
            None
        }
        None => Some(value),
    }
}

/// Takes a key's entry out of a map, whose last entry moves to its place.
pub(crate) fn take_entry<K: Eq + Hash + Drop>(entries: &mut Entries<K>, key: &K)
    ensures { entries.new.entries ≡ swap_remove_entry (K.eq key.now) entries.old.entries }
{
    let _ = entries.swap_remove(key);
}

/// Empties a map, and gives back the memory of more keys than it held, so that clearing it costs
/// what it held and not the most that it ever did.
pub(crate) fn clear_entries<K: Eq + Hash + Drop>(entries: &mut Entries<K>)
    ensures { entries.new.entries ≡ [] }
{
    let held = entries.len();
    entries.clear();
    entries.shrink_to(held);
}
