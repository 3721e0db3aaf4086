// What is kept at a long text.

ghost use Rattle.std.specs.Prelude.{◌≡◌, None, bytes_eq, IfSome, IfNone, IfErr, OnOk, OnErr};
ghost use Rattle.std.specs.Map.{lookup};
ghost use Rattle.indexmap.specs.IndexMap.{swap_remove_entry, IsUnchanged};
ghost use Rattle.awk_value.specs.support.Rows.{IsAdded, IsSet};
ghost use Rattle.awk_value.specs.declared.fault.ValueFault.TheVariants.{Memory};

use crate::entry::{Entries, Entry, add_entry};
use crate::{Value, ValueFault};
use std::alloc::Global;

/// As `add_entry`, at a copy of a text.
pub(crate) fn add_text(
    alloc: Global,
    entries: &mut Entries<Vec<u8>>,
    key: &[u8],
    entry: Entry,
) -> Result<(), ValueFault>
    ensures added { OnOk result (IsAdded key.now entries.old.entries entries.new.entries entry) }
    ensures unchanged { OnErr result (IsUnchanged entries.old entries.new) }
    ensures fault { IfErr result (λ fault. fault ≡ Memory) }
{
    let copy = Vec::from_slice(alloc, key)?;
    add_entry(entries, copy, entry)
}

/// As `set_entry`, at a text.
pub(crate) fn set_text(entries: &mut Entries<Vec<u8>>, key: &[u8], value: Value) -> Option<Value>
    ensures set { IfNone result (IsSet (λ k. bytes_eq key.now k.items) entries.old.entries entries.new.entries value) }
    ensures absent { IfSome result (λ v. lookup (λ k. bytes_eq key.now k.items) entries.old.entries ≡ None) }
    ensures unchanged { IfSome result (λ v. entries.new.entries ≡ entries.old.entries) }
    ensures value { IfSome result (λ v. v ≡ value) }
{
    match entries.get_mut(key) {
        Some(entry) => {
            entry.value = value;
            None
        }
        None => Some(value),
    }
}

/// As `take_entry`, at a text.
pub(crate) fn take_text(entries: &mut Entries<Vec<u8>>, key: &[u8])
    ensures { entries.new.entries ≡ swap_remove_entry (λ k. bytes_eq key.now k.items) entries.old.entries }
{
    let _ = entries.swap_remove(key);
}
