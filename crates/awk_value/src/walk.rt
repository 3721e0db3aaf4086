// The keys in their order: all entries' texts with their stamps, sorted where the stamps don't rise.

ghost use Rattle.std.specs.Prelude.{◌≡◌, ◌++◌, ◌∷◌, [], map, IfOk, IfErr, OnOk};
ghost use Rattle.std.specs.Fmt.{signed_decimal};
ghost use Rattle.awk_value.specs.support.Texts.{short_text};
ghost use Rattle.awk_value.specs.support.DenseKeys.{numbered};
ghost use Rattle.awk_value.specs.support.Rows.{AreByStamp};
ghost use Rattle.awk_value.specs.declared.fault.ValueFault.TheVariants.{Memory};

use crate::entry::{Entries, Entry};
use crate::key_rows::KeyRows;
use crate::numbers::Numbers;
use crate::short_text::ShortText;
use crate::{Bytes, ValueFault};
use itoa::Buffer;
use std::alloc::{AllocError, Global};

/// The texts of the keys of three maps, in the order of their stamps, with room for so many rows. The
/// fault is `Memory`.
pub(crate) fn keys_by_stamp(
    alloc: Global,
    count: usize,
    numbers: &Numbers,
    shorts: &Entries<ShortText>,
    longs: &Entries<Vec<u8>>,
) -> Result<Vec<Bytes>, ValueFault>
    ensures keys { IfOk result (λ texts. AreByStamp texts.items
        (map (λ e. (e.1.stamp, signed_decimal e.0)) numbers.now
        ++ map (λ e. (e.1.stamp, short_text e.0)) shorts.now.entries
        ++ map (λ e. (e.1.stamp, e.0.items)) longs.now.entries)) }
    ensures fault { IfErr result (λ fault. fault ≡ Memory) }
{
    let mut rows = KeyRows::with_capacity(alloc, count)?;
    list_numbers(numbers, &mut rows)?;
    list_shorts(shorts, &mut rows)?;
    list_longs(longs, &mut rows)?;
    rows.sort()?;
    Ok(rows.into_texts(alloc)?)
}

/// Adds the numbers' decimal forms with their stamps.
fn list_numbers(numbers: &Numbers, rows: &mut KeyRows) -> Result<(), AllocError>
    ensures { OnOk result (rows.new
        ≡ rows.old ++ map (λ e. (e.1.stamp, signed_decimal e.0)) numbers.now) }
{
    list_dense(numbers.dense.entries(), rows)?;
    list_sparse(&numbers.sparse, rows)
}

/// Adds the decimal forms of those of the numbers from 0 on that are keys, with their stamps.
fn list_dense(entries: &[Entry], rows: &mut KeyRows) -> Result<(), AllocError>
    ensures { OnOk result (rows.new
        ≡ rows.old ++ map (λ e. (e.1.stamp, signed_decimal e.0)) (numbered 0 entries.now)) }
{
    let mut buffer = Buffer::new();
    let mut number = 0;
    while number < entries.len() {
        list_place(number, &entries[number], &mut buffer, rows)?;
        number += 1;
    }
    Ok(())
}

/// Adds the decimal form of a number with its stamp, if it is a key.
fn list_place(
    number: usize,
    entry: &Entry,
    buffer: &mut Buffer,
    rows: &mut KeyRows,
) -> Result<(), AllocError>
    ensures { OnOk result (rows.new
        ≡ rows.old ++ map (λ e. (e.1.stamp, signed_decimal e.0)) (numbered number (entry.now ∷ []))) }
{
    if !entry.is_kept() {
        return Ok(());
    }
    rows.add(entry.stamp, buffer.format(number).as_bytes())
}

/// Adds the decimal forms of numbers with their stamps, in the map's order.
fn list_sparse(entries: &Entries<i64>, rows: &mut KeyRows) -> Result<(), AllocError>
    ensures { OnOk result (rows.new
        ≡ rows.old ++ map (λ e. (e.1.stamp, signed_decimal e.0)) entries.now.entries) }
{
    let mut buffer = Buffer::new();
    for (key, entry) in entries.iter() {
        rows.add(entry.stamp, buffer.format(*key).as_bytes())?;
    }
    Ok(())
}

/// Adds the short texts with their stamps, in the map's order.
fn list_shorts(entries: &Entries<ShortText>, rows: &mut KeyRows) -> Result<(), AllocError>
    ensures { OnOk result (rows.new
        ≡ rows.old ++ map (λ e. (e.1.stamp, short_text e.0)) entries.now.entries) }
{
    for (key, entry) in entries.iter() {
        let (bytes, len) = key.bytes();
        rows.add(entry.stamp, &bytes[..len])?;
    }
    Ok(())
}

/// Adds the long texts with their stamps, in the map's order.
fn list_longs(entries: &Entries<Vec<u8>>, rows: &mut KeyRows) -> Result<(), AllocError>
    ensures { OnOk result (rows.new
        ≡ rows.old ++ map (λ e. (e.1.stamp, e.0.items)) entries.now.entries) }
{
    for (key, entry) in entries.iter() {
        rows.add(entry.stamp, key.as_slice())?;
    }
    Ok(())
}
