// Texts of keys with their stamps, all in one block of bytes.

ghost use Rattle.std.specs.Prelude.{◌≡◌, ◌++◌, ◌∷◌, [], map, IsPermutation, nat_lt, IfOk, OnOk};
ghost use Rattle.std.specs.List.{All};
ghost use Rattle.std.specs.List.Sorted.{IsNonDecreasingBy};
ghost use Rattle.awk_value.specs.support.Rows.{row_in, IsRowIn};

use crate::Bytes;
use std::alloc::{AllocError, Global};
use std::marker::Model;

/// Where a key's text stands in the block, and the key's stamp.
#[derive(Clone, Copy)]
pub(crate) struct KeyRow {
    pub(crate) stamp: u64,
    pub(crate) start: usize,
    pub(crate) end: usize,
}

/// Texts of keys with their stamps. They stand one behind the other, so that all of them take one block of memory.
#[derive(Drop)]
pub(crate) struct KeyRows {
    rows: Vec<KeyRow>,
    block: Vec<u8>,
}

impl Model for KeyRows {
    ghost use Rattle.std.specs.Prelude.{List, ℕ, map};
    ghost use Rattle.std.specs.List.{All};

    ghost Value = { List (ℕ × List ℕ) };

    ghost use Rattle.awk_value.specs.support.Rows.{row_in, IsRowIn};

    ghost view = { λ k. map (row_in k.block.items) k.rows.items };

    ghost invariant = { λ k. All (IsRowIn k.block.items) k.rows.items };
}

impl KeyRows {
    /// No rows yet, and room for so many.
    pub(crate) fn with_capacity(alloc: Global, count: usize) -> Result<KeyRows, AllocError>
        ensures { IfOk result (λ rows. rows ≡ []) }
    {
        Ok(KeyRows {
            rows: Vec::with_capacity(alloc, count)?,
            block: Vec::new(alloc),
        })
    }

    /// Adds a row.
    #[inline]
    pub(crate) fn add(&mut self, stamp: u64, text: &[u8]) -> Result<(), AllocError>
        ensures { OnOk result (self.new ≡ self.old ++ (stamp, text.now) ∷ []) }
    {
        let start = self.block.len();
        self.block.extend_from_slice(text)?;
        let end = self.block.len();
        self.rows.push(KeyRow { stamp, start, end })?;
        Ok(())
    }

    /// Puts the rows in the order of their stamps. Sorts only where they aren't.
    pub(crate) fn sort(&mut self) -> Result<(), AllocError>
        ensures moved { IsPermutation self.old self.new }
        ensures ordered { OnOk result (IsNonDecreasingBy (λ r. r.0) self.new) }
    {
        sort_by_stamp(&mut self.rows)
    }

    /// The rows' texts, which share one block of memory where they are long.
    pub(crate) fn into_texts(self, alloc: Global) -> Result<Vec<Bytes>, AllocError>
        ensures { IfOk result (λ texts. texts.items ≡ map (λ r. r.1) self) }
    {
        let block = Bytes::from_vec(alloc, self.block)?;
        texts_in(alloc, &block, self.rows)
    }
}

/// The rows' texts, which are cut from the block.
fn texts_in(alloc: Global, block: &Bytes, rows: Vec<KeyRow>) -> Result<Vec<Bytes>, AllocError>
    requires { All (IsRowIn block.now) rows.items }
    ensures { IfOk result (λ texts. texts.items ≡ map (λ row. (row_in block.now row).1) rows.items) }
{
    let mut texts = Vec::with_capacity(alloc, rows.len())?;
    for row in rows {
        texts.push(block.cut(row.start, row.end)?)?;
    }
    Ok(texts)
}

/// Puts rows in the order of their stamps. Sorts only where they aren't.
fn sort_by_stamp(rows: &mut Vec<KeyRow>) -> Result<(), AllocError>
    ensures moved { IsPermutation rows.old.items rows.new.items }
    ensures ordered { OnOk result (IsNonDecreasingBy (λ r. r.stamp) rows.new.items) }
{
    let rise = rows.is_sorted_by(
        |x: &KeyRow, y: &KeyRow| -> bool
            ensures { result ≡ nat_lt x.now.stamp y.now.stamp }
        { x.stamp < y.stamp },
    );
    if rise {
        return Ok(());
    }
    rows.sort_by_key(
        |row: &KeyRow| -> u64
            ensures { result ≡ row.now.stamp }
        { row.stamp },
    )
}
