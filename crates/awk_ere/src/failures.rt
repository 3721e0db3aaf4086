// What searches over one text have shown: of some of its places, with which positions no match goes on to an end.

ghost use Rattle.std.specs.Prelude.{◌≡◌, ℕ, ◌*◌, ◌<◌, ◌≤◌, ◌⊎◌, List, true, false, length, slice_index_or};
ghost use Rattle.std.specs.Prelude.{IfSome, OnOk};

use crate::pattern::Pattern;
use std::alloc::{AllocError, Global};

/// What searches for one pattern over one text have shown: of some of its places, with which positions no match goes on to an
/// end. So what one search has read in vain, the next ones don't read again.
#[derive(Drop)]
pub struct Failures {
    alloc: Global,
    /// How far the places lie apart. A row is no longer.
    pub(crate) spacing: usize,
    /// For each place, as far as they are known, a flag for each position.
    pub(crate) rows: Vec<Vec<bool>>,
    ghost apart: { 0 < spacing },
}

// How far the places lie apart where a pattern is small.
const SPACING: usize = 256;

// Whether each position that is set in one row is set in another.
fn is_within(one: &[bool], other: &[bool]) -> bool
    ensures { result ≡ true → (n : ℕ) → slice_index_or one.now n false ≡ true → slice_index_or other.now n false ≡ true }
{
    for n in 0..one.len() {
        if one[n] && other.get(n) != Some(&true) {
            return false;
        }
    }
    true
}

// Sets the positions of one row in another, as far as this reaches.
fn unite(row: &mut [bool], positions: &[bool])
    ensures { (n : ℕ) → slice_index_or row.new n false ≡ true →
        (slice_index_or row.old n false ≡ true) ⊎ (slice_index_or positions.now n false ≡ true) }
{
    for n in 0..row.len() {
        if positions.get(n) == Some(&true) {
            row[n] = true;
        }
    }
}

impl Failures {
    ghost use Rattle.awk_ere.specs.support.Failures.{is_marked, AreFailures};

    /// Nothing is known yet of a text that is searched for this pattern. Takes no memory.
    pub fn for_pattern(pattern: &Pattern) -> Failures
        ensures { (s : List ℕ) → AreFailures pattern.now s result }
    {
        let alloc = *pattern.program.instructions.allocator();
        Failures {
            alloc,
            spacing: SPACING.max(pattern.program.instructions.len()),
            rows: Vec::new(alloc),
        }
    }

    /// Nothing is known of a text that is searched once for this pattern, and nothing is kept. Takes no memory.
    pub fn for_one_search(pattern: &Pattern) -> Failures
        ensures { (s : List ℕ) → AreFailures pattern.now s result }
    {
        let alloc = *pattern.program.instructions.allocator();
        Failures {
            alloc,
            spacing: usize::MAX,
            rows: Vec::new(alloc),
        }
    }

    /// The next place of which something may be known, or the end where that is near.
    #[inline(always)]
    pub(crate) fn next_place(&self, place: usize, len: usize) -> usize
        requires { place ≤ len }
        ensures order { place ≤ result }
        ensures within { result ≤ len }
    {
        if len - place <= self.spacing {
            return len;
        }
        place - place % self.spacing + self.spacing
    }

    /// The number of a place of which something may be known.
    #[inline(always)]
    pub(crate) fn number_of(&self, place: usize) -> Option<usize>
        ensures { IfSome result (λ number. place ≡ number * self.now.spacing) }
    {
        if place % self.spacing == 0 {
            Some(place / self.spacing)
        } else {
            None
        }
    }

    /// Whether at the place of this number no match goes on to an end with any of these positions.
    pub(crate) fn cover(&self, number: usize, positions: &[bool]) -> bool
        ensures { result ≡ true → (n : ℕ) →
            slice_index_or positions.now n false ≡ true → is_marked self.now number n ≡ true }
    {
        match self.rows.as_slice().get(number) {
            Some(row) => is_within(positions, row.as_slice()),
            None => false,
        }
    }

    // Makes a row of this number, where there is none.
    fn make_rows(&mut self, number: usize) -> Result<(), AllocError>
        ensures same { (k n : ℕ) → is_marked self.new k n ≡ is_marked self.old k n }
        ensures spacing { self.new.spacing ≡ self.old.spacing }
        ensures made { OnOk result (number < length self.new.rows.items) }
    {
        while self.rows.len() <= number {
            self.rows.push(Vec::new(self.alloc))?;
        }
        Ok(())
    }

    /// Keeps that at the place of this number no match goes on to an end with any of these positions.
    pub(crate) fn add(&mut self, number: usize, positions: &[bool]) -> Result<(), AllocError>
        ensures marked { (k n : ℕ) → is_marked self.new k n ≡ true → (is_marked self.old k n ≡ true)
            ⊎ ((k ≡ number) × (slice_index_or positions.now n false ≡ true)) }
        ensures spacing { self.new.spacing ≡ self.old.spacing }
    {
        self.make_rows(number)?;
        let row = &mut self.rows[number];
        if row.is_empty() {
            *row = Vec::from_slice(self.alloc, positions)?;
        } else {
            unite(row.as_mut_slice(), positions);
        }
        Ok(())
    }
}
