// The transition table: the states that are known, and where each byte leads from them.

ghost use Rattle.std.specs.Prelude.{◌≡◌, ℕ, suc, ◌+◌, ◌-◌, ◌*◌, ◌<◌, ◌≤◌, ◌++◌, length, take, drop, slice_index};
ghost use Rattle.std.specs.Prelude.{slice_set, true, IfSome, IfOk, IfErr, replicate, false, if◌then◌else◌};
ghost use Rattle.awk_ere.specs.support.Layout.{stride, match_flag, state_bound, fixed_states, least_limit};
ghost use Rattle.awk_ere.specs.support.SimulationStep.{count_of};
ghost use Rattle.awk_ere.specs.support.Table.{Grows, IsTable, positions_at};

use crate::fault::PatternFault;
use crate::pattern::Pattern;
use crate::token::BYTE_COUNT;
use std::alloc::{AllocError, Global};

/// The states that are known, and where each byte leads from them.
#[derive(Drop)]
pub(crate) struct Table {
    /// The positions of the states, one state behind another. In the first two states no position is reached: they
    /// are that at the text's start, and the dead state behind it.
    pub(crate) rows: Vec<bool>,
    /// The entries of an unanchored search, where matches may begin, a row for each state, and one before them.
    pub(crate) unanchored: Vec<u32>,
    /// The entries of an anchored search, where none may.
    pub(crate) anchored: Vec<u32>,
    /// How many states there are.
    pub(crate) count: usize,
    /// How many states there is room for.
    pub(crate) limit: usize,
    /// For a hash of positions the number of the last state that was added under it. A table of least room has none.
    slots: Vec<u32>,
}

/// The entry for the end of the text, behind those for the bytes.
pub(crate) const END_OF_TEXT: usize = BYTE_COUNT;

/// How many entries a state has. A state is named by the place where they begin.
pub(crate) const STRIDE: usize = END_OF_TEXT + 1;

/// An entry that has not been computed yet. No state begins at this place.
pub(crate) const UNKNOWN: u32 = 0;

/// The state at the text's start, the first one.
pub(crate) const START: u32 = STRIDE as u32;

/// The dead state: no match has begun, behind the text's start. It is the second one.
pub(crate) const DEAD: u32 = 2 * STRIDE as u32;

/// What is added to an entry where a match ends before the byte: a bit that no state's name has.
pub(crate) const MATCH_FLAG: u32 = 1 << 31;

// The states that a table always has: that at the text's start, and the dead one.
const FIXED_STATES: usize = 2;

// How many states a table has room for at first.
const LEAST_LIMIT: usize = FIXED_STATES + 1;

// Writes a row among rows of one length.
fn write_row(rows: &mut [bool], number: usize, row: &[bool])
    requires { number * length row.now + length row.now ≤ length rows.old }
    ensures row { take (length row.now) (drop (number * length row.now) rows.new) ≡ row.now }
    ensures others { (d : ℕ) → d < number → take (length row.now) (drop (d * length row.now) rows.new)
        ≡ take (length row.now) (drop (d * length row.now) rows.old) }
    ensures len { length rows.new ≡ length rows.old }
{
    let n = row.len();
    let at = number * n;
    rows[at..at + n].copy_from_slice(row);
}

// How many bytes the states of a table may take.
const BUDGET: usize = 1 << 20;

// How many bytes the entries of one state take, in both tables.
const ENTRIES_SIZE: usize = 2 * STRIDE * size_of::<u32>();

// How many states there may be for each instruction, where the budget allows them.
const STATES_PER_INSTRUCTION: usize = 8;

// How many states a table for a program of this length may have.
fn limit_for(count: usize) -> usize
    ensures least { least_limit ≤ result }
    ensures most { result < state_bound }
{
    let wanted = count
        .saturating_add(1)
        .saturating_mul(STATES_PER_INSTRUCTION);
    let fits = BUDGET / count.saturating_add(ENTRIES_SIZE);
    wanted.min(fits).max(LEAST_LIMIT)
}

// The items, and then copies of a value up to a length.
fn enlarged<T: Copy>(alloc: Global, items: &[T], len: usize, value: T) -> Result<Vec<T>, AllocError>
    ensures { IfOk result (λ larger. larger.items ≡ items.now ++ replicate (len - length items.now) value) }
{
    let mut larger = Vec::with_capacity(alloc, len)?;
    larger.extend_from_slice(items)?;
    larger.resize(items.len().max(len), value)?;
    Ok(larger)
}

// Entries of so many states, and one before them, of which none is known.
fn unknown_entries(alloc: Global, limit: usize) -> Result<Vec<u32>, PatternFault>
    requires { limit < state_bound }
    ensures entries { IfOk result (λ entries. entries.items ≡ replicate (stride * suc limit) 0) }
    ensures fault { IfErr result (λ fault. fault ≡ PatternFault.Memory) }
{
    Ok(vec![in alloc; UNKNOWN; STRIDE * (limit + 1)]?)
}

// Makes each entry unknown.
fn forget(entries: &mut [u32])
    ensures unknown { (i : ℕ) → slice_index entries.new i ≡ 0 }
    ensures len { length entries.new ≡ length entries.old }
{
    entries.fill(UNKNOWN);
}

// How many bits a slot's number has.
const SLOT_BITS: u32 = 10;

// The numbers of the hash by Fowler, Noll and Vo (FNV-1a) of 64 bits.
const FNV_OFFSET_BASIS: u64 = 0xcbf2_9ce4_8422_2325;

const FNV_PRIME: u64 = 0x0000_0100_0000_01b3;

// The slot of a state's positions: the bits at both ends of their hash, of which the upper ones tell little of the last
// positions.
fn slot_of(positions: &[bool]) -> usize {
    let mut hash = FNV_OFFSET_BASIS;
    for position in positions {
        hash = (hash ^ u64::from(*position)).wrapping_mul(FNV_PRIME);
    }
    let folded = hash ^ (hash >> (u64::BITS - SLOT_BITS));
    (folded % (1 << SLOT_BITS)) as usize
}

// Keeps the number of a state in the slot of its positions, in the place of what was there.
fn remember(slots: &mut [u32], number: usize, positions: &[bool])
    requires { number < state_bound }
{
    if let Some(slot) = slots.get_mut(slot_of(positions)) {
        *slot = number as u32;
    }
}

// The entry that leads to the state with a number, where the flow leaves before the byte or not.
pub(crate) fn entry_to(number: usize, hit: bool) -> u32
    requires { number < state_bound }
    ensures { result ≡ stride * suc number + (if hit then match_flag else 0) }
{
    let name = (STRIDE * (number + 1)) as u32;
    if hit { name + MATCH_FLAG } else { name }
}

impl Table {
    /// A table of no state, for no search.
    pub(crate) fn empty(alloc: Global) -> Table {
        Table {
            rows: Vec::new(alloc),
            unanchored: Vec::new(alloc),
            anchored: Vec::new(alloc),
            count: 0,
            limit: 0,
            slots: Vec::new(alloc),
        }
    }

    /// A table of the first two states, with room for one more, for a program of this length.
    pub(crate) fn for_count(alloc: Global, count: usize) -> Result<Table, PatternFault>
        ensures limit { IfOk result (λ tb. tb.limit ≡ least_limit) }
        ensures count { IfOk result (λ tb. tb.count ≡ fixed_states) }
        ensures rows { IfOk result (λ tb. tb.rows.items ≡ replicate (tb.limit * count) false) }
        ensures unanchored { IfOk result (λ tb. tb.unanchored.items ≡ replicate (stride * suc tb.limit) 0) }
        ensures anchored { IfOk result (λ tb. tb.anchored.items ≡ replicate (stride * suc tb.limit) 0) }
        ensures fault { IfErr result (λ fault. fault ≡ PatternFault.Memory) }
    {
        let Some(len) = LEAST_LIMIT.checked_mul(count) else {
            return Err(PatternFault::Memory);
        };
        let rows = vec![in alloc; false; len]?;
        let unanchored = unknown_entries(alloc, LEAST_LIMIT)?;
        let anchored = unknown_entries(alloc, LEAST_LIMIT)?;
        Ok(Table {
            rows,
            unanchored,
            anchored,
            count: FIXED_STATES,
            limit: LEAST_LIMIT,
            slots: Vec::new(alloc),
        })
    }

    // The entries where matches may begin, or where none may.
    pub(crate) fn transitions(&self, entering: bool) -> &[u32]
        ensures { result.now ≡ (if entering then self.now.unanchored.items else self.now.anchored.items) }
    {
        if entering {
            self.unanchored.as_slice()
        } else {
            self.anchored.as_slice()
        }
    }

    // Writes an entry.
    pub(crate) fn set(&mut self, entering: bool, at: usize, entry: u32)
        requires { at < length (if entering then self.old.unanchored.items else self.old.anchored.items) }
        ensures unanchored { self.new.unanchored.items
            ≡ (if entering then slice_set self.old.unanchored.items at entry else self.old.unanchored.items) }
        ensures anchored { self.new.anchored.items
            ≡ (if entering then self.old.anchored.items else slice_set self.old.anchored.items at entry) }
        ensures rows { self.new.rows.items ≡ self.old.rows.items }
        ensures count { self.new.count ≡ self.old.count }
        ensures limit { self.new.limit ≡ self.old.limit }
    {
        if entering {
            self.unanchored[at] = entry;
        } else {
            self.anchored[at] = entry;
        }
    }

    // The positions of the state with a number.
    pub(crate) fn load(&self, number: usize, positions: &mut [bool])
        requires { number * length positions.old + length positions.old ≤ length self.now.rows.items }
        ensures { positions.new ≡ take (length positions.old) (drop (number * length positions.old) self.now.rows.items) }
    {
        let n = positions.len();
        let at = number * n;
        positions.copy_from_slice(&self.rows.as_slice()[at..at + n]);
    }

    // Writes the positions of the state with a number.
    pub(crate) fn store(&mut self, number: usize, positions: &[bool])
        requires within { number * length positions.now + length positions.now ≤ length self.old.rows.items }
        requires few { number < state_bound }
        ensures row { take (length positions.now) (drop (number * length positions.now) self.new.rows.items) ≡ positions.now }
        ensures others { (d : ℕ) → d < number →
            take (length positions.now) (drop (d * length positions.now) self.new.rows.items)
            ≡ take (length positions.now) (drop (d * length positions.now) self.old.rows.items) }
        ensures len { length self.new.rows.items ≡ length self.old.rows.items }
        ensures unanchored { self.new.unanchored.items ≡ self.old.unanchored.items }
        ensures anchored { self.new.anchored.items ≡ self.old.anchored.items }
        ensures count { self.new.count ≡ self.old.count }
        ensures limit { self.new.limit ≡ self.old.limit }
    {
        write_row(self.rows.as_mut_slice(), number, positions);
        remember(self.slots.as_mut_slice(), number, positions);
    }

    // Whether the state with a number has these positions.
    fn has_row(&self, number: usize, positions: &[bool]) -> bool
        requires { number * length positions.now + length positions.now ≤ length self.now.rows.items }
        ensures { result ≡ true →
            take (length positions.now) (drop (number * length positions.now) self.now.rows.items) ≡ positions.now }
    {
        let n = positions.len();
        let at = number * n;
        let row = &self.rows.as_slice()[at..at + n];
        row == positions
    }

    // The number of a state with these positions, but for the first. The dead state is always found, so it has one name.
    // Others are looked for in one slot, so they may be missed.
    pub(crate) fn find(&self, positions: &[bool]) -> Option<usize>
        requires { self.now.count * length positions.now ≤ length self.now.rows.items }
        ensures { IfSome result (λ d. (0 < d) × (d < self.now.count)
            × (take (length positions.now) (drop (d * length positions.now) self.now.rows.items) ≡ positions.now)) }
    {
        if 1 < self.count && self.has_row(1, positions) {
            return Some(1);
        }
        let number = *self.slots.get(slot_of(positions))? as usize;
        if number == 0 || self.count <= number {
            return None;
        }
        if self.has_row(number, positions) {
            Some(number)
        } else {
            None
        }
    }

    // Forgets all states but the first two.
    fn clear(&mut self)
        ensures unanchored { (i : ℕ) → slice_index self.new.unanchored.items i ≡ 0 }
        ensures anchored { (i : ℕ) → slice_index self.new.anchored.items i ≡ 0 }
        ensures unanchored_len { length self.new.unanchored.items ≡ length self.old.unanchored.items }
        ensures anchored_len { length self.new.anchored.items ≡ length self.old.anchored.items }
        ensures rows { self.new.rows.items ≡ self.old.rows.items }
        ensures count { self.new.count ≡ fixed_states }
        ensures limit { self.new.limit ≡ self.old.limit }
    {
        forget(self.unanchored.as_mut_slice());
        forget(self.anchored.as_mut_slice());
        self.count = FIXED_STATES;
    }

    // The same table with room for so many states.
    fn with_limit(&self, limit: usize, count: usize) -> Result<Table, AllocError>
        requires more { self.now.limit ≤ limit }
        requires few { limit < state_bound }
        ensures table { IfOk result (λ tb. (p : Pattern) → count ≡ count_of p → IsTable p self.now → IsTable p tb) }
        ensures count { IfOk result (λ tb. tb.count ≡ self.now.count) }
        ensures limit { IfOk result (λ tb. tb.limit ≡ limit) }
    {
        let Some(len) = limit.checked_mul(count) else {
            return Err(AllocError);
        };
        let alloc = *self.rows.allocator();
        let entries_len = STRIDE * (limit + 1);
        Ok(Table {
            rows: enlarged(alloc, &self.rows, len, false)?,
            unanchored: enlarged(alloc, &self.unanchored, entries_len, UNKNOWN)?,
            anchored: enlarged(alloc, &self.anchored, entries_len, UNKNOWN)?,
            count: self.count,
            limit,
            slots: enlarged(alloc, &self.slots, 1 << SLOT_BITS, 0)?,
        })
    }

    /// Makes room for one more state, for a program of this length. Where there may be more states and memory is given they
    /// stay, and else all but the first two are forgotten.
    pub(crate) fn make_room(&mut self, count: usize)
        requires least { least_limit ≤ self.old.limit }
        requires few { self.old.limit < state_bound }
        requires full { self.old.count ≤ self.old.limit }
        ensures table { (p : Pattern) → count ≡ count_of p → IsTable p self.old → IsTable p self.new }
        ensures room { self.new.count < self.new.limit }
        ensures few { self.new.limit < state_bound }
    {
        let limit = limit_for(count).min(2 * self.limit);
        if self.limit < limit
            && let Ok(larger) = self.with_limit(limit, count)
        {
            *self = larger;
        } else {
            self.clear();
        }
    }

    // The number of the state of these positions, where there is one or room for one.
    pub(crate) fn find_or_add(&mut self, positions: &[bool]) -> Option<usize>
        requires some { 0 < self.old.count }
        requires count { self.old.count ≤ self.old.limit }
        requires few { self.old.limit < state_bound }
        requires rows { self.old.limit * length positions.now ≤ length self.old.rows.items }
        ensures known { IfSome result (λ d. (0 < d) × (d < self.new.count)) }
        ensures positions { IfSome result
            (λ d. (p : Pattern) → length positions.now ≡ count_of p → positions_at p self.new.rows.items d ≡ positions.now) }
        ensures grows { (p : Pattern) → length positions.now ≡ count_of p → Grows p self.old self.new }
        ensures unanchored { self.new.unanchored.items ≡ self.old.unanchored.items }
        ensures anchored { self.new.anchored.items ≡ self.old.anchored.items }
    {
        match self.find(positions) {
            Some(number) => Some(number),
            None if self.count < self.limit => Some(self.add(positions)),
            None => None,
        }
    }

    // A new state of these positions.
    pub(crate) fn add(&mut self, positions: &[bool]) -> usize
        requires room { self.old.count < self.old.limit }
        requires few { self.old.limit < state_bound }
        requires rows { self.old.limit * length positions.now ≤ length self.old.rows.items }
        ensures number { result ≡ self.old.count }
        ensures positions { (p : Pattern) → length positions.now ≡ count_of p →
            positions_at p self.new.rows.items result ≡ positions.now }
        ensures grows { (p : Pattern) → length positions.now ≡ count_of p → Grows p self.old self.new }
        ensures count { self.new.count ≡ self.old.count + 1 }
        ensures unanchored { self.new.unanchored.items ≡ self.old.unanchored.items }
        ensures anchored { self.new.anchored.items ≡ self.old.anchored.items }
    {
        let number = self.count;
        self.store(number, positions);
        self.count += 1;
        number
    }
}
