// What a search has read in vain is kept for the next ones over the same text.

ghost use Rattle.std.specs.Prelude.{◌≡◌, ℕ, ◌≤◌, Bool, List, true, length};
ghost use Rattle.awk_ere.specs.definitions.Means.{Means};
ghost use Rattle.awk_ere.specs.definitions.Tree.{Tree, Matches};
ghost use Rattle.awk_ere.specs.support.CursorState.{Stood};
ghost use Rattle.awk_ere.specs.support.Failures.{AreFailures, NoneGoesOn, NoneEndsBehind};
ghost use Rattle.awk_ere.specs.support.Found.{between};
ghost use Rattle.awk_ere.specs.support.Table.{IsKnown, IsState, IsTable, Serves};

use crate::dfa::cursor::Cursor;
use crate::dfa::table::{DEAD, STRIDE, Table};
use crate::failures::Failures;
use crate::pattern::Pattern;
use crate::scratch::Scratch;

impl Pattern {
    // The positions of the state with a name.
    fn positions_in<'a>(&self, table: &'a Table, state: u32) -> &'a [bool]
        requires table { IsTable self.now table.now }
        requires known { IsKnown table.now state }
        ensures { (st : Bool) (cs : List Bool) → IsState self.now table.now state st cs → result.now ≡ cs }
    {
        let count = self.program.instructions.len();
        let at = (state as usize / STRIDE - 1) * count;
        &table.rows.as_slice()[at..at + count]
    }

    /// Whether it is known that none of the matches that have begun goes on to an end at or behind the cursor's place.
    #[inline(always)]
    pub(crate) fn has_failed(&self, table: &Table, failures: &Failures, cursor: Cursor) -> bool
        requires table { IsTable self.now table.now }
        requires known { IsKnown table.now cursor.state }
        ensures { result ≡ true → (s : List ℕ) → AreFailures self.now s failures.now → (t : Tree) (from : ℕ → Bool) →
            Means t self.now → Stood self.now table.now s t from cursor → NoneGoesOn s t from cursor.place }
    {
        if cursor.state == DEAD {
            return true;
        }
        if failures.rows.is_empty() {
            return false;
        }
        match failures.number_of(cursor.place) {
            Some(number) => failures.cover(number, self.positions_in(table, cursor.state)),
            None => false,
        }
    }

    /// Reads once more, where matches begin at a place from `low` up to `high`, and keeps what their search has shown: none of
    /// them ends behind `end`. It does without where memory is refused.
    #[inline(never)]
    pub(crate) fn learn(
        &self,
        text: &[u8],
        low: usize,
        high: usize,
        end: usize,
        scratch: &mut Scratch,
        failures: &mut Failures,
    )
        requires same { Serves scratch.old self.now }
        requires failures { AreFailures self.now text.now failures.old }
        requires order { (low ≤ high) × ((high ≤ end) × (end ≤ length text.now)) }
        requires none { (t : Tree) → Means t self.now → NoneEndsBehind t text.now (between low high) end }
        ensures same { Serves scratch.new self.now }
        ensures failures { AreFailures self.now text.now failures.new }
    {
        let len = text.len();
        if len - end <= failures.spacing {
            return;
        }
        let mut cursor = Cursor::begin(low);
        'bytes: while cursor.place < len {
            cursor = self.advance(scratch, cursor.place <= high, text, cursor);
            if cursor.place > high {
                let to = failures.next_place(cursor.place, len);
                cursor = self.last_loop(&scratch.table, text, to, cursor);
                if !self.keep_failure(&scratch.table, failures, cursor, end) {
                    return;
                }
            }
        }
    }

    // Keeps that none of the matches that have begun goes on to an end behind `end`, where that may be kept. Answers whether
    // there may be more to be kept.
    fn keep_failure(
        &self,
        table: &Table,
        failures: &mut Failures,
        cursor: Cursor,
        end: usize,
    ) -> bool
        requires table { IsTable self.now table.now }
        requires known { IsKnown table.now cursor.state }
        ensures { (s : List ℕ) (from : ℕ → Bool) → AreFailures self.now s failures.old →
            ((t : Tree) → Means t self.now → Stood self.now table.now s t from cursor) →
            ((t : Tree) → Means t self.now → NoneEndsBehind t s from end) → AreFailures self.now s failures.new }
    {
        if cursor.state == DEAD {
            return false;
        }
        if cursor.place <= end {
            return true;
        }
        let Some(number) = failures.number_of(cursor.place) else {
            return true;
        };
        let positions = self.positions_in(table, cursor.state);
        !failures.cover(number, positions) && failures.add(number, positions).is_ok()
    }
}
