// A cursor over a text, which the transition table moves on.

ghost use Rattle.std.specs.Prelude.{◌≡◌, ◌⊎◌, ℕ, ◌+◌, ◌<◌, ◌≤◌, Bool, List, true, false};
ghost use Rattle.std.specs.Prelude.{length, Option, None, Some, IsSome, ◌-◌, ◌^◌};
ghost use Rattle.awk_ere.specs.definitions.Tree.{Tree};
ghost use Rattle.awk_ere.specs.definitions.Means.{Means};
ghost use Rattle.awk_ere.specs.support.Layout.{first_state, dead_state, match_flag};
ghost use Rattle.awk_ere.specs.support.Table.{IsKnown, IsState, IsEntry, IsTable, Serves};
ghost use Rattle.awk_ere.specs.support.CursorState.{Stood, Enters};
ghost use Rattle.awk_ere.specs.support.Found.{EndsWithin};

use crate::dfa::table::{DEAD, MATCH_FLAG, START, Table, UNKNOWN};
use crate::pattern::Pattern;
use crate::scratch::Scratch;

/// How far a text is read: up to a place, in a state, and where the last match ended before the place.
#[derive(Clone, Copy)]
pub(crate) struct Cursor {
    pub(crate) place: usize,
    pub(crate) state: u32,
    pub(crate) end: Option<usize>,
}

// How many bytes the fast loop reads before `skip` is tried again.
const BLOCK: usize = 32;

// Among fewer bytes the first ones are not searched for.
const SHORT: usize = 32;

/// The state at a place before which no match has begun.
pub(crate) fn first_state(place: usize) -> u32
    ensures { result ≡ first_state place }
{
    if place == 0 { START } else { DEAD }
}

impl Cursor {
    /// At a place, before which no match has begun.
    pub(crate) fn begin(place: usize) -> Cursor
        ensures place { result.place ≡ place }
        ensures state { result.state ≡ first_state place }
        ensures end { result.end ≡ None }
    {
        Cursor {
            place,
            state: first_state(place),
            end: None,
        }
    }

    // One byte further, by an entry.
    fn onto(self, entry: u32) -> Cursor
        requires { self.place + 1 < 2 ^ 64 }
        ensures place { result.place ≡ self.place + 1 }
        ensures miss { entry < match_flag → (result.state ≡ entry) × (result.end ≡ self.end) }
        ensures hit { match_flag ≤ entry → (result.state ≡ entry - match_flag) × (result.end ≡ Some self.place) }
    {
        let place = self.place + 1;
        if entry < MATCH_FLAG {
            Cursor {
                place,
                state: entry,
                end: self.end,
            }
        } else {
            Cursor {
                place,
                state: entry - MATCH_FLAG,
                end: Some(self.place),
            }
        }
    }
}

impl Pattern {
    /// Where a byte leads from a state.
    pub(crate) fn entry(&self, scratch: &mut Scratch, state: u32, entering: bool, byte: u8) -> u32
        requires same { Serves scratch.old self.now }
        requires known { IsKnown scratch.old.table state }
        ensures some { 0 < result }
        ensures entry { (st : Bool) (cs : List Bool) → IsState self.now scratch.old.table state st cs →
            IsEntry self.now scratch.new.table st entering cs byte result }
        ensures same { Serves scratch.new self.now }
    {
        let known = scratch.table.transitions(entering)[state as usize + byte as usize];
        if known != UNKNOWN {
            return known;
        }
        self.compute_transition(scratch, state, entering, byte)
    }

    // Reads one byte.
    pub(crate) fn advance(
        &self,
        scratch: &mut Scratch,
        entering: bool,
        text: &[u8],
        cursor: Cursor,
    ) -> Cursor
        requires same { Serves scratch.old self.now }
        requires known { IsKnown scratch.old.table cursor.state }
        requires within { cursor.place < length text.now }
        ensures place { result.place ≡ cursor.place + 1 }
        ensures end { (low : ℕ) → low ≤ cursor.place → EndsWithin low cursor.place cursor.end →
            EndsWithin low result.place result.end }
        ensures known { IsKnown scratch.new.table result.state }
        ensures stood { (t : Tree) (from : ℕ → Bool) → Means t self.now → entering ≡ from cursor.place →
            Stood self.now scratch.old.table text.now t from cursor → Stood self.now scratch.new.table text.now t from result }
        ensures same { Serves scratch.new self.now }
    {
        let entry = self.entry(scratch, cursor.state, entering, text[cursor.place]);
        cursor.onto(entry)
    }

    // Skips bytes up to a place, as long as no match has begun and none begins.
    fn skip(
        &self,
        scratch: &Scratch,
        entering: bool,
        text: &[u8],
        to: usize,
        cursor: Cursor,
    ) -> Cursor
        requires same { Serves scratch.now self.now }
        requires known { IsKnown scratch.now.table cursor.state }
        requires order { cursor.place ≤ to }
        requires within { to ≤ length text.now }
        ensures order { cursor.place ≤ result.place }
        ensures within { result.place ≤ to }
        ensures state { result.state ≡ cursor.state }
        ensures stood { (t : Tree) (from : ℕ → Bool) → Means t self.now → Enters from entering cursor.place to →
            Stood self.now scratch.now.table text.now t from cursor → Stood self.now scratch.now.table text.now t from result }
    {
        if cursor.state != DEAD {
            return cursor;
        }
        if !entering || scratch.anchored_at_start {
            return Cursor {
                place: to,
                ..cursor
            };
        }
        if to - cursor.place >= SHORT
            && let Some(skipped) = scratch.first_bytes.find(&text[cursor.place..to])
        {
            return Cursor {
                place: cursor.place + skipped,
                ..cursor
            };
        }
        let transitions = scratch.table.unanchored.as_slice();
        for k in cursor.place..to {
            if transitions[DEAD as usize + text[k] as usize] != DEAD {
                return Cursor { place: k, ..cursor };
            }
        }
        Cursor {
            place: to,
            ..cursor
        }
    }

    // The fast loop: reads on up to a place, as long as the entries are known and no match ends. It stops at a state where
    // no match has begun if none is to come.
    fn fast_loop(
        &self,
        table: &Table,
        entering: bool,
        stops: bool,
        text: &[u8],
        to: usize,
        cursor: Cursor,
    ) -> Cursor
        requires table { IsTable self.now table.now }
        requires known { IsKnown table.now cursor.state }
        requires order { cursor.place ≤ to }
        requires within { to ≤ length text.now }
        ensures order { cursor.place ≤ result.place }
        ensures within { result.place ≤ to }
        ensures known { IsKnown table.now result.state }
        ensures end { result.end ≡ cursor.end }
        ensures stood { (t : Tree) (from : ℕ → Bool) → Means t self.now → Enters from entering cursor.place result.place →
            Stood self.now table.now text.now t from cursor → Stood self.now table.now text.now t from result }
    {
        let transitions = table.transitions(entering);
        let floor = if stops { DEAD } else { UNKNOWN };
        let mut state = cursor.state;
        for k in cursor.place..to {
            let entry = transitions[state as usize + text[k] as usize];
            if entry <= floor || entry >= MATCH_FLAG {
                return Cursor {
                    place: k,
                    state,
                    end: cursor.end,
                };
            }
            state = entry;
        }
        Cursor {
            place: to,
            state,
            end: cursor.end,
        }
    }

    // Reads on up to a place, or up to the first end of a match.
    pub(crate) fn scan(
        &self,
        scratch: &mut Scratch,
        entering: bool,
        text: &[u8],
        to: usize,
        cursor: Cursor,
    ) -> Cursor
        requires same { Serves scratch.old self.now }
        requires known { IsKnown scratch.old.table cursor.state }
        requires order { cursor.place ≤ to }
        requires within { to ≤ length text.now }
        ensures order { cursor.place ≤ result.place }
        ensures within { result.place ≤ to }
        ensures reached { (result.place ≡ to) ⊎ IsSome result.end }
        ensures known { IsKnown scratch.new.table result.state }
        ensures stood { (t : Tree) (from : ℕ → Bool) → Means t self.now → Enters from entering cursor.place to →
            Stood self.now scratch.old.table text.now t from cursor → Stood self.now scratch.new.table text.now t from result }
        ensures same { Serves scratch.new self.now }
    {
        let stops = !entering || scratch.anchored_at_start;
        let mut cursor = cursor;
        'bytes: while cursor.place < to {
            cursor = self.advance(scratch, entering, text, cursor);
            if cursor.end.is_some() {
                return cursor;
            }
            cursor = self.skip(scratch, entering, text, to, cursor);
            let near = to.min(cursor.place.saturating_add(BLOCK));
            cursor = self.fast_loop(&scratch.table, entering, stops, text, near, cursor);
        }
        cursor
    }

    // Reads on, where matches may begin, up to the first end of a match, to where none that has begun goes on, or to the
    // text's end.
    pub(crate) fn run(&self, scratch: &mut Scratch, text: &[u8], cursor: Cursor) -> Cursor
        requires same { Serves scratch.old self.now }
        requires known { IsKnown scratch.old.table cursor.state }
        requires within { cursor.place ≤ length text.now }
        ensures order { cursor.place ≤ result.place }
        ensures within { result.place ≤ length text.now }
        ensures further { cursor.place < length text.now → cursor.place < result.place }
        ensures stopped { (result.place ≡ length text.now) ⊎ (IsSome result.end ⊎ result.state ≡ dead_state) }
        ensures known { IsKnown scratch.new.table result.state }
        ensures stood { (t : Tree) (from : ℕ → Bool) → Means t self.now → Enters from true cursor.place result.place →
            Stood self.now scratch.old.table text.now t from cursor → Stood self.now scratch.new.table text.now t from result }
        ensures same { Serves scratch.new self.now }
    {
        let len = text.len();
        let mut cursor = cursor;
        'bytes: while cursor.place < len {
            cursor = self.advance(scratch, true, text, cursor);
            if cursor.end.is_some() || cursor.state == DEAD {
                return cursor;
            }
            cursor = self.fast_loop(&scratch.table, true, true, text, len, cursor);
        }
        cursor
    }

    // Reads on up to a place, where no match begins, past the ends of those that have begun, as long as the entries are known
    // and one goes on.
    pub(crate) fn last_loop(&self, table: &Table, text: &[u8], to: usize, cursor: Cursor) -> Cursor
        requires table { IsTable self.now table.now }
        requires known { IsKnown table.now cursor.state }
        requires order { cursor.place ≤ to }
        requires within { to ≤ length text.now }
        ensures order { cursor.place ≤ result.place }
        ensures within { result.place ≤ to }
        ensures end { (low : ℕ) → low ≤ cursor.place → EndsWithin low cursor.place cursor.end →
            EndsWithin low result.place result.end }
        ensures known { IsKnown table.now result.state }
        ensures stood { (t : Tree) (from : ℕ → Bool) → Means t self.now → Enters from false cursor.place to →
            Stood self.now table.now text.now t from cursor → Stood self.now table.now text.now t from result }
    {
        let transitions = table.anchored.as_slice();
        let mut state = cursor.state;
        let mut end = cursor.end;
        for k in cursor.place..to {
            if state == DEAD {
                return Cursor {
                    place: k,
                    state,
                    end,
                };
            }
            let entry = transitions[state as usize + text[k] as usize];
            if entry == UNKNOWN {
                return Cursor {
                    place: k,
                    state,
                    end,
                };
            }
            if entry < MATCH_FLAG {
                state = entry;
            } else {
                state = entry - MATCH_FLAG;
                end = Some(k);
            }
        }
        Cursor {
            place: to,
            state,
            end,
        }
    }
}
