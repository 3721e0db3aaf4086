// Searches for a pattern by cursors over a text. A match is looked for at the first place where one may begin, and then in
// the first stretch of places where one is known to begin: at the first of them, and by halving.

ghost use Rattle.std.specs.Prelude.{◌≡◌, ◌↔◌, ℕ, ◌≤◌, true, false, length, IfSome, OnSome};
ghost use Rattle.memchr.specs.Find.{FindsNeedle};
ghost use Rattle.awk_ere.specs.definitions.Tree.{Tree, NoneFrom, Finds, Occurs};
ghost use Rattle.awk_ere.specs.definitions.Means.{Means, occurs, HasNoneUpTo};
ghost use Rattle.awk_ere.specs.support.Table.{IsFor, Serves};
ghost use Rattle.awk_ere.specs.support.Required.{PassesOver};
ghost use Rattle.awk_ere.specs.support.Failures.{AreFailures};
ghost use Rattle.awk_ere.specs.support.Found.{EndsWithin, IsOneByte, Longest, OccursBetween, EndsAt, Begins, BeginsWithin};

use crate::dfa::cursor::Cursor;
use crate::failures::Failures;
use crate::pattern::Pattern;
use crate::required::LONG;
use crate::run::first_run;
use crate::scratch::Scratch;
use memchr::memchr;
use memchr::memmem::Finder;

// The first place of the text that a pattern is. Many are one byte.
#[inline(always)]
fn find_literal(finder: &Finder<'static>, text: &[u8]) -> Option<usize>
    ensures { FindsNeedle text.now finder.now 0 result }
{
    match finder.needle() {
        [byte] => memchr(*byte, text),
        _ => finder.find(text),
    }
}

impl Pattern {
    // A cursor behind the longest match that begins at `from`, with the match's end. One byte is read where a match begins,
    // and the rest where none does, up to where none goes on to a further end.
    #[inline(always)]
    fn longest_from(
        &self,
        text: &[u8],
        from: usize,
        scratch: &mut Scratch,
        failures: &Failures,
    ) -> Cursor
        requires same { Serves scratch.old self.now }
        requires failures { AreFailures self.now text.now failures.now }
        requires within { from ≤ length text.now }
        ensures order { from ≤ result.place }
        ensures within { result.place ≤ length text.now }
        ensures end { EndsWithin from result.place result.end }
        ensures found { (t : Tree) → Means t self.now → Longest t text.now from result.end }
        ensures same { Serves scratch.new self.now }
    {
        let len = text.len();
        let mut cursor = Cursor::begin(from);
        'bytes: while cursor.place < len {
            cursor = self.advance(scratch, cursor.place == from, text, cursor);
            let to = failures.next_place(cursor.place, len);
            cursor = self.last_loop(&scratch.table, text, to, cursor);
            if self.has_failed(&scratch.table, failures, cursor) {
                return cursor;
            }
        }
        if self.leaves_at_end(scratch, cursor.state, from == len) {
            return Cursor {
                end: Some(len),
                ..cursor
            };
        }
        cursor
    }

    // The end of the longest match that begins at `from`. Where much was read behind it in vain, this is kept.
    #[inline(always)]
    fn longest_end(
        &self,
        text: &[u8],
        from: usize,
        scratch: &mut Scratch,
        failures: &mut Failures,
    ) -> Option<usize>
        requires same { Serves scratch.old self.now }
        requires failures { AreFailures self.now text.now failures.old }
        requires within { from ≤ length text.now }
        ensures within { EndsWithin from (length text.now) result }
        ensures found { (t : Tree) → Means t self.now → Longest t text.now from result }
        ensures same { Serves scratch.new self.now }
        ensures failures { AreFailures self.now text.now failures.new }
    {
        let cursor = self.longest_from(text, from, scratch, failures);
        let end = cursor.end.unwrap_or(from);
        if cursor.place - end > failures.spacing {
            self.learn(text, from, from, end, scratch, failures);
        }
        cursor.end
    }

    // Where a match ends, wherever it begins: the first end that is met.
    #[inline(always)]
    fn first_end(&self, text: &[u8], scratch: &mut Scratch) -> Option<usize>
        requires { Serves scratch.old self.now }
        ensures found { (t : Tree) → Means t self.now → EndsAt t text.now 0 (length text.now) result }
        ensures same { Serves scratch.new self.now }
    {
        let len = text.len();
        let cursor = self.scan(scratch, true, text, len, Cursor::begin(0));
        if cursor.end.is_some() {
            return cursor.end;
        }
        if self.leaves_at_end(scratch, cursor.state, true) {
            return Some(len);
        }
        cursor.end
    }

    // Where a match ends that begins at a place from `low` up to `high`: the first end that is met. The text is read
    // unanchored up to `high`, where the last match may begin, and anchored from there to its end, or to where no match that
    // has begun goes on to an end.
    fn end_between(
        &self,
        text: &[u8],
        low: usize,
        high: usize,
        scratch: &mut Scratch,
        failures: &Failures,
    ) -> Option<usize>
        requires same { Serves scratch.old self.now }
        requires failures { AreFailures self.now text.now failures.now }
        requires order { low ≤ high }
        requires within { high ≤ length text.now }
        ensures found { (t : Tree) → Means t self.now → EndsAt t text.now low high result }
        ensures same { Serves scratch.new self.now }
    {
        let len = text.len();
        let stop = len.min(high + 1);
        let mut cursor = self.scan(scratch, true, text, stop, Cursor::begin(low));
        if cursor.end.is_some() {
            return cursor.end;
        }
        'bytes: while cursor.place < len {
            let to = failures.next_place(cursor.place + 1, len);
            cursor = self.scan(scratch, false, text, to, cursor);
            if cursor.end.is_some() {
                return cursor.end;
            }
            if self.has_failed(&scratch.table, failures, cursor) {
                return cursor.end;
            }
        }
        if self.leaves_at_end(scratch, cursor.state, high == len) {
            return Some(len);
        }
        cursor.end
    }

    // Between which places the leftmost match at or behind `from` begins: the first place behind which a match that ends
    // first has begun, and that end.
    #[inline(never)]
    fn window(&self, text: &[u8], from: usize, scratch: &mut Scratch) -> Option<(usize, usize)>
        requires same { Serves scratch.old self.now }
        requires within { from ≤ length text.now }
        ensures within { IfSome result (λ w. (from ≤ w.0) × ((w.0 ≤ length text.now) × (w.1 ≤ length text.now))) }
        ensures found { (t : Tree) → Means t self.now → BeginsWithin t text.now from result }
        ensures same { Serves scratch.new self.now }
    {
        let len = text.len();
        let mut low = from;
        'runs: while low <= len {
            low = self.next_candidate(text, low, scratch);
            let cursor = self.run(scratch, text, Cursor::begin(low));
            if let Some(end) = cursor.end {
                return Some((low, len.min(end)));
            }
            if cursor.place == len {
                return if self.leaves_at_end(scratch, cursor.state, true) {
                    Some((low, len))
                } else {
                    None
                };
            }
            low = cursor.place;
        }
        None
    }

    // Where the leftmost match begins, of those that begin at a place from `low` up to `high`. There is one. The places
    // that are tried first are `low` alone, and then further on by a width that doubles.
    #[inline(never)]
    fn first_between(
        &self,
        text: &[u8],
        low: usize,
        high: usize,
        scratch: &mut Scratch,
        failures: &mut Failures,
    ) -> usize
        requires same { Serves scratch.old self.now }
        requires failures { AreFailures self.now text.now failures.old }
        requires low { low ≤ length text.now }
        requires high { high ≤ length text.now }
        ensures order { low ≤ result }
        ensures within { result ≤ length text.now }
        ensures found { (t : Tree) → Means t self.now → OccursBetween t text.now low high →
            Begins t text.now low (Some result) }
        ensures same { Serves scratch.new self.now }
        ensures failures { AreFailures self.now text.now failures.new }
    {
        let mut first = low;
        let mut last = high;
        let mut width: usize = 0;
        'halves: while first < last {
            let middle = first + width.min((last - first) / 2);
            width = width.saturating_mul(2).saturating_add(1);
            match self.end_between(text, first, middle, scratch, failures) {
                Some(end) => last = middle.min(end),
                None => {
                    self.learn(text, first, middle, middle, scratch, failures);
                    first = middle + 1;
                }
            }
        }
        first
    }
}

impl Pattern {
    // Whether the pattern matches somewhere in the text, by the table.
    #[inline]
    fn is_match_by_table(&self, text: &[u8], scratch: &mut Scratch) -> bool
        requires { Serves scratch.old self.now }
        ensures found { (t : Tree) → Means t self.now → (result ≡ true) ↔ Occurs t text.now }
        ensures decided { (t : Tree) → Means t self.now → result ≡ occurs t text.now }
        ensures same { Serves scratch.new self.now }
    {
        if text.len() >= LONG {
            self.count_search(scratch);
        }
        if !scratch.anchored_at_start && self.lacks_required(text, 0, scratch) {
            return false;
        }
        self.first_end(text, scratch).is_some()
    }

    // The leftmost match at or behind a place, and of those the longest, by the table.
    #[inline]
    fn find_by_table(
        &self,
        text: &[u8],
        from: usize,
        scratch: &mut Scratch,
        failures: &mut Failures,
    ) -> Option<(usize, usize)>
        requires same { Serves scratch.old self.now }
        requires failures { AreFailures self.now text.now failures.old }
        requires within { from ≤ length text.now }
        ensures within { IfSome result (λ m. (from ≤ m.0) × ((m.0 ≤ m.1) × (m.1 ≤ length text.now))) }
        ensures found { (t : Tree) → Means t self.now → Finds t text.now from result }
        ensures same { Serves scratch.new self.now }
        ensures failures { AreFailures self.now text.now failures.new }
    {
        if scratch.anchored_at_start {
            return self.find_at_start(text, from, scratch, failures);
        }
        if self.lacks_required(text, from, scratch) {
            return None;
        }
        let start = self.next_candidate(text, from, scratch);
        if let Some(end) = self.longest_end(text, start, scratch, failures) {
            return Some((start, end));
        }
        if start == text.len() {
            return None;
        }
        let (low, high) = self.window(text, start + 1, scratch)?;
        let start = self.first_between(text, low, high, scratch, failures);
        let end = self.longest_end(text, start, scratch, failures)?;
        Some((start, end))
    }

    // The same of a pattern whose matches all begin at the text's start: it is looked for there alone.
    #[inline(always)]
    fn find_at_start(
        &self,
        text: &[u8],
        from: usize,
        scratch: &mut Scratch,
        failures: &mut Failures,
    ) -> Option<(usize, usize)>
        requires same { Serves scratch.old self.now }
        requires anchored { scratch.old.anchored_at_start ≡ true }
        requires failures { AreFailures self.now text.now failures.old }
        requires within { from ≤ length text.now }
        ensures within { IfSome result (λ m. (from ≤ m.0) × ((m.0 ≤ m.1) × (m.1 ≤ length text.now))) }
        ensures found { (t : Tree) → Means t self.now → Finds t text.now from result }
        ensures same { Serves scratch.new self.now }
        ensures failures { AreFailures self.now text.now failures.new }
    {
        if from > 0 {
            return None;
        }
        let end = self.longest_end(text, 0, scratch, failures)?;
        Some((0, end))
    }

    /// Whether the pattern matches somewhere in the text. The time grows with the text. The scratch may take memory, within
    /// its bounds, and does without where memory is refused.
    pub fn is_match(&self, text: &[u8], scratch: &mut Scratch) -> bool
        requires { IsFor scratch.old self.now }
        ensures found { (t : Tree) → Means t self.now → (result ≡ true) ↔ Occurs t text.now }
        ensures decided { (t : Tree) → Means t self.now → result ≡ occurs t text.now }
        ensures same { IsFor scratch.new self.now }
    {
        if let Some(finder) = &scratch.literal {
            return find_literal(finder, text).is_some();
        }
        self.is_match_by_table(text, scratch)
    }

    /// The leftmost match at or behind a place of the text, and of those the longest: where it begins and
    /// where it ends (XBD 9.1). Both lie within the text, whatever the pattern means. The time grows with the text times its
    /// logarithm. The scratch may take memory, as in `is_match`.
    pub fn find_from(
        &self,
        text: &[u8],
        from: usize,
        scratch: &mut Scratch,
    ) -> Option<(usize, usize)>
        requires same { IsFor scratch.old self.now }
        requires within { from ≤ length text.now }
        ensures within { IfSome result (λ m. (from ≤ m.0) × ((m.0 ≤ m.1) × (m.1 ≤ length text.now))) }
        ensures found { (t : Tree) → Means t self.now → Finds t text.now from result }
        ensures same { IsFor scratch.new self.now }
    {
        let mut failures = Failures::for_one_search(self);
        self.find_further(text, from, scratch, &mut failures)
    }

    /// The same of a text that is searched again and again. What the searches have shown is kept, so that all of them take
    /// a time that grows with the text and the pattern's size together.
    pub fn find_further(
        &self,
        text: &[u8],
        from: usize,
        scratch: &mut Scratch,
        failures: &mut Failures,
    ) -> Option<(usize, usize)>
        requires same { IsFor scratch.old self.now }
        requires failures { AreFailures self.now text.now failures.old }
        requires within { from ≤ length text.now }
        ensures within { IfSome result (λ m. (from ≤ m.0) × ((m.0 ≤ m.1) × (m.1 ≤ length text.now))) }
        ensures found { (t : Tree) → Means t self.now → Finds t text.now from result }
        ensures same { IsFor scratch.new self.now }
        ensures failures { AreFailures self.now text.now failures.new }
    {
        if let Some(finder) = &scratch.literal {
            let start = from + find_literal(finder, &text[from..])?;
            return Some((start, start + self.program.instructions.len()));
        }
        if let Some(class) = self.run_class() {
            return first_run(class, text, from);
        }
        self.find_by_table(text, from, scratch, failures)
    }

    /// The byte that the pattern is, where it is known to be one: then its matches are the places where that stands.
    #[inline]
    pub fn literal_byte(&self, scratch: &Scratch) -> Option<u8>
        requires same { IsFor scratch.now self.now }
        ensures { IfSome result (λ byte. (t : Tree) → Means t self.now → IsOneByte t byte) }
    {
        let Some(finder) = &scratch.literal else {
            return None;
        };
        match finder.needle() {
            [byte] => Some(*byte),
            _ => None,
        }
    }

    /// How far a text can be passed over: no part of it that ends at or before this place has a match. It is the first
    /// place of a text that stands in each match, or the end. Nothing is answered where no such text is known.
    #[inline]
    pub fn skippable(&self, text: &[u8], scratch: &Scratch) -> Option<usize>
        requires same { IsFor scratch.now self.now }
        ensures within { IfSome result (λ place. place ≤ length text.now) }
        ensures none { IfSome result (λ place. (t : Tree) → Means t self.now → HasNoneUpTo t text.now place) }
        ensures place { PassesOver scratch.now.required text.now result }
    {
        let finder = scratch.required.as_ref()?;
        Some(finder.find(text).unwrap_or(text.len()))
    }
}
