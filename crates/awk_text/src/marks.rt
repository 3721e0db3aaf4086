// Which bytes of a text separate its fields, by a bit for each, looked at many at a time.
ghost use Rattle.std.specs.Prelude.{◌≡◌, ◌+◌, ◌≤◌, ◌<◌, ◌==◌, ◌||◌, ℕ, Bool, List, length};
ghost use Rattle.awk_text.specs.definitions.Pieces.{is_blank_or_newline};
ghost use Rattle.awk_text.specs.support.Stretch.{AreMarks, is_kind_at};
ghost use Rattle.awk_text.specs.support.MarksLeft.{AreLeft, AreTurnsLeft, IsNextPlace, is_turn};

use std::simd::prelude::*;

// How many bytes are looked at together where there are so many, and where there are fewer.
const MANY: usize = 64;

const SOME: usize = 16;

/// What separates fields by single bytes.
pub(crate) trait Separates {
    ghost separates: { Self → ℕ → Bool };

    /// Which of these bytes separate, a bit for each.
    fn among_many(&self, bytes: u8x64) -> u64
        ensures { AreMarks (is_kind_at (separates self.now) bytes) 0 64 result };

    /// The same of fewer.
    fn among_some(&self, bytes: u8x16) -> u64
        ensures { AreMarks (is_kind_at (separates self.now) bytes) 0 16 result };
}

/// Spaces, tabs and newlines.
#[derive(Clone, Copy)]
struct BlankMarks;

/// A byte.
#[derive(Clone, Copy)]
pub(crate) struct ByteMarks(pub(crate) u8);

/// A byte, or a newline.
#[derive(Clone, Copy)]
pub(crate) struct LineMarks(pub(crate) u8);

impl Separates for BlankMarks {
    ghost separates = { λ _. is_blank_or_newline };

    #[inline(always)]
    fn among_many(&self, bytes: u8x64) -> u64 {
        let blanks = bytes.simd_eq(u8x64::splat(b' '))
            | bytes.simd_eq(u8x64::splat(b'\t'))
            | bytes.simd_eq(u8x64::splat(b'\n'));
        blanks.to_bitmask()
    }

    #[inline(always)]
    fn among_some(&self, bytes: u8x16) -> u64 {
        let blanks = bytes.simd_eq(u8x16::splat(b' '))
            | bytes.simd_eq(u8x16::splat(b'\t'))
            | bytes.simd_eq(u8x16::splat(b'\n'));
        blanks.to_bitmask()
    }
}

impl Separates for ByteMarks {
    ghost separates = { λ byte other. other == byte.0 };

    #[inline(always)]
    fn among_many(&self, bytes: u8x64) -> u64 {
        bytes.simd_eq(u8x64::splat(self.0)).to_bitmask()
    }

    #[inline(always)]
    fn among_some(&self, bytes: u8x16) -> u64 {
        bytes.simd_eq(u8x16::splat(self.0)).to_bitmask()
    }
}

impl Separates for LineMarks {
    ghost separates = { λ byte other. other == byte.0 || other == 10 };

    #[inline(always)]
    fn among_many(&self, bytes: u8x64) -> u64 {
        let marks = bytes.simd_eq(u8x64::splat(self.0)) | bytes.simd_eq(u8x64::splat(b'\n'));
        marks.to_bitmask()
    }

    #[inline(always)]
    fn among_some(&self, bytes: u8x16) -> u64 {
        let marks = bytes.simd_eq(u8x16::splat(self.0)) | bytes.simd_eq(u8x16::splat(b'\n'));
        marks.to_bitmask()
    }
}

// Which of the bytes of a text that has few separate.
#[inline(never)]
fn marks_in_few<S: Separates>(separates: &S, text: &[u8]) -> u64
    requires { length text.now < SOME }
    ensures { AreMarks (is_kind_at (S.separates separates.now) text.now) 0 (length text.now) result }
{
    let mut room = [0; SOME];
    room[..text.len()].copy_from_slice(text);
    separates.among_some(u8x16::from_array(room)) & ((1 << text.len()) - 1)
}

// Which of the bytes from a place on separate, a bit for each, and how many bytes that are: one at least.
#[inline(always)]
fn marks_from<S: Separates>(separates: &S, text: &[u8], at: usize) -> (u64, usize)
    requires { at < length text.now }
    ensures marks { AreMarks (is_kind_at (S.separates separates.now) text.now) at result.1 result.0 }
    ensures some { 0 < result.1 }
    ensures few { result.1 ≤ MANY }
    ensures within { at + result.1 ≤ length text.now }
{
    if text.len() - at >= MANY {
        return (separates.among_many(u8x64::from_slice(&text[at..])), MANY);
    }
    marks_near_end(separates, text, at)
}

// The same where few bytes are left: with those before them, if there are so many.
#[inline(never)]
fn marks_near_end<S: Separates>(separates: &S, text: &[u8], at: usize) -> (u64, usize)
    requires few { length text.now < at + MANY }
    requires within { at < length text.now }
    ensures marks { AreMarks (is_kind_at (S.separates separates.now) text.now) at result.1 result.0 }
    ensures some { 0 < result.1 }
    ensures few { result.1 ≤ MANY }
    ensures within { at + result.1 ≤ length text.now }
{
    let left = text.len() - at;
    if text.len() >= MANY {
        let last = text.len() - MANY;
        let bits = separates.among_many(u8x64::from_slice(&text[last..]));
        return (bits >> (at - last), left);
    }
    if left >= SOME {
        return (separates.among_some(u8x16::from_slice(&text[at..])), SOME);
    }
    if text.len() >= SOME {
        let last = text.len() - SOME;
        let bits = separates.among_some(u8x16::from_slice(&text[last..]));
        return (bits >> (at - last), left);
    }
    (marks_in_few(separates, text) >> at, left)
}

/// The places of a text that are looked for: of the bytes from `base` up to `end` those that weren't given yet have a bit each.
#[derive(Clone, Copy)]
pub(crate) struct Marks {
    base: usize,
    bits: u64,
    end: usize,
}

impl Marks {
    /// None was looked for yet, from a place on.
    #[inline(always)]
    pub(crate) fn behind(place: usize) -> Marks
        ensures left { (test : ℕ → Bool) → AreLeft test place result }
        ensures end { result.end ≡ place }
    {
        Marks {
            base: place,
            bits: 0,
            end: place,
        }
    }

    // Takes the first of the places that are known.
    #[inline(always)]
    fn take(&mut self) -> usize
        requires some { 0 < self.old.bits }
        requires left { (test : ℕ → Bool) × (from : ℕ) × AreLeft test from self.old }
        ensures next { (test : ℕ → Bool) (from : ℕ) → AreLeft test from self.old → IsNextPlace test self.old.end from result }
        ensures within { result < self.old.end }
        ensures left { (test : ℕ → Bool) (from : ℕ) → AreLeft test from self.old → AreLeft test (result + 1) self.new }
        ensures end { self.new.end ≡ self.old.end }
    {
        let place = self.base + self.bits.trailing_zeros() as usize;
        self.bits &= self.bits - 1;
        place
    }

    /// The next place where a byte separates, or the end.
    #[inline(always)]
    pub(crate) fn next<S: Separates>(&mut self, separates: &S, text: &[u8]) -> usize
        requires within { self.old.end ≤ length text.now }
        requires left { (from : ℕ) × AreLeft (is_kind_at (S.separates separates.now) text.now) from self.old }
        ensures next { (from : ℕ) → AreLeft (is_kind_at (S.separates separates.now) text.now) from self.old
            → IsNextPlace (is_kind_at (S.separates separates.now) text.now) (length text.now) from result }
        ensures left { (from : ℕ) → AreLeft (is_kind_at (S.separates separates.now) text.now) from self.old → result < length text.now
            → AreLeft (is_kind_at (S.separates separates.now) text.now) (result + 1) self.new }
        ensures within { self.new.end ≤ length text.now }
    {
        while self.bits == 0 {
            if self.end == text.len() {
                return text.len();
            }
            let (bits, count) = marks_from(separates, text, self.end);
            self.base = self.end;
            self.bits = bits;
            self.end += count;
        }
        self.take()
    }
}

/// The places of a text where blanks begin or end, before which a blank stands.
#[derive(Clone, Copy)]
pub(crate) struct Turns {
    marks: Marks,
    // a bit, where the last byte that was looked at is a blank
    before: u64,
}

impl Turns {
    /// None was looked for yet, from a place on that stands behind a blank or in front.
    #[inline(always)]
    pub(crate) fn behind(place: usize) -> Turns
        ensures { (s : List ℕ) → place ≤ length s → AreTurnsLeft s place place result }
    {
        Turns {
            marks: Marks::behind(place),
            before: 1,
        }
    }

    /// The next place where a blank stands behind a byte that is none, or the other way round, or the end.
    #[inline(always)]
    pub(crate) fn next(&mut self, text: &[u8]) -> usize
        requires { (first from : ℕ) × AreTurnsLeft text.now first from self.old }
        ensures next { (first from : ℕ) → AreTurnsLeft text.now first from self.old
            → IsNextPlace (is_turn text.now first) (length text.now) from result }
        ensures left { (first from : ℕ) → AreTurnsLeft text.now first from self.old → result < length text.now
            → AreTurnsLeft text.now first (result + 1) self.new }
        ensures end { (first from : ℕ) → AreTurnsLeft text.now first from self.old → result ≡ length text.now
            → AreTurnsLeft text.now first result self.new }
    {
        while self.marks.bits == 0 {
            let at = self.marks.end;
            if at == text.len() {
                return text.len();
            }
            let (blanks, count) = marks_from(&BlankMarks, text, at);
            let turns = blanks ^ (blanks << 1 | self.before);
            self.before = blanks >> (count - 1) & 1;
            self.marks = Marks {
                base: at,
                bits: turns & (u64::MAX >> (MANY - count)),
                end: at + count,
            };
        }
        self.marks.take()
    }
}
