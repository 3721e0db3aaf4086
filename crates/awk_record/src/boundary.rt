// Where the first record of the bytes at hand ends: at a separator, or at a blank line.
ghost use Rattle.std.specs.Prelude.{◌≡◌, ℕ, List, ◌≤◌, ◌<◌, ◌∷◌, [], length, take, drop};
ghost use Rattle.awk_record.specs.definitions.Cut.{without_newline, cut_of, cut_behind, limited, unfinished};
ghost use Rattle.awk_record.specs.support.Boundary.{cut_by, trim_if, end_if, IsWithin, AreNewlines, HasNoWord};
ghost use Rattle.awk_record.specs.support.Boundary.{IsKnown, IsSkipped, Skips, IsShort};

use crate::separator_search::{Progress, first_separator, first_word, leading_newlines};

/// Where the first record of the bytes at hand lies.
#[derive(Clone, Copy)]
pub enum Boundary {
    /// The record from `from` up to `to`, and where what follows its separator begins.
    Stretch { from: usize, to: usize, next: usize },
    /// The input has ended, and no record is left.
    Empty,
    /// No record is whole. So many newlines were skipped.
    Unfinished { skipped: usize },
    /// The record is too long.
    Over,
}

/// The most bytes of a record with what is skipped before it and its separator.
pub(crate) const LONGEST: usize = 1_073_741_824;

/// What ends a paragraph.
const BLANK_LINE: &[u8] = b"\n\n";

// How many of the bytes are left without one newline at their end.
fn trimmed_len(bytes: &[u8]) -> usize
    ensures value { take result bytes.now ≡ without_newline bytes.now }
    ensures within { result ≤ length bytes.now }
{
    let n = bytes.len();
    if n > 0 && bytes[n - 1] == b'\n' {
        n - 1
    } else {
        n
    }
}

// The boundary where no separator stands behind the skipped bytes.
fn boundary_at_end(skipped: usize, trims: bool, held: &[u8], at_end: bool) -> Boundary
    requires { skipped ≤ length held.now }
    ensures value { cut_by result held.now
        ≡ limited (length held.now) (unfinished (trim_if trims) (drop skipped held.now) (end_if at_end)) }
    ensures within { IsWithin (length held.now) result }
    ensures skips { (separator : List ℕ) → IsSkipped separator skipped held.now → Skips separator held.now result }
    ensures short { IsShort (length held.now) result }
{
    if held.len() > LONGEST {
        return Boundary::Over;
    }
    if !at_end {
        return Boundary::Unfinished { skipped };
    }
    let bytes = &held[skipped..];
    if bytes.is_empty() {
        return Boundary::Empty;
    }
    let len = if trims {
        trimmed_len(bytes)
    } else {
        bytes.len()
    };
    Boundary::Stretch {
        from: skipped,
        to: skipped + len,
        next: held.len(),
    }
}

// The boundary at a separator of one or more bytes, which doesn't stand among the first `searched` bytes.
fn separator_boundary(separator: &[u8], held: &[u8], searched: usize, at_end: bool) -> Boundary
    requires some { 0 < length separator.now }
    requires within { searched ≤ length held.now }
    requires none { HasNoWord separator.now 0 searched held.now }
    ensures value { cut_by result held.now ≡ cut_behind 0 separator.now (λ b. b) held.now (end_if at_end) }
    ensures within { IsWithin (length held.now) result }
    ensures short { IsShort (length held.now) result }
{
    let Some(to) = first_separator(separator, held, searched) else {
        return boundary_at_end(0, false, held, at_end);
    };
    let next = to + separator.len();
    if next > LONGEST {
        return Boundary::Over;
    }
    Boundary::Stretch { from: 0, to, next }
}

// The boundary at a blank line, which doesn't stand among the first `searched` bytes behind the newlines in front, of
// which so many are known.
fn paragraph_boundary(held: &[u8], known: usize, searched: usize, at_end: bool) -> Boundary
    requires known { known ≤ length held.now }
    requires within { searched ≤ length held.now }
    requires front { AreNewlines known held.now }
    requires none { HasNoWord (10 ∷ 10 ∷ []) known searched held.now }
    ensures value { cut_by result held.now ≡ cut_of [] held.now (end_if at_end) }
    ensures within { IsWithin (length held.now) result }
    ensures skips { Skips [] held.now result }
    ensures short { IsShort (length held.now) result }
{
    let from = leading_newlines(held, known);
    let Some(len) = first_word(BLANK_LINE, held, from, searched) else {
        return boundary_at_end(from, true, held, at_end);
    };
    let next = from + (len + 2);
    if next > LONGEST {
        return Boundary::Over;
    }
    Boundary::Stretch {
        from,
        to: from + len,
        next,
    }
}

/// The boundary of the first record, if the input has ended behind the bytes
/// at hand, or else if it broke, where so much is known of the separator.
pub(crate) fn first_boundary(
    separator: &[u8],
    held: &[u8],
    progress: Progress,
    at_end: bool,
) -> Boundary
    requires skipped { progress.skipped ≤ length held.now }
    requires searched { progress.searched ≤ length held.now }
    requires known { IsKnown separator.now progress held.now }
    ensures value { cut_by result held.now ≡ cut_of separator.now held.now (end_if at_end) }
    ensures within { IsWithin (length held.now) result }
    ensures skips { Skips separator.now held.now result }
    ensures short { IsShort (length held.now) result }
{
    match separator {
        [] => paragraph_boundary(held, progress.skipped, progress.searched, at_end),
        [_, ..] => separator_boundary(separator, held, progress.searched, at_end),
    }
}
