// The pieces of a text between the matches of a pattern.
ghost use Rattle.std.specs.Prelude.{◌≡◌, ◌≤◌, ◌<◌, ◌⊎◌, ◌++◌, ℕ, List, length, IfSome, IfOk, IfErr, OnOk};
ghost use Rattle.awk_ere.specs.definitions.Means.{Means};
ghost use Rattle.awk_ere.specs.definitions.Tree.{Tree};
ghost use Rattle.awk_ere.specs.support.Failures.{AreFailures};
ghost use Rattle.awk_ere.specs.support.Table.{IsFor};
ghost use Rattle.awk_text.specs.definitions.Fields.{ere_pieces, ere_pieces_from, IsNextPiece, IsFurther};
ghost use Rattle.awk_text.specs.definitions.Pieces.{stretches_at, AreSpansOf};
ghost use Rattle.awk_text.specs.definitions.Separators.{IsNextSeparator};

use crate::{FoundField, Span, TextFault};
use awk_ere::{Failures, Pattern, Scratch};

// The next match with a byte in it that begins at a place or behind it: the first one, and of those that begin there the
// longest. Where the longest that begins at a place is empty, the search goes on behind that place.
fn next_full(
    pattern: &Pattern,
    scratch: &mut Scratch,
    failures: &mut Failures,
    text: &[u8],
    place: usize,
) -> Option<Span>
    requires same { IsFor scratch.old pattern.now }
    requires failures { AreFailures pattern.now text.now failures.old }
    requires within { place ≤ length text.now }
    ensures lies { IfSome result (λ m. (place ≤ m.start) × (m.start < m.end) × (m.end ≤ length text.now)) }
    ensures found { (t : Tree) → Means t pattern.now → IsNextSeparator t text.now place result }
    ensures same { IsFor scratch.new pattern.now }
    ensures failures { AreFailures pattern.now text.now failures.new }
{
    let mut from = place;
    while let Some((start, end)) = pattern.find_further(text, from, scratch, failures) {
        if start < end {
            return Some(Span { start, end });
        }
        if start == text.len() {
            return None;
        }
        from = start + 1;
    }
    None
}

// The next piece from a place on where one may begin: the front of the text, or right behind a match or the end.
#[inline(never)]
pub(crate) fn next_between(
    pattern: &Pattern,
    scratch: &mut Scratch,
    failures: &mut Failures,
    text: &[u8],
    from: usize,
) -> Option<FoundField>
    requires same { IsFor scratch.old pattern.now }
    requires failures { AreFailures pattern.now text.now failures.old }
    ensures piece { (t : Tree) → Means t pattern.now →
        IsNextPiece (ere_pieces_from t text.now) text.now from result }
    ensures further { IfSome result (IsFurther text.now from) }
    ensures same { IsFor scratch.new pattern.now }
    ensures failures { AreFailures pattern.now text.now failures.new }
{
    if text.is_empty() || from > text.len() {
        return None;
    }
    match next_full(pattern, scratch, failures, text, from) {
        Some(found) => Some(FoundField {
            span: Span {
                start: from,
                end: found.start,
            },
            rest: found.end,
        }),
        None => Some(FoundField {
            span: Span {
                start: from,
                end: text.len(),
            },
            rest: text.len() + 1,
        }),
    }
}

/// Fills `spans` with the pieces of the text that stand between the matches of a pattern with a byte in them, in their
/// order; an empty text has no piece. What `spans` held before is gone; on an `Err` what it holds is open. The only error is
/// `Memory`. (POSIX awk, String Functions: split)
pub fn split_between(
    pattern: &Pattern,
    scratch: &mut Scratch,
    text: &[u8],
    spans: &mut Vec<Span>,
) -> Result<(), TextFault>
    requires { IsFor scratch.old pattern.now }
    ensures pieces { (t : Tree) → Means t pattern.now →
        OnOk result (stretches_at text.now spans.new.items ≡ ere_pieces t text.now) }
    ensures within { OnOk result (AreSpansOf text.now spans.new.items) }
    ensures memory { IfErr result (λ e. e ≡ TextFault.Memory) }
    ensures same { IsFor scratch.new pattern.now }
{
    spans.clear();
    let mut failures = Failures::for_pattern(pattern);
    let mut from = 0;
    while let Some(found) = next_between(pattern, scratch, &mut failures, text, from) {
        spans.push(found.span)?;
        from = found.rest;
    }
    Ok(())
}

// How many pieces are found one by one, as they are asked for.
const FEW: usize = 16;

// Up to which index pieces are found where the one at an index is asked for. Where many were found, at least as many more
// are, so that few of the searches begin with nothing kept.
fn last_index(index: usize, found: usize) -> usize
    ensures { index ≤ result }
{
    if found < FEW {
        index
    } else {
        index.max(found.saturating_mul(2))
    }
}

// What is kept of the searches for the pieces from one index up to another: nothing of a single one.
fn failures_for(pattern: &Pattern, first: usize, last: usize) -> Failures
    ensures { (s : List ℕ) → AreFailures pattern.now s result }
{
    if first < last {
        Failures::for_pattern(pattern)
    } else {
        Failures::for_one_search(pattern)
    }
}

/// Adds to `spans` the pieces from `rest` on, where one may begin, until there is one at this index, or all are found. The
/// pieces that aren't found yet are then those from `rest` on. The only error is `Memory`.
pub(crate) fn find_between(
    pattern: &Pattern,
    scratch: &mut Scratch,
    text: &[u8],
    index: usize,
    spans: &mut Vec<Span>,
    rest: &mut usize,
) -> Result<(), TextFault>
    requires { IsFor scratch.old pattern.now }
    ensures pieces { (t : Tree) → Means t pattern.now →
        stretches_at text.now spans.new.items ++ ere_pieces_from t text.now rest.new
        ≡ stretches_at text.now spans.old.items ++ ere_pieces_from t text.now rest.old }
    ensures within { AreSpansOf text.now spans.old.items → AreSpansOf text.now spans.new.items }
    ensures found { IfOk result (λ _. (index < length spans.new.items) ⊎ (length text.now < rest.new)) }
    ensures memory { IfErr result (λ e. e ≡ TextFault.Memory) }
    ensures same { IsFor scratch.new pattern.now }
{
    let last = last_index(index, spans.len());
    let mut failures = failures_for(pattern, spans.len(), last);
    while spans.len() <= last {
        match next_between(pattern, scratch, &mut failures, text, *rest) {
            Some(found) => {
                spans.push(found.span)?;
                *rest = found.rest;
            }
            None => {
                *rest = text.len() + 1;
                return Ok(());
            }
        }
    }
    Ok(())
}
