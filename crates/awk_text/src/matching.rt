// Where the matches are that the language chooses.
ghost use Rattle.std.specs.Prelude.{◌≡◌, ◌+◌, ◌≤◌, ◌<◌, None, Some, length, IfSome};
ghost use Rattle.awk_ere.specs.definitions.Means.{Means};
ghost use Rattle.awk_ere.specs.support.Failures.{AreFailures};
ghost use Rattle.awk_ere.specs.support.Table.{IsFor};
ghost use Rattle.awk_ere.specs.definitions.Tree.{Tree};
ghost use Rattle.awk_text.specs.definitions.Pieces.{IsSpanOf};
ghost use Rattle.awk_text.specs.definitions.Chosen.{IsNextMatch};
ghost use Rattle.awk_text.specs.support.Search.{FindsFrom, IsLongest, LiesBehind};

use crate::Span;
use awk_ere::{Failures, Pattern, Scratch};

// The leftmost match at or behind a place, and of those the longest.
fn search_from(
    pattern: &Pattern,
    text: &[u8],
    from: usize,
    scratch: &mut Scratch,
    failures: &mut Failures,
) -> Option<Span>
    requires same { IsFor scratch.old pattern.now }
    requires failures { AreFailures pattern.now text.now failures.old }
    requires within { from ≤ length text.now }
    ensures lies { IfSome result (LiesBehind from text.now) }
    ensures found { (t : Tree) → Means t pattern.now → FindsFrom t text.now from result }
    ensures same { IsFor scratch.new pattern.now }
    ensures failures { AreFailures pattern.now text.now failures.new }
{
    match pattern.find_further(text, from, scratch, failures) {
        None => None,
        Some((start, end)) => Some(Span { start, end }),
    }
}

// The first match in the text, and of those that begin there the longest.
pub(crate) fn first_match(
    pattern: &Pattern,
    text: &[u8],
    scratch: &mut Scratch,
    failures: &mut Failures,
) -> Option<Span>
    requires same { IsFor scratch.old pattern.now }
    requires failures { AreFailures pattern.now text.now failures.old }
    ensures within { IfSome result (IsSpanOf text.now) }
    ensures found { (t : Tree) → Means t pattern.now → IsNextMatch t text.now None result }
    ensures same { IsFor scratch.new pattern.now }
    ensures failures { AreFailures pattern.now text.now failures.new }
{
    search_from(pattern, text, 0, scratch, failures)
}

/// The first match of the pattern in the text, and of those that begin there the longest: RSTART is its start and 1,
/// RLENGTH its length; where there is none, they are 0 and -1. Takes no memory that it can't do without, and time that
/// grows with the text times its logarithm. (POSIX awk, String Functions: match)
pub fn match_at(pattern: &Pattern, text: &[u8], scratch: &mut Scratch) -> Option<Span>
    requires { IsFor scratch.old pattern.now }
    ensures within { IfSome result (IsSpanOf text.now) }
    ensures found { (t : Tree) → Means t pattern.now → IsNextMatch t text.now None result }
    ensures same { IsFor scratch.new pattern.now }
{
    let mut failures = Failures::for_one_search(pattern);
    first_match(pattern, text, scratch, &mut failures)
}

// The leftmost match that begins behind a place, and of those the longest.
fn search_behind(
    pattern: &Pattern,
    text: &[u8],
    place: usize,
    scratch: &mut Scratch,
    failures: &mut Failures,
) -> Option<Span>
    requires same { IsFor scratch.old pattern.now }
    requires failures { AreFailures pattern.now text.now failures.old }
    requires within { place ≤ length text.now }
    ensures lies { IfSome result (LiesBehind (place + 1) text.now) }
    ensures found { (t : Tree) → Means t pattern.now → FindsFrom t text.now (place + 1) result }
    ensures same { IsFor scratch.new pattern.now }
    ensures failures { AreFailures pattern.now text.now failures.new }
{
    if place < text.len() {
        search_from(pattern, text, place + 1, scratch, failures)
    } else {
        None
    }
}

// The next match after another: not the empty one at its end. Where the last one was empty, the next one begins behind it.
pub(crate) fn next_match(
    pattern: &Pattern,
    text: &[u8],
    last: Span,
    scratch: &mut Scratch,
    failures: &mut Failures,
) -> Option<Span>
    requires same { IsFor scratch.old pattern.now }
    requires failures { AreFailures pattern.now text.now failures.old }
    requires within { last.end ≤ length text.now }
    requires longest { (t : Tree) → Means t pattern.now → IsLongest t text.now last }
    ensures lies { IfSome result (LiesBehind last.end text.now) }
    ensures past { IfSome result (λ m. last.end < m.end) }
    ensures found { (t : Tree) → Means t pattern.now → IsNextMatch t text.now (Some last.end) result }
    ensures same { IsFor scratch.new pattern.now }
    ensures failures { AreFailures pattern.now text.now failures.new }
{
    if last.start == last.end {
        return search_behind(pattern, text, last.end, scratch, failures);
    }
    match search_from(pattern, text, last.end, scratch, failures) {
        None => None,
        Some(found) => {
            if last.end < found.end {
                Some(found)
            } else {
                search_behind(pattern, text, last.end, scratch, failures)
            }
        }
    }
}
