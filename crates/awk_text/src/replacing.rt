// Writes a text with its matches replaced, in one pass over the text.
ghost use Rattle.std.specs.Prelude.{◌≡◌, ◌++◌, [], true, slice_range, OnOk, IfOk, IfErr};
ghost use Rattle.awk_ere.specs.definitions.Means.{Means};
ghost use Rattle.awk_ere.specs.support.Found.{IsOneByte};
ghost use Rattle.awk_ere.specs.support.Table.{IsFor};
ghost use Rattle.awk_ere.specs.definitions.Tree.{Tree};
ghost use Rattle.awk_text.specs.definitions.Pieces.{stretch_at};
ghost use Rattle.awk_text.specs.definitions.Replaced.{Replaces, Substitutes};
ghost use Rattle.awk_text.specs.definitions.Replacement.{replacement_for};
ghost use Rattle.awk_text.specs.support.Escapes.{IsOfShape};
ghost use Rattle.awk_text.specs.support.Search.{LiesBehind};

use crate::matching::{first_match, next_match};
use crate::replacement::{Shape, add_piece, add_replacement, shape_of};
use crate::substitution::Substitution;
use crate::{Span, TextFault};
use awk_ere::{Failures, Pattern, Scratch};
use memchr::memchr;
use std::alloc::Global;

// Adds what stands from a place up to a match, and what replaces the match.
#[inline(always)]
fn add_replaced(
    out: &mut Vec<u8>,
    replacement: &[u8],
    shape: Shape,
    text: &[u8],
    place: usize,
    found: Span,
) -> Result<(), TextFault>
    requires shape { IsOfShape replacement.now shape }
    requires lies { LiesBehind place text.now found }
    ensures added { OnOk result (out.new.items ≡ out.old.items
        ++ (slice_range text.now place found.start ++ replacement_for replacement.now (stretch_at text.now found))) }
    ensures memory { IfErr result (λ e. e ≡ TextFault.Memory) }
{
    add_piece(out, &text[place..found.start])?;
    let matched = &text[found.start..found.end];
    match shape {
        Shape::Plain => add_piece(out, replacement),
        Shape::Around(place) => {
            add_piece(out, &replacement[..place])?;
            add_piece(out, matched)?;
            add_piece(out, &replacement[place + 1..])
        }
        Shape::Written => add_replacement(out, replacement, matched),
    }
}

// The same where each place of a byte is replaced, which is all that the pattern matches.
fn replace_byte(
    byte: u8,
    replacement: &[u8],
    text: &[u8],
    out: &mut Vec<u8>,
) -> Result<Option<u64>, TextFault>
    requires { out.old.items ≡ [] }
    ensures replaced { (t : Tree) → IsOneByte t byte →
        IfOk result (λ count. Replaces t replacement.now text.now true count out.new.items) }
    ensures memory { IfErr result (λ e. e ≡ TextFault.Memory) }
{
    let Some(first) = memchr(byte, text) else {
        return Ok(None);
    };
    out.reserve(text.len().saturating_add(replacement.len()))?;
    let shape = shape_of(replacement);
    let mut count = 0;
    let mut place = 0;
    let mut next = Some(first);
    while let Some(len) = next {
        let start = place + len;
        let found = Span {
            start,
            end: start + 1,
        };
        add_replaced(out, replacement, shape, text, place, found)?;
        count += 1;
        place = start + 1;
        next = memchr(byte, &text[place..]);
    }
    out.extend_from_slice(&text[place..])?;
    Ok(Some(count))
}

/// Writes into `out` the text with its first match replaced, or with `all` each match, and answers how many that
/// are; where nothing matches it answers nothing, and `out` is empty. What `out` held before is gone, also on an
/// `Err`, which is `Memory` alone.
///
/// Matches are taken from left to right. Each is the leftmost, and of those the longest, that doesn't begin before the
/// end of the one before and isn't the empty one there. In the replacement `&` is the matched text, `\&` an ampersand,
/// `\\` a backslash, and any other byte itself. (POSIX awk, String Functions: gsub, sub)
pub fn substitute_into(
    pattern: &Pattern,
    scratch: &mut Scratch,
    replacement: &[u8],
    text: &[u8],
    all: bool,
    out: &mut Vec<u8>,
) -> Result<Option<u64>, TextFault>
    requires { IsFor scratch.old pattern.now }
    ensures replaced { (t : Tree) → Means t pattern.now →
        IfOk result (λ count. Replaces t replacement.now text.now all count out.new.items) }
    ensures memory { IfErr result (λ e. e ≡ TextFault.Memory) }
    ensures same { IsFor scratch.new pattern.now }
{
    out.clear();
    if all && let Some(byte) = pattern.literal_byte(scratch) {
        return replace_byte(byte, replacement, text, out);
    }
    let mut failures = Failures::for_pattern(pattern);
    let Some(first) = first_match(pattern, text, scratch, &mut failures) else {
        return Ok(None);
    };
    out.reserve(text.len().saturating_add(replacement.len()))?;
    let shape = shape_of(replacement);
    add_replaced(out, replacement, shape, text, 0, first)?;
    if !all {
        out.extend_from_slice(&text[first.end..])?;
        return Ok(Some(1));
    }
    let mut count = 1;
    let mut last = first;
    while let Some(next) = next_match(pattern, text, last, scratch, &mut failures) {
        add_replaced(out, replacement, shape, text, last.end, next)?;
        count += 1;
        last = next;
    }
    out.extend_from_slice(&text[last.end..])?;
    Ok(Some(count))
}

/// The text with its first match replaced, or with `all` each match, and how many that are; nothing where nothing
/// matches. Which matches are taken and what replaces them is told at `substitute_into`. The only error is `Memory`.
/// (POSIX awk, String Functions: gsub, sub)
pub fn substitute(
    alloc: Global,
    pattern: &Pattern,
    scratch: &mut Scratch,
    replacement: &[u8],
    text: &[u8],
    all: bool,
) -> Result<Option<Substitution>, TextFault>
    requires { IsFor scratch.old pattern.now }
    ensures replaced { (t : Tree) → Means t pattern.now →
        IfOk result (λ made. Substitutes t replacement.now text.now all made) }
    ensures memory { IfErr result (λ e. e ≡ TextFault.Memory) }
    ensures same { IsFor scratch.new pattern.now }
{
    let mut out = Vec::new(alloc);
    let Some(count) = substitute_into(pattern, scratch, replacement, text, all, &mut out)? else {
        return Ok(None);
    };
    if out.len() < out.capacity() / 2 {
        out.shrink_to_fit();
    }
    Ok(Some(Substitution { count, text: out }))
}
