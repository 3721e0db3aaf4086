// A separator that is ready to split texts, and the next field by it.
ghost use Rattle.std.specs.Prelude.{◌≡◌, ◌≤◌, ◌<◌, ◌⊎◌, ◌++◌, length, IfSome, IfOk, IfErr, OnOk};
ghost use Rattle.awk_text.specs.definitions.Pieces.{stretches_at, AreSpansOf};
ghost use Rattle.awk_text.specs.definitions.Separators.{Separator as SeparatorSpec, IsSeparator};
ghost use Rattle.awk_text.specs.definitions.Separators.{each};
ghost use Rattle.awk_text.specs.definitions.Fields.{is_field as field_test, kind_pieces_from, pieces_of, pieces_from};
ghost use Rattle.awk_text.specs.definitions.Fields.{IsNextPiece, IsFurther};

use crate::blanks::find_between_blanks;
use crate::marks::{ByteMarks, LineMarks, Marks, Separates};
use crate::matcher::Matcher;
use crate::{FoundField, Separator, Span, TextFault};
use std::alloc::Global;

/// Adds to `spans` the fields from `rest` on that end at a byte that separates, until there is one at this index, or all are found.
/// The fields that aren't found yet are then those from `rest` on. The only error is `Memory`.
#[inline(always)]
fn find_at_bytes<S: Separates>(
    separates: &S,
    text: &[u8],
    index: usize,
    spans: &mut Vec<Span>,
    rest: &mut usize,
) -> Result<(), TextFault>
    ensures pieces { stretches_at text.now spans.new.items ++ kind_pieces_from (S.separates separates.now) text.now rest.new
        ≡ stretches_at text.now spans.old.items ++ kind_pieces_from (S.separates separates.now) text.now rest.old }
    ensures within { AreSpansOf text.now spans.old.items → AreSpansOf text.now spans.new.items }
    ensures found { IfOk result (λ _. (index < length spans.new.items) ⊎ (length text.now < rest.new)) }
    ensures memory { IfErr result (λ e. e ≡ TextFault.Memory) }
{
    let mut start = *rest;
    if text.is_empty() || start > text.len() {
        *rest = text.len() + 1;
        return Ok(());
    }
    let mut marks = Marks::behind(start);
    while spans.len() <= index {
        let end = marks.next(separates, text);
        spans.push(Span { start, end })?;
        *rest = end + 1;
        if end == text.len() {
            return Ok(());
        }
        start = end + 1;
    }
    Ok(())
}

// Whether a byte is a field where each one is, but newlines where they separate.
fn is_field(byte: u8, newline_too: bool) -> bool
    ensures { result ≡ field_test newline_too byte }
{
    !newline_too || byte != b'\n'
}

#[inline(never)]
fn next_each(text: &[u8], newline_too: bool, from: usize) -> Option<FoundField>
    ensures piece { IsNextPiece (pieces_from each newline_too text.now) text.now from result }
    ensures further { IfSome result (IsFurther text.now from) }
{
    for start in from..text.len() {
        if is_field(text[start], newline_too) {
            let end = start + 1;
            return Some(FoundField {
                span: Span { start, end },
                rest: end,
            });
        }
    }
    None
}

// Finds on until there is a field at this index, or all are found, where each byte is one.
#[inline(never)]
fn find_each(
    text: &[u8],
    newline_too: bool,
    index: usize,
    spans: &mut Vec<Span>,
    rest: &mut usize,
) -> Result<(), TextFault>
    ensures pieces { stretches_at text.now spans.new.items ++ pieces_from each newline_too text.now rest.new
        ≡ stretches_at text.now spans.old.items ++ pieces_from each newline_too text.now rest.old }
    ensures within { AreSpansOf text.now spans.old.items → AreSpansOf text.now spans.new.items }
    ensures found { IfOk result (λ _. (index < length spans.new.items) ⊎ (length text.now < rest.new)) }
    ensures memory { IfErr result (λ e. e ≡ TextFault.Memory) }
{
    while spans.len() <= index {
        match next_each(text, newline_too, *rest) {
            Some(found) => {
                spans.push(found.span)?;
                *rest = found.rest;
            }
            None => {
                *rest = text.len() + 1;
                return Ok(());
            }
        }
    }
    Ok(())
}

/// A separator, made ready to split texts.
#[derive(Drop)]
pub enum Splitter {
    /// Runs of spaces, tabs and newlines.
    Blanks,
    /// Each place of this byte.
    Byte(u8),
    /// Nothing: each byte is a field.
    Each,
    /// The matches of a pattern that has a newline as one more branch where newlines separate too.
    Ere(Matcher),
}

impl Splitter {
    ghost use Rattle.awk_text.specs.support.Splitters.{Stands};

    /// The separator, with newlines that separate too or without. The only error is `Memory`.
    pub fn of(alloc: Global, separator: Separator, newline_too: bool) -> Result<Splitter, TextFault>
        ensures stands { (s : SeparatorSpec) → IsSeparator s separator → IfOk result (Stands s newline_too) }
        ensures memory { IfErr result (λ e. e ≡ TextFault.Memory) }
    {
        match separator {
            Separator::Blanks => Ok(Splitter::Blanks),
            Separator::Byte(byte) => Ok(Splitter::Byte(byte)),
            Separator::Each => Ok(Splitter::Each),
            Separator::Ere(pattern) => Ok(Splitter::Ere(Matcher::of(alloc, pattern, newline_too)?)),
        }
    }

    /// Adds to `spans` the fields from `rest` on, where one may begin, until there is one at this index, or all are found.
    /// The fields that aren't found yet are then those from `rest` on. The only error is `Memory`.
    #[inline(always)]
    pub fn find_fields(
        &mut self,
        text: &[u8],
        newline_too: bool,
        index: usize,
        spans: &mut Vec<Span>,
        rest: &mut usize,
    ) -> Result<(), TextFault>
        ensures pieces { (s : SeparatorSpec) → Stands s newline_too self.old →
            stretches_at text.now spans.new.items ++ pieces_from s newline_too text.now rest.new
            ≡ stretches_at text.now spans.old.items ++ pieces_from s newline_too text.now rest.old }
        ensures within { AreSpansOf text.now spans.old.items → AreSpansOf text.now spans.new.items }
        ensures found { IfOk result (λ _. (index < length spans.new.items) ⊎ (length text.now < rest.new)) }
        ensures memory { IfErr result (λ e. e ≡ TextFault.Memory) }
        ensures same { (s : SeparatorSpec) → Stands s newline_too self.old → Stands s newline_too self.new }
    {
        match self {
            Splitter::Blanks => find_between_blanks(text, index, spans, rest),
            Splitter::Byte(byte) if newline_too => {
                find_at_bytes(&LineMarks(*byte), text, index, spans, rest)
            }
            Splitter::Byte(byte) => find_at_bytes(&ByteMarks(*byte), text, index, spans, rest),
            Splitter::Each => find_each(text, newline_too, index, spans, rest),
            Splitter::Ere(matcher) => matcher.find_fields(text, index, spans, rest),
        }
    }

    /// Fills `spans` with the fields of the text. The only error is `Memory`.
    pub fn split_text(
        &mut self,
        text: &[u8],
        newline_too: bool,
        spans: &mut Vec<Span>,
    ) -> Result<(), TextFault>
        ensures pieces { (s : SeparatorSpec) → Stands s newline_too self.old →
            OnOk result (stretches_at text.now spans.new.items ≡ pieces_of s newline_too text.now) }
        ensures within { OnOk result (AreSpansOf text.now spans.new.items) }
        ensures memory { IfErr result (λ e. e ≡ TextFault.Memory) }
        ensures same { (s : SeparatorSpec) → Stands s newline_too self.old → Stands s newline_too self.new }
    {
        spans.clear();
        let mut rest = 0;
        self.find_fields(text, newline_too, usize::MAX, spans, &mut rest)
    }
}
