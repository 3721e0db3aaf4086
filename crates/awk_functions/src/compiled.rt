// A pattern with the text that spells it, and what it finds.

ghost use Rattle.std.specs.Prelude.{◌≡◌, ◌≤◌, ◌++◌, [], false, length, take, drop, Ok, IfSome, IfOk, OnOk};
ghost use Rattle.awk_ere.specs.Means.{pattern_of};
ghost use Rattle.awk_ere.specs.Table.{IsFor};
ghost use Rattle.awk_text.specs.Pieces.{stretches_at, AreSpansOf, IsSpanOf};
ghost use Rattle.awk_semantics.specs.Operators.{pattern_in};
ghost use Rattle.awk_semantics.specs.Results.{Yields};
ghost use Rattle.awk_semantics.specs.Texts.{ere_separator};
ghost use Rattle.awk_functions.specs.support.Matched.{matched, HasNoMatchUpTo, found, exchanged_by, split_by};
ghost use Rattle.awk_functions.specs.support.Compiled.{MeansOf, ReadsFor};
ghost use Rattle.awk_functions.specs.support.Written.{Writes};

use crate::found::Exchanged;
use awk_ere::laws::read_law;
use awk_ere::{Pattern, Scratch};
use awk_semantics::{Halt, law_of_exchanges, law_of_matches};
use awk_text::{Span, match_at, split_between, substitute};
use awk_value::Bytes;
use std::alloc::{AllocError, Global};

/// A pattern that was read, the text that spells it, and the room of its searches, which is large and stands elsewhere, so
/// that this is moved as a few words.
#[derive(Drop)]
pub struct Compiled {
    pub text: Bytes,
    pattern: Pattern,
    scratch: Box<Scratch>,
    ghost means: { ∥ MeansOf (pattern_of text) pattern ∥₁ },
    ghost fits: { IsFor scratch.value pattern },
}

/// A text without a part. What stands before or behind one at its end or its front shares its memory.
fn without(alloc: Global, text: &Bytes, part: Span) -> Result<Bytes, AllocError>
    requires { IsSpanOf text.now part }
    ensures { IfOk result (λ rest. rest ≡ take part.start text.now ++ drop part.end text.now) }
{
    if part.start == 0 {
        let behind = text.cut(part.end, text.len())?;
        return Ok(behind);
    }
    let mut rest = text.cut(0, part.start)?;
    if part.end == text.len() {
        return Ok(rest);
    }
    rest.extend_from_slice(alloc, &text.as_slice()[part.end..])?;
    Ok(rest)
}

impl Compiled {
    /// Reads the pattern that a text spells. One that spells none is the fault F6.
    pub(crate) fn read(alloc: Global, text: Bytes) -> Result<Compiled, Halt>
        ensures { ReadsFor text (λ (c : Compiled). c.text) result }
    {
        read_law();
        let pattern = Pattern::read(alloc, text.as_slice())?;
        let searches = Scratch::for_pattern(alloc, &pattern)?;
        let scratch = Box::new(alloc, searches)?;
        Ok(Compiled {
            text,
            pattern,
            scratch,
        })
    }

    /// The pattern.
    pub fn pattern(&self) -> &Pattern
        ensures { ∥ MeansOf (pattern_of self.now.text) result.now ∥₁ }
    {
        &self.pattern
    }

    /// Whether the pattern matches somewhere in the text. Takes no memory. (POSIX awk, Regular Expressions)
    #[inline(always)]
    pub fn is_match(&mut self, text: &[u8]) -> bool
        ensures found { matched (pattern_in self.old.text) text.now ≡ Ok result }
        ensures text { self.new.text ≡ self.old.text }
    {
        self.pattern.is_match(text, &mut self.scratch)
    }

    /// Whether a text is known that stands in each match.
    #[inline]
    pub(crate) fn has_required(&self) -> bool {
        self.scratch.has_required()
    }

    /// How far the text can be passed over: no part of it that ends at or before this place has a match. Nothing is answered
    /// where no text is known that stands in each match. Takes no memory. (POSIX awk, Regular Expressions)
    #[inline]
    pub fn skippable(&self, text: &[u8]) -> Option<usize>
        ensures within { IfSome result (λ place. place ≤ length text.now) }
        ensures none { IfSome result (HasNoMatchUpTo (pattern_in self.now.text) text.now) }
    {
        self.pattern.skippable(text, &self.scratch)
    }

    /// The first match of the pattern in the text, and of those that begin there the longest. Takes no memory. (POSIX awk,
    /// String Functions: match)
    pub fn find(&mut self, text: &[u8]) -> Option<Span>
        ensures found { found (pattern_in self.old.text) text.now ≡ Ok result }
        ensures within { IfSome result (IsSpanOf text.now) }
        ensures text { self.new.text ≡ self.old.text }
    {
        law_of_matches();
        match_at(&self.pattern, text, &mut self.scratch)
    }

    /// The text with its first match exchanged, or with `all` each match, and how many that are; nothing where nothing
    /// matches. The only fault is want of memory. (POSIX awk, String Functions: sub, gsub)
    pub fn exchange(
        &mut self,
        alloc: Global,
        replacement: &[u8],
        text: &[u8],
        all: bool,
    ) -> Result<Option<Exchanged>, Halt>
        ensures exchanged { Yields result (exchanged_by all (pattern_in self.old.text) replacement.now text.now) }
        ensures text { self.new.text ≡ self.old.text }
    {
        law_of_exchanges();
        let pattern = &self.pattern;
        let scratch = &mut self.scratch;
        match substitute(alloc, pattern, scratch, replacement, text, all)? {
            Some(made) => Ok(Some(Exchanged {
                count: made.count,
                text: Bytes::from_vec(alloc, made.text)?,
            })),
            None => Ok(None),
        }
    }

    /// The text without its first match; nothing where nothing matches. What a match at its front or at its end leaves shares its memory.
    /// The only fault is want of memory. (POSIX awk, String Functions: sub)
    #[inline(never)]
    pub(crate) fn leave_out(
        &mut self,
        alloc: Global,
        text: &Bytes,
    ) -> Result<Option<Exchanged>, Halt>
        ensures exchanged { Yields result (exchanged_by false (pattern_in self.old.text) [] text.now) }
        ensures text { self.new.text ≡ self.old.text }
    {
        law_of_exchanges();
        let Some(found) = match_at(&self.pattern, text.as_slice(), &mut self.scratch) else {
            return Ok(None);
        };
        let text = without(alloc, text, found)?;
        Ok(Some(Exchanged { count: 1, text }))
    }

    /// Fills `spans` with the pieces of the text that stand between the matches of the pattern with a byte in them, in
    /// their order. What `spans` held before is gone. The only fault is want of memory. (POSIX awk, String Functions: split)
    pub fn split(&mut self, text: &[u8], spans: &mut Vec<Span>) -> Result<(), Halt>
        ensures pieces { Writes result (stretches_at text.now spans.new.items)
            (split_by (ere_separator (pattern_in self.old.text)) text.now) }
        ensures within { OnOk result (AreSpansOf text.now spans.new.items) }
        ensures text { self.new.text ≡ self.old.text }
    {
        split_between(&self.pattern, &mut self.scratch, text, spans)?;
        Ok(())
    }
}
