// The patterns of a run, each of which is read once.

ghost use Rattle.std.specs.Prelude.{◌≡◌, ◌<◌, ◌≤◌, [], length, get_or, vec_len, true, false, Ok, IfSome, IfOk, IfErr, OnOk};
ghost use Rattle.awk_value.specs.Values.{str_of};
ghost use Rattle.awk_ere.specs.Means.{pattern_of};
ghost use Rattle.awk_text.specs.Pieces.{stretches_at, AreSpansOf};
ghost use Rattle.awk_semantics.specs.Operators.{pattern_in};
ghost use Rattle.awk_semantics.specs.Results.{IsWantOfMemory, Yields};
ghost use Rattle.awk_semantics.specs.Texts.{separator_in};
ghost use Rattle.awk_functions.specs.support.Matched.{matched, HasNoMatchUpTo, found, exchanged_by, split_by};
ghost use Rattle.awk_functions.specs.support.Spelling.{spelling_of, separator_for};
ghost use Rattle.awk_functions.specs.support.Compiled.{IsRefusal, MeansOf, ReadsFor};
ghost use Rattle.awk_functions.specs.support.Kept.{KeepsNothing};
ghost use Rattle.awk_functions.specs.support.Written.{Writes};

use crate::compiled::Compiled;
use crate::found::Exchanged;
use awk_ere::Pattern;
use awk_semantics::Halt;
use awk_text::{FieldSeparator, Span, TextFault};
use awk_value::{Bytes, Value, text_in};
use itoa::Buffer;
use lru::LruCache;
use std::alloc::{AllocFailed, Global};
use std::num::NonZeroUsize;

/// How many patterns are kept that don't stand in the program, besides the newest.
const CACHED: usize = 64;

/// How many of the newest are kept, which are found without a hash.
const NEWEST: usize = 8;

/// What spells a pattern: an ERE of the program, by its number and the text between its slashes, or a value by its text
/// (POSIX awk, Regular Expressions).
#[derive(Clone, Copy)]
pub enum PatternOperand<'a> {
    Ere(usize, &'a [u8]),
    Value(&'a Value),
}

// Adds empty places, until there is one of this number.
fn reserve_place<T: Drop>(
    places: &mut Vec<Option<T>>,
    number: usize,
) -> Result<(), AllocFailed<Option<T>>>
    ensures { OnOk result (number < vec_len places.new) }
{
    while places.len() <= number {
        places.push(None)?;
    }
    Ok(())
}

// The bytes of a value's text. Those of a number are written into the buffer.
#[inline(always)]
fn bytes_in<'a>(value: &'a Value, buffer: &'a mut Buffer) -> &'a [u8]
    ensures { result.now ≡ str_of value.now }
{
    match value {
        Value::Text(text) | Value::Input(text) => text.as_slice(),
        value => text_in(value, buffer),
    }
}

// Whether a value is an empty text.
#[inline(always)]
fn is_empty(value: &Value) -> bool
    ensures { result ≡ true → str_of value.now ≡ [] }
{
    match value {
        Value::Text(text) | Value::Input(text) => text.is_empty(),
        Value::Nothing | Value::Number(_) => false,
    }
}

// The place of the pattern that a text spells, where it is among these.
#[inline]
fn place_of(patterns: &[Compiled], text: &[u8]) -> Option<usize>
    ensures place { IfSome result (λ place. place < length patterns.now) }
    ensures text { IfSome result (λ place. (other : Compiled) → (get_or patterns.now place other).text ≡ text.now) }
{
    let length = text.len();
    for place in 0..patterns.len() {
        let kept = &patterns[place].text;
        if kept.len() == length && kept.as_slice() == text {
            return Some(place);
        }
    }
    None
}

/// The patterns that were read in a run.
#[derive(Drop)]
pub struct Patterns {
    alloc: Global,
    // those that stand in the program, by their numbers
    fixed: Vec<Option<Compiled>>,
    // the last that were read of the others, in the order in which they were
    newest: Vec<Compiled>,
    // those that were read before, and of them the last that were used, by their texts
    cached: LruCache<Vec<u8>, Compiled>,
    // the last separator that is no pattern
    separator: FieldSeparator,
    reads: u64,
}

impl Patterns {
    /// No pattern is kept at first. The only fault is want of memory.
    pub fn new(alloc: Global) -> Result<Patterns, Halt>
        ensures nothing { IfOk result (λ patterns. KeepsNothing patterns CACHED) }
        ensures fault { IfErr result IsWantOfMemory }
    {
        let separator = FieldSeparator::of(alloc, b" ", false)?;
        let room = NonZeroUsize::new(CACHED).unwrap_or(NonZeroUsize::MIN);
        Ok(Patterns {
            alloc,
            fixed: Vec::new(alloc),
            newest: Vec::new(alloc),
            cached: LruCache::new(alloc, room)?,
            separator,
            reads: 0,
        })
    }

    /// How many patterns were read.
    pub fn reads(&self) -> u64
        ensures { result ≡ self.now.reads }
    {
        self.reads
    }

    // Reads the pattern that a text spells.
    fn read(&mut self, text: Bytes) -> Result<Compiled, Halt>
        ensures { ReadsFor text (λ (c : Compiled). c.text) result }
    {
        self.reads = self.reads.saturating_add(1);
        Compiled::read(self.alloc, text)
    }

    // The pattern that stands in the program here, which is read where it is used first.
    #[inline(always)]
    fn fixed_pattern(&mut self, number: usize, text: &[u8]) -> Result<&mut Compiled, Halt>
        ensures { ReadsFor text.now (λ c. c.now.text) result }
    {
        if let Some(Some(kept)) = self.fixed.get_mut(number) {
            if kept.text.as_slice() == text {
                return Ok(kept);
            }
        }
        self.new_pattern(number, text)
    }

    // The same of one that wasn't read yet.
    #[inline(never)]
    fn new_pattern(&mut self, number: usize, text: &[u8]) -> Result<&mut Compiled, Halt>
        ensures { ReadsFor text.now (λ c. c.now.text) result }
    {
        let compiled = self.read(Bytes::from_slice(self.alloc, text)?)?;
        reserve_place(&mut self.fixed, number)?;
        Ok(self.fixed[number].insert(compiled))
    }

    // The pattern that a text spells. It is read where it isn't among those that were used last.
    #[inline(always)]
    fn cached_pattern(&mut self, text: &[u8]) -> Result<&mut Compiled, Halt>
        ensures { ReadsFor text.now (λ c. c.now.text) result }
    {
        match place_of(self.newest.as_slice(), text) {
            Some(place) => Ok(&mut self.newest[place]),
            None => self.older_pattern(text),
        }
    }

    // As `cached_pattern`, of a text that spells none of the newest.
    #[inline(never)]
    fn older_pattern(&mut self, text: &[u8]) -> Result<&mut Compiled, Halt>
        ensures { ReadsFor text.now (λ c. c.now.text) result }
    {
        if let Some(kept) = self.cached.get_mut(text) {
            if kept.text.as_slice() == text {
                return Ok(kept);
            }
        }
        let compiled = self.read(Bytes::from_slice(self.alloc, text)?)?;
        self.make_room()?;
        let place = self.newest.len();
        self.newest.push(compiled)?;
        Ok(&mut self.newest[place])
    }

    // Puts the oldest of the newest among those that were read before, where there are as many as are kept.
    fn make_room(&mut self) -> Result<(), Halt>
        ensures { IfErr result IsWantOfMemory }
    {
        if self.newest.len() < NEWEST {
            return Ok(());
        }
        let oldest = self.newest.remove(0);
        let key = Vec::from_slice(self.alloc, oldest.text.as_slice())?;
        self.cached.put(key, oldest)?;
        Ok(())
    }

    /// The pattern that an operand spells.
    #[inline(always)]
    pub(crate) fn pattern_for(&mut self, operand: PatternOperand) -> Result<&mut Compiled, Halt>
        ensures { ReadsFor (spelling_of operand.entry) (λ c. c.now.text) result }
    {
        match operand {
            PatternOperand::Ere(number, text) => self.fixed_pattern(number, text),
            PatternOperand::Value(value) => {
                let mut digits = Buffer::new();
                self.cached_pattern(bytes_in(value, &mut digits))
            }
        }
    }

    /// The pattern that a text spells. One that spells none is the fault F6; the other is want of memory. (POSIX awk, Regular
    /// Expressions)
    pub fn pattern(&mut self, text: &[u8]) -> Result<&Pattern, Halt>
        ensures found { IfOk result (λ pattern. ∥ MeansOf (pattern_of text.now) pattern.now ∥₁) }
        ensures refused { IfErr result (λ halt. IsRefusal halt text.now) }
    {
        let compiled = self.cached_pattern(text)?;
        Ok(compiled.pattern())
    }

    /// Whether the pattern that a text spells matches somewhere in another. The faults are those of `pattern`.
    pub fn is_match(&mut self, pattern: &[u8], text: &[u8]) -> Result<bool, Halt>
        ensures { Yields result (matched (pattern_in pattern.now) text.now) }
    {
        let compiled = self.cached_pattern(pattern)?;
        Ok(compiled.is_match(text))
    }

    /// Whether the pattern of an operand matches somewhere in a text. One that spells none is the fault F6; the other is want
    /// of memory. (POSIX awk, Regular Expressions)
    pub fn matches_text(&mut self, text: &[u8], operand: PatternOperand) -> Result<bool, Halt>
        ensures { Yields result (matched (pattern_in (spelling_of operand.entry)) text.now) }
    {
        let pattern = self.pattern_for(operand)?;
        Ok(pattern.is_match(text))
    }

    /// As `matches_text`, of an ERE of the program, by its number and the text between its slashes, where it was read before: then
    /// there is no fault. `None` elsewhere. (POSIX awk, Regular Expressions)
    #[inline(never)]
    pub fn matches_read(&mut self, number: usize, spelling: &[u8], text: &[u8]) -> Option<bool>
        ensures { IfSome result (λ holds. matched (pattern_in spelling.now) text.now ≡ Ok holds) }
    {
        let Some(Some(kept)) = self.fixed.get_mut(number) else {
            return None;
        };
        if kept.text.as_slice() != spelling {
            return None;
        }
        Some(kept.is_match(text))
    }

    /// How far a text can be passed over by an ERE of the program, by its number and the text between its slashes: no part of it
    /// that ends at or before this place has a match. Nothing is answered where the ERE was not read yet, or no text is known
    /// that stands in each match. Takes no memory. (POSIX awk, Regular Expressions)
    #[inline]
    pub fn skippable(&self, number: usize, spelling: &[u8], text: &[u8]) -> Option<usize>
        ensures within { IfSome result (λ place. place ≤ length text.now) }
        ensures none { IfSome result (HasNoMatchUpTo (pattern_in spelling.now) text.now) }
    {
        let Some(Some(kept)) = self.fixed.get(number) else {
            return None;
        };
        if !kept.has_required() || kept.text.as_slice() != spelling {
            return None;
        }
        kept.skippable(text)
    }

    /// Whether `skippable` may answer of an ERE of the program: it was not read yet, or a text is known that stands in each match.
    pub fn may_skip(&self, number: usize) -> bool {
        match self.fixed.get(number) {
            Some(Some(kept)) => kept.has_required(),
            _ => true,
        }
    }

    /// Whether the pattern of an operand matches somewhere in a value's text. One that spells none is the fault F6; the
    /// other is want of memory. (POSIX awk, Regular Expressions)
    pub fn matches(&mut self, text: &Value, operand: PatternOperand) -> Result<bool, Halt>
        ensures { Yields result (matched (pattern_in (spelling_of operand.entry)) (str_of text.now)) }
    {
        let pattern = self.pattern_for(operand)?;
        let mut digits = Buffer::new();
        Ok(pattern.is_match(bytes_in(text, &mut digits)))
    }

    /// The first match of the pattern of an operand in a value's text, and of those that begin there the longest. The faults
    /// are F1 and F6. (POSIX awk, String Functions: match)
    pub fn find(&mut self, text: &Value, operand: PatternOperand) -> Result<Option<Span>, Halt>
        ensures { Yields result (found (pattern_in (spelling_of operand.entry)) (str_of text.now)) }
    {
        let pattern = self.pattern_for(operand)?;
        let mut digits = Buffer::new();
        Ok(pattern.find(text_in(text, &mut digits)))
    }

    /// A value's text with its first match exchanged, or with `all` each match, and how many that are; nothing where nothing
    /// matches. The faults are F1 and F6. (POSIX awk, String Functions: sub, gsub)
    #[inline(always)]
    pub fn exchange(
        &mut self,
        operand: PatternOperand,
        replacement: &Value,
        text: &Value,
        all: bool,
    ) -> Result<Option<Exchanged>, Halt>
        ensures { Yields result (exchanged_by all (pattern_in (spelling_of operand.entry))
            (str_of replacement.now) (str_of text.now)) }
    {
        if let Value::Text(text) | Value::Input(text) = text {
            return self.exchange_in(operand, replacement, text, all);
        }
        self.exchange_written(operand, replacement, text, all)
    }

    // As `exchange`, of any value, whose text is written first where it is a number.
    #[inline(never)]
    fn exchange_written(
        &mut self,
        operand: PatternOperand,
        replacement: &Value,
        text: &Value,
        all: bool,
    ) -> Result<Option<Exchanged>, Halt>
        ensures { Yields result (exchanged_by all (pattern_in (spelling_of operand.entry))
            (str_of replacement.now) (str_of text.now)) }
    {
        let alloc = self.alloc;
        let pattern = self.pattern_for(operand)?;
        let mut replacement_digits = Buffer::new();
        let mut text_digits = Buffer::new();
        let replacement = bytes_in(replacement, &mut replacement_digits);
        let text = text_in(text, &mut text_digits);
        pattern.exchange(alloc, replacement, text, all)
    }

    /// As `exchange`, of a text, which is searched where it stands. What is left of it where a first match at its front or at its
    /// end is left out shares its memory.
    #[inline(always)]
    pub fn exchange_in(
        &mut self,
        operand: PatternOperand,
        replacement: &Value,
        text: &Bytes,
        all: bool,
    ) -> Result<Option<Exchanged>, Halt>
        ensures { Yields result (exchanged_by all (pattern_in (spelling_of operand.entry))
            (str_of replacement.now) text.now) }
    {
        let alloc = self.alloc;
        let pattern = self.pattern_for(operand)?;
        if !all && is_empty(replacement) {
            return pattern.leave_out(alloc, text);
        }
        let mut digits = Buffer::new();
        let replacement = bytes_in(replacement, &mut digits);
        pattern.exchange(alloc, replacement, text.as_slice(), all)
    }

    // What separates fields where FS is this text. It is made where it isn't the last one.
    fn byte_separator(&mut self, text: &[u8]) -> Result<&mut FieldSeparator, TextFault>
        requires { length text.now < 2 }
        ensures rule { IfOk result (λ separator. separator.now ≡ record { text = text.now; newline_too = false }) }
        ensures memory { IfErr result (λ fault. fault ≡ TextFault.Memory) }
    {
        if !self.separator.is_of(text, false) {
            self.separator = FieldSeparator::of(self.alloc, text, false)?;
        }
        Ok(&mut self.separator)
    }

    // Fills `spans` with the pieces of the text between the places of a separator of one byte, or of none.
    fn split_at_byte(
        &mut self,
        text: &[u8],
        separator: &[u8],
        spans: &mut Vec<Span>,
    ) -> Result<(), TextFault>
        requires { length separator.now < 2 }
        ensures pieces { OnOk result (
            split_by (separator_in separator.now) text.now ≡ Ok (stretches_at text.now spans.new.items)) }
        ensures within { OnOk result (AreSpansOf text.now spans.new.items) }
        ensures memory { IfErr result (λ fault. fault ≡ TextFault.Memory) }
    {
        let separator = self.byte_separator(separator)?;
        separator.split_text(text, spans)
    }

    /// Fills `spans` with the pieces of a text, in their order, between what another text separates as a value of FS does.
    /// What `spans` held before is gone, also on an `Err`. The faults are F1 and F6. (POSIX awk, String Functions: split)
    pub fn split_by_text(
        &mut self,
        text: &[u8],
        separator: &[u8],
        spans: &mut Vec<Span>,
    ) -> Result<(), Halt>
        ensures pieces { Writes result (stretches_at text.now spans.new.items)
            (split_by (separator_in separator.now) text.now) }
        ensures within { OnOk result (AreSpansOf text.now spans.new.items) }
    {
        if separator.len() < 2 {
            self.split_at_byte(text, separator, spans)?;
            return Ok(());
        }
        let pattern = self.cached_pattern(separator)?;
        pattern.split(text, spans)
    }

    /// Fills `spans` with the pieces of a text, in their order: between the matches of an ERE with a byte in them, or
    /// between what the text of a value separates as a value of FS does. What `spans` held before is gone, also on an `Err`.
    /// The faults are F1 and F6. (POSIX awk, String Functions: split)
    pub fn split(
        &mut self,
        text: &[u8],
        separator: PatternOperand,
        spans: &mut Vec<Span>,
    ) -> Result<(), Halt>
        ensures pieces { Writes result (stretches_at text.now spans.new.items)
            (split_by (separator_for separator.entry) text.now) }
        ensures within { OnOk result (AreSpansOf text.now spans.new.items) }
    {
        match separator {
            PatternOperand::Ere(number, spelling) => {
                let pattern = self.fixed_pattern(number, spelling)?;
                pattern.split(text, spans)
            }
            PatternOperand::Value(value) => {
                let mut digits = Buffer::new();
                self.split_by_text(text, text_in(value, &mut digits), spans)
            }
        }
    }
}
