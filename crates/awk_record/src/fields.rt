// The fields of a text, found as far as they are asked.
ghost use Rattle.std.specs.Prelude.{◌≡◌, ◌≢◌, ◌<◌, ◌⊎◌, [], true, length, slice_get, IfSome, OnOk, OnErr, IfOk, IfErr};
ghost use Rattle.std.specs.Option.{option_map};
ghost use Rattle.std.specs.Result.{is_err};
ghost use Rattle.awk_text.specs.Pieces.{stretch_at, IsSpanOf};
ghost use Rattle.awk_text.specs.Separators.{separator_of};
ghost use Rattle.awk_text.specs.Fields.{pieces_from_by, pieces_by};
ghost use Rattle.awk_record.specs.support.Found.{AreFieldsOf};
ghost use Rattle.awk_record.specs.definitions.Record.{inputs_of};

use crate::assigned::cut_all;
use crate::record_fault::RecordFault;
use awk_text::{FieldSeparator, Span, pieces_from_law};
use awk_value::{Bytes, Value};
use std::alloc::Global;

#[inline(always)]
fn span_at(spans: &[Span], index: usize) -> Option<Span>
    ensures { result ≡ slice_get spans.now index }
{
    spans.get(index).copied()
}

/// What separates the fields of a text, and those found so far.
#[derive(Drop)]
pub struct Fields {
    pub separator: FieldSeparator,
    pub spans: Vec<Span>,
    /// Where those not yet found begin: 0 before the first was asked.
    pub rest: usize,
    /// How many texts were begun to be split.
    pub splits: u64,
}

impl Fields {
    /// No field of any text.
    pub fn new(alloc: Global, separator: FieldSeparator) -> Fields
        ensures spans { result.spans.items ≡ [] }
        ensures rest { result.rest ≡ 0 }
    {
        Fields {
            separator,
            spans: Vec::new(alloc),
            rest: 0,
            splits: 0,
        }
    }

    // Reads a separator for the next text.
    #[inline(never)]
    fn read_separator(
        &mut self,
        alloc: Global,
        separator: &[u8],
        newline_too: bool,
    ) -> Result<(), RecordFault>
        ensures rule { OnOk result (self.new.separator ≡ record { text = separator.now; newline_too = newline_too }) }
        ensures refused { IfErr result (λ e. e ≢ RecordFault.Memory →
            (e ≡ RecordFault.Pattern) × (is_err (separator_of separator.now) ≡ true)) }
        ensures err { OnErr result (self.new ≡ self.old) }
    {
        self.separator = FieldSeparator::of(alloc, separator, newline_too)?;
        Ok(())
    }

    /// Takes a separator for the next text: it is read anew only where it isn't the one at hand.
    #[inline(always)]
    pub(crate) fn take_separator(
        &mut self,
        alloc: Global,
        separator: &[u8],
        newline_too: bool,
    ) -> Result<(), RecordFault>
        ensures rule { OnOk result (self.new.separator ≡ record { text = separator.now; newline_too = newline_too }) }
        ensures refused { IfErr result (λ e. e ≢ RecordFault.Memory →
            (e ≡ RecordFault.Pattern) × (is_err (separator_of separator.now) ≡ true)) }
        ensures err { OnErr result (self.new ≡ self.old) }
    {
        if self.separator.is_of(separator, newline_too) {
            return Ok(());
        }
        self.read_separator(alloc, separator, newline_too)
    }

    /// Forgets those that were found.
    #[inline(always)]
    pub(crate) fn restart(&mut self)
        ensures separator { self.new.separator ≡ self.old.separator }
        ensures spans { self.new.spans.items ≡ [] }
        ensures rest { self.new.rest ≡ 0 }
    {
        self.spans.clear();
        self.rest = 0;
    }

    // Counts a text that begins to be split.
    #[inline(always)]
    fn count_split(&mut self)
        ensures separator { self.new.separator ≡ self.old.separator }
        ensures spans { self.new.spans.items ≡ self.old.spans.items }
        ensures rest { self.new.rest ≡ self.old.rest }
    {
        if self.rest == 0 {
            self.splits = self.splits.saturating_add(1);
        }
    }

    // Finds on until there is one at this index, or all are found.
    #[inline(never)]
    fn find(&mut self, text: &[u8], index: usize) -> Result<(), RecordFault>
        requires { AreFieldsOf text.now self.old }
        ensures fields { AreFieldsOf text.now self.new }
        ensures separator { self.new.separator ≡ self.old.separator }
        ensures found { IfOk result (λ _. (index < length self.new.spans.items)
            ⊎ (pieces_from_by self.new.separator text.now self.new.rest ≡ [])) }
        ensures memory { IfErr result (λ e. e ≡ RecordFault.Memory) }
    {
        pieces_from_law();
        self.count_split();
        self.separator
            .find_fields(text, index, &mut self.spans, &mut self.rest)?;
        Ok(())
    }

    /// The field at this index, from 0 on, if there is one. The only error is
    /// `Memory`.
    #[inline(always)]
    pub fn at(&mut self, text: &Bytes, index: usize) -> Result<Option<Span>, RecordFault>
        requires { AreFieldsOf text.now self.old }
        ensures fields { AreFieldsOf text.now self.new }
        ensures separator { self.new.separator ≡ self.old.separator }
        ensures value { IfOk result (λ span. option_map (stretch_at text.now) span
            ≡ slice_get (pieces_by self.old.separator text.now) index) }
        ensures within { IfOk result (λ span. IfSome span (IsSpanOf text.now)) }
        ensures none { IfOk result (λ span. index ≡ usize.MAX → span ≡ None) }
        ensures memory { IfErr result (λ e. e ≡ RecordFault.Memory) }
    {
        if let Some(span) = span_at(self.spans.as_slice(), index) {
            return Ok(Some(span));
        }
        let bytes = text.as_slice();
        self.find(bytes, index)?;
        Ok(span_at(self.spans.as_slice(), index))
    }

    /// How many there are, where all of them were found.
    #[inline(always)]
    pub fn known_count(&self, text: &[u8]) -> Option<usize>
        requires { AreFieldsOf text.now self.now }
        ensures { IfSome result (λ n. n ≡ length (pieces_by self.now.separator text.now)) }
    {
        pieces_from_law();
        if self.rest <= text.len() {
            return None;
        }
        Some(self.spans.len())
    }

    /// How many there are. The only error is `Memory`.
    #[inline(always)]
    pub fn count(&mut self, text: &[u8]) -> Result<usize, RecordFault>
        requires { AreFieldsOf text.now self.old }
        ensures fields { AreFieldsOf text.now self.new }
        ensures separator { self.new.separator ≡ self.old.separator }
        ensures value { IfOk result (λ n. n ≡ length (pieces_by self.old.separator text.now)) }
        ensures memory { IfErr result (λ e. e ≡ RecordFault.Memory) }
    {
        if let Some(count) = self.known_count(text) {
            return Ok(count);
        }
        self.find(text, usize::MAX)?;
        Ok(self.spans.len())
    }

    /// Fills `values` with all of them, which share the text's memory. The only
    /// error is `Memory`.
    #[inline(never)]
    pub fn all(&mut self, text: &Bytes, values: &mut Vec<Value>) -> Result<(), RecordFault>
        requires { AreFieldsOf text.now self.old }
        ensures fields { AreFieldsOf text.now self.new }
        ensures separator { self.new.separator ≡ self.old.separator }
        ensures values { OnOk result (values.new.items ≡ inputs_of (pieces_by self.old.separator text.now)) }
        ensures memory { IfErr result (λ e. e ≡ RecordFault.Memory) }
    {
        self.find(text.as_slice(), usize::MAX)?;
        cut_all(text, self.spans.as_slice(), values)
    }
}
