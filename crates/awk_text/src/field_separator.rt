// What separates the fields of many texts, by the value of FS.
ghost use Rattle.std.specs.Prelude.{◌≡◌, ◌≢◌, ◌↔◌, ◌<◌, ◌⊎◌, ◌++◌, true, length, Ok, Err, IfOk, IfErr, OnOk};
ghost use Rattle.awk_text.specs.definitions.Pieces.{stretches_at, AreSpansOf};
ghost use Rattle.awk_text.specs.definitions.Separators.{separator_by, separator_of};
ghost use Rattle.awk_text.specs.definitions.Fields.{pieces_by, pieces_from_by};

use crate::splitter::Splitter;
use crate::{Separator, Span, TextFault};
use std::alloc::Global;
use std::marker::Model;

// Whether two texts are the same. Most separators are one byte.
#[inline(always)]
fn is_same(one: &[u8], other: &[u8]) -> bool
    ensures { (result ≡ true) ↔ (one.now ≡ other.now) }
{
    match (one, other) {
        ([one], [other]) => one == other,
        _ => one == other,
    }
}

/// What separates the fields of many texts: what a value of FS stands for, and whether newlines separate too. It is made
/// once, with the memory of its searches.
#[derive(Drop)]
pub struct FieldSeparator {
    text: Vec<u8>,
    newline_too: bool,
    splitter: Splitter,
}

impl Model for FieldSeparator {
    ghost use Rattle.awk_text.specs.definitions.Separators.{Rule, separator_of};
    ghost use Rattle.awk_text.specs.support.Splitters.{StandsFor};

    ghost Value = { Rule };

    ghost view = { λ s. record { text = s.text.items; newline_too = s.newline_too } };

    ghost invariant = { λ s. ∥ StandsFor (separator_of s.text.items) s.newline_too s.splitter ∥₁ };
}

impl FieldSeparator {
    /// What the value of FS stands for (`Separator::of`). One that stands for nothing is refused by `Pattern`. With
    /// `newline_too` a newline separates as well, in an ERE as one more branch. The other error is `Memory`.
    /// (POSIX awk, Regular Expressions; Variables and Special Variables: RS)
    pub fn of(alloc: Global, text: &[u8], newline_too: bool) -> Result<FieldSeparator, TextFault>
        ensures rule { IfOk result (λ s. s ≡ record { text = text.now; newline_too = newline_too }) }
        ensures separator { IfOk result (λ s. separator_of text.now ≡ Ok (separator_by s)) }
        ensures refused { IfErr result (λ e. e ≢ TextFault.Memory → separator_of text.now ≡ Err e) }
    {
        let separator = Separator::of(alloc, text)?;
        let splitter = Splitter::of(alloc, separator, newline_too)?;
        let text = Vec::from_slice(alloc, text)?;
        Ok(FieldSeparator {
            text,
            newline_too,
            splitter,
        })
    }

    /// Whether it is what this value of FS stands for, with newlines that separate or without.
    #[inline(always)]
    pub fn is_of(&self, text: &[u8], newline_too: bool) -> bool
        ensures { (result ≡ true) ↔ (self.now ≡ record { text = text.now; newline_too = newline_too }) }
    {
        self.newline_too == newline_too && is_same(self.text.as_slice(), text)
    }

    /// Adds to `spans` the fields of the text from `rest` on, where one may begin: its front, or the `rest` of a call before.
    /// It ends where `spans` has one at this index, or all are found. The fields that aren't found yet are then those from
    /// `rest` on, also on an `Err`, which is `Memory` alone. No more is looked for than that, but where matches of an ERE
    /// separate and many fields were found: at most as many more as these.
    #[inline(always)]
    pub fn find_fields(
        &mut self,
        text: &[u8],
        index: usize,
        spans: &mut Vec<Span>,
        rest: &mut usize,
    ) -> Result<(), TextFault>
        ensures pieces { stretches_at text.now spans.new.items ++ pieces_from_by self.old text.now rest.new
            ≡ stretches_at text.now spans.old.items ++ pieces_from_by self.old text.now rest.old }
        ensures within { AreSpansOf text.now spans.old.items → AreSpansOf text.now spans.new.items }
        ensures found { IfOk result (λ _. (index < length spans.new.items) ⊎ (length text.now < rest.new)) }
        ensures memory { IfErr result (λ e. e ≡ TextFault.Memory) }
        ensures same { self.new ≡ self.old }
    {
        self.splitter
            .find_fields(text, self.newline_too, index, spans, rest)
    }

    /// Fills `spans` with the fields of the text, in their order. What `spans` held before is gone, also on an `Err`. The
    /// only error is `Memory`.
    pub fn split_text(&mut self, text: &[u8], spans: &mut Vec<Span>) -> Result<(), TextFault>
        ensures pieces { OnOk result (stretches_at text.now spans.new.items ≡ pieces_by self.old text.now) }
        ensures within { OnOk result (AreSpansOf text.now spans.new.items) }
        ensures memory { IfErr result (λ e. e ≡ TextFault.Memory) }
        ensures same { self.new ≡ self.old }
    {
        self.splitter.split_text(text, self.newline_too, spans)
    }
}
