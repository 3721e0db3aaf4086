// A regular expression that separates, with the memory of its searches.
ghost use Rattle.std.specs.Prelude.{◌≡◌, ◌<◌, ◌⊎◌, ◌++◌, length, IfOk, IfErr};
ghost use Rattle.awk_ere.specs.definitions.Means.{Means};
ghost use Rattle.awk_ere.specs.support.Table.{IsFor};
ghost use Rattle.awk_ere.specs.definitions.Tree.{Tree};
ghost use Rattle.awk_text.specs.definitions.Fields.{ere_pieces_from};
ghost use Rattle.awk_text.specs.definitions.Pieces.{stretches_at, AreSpansOf};
ghost use Rattle.awk_text.specs.definitions.Separators.{or_newline};

use crate::between::find_between;
use crate::{Span, TextFault};
use awk_ere::{Pattern, Scratch};
use std::alloc::Global;

// The pattern, with a newline as one more branch where newlines separate too.
fn with_newline(alloc: Global, pattern: Pattern, newline_too: bool) -> Result<Pattern, TextFault>
    ensures means { (t : Tree) → Means t pattern → IfOk result (Means (or_newline newline_too t)) }
    ensures memory { IfErr result (λ e. e ≡ TextFault.Memory) }
{
    if newline_too {
        pattern.or_newline(alloc).map_err(|_| TextFault::Memory)
    } else {
        Ok(pattern)
    }
}

/// A pattern, and the memory of its searches.
#[derive(Drop)]
pub struct Matcher {
    pub pattern: Pattern,
    scratch: Scratch,
    ghost fits: { IsFor scratch pattern },
}

impl Matcher {
    /// A pattern that was read, with a newline as one more branch where newlines separate too. The only error is `Memory`.
    pub fn of(alloc: Global, pattern: Pattern, newline_too: bool) -> Result<Matcher, TextFault>
        ensures means { (t : Tree) → Means t pattern → IfOk result (λ m. Means (or_newline newline_too t) m.pattern) }
        ensures memory { IfErr result (λ e. e ≡ TextFault.Memory) }
    {
        let pattern = with_newline(alloc, pattern, newline_too)?;
        let scratch = Scratch::for_pattern(alloc, &pattern).map_err(|_| TextFault::Memory)?;
        Ok(Matcher { pattern, scratch })
    }

    /// Finds on until there is a field at this index, or all are found (`find_between`).
    pub fn find_fields(
        &mut self,
        text: &[u8],
        index: usize,
        spans: &mut Vec<Span>,
        rest: &mut usize,
    ) -> Result<(), TextFault>
        ensures pieces { (t : Tree) → Means t self.old.pattern →
            stretches_at text.now spans.new.items ++ ere_pieces_from t text.now rest.new
            ≡ stretches_at text.now spans.old.items ++ ere_pieces_from t text.now rest.old }
        ensures within { AreSpansOf text.now spans.old.items → AreSpansOf text.now spans.new.items }
        ensures found { IfOk result (λ _. (index < length spans.new.items) ⊎ (length text.now < rest.new)) }
        ensures memory { IfErr result (λ e. e ≡ TextFault.Memory) }
        ensures same { self.new.pattern ≡ self.old.pattern }
    {
        find_between(&self.pattern, &mut self.scratch, text, index, spans, rest)
    }
}
