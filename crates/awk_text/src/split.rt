// Splits one text.
ghost use Rattle.std.specs.Prelude.{◌≡◌, OnOk, IfErr};
ghost use Rattle.awk_text.specs.definitions.Pieces.{stretches_at, AreSpansOf};
ghost use Rattle.awk_text.specs.definitions.Separators.{Separator as SeparatorSpec, IsSeparator};
ghost use Rattle.awk_text.specs.definitions.Fields.{pieces_of};

use crate::splitter::Splitter;
use crate::{Separator, Span, TextFault};
use std::alloc::Global;

/// Fills `spans` with the fields of the text, in their order: between blanks the stretches that hold none and are as long
/// as can be, between other separators also the empty ones; an empty text has no field. With `newline_too` a newline
/// separates as well, in an ERE as one more branch. What `spans` held before is gone; on an `Err` what it holds is open.
/// The only error is `Memory`. For many texts make a `FieldSeparator` once. (POSIX awk, Regular Expressions; String
/// Functions: split)
pub fn split_text(
    alloc: Global,
    text: &[u8],
    separator: Separator,
    newline_too: bool,
    spans: &mut Vec<Span>,
) -> Result<(), TextFault>
    ensures pieces { (s : SeparatorSpec) → IsSeparator s separator →
        OnOk result (stretches_at text.now spans.new.items ≡ pieces_of s newline_too text.now) }
    ensures within { OnOk result (AreSpansOf text.now spans.new.items) }
    ensures memory { IfErr result (λ e. e ≡ TextFault.Memory) }
{
    let mut splitter = Splitter::of(alloc, separator, newline_too)?;
    splitter.split_text(text, newline_too, spans)
}
