// Fields between blanks.
ghost use Rattle.std.specs.Prelude.{◌≡◌, ◌<◌, ◌⊎◌, ◌++◌, Bool, length, IfOk, IfErr};
ghost use Rattle.awk_text.specs.definitions.Pieces.{stretches_at, AreSpansOf};
ghost use Rattle.awk_text.specs.definitions.Separators.{blanks};
ghost use Rattle.awk_text.specs.definitions.Fields.{pieces_from};

use crate::marks::Turns;
use crate::{Span, TextFault};

/// Adds to `spans` the fields from `rest` on, where one may begin, until there is one at this index, or all are found. The fields
/// that aren't found yet are then those from `rest` on. The only error is `Memory`.
#[inline(always)]
pub(crate) fn find_between_blanks(
    text: &[u8],
    index: usize,
    spans: &mut Vec<Span>,
    rest: &mut usize,
) -> Result<(), TextFault>
    ensures pieces { (newline_too : Bool) →
        stretches_at text.now spans.new.items ++ pieces_from blanks newline_too text.now rest.new
        ≡ stretches_at text.now spans.old.items ++ pieces_from blanks newline_too text.now rest.old }
    ensures within { AreSpansOf text.now spans.old.items → AreSpansOf text.now spans.new.items }
    ensures found { IfOk result (λ _. (index < length spans.new.items) ⊎ (length text.now < rest.new)) }
    ensures memory { IfErr result (λ e. e ≡ TextFault.Memory) }
{
    if *rest >= text.len() {
        *rest = text.len() + 1;
        return Ok(());
    }
    let mut turns = Turns::behind(*rest);
    while spans.len() <= index {
        let start = turns.next(text);
        if start == text.len() {
            *rest = text.len() + 1;
            return Ok(());
        }
        let end = turns.next(text);
        spans.push(Span { start, end })?;
        *rest = end + 1;
    }
    Ok(())
}
