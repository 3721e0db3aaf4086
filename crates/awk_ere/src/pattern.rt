// A pattern that was read.

ghost use Rattle.std.specs.Prelude.{◌≡◌, IfOk, IfErr};
ghost use Rattle.awk_ere.specs.definitions.Tree.{Tree};
ghost use Rattle.awk_ere.specs.definitions.Limits.{Refused, SpellsWithin};
ghost use Rattle.awk_ere.specs.definitions.Means.{Means};

use crate::compile::compile;
use crate::fault::PatternFault;
use crate::program::Program;
use std::alloc::Global;

/// A pattern, ready to be searched for.
#[derive(Drop)]
pub struct Pattern {
    pub(crate) program: Program,
}

impl Pattern {
    /// Reads an extended regular expression (XBD 9.4). The empty text is the pattern that matches the empty text.
    ///
    /// At most 200 parentheses may be open at once, and the size may be at most 10,000. The size is 1 for a byte, `.`, a
    /// bracket, an anchor and the empty pattern; a branch has the sum of its pieces, `|` the sum of both sides and 1 more,
    /// `r*`, `r+` and `r?` the size of `r` and 1 more, `r{m}` m times that size and 1 more, `r{m,}` m + 1 times and 1 more,
    /// and `r{m,n}` n times and 1 more.
    ///
    /// A text that is no pattern, even if counts and the order of ranges are ignored, is `IllFormed`; else it is
    /// `BadCount` where a count is above 255, a least count above its greatest or a range descends; else it is `TooLarge`
    /// where it exceeds a limit. `Memory` is answered only where a growth was refused. The time is linear in the text,
    /// but for repeats of repeats, each of which moves its body; no nesting of the text is a nesting of calls.
    pub fn read(alloc: Global, text: &[u8]) -> Result<Pattern, PatternFault>
        ensures found { IfOk result (λ p. (t : Tree) × SpellsWithin t text.now × Means t p) }
        ensures refused { IfErr result (λ e. Refused e text.now) }
    {
        let program = compile(alloc, text)?;
        Ok(Pattern { program })
    }
}
