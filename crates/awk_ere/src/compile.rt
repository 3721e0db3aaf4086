// Compiling the text of an extended regular expression: the check of the whole text, its limits, and the compiler.

ghost use Rattle.std.specs.Prelude.{◌≡◌, IfOk, IfErr};
ghost use Rattle.awk_ere.specs.definitions.Tree.{Tree};
ghost use Rattle.awk_ere.specs.definitions.Limits.{Refused, SpellsWithin};
ghost use Rattle.awk_ere.specs.definitions.Program.{Compiles};
ghost use Rattle.awk_ere.specs.support.CompilerResult.{IsCleanText, Builds};

use crate::check::check;
use crate::compiler::Compiler;
use crate::fault::PatternFault;
use crate::program::Program;
use crate::reading::lexer::token_at;
use crate::token::BYTE_COUNT;
use std::alloc::Global;

/// How many parentheses may be open at once.
const MOST_OPENED: usize = 200;

/// Makes the program of a text whose tokens are those of a pattern, and none of them bad.
fn compile_checked(alloc: Global, text: &[u8]) -> Result<Program, PatternFault>
    requires { IsCleanText text.now }
    ensures { Builds text.now result }
{
    let mut compiler = Compiler::new(alloc);
    let mut class = [false; BYTE_COUNT];
    let mut rest = text;
    while let Some((token, behind)) = token_at(rest, &mut class) {
        if !compiler.take_in(token, &class)? {
            return Err(PatternFault::IllFormed);
        }
        rest = behind;
    }
    compiler.finish()
}

/// Reads an extended regular expression (XBD 9.4). The empty text is the pattern that matches the empty text.
///
/// At most 200 parentheses may be open at once, and the size may be at most 10,000. The size is 1 for a byte, `.`, a
/// bracket, an anchor and the empty pattern; a branch has the sum of its pieces, `|` the sum of both sides and 1 more,
/// `r*`, `r+` and `r?` the size of `r` and 1 more, `r{m}` m times that size and 1 more, `r{m,}` m + 1 times and 1 more,
/// and `r{m,n}` n times and 1 more.
///
/// A text that is no pattern, even if counts and the order of ranges are ignored, is `IllFormed`; else it is
/// `BadCount` where a count is above 255, a least count above its greatest or a range descends; else it is `TooLarge`
/// where it exceeds a limit. `Memory` is answered only where a growth was refused. The time is linear in the text,
/// but for repeats of repeats, each of which moves its body; no nesting of the text is a nesting of calls.
pub(crate) fn compile(alloc: Global, text: &[u8]) -> Result<Program, PatternFault>
    ensures found { IfOk result (λ p. (t : Tree) × SpellsWithin t text.now × Compiles t p) }
    ensures refused { IfErr result (λ e. Refused e text.now) }
{
    let Some(facts) = check(text) else {
        return Err(PatternFault::IllFormed);
    };
    if facts.bad {
        return Err(PatternFault::BadCount);
    }
    if facts.opened > MOST_OPENED {
        return Err(PatternFault::TooLarge);
    }
    if text.is_empty() {
        return Ok(Program {
            instructions: Vec::new(alloc),
            classes: Vec::new(alloc),
        });
    }
    compile_checked(alloc, text)
}
