// Patterns that are a run of bytes of one class and nothing else, as `[0-9]+`. Where such a match begins and ends is read
// off the class.

ghost use Rattle.std.specs.Prelude.{◌≡◌, ◌<◌, ◌≤◌, length, slice_index, IfSome};
ghost use Rattle.awk_ere.specs.definitions.Tree.{has};
ghost use Rattle.awk_ere.specs.support.Run.{IsRunOf, IsFirstRun, Stays};

use crate::pattern::Pattern;
use crate::program::Instruction;
use crate::token::BYTE_COUNT;

impl Pattern {
    /// The class of which each match is a run, where the pattern is one or more bytes of a class and nothing else.
    #[inline]
    pub(crate) fn run_class(&self) -> Option<&[bool; BYTE_COUNT]>
        ensures { IfSome result (λ class. IsRunOf class.now self.now) }
    {
        match self.program.instructions.as_slice() {
            [
                Instruction::Enter(2),
                Instruction::Class(number),
                Instruction::Leave,
            ] => self.program.classes.as_slice().get(*number as usize),
            _ => None,
        }
    }
}

// The first place at or behind `from` where it changes whether the byte is in the class, or the text's end.
#[inline(always)]
fn end_of_stretch(class: &[bool; BYTE_COUNT], inside: bool, text: &[u8], from: usize) -> usize
    requires { from ≤ length text.now }
    ensures order { from ≤ result }
    ensures within { result ≤ length text.now }
    ensures stays { Stays inside class.now text.now from result }
    ensures other { result < length text.now →
        has class.now (slice_index text.now result) ≡ inside → ⊥ }
{
    for k in from..text.len() {
        if class[text[k] as usize] != inside {
            return k;
        }
    }
    text.len()
}

/// The first run of the class's bytes at or behind a place, with all bytes of the run.
#[inline(always)]
pub(crate) fn first_run(
    class: &[bool; BYTE_COUNT],
    text: &[u8],
    from: usize,
) -> Option<(usize, usize)>
    requires { from ≤ length text.now }
    ensures { IsFirstRun class.now text.now from result }
{
    let start = end_of_stretch(class, false, text, from);
    if start == text.len() {
        return None;
    }
    Some((start, end_of_stretch(class, true, text, start)))
}
