// A text that stands in each match of a pattern: bytes that the program reads one behind another, in no branch and no body
// that may come again.

ghost use Rattle.std.specs.Prelude.{◌≡◌, ◌+◌, ◌<◌, ◌≤◌, ◌^◌, true, [], length, None, IfOk, IfErr};
ghost use Rattle.awk_ere.specs.definitions.Tree.{Tree, Finds};
ghost use Rattle.awk_ere.specs.definitions.Means.{Means};
ghost use Rattle.awk_ere.specs.support.Table.{Serves};
ghost use Rattle.awk_ere.specs.support.Required.{IsRequired};
ghost use Rattle.awk_ere.specs.support.RequiredRun as spec;

use crate::fault::PatternFault;
use crate::pattern::Pattern;
use crate::program::Instruction;
use crate::scratch::Scratch;
use memchr::memmem::Finder;
use std::alloc::Global;
use std::mem::swap;

// Fewer bytes are not worth a search of their own.
const LEAST: usize = 2;

/// Shorter texts are not searched for what a match begins with or holds.
pub(crate) const LONG: usize = 32;

// How many branches and bodies are open behind an instruction.
fn depth_behind(depth: usize, instruction: Instruction) -> usize
    requires { depth + 1 < 2 ^ 64 }
    ensures { result ≡ spec.depth_behind instruction depth }
{
    match instruction {
        Instruction::Fork | Instruction::Enter(_) => depth + 1,
        Instruction::Join | Instruction::Leave => depth.saturating_sub(1),
        _ => depth,
    }
}

// The byte that is read where none is open.
fn byte_at(depth: usize, instruction: Instruction) -> Option<u8>
    ensures { result ≡ spec.byte_at depth instruction }
{
    if depth != 0 {
        return None;
    }
    match instruction {
        Instruction::Byte(byte) => Some(byte),
        _ => None,
    }
}

// Ends a run, which is kept where it is longer than the longest.
fn end_run(run: &mut Vec<u8>, longest: &mut Vec<u8>)
    ensures run { run.new.items ≡ [] }
    ensures longest { longest.new.items ≡ spec.longer run.old.items longest.old.items }
{
    if run.len() > longest.len() {
        swap(run, longest);
    }
    run.clear();
}

impl Pattern {
    // The longest run of bytes that stands in each match.
    fn longest_run(&self, alloc: Global) -> Result<Vec<u8>, PatternFault>
        ensures run { IfOk result (λ run. run.items ≡ spec.longest_run self.now.program.instructions.items 0 [] []) }
        ensures memory { IfErr result (λ fault. fault ≡ PatternFault.Memory) }
    {
        let mut longest = Vec::new(alloc);
        let mut run = Vec::new(alloc);
        let mut depth = 0;
        for instruction in &self.program.instructions {
            depth = depth_behind(depth, *instruction);
            match byte_at(depth, *instruction) {
                Some(byte) => run.push(byte)?,
                None => end_run(&mut run, &mut longest),
            }
        }
        end_run(&mut run, &mut longest);
        Ok(longest)
    }

    /// A search for a text that stands in each match, where one is known that is worth it.
    pub(crate) fn required_finder(
        &self,
        alloc: Global,
    ) -> Result<Option<Finder<'static>>, PatternFault>
        ensures required { IfOk result (λ finder. IsRequired finder self.now) }
        ensures memory { IfErr result (λ fault. fault ≡ PatternFault.Memory) }
    {
        let bytes = self.longest_run(alloc)?;
        if bytes.len() < LEAST {
            return Ok(None);
        }
        Ok(Some(Finder::new(&bytes).into_owned(alloc)?))
    }

    /// Whether a long text, from a place on, is known to have no match, since the text that stands in each match is missing.
    #[inline]
    pub(crate) fn lacks_required(&self, text: &[u8], from: usize, scratch: &Scratch) -> bool
        requires same { Serves scratch.now self.now }
        requires within { from ≤ length text.now }
        ensures { result ≡ true → (t : Tree) → Means t self.now → Finds t text.now from None }
    {
        if text.len() - from < LONG {
            return false;
        }
        match &scratch.required {
            Some(finder) => finder.find(&text[from..]).is_none(),
            None => false,
        }
    }
}
