// Prefilters: a pattern that is a text and nothing else is searched for as that text, and places where no match can begin
// are passed over.

ghost use Rattle.std.specs.Prelude.{◌≡◌, ◌≤◌, length, IfOk, IfErr};
ghost use Rattle.std.specs.Option.{option_map};
ghost use Rattle.awk_ere.specs.definitions.Tree.{Tree, NoneFrom};
ghost use Rattle.awk_ere.specs.definitions.Means.{Means};
ghost use Rattle.awk_ere.specs.support.Table.{Serves, IsLiteral};

use crate::dfa::cursor::first_state;
use crate::dfa::table::DEAD;
use crate::fault::PatternFault;
use crate::pattern::Pattern;
use crate::program::Instruction;
use crate::scratch::Scratch;
use memchr::memmem::Finder;
use std::alloc::Global;

impl Pattern {
    // The bytes that the pattern reads one after another, where it does nothing else.
    fn literal_bytes(&self, alloc: Global) -> Result<Option<Vec<u8>>, PatternFault>
        ensures bytes { IfOk result (λ bytes. IsLiteral (option_map (λ b. b.items) bytes) self.now) }
        ensures memory { IfErr result (λ fault. fault ≡ PatternFault.Memory) }
    {
        let mut bytes = Vec::new(alloc);
        for instruction in &self.program.instructions {
            let Instruction::Byte(byte) = instruction else {
                return Ok(None);
            };
            bytes.push(*byte)?;
        }
        Ok(Some(bytes))
    }

    /// A search for the text that the pattern is, where it is one.
    pub(crate) fn literal_finder(
        &self,
        alloc: Global,
    ) -> Result<Option<Finder<'static>>, PatternFault>
        ensures literal { IfOk result (λ finder. IsLiteral finder self.now) }
        ensures memory { IfErr result (λ fault. fault ≡ PatternFault.Memory) }
    {
        match self.literal_bytes(alloc)? {
            Some(bytes) => Ok(Some(Finder::new(&bytes).into_owned(alloc)?)),
            None => Ok(None),
        }
    }

    // The first place at or behind `from` where a match may begin, or the text's end.
    pub(crate) fn next_candidate(&self, text: &[u8], from: usize, scratch: &Scratch) -> usize
        requires same { Serves scratch.now self.now }
        requires within { from ≤ length text.now }
        ensures order { from ≤ result }
        ensures within { result ≤ length text.now }
        ensures none { (t : Tree) → Means t self.now → NoneFrom t text.now from result }
    {
        if from == text.len() {
            return from;
        }
        let transitions = scratch.table.unanchored.as_slice();
        if transitions[first_state(from) as usize + text[from] as usize] != DEAD {
            return from;
        }
        for k in from + 1..text.len() {
            if transitions[DEAD as usize + text[k] as usize] != DEAD {
                return k;
            }
        }
        text.len()
    }
}
