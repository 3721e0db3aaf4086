// A pattern with a newline as one more branch.

ghost use Rattle.std.specs.Prelude.{◌≡◌, ◌==◌, MatchResult};
ghost use Rattle.awk_ere.specs.definitions.Tree.{class_of, Tree, class, branches, none, next};
ghost use Rattle.awk_ere.specs.definitions.Means.{Means};

use crate::fault::PatternFault;
use crate::pattern::Pattern;
use crate::program::{Instruction, Program};
use std::alloc::Global;

impl Pattern {
    /// The pattern with a newline as one more branch. No size is tested.
    pub fn or_newline(self, alloc: Global) -> Result<Pattern, PatternFault>
        ensures { (t : Tree) → Means t self →
            MatchResult result
            (λ p. Means (branches t (next (class (class_of (λ x. x == 10))) none)) p)
            (λ fault. fault ≡ PatternFault.Memory) }
    {
        let Program {
            instructions,
            classes,
        } = self.program;
        let mut all = Vec::with_capacity(alloc, instructions.len() + 4)?;
        all.push(Instruction::Fork)?;
        all.extend_from_slice(&instructions)?;
        all.extend_from_slice(&[
            Instruction::Swap,
            Instruction::Byte(b'\n'),
            Instruction::Join,
        ])?;
        let program = Program {
            instructions: all,
            classes,
        };
        Ok(Pattern { program })
    }
}
