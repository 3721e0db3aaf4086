// Laws of reading and of matching.

ghost use Rattle.std.specs.Prelude.{◌≡◌, ◌↔◌, ℕ, List, true, Result, IfOk, IfErr};
ghost use Rattle.awk_ere.specs.definitions.Tree.{Tree, Occurs};
ghost use Rattle.awk_ere.specs.definitions.Limits.{SpellsWithin, Refused};
ghost use Rattle.awk_ere.specs.support.PatternOf.{pattern_of};
ghost use Rattle.awk_ere.specs.declared.fault.PatternFault.{PatternFault};
ghost use Rattle.awk_ere.specs.definitions.Desugared.{IsOrdered};
ghost use Rattle.awk_ere.specs.definitions.Means.{occurs, Means, ReadsAs};
ghost use Rattle.awk_ere.specs.declared.pattern.Pattern.{Pattern};

pub use crate::spelling_laws::{one_pattern, pattern_law, read_exactly};

/// Whether a pattern whose counts are in order matches somewhere in a text is decided by `occurs`.
pub fn occurs_law()
    ensures { (t : Tree) (s : List ℕ) → IsOrdered t → (occurs t s ≡ true) ↔ Occurs t s }
{}

/// What reading a text answers, told by what is decided of it.
pub fn read_law()
    ensures { (text : List ℕ) (result : Result Pattern PatternFault)
        → IfOk result (λ p. (t : Tree) × SpellsWithin t text × Means t p)
        → IfErr result (λ fault. Refused fault text) → ReadsAs result (pattern_of text) }
{}
