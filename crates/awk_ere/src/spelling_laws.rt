// Laws of how a pattern is written.

ghost use Rattle.std.specs.Prelude.{◌≡◌, ◌↔◌, ℕ, List, Some};
ghost use Rattle.awk_ere.specs.definitions.Tree.{Tree};
ghost use Rattle.awk_ere.specs.definitions.Written.{Spells};
ghost use Rattle.awk_ere.specs.definitions.Limits.{SpellsWithin, Refused};
ghost use Rattle.awk_ere.specs.definitions.Desugared.{IsOrdered};
ghost use Rattle.awk_ere.specs.support.PatternOf.{pattern_of};
ghost use Rattle.awk_ere.specs.declared.fault.PatternFault.{PatternFault};
ghost use Rattle.awk_ere.specs.declared.fault.PatternFault.TheVariants.{Memory};

/// A text spells at most one pattern.
pub fn one_pattern()
    ensures { (text : List ℕ) (t u : Tree) → Spells t text → Spells u text → t ≡ u }
{}

/// Which pattern a text spells within the limits is decided: `pattern_of` gives it, or none. Its counts are in order.
pub fn pattern_law()
    ensures decided { (text : List ℕ) (t : Tree) → (pattern_of text ≡ Some t) ↔ SpellsWithin t text }
    ensures ordered { (text : List ℕ) (t : Tree) → pattern_of text ≡ Some t → IsOrdered t }
{}

/// A text that is spelled within the limits is refused for want of memory alone.
pub fn read_exactly()
    ensures { (t : Tree) (text : List ℕ) (fault : PatternFault) → SpellsWithin t text
        → Refused fault text → fault ≡ Memory }
{}
