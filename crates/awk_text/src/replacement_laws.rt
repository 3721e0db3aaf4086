// Laws of replacing.
ghost use Rattle.std.specs.Prelude.{◌≡◌, ℕ, Bool, List};
ghost use Rattle.awk_ere.specs.definitions.Tree.{Tree};
ghost use Rattle.awk_text.specs.definitions.Replaced.{Replaced};

/// There is one way to replace the matches of a pattern in a text: one number of them, and one text.
pub fn one_replaced()
    ensures { (t : Tree) (replacement text : List ℕ) (all : Bool) (m n : ℕ) (one other : List ℕ) →
        Replaced t replacement text all m one → Replaced t replacement text all n other → (m ≡ n) × (one ≡ other) }
{}
