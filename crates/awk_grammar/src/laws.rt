// Laws over the definitions: what the parser over lists answers, and that tokens have one tree at most.

ghost use Rattle.std.specs.Prelude.{◌≡◌, ◌≤◌, ◌<◌, ℕ, List, Some, None};
ghost use Rattle.awk_grammar.specs.definitions.Tree as t;
ghost use Rattle.awk_grammar.specs.definitions.Height.{height_of_program};
ghost use Rattle.awk_grammar.specs.definitions.Spelling.{IsProgram};
ghost use Rattle.awk_grammar.specs.definitions.Answer.{Says};
ghost use Rattle.awk_grammar.specs.support.Parser as parser;

/// What the parser over lists answers, where heights up to a limit of at least 3 are allowed: the items
/// of the tokens, that they are too high, or that there are none (POSIX awk, Grammar).
pub fn parser_law()
    // What it answers is so.
    ensures says { (limit : ℕ) (tokens : List _) → 3 ≤ limit → Says limit tokens (parser.read limit tokens) }
    // A program that is not too high is read.
    ensures reads { (limit : ℕ) (tokens : List _) (items : List t.Item) → 3 ≤ limit
        → IsProgram tokens items → height_of_program items ≤ limit → parser.read limit tokens ≡ Some (Some items) }
    // One that is too high is told so.
    ensures too_high { (limit : ℕ) (tokens : List _) (items : List t.Item) → 3 ≤ limit
        → IsProgram tokens items → limit < height_of_program items → parser.read limit tokens ≡ Some None }
{}

/// Tokens have one tree at most, however high it is.
pub fn one_tree()
    ensures { (tokens : List _) (xs ys : List t.Item) → IsProgram tokens xs
        → IsProgram tokens ys → xs ≡ ys }
{}
