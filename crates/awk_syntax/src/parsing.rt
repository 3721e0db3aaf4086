// Parses all tokens of a program, and then checks its EREs.

ghost use Rattle.std.specs.Prelude.{◌≡◌, List, IfOk, OnOk, IfErr};
ghost use Rattle.awk_grammar.specs.definitions.Tree as t;
ghost use Rattle.awk_grammar.specs.definitions.Spelling.{IsProgram};
ghost use Rattle.awk_grammar.specs.definitions.View.{tree_of};
ghost use Rattle.awk_lex.specs.Told.{kinds_of};
ghost use Rattle.awk_syntax.specs.definitions.Patterns.{AreReadable};
ghost use Rattle.awk_syntax.specs.definitions.Outcome.{IsProgramWithinHeight, Reads, Justifies};
ghost use Rattle.awk_syntax.specs.definitions.Lines.{TellsLine};

use crate::patterns::check_patterns;
use crate::read::read;
use awk_grammar::laws::parser_law;
use awk_grammar::tree::Tree;
use awk_lex::refusal::Refusal;
use awk_lex::token::Token;
use std::alloc::Global;

/// The tree that the tokens spell (POSIX awk, Grammar).
///
/// An S1 names the line of the first token that can't stand where it stands, or of the last token
/// where the text ended too early; an S2 names line 1. Where neither is answered, P1, P2 and P3 are
/// for the leftmost ERE that is no pattern within the limits (POSIX awk, Regular Expressions), and
/// name the line on which it begins. The time is linear in the number of tokens and in what reading
/// the EREs takes, and no nesting of the text is a nesting of calls.
pub fn parse(alloc: Global, tokens: &[Token]) -> Result<Tree, Refusal>
    // What is read is spelled so and keeps precedence, and not too high. Its EREs are patterns.
    ensures found { IfOk result (λ tree. IsProgramWithinHeight (kinds_of tokens.now) (tree_of tree)) }
    ensures readable { OnOk result (AreReadable (kinds_of tokens.now)) }
    // Every such program is read, unless memory is refused.
    ensures only { (items : List t.Item) → IsProgramWithinHeight (kinds_of tokens.now) items
        → AreReadable (kinds_of tokens.now) → Reads result items }
    // S1 only where no tree spells the tokens at all, S2 only where one does that is too high, and a
    // P code only where one does that is not, for the leftmost ERE that is no pattern.
    ensures refused { IfErr result (λ refusal. Justifies refusal.code refusal.line tokens.now) }
    // No program begins with the tokens up to the one whose line an S1 names; or the text ended too early.
    ensures line { IfErr result (λ refusal. TellsLine refusal.code refusal.line tokens.now) }
{
    parser_law();
    let tree = read(alloc, tokens)?;
    check_patterns(alloc, tokens)?;
    Ok(tree)
}

/// Tokens have one tree at most, however high it is.
pub fn one_tree()
    ensures { (tokens : List _) (xs ys : List t.Item) → IsProgram tokens xs
        → IsProgram tokens ys → xs ≡ ys }
{
    awk_grammar::laws::one_tree();
}
