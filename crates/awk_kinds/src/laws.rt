// Laws of kinds, of refusals and of the names of arrays.

ghost use Rattle.std.specs.Prelude.{List};
ghost use Rattle.awk_grammar.specs.Tree.{Item};
ghost use Rattle.awk_kinds.specs.definitions.Fits.{LawOfRefusals};
ghost use Rattle.awk_kinds.specs.definitions.Kinds.{LawOfKinds};
ghost use Rattle.awk_kinds.specs.definitions.Signatures.{LawOfArrayNames};

/// A program fits exactly where nothing is told against it.
#[tactic(auto, using(crate::proofs::FitsLaw::law_of_refusals))]
pub fn law_of_refusals()
    ensures { (items : List Item) → LawOfRefusals items }
{}

/// The arrays of a program are the least set that its uses tell.
pub fn law_of_kinds()
    ensures { LawOfKinds }
{}

/// The names of arrays are ARGV, ENVIRON and those of the other arrays of the whole program, each once.
pub fn law_of_array_names()
    ensures { LawOfArrayNames }
{}
