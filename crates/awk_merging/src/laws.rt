// Laws of what is gathered by key, and of the programs that are derived of one that sums up.

ghost use Rattle.std.specs.Prelude.{ℕ, List};
ghost use Rattle.awk_value.specs.Arrays.{Array};
ghost use Rattle.awk_value.specs.declared.value.Value.{Value};
ghost use Rattle.awk_semantics.specs.definitions.Semantics.{Functions};
ghost use Rattle.awk_semantics.specs.definitions.State.{State};
ghost use Rattle.awk_merging.specs.definitions.Examples.{ExamplesOfClass, ExamplesOfMerging};
ghost use Rattle.awk_merging.specs.definitions.Gathering.{LawOfGathering, LawOfWays};
ghost use Rattle.awk_merging.specs.definitions.LawOfAdditions.{LawOfAdditions};
ghost use Rattle.awk_merging.specs.definitions.LawOfAll.{LawOfAll};
ghost use Rattle.awk_merging.specs.definitions.LawOfCells.{LawOfCells, LawOfNewlines};
ghost use Rattle.awk_merging.specs.definitions.LawOfDerived.{LawOfDerived};
ghost use Rattle.awk_merging.specs.definitions.LawOfEach.{LawOfEach};
ghost use Rattle.awk_merging.specs.definitions.LawOfEnd.{LawOfEnd};
ghost use Rattle.awk_merging.specs.definitions.LawOfMerging.{LawOfMerging};
ghost use Rattle.awk_merging.specs.definitions.LawOfReading.{LawOfReading};
ghost use Rattle.awk_merging.specs.definitions.LawOfRules.{LawOfRules};
ghost use Rattle.awk_merging.specs.definitions.LawOfStates.{LawOfStates};
ghost use Rattle.awk_merging.specs.definitions.LawOfSums.{LawOfSums};

/// What a table gathers of updates is the table, with replayed on it what they gather by themselves; and
/// what the parts of a whole gather, replayed in turn, is what the whole gathers.
#[tactic(auto, using(crate::proofs::Gathering::law_of_gathering))]
pub fn law_of_gathering<V, U>()
    ensures { LawOfGathering V U }
{}

/// What is gathered as sums, as last or first values, as texts behind one another or as greatest numbers can
/// be replayed.
pub fn law_of_ways<V>()
    ensures { LawOfWays V }
{}

/// The statements that print the sums of a program print their cells, in the order of the keys.
#[tactic(auto, using(crate::proofs::Cells::law_of_cells))]
pub fn law_of_cells()
    ensures { LawOfCells }
{}

/// Where a key has a newline, it isn't printed, and the run ends with status 1.
#[tactic(auto, using(crate::proofs::Cells::law_of_newlines))]
pub fn law_of_newlines()
    ensures { LawOfNewlines }
{}

/// The rules that read cells keep the first two lines of each, and add the third to the sum that these name.
#[tactic(auto, using(crate::proofs::Reading::law_of_reading))]
pub fn law_of_reading()
    ensures { LawOfReading }
{}

/// An addition of a rule is an update of its sum.
#[tactic(auto, using(crate::proofs::Additions::law_of_additions))]
pub fn law_of_additions()
    ensures { (functions : Functions) (base : State) (arrays : List Array) (v : List ℕ → Value) (k : ℕ) →
        LawOfAdditions functions base arrays v k }
{}

/// Where an input begins with the text of cells, the rules that read cells add each to its sum, in turn.
#[tactic(auto, using(crate::proofs::States::law_of_states))]
pub fn law_of_states()
    ensures { LawOfStates }
{}

/// Behind what pieces print of their sums, each sum is what all updates of the pieces gather.
#[tactic(auto, using(crate::proofs::SumsMerged::law_of_sums))]
pub fn law_of_sums()
    ensures { LawOfSums }
{}

/// The parts of the two programs that are derived of one that sums up do what its own parts do, print its sums, and read
/// them.
#[tactic(auto, using(crate::proofs::DerivedParts::law_of_derived))]
pub fn law_of_derived()
    ensures { LawOfDerived }
{}

/// On a record the rules of a program that sums up do where something was summed up before what they do from no sums, and add
/// the same there.
#[tactic(auto, using(crate::proofs::RulesSum::law_of_rules))]
pub fn law_of_rules()
    ensures { LawOfRules }
{}

/// END does the same on two states that hold the same sums, where steps are enough.
pub fn law_of_end()
    ensures { LawOfEnd }
{}

/// On a piece of the input the first of the derived programs does what the program does before its END, and then it
/// prints the sums.
#[tactic(auto, using(crate::proofs::FirstRun::law_of_each))]
pub fn law_of_each()
    ensures { LawOfEach }
{}

/// On the text of cells the second of the derived programs does what the program's END does where all of them are summed up.
#[tactic(auto, using(crate::proofs::SecondRun::law_of_all))]
pub fn law_of_all()
    ensures { LawOfAll }
{}

/// Where the first of the derived programs ends with status 0 on each piece of an input, one run of the program over the whole
/// ends as the second one does over what the first one printed, joined in order, and prints the same; or with fault 3, where a
/// sum leaves the range.
pub fn law_of_merging()
    ensures { LawOfMerging }
{}

/// A program that sums up is one, and one that reads a sum or its record's number in a rule, prints or sets a sum there, or
/// reads a record in END, isn't. The programs that are derived of one print, over two pieces, what it prints over both.
pub fn examples()
    ensures class { ExamplesOfClass }
    ensures merging { ExamplesOfMerging }
{}
