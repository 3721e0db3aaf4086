// Laws of the language.

ghost use Rattle.std.specs.Prelude.{◌≢◌, ℕ, List, ◌++◌};
ghost use Rattle.awk_streams.specs.Oracle.{Oracle};
ghost use Rattle.awk_grammar.specs.Tree.{Item};
ghost use Rattle.awk_semantics.specs.declared.outcome.Outcome.TheVariants.{Fault};
ghost use Rattle.awk_semantics.specs.declared.fault.Fault.TheVariants.{OutOfMemory, WriteFailed};
ghost use Rattle.awk_semantics.specs.definitions.Meaning.{LawOfLimits, Asked, StartValues, meaning_of};
ghost use Rattle.awk_semantics.specs.definitions.Order.{Stage, MeetsAll};
ghost use Rattle.awk_semantics.specs.support.Unended.{LawOfEnds};
ghost use Rattle.awk_semantics.specs.support.LawOfKeeping.{LawOfKeeping, LawOfItems, SequenceKeeps, ResultKeeps, ChoiceKeeps};

/// A run that isn't stopped at a limit is the same at every larger one, and one that is stopped
/// begins what any larger limit gives.
#[tactic(auto, using(crate::proofs::LawOfLimits::law_of_limits))]
pub fn law_of_limits()
    ensures { LawOfLimits }
{}

/// Parts of a run that meet their requests in turn meet them all, one part after the other.
#[tactic(auto, using(crate::proofs::Requests::meets_append))]
pub fn law_of_turns()
    ensures { (oracle : Oracle) (xs ys : List Asked) (a b c : Stage) → MeetsAll oracle xs a b →
        MeetsAll oracle ys b c → MeetsAll oracle (xs ++ ys) a c }
{}

/// The language itself knows no want of memory and no failed write: no program means F1 or F2.
#[tactic(auto, using(crate::proofs::OwnOutcomes::law_of_outcomes))]
pub fn law_of_outcomes()
    ensures { (items : List Item) (start : StartValues) (oracle : Oracle) (limit : ℕ) →
        ((meaning_of items start oracle limit).outcome ≢ Fault OutOfMemory) ×
        ((meaning_of items start oracle limit).outcome ≢ Fault WriteFailed) }
{}

/// No part of a run before its end says that the run is over.
#[tactic(auto, using(crate::proofs::UnendedRuns::law_of_ends))]
pub fn law_of_ends()
    ensures { LawOfEnds }
{}

/// Each part of a run keeps what names stand for, and raises no steps; so does a call whose body does.
#[tactic(auto, using(crate::proofs::KeepsForms::law_of_keeping))]
pub fn law_of_keeping()
    ensures { LawOfKeeping }
{}

/// The items of a program keep what stands outside all calls, also where `next` or `exit` ends them.
#[tactic(auto, using(crate::proofs::KeepsOutside::law_of_items))]
pub fn law_of_items()
    ensures { LawOfItems }
{}

/// One run and then another keep what both keep.
#[tactic(auto, using(crate::proofs::KeepsForms::sequence_keeps))]
pub fn law_of_sequence<A, B>()
    ensures { SequenceKeeps A B }
{}

/// A result that is had without a change keeps all.
#[tactic(auto, using(crate::proofs::KeepsForms::result_keeps))]
pub fn law_of_results<A>()
    ensures { ResultKeeps A }
{}

/// A choice of two runs keeps what both keep.
#[tactic(auto, using(crate::proofs::KeepsForms::choice_keeps))]
pub fn law_of_choice<A>()
    ensures { ChoiceKeeps A }
{}
