// Laws of the functions of texts.

ghost use Rattle.std.specs.Prelude.{◌≡◌, ◌↔◌, ℕ, Bool, List, Option, None};
ghost use Rattle.awk_ere.specs.Tree.{Tree};
ghost use Rattle.awk_ere.specs.definitions.Desugared.{IsOrdered};
ghost use Rattle.awk_text.specs.declared.span.Span.{Span};
ghost use Rattle.awk_text.specs.definitions.Chosen.{IsNextMatch};
ghost use Rattle.awk_text.specs.definitions.Functions.{IsPositionOf};
ghost use Rattle.awk_text.specs.definitions.Replaced.{Replaced, Replaces};
ghost use Rattle.awk_text.specs.support.Search.{FindsFrom};
ghost use Rattle.awk_semantics.specs.definitions.Texts.{position_of, find_from, exchanged};
ghost use Rattle.awk_semantics.specs.support.Exchanged.{IsExchange};

/// The position of a part in a text is decided by `position_of`.
#[tactic(auto, using(crate::proofs::PositionDecided::position_decides))]
pub fn law_of_positions()
    ensures { (part text : List ℕ) (position : ℕ) →
        IsPositionOf part text position ↔ (position ≡ position_of part text) }
{}

/// What a pattern whose counts are in order finds in a text is decided by `find_from`: from a place on the leftmost,
/// and of those the longest match.
#[tactic(auto, using(crate::proofs::ChosenMatches::find_decides, crate::proofs::ChosenMatches::first_decides))]
pub fn law_of_matches()
    ensures from { (t : Tree) (text : List ℕ) (place : ℕ) (found : Option Span) → IsOrdered t →
        FindsFrom t text place found ↔ (found ≡ find_from t text place) }
    ensures first { (t : Tree) (text : List ℕ) (found : Option Span) → IsOrdered t →
        IsNextMatch t text None found ↔ (found ≡ find_from t text 0) }
{}

/// How many matches of a pattern whose counts are in order are replaced, and the text then, is decided by `exchanged`.
#[tactic(auto, using(crate::proofs::ChosenMatches::replaces_decides))]
pub fn law_of_exchanges()
    ensures replaced { (t : Tree) (replacement text : List ℕ) (all : Bool) (count : ℕ) (other : List ℕ) → IsOrdered t →
        Replaced t replacement text all count other
        ↔ ((count ≡ (exchanged all t replacement text).count) × (other ≡ (exchanged all t replacement text).text)) }
    ensures answered { (t : Tree) (replacement text : List ℕ) (all : Bool) (count : Option ℕ) (other : List ℕ) →
        IsOrdered t → Replaces t replacement text all count other →
        IsExchange (exchanged all t replacement text) text count other }
{}
