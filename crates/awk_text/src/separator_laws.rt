// Laws of separators and of the pieces that they leave.
ghost use Rattle.std.specs.Prelude.{◌≡◌, ◌≢◌, ◌↔◌, ◌<◌, ℕ, Bool, true, List, [], ◌∷◌, ◌++◌, length, Ok};
ghost use Rattle.awk_ere.specs.definitions.Tree.{Tree};
ghost use Rattle.awk_ere.specs.definitions.Desugared.{IsOrdered};
ghost use Rattle.awk_text.specs.declared.span.Span.{Span};
ghost use Rattle.awk_text.specs.definitions.Pieces.{AreBlank, IsPiece, is_blank_or_newline};
ghost use Rattle.awk_text.specs.definitions.Separators.{Separator, blanks, byte, ere, separator_of, or_newline, AreSeparators};
ghost use Rattle.awk_text.specs.definitions.Fields.{separates, HoldsNone, pieces_of, pieces_from};
ghost use Rattle.awk_text.specs.support.ChosenSeparators.{separators_from};

/// The pieces of a text between blanks, read off from its front: blanks are skipped, and a piece goes up to the next blank
/// or to the end.
#[inline(always)]
pub fn pieces_law()
    ensures none { (n : Bool) (gap : List ℕ) → AreBlank gap → pieces_of blanks n gap ≡ [] }
    ensures last { (n : Bool) (gap piece : List ℕ) → AreBlank gap → IsPiece piece →
        pieces_of blanks n (gap ++ piece) ≡ piece ∷ [] }
    ensures next { (n : Bool) (gap piece : List ℕ) (blank : ℕ) (rest : List ℕ) →
        AreBlank gap → IsPiece piece → is_blank_or_newline blank ≡ true →
        pieces_of blanks n (gap ++ (piece ++ blank ∷ rest)) ≡ piece ∷ pieces_of blanks n rest }
{}

/// The pieces of a text between the places of a byte, or of newlines too, read off from its front: a piece goes up to the
/// next such place or to the end. An empty text has none, and behind a separator at the end stands an empty one.
#[inline(always)]
pub fn byte_pieces_law()
    ensures none { (b : ℕ) (n : Bool) → pieces_of (byte b) n [] ≡ [] }
    ensures last { (b : ℕ) (n : Bool) (piece : List ℕ) → HoldsNone (separates b n) piece → piece ≢ [] →
        pieces_of (byte b) n piece ≡ piece ∷ [] }
    ensures next { (b : ℕ) (n : Bool) (piece : List ℕ) (c : ℕ) (rest : List ℕ) →
        HoldsNone (separates b n) piece → separates b n c ≡ true → rest ≢ [] →
        pieces_of (byte b) n (piece ++ c ∷ rest) ≡ piece ∷ pieces_of (byte b) n rest }
    ensures end { (b : ℕ) (n : Bool) (piece : List ℕ) (c : ℕ) →
        HoldsNone (separates b n) piece → separates b n c ≡ true →
        pieces_of (byte b) n (piece ++ c ∷ []) ≡ piece ∷ [] ∷ [] }
{}

/// Which stretches of a text separate, where an ERE does whose counts are in order, is decided by `separators_from`: from
/// a place on there is one choice, each the leftmost, and of those the longest match with a byte in it that doesn't
/// begin before the end of the one before. The counts of an ERE that a value of FS stands for are in order, also with a
/// newline as one more branch.
#[inline(always)]
pub fn separators_law()
    ensures decided { (t : Tree) (text : List ℕ) (place : ℕ) (ms : List Span) → IsOrdered t →
        AreSeparators t text place ms ↔ (ms ≡ separators_from t text place) }
    ensures ordered { (text : List ℕ) (newline_too : Bool) (t : Tree) → separator_of text ≡ Ok (ere t) →
        IsOrdered (or_newline newline_too t) }
{}

/// From the front of a text on there are all of its pieces, and none past its end.
#[inline(always)]
pub fn pieces_from_law()
    ensures front { (separator : Separator) (newline_too : Bool) (text : List ℕ) →
        pieces_from separator newline_too text 0 ≡ pieces_of separator newline_too text }
    ensures past { (separator : Separator) (newline_too : Bool) (text : List ℕ) (place : ℕ) → length text < place →
        pieces_from separator newline_too text place ≡ [] }
{}
