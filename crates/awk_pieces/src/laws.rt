// The law of pieces.

ghost use Rattle.awk_pieces.specs.definitions.LawOfPieces.{LawOfPieces};

/// What a program that treats each record for itself prints on an input is what it prints on the
/// pieces of the input, cut behind any newline, one behind the other.
pub fn law_of_pieces()
    ensures { LawOfPieces }
{}
