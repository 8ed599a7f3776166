// The theory of pairing the rows of two nets, one with one. It has no code but functions whose contracts are its theorems.
#![tactic(auto)]

ghost use Rattle.pairing.specs.Pieces.{Exchange};
ghost use Rattle.pairing.specs.Rows.{AlikeByRows};

/// Sending a whole piece elsewhere, and what was there back, renumbers as well: pairing a piece with the first one that fits loses nothing.
pub fn exchange_of_pieces()
    ensures { Exchange }
{}

/// Two nets are alike exactly when their loop numbers are equal and their rows can be renumbered.
pub fn alike_by_rows()
    ensures { AlikeByRows }
{}
