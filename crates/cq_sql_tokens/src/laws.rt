//! What holds of the pieces of a script and of the tokens of a text.
ghost use Rattle.cq_sql_tokens.specs.Laws.{ClosedPiecesFit, OneCut, OneSplit};

/// A script has one list of pieces.
pub fn one_split()
    ensures { OneSplit }
{}

/// A script has no more semicolons that end a piece than bytes.
pub fn closed_pieces_fit()
    ensures { ClosedPiecesFit }
{}

/// A text is cut into tokens in one way.
pub fn one_cut()
    ensures { OneCut }
{}
