ghost use Rattle.scxsim_template.specs.Pieces.{StretchesAreDrawn, PiecesAreFew, PiecesFit};

/// Stretches that are drawn together keep their order, and the times for which the task ran, waited and was parked. The
/// function does nothing: its contract is the law.
pub fn stretches_are_drawn()
    ensures { StretchesAreDrawn }
{}

/// A task whose stretches come one after another has few pieces, so with the shortest width a page holds those of all
/// tasks. The function does nothing: its contract is the law.
pub fn pieces_fit()
    ensures few { PiecesAreFew }
    ensures fit { PiecesFit }
{}
