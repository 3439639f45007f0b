// What callers may rest on: the laws of the calculus of pieces.
ghost use Rattle.lhg_row.specs.PieceLaws.{PieceLaws, ListLaws, MembershipLaw, SampleLaw};
ghost use Rattle.lhg_row.specs.WorkedPieces.{PieceRows, ListRows, LimitRows, SampleRows};

/// What is made of rows and of one or two pieces has exactly the points that it should.
pub fn law_pieces()
    ensures { PieceLaws }
{}

/// What is made of lists of pieces has exactly the points that it should.
pub fn law_lists()
    ensures { ListLaws }
{}

/// Whether a point is in a piece, and in some piece of a list, is told exactly.
pub fn law_membership()
    ensures { MembershipLaw }
{}

/// The sample of a piece of fractions lies in it.
pub fn law_sample()
    ensures { SampleLaw }
{}

/// Known pieces, by computation.
pub fn law_worked_pieces()
    ensures pieces { PieceRows }
    ensures lists { ListRows }
    ensures limits { LimitRows }
    ensures samples { SampleRows }
{}
