// What callers may rest on: the laws of rows and pieces at points.
ghost use Rattle.std.specs.Coded.{Coded};
ghost use Rattle.lhg_row.specs.Row.{PlainRow, PlainPoint};
ghost use Rattle.lhg_row.specs.Example.{IntervalFacts, EmptyFacts};
ghost use Rattle.lhg_row.specs.Laws.{TruthLaws};

/// Whether a row holds at a point, and whether a point is in a piece or in one of some pieces, is decidable.
pub fn law_truth()
    ensures { TruthLaws }
{}

/// Points and rows are plain data: there is a code of them.
pub fn law_code()
    ensures point { Coded PlainPoint }
    ensures row { Coded PlainRow }
{}

/// What the definitions say of small known cases.
pub fn law_example()
    ensures interval { IntervalFacts }
    ensures empty { EmptyFacts }
{}
