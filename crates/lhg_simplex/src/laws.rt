// What callers may rest on: multipliers that refute rows leave them no point.
ghost use Rattle.lhg_simplex.specs.Laws.{RefuteLaw, VerdictLaw};

/// Rows that some multipliers refute have no point, and an answer of a guess is true of the rows.
pub fn law_refute()
    ensures refute { RefuteLaw }
    ensures verdict { VerdictLaw }
{}
