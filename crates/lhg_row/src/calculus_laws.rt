// What callers may rest on: the laws of the calculus of rows, and known rows.
ghost use Rattle.lhg_row.specs.CalculusLaws.{RowLaws, TrimLaws, CombLaw, EliminateLaws, EmptyLaw};
ghost use Rattle.lhg_row.specs.WidenedLaws.{WidenedLaws};
ghost use Rattle.lhg_row.specs.Worked.{TrimRows, EliminateRows, EmptyRows, MarkRows};

/// Where negated, shifted and renamed rows hold, and rows with a point put in.
pub fn law_rows()
    ensures { RowLaws }
{}

/// Where widened rows hold.
pub fn law_widened()
    ensures { WidenedLaws }
{}

/// Trimmed lists have the points of the lists that they come from, and are their own trims; what rows they have.
pub fn law_trim()
    ensures { TrimLaws }
{}

/// The combination of two rows is exact.
pub fn law_comb()
    ensures { CombLaw }
{}

/// Elimination of one variable, and emptiness, are exact.
pub fn law_eliminate()
    ensures eliminate { EliminateLaws }
    ensures is_empty { EmptyLaw }
{}

/// Known rows, by computation.
pub fn law_worked()
    ensures trim { TrimRows }
    ensures eliminate { EliminateRows }
    ensures empty { EmptyRows }
    ensures marks { MarkRows }
{}
