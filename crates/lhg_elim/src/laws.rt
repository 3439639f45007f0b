// What callers may rest on: elimination over whole rows gives the list of the calculus.
ghost use Rattle.lhg_elim.specs.WholeRowLaws.{WholeRowLaws};

/// Rows that are positive multiples of others are eliminated to positive multiples, and turn back into the list of the calculus.
pub fn law_whole_rows()
    ensures { WholeRowLaws }
{}
