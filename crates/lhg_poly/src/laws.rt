// What callers may rest on: the laws of the closure of a piece.
ghost use Rattle.lhg_poly.specs.ClosureLaws.{RelaxedClosureLaw, BetweenLaw};

/// Where the relaxed rows of a piece with a point hold, and what lies between two points at which they do.
pub fn law_closure()
    ensures relaxed { RelaxedClosureLaw }
    ensures between { BetweenLaw }
{}
