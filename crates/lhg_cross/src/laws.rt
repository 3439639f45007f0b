// What callers may rest on: known crossings.
ghost use Rattle.lhg_cross.specs.WorkedCrossings.{CrossingRows};

/// Known crossings over one variable, by computation.
pub fn law_crossings()
    ensures { CrossingRows }
{}
