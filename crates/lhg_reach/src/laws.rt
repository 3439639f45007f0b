// What callers may rest on: known pieces of a line.
ghost use Rattle.lhg_reach.specs.WorkedReach.{ReachRows};

/// Known pieces, by computation.
pub fn law_worked()
    ensures { ReachRows }
{}
