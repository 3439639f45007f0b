// What callers may rest on: the laws of one crossing.
ghost use Rattle.lhg_motion.specs.CrossingFacts.{CrossingFacts};

/// What is made of the rows of a straight flow has exactly the points that have one.
pub fn law_cross()
    ensures { CrossingFacts }
{}
