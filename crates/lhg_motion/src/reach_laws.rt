// What callers may rest on: the laws of plays into bad pieces, and of the layers that find them.
ghost use Rattle.lhg_motion.specs.ReachExample.{ReachExampleFacts};
ghost use Rattle.lhg_motion.specs.ReachedLaws.{ReachedLaws};
ghost use Rattle.lhg_motion.specs.ReachLaws.{CrossingLaws, LayerLaws, ReachLaws, WholeLaws};

/// What is found by crossings has a play, and where a further layer adds nothing all that has one is found.
pub fn law_reach()
    ensures { ReachLaws }
{}

/// How many layers are needed: two for each bad or near piece.
pub fn law_layers()
    ensures levels { LayerLaws }
    ensures whole { WholeLaws }
{}

/// Plays by way of the crossings that are named, and layers of crossings.
pub fn law_crossings()
    ensures { CrossingLaws }
{}

/// Three pieces of a line one after another: the first is found in the second layer.
pub fn law_reach_example()
    ensures { ReachExampleFacts }
{}

/// The found pieces of the calculus are those of layers.
pub fn law_reached()
    ensures { ReachedLaws }
{}
