// What callers may rest on: the laws of segments, flows, plays and check points.
ghost use Rattle.lhg_motion.specs.MotionExample.{MotionFacts};
ghost use Rattle.lhg_motion.specs.Laws.{PlaceLaws, TurnLaws, ConvexLaws, FlowLaws, SpeedLaws, PlayLaws, CheckPointLaws, FiniteLaw};

/// What holds along a segment: a row's value moves evenly, so it turns at one place at most; pieces are convex, and
/// between lies inside.
pub fn law_segments()
    ensures places { PlaceLaws }
    ensures turns { TurnLaws }
    ensures convex { ConvexLaws }
{}

/// Straight flows join, parts of a flow are flows, and legality is decidable.
pub fn law_flows()
    ensures join { FlowLaws }
    ensures speed { SpeedLaws }
{}

/// Plays are read flow by flow.
pub fn law_plays()
    ensures { PlayLaws }
{}

/// The check points are finitely many, and between neighbours no row changes its truth.
pub fn law_check_points()
    ensures between { CheckPointLaws }
    ensures finite { FiniteLaw }
{}

/// What the definitions of motion say of small known cases.
pub fn law_motion_example()
    ensures { MotionFacts }
{}
