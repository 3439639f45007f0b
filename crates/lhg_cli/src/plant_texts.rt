//! Plants, their controllers and their reports, as several tests have them.

// Nothing moves, and all levels are safe.
pub(crate) const PLAIN: &[u8] =
    b"lhg 1\nvars x\nloc only\ninv 0 <= x <= 8\nflow still\nsafe x <= 8\nend\n";

// The level rises out of the safe levels, and nobody can stop it.
pub(crate) const ONE_FLOW: &[u8] =
    b"lhg 1\nvars x\nloc only\ninv 0 <= x <= 10\nflow x = 1\nsafe x <= 8\nend\n";

// A thermostat that keeps all safe temperatures.
pub(crate) const THERMOSTAT: &[u8] =
    b"lhg 1\nvars x\nloc heat\ninv 0 <= x <= 40\nflow 1 <= x <= 2\nsafe 18 <= x <= 22\nloc cool\ninv 0 <= x <= 40\nflow -2 <= x <= -1\nsafe 18 <= x <= 22\nswitch off ctl heat cool keep\nswitch on ctl cool heat keep\nend\n";

// Its controller.
pub(crate) const THERMOSTAT_CONTROLLER: &[u8] =
    b"controller 1\npiece heat x >= 18, x <= 22\npiece cool x >= 18, x <= 22\nguard off x >= 18, x <= 22\nguard on x >= 18, x <= 22\nend\n";

// Its report.
pub(crate) const THERMOSTAT_REPORT: &[u8] =
    b"report 1\nrounds 1\ncontroller 1\npiece heat x >= 18, x <= 22\npiece cool x >= 18, x <= 22\nguard off x >= 18, x <= 22\nguard on x >= 18, x <= 22\nend\nend\n";

// What it has where it is to switch at the last moment alone.
pub(crate) const THERMOSTAT_LAZY: &[u8] =
    b"lazy cut\ncontroller 1\npiece heat x >= 18, x <= 22\npiece cool x >= 18, x <= 22\nguard off x >= 22, x <= 22\nguard on x >= 18, x <= 18\nend\n";

// A thermostat that can be switched off too late only, so that no temperature is kept.
pub(crate) const DEPENDENCE: &[u8] =
    b"lhg 1\nvars x\nloc heat\ninv 0 <= x <= 40\nflow 1 <= x <= 2\nsafe 18 <= x <= 22\nloc cool\ninv 0 <= x <= 40\nflow -2 <= x <= -1\nsafe 18 <= x <= 22\nswitch off ctl heat cool x >= 23, keep\nswitch on ctl cool heat keep\nend\n";

// Its report.
pub(crate) const DEPENDENCE_REPORT: &[u8] =
    b"report 1\nrounds 3\ncontroller 1\nend\nloss 1 round 1 heat leave x >= 22, x <= 22\nloss 2 round 1 heat flow 1 x >= 18, x < 22\nloss 3 round 2 cool leave x >= 18, x <= 18\nloss 4 round 2 cool flow 3 x > 18, x <= 22\nend\n";

// All levels below 8 are safe, and the controller may rest from 7 on.
pub(crate) const OPEN_EDGE: &[u8] =
    b"lhg 1\nvars x\nloc run\ninv 0 <= x <= 10\nflow x = 1\nsafe x < 8\nloc rest\ninv 0 <= x <= 10\nsafe all\nswitch go ctl run rest x >= 7, keep\nend\n";

// Its controller.
pub(crate) const OPEN_EDGE_CONTROLLER: &[u8] =
    b"controller 1\npiece run x >= 0, x < 8\npiece rest x >= 0, x <= 10\nguard go x >= 7, x < 8\nend\n";

// Above 5 both sides have a switch, and at 5 neither has.
pub(crate) const TIE_OPEN: &[u8] =
    b"lhg 1\nvars x\nloc run\ninv 0 <= x <= 10\nflow x = 1\nsafe all\nloc bad\ninv 0 <= x <= 10\nloc rest\ninv 0 <= x <= 10\nsafe all\nswitch hit env run bad x > 5, keep\nswitch go ctl run rest x > 5, keep\nend\n";

// The controller picks the level at which it rests.
pub(crate) const PICKED_RESULT: &[u8] =
    b"lhg 1\nvars x\nloc run\ninv 0 <= x <= 10\nflow x = 1\nsafe x <= 8\nloc rest\ninv 0 <= x <= 10\nsafe x <= 5\nswitch go pick run rest all\nend\n";

// Its controller.
pub(crate) const PICKED_RESULT_CONTROLLER: &[u8] =
    b"controller 1\npiece run x >= 0, x <= 8\npiece rest x >= 0, x <= 5\nguard go x >= 0, x <= 8\nend\n";

// Its report, where `run` is kept.
pub(crate) const RUN_KEPT_REPORT: &[u8] =
    b"report 1\nrounds 1\ncontroller 1\npiece run x >= 0, x <= 8\npiece rest x >= 0, x <= 5\nguard go x >= 0, x <= 8\nend\nend\n";

// The report of a like plant, where `run` is lost.
pub(crate) const RUN_LOST_REPORT: &[u8] =
    b"report 1\nrounds 2\ncontroller 1\npiece rest x >= 0, x <= 5\nend\nloss 1 round 1 run leave x >= 8, x <= 8\nloss 2 round 1 run flow 1 x >= 0, x < 8\nend\n";

// The plant may go on to a location where fewer levels are safe.
pub(crate) const STEP: &[u8] =
    b"lhg 1\nvars x\nloc a\ninv 0 <= x <= 10\nsafe all\nloc b\ninv 0 <= x <= 10\nsafe x <= 5\nswitch e env a b keep\nend\n";

// The plant may double the level, so that each round removes some.
pub(crate) const NO_END: &[u8] =
    b"lhg 1\nvars x\nloc grow\ninv x >= 0\nsafe x <= 1\nswitch double env grow grow x' = 2*x\nend\n";

// The plant flows to the right and may rise or fall on the way.
pub(crate) const BEND: &[u8] =
    b"lhg 1\nvars x y\nloc run\ninv 0 <= x <= 4, 0 <= y <= 3\nflow x = 1, -1 <= y <= 1\nsafe x <= 3\nloc rest\ninv 0 <= x <= 4, 0 <= y <= 3\nsafe all\nswitch go ctl run rest 1 <= x <= 2, y <= 2, keep\nend\n";

// (2, 0) alone is unsafe, and the guard is the open edge to it.
pub(crate) const EDGE: &[u8] =
    b"lhg 1\nvars x y\nloc run\ninv 0 <= x <= 2, 0 <= y <= 1\nflow x = 1, -1 <= y <= 1\nsafe x < 2\nsafe y > 0\nloc rest\ninv 0 <= x <= 2, 0 <= y <= 1\nsafe all\nswitch go ctl run rest 0 < x < 2, y = 0, keep\nend\n";

// The controller may rest in two locations.
pub(crate) const TWO_GUARDS: &[u8] =
    b"lhg 1\nvars x\nloc run\ninv 0 <= x <= 10\nflow x = 1\nsafe x <= 5\nloc a\ninv 0 <= x <= 10\nsafe all\nloc b\ninv 0 <= x <= 10\nsafe all\nswitch first ctl run a keep\nswitch second ctl run b keep\nend\n";

// The report where no state is safe.
pub(crate) const NOTHING_KEPT_REPORT: &[u8] = b"report 1\nrounds 1\ncontroller 1\nend\nend\n";
