// Controllers cut to the rim of their region, and what they are then.
ghost use Rattle.std.specs.Prelude.{◌≤◌, length};

use crate::{away, candidate, rim};
use lhg_ctl::{controller_of, print_controller, read_controller};
use lhg_lex::{Lines, TEXT_LIMIT};
use lhg_read::read_plant;
use std::alloc::Global;
use std::test::Fail;

const THERMOSTAT: &[u8] =
    b"lhg 1\nvars x\nloc heat\ninv 0 <= x <= 40\nflow 1 <= x <= 2\nsafe 18 <= x <= 22
loc cool\ninv 0 <= x <= 40\nflow -2 <= x <= -1\nsafe 18 <= x <= 22\nswitch off ctl heat cool keep\nswitch on ctl cool heat keep\nend\n";

// Its region in `run` is open at 8.
const NO_LAST_MOMENT: &[u8] = b"lhg 1\nvars x\nloc run\ninv 0 <= x <= 10\nflow x = 1\nsafe x < 8
loc rest\ninv 0 <= x <= 10\nsafe all\nswitch go ctl run rest x >= 7, keep\nend\n";

// The safe states of `run` end at 3 and begin again at 5, and the plant may go both ways or rest.
const BOTH_WAYS: &[u8] =
    b"lhg 1\nvars x\nloc run\ninv 0 <= x <= 10\nflow -1 <= x <= 1\nsafe x <= 3\nsafe x >= 5
loc rest\ninv 0 <= x <= 10\nsafe all\nswitch go ctl run rest keep\nend\n";

const CASES: [(&[u8], &[u8], &[u8]); 3] = [
    (
        THERMOSTAT,
        b"controller 1\npiece heat x >= 18, x <= 22\npiece cool x >= 18, x <= 22\nguard off x >= 18, x <= 22\nguard on x >= 18, x <= 22\nend\n",
        b"controller 1\npiece heat x >= 18, x <= 22\npiece cool x >= 18, x <= 22\nguard off x >= 22, x <= 22\nguard on x >= 18, x <= 18\nend\n",
    ),
    (
        NO_LAST_MOMENT,
        b"controller 1\npiece run x >= 0, x < 8\npiece rest x >= 0, x <= 10\nguard go x >= 7, x < 8\nend\n",
        b"controller 1\npiece run x >= 0, x < 8\npiece rest x >= 0, x <= 10\nend\n",
    ),
    (
        BOTH_WAYS,
        b"controller 1\npiece run x >= 0, x <= 3\npiece run x >= 5, x <= 10\npiece rest x >= 0, x <= 10\nguard go x >= 0, x <= 10\nend\n",
        b"controller 1\npiece run x >= 0, x <= 3\npiece run x >= 5, x <= 10\npiece rest x >= 0, x <= 10\nguard go x >= 3, x <= 3\nguard go x >= 5, x <= 5\nend\n",
    ),
];

// The controller of a text, cut to the rim, as a text.
fn cut(alloc: Global, plant: &[u8], controller: &[u8]) -> Result<Vec<u8>, Fail>
    requires plant { length plant.now ≤ TEXT_LIMIT }
    requires controller { length controller.now ≤ TEXT_LIMIT }
{
    let mut lines = Lines::new(plant);
    let plant = read_plant(alloc, &mut lines)?;
    let mut lines = Lines::new(controller);
    let draft = read_controller(alloc, &mut lines, &plant)?;
    let whole = controller_of(alloc, &plant, &draft)?;
    let outside = away(alloc, &plant, &whole.region)?;
    let edge = rim(alloc, &plant, &whole.region, &outside)?;
    let lazy = candidate(alloc, &plant, &whole.region, &whole.guards, &edge)?;
    Ok(print_controller(alloc, &plant, &lazy)?)
}

#[test]
fn known_controllers(rt: HostRuntime) -> Result<(), Fail> {
    for (plant, controller, wanted) in CASES {
        if plant.len() > TEXT_LIMIT || controller.len() > TEXT_LIMIT {
            return Err("too long".into());
        }
        let text = cut(rt.alloc(), plant, controller)?;
        assert_eq!(rt; text.as_slice(), wanted);
    }
    Ok(())
}
