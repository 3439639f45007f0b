//! Controllers, good and spoilt, and what the check says of them.
ghost use Rattle.std.specs.Prelude.{◌≤◌, length};

use crate::{Verdict, check};
use lhg_ctl::{controller_of, read_controller};
use lhg_lex::{Lines, TEXT_LIMIT};
use lhg_plant::State;
use lhg_read::read_plant;
use std::alloc::Global;
use std::test::Fail;

const THERMOSTAT: &[u8] =
    b"lhg 1\nvars x\nloc heat\ninv 0 <= x <= 40\nflow 1 <= x <= 2\nsafe 18 <= x <= 22
loc cool\ninv 0 <= x <= 40\nflow -2 <= x <= -1\nsafe 18 <= x <= 22\nswitch off ctl heat cool keep\nswitch on ctl cool heat keep\nend\n";

// It can be switched off from 23 on only.
const LATE: &[u8] =
    b"lhg 1\nvars x\nloc heat\ninv 0 <= x <= 40\nflow 1 <= x <= 2\nsafe 18 <= x <= 22
loc cool\ninv 0 <= x <= 40\nflow -2 <= x <= -1\nsafe 18 <= x <= 22\nswitch off ctl heat cool x >= 23, keep\nswitch on ctl cool heat keep\nend\n";

// The plant doubles x, which is safe up to 1.
const DOUBLED: &[u8] =
    b"lhg 1\nvars x\nloc grow\ninv x >= 0\nsafe x <= 1\nswitch double env grow grow x' = 2*x\nend\n";

// The controller picks where x stands in `rest`, which is safe up to 5.
const PICKED: &[u8] = b"lhg 1\nvars x\nloc run\ninv 0 <= x <= 10\nflow x = 1\nsafe x <= 8
loc rest\ninv 0 <= x <= 10\nsafe x <= 5\nswitch go pick run rest all\nend\n";

// The plant picks it.
const JUMPED: &[u8] = b"lhg 1\nvars x\nloc run\ninv 0 <= x <= 10\nflow x = 1\nsafe x <= 8
loc rest\ninv 0 <= x <= 10\nsafe x <= 5\nswitch go ctl run rest all\nend\n";

// What an answer says: its kind, the switch, the location, and the value of x, which is whole.
type Said = (u32, u32, u32, i128);

const UNSAFE: u32 = 1;

const BAD_GUARD: u32 = 2;

const ESCAPES: u32 = 3;

const CASES: [(&[u8], &[u8], Option<Said>); 16] = [
    (
        THERMOSTAT,
        b"controller 1\npiece heat 18 <= x <= 22\npiece cool 18 <= x <= 22\nguard off 18 <= x <= 22\nguard on 18 <= x <= 22\nend\n",
        None,
    ),
    (
        THERMOSTAT,
        b"controller 1\npiece heat 18 <= x <= 22\npiece cool 18 <= x <= 22\nguard off x = 22\nguard on x = 18\nend\n",
        None,
    ),
    (THERMOSTAT, b"controller 1\nend\n", None),
    (
        THERMOSTAT,
        b"controller 1\npiece heat 18 <= x <= 22\npiece cool 18 <= x <= 22\nguard on 18 <= x <= 22\nend\n",
        Some((ESCAPES, 0, 0, 22)),
    ),
    (
        THERMOSTAT,
        b"controller 1\npiece heat 18 <= x <= 22\npiece cool 18 <= x <= 22\nguard off 18 <= x < 22\nguard on 18 <= x <= 22\nend\n",
        Some((ESCAPES, 0, 0, 22)),
    ),
    (
        THERMOSTAT,
        b"controller 1\npiece heat 18 <= x <= 23\npiece cool 18 <= x <= 22\nguard off 18 <= x <= 22\nguard on 18 <= x <= 22\nend\n",
        Some((UNSAFE, 0, 0, 23)),
    ),
    (
        THERMOSTAT,
        b"controller 1\npiece heat 18 <= x <= 22\npiece cool 18 <= x <= 22\nguard off 10 <= x <= 22\nguard on 18 <= x <= 22\nend\n",
        Some((BAD_GUARD, 0, 0, 10)),
    ),
    (
        THERMOSTAT,
        b"controller 1\npiece heat 18 <= x <= 20\npiece cool 18 <= x <= 22\nguard off 18 <= x <= 20\nguard on 18 <= x <= 22\nend\n",
        Some((BAD_GUARD, 1, 1, 22)),
    ),
    (
        THERMOSTAT,
        b"controller 1\nguard off all\nend\n",
        Some((BAD_GUARD, 0, 0, 0)),
    ),
    (
        LATE,
        b"controller 1\npiece heat 18 <= x <= 22\npiece cool 18 <= x <= 22\nguard off 18 <= x <= 22\nguard on 18 <= x <= 22\nend\n",
        Some((BAD_GUARD, 0, 0, 18)),
    ),
    (DOUBLED, b"controller 1\npiece grow x <= 0\nend\n", None),
    (
        DOUBLED,
        b"controller 1\npiece grow x <= 1\nend\n",
        Some((ESCAPES, 0, 0, 1)),
    ),
    (
        PICKED,
        b"controller 1\npiece run x <= 8\npiece rest x <= 5\nguard go x <= 8\nend\n",
        None,
    ),
    (
        PICKED,
        b"controller 1\npiece run x <= 8\npiece rest x <= 5\nguard go all\nend\n",
        Some((BAD_GUARD, 0, 0, 10)),
    ),
    (
        PICKED,
        b"controller 1\npiece run x <= 8\nguard go x <= 8\nend\n",
        Some((BAD_GUARD, 0, 0, 0)),
    ),
    (
        JUMPED,
        b"controller 1\npiece run x <= 8\npiece rest x <= 5\nguard go x <= 8\nend\n",
        Some((BAD_GUARD, 0, 0, 0)),
    ),
];

// What the check says of the controller of a text.
fn checked(alloc: Global, plant: &[u8], controller: &[u8]) -> Result<Verdict, Fail>
    requires plant { length plant.now ≤ TEXT_LIMIT }
    requires controller { length controller.now ≤ TEXT_LIMIT }
{
    let mut lines = Lines::new(plant);
    let plant = read_plant(alloc, &mut lines)?;
    let mut lines = Lines::new(controller);
    let draft = read_controller(alloc, &mut lines, &plant)?;
    let controller = controller_of(alloc, &plant, &draft)?;
    Ok(check(alloc, &plant, &controller)?)
}

// The state that an answer shows.
fn seen(kind: u32, switch: u32, state: &State) -> Option<Said> {
    let at = state.at.at.first()?;
    Some((kind, switch, state.loc, at.numer()))
}

// What an answer says, where it is not that the controller is valid.
fn said(verdict: &Verdict) -> Option<Said> {
    match verdict {
        Verdict::Valid => None,
        Verdict::Unsafe(state) => seen(UNSAFE, 0, state),
        Verdict::BadGuard { switch, state } => seen(BAD_GUARD, *switch, state),
        Verdict::Escapes(state) => seen(ESCAPES, 0, state),
    }
}

#[test]
fn known_controllers(rt: HostRuntime) -> Result<(), Fail> {
    for (plant, controller, wanted) in CASES {
        if plant.len() > TEXT_LIMIT || controller.len() > TEXT_LIMIT {
            return Err("too long".into());
        }
        let verdict = checked(rt.alloc(), plant, controller)?;
        assert_eq!(rt; said(&verdict), wanted);
    }
    Ok(())
}
