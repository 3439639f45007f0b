//! What the callers answer of a thermostat.
ghost use Rattle.std.specs.Prelude.{◌≡◌, length, IfOk};
ghost use Rattle.lhg_row.specs.Width.{AllWide};

use crate::{Advice, NoReport, advise, judge, report};
use lhg_check::Verdict;
use lhg_ctl::{controller_of, read_controller};
use lhg_lex::{Lines, ReadStop, TEXT_LIMIT};
use lhg_num::{Frac, Halt};
use lhg_plant::State;
use lhg_read::read_plant;
use lhg_row::{Kind, Point, Row, whole_row};
use std::alloc::Global;
use std::test::Fail;

const THERMOSTAT: &[u8] =
    b"lhg 1\nvars x\nloc heat\ninv 0 <= x <= 40\nflow 1 <= x <= 2\nsafe 18 <= x <= 22
loc cool\ninv 0 <= x <= 40\nflow -2 <= x <= -1\nsafe 18 <= x <= 22\nswitch off ctl heat cool keep\nswitch fail env heat cool x > 40, keep\nswitch on ctl cool heat keep\nswitch hold ctl heat heat keep\nend\n";

// It holds the heat up to 20 only.
const CONTROLLER: &[u8] =
    b"controller 1\npiece heat x >= 18, x <= 22\npiece cool x >= 18, x <= 22\nguard hold x >= 18, x <= 20\nguard off x >= 18, x <= 22\nguard on x >= 18, x <= 22\nend\n";

// A location and a temperature, whether the state is inside, and the switches that may be taken.
const SAMPLES: [(u32, i64, bool, &[u32]); 6] = [
    (0, 18, true, &[0, 3]),
    (0, 20, true, &[0, 3]),
    (0, 21, true, &[0]),
    (0, 23, false, &[]),
    (0, 41, false, &[]),
    (1, 22, true, &[2]),
];

// What the thermostat's controller may do at a temperature, and none for a number that is too wide.
fn advice_at(alloc: Global, loc: u32, x: Frac) -> Result<Option<Advice>, Fail> {
    if THERMOSTAT.len() > TEXT_LIMIT || CONTROLLER.len() > TEXT_LIMIT {
        return Err("too long".into());
    }
    let plant = read_plant(alloc, &mut Lines::new(THERMOSTAT))?;
    let draft = read_controller(alloc, &mut Lines::new(CONTROLLER), &plant)?;
    let controller = controller_of(alloc, &plant, &draft)?;
    if loc as usize >= plant.locs.len() || plant.vars.len() != 1 {
        return Err("another plant".into());
    }
    let at = Point {
        at: [x].to_vec(alloc)?,
    };
    match advise(alloc, &plant, &controller, &State { loc, at }) {
        Ok(advice) => Ok(Some(advice)),
        Err(Halt::Wide) => Ok(None),
        Err(halt) => Err(halt.into()),
    }
}

#[test]
fn samples(rt: HostRuntime) -> Result<(), Fail> {
    for (loc, x, inside, allowed) in SAMPLES {
        let advice = advice_at(rt.alloc(), loc, Frac::from(x))?.ok_or("wide")?;
        assert_eq!(rt; advice.inside, inside);
        assert_eq!(rt; advice.allowed.as_slice(), allowed);
    }
    Ok(())
}

#[test]
fn wide_sample(rt: HostRuntime) -> Result<(), Fail> {
    let tiny = Frac::new(1, i128::MAX).ok().ok_or("no number")?;
    assert_eq!(rt; advice_at(rt.alloc(), 0, tiny)?.is_none(), true);
    Ok(())
}

const REPORT: &[u8] =
    b"report 1\nrounds 1\ncontroller 1\npiece heat x >= 18, x <= 22\npiece cool x >= 18, x <= 22\nguard off x >= 18, x <= 22\nguard on x >= 18, x <= 22\nguard hold x >= 18, x <= 22\nend\nend\n";

#[test]
fn reported(rt: HostRuntime) -> Result<(), Fail> {
    if THERMOSTAT.len() > TEXT_LIMIT {
        return Err("too long".into());
    }
    let text = report(rt.alloc(), 10, THERMOSTAT).ok().ok_or("no report")?;
    assert_eq!(rt; text.as_slice(), REPORT);
    Ok(())
}

#[test]
fn unreported(rt: HostRuntime) -> Result<(), Fail> {
    let stop = report(rt.alloc(), 10, b"lhg 1\nvars x\nloc\nend\n").err();
    assert_eq!(rt;
        matches!(stop, Some(NoReport::Text(ReadStop::Bad { line: 3, .. }))),
        true
    );
    Ok(())
}

// The rows of the temperatures from one number to another; the first is given by its negative.
fn from_to(alloc: Global, from: i64, to: i64) -> Result<Vec<Row<Frac>>, Halt>
    ensures { IfOk result (λ v. AllWide 1 v.items) }
{
    let mut rows = Vec::new(alloc);
    rows.push(whole_row(alloc, &[-1], Kind::Weak, from)?)?;
    rows.push(whole_row(alloc, &[1], Kind::Weak, to)?)?;
    Ok(rows)
}

// What is found of the region of heating from 18 up to some temperature, without a guard, and whether it holds 20.
fn heating_to(alloc: Global, to: i64) -> Result<(Verdict, bool), Fail> {
    if THERMOSTAT.len() > TEXT_LIMIT {
        return Err("too long".into());
    }
    let plant = read_plant(alloc, &mut Lines::new(THERMOSTAT))?;
    if plant.locs.is_empty() || plant.vars.len() != 1 {
        return Err("another plant".into());
    }
    let mut pieces = Vec::new(alloc);
    pieces.push((0, from_to(alloc, -18, to)?))?;
    let judged = judge(alloc, &plant, pieces, Vec::new(alloc))?;
    let at = Point {
        at: [Frac::from(20)].to_vec(alloc)?,
    };
    let advice = advise(alloc, &plant, &judged.controller, &State { loc: 0, at })?;
    Ok((judged.verdict, advice.inside))
}

#[test]
fn judged(rt: HostRuntime) -> Result<(), Fail> {
    let alloc = rt.alloc();
    assert_eq!(rt;
        matches!(heating_to(alloc, 17)?, (Verdict::Valid, false)),
        true
    );
    assert_eq!(rt;
        matches!(heating_to(alloc, 22)?, (Verdict::Escapes(_), true)),
        true
    );
    assert_eq!(rt;
        matches!(heating_to(alloc, 23)?, (Verdict::Unsafe(_), true)),
        true
    );
    Ok(())
}
