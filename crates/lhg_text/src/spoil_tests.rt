//! Exchanges of known values.
ghost use Rattle.std.specs.Prelude.{◌≡◌, IfOk, length};

use crate::print_spoil;
use lhg_lex::Lines;
use lhg_num::{Frac, Scalar};
use lhg_plant::State;
use lhg_play::SpoilStep;
use lhg_read::read_plant;
use lhg_row::Point;
use std::alloc::Global;
use std::test::Fail;

const PLANT: &[u8] =
    b"lhg 1\nvars x\nloc cool\ninv 0 <= x <= 40\nflow x = -2\nsafe x >= 18\nloc heat\nswitch on ctl cool heat keep\nend\n";

const WON: &[u8] =
    b"spoil 1\nstart cool x = 20\nround 2\nact on\nland heat x = 20\nunsafe cool x = 0\nend\n";

const STOPPED: &[u8] = b"spoil 1\nstart cool x = 20\nround 2\nflow 1 x = 18\nillegal 3\n";

// The point with this coordinate.
fn point(alloc: Global, x: i64) -> Result<Point<Frac>, Fail>
    ensures { IfOk result (λ p. length p ≡ 1) }
{
    let mut at = Vec::new(alloc);
    at.push(Frac::from(x))?;
    Ok(Point { at })
}

#[test]
fn a_switch_at_the_start(rt: HostRuntime) -> Result<(), Fail> {
    let alloc = rt.alloc();
    let mut lines = Lines::new(PLANT);
    let plant = read_plant(alloc, &mut lines)?;
    assert!(rt; plant.vars.len() == 1);
    assert!(rt; plant.locs.len() == 2);
    assert!(rt; plant.switches.len() == 1);
    let start = State {
        loc: 0,
        at: point(alloc, 20)?,
    };
    let last = State {
        loc: 0,
        at: point(alloc, 0)?,
    };
    let to = point(alloc, 20)?;
    let at = point(alloc, 20)?;
    let mut steps = Vec::new(alloc);
    steps.push(SpoilStep::Round(2))?;
    steps.push(SpoilStep::Flow {
        time: Frac::zero(),
        to,
    })?;
    steps.push(SpoilStep::Act { switch: 0 })?;
    steps.push(SpoilStep::Land(State { loc: 1, at }))?;
    let text = print_spoil(alloc, &plant, &start, &steps, Some(&last), None)?;
    assert_eq!(rt; text.as_slice(), WON);
    Ok(())
}

#[test]
fn a_move_that_is_not_legal(rt: HostRuntime) -> Result<(), Fail> {
    let alloc = rt.alloc();
    let mut lines = Lines::new(PLANT);
    let plant = read_plant(alloc, &mut lines)?;
    assert!(rt; plant.vars.len() == 1);
    assert!(rt; plant.locs.len() == 2);
    let start = State {
        loc: 0,
        at: point(alloc, 20)?,
    };
    let to = point(alloc, 18)?;
    let mut steps = Vec::new(alloc);
    steps.push(SpoilStep::Round(2))?;
    steps.push(SpoilStep::Flow {
        time: Frac::one(),
        to,
    })?;
    let text = print_spoil(alloc, &plant, &start, &steps, None, Some(3))?;
    assert_eq!(rt; text.as_slice(), STOPPED);
    Ok(())
}
