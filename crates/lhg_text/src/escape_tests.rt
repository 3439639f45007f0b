//! Explanations of known values.
ghost use Rattle.std.specs.Prelude.{◌≡◌, IfOk, length};

use crate::print_escape;
use lhg_lex::Lines;
use lhg_num::{Frac, Scalar};
use lhg_plant::State;
use lhg_play::{Escape, Move, Play};
use lhg_read::read_plant;
use lhg_row::Point;
use std::alloc::Global;
use std::test::Fail;

const PLANT: &[u8] =
    b"lhg 1\nvars x\nloc cool\ninv x >= 0\nflow -2 <= x <= -1\nsafe x >= 18\nloc off\nswitch fall env cool off x' = -1/2*x\nend\n";

const PRINTED: &[u8] = b"round 3\nflow 1 x = 18\nenv fall off x = -9\nend\n";

// The point with this coordinate.
fn point(alloc: Global, x: i64) -> Result<Point<Frac>, Fail>
    ensures { IfOk result (λ p. length p ≡ 1) }
{
    let mut at = Vec::new(alloc);
    at.push(Frac::from(x))?;
    Ok(Point { at })
}

#[test]
fn a_flow_and_a_switch(rt: HostRuntime) -> Result<(), Fail> {
    let alloc = rt.alloc();
    let mut lines = Lines::new(PLANT);
    let plant = read_plant(alloc, &mut lines)?;
    assert!(rt; plant.vars.len() == 1);
    assert!(rt; plant.locs.len() == 2);
    assert!(rt; plant.switches.len() == 1);
    let start = State {
        loc: 0,
        at: point(alloc, 20)?,
    };
    let end = point(alloc, 18)?;
    let target = State {
        loc: 1,
        at: point(alloc, -9)?,
    };
    let mut moves = Vec::new(alloc);
    moves.push(Move {
        time: Frac::one(),
        to: end,
    })?;
    let escape = Escape {
        round: 3,
        play: Play { start, moves },
        last: Some((0, target)),
    };
    let text = print_escape(alloc, &plant, &escape)?;
    assert_eq!(rt; text.as_slice(), PRINTED);
    Ok(())
}
