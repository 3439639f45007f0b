// Guesses at known systems, and what they are worth.
ghost use Rattle.std.specs.Prelude.{◌≡◌, IfOk, length};
ghost use Rattle.lhg_row.specs.Width.{AllWide};

use crate::{Guess, confirm, decide, guess};
use lhg_num::{Frac, Halt};
use lhg_row::{Kind, Point, Row, System, trim, whole_row};
use std::alloc::Global;
use std::test::Fail;

// The coefficients of x and y, the kind, and the bound.
type Line = (i64, i64, Kind, i64);

const BELOW_1: Line = (1, 0, Kind::Strict, 1);

const UP_TO_1: Line = (1, 0, Kind::Weak, 1);

const UP_TO_3: Line = (1, 0, Kind::Weak, 3);

const FROM_1: Line = (-1, 0, Kind::Weak, -1);

const FROM_0: Line = (-1, 0, Kind::Weak, 0);

const Y_FROM_0: Line = (0, -1, Kind::Weak, 0);

// x + y < 1
const BELOW_SUM: Line = (1, 1, Kind::Strict, 1);

// x + y >= 1
const FROM_SUM: Line = (-1, -1, Kind::Weak, -1);

// x < y
const BELOW_Y: Line = (1, -1, Kind::Strict, 0);

fn row(alloc: Global, vars: usize, line: &Line) -> Result<Row<Frac>, Halt>
    ensures { IfOk result (λ r. length r.coefs ≡ vars) }
{
    let (x, y, kind, bound) = *line;
    let both = [x, y];
    let mut coefs = Vec::new(alloc);
    for k in 0..vars {
        let coef = if k < 2 { both[k] } else { 0 };
        coefs.push(coef)?;
    }
    whole_row(alloc, &coefs, kind, bound)
}

fn system(alloc: Global, vars: usize, lines: &[Line]) -> Result<System<Frac>, Halt> {
    let mut rows = Vec::with_capacity(alloc, lines.len())?;
    for line in lines {
        rows.push(row(alloc, vars, line)?)?;
    }
    trim(alloc, vars, rows)
}

fn multipliers(alloc: Global, ms: &[i64]) -> Result<Guess, Halt> {
    let mut out = Vec::new(alloc);
    for m in ms {
        out.push(Frac::from(*m))?;
    }
    Ok(Guess::Multipliers(out))
}

#[test]
fn confirms(rt: HostRuntime) -> Result<(), Fail> {
    for (lines, ms, want) in [
        ([BELOW_1, FROM_1].as_slice(), [1, 1].as_slice(), Some(true)),
        ([UP_TO_1, FROM_1].as_slice(), [1, 1].as_slice(), None),
        ([BELOW_1, FROM_1].as_slice(), [1, -1].as_slice(), None),
        ([BELOW_1, FROM_1].as_slice(), [1].as_slice(), None),
        ([BELOW_1].as_slice(), [0].as_slice(), None),
    ] {
        let sys = system(rt.alloc(), 1, lines)?;
        let hint = multipliers(rt.alloc(), ms)?;
        assert_eq!(rt; confirm(&sys, &hint), Ok(want), "{lines:?} {ms:?}");
        assert_eq!(rt; confirm(&sys, &Guess::Undecided), Ok(None));
    }
    let sys = system(rt.alloc(), 1, &[FROM_0, BELOW_1])?;
    for (n, d, want) in [(1, 2, Some(false)), (1, 1, None)] {
        let at = [Frac::new(n, d)?].to_vec(rt.alloc())?;
        let hint = Guess::Point(Point { at });
        assert_eq!(rt; confirm(&sys, &hint), Ok(want));
    }
    Ok(())
}

#[test]
fn guesses_are_confirmed(rt: HostRuntime) -> Result<(), Fail> {
    for (vars, lines, want) in [
        (1, [BELOW_1, FROM_1].as_slice(), true),
        (1, [FROM_0, BELOW_1].as_slice(), false),
        (2, [BELOW_SUM, FROM_1, Y_FROM_0].as_slice(), true),
        (2, [FROM_SUM, BELOW_Y, UP_TO_3].as_slice(), false),
        (2, [FROM_0, Y_FROM_0, BELOW_1].as_slice(), false),
        (2, [FROM_1, Y_FROM_0, BELOW_1].as_slice(), true),
        (2, [].as_slice(), false),
        (0, [].as_slice(), false),
    ] {
        let sys = system(rt.alloc(), vars, lines)?;
        let hint = guess(rt.alloc(), &sys)?;
        assert_eq!(rt; confirm(&sys, &hint), Ok(Some(want)), "{lines:?}");
        assert_eq!(rt; decide(rt.alloc(), sys.vars(), sys.rows()), Ok(Some(want)));
    }
    Ok(())
}
