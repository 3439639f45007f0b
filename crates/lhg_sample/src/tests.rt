// Samples of known pieces over x and y.
ghost use Rattle.std.specs.Prelude.{◌≡◌, IfOk, IfSome, length};
ghost use Rattle.lhg_row.specs.Width.{AllWide};

use crate::sample;
use lhg_num::{Frac, Halt, Scalar};
use lhg_poly::{Poly, make};
use lhg_row::{Kind, Row, whole_row};
use std::alloc::Global;
use std::process::Abort;
use std::test::Fail;

// The coefficients of x and y, the kind, and the bound.
type Line = (i64, i64, Kind, i64);

// The numerator and the denominator of x, and those of y.
type Shown = (Option<(i128, i128)>, Option<(i128, i128)>);

const FROM_2: Line = (-1, 0, Kind::Weak, -2);

const ABOVE_0: Line = (-1, 0, Kind::Strict, 0);

const ABOVE_2: Line = (-1, 0, Kind::Strict, -2);

const ABOVE_4: Line = (-1, 0, Kind::Strict, -4);

const BELOW_1: Line = (1, 0, Kind::Strict, 1);

const BELOW_3: Line = (1, 0, Kind::Strict, 3);

const BELOW_4: Line = (1, 0, Kind::Strict, 4);

const UP_TO_2: Line = (1, 0, Kind::Weak, 2);

const UP_TO_3: Line = (1, 0, Kind::Weak, 3);

// x < y
const BELOW_Y: Line = (1, -1, Kind::Strict, 0);

// 2*y <= 3*x
const TWICE_Y: Line = (-3, 2, Kind::Weak, 0);

// y < 1
const Y_BELOW_1: Line = (0, 1, Kind::Strict, 1);

fn row(alloc: Global, line: &Line) -> Result<Row<Frac>, Halt>
    ensures { IfOk result (λ r. length r.coefs ≡ 2) }
{
    let (x, y, kind, bound) = *line;
    whole_row(alloc, &[x, y], kind, bound)
}

fn rows(alloc: Global, lines: &[Line]) -> Result<Vec<Row<Frac>>, Halt>
    ensures { IfOk result (λ v. AllWide 2 v.items) }
{
    let mut out = Vec::with_capacity(alloc, lines.len())?;
    for line in lines {
        out.push(row(alloc, line)?)?;
    }
    Ok(out)
}

// The piece of the lines, where they have a common point.
fn made(alloc: Global, lines: &[Line]) -> Result<Option<Poly<Frac>>, Halt> {
    let rows = rows(alloc, lines)?;
    make(alloc, 2, rows)
}

fn parts(x: &Frac) -> (i128, i128) {
    (x.numer(), x.denom())
}

// The sample of the piece of lines that have a common point.
fn sampled(alloc: Global, lines: &[Line]) -> Result<Shown, Fail> {
    let piece = made(alloc, lines)?.ok_or("none")?;
    let point = sample(alloc, &piece)?;
    Ok((point.at.first().map(parts), point.at.last().map(parts)))
}

#[test]
fn samples_intervals(rt: HostRuntime) -> Result<(), Fail> {
    for (lines, x) in [
        ([ABOVE_0, BELOW_1], (1, 2)),
        ([ABOVE_4, ABOVE_4], (5, 1)),
        ([BELOW_4, BELOW_4], (3, 1)),
        ([FROM_2, FROM_2], (2, 1)),
        ([UP_TO_3, UP_TO_3], (3, 1)),
        ([FROM_2, UP_TO_3], (2, 1)),
        ([FROM_2, BELOW_3], (2, 1)),
        ([ABOVE_2, UP_TO_3], (3, 1)),
        ([FROM_2, UP_TO_2], (2, 1)),
    ] {
        assert_eq!(rt;
            sampled(rt.alloc(), &lines)?,
            (Some(x), Some((0, 1))),
            "{lines:?}"
        );
    }
    Ok(())
}

#[test]
fn samples_areas(rt: HostRuntime) -> Result<(), Fail> {
    for (lines, x, y) in [
        ([ABOVE_0, BELOW_Y, Y_BELOW_1], (1, 2), (3, 4)),
        ([ABOVE_0, BELOW_Y, TWICE_Y], (1, 1), (3, 2)),
    ] {
        assert_eq!(rt;
            sampled(rt.alloc(), &lines)?,
            (Some(x), Some(y)),
            "{lines:?}"
        );
    }
    assert_eq!(rt; sampled(rt.alloc(), &[])?, (Some((0, 1)), Some((0, 1))));
    Ok(())
}
