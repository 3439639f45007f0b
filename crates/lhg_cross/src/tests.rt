// Known crossings over x and y.
ghost use Rattle.std.specs.Prelude.{◌≡◌, IfOk, length};
ghost use Rattle.lhg_row.specs.Width.{AllWide};

use crate::{Tally, cross};
use lhg_num::{Frac, Halt};
use lhg_poly::{Poly, make};
use lhg_row::{Kind, Row, whole_row};
use std::alloc::Global;
use std::process::Abort;
use std::test::Fail;

// The coefficients of x and y, the kind, and the bound.
type Line = (i64, i64, Kind, i64);

const X_FROM_0: Line = (-1, 0, Kind::Weak, 0);

const X_UP_TO_0: Line = (1, 0, Kind::Weak, 0);

const X_BELOW_1: Line = (1, 0, Kind::Strict, 1);

const X_FROM_1: Line = (-1, 0, Kind::Weak, -1);

const X_UP_TO_1: Line = (1, 0, Kind::Weak, 1);

const X_FROM_2: Line = (-1, 0, Kind::Weak, -2);

const X_UP_TO_2: Line = (1, 0, Kind::Weak, 2);

const Y_FROM_0: Line = (0, -1, Kind::Weak, 0);

const Y_ABOVE_0: Line = (0, -1, Kind::Strict, 0);

const Y_UP_TO_0: Line = (0, 1, Kind::Weak, 0);

const Y_UP_TO_1: Line = (0, 1, Kind::Weak, 1);

const Y_FROM_MINUS_1: Line = (0, -1, Kind::Weak, 1);

// x + y <= 2
const BELOW_DIAGONAL: Line = (1, 1, Kind::Weak, 2);

// x = 0, y = 0
const ORIGIN: [Line; 4] = [X_FROM_0, X_UP_TO_0, Y_FROM_0, Y_UP_TO_0];

// x = 2, y = 0
const CORNER: [Line; 4] = [X_FROM_2, X_UP_TO_2, Y_FROM_0, Y_UP_TO_0];

// 0 <= x <= 2, 0 < y <= 1
const INSIDE: [Line; 4] = [X_FROM_0, X_UP_TO_2, Y_ABOVE_0, Y_UP_TO_1];

// 0 <= x <= 2, 0 <= y <= 1
const CLOSED: [Line; 4] = [X_FROM_0, X_UP_TO_2, Y_FROM_0, Y_UP_TO_1];

// 0 <= x < 1, 0 <= y <= 1
const LEFT: [Line; 4] = [X_FROM_0, X_BELOW_1, Y_FROM_0, Y_UP_TO_1];

// 1 <= x <= 2, 0 <= y <= 1
const RIGHT: [Line; 4] = [X_FROM_1, X_UP_TO_2, Y_FROM_0, Y_UP_TO_1];

// x = 1, -1 <= y <= 1
const FLOW: [Line; 4] = [X_UP_TO_1, X_FROM_1, Y_FROM_MINUS_1, Y_UP_TO_1];

// x = 0, y = 0
const REST: [Line; 4] = ORIGIN;

fn row(alloc: Global, line: &Line) -> Result<Row<Frac>, Halt>
    ensures { IfOk result (λ r. length r.coefs ≡ 2) }
{
    let (x, y, kind, bound) = *line;
    whole_row(alloc, &[x, y], kind, bound)
}

fn rows(alloc: Global, lines: &[Line]) -> Result<Vec<Row<Frac>>, Halt>
    ensures { IfOk result (λ v. AllWide 2 v.items) }
{
    let mut out = Vec::with_capacity(alloc, lines.len())?;
    for line in lines {
        out.push(row(alloc, line)?)?;
    }
    Ok(out)
}

// The piece of lines that have a common point.
fn piece(alloc: Global, lines: &[Line]) -> Result<Poly<Frac>, Fail>
    ensures { IfOk result (λ p. p.width ≡ 2) }
{
    let rows = rows(alloc, lines)?;
    let made = make(alloc, 2, rows)?;
    Ok(made.ok_or("none")?)
}

fn is(row: &Row<Frac>, line: &Line) -> bool {
    let (x, y, kind, bound) = *line;
    row.coefs.as_slice() == [Frac::from(x), Frac::from(y)].as_slice()
        && row.kind == kind
        && row.bound == Frac::from(bound)
}

// Whether these are the rows.
fn are(rows: &[Row<Frac>], lines: &[Line]) -> bool {
    rows.len() == lines.len() && rows.iter().zip(lines).all(|(row, line)| is(row, line))
}

// The crossing by the flow rows.
fn crossing(
    alloc: Global,
    from: &[Line],
    through: &[Line],
    into: &[Line],
    flow: &[Line],
    tally: &mut Tally,
) -> Result<Option<Poly<Frac>>, Fail> {
    let from = piece(alloc, from)?;
    let through = piece(alloc, through)?;
    let into = piece(alloc, into)?;
    let flow = rows(alloc, flow)?;
    Ok(cross(alloc, &from, &through, &into, &flow, tally)?)
}

#[test]
fn crosses_from_edge_to_edge(rt: HostRuntime) -> Result<(), Fail> {
    let mut tally = Tally::new();
    let along = crossing(rt.alloc(), &ORIGIN, &INSIDE, &CORNER, &FLOW, &mut tally)?;
    assert!(rt; along.is_none());
    let whole = crossing(rt.alloc(), &ORIGIN, &CLOSED, &CORNER, &FLOW, &mut tally)?;
    let whole = whole.ok_or("none")?;
    assert!(rt; are(whole.rows(), &ORIGIN));
    let down = crossing(rt.alloc(), &INSIDE, &INSIDE, &CORNER, &FLOW, &mut tally)?;
    let down = down.ok_or("none")?;
    assert!(rt;
        are(
            down.rows(),
            &[X_FROM_0, Y_ABOVE_0, Y_UP_TO_1, BELOW_DIAGONAL]
        )
    );
    assert_eq!(rt; down.vars(), 2);
    assert_eq!(rt; tally.count(), 3);
    Ok(())
}

#[test]
fn crosses_at_rest(rt: HostRuntime) -> Result<(), Fail> {
    let mut tally = Tally::new();
    let inside = crossing(rt.alloc(), &CLOSED, &INSIDE, &CLOSED, &REST, &mut tally)?;
    let inside = inside.ok_or("none")?;
    assert!(rt; are(inside.rows(), &INSIDE));
    let edge = crossing(rt.alloc(), &ORIGIN, &INSIDE, &CLOSED, &REST, &mut tally)?;
    assert!(rt; edge.is_none());
    Ok(())
}

#[test]
fn crosses_an_open_edge(rt: HostRuntime) -> Result<(), Fail> {
    let mut tally = Tally::new();
    let left = crossing(rt.alloc(), &LEFT, &LEFT, &RIGHT, &FLOW, &mut tally)?;
    let left = left.ok_or("none")?;
    assert!(rt; are(left.rows(), &LEFT));
    let right = crossing(rt.alloc(), &LEFT, &RIGHT, &RIGHT, &FLOW, &mut tally)?;
    assert!(rt; right.is_none());
    Ok(())
}
