// Known lists of pieces, over x and over x and y.
ghost use Rattle.std.specs.Prelude.{◌≡◌, ◌≤◌, IfOk, length};
ghost use Rattle.lhg_row.specs.Width.{AllWide};
ghost use Rattle.lhg_union.specs.PolyLists.{AllVars};

use crate::{Found, reach};
use lhg_cross::Tally;
use lhg_num::{Frac, Halt};
use lhg_poly::{Poly, make};
use lhg_row::{Kind, Row, whole_row};
use std::alloc::Global;
use std::process::Abort;
use std::test::Fail;

// The coefficients of x and y, the kind, and the bound. Over x alone the second coefficient is left out.
type Line = ([i64; 2], Kind, i64);

const X_FROM_0: Line = ([-1, 0], Kind::Weak, 0);

const X_ABOVE_0: Line = ([-1, 0], Kind::Strict, 0);

const X_FROM_1: Line = ([-1, 0], Kind::Weak, -1);

const X_ABOVE_1: Line = ([-1, 0], Kind::Strict, -1);

const X_FROM_2: Line = ([-1, 0], Kind::Weak, -2);

const X_ABOVE_2: Line = ([-1, 0], Kind::Strict, -2);

const X_FROM_3: Line = ([-1, 0], Kind::Weak, -3);

const X_ABOVE_3: Line = ([-1, 0], Kind::Strict, -3);

const X_FROM_5: Line = ([-1, 0], Kind::Weak, -5);

const X_UP_TO_0: Line = ([1, 0], Kind::Weak, 0);

const X_UP_TO_1: Line = ([1, 0], Kind::Weak, 1);

const X_BELOW_1: Line = ([1, 0], Kind::Strict, 1);

const X_UP_TO_2: Line = ([1, 0], Kind::Weak, 2);

const X_BELOW_2: Line = ([1, 0], Kind::Strict, 2);

const X_BELOW_3: Line = ([1, 0], Kind::Strict, 3);

const X_UP_TO_3: Line = ([1, 0], Kind::Weak, 3);

const X_UP_TO_4: Line = ([1, 0], Kind::Weak, 4);

const X_UP_TO_6: Line = ([1, 0], Kind::Weak, 6);

const Y_FROM_0: Line = ([0, -1], Kind::Weak, 0);

const Y_ABOVE_0: Line = ([0, -1], Kind::Strict, 0);

const Y_FROM_MINUS_1: Line = ([0, -1], Kind::Weak, 1);

const Y_ABOVE_2: Line = ([0, -1], Kind::Strict, -2);

const Y_UP_TO_0: Line = ([0, 1], Kind::Weak, 0);

const Y_UP_TO_1: Line = ([0, 1], Kind::Weak, 1);

const Y_UP_TO_3: Line = ([0, 1], Kind::Weak, 3);

// x + y <= 2
const BELOW_DIAGONAL: Line = ([1, 1], Kind::Weak, 2);

// y > x + 1
const ABOVE_DIAGONAL: Line = ([1, -1], Kind::Strict, -1);

// x = 1
const AT_SPEED_1: [Line; 2] = [X_FROM_1, X_UP_TO_1];

// x = 1, -1 <= y <= 1
const RIGHTWARD: [Line; 4] = [X_FROM_1, X_UP_TO_1, Y_FROM_MINUS_1, Y_UP_TO_1];

// A piece that is to be found, `through`, `to` and `layer`.
type Want<'a> = (&'a [Line], u32, u32, u32);

fn rows(alloc: Global, vars: usize, lines: &[Line]) -> Result<Vec<Row<Frac>>, Halt>
    requires { vars ≤ 2 }
    ensures { IfOk result (λ v. AllWide vars v.items) }
{
    let mut out = Vec::with_capacity(alloc, lines.len())?;
    for line in lines {
        out.push(row(alloc, vars, line)?)?;
    }
    Ok(out)
}

fn row(alloc: Global, vars: usize, line: &Line) -> Result<Row<Frac>, Halt>
    requires { vars ≤ 2 }
    ensures { IfOk result (λ r. length r.coefs ≡ vars) }
{
    let (coefs, kind, bound) = *line;
    whole_row(alloc, &coefs[..vars], kind, bound)
}

// The pieces of lists of lines, each with a common point.
fn pieces(alloc: Global, vars: usize, lists: &[&[Line]]) -> Result<Vec<Poly<Frac>>, Fail>
    requires { vars ≤ 2 }
    ensures { IfOk result (λ v. AllVars vars v.items) }
{
    let mut out = Vec::with_capacity(alloc, lists.len())?;
    for lines in lists {
        let piece = make(alloc, vars, rows(alloc, vars, lines)?)?;
        out.push(piece.ok_or("none")?)?;
    }
    Ok(out)
}

// Whether these are the rows.
fn are(vars: usize, rows: &[Row<Frac>], lines: &[Line]) -> bool
    requires { vars ≤ 2 }
{
    rows.len() == lines.len()
        && rows
            .iter()
            .zip(lines)
            .all(|(row, line)| is_row(vars, row, line))
}

fn is_row(vars: usize, row: &Row<Frac>, line: &Line) -> bool
    requires { vars ≤ 2 }
{
    let ([x, y], kind, bound) = *line;
    let coefs = [Frac::from(x), Frac::from(y)];
    row.coefs.as_slice() == &coefs[..vars] && row.kind == kind && row.bound == Frac::from(bound)
}

// Whether the found piece is the wanted one.
fn is(vars: usize, found: &Found<Frac>, want: &Want<'_>) -> bool
    requires { vars ≤ 2 }
{
    let (lines, through, to, layer) = *want;
    are(vars, found.piece.rows(), lines)
        && found.through == through
        && found.to == to
        && found.layer == layer
}

// Whether the bad pieces are reached from the wanted ones, in so many layers and by at most so many crossings.
fn is_found(
    alloc: Global,
    vars: usize,
    bad: &[&[Line]],
    near: &[&[Line]],
    flow: &[Line],
    wanted: &[Want<'_>],
    layers: u32,
    most: u64,
) -> Result<bool, Fail>
    requires { vars ≤ 2 }
{
    let bad = pieces(alloc, vars, bad)?;
    let near = pieces(alloc, vars, near)?;
    let flow = rows(alloc, vars, flow)?;
    let mut tally = Tally::new();
    let reached = reach(alloc, &bad, &near, &flow, &mut tally)?;
    let mut pairs = reached.found.iter().zip(wanted);
    Ok(
        reached.layers == layers
            && tally.count() <= most
            && reached.found.len() == wanted.len()
            && pairs.all(|(found, want)| is(vars, found, want)),
    )
}

#[test]
fn reaches_by_the_newest_layer(rt: HostRuntime) -> Result<(), Fail> {
    let at_2: Want = (&[X_FROM_2, X_UP_TO_2], 0, 0, 1);
    let at_1: Want = (&[X_FROM_1, X_UP_TO_1], 2, 1, 2);
    let between: Want = (&[X_ABOVE_1, X_BELOW_2], 2, 1, 2);
    let before: Want = (&[X_FROM_0, X_BELOW_1], 1, 2, 3);
    let found = is_found(
        rt.alloc(),
        1,
        &[&[X_ABOVE_2, X_UP_TO_3]],
        &[
            &[X_FROM_0, X_UP_TO_1],
            &[X_ABOVE_1, X_UP_TO_2],
            &[X_FROM_5, X_UP_TO_6],
        ],
        &AT_SPEED_1,
        &[at_2, at_1, between, before],
        3,
        25,
    )?;
    assert!(rt; found);
    Ok(())
}

// From x to x = 1 and on, where near pieces and flows are open, half-open or closed.
#[test]
fn reaches_over_edges(rt: HostRuntime) -> Result<(), Fail> {
    let closed = &[X_FROM_1, X_UP_TO_2][..];
    let half_open = &[X_FROM_0, X_BELOW_1][..];
    let all_of_it: Want = (half_open, 1, 0, 1);
    let whole: Want = (&[X_FROM_0, X_UP_TO_1], 1, 0, 1);
    let cases: [(&[Line], &[Line], &[Line], &[Want<'_>]); 6] = [
        // the near piece ends where the bad one begins
        (closed, half_open, &AT_SPEED_1, &[all_of_it]),
        // x = 1 is in neither
        (
            &[X_ABOVE_1, X_UP_TO_2],
            &[X_ABOVE_0, X_BELOW_1],
            &AT_SPEED_1,
            &[],
        ),
        // no speed is allowed
        (closed, half_open, &[X_UP_TO_0, X_FROM_1], &[]),
        // rest is allowed, and no more
        (closed, &[X_FROM_0, X_UP_TO_1], &[X_FROM_0, X_UP_TO_0], &[]),
        // rest is allowed among others
        (
            closed,
            &[X_FROM_0, X_UP_TO_1],
            &[X_FROM_0, X_UP_TO_1],
            &[whole],
        ),
        // strict bounds on the speed
        (closed, half_open, &[X_ABOVE_0, X_BELOW_1], &[all_of_it]),
    ];
    for (bad, near, flow, wanted) in cases {
        let layers = wanted.len() as u32;
        let found = is_found(rt.alloc(), 1, &[bad], &[near], flow, wanted, layers, 4)?;
        assert!(rt; found);
    }
    Ok(())
}

// From the left over the top to the right, each in two steps where it is open.
#[test]
fn reaches_round_a_bend(rt: HostRuntime) -> Result<(), Fail> {
    let found = is_found(
        rt.alloc(),
        2,
        &[&[X_ABOVE_3, X_UP_TO_4, Y_FROM_0, Y_UP_TO_3]],
        &[
            &[X_FROM_0, X_BELOW_1, Y_FROM_0, Y_UP_TO_3],
            &[X_FROM_1, X_UP_TO_2, Y_ABOVE_2, Y_UP_TO_3],
            &[X_ABOVE_2, X_UP_TO_3, Y_FROM_0, Y_UP_TO_3],
        ],
        &RIGHTWARD,
        &[
            (&[X_FROM_3, X_UP_TO_3, Y_FROM_0, Y_UP_TO_3], 0, 0, 1),
            (&[X_FROM_2, X_UP_TO_2, Y_ABOVE_2, Y_UP_TO_3], 3, 1, 2),
            (&[X_ABOVE_2, X_BELOW_3, Y_FROM_0, Y_UP_TO_3], 3, 1, 2),
            (&[X_FROM_1, X_BELOW_2, Y_ABOVE_2, Y_UP_TO_3], 2, 2, 3),
            (&[X_FROM_0, X_BELOW_1, Y_UP_TO_3, ABOVE_DIAGONAL], 1, 4, 4),
        ],
        4,
        36,
    )?;
    assert!(rt; found);
    Ok(())
}

#[test]
fn reaches_from_edge_to_edge(rt: HostRuntime) -> Result<(), Fail> {
    let corner = &[X_FROM_0, X_UP_TO_0, Y_FROM_0, Y_UP_TO_0][..];
    let found = is_found(
        rt.alloc(),
        2,
        &[&[X_FROM_2, X_UP_TO_2, Y_FROM_0, Y_UP_TO_0]],
        &[corner, &[X_FROM_0, X_UP_TO_2, Y_ABOVE_0, Y_UP_TO_1]],
        &RIGHTWARD,
        &[
            (&[X_FROM_0, Y_ABOVE_0, Y_UP_TO_1, BELOW_DIAGONAL], 2, 0, 1),
            (corner, 2, 1, 2),
        ],
        2,
        9,
    )?;
    assert!(rt; found);
    Ok(())
}
