// Known pieces over x and y, and some that elimination alone would not decide.
ghost use Rattle.std.specs.Prelude.{◌≡◌, IfOk, IfSome, length};
ghost use Rattle.lhg_row.specs.Width.{AllWide};

use crate::{Poly, are_apart, closure, entails, includes, make, meet, project};
use lhg_num::{Frac, Halt};
use lhg_row::{Kind, Row, trim, whole_row};
use std::alloc::Global;
use std::process::Abort;
use std::test::Fail;

// The coefficients of x and y, the kind, and the bound.
type Line = (i64, i64, Kind, i64);

const FROM_0: Line = (-1, 0, Kind::Weak, 0);

const FROM_1: Line = (-1, 0, Kind::Weak, -1);

const FROM_2: Line = (-1, 0, Kind::Weak, -2);

const ABOVE_2: Line = (-1, 0, Kind::Strict, -2);

const ABOVE_3: Line = (-1, 0, Kind::Strict, -3);

const BELOW_1: Line = (1, 0, Kind::Strict, 1);

const BELOW_3: Line = (1, 0, Kind::Strict, 3);

const BELOW_4: Line = (1, 0, Kind::Strict, 4);

const UP_TO_3: Line = (1, 0, Kind::Weak, 3);

const UP_TO_10: Line = (1, 0, Kind::Weak, 10);

const FROM_FAR: Line = (-1, 0, Kind::Weak, -(1 << 31));

const UP_TO_FAR: Line = (1, 0, Kind::Weak, 1 << 31);

// x <= y
const UP_TO_Y: Line = (1, -1, Kind::Weak, 0);

const Y_BELOW_3: Line = (0, 1, Kind::Strict, 3);

fn row(alloc: Global, line: &Line) -> Result<Row<Frac>, Halt>
    ensures { IfOk result (λ r. length r.coefs ≡ 2) }
{
    let (x, y, kind, bound) = *line;
    whole_row(alloc, &[x, y], kind, bound)
}

fn rows(alloc: Global, lines: &[Line]) -> Result<Vec<Row<Frac>>, Halt>
    ensures { IfOk result (λ v. AllWide 2 v.items) }
{
    let mut out = Vec::with_capacity(alloc, lines.len())?;
    for line in lines {
        out.push(row(alloc, line)?)?;
    }
    Ok(out)
}

// The piece of the lines, where they have a common point.
fn made(alloc: Global, lines: &[Line]) -> Result<Option<Poly<Frac>>, Halt>
    ensures { IfOk result (λ o. IfSome o (λ p. p.width ≡ 2)) }
{
    let rows = rows(alloc, lines)?;
    make(alloc, 2, rows)
}

// The piece of lines that have a common point.
fn piece(alloc: Global, lines: &[Line]) -> Result<Poly<Frac>, Fail>
    ensures { IfOk result (λ p. p.width ≡ 2) }
{
    let made = made(alloc, lines)?;
    Ok(made.ok_or("none")?)
}

// Whether these are the rows.
fn are(rows: &[Row<Frac>], lines: &[Line]) -> bool {
    rows.len() == lines.len() && rows.iter().zip(lines).all(|(row, line)| is(row, line))
}

fn is(row: &Row<Frac>, line: &Line) -> bool {
    let (x, y, kind, bound) = *line;
    row.coefs.as_slice() == [Frac::from(x), Frac::from(y)].as_slice()
        && row.kind == kind
        && row.bound == Frac::from(bound)
}

#[test]
fn makes_pieces(rt: HostRuntime) -> Result<(), Fail> {
    let kept = piece(rt.alloc(), &[UP_TO_10, FROM_0, UP_TO_3])?;
    assert!(rt; are(kept.rows(), &[UP_TO_3, FROM_0]));
    let copy = kept.copy(rt.alloc())?;
    assert!(rt; are(copy.rows(), &[UP_TO_3, FROM_0]));
    assert!(rt; made(rt.alloc(), &[BELOW_1, FROM_1])?.is_none());
    Ok(())
}

// Whether the line holds at each point of the piece of the lines.
fn is_entailed(alloc: Global, lines: &[Line], line: &Line) -> Result<bool, Fail> {
    let piece = piece(alloc, lines)?;
    let row = row(alloc, line)?;
    Ok(entails(alloc, &piece, &row)?)
}

// Whether each point of the second piece is one of the first.
fn is_included(alloc: Global, first: &[Line], second: &[Line]) -> Result<bool, Fail> {
    let p = piece(alloc, first)?;
    let q = piece(alloc, second)?;
    Ok(includes(alloc, &p, &q)?)
}

#[test]
fn compares_pieces(rt: HostRuntime) -> Result<(), Fail> {
    for (line, want) in [(BELOW_4, true), (BELOW_3, false)] {
        assert_eq!(rt; is_entailed(rt.alloc(), &[UP_TO_3], &line)?, want);
    }
    let wide = [FROM_0, UP_TO_10];
    let narrow = [ABOVE_2, UP_TO_3];
    assert!(rt; is_included(rt.alloc(), &wide, &narrow)?);
    assert!(rt; !is_included(rt.alloc(), &narrow, &wide)?);
    Ok(())
}

#[test]
fn meets_pieces(rt: HostRuntime) -> Result<(), Fail> {
    let p = piece(rt.alloc(), &[UP_TO_3])?;
    for (line, want) in [(ABOVE_2, true), (ABOVE_3, false)] {
        let q = piece(rt.alloc(), &[line])?;
        let both = meet(rt.alloc(), &p, &q)?;
        assert_eq!(rt; both.is_some_and(|m| are(m.rows(), &[UP_TO_3, line])), want);
        assert_eq!(rt; are_apart(rt.alloc(), &p, &q)?, !want);
    }
    Ok(())
}

#[test]
fn closes_pieces(rt: HostRuntime) -> Result<(), Fail> {
    let open = piece(rt.alloc(), &[ABOVE_2, UP_TO_3])?;
    let closed = closure(rt.alloc(), &open)?;
    assert!(rt; are(closed.rows(), &[FROM_2, UP_TO_3]));
    Ok(())
}

#[test]
fn projects_to_x(rt: HostRuntime) -> Result<(), Fail> {
    let rows = rows(rt.alloc(), &[UP_TO_Y, Y_BELOW_3])?;
    let under = trim(rt.alloc(), 2, rows)?;
    let first = project(rt.alloc(), &under, 1)?.ok_or("none")?;
    let told = first
        .rows()
        .first()
        .map(|row| (row.coefs.len(), row.kind, row.bound));
    assert_eq!(rt; first.rows().len(), 1);
    assert_eq!(rt; told, Some((1, Kind::Strict, Frac::from(3))));
    Ok(())
}

// x and y times this number are at most the bound in sum.
fn steep(alloc: Global, y: i128, bound: i64) -> Result<Row<Frac>, Fail>
    ensures { IfOk result (λ r. length r.coefs ≡ 2) }
{
    let coefs = [Frac::from(1), Frac::new(y, 1)?].to_vec(alloc)?;
    Ok(Row {
        coefs,
        kind: Kind::Weak,
        bound: Frac::from(bound),
    })
}

// Two rows whose combination without y has a bound past the limit. Together they say that x is at most 2^29.
fn steep_rows(alloc: Global) -> Result<Vec<Row<Frac>>, Fail>
    ensures { IfOk result (λ v. AllWide 2 v.items) }
{
    let mut out = Vec::new(alloc);
    out.push(steep(alloc, 1 << 100, 1 << 30)?)?;
    out.push(steep(alloc, -(1 << 100), 0)?)?;
    Ok(out)
}

// The same, and the line.
fn steep_rows_with(alloc: Global, line: &Line) -> Result<Vec<Row<Frac>>, Fail>
    ensures { IfOk result (λ v. AllWide 2 v.items) }
{
    let mut out = steep_rows(alloc)?;
    out.push(row(alloc, line)?)?;
    Ok(out)
}

#[test]
fn guesses_come_first(rt: HostRuntime) -> Result<(), Fail> {
    let p = make(rt.alloc(), 2, steep_rows(rt.alloc())?)?.ok_or("none")?;
    assert_eq!(rt; p.rows().len(), 2);
    let line = row(rt.alloc(), &UP_TO_FAR)?;
    assert_eq!(rt; entails(rt.alloc(), &p, &line), Ok(true));
    let q = piece(rt.alloc(), &[UP_TO_FAR])?;
    assert_eq!(rt; includes(rt.alloc(), &q, &p), Ok(true));
    assert_eq!(rt; are_apart(rt.alloc(), &q, &p), Ok(false));
    let rows = steep_rows_with(rt.alloc(), &FROM_FAR)?;
    let none = trim(rt.alloc(), 2, rows)?;
    assert!(rt; project(rt.alloc(), &none, 1)?.is_none());
    Ok(())
}
