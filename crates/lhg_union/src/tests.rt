// Known lists of pieces over x and y, and a list at its limit.
ghost use Rattle.std.specs.Prelude.{◌≡◌, IfOk, IfSome, length};
ghost use Rattle.lhg_row.specs.Width.{AllWide};
ghost use Rattle.lhg_union.specs.PolyLists.{AllVars};

use crate::{Region, covered, meet_lists, minus};
use lhg_num::{Frac, Halt};
use lhg_poly::{Poly, make};
use lhg_row::{Kind, Row, whole_row};
use std::alloc::Global;
use std::process::Abort;
use std::test::Fail;

// The coefficients of x and y, the kind, and the bound.
type Line = (i64, i64, Kind, i64);

const FROM_0: Line = (-1, 0, Kind::Weak, 0);

const FROM_2: Line = (-1, 0, Kind::Weak, -2);

const ABOVE_2: Line = (-1, 0, Kind::Strict, -2);

const ABOVE_3: Line = (-1, 0, Kind::Strict, -3);

const BELOW_2: Line = (1, 0, Kind::Strict, 2);

const UP_TO_3: Line = (1, 0, Kind::Weak, 3);

const UP_TO_10: Line = (1, 0, Kind::Weak, 10);

const Y_FROM_4: Line = (0, -1, Kind::Weak, -4);

const Y_UP_TO_5: Line = (0, 1, Kind::Weak, 5);

fn row(alloc: Global, line: &Line) -> Result<Row<Frac>, Halt>
    ensures { IfOk result (λ r. length r.coefs ≡ 2) }
{
    let (x, y, kind, bound) = *line;
    whole_row(alloc, &[x, y], kind, bound)
}

fn rows(alloc: Global, lines: &[Line]) -> Result<Vec<Row<Frac>>, Halt>
    ensures { IfOk result (λ v. AllWide 2 v.items) }
{
    let mut out = Vec::with_capacity(alloc, lines.len())?;
    for line in lines {
        out.push(row(alloc, line)?)?;
    }
    Ok(out)
}

// The piece of the lines, where they have a common point.
fn made(alloc: Global, lines: &[Line]) -> Result<Option<Poly<Frac>>, Halt>
    ensures { IfOk result (λ o. IfSome o (λ p. p.width ≡ 2)) }
{
    let rows = rows(alloc, lines)?;
    make(alloc, 2, rows)
}

// Puts the piece of the lines at the end of the list, where there is one.
fn push(alloc: Global, out: &mut Vec<Poly<Frac>>, lines: &[Line]) -> Result<(), Halt>
    requires { AllVars 2 out.old.items }
    ensures { IfOk result (λ _. AllVars 2 out.new.items) }
{
    if let Some(piece) = made(alloc, lines)? {
        out.push(piece)?;
    }
    Ok(())
}

fn pieces(alloc: Global, list: &[[Line; 2]]) -> Result<Vec<Poly<Frac>>, Halt>
    ensures { IfOk result (λ v. AllVars 2 v.items) }
{
    let mut out = Vec::with_capacity(alloc, list.len())?;
    for lines in list {
        push(alloc, &mut out, lines)?;
    }
    Ok(out)
}

// Whether these are the pieces.
fn are(pieces: &[Poly<Frac>], list: &[[Line; 2]]) -> bool {
    pieces.len() == list.len()
        && pieces
            .iter()
            .zip(list)
            .all(|(piece, lines)| has_rows(piece, lines))
}

fn has_rows(piece: &Poly<Frac>, lines: &[Line]) -> bool {
    let rows = piece.rows();
    rows.len() == lines.len() && rows.iter().zip(lines).all(|(row, line)| is(row, line))
}

fn is(row: &Row<Frac>, line: &Line) -> bool {
    let (x, y, kind, bound) = *line;
    row.coefs.as_slice() == [Frac::from(x), Frac::from(y)].as_slice()
        && row.kind == kind
        && row.bound == Frac::from(bound)
}

// What the second list leaves of the first.
fn left(alloc: Global, first: &[[Line; 2]], second: &[[Line; 2]]) -> Result<Vec<Poly<Frac>>, Halt> {
    let ps = pieces(alloc, first)?;
    let qs = pieces(alloc, second)?;
    minus(alloc, &ps, &qs)
}

#[test]
fn takes_away(rt: HostRuntime) -> Result<(), Fail> {
    let left = left(rt.alloc(), &[[FROM_0, UP_TO_10]], &[[FROM_2, UP_TO_3]])?;
    assert!(rt; are(&left, &[[FROM_0, BELOW_2], [ABOVE_3, UP_TO_10]]));
    Ok(())
}

// Whether the second list covers the first.
fn is_covered(alloc: Global, first: &[[Line; 2]], second: &[[Line; 2]]) -> Result<bool, Halt> {
    let ps = pieces(alloc, first)?;
    let qs = pieces(alloc, second)?;
    covered(alloc, &ps, &qs)
}

#[test]
fn covers(rt: HostRuntime) -> Result<(), Fail> {
    for (second, want) in [
        ([[FROM_0, BELOW_2], [FROM_2, UP_TO_10]], true),
        ([[FROM_0, BELOW_2], [ABOVE_2, UP_TO_10]], false),
    ] {
        assert_eq!(rt;
            is_covered(rt.alloc(), &[[FROM_0, UP_TO_10]], &second)?,
            want
        );
    }
    Ok(())
}

// The common points of both lists.
fn common(
    alloc: Global,
    first: &[[Line; 2]],
    second: &[[Line; 2]],
) -> Result<Vec<Poly<Frac>>, Halt> {
    let ps = pieces(alloc, first)?;
    let qs = pieces(alloc, second)?;
    meet_lists(alloc, &ps, &qs)
}

#[test]
fn meets_in_order(rt: HostRuntime) -> Result<(), Fail> {
    let both = common(
        rt.alloc(),
        &[[FROM_0, UP_TO_10], [FROM_2, UP_TO_10]],
        &[[FROM_0, UP_TO_3], [ABOVE_2, UP_TO_10]],
    )?;
    let want = [
        [FROM_0, UP_TO_3],
        [ABOVE_2, UP_TO_10],
        [FROM_2, UP_TO_3],
        [ABOVE_2, UP_TO_10],
    ];
    assert!(rt; are(&both, &want));
    Ok(())
}

// x = i and 0 <= y <= 10.
fn push_column(alloc: Global, out: &mut Vec<Poly<Frac>>, i: u16) -> Result<(), Halt>
    requires { AllVars 2 out.old.items }
    ensures { IfOk result (λ _. AllVars 2 out.new.items) }
{
    let x = i64::from(i);
    let lines = [
        (1, 0, Kind::Weak, x),
        (-1, 0, Kind::Weak, -x),
        (0, -1, Kind::Weak, 0),
        (0, 1, Kind::Weak, 10),
    ];
    push(alloc, out, &lines)
}

// x = i and 0 <= y <= 10 for i from 1 to the count.
fn columns(alloc: Global, count: u16) -> Result<Vec<Poly<Frac>>, Halt>
    ensures { IfOk result (λ v. AllVars 2 v.items) }
{
    let mut out = Vec::new(alloc);
    for i in 1..=count {
        push_column(alloc, &mut out, i)?;
    }
    Ok(out)
}

// How many pieces 4 <= y <= 5 leaves of so many columns.
fn left_of_columns(alloc: Global, count: u16) -> Result<usize, Halt> {
    let ps = columns(alloc, count)?;
    let qs = pieces(alloc, &[[Y_FROM_4, Y_UP_TO_5]])?;
    Ok(minus(alloc, &ps, &qs)?.len())
}

#[test]
fn takes_away_up_to_the_limit(rt: HostRuntime) -> Result<(), Fail> {
    assert_eq!(rt; left_of_columns(rt.alloc(), 2048), Ok(4096));
    assert_eq!(rt; left_of_columns(rt.alloc(), 2049), Err(Halt::Pieces));
    Ok(())
}

// The region of one location without pieces.
fn region(alloc: Global) -> Result<Region<Frac>, Halt>
    ensures { IfOk result (λ r. length r.pieces.items ≡ 1) }
{
    let mut lists = Vec::with_capacity(alloc, 1)?;
    lists.push(Vec::new(alloc))?;
    Ok(Region { pieces: lists })
}

#[test]
fn regions_grow(rt: HostRuntime) -> Result<(), Fail> {
    let mut region = region(rt.alloc())?;
    let piece = made(rt.alloc(), &[FROM_0, BELOW_2])?.ok_or("none")?;
    region.add(0, piece)?;
    let grown = region
        .pieces
        .first()
        .is_some_and(|ps| are(ps, &[[FROM_0, BELOW_2]]));
    assert!(rt; grown);
    Ok(())
}
