// Worked eliminations over x and y, and lists with and without a point.
ghost use Rattle.std.specs.Prelude.{◌≡◌, ◌≤◌, IfOk, length};
ghost use Rattle.lhg_row.specs.Width.{AllWide};

use crate::elimination::eliminate_plain;
use crate::{comb, eliminate, eliminate_last, is_empty};
use lhg_num::{Frac, Halt, Scalar};
use lhg_row::{Kind, Row, System, trim, whole_row};
use std::alloc::Global;
use std::process::Abort;
use std::test::Fail;

// The coefficients of x and y, the kind, and the bound.
type Line = (i64, i64, Kind, i64);

// The coefficient of the first variable, the kind, and the bound.
type Shown = (Option<(i128, i128)>, Kind, (i128, i128));

fn parts(x: &Frac) -> (i128, i128) {
    (x.numer(), x.denom())
}

fn shown(row: &Row<Frac>) -> Shown {
    (row.coefs.first().map(parts), row.kind, parts(&row.bound))
}

fn row(alloc: Global, line: &Line) -> Result<Row<Frac>, Halt>
    ensures { IfOk result (λ r. length r.coefs ≡ 2) }
{
    let (x, y, kind, bound) = *line;
    whole_row(alloc, &[x, y], kind, bound)
}

fn system(alloc: Global, lines: &[Line]) -> Result<System<Frac>, Halt>
    ensures { IfOk result (λ s. s.width ≡ 2) }
{
    let mut rows = Vec::with_capacity(alloc, lines.len())?;
    for line in lines {
        rows.push(row(alloc, line)?)?;
    }
    trim(alloc, 2, rows)
}

// i*x + y <= 1 and i*x - y <= 1 for i from 1 to the count.
fn fan(alloc: Global, count: i64) -> Result<System<Frac>, Halt>
    ensures { IfOk result (λ s. s.width ≡ 2) }
{
    let mut lines = Vec::new(alloc);
    for i in 1..=count {
        lines.push((i, 1, Kind::Weak, 1))?;
        lines.push((i, -1, Kind::Weak, 1))?;
    }
    system(alloc, &lines)
}

// x <= y and y < 3
fn below(alloc: Global) -> Result<System<Frac>, Halt>
    ensures { IfOk result (λ s. s.width ≡ 2) }
{
    let lower = (1, -1, Kind::Weak, 0);
    let upper = (0, 1, Kind::Strict, 3);
    system(alloc, &[lower, upper])
}

// x = y and y < 3
fn fixed(alloc: Global) -> Result<System<Frac>, Halt>
    ensures { IfOk result (λ s. s.width ≡ 2) }
{
    let lower = (1, -1, Kind::Weak, 0);
    let upper = (-2, 2, Kind::Weak, 0);
    system(alloc, &[lower, upper, (0, 1, Kind::Strict, 3)])
}

// That the list has one row once y is eliminated, and it is this one.
fn leaves(rt: &impl Abort, alloc: Global, sys: &System<Frac>, want: Shown) -> Result<(), Halt>
    requires { sys.now.width ≡ 2 }
{
    let left = eliminate(alloc, sys, 1)?;
    assert_eq!(rt; left.rows().len(), 1);
    assert_eq!(rt; left.rows().first().map(shown), Some(want));
    Ok(())
}

#[test]
fn eliminates_y(rt: HostRuntime) -> Result<(), Fail> {
    let want = (Some((1, 1)), Kind::Strict, (3, 1));
    leaves(&rt, rt.alloc(), &below(rt.alloc())?, want)?;
    leaves(&rt, rt.alloc(), &fixed(rt.alloc())?, want)?;
    Ok(())
}

#[test]
fn eliminates_from_fans(rt: HostRuntime) -> Result<(), Fail> {
    let want = (Some((1, 1)), Kind::Weak, (1, 90));
    leaves(&rt, rt.alloc(), &fan(rt.alloc(), 90)?, want)?;
    let long = fan(rt.alloc(), 92)?;
    assert_eq!(rt; eliminate(rt.alloc(), &long, 1).err(), Some(Halt::Rows));
    Ok(())
}

// That so many rows are left over the first variables.
fn keeps(rt: &impl Abort, alloc: Global, sys: &System<Frac>, keep: usize) -> Result<(), Halt>
    requires width { sys.now.width ≡ 2 }
    requires there { keep ≤ 2 }
{
    let left = eliminate_last(alloc, sys, keep)?;
    assert_eq!(rt; left.vars(), keep);
    assert_eq!(rt; left.rows().len(), keep);
    Ok(())
}

#[test]
fn eliminates_the_last(rt: HostRuntime) -> Result<(), Fail> {
    let sys = below(rt.alloc())?;
    keeps(&rt, rt.alloc(), &sys, 2)?;
    keeps(&rt, rt.alloc(), &sys, 1)?;
    keeps(&rt, rt.alloc(), &sys, 0)?;
    Ok(())
}

// Whether two rows have no point in common.
fn are_empty(alloc: Global, first: Line, second: Line) -> Result<bool, Halt> {
    is_empty(alloc, &system(alloc, &[first, second])?)
}

#[test]
fn finds_empty_lists(rt: HostRuntime) -> Result<(), Fail> {
    let cases = [
        ((1, 0, Kind::Strict, 1), (-1, 0, Kind::Weak, -1), true),
        ((1, 0, Kind::Weak, 1), (-1, 0, Kind::Weak, -1), false),
        ((1, -1, Kind::Weak, 0), (0, 1, Kind::Strict, 3), false),
        ((1, 1, Kind::Weak, 0), (-2, -2, Kind::Weak, -1), true),
        ((0, 0, Kind::Weak, 0), (0, 0, Kind::Strict, 1), false),
        ((0, 0, Kind::Strict, 0), (1, 0, Kind::Weak, 1), true),
    ];
    for (first, second, want) in cases {
        let empty = are_empty(rt.alloc(), first, second)?;
        assert_eq!(rt; empty, want, "{first:?} {second:?}");
    }
    Ok(())
}

#[test]
fn combines(rt: HostRuntime) -> Result<(), Fail> {
    let r = row(rt.alloc(), &(1, -1, Kind::Weak, 0))?;
    let s = row(rt.alloc(), &(0, 1, Kind::Strict, 3))?;
    let both = comb(rt.alloc(), &r, &s, 1)?;
    assert_eq!(rt; shown(&both), (Some((1, 1)), Kind::Strict, (3, 1)));
    Ok(())
}

// x and y times a number are at most a bound in sum: the number and the bound.
type Slope = (Frac, Frac);

fn slope(alloc: Global, line: &Slope) -> Result<Row<Frac>, Halt>
    ensures { IfOk result (λ r. length r.coefs ≡ 2) }
{
    let (y, bound) = *line;
    let coefs = [Frac::from(1), y].to_vec(alloc)?;
    Ok(Row {
        coefs,
        kind: Kind::Weak,
        bound,
    })
}

fn slopes(alloc: Global, lines: &[Slope]) -> Result<System<Frac>, Halt>
    ensures { IfOk result (λ s. s.width ≡ 2) }
{
    let mut rows = Vec::with_capacity(alloc, lines.len())?;
    for line in lines {
        rows.push(slope(alloc, line)?)?;
    }
    trim(alloc, 2, rows)
}

// The coefficient of y that nothing may be added to.
fn far() -> Result<Frac, Fail> {
    Ok(Frac::new(i128::MAX, 1)?)
}

#[test]
fn refuses_wide_combinations(rt: HostRuntime) -> Result<(), Fail> {
    let r = slope(rt.alloc(), &(far()?, Frac::from(0)))?;
    let s = slope(rt.alloc(), &(Frac::from(-2), Frac::from(0)))?;
    let both = comb(rt.alloc(), &r, &s, 1);
    assert_eq!(rt; both.err(), Some(Halt::Wide));
    Ok(())
}

#[test]
fn refuses_wide_eliminations(rt: HostRuntime) -> Result<(), Fail> {
    let nothing = Frac::from(0);
    let sys = slopes(rt.alloc(), &[(far()?, nothing), (Frac::from(-2), nothing)])?;
    assert_eq!(rt; eliminate(rt.alloc(), &sys, 1).err(), Some(Halt::Wide));
    assert_eq!(rt; is_empty(rt.alloc(), &sys), Err(Halt::Wide));
    Ok(())
}

// i*y + x and x - i*y are at most 1/i for i from 1 to 40.
fn fractions(alloc: Global) -> Result<System<Frac>, Fail>
    ensures { IfOk result (λ s. s.width ≡ 2) }
{
    let mut lines = Vec::new(alloc);
    for i in 1..=40i64 {
        let bound = Frac::new(1, i128::from(i))?;
        let slope = Frac::from(i);
        lines.push((slope, bound))?;
        lines.push((slope.neg(), bound))?;
    }
    Ok(slopes(alloc, &lines)?)
}

#[test]
fn agrees_with_fractions(rt: HostRuntime) -> Result<(), Fail> {
    let sys = fractions(rt.alloc())?;
    let left = eliminate(rt.alloc(), &sys, 1)?;
    let plain = eliminate_plain(rt.alloc(), &sys, 1)?;
    are_same(&rt, left.rows(), plain.rows());
    Ok(())
}

// That two lists have the same rows.
fn are_same(rt: &impl Abort, rows: &[Row<Frac>], others: &[Row<Frac>]) {
    assert_eq!(rt; rows.len(), others.len());
    for (row, other) in rows.iter().zip(others) {
        assert_eq!(rt; shown(row), shown(other));
    }
}

// Two rows with the product of whose denominators fractions are refused.
fn fine(alloc: Global) -> Result<System<Frac>, Fail>
    ensures { IfOk result (λ s. s.width ≡ 2) }
{
    let far = 18_446_744_073_709_551_616;
    let nothing = Frac::from(0);
    let upper = (Frac::new(1, far)?, nothing);
    let lower = (Frac::new(-1, far + 1)?, nothing);
    Ok(slopes(alloc, &[upper, lower])?)
}

// The products of these denominators are refused, and over whole rows none is formed.
#[test]
fn answers_where_fractions_are_wide(rt: HostRuntime) -> Result<(), Fail> {
    let sys = fine(rt.alloc())?;
    let want = (Some((1, 1)), Kind::Weak, (0, 1));
    leaves(&rt, rt.alloc(), &sys, want)?;
    let plain = eliminate_plain(rt.alloc(), &sys, 1);
    assert_eq!(rt; plain.err(), Some(Halt::Wide));
    Ok(())
}
