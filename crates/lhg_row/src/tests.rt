// Operations on rows at fractions, and lists that are trimmed.
ghost use Rattle.std.specs.Prelude.{◌≡◌, IfOk, length};
ghost use Rattle.lhg_row.specs.Width.{AllWide};

use crate::scaling::{Sense, agree, agree_at, lead, lead_size, size, stricter, times};
use crate::{
    Kind, Point, ROW_LIMIT, Row, System, copy_rows, holds, negate, put_in, put_in_each, relax,
    rename, shift, trim, whole_row,
};
use lhg_num::{Frac, Halt, Wide};
use std::alloc::Global;
use std::process::Abort;
use std::test::Fail;

// The coefficients of x and y, the kind, and the bound.
type Line = (i64, i64, Kind, i64);

// What a row is, with the last of its coefficients.
type Shown = (usize, Option<(i128, i128)>, Kind, (i128, i128));

fn parts(x: &Frac) -> (i128, i128) {
    (x.numer(), x.denom())
}

fn shown(row: &Row<Frac>) -> Shown {
    (
        row.coefs.len(),
        row.coefs.last().map(parts),
        row.kind,
        parts(&row.bound),
    )
}

// x with this kind and bound.
fn over_x(alloc: Global, kind: Kind, bound: i64) -> Result<Row<Frac>, Halt>
    ensures { IfOk result (λ r. length r.coefs ≡ 1) }
{
    whole_row(alloc, &[1], kind, bound)
}

fn row(alloc: Global, line: &Line) -> Result<Row<Frac>, Halt>
    ensures { IfOk result (λ r. length r.coefs ≡ 2) }
{
    let (x, y, kind, bound) = *line;
    whole_row(alloc, &[x, y], kind, bound)
}

fn system(alloc: Global, lines: &[Line]) -> Result<System<Frac>, Halt> {
    let mut rows = Vec::with_capacity(alloc, lines.len())?;
    for line in lines {
        rows.push(row(alloc, line)?)?;
    }
    trim(alloc, 2, rows)
}

// The rows x <= i for i from 1 to the count.
fn steps(alloc: Global, count: i64) -> Result<System<Frac>, Halt> {
    let mut lines = Vec::new(alloc);
    for i in 1..=count {
        lines.push((1, 0, Kind::Weak, i))?;
    }
    system(alloc, &lines)
}

// The point with this number.
fn point(alloc: Global, at: i64) -> Result<Point<Frac>, Halt>
    ensures { IfOk result (λ p. length p ≡ 1) }
{
    Ok(Point {
        at: [Frac::from(at)].to_vec(alloc)?,
    })
}

// That x with this kind and the bound 3 holds at a point or not.
fn tells(rt: &impl Abort, alloc: Global, kind: Kind, at: i64, want: bool) -> Result<(), Halt> {
    let row = over_x(alloc, kind, 3)?;
    let at = point(alloc, at)?;
    assert_eq!(rt; holds(&row, &at)?, want, "{kind:?}");
    Ok(())
}

#[test]
fn tells_points(rt: HostRuntime) -> Result<(), Fail> {
    tells(&rt, rt.alloc(), Kind::Weak, 3, true)?;
    tells(&rt, rt.alloc(), Kind::Strict, 3, false)?;
    tells(&rt, rt.alloc(), Kind::Strict, 2, true)?;
    tells(&rt, rt.alloc(), Kind::Weak, 4, false)?;
    Ok(())
}

// That a row was made, and is this one.
fn is(rt: &impl Abort, made: Result<Row<Frac>, Halt>, want: Shown) -> Result<(), Halt> {
    let row = made?;
    assert_eq!(rt; shown(&row), want);
    Ok(())
}

#[test]
fn turns_rows(rt: HostRuntime) -> Result<(), Fail> {
    let weak = over_x(rt.alloc(), Kind::Weak, 3)?;
    let negated = (1, Some((-1, 1)), Kind::Strict, (-3, 1));
    is(&rt, negate(rt.alloc(), &weak), negated)?;
    let renamed = (2, Some((1, 1)), Kind::Weak, (3, 1));
    is(&rt, rename(rt.alloc(), &weak, &[1], 2), renamed)?;
    Ok(())
}

#[test]
fn turns_strict_rows(rt: HostRuntime) -> Result<(), Fail> {
    let strict = over_x(rt.alloc(), Kind::Strict, 3)?;
    let negated = (1, Some((-1, 1)), Kind::Weak, (-3, 1));
    is(&rt, negate(rt.alloc(), &strict), negated)?;
    let relaxed = (1, Some((1, 1)), Kind::Weak, (3, 1));
    is(&rt, relax(rt.alloc(), &strict), relaxed)?;
    Ok(())
}

#[test]
fn moves_rows(rt: HostRuntime) -> Result<(), Fail> {
    let weak = over_x(rt.alloc(), Kind::Weak, 3)?;
    let by = point(rt.alloc(), 2)?;
    let want = (1, Some((1, 1)), Kind::Weak, (1, 1));
    is(&rt, shift(rt.alloc(), &weak, &by, &Frac::from(1)), want)?;
    Ok(())
}

#[test]
fn puts_in(rt: HostRuntime) -> Result<(), Fail> {
    let both = [row(rt.alloc(), &(2, 3, Kind::Strict, 5))?];
    let by = point(rt.alloc(), 2)?;
    let want = (1, Some((3, 1)), Kind::Strict, (1, 1));
    is(&rt, put_in(rt.alloc(), &both[0], &by), want)?;
    let put = put_in_each(rt.alloc(), &both, &by)?;
    assert_eq!(rt; put.first().map(shown), Some(want));
    Ok(())
}

// That these rows are trimmed to one, or to none.
fn trims_to(
    rt: &impl Abort,
    alloc: Global,
    lines: &[Line],
    want: Option<Shown>,
) -> Result<(), Halt> {
    let sys = system(alloc, lines)?;
    assert_eq!(rt; sys.vars(), 2);
    assert_eq!(rt; sys.rows().first().map(shown), want, "{lines:?}");
    assert!(rt; sys.rows().len() <= 1);
    Ok(())
}

#[test]
fn trims(rt: HostRuntime) -> Result<(), Fail> {
    let weak = (1, 2, Kind::Weak, 3);
    let twice = (2, 4, Kind::Weak, 4);
    let strict = (1, 2, Kind::Strict, 2);
    let always = (0, 0, Kind::Weak, 0);
    let never = (0, 0, Kind::Strict, 0);
    let tight = Some((2, Some((2, 1)), Kind::Weak, (2, 1)));
    trims_to(&rt, rt.alloc(), &[weak, always, twice], tight)?;
    let tighter = Some((2, Some((2, 1)), Kind::Strict, (2, 1)));
    trims_to(&rt, rt.alloc(), &[twice, weak, strict], tighter)?;
    let nothing = Some((2, Some((0, 1)), Kind::Strict, (0, 1)));
    trims_to(&rt, rt.alloc(), &[weak, never, twice], nothing)?;
    trims_to(&rt, rt.alloc(), &[always, always, always], None)?;
    Ok(())
}

#[test]
fn counts_rows(rt: HostRuntime) -> Result<(), Fail> {
    assert_eq!(rt; ROW_LIMIT, 8192);
    assert_eq!(rt; steps(rt.alloc(), 8192)?.rows().len(), 1);
    assert_eq!(rt; steps(rt.alloc(), 8193).err(), Some(Halt::Rows));
    Ok(())
}

// That the first and the last of two rows are these.
fn are_both(rt: &impl Abort, rows: &[Row<Frac>]) {
    assert_eq!(rt; rows.len(), 2);
    assert_eq!(rt;
        rows.first().map(shown),
        Some((2, Some((2, 1)), Kind::Strict, (3, 1)))
    );
    assert_eq!(rt;
        rows.last().map(shown),
        Some((2, Some((-1, 1)), Kind::Weak, (0, 1)))
    );
}

#[test]
fn copies(rt: HostRuntime) -> Result<(), Fail> {
    let sys = system(
        rt.alloc(),
        &[(1, 2, Kind::Strict, 3), (0, -1, Kind::Weak, 0)],
    )?;
    are_both(&rt, &copy_rows(rt.alloc(), sys.rows())?);
    let copy = sys.copy(rt.alloc())?;
    assert_eq!(rt; copy.vars(), 2);
    are_both(&rt, &copy.into_rows());
    Ok(())
}

#[test]
fn compares_scaled(rt: HostRuntime) -> Result<(), Fail> {
    let one = Frac::from(1);
    let two = Frac::from(2);
    let cs = [Frac::from(0), Frac::from(-2)];
    let ds = [Frac::from(0), Frac::from(-4)];
    assert!(rt; agree_at(Sense::Opposite, &two, &one, &two, &Frac::from(-4))?);
    assert!(rt; agree(Sense::Same, &two, &one, &cs, &ds)?);
    assert!(rt; !agree(Sense::Opposite, &two, &one, &cs, &ds)?);
    Ok(())
}

#[test]
fn sizes(rt: HostRuntime) -> Result<(), Fail> {
    let two = Frac::from(2);
    assert_eq!(rt; size(&Frac::from(-2)), two);
    assert_eq!(rt; lead(&[Frac::from(0), Frac::from(-2)]), Frac::from(-2));
    assert_eq!(rt; lead_size(&row(rt.alloc(), &(0, -2, Kind::Weak, 1))?), two);
    assert_eq!(rt; stricter(Kind::Weak, Kind::Strict), Kind::Strict);
    assert_eq!(rt; times(&two, &two)?, Frac::from(4));
    Ok(())
}

// The point that is past every number that may stand beside it.
fn far(alloc: Global) -> Result<Point<Frac>, Fail>
    ensures { IfOk result (λ p. length p ≡ 1) }
{
    Ok(Point {
        at: [Frac::new(i128::MAX, 1)?].to_vec(alloc)?,
    })
}

#[test]
fn refuses_wide_shifts(rt: HostRuntime) -> Result<(), Fail> {
    let at = far(rt.alloc())?;
    let weak = over_x(rt.alloc(), Kind::Weak, 3)?;
    let shifted = shift(rt.alloc(), &weak, &at, &Frac::from(2));
    assert_eq!(rt; shifted.err(), Some(Halt::Wide));
    Ok(())
}

#[test]
fn refuses_wide_values(rt: HostRuntime) -> Result<(), Fail> {
    let at = far(rt.alloc())?;
    let steep = whole_row(rt.alloc(), &[2], Kind::Weak, 3)?;
    assert_eq!(rt; holds(&steep, &at), Err(Wide));
    Ok(())
}
