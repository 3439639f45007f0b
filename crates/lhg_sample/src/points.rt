// The sample, variable by variable.
ghost use Rattle.std.specs.Prelude.{◌≡◌, length, suc, false, IfOk};
ghost use Rattle.lhg_math.specs.Signs.{is_nought};
ghost use Rattle.lhg_num.specs.Halting.{IsWideBy, IsHaltedByRows};
ghost use Rattle.lhg_row.specs.Column.{coef_at};
ghost use Rattle.lhg_row.specs.Width.{AllWide};
ghost use Rattle.lhg_row.specs.PieceFacts.{IsPointOf};
ghost use Rattle.lhg_row.specs.Sample as calculus;
ghost use Rattle.lhg_sample.specs.Sides.{bounds_from, tighter_from};
ghost use Rattle.lhg_simplex.specs.BoundView.{plain_bound, plain_bounds};

use crate::bounds::{Side, tighten};
use lhg_elim::eliminate;
use lhg_num::{Frac, Halt, Scalar, Wide, divided};
use lhg_poly::Poly;
use lhg_row::{Point, Row, System, first_value, is_lower, is_upper};
use lhg_simplex::{Bound, chosen};
use std::alloc::Global;

/// The sample of the piece, which lies in it: a point with one number per variable.
/// It halts for `Wide` only where the type refuses an operation of the calculus of this call,
/// for `Rows` only where it has a list past `ROW_LIMIT`, and for `Memory`.
pub fn sample(alloc: Global, p: &Poly<Frac>) -> Result<Point<Frac>, Halt>
    ensures calculus { IsHaltedByRows result (calculus.sample p.now.width p.now.lines) (λ x. x) }
    ensures point { IfOk result (IsPointOf p.now.width p.now.lines) }
{
    Ok(Point {
        at: values(alloc, p.system())?,
    })
}

// The values of the variables: the last one's by the rows, those before it by what is left without it.
fn values(alloc: Global, sys: &System<Frac>) -> Result<Vec<Frac>, Halt>
    ensures calculus { IsHaltedByRows result (calculus.sample sys.now.width sys.now.lines) (λ v. v.items) }
    ensures many { IfOk result (λ v. length v.items ≡ sys.now.width) }
{
    let rows = sys.rows();
    if sys.vars() == 0 {
        return Ok(Vec::new(alloc));
    }
    let last = sys.vars() - 1;
    let less = eliminate(alloc, sys, last)?;
    let mut at = values(alloc, &less)?;
    let next = value_of(rows, last, &at)?;
    at.push(next)?;
    Ok(at)
}

// The value of variable j where the earlier variables have these.
fn value_of(rows: &[Row<Frac>], j: usize, at: &[Frac]) -> Result<Frac, Wide>
    requires wide { AllWide (suc j) rows.now }
    requires same { length at.now ≡ j }
    ensures { IsWideBy result (calculus.value_of j at.now rows.now) (λ x. x) }
{
    let lower = tightest(Side::Lower, rows, j, at)?;
    let upper = tightest(Side::Upper, rows, j, at)?;
    chosen(lower, upper)
}

// The tightest of the bounds on variable j from one side.
fn tightest(side: Side, rows: &[Row<Frac>], j: usize, at: &[Frac]) -> Result<Option<Bound>, Wide>
    requires wide { AllWide (suc j) rows.now }
    requires same { length at.now ≡ j }
    ensures { IsWideBy result (calculus.tightest (tighter_from side) (bounds_from side j) j at.now rows.now) plain_bounds }
{
    let mut kept = None;
    for row in rows {
        kept = tightened(side, kept, row, j, at)?;
    }
    Ok(kept)
}

// The bound kept so far, and with it that of the row where it bounds variable j from this side.
fn tightened(
    side: Side,
    kept: Option<Bound>,
    row: &Row<Frac>,
    j: usize,
    at: &[Frac],
) -> Result<Option<Bound>, Wide>
    requires wide { length row.now.coefs ≡ suc j }
    requires same { length at.now ≡ j }
    ensures { IsWideBy result (calculus.tightened (tighter_from side) (bounds_from side j) j at.now (plain_bounds kept) row.now) plain_bounds }
{
    if !bounds(side, row, j) {
        return Ok(kept);
    }
    let next = bound_at(row, j, at)?;
    tighten(side, kept, next)
}

// Whether the row bounds variable j from this side.
fn bounds(side: Side, row: &Row<Frac>, j: usize) -> bool
    requires { length row.now.coefs ≡ suc j }
    ensures { result ≡ bounds_from side j row.now }
{
    match side {
        Side::Lower => is_lower(row, j),
        Side::Upper => is_upper(row, j),
    }
}

// The bound that the row gives to variable j.
fn bound_at(row: &Row<Frac>, j: usize, at: &[Frac]) -> Result<Bound, Wide>
    requires wide { length row.now.coefs ≡ suc j }
    requires same { length at.now ≡ j }
    requires there { is_nought (coef_at j row.now) ≡ false }
    ensures { IsWideBy result (calculus.bound_at j at.now row.now) plain_bound }
{
    let sum = first_value(&row.coefs, at)?;
    let slack = row.bound.sub(&sum)?;
    let quotient = divided(&slack, &row.coefs[j])?;
    Ok(Bound {
        at: quotient,
        strict: row.kind.is_strict(),
    })
}
