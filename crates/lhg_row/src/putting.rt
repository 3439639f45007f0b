// Rows over some variables and then further ones, once the first ones have values.
ghost use Rattle.std.specs.Prelude.{◌≡◌, ◌≤◌, ◌++◌, length, drop, map, IfOk};
ghost use Rattle.lhg_math.specs.Number.{nought};
ghost use Rattle.lhg_math.specs.Tests.{AllOf};
ghost use Rattle.lhg_num.specs.Marked.{done};
ghost use Rattle.lhg_num.specs.Halting.{IsWideBy, IsHaltedByWide, IsHaltedByMemory};
ghost use Rattle.lhg_row.specs.Row.{PlainPoint, holds_at};
ghost use Rattle.lhg_row.specs.Piece.{in_piece};
ghost use Rattle.lhg_row.specs.Values.{marked_value};
ghost use Rattle.lhg_row.specs.PutIn as calculus;

use crate::rows::{Point, Row};
use crate::values::value_from;
use lhg_num::{Halt, Scalar, Wide};
use std::alloc::Global;

/// The row over the further variables that holds at y exactly where the old one holds at the point and y together. Its bound is
/// the old one less the value of the row's terms at the point; it halts for `Wide` only where the type refuses an operation of
/// these, and for `Memory`.
pub fn put_in<N: Scalar>(alloc: Global, row: &Row<N>, point: &Point<N>) -> Result<Row<N>, Halt>
    requires { length point.now ≤ length row.now.coefs }
    ensures calculus { IsHaltedByWide result (calculus.put_in N.arithmetic point.now row.now) (λ r. r) }
    ensures points { IfOk result (λ r. (y : PlainPoint) → holds_at r y ≡ holds_at row.now (point.now ++ y)) }
{
    let bound = lessened_bound(row, point)?;
    let coefs = further(alloc, &row.coefs, point.at.len())?;
    Ok(Row {
        coefs,
        kind: row.kind,
        bound,
    })
}

/// Each of the rows with the point put in: they hold at y exactly where the old ones hold at the point and y together. It halts for
/// `Wide` only where the type refuses an operation by which one of them is put in, and for `Memory`.
pub fn put_in_each<N: Scalar>(
    alloc: Global,
    rows: &[Row<N>],
    point: &Point<N>,
) -> Result<Vec<Row<N>>, Halt>
    requires { AllOf (λ r. length point.now ≤ length r.coefs) rows.now }
    ensures calculus { IsHaltedByWide result (calculus.put_in_each N.arithmetic point.now rows.now) (λ v. v.items) }
    ensures points { IfOk result (λ v. (y : PlainPoint) → in_piece v.items y ≡ in_piece rows.now (point.now ++ y)) }
{
    let mut out = Vec::with_capacity(alloc, rows.len())?;
    for row in rows {
        let put = put_in(alloc, row, point)?;
        out.push(put)?;
    }
    Ok(out)
}

// The bound less the value of the row's first terms at the point.
fn lessened_bound<N: Scalar>(row: &Row<N>, point: &Point<N>) -> Result<N, Wide>
    requires { length point.now ≤ length row.now.coefs }
    ensures { IsWideBy result (calculus.lessened_bound N.arithmetic point.now row.now) N.meaning }
{
    let sum = first_value(&row.coefs, &point.at)?;
    row.bound.sub(&sum)
}

/// The sum of the products of the first coefficients and the coordinates, from the first to the last: the value of the terms of
/// those variables that have values. It answers `Wide` only where the type refuses one of these products or sums.
pub fn first_value<N: Scalar>(coefs: &[N], at: &[N]) -> Result<N, Wide>
    requires { length at.now ≤ length coefs.now }
    ensures { IsWideBy result (marked_value N.arithmetic nought (map N.meaning coefs.now) (map N.meaning at.now)) N.meaning }
{
    let (first, _) = coefs.split_at(at.len());
    value_from(N::zero(), first, at)
}

// The coefficients from a place on.
fn further<N: Scalar>(alloc: Global, coefs: &[N], from: usize) -> Result<Vec<N>, Halt>
    requires { from ≤ length coefs.now }
    ensures { IsHaltedByMemory result (done (drop from (map N.meaning coefs.now))) (λ v. map N.meaning v.items) }
{
    let (_, behind) = coefs.split_at(from);
    Ok(Vec::from_slice(alloc, behind)?)
}
