// The value of a row at a point, and what follows from it.
ghost use Rattle.std.specs.Prelude.{◌≡◌, length, map, IfOk};
ghost use Rattle.std.specs.declared.cmp.Ordering.{Ordering};
ghost use Rattle.lhg_math.specs.Number.{nought};
ghost use Rattle.lhg_num.specs.Halting.{IsWideBy, IsHaltedByWide};
ghost use Rattle.lhg_row.specs.Row.{PlainPoint, holds_at};
ghost use Rattle.lhg_row.specs.Piece.{in_piece};
ghost use Rattle.lhg_row.specs.Width.{AllWide};
ghost use Rattle.lhg_row.specs.Kinds as plain;
ghost use Rattle.lhg_row.specs.Moves.{moved};
ghost use Rattle.lhg_row.specs.Truths.{piece_truth};
ghost use Rattle.lhg_row.specs.Values as calculus;

use crate::copies::copy_row;
use crate::rows::{Kind, Point, Row};
use lhg_num::{Halt, Scalar, Wide};
use std::alloc::Global;
use std::cmp::Ordering;

/// Whether the row holds at the point, which has one coordinate per variable. It answers `Wide` only where the value of the
/// row at the point, or its comparison with the bound, applies an operation to operands that it refuses.
pub fn holds<N: Scalar>(row: &Row<N>, point: &Point<N>) -> Result<bool, Wide>
    requires { length row.now.coefs ≡ length point.now }
    ensures calculus { IsWideBy result (calculus.truth N.arithmetic row.now point.now) (λ b. b) }
    ensures exact { IfOk result (λ b. b ≡ holds_at row.now point.now) }
{
    let sum = value(&row.coefs, &point.at)?;
    let order = sum.cmp(&row.bound)?;
    Ok(fits(row.kind, order))
}

/// Whether all rows hold at the point, which has one coordinate per variable. It answers `Wide` only where whether one of the
/// rows holds at the point is so answered.
pub fn all_hold<N: Scalar>(rows: &[Row<N>], point: &Point<N>) -> Result<bool, Wide>
    requires { AllWide (length point.now) rows.now }
    ensures calculus { IsWideBy result (piece_truth N.arithmetic rows.now point.now) (λ b. b) }
    ensures exact { IfOk result (λ b. b ≡ in_piece rows.now point.now) }
{
    for row in rows {
        let here = holds(row, point)?;
        if !here {
            return Ok(false);
        }
    }
    Ok(true)
}

/// The row that holds at x exactly where the old one holds at x + m * by. Its bound is the old one less m times the value of
/// the row at `by`; it halts for `Wide` only where the type refuses an operation of these, and for `Memory`.
pub fn shift<N: Scalar>(alloc: Global, row: &Row<N>, by: &Point<N>, m: &N) -> Result<Row<N>, Halt>
    requires { length row.now.coefs ≡ length by.now }
    ensures calculus { IsHaltedByWide result (calculus.shift N.arithmetic row.now by.now (N.meaning m.now)) (λ r. r) }
    ensures points { IfOk result (λ r. (x : PlainPoint) → length x ≡ length by.now → holds_at r x ≡ holds_at row.now (moved x (N.meaning m.now) by.now)) }
{
    let bound = shifted_bound(row, by, m)?;
    let mut shifted = copy_row(alloc, row)?;
    shifted.bound = bound;
    Ok(shifted)
}

// The bound less m times the value of the row at the point.
fn shifted_bound<N: Scalar>(row: &Row<N>, by: &Point<N>, m: &N) -> Result<N, Wide>
    requires { length row.now.coefs ≡ length by.now }
    ensures { IsWideBy result (calculus.shifted_bound N.arithmetic row.now by.now (N.meaning m.now)) N.meaning }
{
    let sum = value(&row.coefs, &by.at)?;
    let product = m.mul(&sum)?;
    row.bound.sub(&product)
}

// The sum of the products, from the first to the last.
fn value<N: Scalar>(coefs: &[N], at: &[N]) -> Result<N, Wide>
    requires { length coefs.now ≡ length at.now }
    ensures { IsWideBy result (calculus.marked_value N.arithmetic nought (map N.meaning coefs.now) (map N.meaning at.now)) N.meaning }
{
    value_from(N::zero(), coefs, at)
}

/// The start, and to it the products of the coefficients and the coordinates, from the first to the last. It answers `Wide`
/// only where the type refuses one of these products or sums.
pub fn value_from<N: Scalar>(start: N, coefs: &[N], at: &[N]) -> Result<N, Wide>
    requires { length coefs.now ≡ length at.now }
    ensures { IsWideBy result (calculus.marked_value N.arithmetic (N.meaning start) (map N.meaning coefs.now) (map N.meaning at.now)) N.meaning }
{
    let mut sum = start;
    for i in 0..coefs.len() {
        sum = plus_product(&sum, &coefs[i], &at[i])?;
    }
    Ok(sum)
}

/// sum + c * x, which is the sum where c or x is 0. It answers `Wide` only where the type refuses the product or the sum.
pub fn plus_product<N: Scalar>(sum: &N, c: &N, x: &N) -> Result<N, Wide>
    ensures { IsWideBy result (calculus.plus_product N.arithmetic (N.meaning sum.now) (N.meaning c.now) (N.meaning x.now)) N.meaning }
{
    if c.is_zero() {
        return Ok(*sum);
    }
    if x.is_zero() {
        return Ok(*sum);
    }
    let product = c.mul(x)?;
    sum.add(&product)
}

/// Whether a row of this kind holds where its value has this order against its bound.
pub fn fits(kind: Kind, order: Ordering) -> bool
    ensures { result ≡ calculus.fits_order (plain.is_strict kind) order }
{
    match order {
        Ordering::Less => true,
        Ordering::Equal => !kind.is_strict(),
        Ordering::Greater => false,
    }
}
