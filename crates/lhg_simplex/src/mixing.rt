// The sum of some rows, each times a number.
ghost use Rattle.std.specs.Prelude.{◌≡◌, ◌<◌, ◌&&◌, not, length, map};
ghost use Rattle.lhg_math.specs.Signs.{is_nought};
ghost use Rattle.lhg_num.specs.Halting.{IsWideBy};
ghost use Rattle.lhg_row.specs.Column.{coef_at};
ghost use Rattle.lhg_row.specs.Width.{AllWide, HasVariable};
ghost use Rattle.lhg_simplex.specs.Mixed as calculus;

use lhg_num::{Scalar, Wide};
use lhg_row::{Row, plus_product};
use std::cmp::Ordering;

/// Whether no multiplier is negative.
pub(crate) fn none_negative<N: Scalar>(ms: &[N]) -> bool
    ensures { result ≡ calculus.none_negative (map N.meaning ms.now) }
{
    for m in ms {
        if m.sign().is_lt() {
            return false;
        }
    }
    true
}

/// Whether some strict row has a multiplier other than 0.
pub(crate) fn mixes_strict<N: Scalar>(ms: &[N], rows: &[Row<N>]) -> bool
    requires { length ms.now ≡ length rows.now }
    ensures { result ≡ calculus.mixes_strict (map N.meaning ms.now) rows.now }
{
    for i in 0..rows.len() {
        if mixes(&rows[i], &ms[i]) {
            return true;
        }
    }
    false
}

// Whether the row is strict and its multiplier is not 0.
fn mixes<N: Scalar>(row: &Row<N>, m: &N) -> bool
    ensures { result ≡ (row.now.strict && not (is_nought (N.meaning m.now))) }
{
    row.kind.is_strict() && !m.is_zero()
}

/// Whether all coefficients of the sum are 0. It answers `Wide` only where the type refuses one of the products or sums.
pub(crate) fn vanish<N: Scalar>(vars: usize, ms: &[N], rows: &[Row<N>]) -> Result<bool, Wide>
    requires wide { AllWide vars rows.now }
    requires same { length ms.now ≡ length rows.now }
    ensures { IsWideBy result (calculus.marked_vanish N.arithmetic 0 vars (map N.meaning ms.now) rows.now) (λ b. b) }
{
    for k in 0..vars {
        let sum = mixed_coefs(k, ms, rows)?;
        if !sum.is_zero() {
            return Ok(false);
        }
    }
    Ok(true)
}

// The coefficient of variable k of the sum.
fn mixed_coefs<N: Scalar>(k: usize, ms: &[N], rows: &[Row<N>]) -> Result<N, Wide>
    requires wide { HasVariable k rows.now }
    requires same { length ms.now ≡ length rows.now }
    ensures { IsWideBy result (calculus.marked_mixed N.arithmetic (coef_at k) (map N.meaning ms.now) rows.now) N.meaning }
{
    let mut sum = N::zero();
    for i in 0..rows.len() {
        let x = coef(&rows[i], k);
        sum = plus_product(&sum, &ms[i], &x)?;
    }
    Ok(sum)
}

/// The bound of the sum. It answers `Wide` only where the type refuses one of the products or sums.
pub(crate) fn mixed_bounds<N: Scalar>(ms: &[N], rows: &[Row<N>]) -> Result<N, Wide>
    requires { length ms.now ≡ length rows.now }
    ensures { IsWideBy result (calculus.marked_mixed N.arithmetic calculus.bound_of (map N.meaning ms.now) rows.now) N.meaning }
{
    let mut sum = N::zero();
    for i in 0..rows.len() {
        let x = bound(&rows[i]);
        sum = plus_product(&sum, &ms[i], &x)?;
    }
    Ok(sum)
}

/// The coefficient of variable k.
pub(crate) fn coef<N: Scalar>(row: &Row<N>, k: usize) -> N
    requires { k < length row.now.coefs }
    ensures { N.meaning result ≡ coef_at k row.now }
{
    row.coefs[k]
}

// The bound.
fn bound<N: Scalar>(row: &Row<N>) -> N
    ensures { N.meaning result ≡ calculus.bound_of row.now }
{
    row.bound
}

/// Whether a row without coefficients is false with this bound.
pub(crate) fn is_false_bound<N: Scalar>(strict: bool, bound: &N) -> bool
    ensures { result ≡ calculus.is_false_bound strict (N.meaning bound.now) }
{
    match bound.sign() {
        Ordering::Less => true,
        Ordering::Equal => strict,
        Ordering::Greater => false,
    }
}
