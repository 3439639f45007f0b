// Guesses at systems in which each row has one variable.
ghost use Rattle.std.specs.Prelude.{◌≡◌, ◌<◌, ◌≤◌, length, drop, IfOk};
ghost use Rattle.lhg_math.specs.Signs.{is_nought, lead};
ghost use Rattle.lhg_num.specs.Halting.{IsHaltedByMemory};
ghost use Rattle.lhg_num.specs.Marked.{done};
ghost use Rattle.lhg_row.specs.Column as column;
ghost use Rattle.lhg_row.specs.Width.{AllWide, HasVariable};
ghost use Rattle.lhg_row.specs.System.{IsSystem};
ghost use Rattle.lhg_num.specs.FracArithmetic.{frac_arithmetic};
ghost use Rattle.lhg_simplex.specs.Boxes as calculus;
ghost use Rattle.lhg_simplex.specs.BoundView.{plain_bound, plain_bounds};
ghost use Rattle.lhg_simplex.specs.Hint.{HaltsForMemory};

use crate::bounds::{Bound, value_between};
use crate::guesses::Guess;
use crate::mixing::coef;
use lhg_num::{Frac, Halt, Scalar};
use lhg_row::{Point, Row};
use std::alloc::Global;

/// A guess at a trimmed list of rows that have one variable each. It decides, unless the bounds of some variable form a number past the limit.
pub(crate) fn box_guess(alloc: Global, vars: usize, rows: &[Row<Frac>]) -> Result<Guess, Halt>
    requires { IsSystem frac_arithmetic vars rows.now }
    ensures memory { HaltsForMemory result }
    ensures promise { IfOk result (calculus.IsPromised vars rows.now) }
{
    let mut at = Vec::with_capacity(alloc, vars)?;
    for k in 0..vars {
        match value_between(lower_of(rows, k), upper_of(rows, k)) {
            Ok(Some(x)) => at.push(x)?,
            Ok(None) => return Ok(Guess::Multipliers(picked(alloc, rows, k)?)),
            Err(_) => return Ok(Guess::Undecided),
        }
    }
    Ok(Guess::Point(Point { at }))
}

/// Whether each row, over `vars` variables, has exactly one coefficient other than 0.
pub(crate) fn are_boxed(vars: usize, rows: &[Row<Frac>]) -> bool
    requires { AllWide vars rows.now }
    ensures { result ≡ calculus.are_boxed rows.now }
{
    for row in rows {
        if !is_single(row, vars) {
            return false;
        }
    }
    true
}

// Whether the row has exactly one coefficient other than 0.
fn is_single(row: &Row<Frac>, vars: usize) -> bool
    requires { length row.now.coefs ≡ vars }
    ensures { result ≡ calculus.is_single row.now.coefs }
{
    for k in 0..vars {
        if !is_level(row, k) {
            return are_level(row, k + 1, vars);
        }
    }
    false
}

// Whether the coefficients from this place on are 0.
fn are_level(row: &Row<Frac>, from: usize, vars: usize) -> bool
    requires wide { length row.now.coefs ≡ vars }
    requires there { from ≤ vars }
    ensures { result ≡ is_nought (lead (drop from row.now.coefs)) }
{
    for k in from..vars {
        if !is_level(row, k) {
            return false;
        }
    }
    true
}

// Whether the row says nothing of variable k.
fn is_level(row: &Row<Frac>, k: usize) -> bool
    requires { k < length row.now.coefs }
    ensures { result ≡ column.level_at k row.now }
{
    coef(row, k).is_zero()
}

// The lower bound of variable k.
fn lower_of(rows: &[Row<Frac>], k: usize) -> Option<Bound>
    requires { HasVariable k rows.now }
    ensures { plain_bounds result ≡ calculus.lower_of k rows.now }
{
    for row in rows {
        if is_lower(row, k) {
            return Some(lower_bound(row));
        }
    }
    None
}

// The upper bound of variable k.
fn upper_of(rows: &[Row<Frac>], k: usize) -> Option<Bound>
    requires { HasVariable k rows.now }
    ensures { plain_bounds result ≡ calculus.upper_of k rows.now }
{
    for row in rows {
        if is_upper(row, k) {
            return Some(upper_bound(row));
        }
    }
    None
}

// The lower bound that a row with the coefficient -1 gives.
fn lower_bound(row: &Row<Frac>) -> Bound
    ensures { plain_bound result ≡ calculus.lower_bound row.now }
{
    Bound {
        at: row.bound.neg(),
        strict: row.kind.is_strict(),
    }
}

// The upper bound that a row with the coefficient 1 gives.
fn upper_bound(row: &Row<Frac>) -> Bound
    ensures { plain_bound result ≡ calculus.upper_bound row.now }
{
    Bound {
        at: row.bound,
        strict: row.kind.is_strict(),
    }
}

// Whether the row bounds variable k from below.
fn is_lower(row: &Row<Frac>, k: usize) -> bool
    requires { k < length row.now.coefs }
    ensures { result ≡ column.lower_at k row.now }
{
    coef(row, k).sign().is_lt()
}

// Whether the row bounds variable k from above.
fn is_upper(row: &Row<Frac>, k: usize) -> bool
    requires { k < length row.now.coefs }
    ensures { result ≡ column.upper_at k row.now }
{
    coef(row, k).sign().is_gt()
}

// 1 for a row of variable k, and 0 for another.
fn weight(row: &Row<Frac>, k: usize) -> Frac
    requires { k < length row.now.coefs }
    ensures { result ≡ calculus.weight k row.now }
{
    if is_level(row, k) {
        Frac::zero()
    } else {
        Frac::one()
    }
}

// 1 for each row of variable k, and 0 for the others.
fn picked(alloc: Global, rows: &[Row<Frac>], k: usize) -> Result<Vec<Frac>, Halt>
    requires { HasVariable k rows.now }
    ensures { IsHaltedByMemory result (done (calculus.picked k rows.now)) (λ v. v.items) }
{
    let mut out = Vec::with_capacity(alloc, rows.len())?;
    for row in rows {
        out.push(weight(row, k))?;
    }
    Ok(out)
}
