// The exact answer of a guess.
ghost use Rattle.std.specs.Prelude.{◌≡◌, IfOk, length, map};
ghost use Rattle.lhg_num.specs.FracArithmetic.{frac_arithmetic};
ghost use Rattle.lhg_num.specs.Halting.{IsWideBy};
ghost use Rattle.lhg_row.specs.Width.{AllWide};
ghost use Rattle.lhg_simplex.specs.Mixed.{marked_refutes};
ghost use Rattle.lhg_simplex.specs.Verdict.{verdict, marked_verdict, IsAnswer};

use crate::guesses::Guess;
use crate::hints::Hint;
use crate::mixing::{is_false_bound, mixed_bounds, mixes_strict, none_negative, vanish};
use lhg_num::{Frac, Scalar, Wide};
use lhg_row::{Point, Row, System, all_hold};

/// What the guess says of the system: `Some(false)` exactly where it is a point of the system, so that there is one, and `Some(true)`
/// exactly where it is multipliers that refute the system, so that there is none: one number per row, none negative, and the sum of
/// the rows so multiplied has no coefficient other than 0 and is false. It answers `Wide` only where the value of a row
/// at the point and its comparison with the bound, or a product of a multiplier and an entry and a sum of such products, are refused.
pub fn confirm(sys: &System<Frac>, guess: &Guess) -> Result<Option<bool>, Wide>
    ensures calculus { IsWideBy result (marked_verdict sys.now.width sys.now.lines guess.now) (λ o. o) }
    ensures exact { IfOk result (λ o. o ≡ verdict sys.now.width sys.now.lines guess.now) }
    ensures points { IfOk result (IsAnswer sys.now.width sys.now.lines) }
{
    confirm_rows(sys.vars(), sys.rows(), guess)
}

// The same of rows, each over `vars` variables.
fn confirm_rows(vars: usize, rows: &[Row<Frac>], guess: &Guess) -> Result<Option<bool>, Wide>
    requires { AllWide vars rows.now }
    ensures { IsWideBy result (marked_verdict vars rows.now guess.now) (λ o. o) }
{
    match guess {
        Guess::Point(point) => {
            if point.at.len() == vars && all_hold(rows, point)? {
                Ok(Some(false))
            } else {
                Ok(None)
            }
        }
        Guess::Multipliers(ms) => {
            if refute(vars, rows, ms)? {
                Ok(Some(true))
            } else {
                Ok(None)
            }
        }
        Guess::Undecided => Ok(None),
    }
}

// Whether the multipliers refute the rows, each over `vars` variables.
fn refute<N: Scalar>(vars: usize, rows: &[Row<N>], ms: &[N]) -> Result<bool, Wide>
    requires { AllWide vars rows.now }
    ensures { IsWideBy result (marked_refutes N.arithmetic vars rows.now (map N.meaning ms.now)) (λ b. b) }
{
    if ms.len() != rows.len() || !none_negative(ms) {
        return Ok(false);
    }
    let none = vanish(vars, ms, rows)?;
    if !none {
        return Ok(false);
    }
    let bound = mixed_bounds(ms, rows)?;
    Ok(is_false_bound(mixes_strict(ms, rows), &bound))
}

/// The answer of a hint, and none where a number that tells is refused.
pub(crate) fn told<N: Scalar>(vars: usize, rows: &[Row<N>], hint: &Hint<N>) -> Option<bool>
    requires { AllWide vars rows.now }
    ensures { IsAnswer vars rows.now result }
{
    match hint {
        Hint::Point(point) => {
            if point.at.len() == vars {
                shown(vars, rows, point)
            } else {
                None
            }
        }
        Hint::Multipliers(ms) => refuted(vars, rows, ms),
        Hint::Undecided => None,
    }
}

// That the rows have a point, where it is this one.
fn shown<N: Scalar>(vars: usize, rows: &[Row<N>], point: &Point<N>) -> Option<bool>
    requires wide { AllWide vars rows.now }
    requires same { length point.now ≡ vars }
    ensures { IsAnswer vars rows.now result }
{
    match all_hold(rows, point) {
        Ok(true) => Some(false),
        Ok(false) => None,
        Err(_) => None,
    }
}

/// That the rows have no point, where the multipliers refute them.
pub(crate) fn refuted<N: Scalar>(vars: usize, rows: &[Row<N>], ms: &[N]) -> Option<bool>
    requires { AllWide vars rows.now }
    ensures { IsAnswer vars rows.now result }
{
    match refute(vars, rows, ms) {
        Ok(true) => Some(true),
        _ => None,
    }
}
