// The sample of rows that have a common point.
ghost use Rattle.std.specs.Prelude.{◌≡◌, filter, length, IfOk};
ghost use Rattle.lhg_num.specs.Marked.{done};
ghost use Rattle.lhg_num.specs.Halting.{IsHaltedByMemory, IsHaltedByRows};
ghost use Rattle.lhg_row.specs.Constant.{varies};
ghost use Rattle.lhg_row.specs.HasValue.{HasPoint};
ghost use Rattle.lhg_row.specs.Width.{AllWide};
ghost use Rattle.lhg_loss.specs.Explanation as calculus;

use lhg_num::{Frac, Halt, Scalar};
use lhg_poly::make;
use lhg_row::scaling::lead_size;
use lhg_row::{Point, Row};
use lhg_sample::sample;
use std::alloc::Global;

/// The sample of what the rows over `vars` variables make, without those that have no variable. They have a common point.
pub(crate) fn sample_of(
    alloc: Global,
    vars: usize,
    rows: Vec<Row<Frac>>,
) -> Result<Point<Frac>, Halt>
    requires wide { AllWide vars rows.items }
    requires point { HasPoint vars rows.items }
    ensures calculus { IsHaltedByRows result (calculus.sample_of vars rows.items) (λ x. x) }
    ensures wide { IfOk result (λ x. length x ≡ vars) }
{
    let left = varying(alloc, rows)?;
    let made = make(alloc, vars, left)?;
    match made {
        Some(piece) => sample(alloc, &piece),
        None => unreachable!(),
    }
}

// The rows that have a variable.
fn varying(alloc: Global, rows: Vec<Row<Frac>>) -> Result<Vec<Row<Frac>>, Halt>
    ensures { IsHaltedByMemory result (done (filter varies rows.items)) (λ v. v.items) }
{
    let mut left = Vec::with_capacity(alloc, rows.len())?;
    for row in rows {
        if has_variable(&row) {
            left.push(row)?;
        }
    }
    Ok(left)
}

// Whether some coefficient is not 0.
fn has_variable(row: &Row<Frac>) -> bool
    ensures { result ≡ varies row.now }
{
    !lead_size(row).is_zero()
}
