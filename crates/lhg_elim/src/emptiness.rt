// Whether a list of rows has no point.
ghost use Rattle.std.specs.Prelude.{IfOk};
ghost use Rattle.lhg_num.specs.Halting.{IsHaltedByRows};
ghost use Rattle.lhg_row.specs.HasValue.{IsEmptiness};
ghost use Rattle.lhg_row.specs.Eliminate as calculus;

use crate::elimination::eliminate_last;
use lhg_num::{Halt, Scalar};
use lhg_row::System;
use std::alloc::Global;

/// Whether the system has no point. All variables are eliminated, the last first; then no row is left, or 0 < 0.
/// It halts for `Wide` only where the type refuses an operation of the calculus of this
/// call, for `Rows` only where it has a list past `ROW_LIMIT`, and for `Memory`.
pub fn is_empty<N: Scalar>(alloc: Global, sys: &System<N>) -> Result<bool, Halt>
    ensures calculus { IsHaltedByRows result (calculus.is_empty N.arithmetic sys.now.width sys.now.lines) (λ b. b) }
    ensures points { IfOk result (λ b. IsEmptiness sys.now.width sys.now.lines b) }
{
    let left = eliminate_last(alloc, sys, 0)?;
    Ok(!left.rows().is_empty())
}
