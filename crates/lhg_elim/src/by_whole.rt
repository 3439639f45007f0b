// Elimination over whole rows, turned back.
ghost use Rattle.std.specs.Prelude.{◌≡◌, ◌<◌, ◌≤◌, ◌-◌, ◌+◌, IfOk};
ghost use Rattle.lhg_row.specs.HasValue.{IsElimination, IsLastElimination};
ghost use Rattle.lhg_row.specs.Eliminate as calculus;

use crate::lifting::lifted_rows;
use crate::over_rows::{eliminate_later, eliminate_rows};
use crate::turning::turned_rows;
use lhg_num::{Halt, Scalar};
use lhg_row::System;
use std::alloc::Global;

/// The list over the variables other than k. It halts for `Wide` also where a number has no fraction, or a fraction no value of the type.
pub(crate) fn eliminate_whole<N: Scalar>(
    alloc: Global,
    sys: &System<N>,
    k: usize,
) -> Result<System<N>, Halt>
    requires { k < sys.now.width }
    ensures list { IfOk result (λ s. s.lines ≡ (calculus.eliminate N.arithmetic k sys.now.lines).value) }
    ensures width { IfOk result (λ s. s.width + 1 ≡ sys.now.width) }
    ensures points { IfOk result (λ s. IsElimination sys.now.width k sys.now.lines s.lines) }
{
    let n = sys.vars();
    let lines = sys.rows();
    let wholes = lifted_rows(alloc, lines)?;
    let left = eliminate_rows(alloc, n, &wholes, k)?;
    let shown = left.rows();
    let back = turned_rows(alloc, shown)?;
    Ok(System::of(n - 1, back))
}

/// The list over the first `keep` variables, all eliminations done before it is turned back. It halts for `Wide` also where a
/// number has no fraction, or a fraction no value of the type.
pub(crate) fn eliminate_later_whole<N: Scalar>(
    alloc: Global,
    sys: &System<N>,
    keep: usize,
) -> Result<System<N>, Halt>
    requires { keep ≤ sys.now.width }
    ensures list { IfOk result (λ s. s.lines ≡ (calculus.eliminate_last N.arithmetic keep (sys.now.width - keep) sys.now.lines).value) }
    ensures width { IfOk result (λ s. s.width ≡ keep) }
    ensures points { IfOk result (λ s. IsLastElimination keep (sys.now.width - keep) sys.now.lines s.lines) }
{
    let n = sys.vars();
    let lines = sys.rows();
    let wholes = lifted_rows(alloc, lines)?;
    let left = eliminate_later(alloc, n, wholes, keep)?;
    let back = turned_rows(alloc, &left)?;
    Ok(System::of(keep, back))
}
