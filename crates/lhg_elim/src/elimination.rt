// Elimination of one variable from a list of rows, and of all later ones: over whole rows, and else over the number type of the rows.
ghost use Rattle.std.specs.Prelude.{◌≡◌, ◌<◌, ◌≤◌, ◌+◌, ◌-◌, IfOk};
ghost use Rattle.lhg_num.specs.Halting.{IsHaltedByRows};
ghost use Rattle.lhg_row.specs.HasValue.{IsElimination, IsLastElimination};
ghost use Rattle.lhg_row.specs.Eliminate as calculus;

use crate::by_whole::{eliminate_later_whole, eliminate_whole};
use crate::over_rows::{eliminate_later, eliminate_rows};
use lhg_num::{Halt, Scalar};
use lhg_row::{System, copy_rows};
use std::alloc::Global;

/// The list over the variables other than k, which is one of the system's. It holds at a point exactly where some value of variable k satisfies the system.
/// It halts for `Wide` only where the type refuses an operation of the calculus of this
/// call, for `Rows` only where it has a list past `ROW_LIMIT`, and for `Memory`.
pub fn eliminate<N: Scalar>(alloc: Global, sys: &System<N>, k: usize) -> Result<System<N>, Halt>
    requires { k < sys.now.width }
    ensures list { IsHaltedByRows result (calculus.eliminate N.arithmetic k sys.now.lines) (λ s. s.lines) }
    ensures width { IfOk result (λ s. s.width + 1 ≡ sys.now.width) }
    ensures points { IfOk result (λ s. IsElimination sys.now.width k sys.now.lines s.lines) }
{
    match eliminate_whole(alloc, sys, k) {
        Ok(left) => Ok(left),
        Err(Halt::Memory) => Err(Halt::Memory),
        Err(_) => eliminate_plain(alloc, sys, k),
    }
}

/// The same over the number type of the rows.
pub(crate) fn eliminate_plain<N: Scalar>(
    alloc: Global,
    sys: &System<N>,
    k: usize,
) -> Result<System<N>, Halt>
    requires { k < sys.now.width }
    ensures list { IsHaltedByRows result (calculus.eliminate N.arithmetic k sys.now.lines) (λ s. s.lines) }
    ensures width { IfOk result (λ s. s.width + 1 ≡ sys.now.width) }
    ensures points { IfOk result (λ s. IsElimination sys.now.width k sys.now.lines s.lines) }
{
    eliminate_rows(alloc, sys.vars(), sys.rows(), k)
}

/// The list over the first `keep` variables, which are at most all: the later ones are eliminated, the last first. It holds at a point
/// exactly where some values of the later variables complete it to one of the system.
/// It halts for `Wide` only where the type refuses an operation of the calculus of this
/// call, for `Rows` only where it has a list past `ROW_LIMIT`, and for `Memory`.
pub fn eliminate_last<N: Scalar>(
    alloc: Global,
    sys: &System<N>,
    keep: usize,
) -> Result<System<N>, Halt>
    requires { keep ≤ sys.now.width }
    ensures list { IsHaltedByRows result (calculus.eliminate_last N.arithmetic keep (sys.now.width - keep) sys.now.lines) (λ s. s.lines) }
    ensures width { IfOk result (λ s. s.width ≡ keep) }
    ensures points { IfOk result (λ s. IsLastElimination keep (sys.now.width - keep) sys.now.lines s.lines) }
{
    match eliminate_later_whole(alloc, sys, keep) {
        Ok(left) => Ok(left),
        Err(Halt::Memory) => Err(Halt::Memory),
        Err(_) => eliminate_later_plain(alloc, sys, keep),
    }
}

// The same over the number type of the rows.
fn eliminate_later_plain<N: Scalar>(
    alloc: Global,
    sys: &System<N>,
    keep: usize,
) -> Result<System<N>, Halt>
    requires { keep ≤ sys.now.width }
    ensures list { IsHaltedByRows result (calculus.eliminate_last N.arithmetic keep (sys.now.width - keep) sys.now.lines) (λ s. s.lines) }
    ensures width { IfOk result (λ s. s.width ≡ keep) }
    ensures points { IfOk result (λ s. IsLastElimination keep (sys.now.width - keep) sys.now.lines s.lines) }
{
    let rows = copy_rows(alloc, sys.rows())?;
    let left = eliminate_later(alloc, sys.vars(), rows, keep)?;
    Ok(System::of(keep, left))
}
