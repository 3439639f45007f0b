// The projection of a system where the last elimination forms many rows.
ghost use Rattle.std.specs.Prelude.{◌≡◌, ◌≤◌, ◌-◌, true, option_map, IfOk, IfSome};
ghost use Rattle.lhg_num.specs.Halting.{IsHaltedByRows};
ghost use Rattle.lhg_row.specs.PieceFacts.{IsProjection};
ghost use Rattle.lhg_row.specs.Pieces as calculus;

use crate::pruning::left_rows;
use lhg_elim::{lifted_rows, turned_rows};
use lhg_num::{Halt, Scalar};
use lhg_poly::{Poly, make, project};
use lhg_row::System;
use std::alloc::Global;

// From more combinations of the last elimination on, the rows are sought that the piece needs.
const MANY_COMBINATIONS: usize = 160;

/// The points over the first `keep` variables, which are at most all, that some values of the later ones complete, and none
/// where there are none: the piece that `project` gives. Where the last elimination has many combinations, those rows alone are formed that the
/// piece needs.
/// It halts for `Wide` only where the type refuses an operation of the calculus of this call,
/// for `Rows` only where it has a list past `ROW_LIMIT`, and for `Memory`.
pub fn project_further<N: Scalar>(
    alloc: Global,
    sys: &System<N>,
    keep: usize,
) -> Result<Option<Poly<N>>, Halt>
    requires { keep ≤ sys.now.width }
    ensures calculus { IsHaltedByRows result (calculus.project N.arithmetic sys.now.width keep sys.now.lines) (option_map (λ p. p.lines)) }
    ensures vars { IfOk result (λ o. IfSome o (λ p. p.width ≡ keep)) }
    ensures points { IfOk result (λ o. IsProjection N.arithmetic keep (sys.now.width - keep) sys.now.lines (option_map (λ p. p.lines) o)) }
{
    match by_whole(alloc, sys, keep, MANY_COMBINATIONS) {
        Ok(found) => Ok(found),
        Err(Halt::Memory) => Err(Halt::Memory),
        Err(_) => project(alloc, sys, keep),
    }
}

/// The same over whole rows. It halts where no variable is eliminated, where more than `few` combinations are to be formed and those that the piece needs are not found, and where this way
/// meets a limit.
pub(crate) fn by_whole<N: Scalar>(
    alloc: Global,
    sys: &System<N>,
    keep: usize,
    few: usize,
) -> Result<Option<Poly<N>>, Halt>
    requires { keep ≤ sys.now.width }
    ensures value { IfOk result (λ o. option_map (λ p. p.lines) o ≡ (calculus.project N.arithmetic sys.now.width keep sys.now.lines).value) }
    ensures vars { IfOk result (λ o. IfSome o (λ p. p.width ≡ keep)) }
    ensures points { IfOk result (λ o. IsProjection N.arithmetic keep (sys.now.width - keep) sys.now.lines (option_map (λ p. p.lines) o)) }
{
    let n = sys.vars();
    if keep == n {
        return Err(Halt::Rows);
    }
    let lines = sys.rows();
    let wholes = lifted_rows(alloc, lines)?;
    let kept = left_rows(alloc, n, wholes, keep, few)?;
    let back = turned_rows(alloc, &kept)?;
    make(alloc, keep, back)
}
