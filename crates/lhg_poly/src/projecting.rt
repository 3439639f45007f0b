// A system seen by its first variables alone.
ghost use Rattle.std.specs.Prelude.{◌≡◌, ◌≤◌, ◌-◌, option_map, IfOk, IfSome};
ghost use Rattle.lhg_num.specs.Halting.{IsHaltedByRows};
ghost use Rattle.lhg_row.specs.PieceFacts.{IsProjection};
ghost use Rattle.lhg_row.specs.Pieces as calculus;

use crate::making::make;
use crate::polys::Poly;
use lhg_elim::eliminate_last;
use lhg_num::{Halt, Scalar};
use lhg_row::System;
use lhg_simplex::decide;
use std::alloc::Global;

/// The points over the first `keep` variables, which are at most all, that some values of the later ones complete, and none
/// where there are none.
/// It halts for `Wide` only where the type refuses an operation of the calculus of this call,
/// for `Rows` only where it has a list past `ROW_LIMIT`, and for `Memory`.
pub fn project<N: Scalar>(
    alloc: Global,
    sys: &System<N>,
    keep: usize,
) -> Result<Option<Poly<N>>, Halt>
    requires { keep ≤ sys.now.width }
    ensures calculus { IsHaltedByRows result (calculus.project N.arithmetic sys.now.width keep sys.now.lines) (option_map (λ p. p.lines)) }
    ensures vars { IfOk result (λ o. IfSome o (λ p. p.width ≡ keep)) }
    ensures points { IfOk result (λ o. IsProjection N.arithmetic keep (sys.now.width - keep) sys.now.lines (option_map (λ p. p.lines) o)) }
{
    let known = decide(alloc, sys.vars(), sys.rows())?;
    let none = known.unwrap_or(false);
    if none {
        return Ok(None);
    }
    let left = eliminate_last(alloc, sys, keep)?;
    make(alloc, keep, left.into_rows())
}
