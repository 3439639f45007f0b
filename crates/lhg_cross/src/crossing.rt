// One crossing of three pieces.
ghost use Rattle.std.specs.Prelude.{◌≡◌, ◌+◌, option_map, IfOk, IfSome};
ghost use Rattle.lhg_num.specs.Marked.{done};
ghost use Rattle.lhg_num.specs.Halting.{IsHaltedByMemory, IsHaltedByRows};
ghost use Rattle.lhg_row.specs.Width.{AllWide};
ghost use Rattle.lhg_motion.specs.CrossFact.{IsCross};
ghost use Rattle.lhg_motion.specs.CrossCalculus as calculus;
ghost use Rattle.lhg_cross.specs.Counts.{raised};

use crate::assembling::cross_rows;
use crate::tallies::Tally;
use lhg_num::{Halt, Scalar};
use lhg_poly::{Poly, are_refuted};
use lhg_prune::project_further;
use lhg_row::{Row, trim};
use std::alloc::Global;

/// The points x of `from` for which some y in `into` and some t > 0 have (y - x) / t in the flow set and every point strictly between x and y in `through`; where x
/// is y this is x itself. It is none exactly where there is none. All are over the same variables.
/// It halts for `Wide` only where the type refuses an operation of the calculus of this call,
/// for `Rows` only where it has a list past `ROW_LIMIT`, and for `Memory`. Whatever the answer, the tally counts one more.
pub fn cross<N: Scalar>(
    alloc: Global,
    from: &Poly<N>,
    through: &Poly<N>,
    into: &Poly<N>,
    flow: &[Row<N>],
    tally: &mut Tally,
) -> Result<Option<Poly<N>>, Halt>
    requires through { through.now.width ≡ from.now.width }
    requires into { into.now.width ≡ from.now.width }
    requires flow { AllWide from.now.width flow.now }
    ensures calculus { IsHaltedByRows result (calculus.cross N.arithmetic from.now.width from.now.lines through.now.lines into.now.lines flow.now) (option_map (λ p. p.lines)) }
    ensures vars { IfOk result (λ o. IfSome o (λ p. p.width ≡ from.now.width)) }
    ensures points { IfOk result (λ o. IsCross N.arithmetic from.now.width from.now.lines through.now.lines into.now.lines flow.now (option_map (λ p. p.lines) o)) }
    ensures tally { tally.new ≡ raised tally.old }
{
    tally.raise();
    crossing(alloc, from, through, into, flow)
}

// The points of `from` that have a crossing. Rows that a guess refutes are not trimmed.
fn crossing<N: Scalar>(
    alloc: Global,
    from: &Poly<N>,
    through: &Poly<N>,
    into: &Poly<N>,
    flow: &[Row<N>],
) -> Result<Option<Poly<N>>, Halt>
    requires through { through.now.width ≡ from.now.width }
    requires into { into.now.width ≡ from.now.width }
    requires flow { AllWide from.now.width flow.now }
    ensures calculus { IsHaltedByRows result (calculus.cross N.arithmetic from.now.width from.now.lines through.now.lines into.now.lines flow.now) (option_map (λ p. p.lines)) }
    ensures vars { IfOk result (λ o. IfSome o (λ p. p.width ≡ from.now.width)) }
    ensures points { IfOk result (λ o. IsCross N.arithmetic from.now.width from.now.lines through.now.lines into.now.lines flow.now (option_map (λ p. p.lines) o)) }
{
    let n = from.vars();
    let vars = both_ends_and_time(n)?;
    let rows = cross_rows(alloc, n, from.rows(), through.rows(), into.rows(), flow)?;
    let none = are_refuted(alloc, vars, &rows)?;
    if none {
        return Ok(None);
    }
    let system = trim(alloc, vars, rows)?;
    project_further(alloc, &system, n)
}

// How many variables two points with n coordinates each and a time have. Where they can't be counted there is no memory for their coefficients.
fn both_ends_and_time(n: usize) -> Result<usize, Halt>
    ensures { IsHaltedByMemory result (done (n + n + 1)) (λ vars. vars) }
{
    match n.checked_mul(2) {
        Some(ends) if ends < usize::MAX => Ok(ends + 1),
        _ => Err(Halt::Memory),
    }
}
