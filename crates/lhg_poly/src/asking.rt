// Whether rows have a point, by a confirmed guess where one tells, and by elimination else.
ghost use Rattle.std.specs.Prelude.{◌≡◌, true, IfOk, IfSome};
ghost use Rattle.lhg_num.specs.Marked.{done};
ghost use Rattle.lhg_num.specs.Halting.{IsHaltedByMemory, IsHaltedByRows};
ghost use Rattle.lhg_row.specs.Width.{AllWide};
ghost use Rattle.lhg_row.specs.HasValue.{IsEmptiness};
ghost use Rattle.lhg_row.specs.Eliminate as calculus;

use lhg_elim::is_empty;
use lhg_num::{Halt, Scalar};
use lhg_row::{Row, System};
use lhg_simplex::decide;
use std::alloc::Global;

/// Whether a confirmed guess tells that the rows have no point; false tells nothing of them. It halts for `Memory` alone.
pub fn are_refuted<N: Scalar>(alloc: Global, vars: usize, rows: &[Row<N>]) -> Result<bool, Halt>
    requires { AllWide vars rows.now }
    ensures memory { IsHaltedByMemory result (done true) (λ _. true) }
    ensures points { IfOk result (λ none. none ≡ true → IsEmptiness vars rows.now true) }
{
    let known = decide(alloc, vars, rows)?;
    Ok(known.unwrap_or(false))
}

/// Whether the system has no point: what is known of it, or what elimination tells.
pub(crate) fn emptiness<N: Scalar>(
    alloc: Global,
    known: Option<bool>,
    sys: &System<N>,
) -> Result<bool, Halt>
    requires { IfSome known (λ b. b ≡ (calculus.is_empty N.arithmetic sys.now.width sys.now.lines).value) }
    ensures { IsHaltedByRows result (calculus.is_empty N.arithmetic sys.now.width sys.now.lines) (λ b. b) }
{
    match known {
        Some(empty) => Ok(empty),
        None => is_empty(alloc, sys),
    }
}
