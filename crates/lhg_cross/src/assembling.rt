// The rows of one straight flow.
ghost use Rattle.std.specs.Prelude.{◌<◌, ◌+◌};
ghost use Rattle.lhg_num.specs.Halting.{IsHaltedByWide};
ghost use Rattle.lhg_motion.specs.CrossCalculus as calculus;

use crate::middles::middle_rows;
use crate::relaxing::append_relaxed;
use crate::speeds::{flow_rows, forward};
use lhg_num::{Halt, Scalar};
use lhg_row::{Row, append_widened};
use std::alloc::Global;

/// The rows, over x, y and t, of a straight flow from x to y in the time t: `from` at x, `into` at y, the relaxed rows of `through` at x and at y, `through` at the
/// middle, the flow rows at (y - x) / t, and -t < 0. All pieces and the flow rows are over n variables.
/// It halts for `Wide` only where the type refuses an operation of the calculus of this call, never for `Rows` and `Pieces`, and for `Memory`.
pub fn cross_rows<N: Scalar>(
    alloc: Global,
    n: usize,
    from: &[Row<N>],
    through: &[Row<N>],
    into: &[Row<N>],
    flow: &[Row<N>],
) -> Result<Vec<Row<N>>, Halt>
    requires { n + n < usize.MAX }
    ensures { IsHaltedByWide result (calculus.cross_rows N.arithmetic n from.now through.now into.now flow.now) (λ v. v.items) }
{
    let mut rows = Vec::new(alloc);
    append_widened(alloc, &mut rows, from, 0, n + 1)?;
    append_widened(alloc, &mut rows, into, n, 1)?;
    append_relaxed(alloc, &mut rows, through, 0, n + 1)?;
    append_relaxed(alloc, &mut rows, through, n, 1)?;
    rows.append(&mut middle_rows(alloc, through)?)?;
    rows.append(&mut flow_rows(alloc, flow)?)?;
    rows.push(forward(alloc, n)?)?;
    Ok(rows)
}

// How many coefficients a row over two points and a time has, where the points have so many coordinates.
pub(crate) fn room(n: usize) -> usize {
    n.saturating_mul(2).saturating_add(1)
}
