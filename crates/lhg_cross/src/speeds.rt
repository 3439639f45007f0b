// Rows that ask of the speed between two points, and of the time.
ghost use Rattle.std.specs.Prelude.{◌<◌, ◌+◌, map};
ghost use Rattle.lhg_num.specs.Marked.{done};
ghost use Rattle.lhg_num.specs.Halting.{IsHaltedByMemory};
ghost use Rattle.lhg_motion.specs.CrossCalculus as calculus;

use crate::assembling::room;
use lhg_num::{Halt, Scalar};
use lhg_row::{Kind, Row, negate, widen};
use std::alloc::Global;

/// The flow rows at the speed between two points, times the time, over the one point, the other, and the time.
pub(crate) fn flow_rows<N: Scalar>(alloc: Global, rows: &[Row<N>]) -> Result<Vec<Row<N>>, Halt>
    ensures { IsHaltedByMemory result (done (map calculus.at_flow rows.now)) (λ v. v.items) }
{
    let mut out = Vec::with_capacity(alloc, rows.len())?;
    for row in rows {
        let speed = flow_row(alloc, row)?;
        out.push(speed)?;
    }
    Ok(out)
}

// The flow row at the speed between two points, times the time.
fn flow_row<N: Scalar>(alloc: Global, row: &Row<N>) -> Result<Row<N>, Halt>
    ensures { IsHaltedByMemory result (done (calculus.at_flow row.now)) (λ r. r) }
{
    let Row {
        coefs: mut first,
        kind: _,
        bound,
    } = negate(alloc, row)?;
    let mut coefs = Vec::with_capacity(alloc, room(row.coefs.len()))?;
    coefs.append(&mut first)?;
    coefs.extend_from_slice(&row.coefs)?;
    coefs.push(bound)?;
    Ok(Row {
        coefs,
        kind: row.kind,
        bound: N::zero(),
    })
}

/// The row -t < 0, where t comes after two points with n coordinates each.
pub(crate) fn forward<N: Scalar>(alloc: Global, n: usize) -> Result<Row<N>, Halt>
    requires { n + n < usize.MAX }
    ensures { IsHaltedByMemory result (done (calculus.forward n)) (λ r. r) }
{
    let mut coefs = Vec::with_capacity(alloc, 1)?;
    coefs.push(N::one().neg())?;
    let time = Row {
        coefs,
        kind: Kind::Strict,
        bound: N::zero(),
    };
    widen(alloc, &time, n + n, 0)
}
