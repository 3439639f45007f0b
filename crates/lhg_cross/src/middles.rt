// Rows that ask of the middle of two points.
ghost use Rattle.lhg_num.specs.Marked.{each};
ghost use Rattle.lhg_num.specs.Halting.{IsHaltedByWide, IsWideBy};
ghost use Rattle.lhg_motion.specs.CrossCalculus as calculus;

use crate::assembling::room;
use lhg_num::{Halt, Scalar, Wide};
use lhg_row::Row;
use std::alloc::Global;

/// The rows at the middle of two points, times 2, over the one point, the other, and a time.
pub(crate) fn middle_rows<N: Scalar>(alloc: Global, rows: &[Row<N>]) -> Result<Vec<Row<N>>, Halt>
    ensures { IsHaltedByWide result (each (calculus.at_middle N.arithmetic) rows.now) (λ v. v.items) }
{
    let mut out = Vec::with_capacity(alloc, rows.len())?;
    for row in rows {
        let middle = middle_row(alloc, row)?;
        out.push(middle)?;
    }
    Ok(out)
}

// The row at the middle of two points, times 2.
fn middle_row<N: Scalar>(alloc: Global, row: &Row<N>) -> Result<Row<N>, Halt>
    ensures { IsHaltedByWide result (calculus.at_middle N.arithmetic row.now) (λ r. r) }
{
    let bound = twice(&row.bound)?;
    let mut coefs = Vec::with_capacity(alloc, room(row.coefs.len()))?;
    coefs.extend_from_slice(&row.coefs)?;
    coefs.extend_from_slice(&row.coefs)?;
    coefs.push(N::zero())?;
    Ok(Row {
        coefs,
        kind: row.kind,
        bound,
    })
}

// 2 * x
fn twice<N: Scalar>(x: &N) -> Result<N, Wide>
    ensures { IsWideBy result (calculus.twice N.arithmetic (N.meaning x.now)) N.meaning }
{
    let one = N::one();
    let two = one.add(&one)?;
    two.mul(x)
}
