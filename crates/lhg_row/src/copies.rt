// Copies of rows.
ghost use Rattle.std.specs.Prelude.{◌≡◌, ◌++◌, OnErr};
ghost use Rattle.lhg_num.specs.Marked.{done};
ghost use Rattle.lhg_num.specs.Halting.{IsHaltedByMemory};

use crate::rows::Row;
use lhg_num::{Halt, Scalar};
use std::alloc::Global;

/// A copy of the row. It halts for `Memory` alone.
pub fn copy_row<N: Scalar>(alloc: Global, row: &Row<N>) -> Result<Row<N>, Halt>
    ensures { IsHaltedByMemory result (done row.now) (λ r. r) }
{
    Ok(Row {
        coefs: Vec::from_slice(alloc, &row.coefs)?,
        kind: row.kind,
        bound: row.bound,
    })
}

/// A copy of the rows. It halts for `Memory` alone.
pub fn copy_rows<N: Scalar>(alloc: Global, rows: &[Row<N>]) -> Result<Vec<Row<N>>, Halt>
    ensures { IsHaltedByMemory result (done rows.now) (λ v. v.items) }
{
    let mut out = Vec::with_capacity(alloc, rows.len())?;
    for row in rows {
        let copy = copy_row(alloc, row)?;
        out.push(copy)?;
    }
    Ok(out)
}

/// Puts copies of the rows at the end of the list. It halts for `Memory` alone, and then leaves the list as it was.
pub fn append_rows<N: Scalar>(
    alloc: Global,
    out: &mut Vec<Row<N>>,
    rows: &[Row<N>],
) -> Result<(), Halt>
    ensures list { IsHaltedByMemory result (done (out.old.items ++ rows.now)) (λ _. out.new.items) }
    ensures err { OnErr result (out.new.items ≡ out.old.items) }
{
    let mut copies = copy_rows(alloc, rows)?;
    out.append(&mut copies)?;
    Ok(())
}
