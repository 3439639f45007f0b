// Rows over more variables.
ghost use Rattle.std.specs.Prelude.{◌≡◌, ◌++◌, map, replicate, OnOk};
ghost use Rattle.lhg_math.specs.Number.{nought};
ghost use Rattle.lhg_num.specs.Marked.{done};
ghost use Rattle.lhg_num.specs.Halting.{IsHaltedByMemory};
ghost use Rattle.lhg_row.specs.Widened.{widened};

use crate::rows::Row;
use lhg_num::{Halt, Scalar};
use std::alloc::{AllocError, Global};

/// The row over more variables, so many before its own and so many after them, whose coefficients are 0. It halts for
/// `Memory` alone.
pub fn widen<N: Scalar>(
    alloc: Global,
    row: &Row<N>,
    before: usize,
    after: usize,
) -> Result<Row<N>, Halt>
    ensures { IsHaltedByMemory result (done (widened before after row.now)) (λ r. r) }
{
    let many = row.coefs.len().saturating_add(before);
    let mut coefs = Vec::with_capacity(alloc, many.saturating_add(after))?;
    push_noughts(&mut coefs, before)?;
    coefs.extend_from_slice(&row.coefs)?;
    push_noughts(&mut coefs, after)?;
    Ok(Row {
        coefs,
        kind: row.kind,
        bound: row.bound,
    })
}

/// Puts the rows, so widened, at the end of the list. It halts for `Memory` alone.
pub fn append_widened<N: Scalar>(
    alloc: Global,
    out: &mut Vec<Row<N>>,
    rows: &[Row<N>],
    before: usize,
    after: usize,
) -> Result<(), Halt>
    ensures { IsHaltedByMemory result (done (out.old.items ++ map (widened before after) rows.now)) (λ _. out.new.items) }
{
    for row in rows {
        let wide = widen(alloc, row, before, after)?;
        out.push(wide)?;
    }
    Ok(())
}

// Puts so many zeros at the end of the list.
fn push_noughts<N: Scalar>(out: &mut Vec<N>, count: usize) -> Result<(), AllocError>
    ensures { OnOk result (map N.meaning out.new.items ≡ map N.meaning out.old.items ++ replicate count nought) }
{
    for i in 0..count {
        out.push(N::zero())?;
    }
    Ok(())
}
