// Rows made weak, over more variables than their own.
ghost use Rattle.std.specs.Prelude.{◌++◌, map};
ghost use Rattle.lhg_num.specs.Marked.{done};
ghost use Rattle.lhg_num.specs.Halting.{IsHaltedByMemory};
ghost use Rattle.lhg_row.specs.Row.{relaxed};
ghost use Rattle.lhg_row.specs.Widened.{widened};

use lhg_num::{Halt, Scalar};
use lhg_row::{Kind, Row, widen};
use std::alloc::Global;

/// Puts the rows, made weak and with so many variables before their own and so many after them, at the end of the list.
pub(crate) fn append_relaxed<N: Scalar>(
    alloc: Global,
    out: &mut Vec<Row<N>>,
    rows: &[Row<N>],
    before: usize,
    after: usize,
) -> Result<(), Halt>
    ensures { IsHaltedByMemory result (done (out.old.items ++ map (λ r. widened before after (relaxed r)) rows.now)) (λ _. out.new.items) }
{
    for row in rows {
        let weak = widen_relaxed(alloc, row, before, after)?;
        out.push(weak)?;
    }
    Ok(())
}

// The row, made weak and over more variables.
fn widen_relaxed<N: Scalar>(
    alloc: Global,
    row: &Row<N>,
    before: usize,
    after: usize,
) -> Result<Row<N>, Halt>
    ensures { IsHaltedByMemory result (done (widened before after (relaxed row.now))) (λ r. r) }
{
    let mut wide = widen(alloc, row, before, after)?;
    wide.kind = Kind::Weak;
    Ok(wide)
}
