// The rows that do not speak of a variable.
ghost use Rattle.std.specs.Prelude.{◌<◌, ◌++◌, ◌∷◌, [], length, map, filter};
ghost use Rattle.lhg_num.specs.Marked.{done};
ghost use Rattle.lhg_num.specs.Halting.{IsHaltedByMemory};
ghost use Rattle.lhg_row.specs.Column.{level_at, drop_column};
ghost use Rattle.lhg_row.specs.Width.{HasVariable};

use crate::narrowing::narrowed;
use lhg_num::{Halt, Scalar};
use lhg_row::{Row, copy_row, is_level};
use std::alloc::Global;

/// The rows that do not speak of variable k, over the others.
pub fn levels<N: Scalar>(alloc: Global, rows: &[Row<N>], k: usize) -> Result<Vec<Row<N>>, Halt>
    requires { HasVariable k rows.now }
    ensures { IsHaltedByMemory result (done (map (drop_column k) (filter (level_at k) rows.now))) (λ v. v.items) }
{
    let mut out = Vec::new(alloc);
    for row in rows {
        push_level(alloc, &mut out, row, k)?;
    }
    Ok(out)
}

// Puts the row over the other variables at the end, where it does not speak of variable k.
fn push_level<N: Scalar>(
    alloc: Global,
    out: &mut Vec<Row<N>>,
    row: &Row<N>,
    k: usize,
) -> Result<(), Halt>
    requires { k < length row.now.coefs }
    ensures { IsHaltedByMemory result (done (out.old.items ++ map (drop_column k) (filter (level_at k) (row.now ∷ [])))) (λ _. out.new.items) }
{
    if is_level(row, k) {
        let copy = copy_row(alloc, row)?;
        out.push(narrowed(copy, k))?;
    }
    Ok(())
}
