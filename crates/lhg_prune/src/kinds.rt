// The same rows, made weak or made strict.
ghost use Rattle.std.specs.Prelude.{◌≡◌, map, IfOk};
ghost use Rattle.lhg_row.specs.Row.{relaxed};
ghost use Rattle.lhg_prune.specs.Touch.{strictly};

use lhg_num::{Frac, Halt};
use lhg_row::{Kind, Row, copy_row, relax};
use std::alloc::Global;

/// The rows made weak: they hold in the closure of the rows.
pub(crate) fn weak_rows(alloc: Global, rows: &[Row<Frac>]) -> Result<Vec<Row<Frac>>, Halt>
    ensures { IfOk result (λ v. v.items ≡ map relaxed rows.now) }
{
    let mut out = Vec::with_capacity(alloc, rows.len())?;
    for row in rows {
        let weak = relax(alloc, row)?;
        out.push(weak)?;
    }
    Ok(out)
}

/// The rows made strict: they hold where the rows have room to their bounds.
pub(crate) fn strict_rows(alloc: Global, rows: &[Row<Frac>]) -> Result<Vec<Row<Frac>>, Halt>
    ensures { IfOk result (λ v. v.items ≡ map strictly rows.now) }
{
    let mut out = Vec::with_capacity(alloc, rows.len())?;
    for row in rows {
        let strict = strict_row(alloc, row)?;
        out.push(strict)?;
    }
    Ok(out)
}

// The row made strict.
fn strict_row(alloc: Global, row: &Row<Frac>) -> Result<Row<Frac>, Halt>
    ensures { IfOk result (λ r. r ≡ strictly row.now) }
{
    let mut strict = copy_row(alloc, row)?;
    strict.kind = Kind::Strict;
    Ok(strict)
}
