// The rows that the elimination of a variable forms.
ghost use Rattle.std.specs.Prelude.{◌≡◌, ◌<◌, ◌+◌, ◌++◌, map, filter, IfOk, None};
ghost use Rattle.lhg_row.specs.Column.{drop_column};
ghost use Rattle.lhg_row.specs.Width.{AllWide};
ghost use Rattle.lhg_row.specs.Eliminate as calculus;
ghost use Rattle.lhg_prune.specs.Directions as plain;

use crate::directions::push_wanted;
use lhg_elim::{levels, push_sides, push_upper};
use lhg_num::{Halt, Scalar};
use lhg_row::Row;
use std::alloc::Global;

/// The rows without variable k and the combinations of each upper with each lower row, over the other variables. The rows are over `vars` + 1 variables.
pub(crate) fn formed<N: Scalar>(
    alloc: Global,
    vars: usize,
    rows: &[Row<N>],
    k: usize,
) -> Result<Vec<Row<N>>, Halt>
    requires there { k < vars + 1 }
    requires wide { AllWide (vars + 1) rows.now }
    ensures list { IfOk result (λ v. v.items ≡ (calculus.without N.arithmetic k rows.now None).value) }
    ensures wide { IfOk result (λ v. AllWide vars v.items) }
{
    let mut out = levels(alloc, rows, k)?;
    push_sides(alloc, &mut out, rows, k)?;
    Ok(out)
}

/// Those of the same rows that are wanted. Only the combinations of one upper row are there at a time.
pub(crate) fn wanted_rows<N: Scalar>(
    alloc: Global,
    vars: usize,
    rows: &[Row<N>],
    k: usize,
    wanted: &[Row<N>],
) -> Result<Vec<Row<N>>, Halt>
    requires there { k < vars + 1 }
    requires wide { AllWide (vars + 1) rows.now }
    requires wanted { AllWide vars wanted.now }
    ensures { IfOk result (λ v. v.items ≡ filter (plain.is_wanted N.arithmetic wanted.now) (calculus.without N.arithmetic k rows.now None).value) }
{
    let mut out = Vec::new(alloc);
    let first = levels(alloc, rows, k)?;
    push_wanted(&mut out, vars, first, wanted)?;
    push_wanted_sides(alloc, &mut out, vars, rows, k, wanted)?;
    Ok(out)
}

// Puts the wanted combinations of each upper with each lower row at the end.
fn push_wanted_sides<N: Scalar>(
    alloc: Global,
    out: &mut Vec<Row<N>>,
    vars: usize,
    rows: &[Row<N>],
    k: usize,
    wanted: &[Row<N>],
) -> Result<(), Halt>
    requires there { k < vars + 1 }
    requires wide { AllWide (vars + 1) rows.now }
    requires wanted { AllWide vars wanted.now }
    ensures { IfOk result (λ _. out.new.items ≡ out.old.items ++ filter (plain.is_wanted N.arithmetic wanted.now) (map (drop_column k) (calculus.combinations N.arithmetic k rows.now None).value)) }
{
    for row in rows {
        let mut some = Vec::new(alloc);
        push_upper(alloc, &mut some, rows, row, k)?;
        push_wanted(out, vars, some, wanted)?;
    }
    Ok(())
}
