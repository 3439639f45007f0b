// Rows as rows of fractions, over which a bound can be lowered a little.
ghost use Rattle.std.specs.Prelude.{◌≡◌, map, IfOk, IfSome};
ghost use Rattle.lhg_simplex.specs.Hint.{HaltsForMemory};

use lhg_num::{Frac, Halt, Scalar};
use lhg_row::Row;
use std::alloc::Global;

/// The rows as rows of fractions, where each entry has one. It halts for `Memory` alone.
pub(crate) fn fractions<N: Scalar>(
    alloc: Global,
    rows: &[Row<N>],
) -> Result<Option<Vec<Row<Frac>>>, Halt>
    ensures memory { HaltsForMemory result }
    ensures same { IfOk result (λ o. IfSome o (λ v. v.items ≡ rows.now)) }
{
    let mut out = Vec::with_capacity(alloc, rows.len())?;
    for row in rows {
        match fraction_row(alloc, row)? {
            Some(next) => out.push(next)?,
            None => return Ok(None),
        }
    }
    Ok(Some(out))
}

/// The row as a row of fractions, where each entry has one. It halts for `Memory` alone.
pub(crate) fn fraction_row<N: Scalar>(
    alloc: Global,
    row: &Row<N>,
) -> Result<Option<Row<Frac>>, Halt>
    ensures memory { HaltsForMemory result }
    ensures same { IfOk result (λ o. IfSome o (λ r. r ≡ row.now)) }
{
    let Some(bound) = row.bound.to_frac() else {
        return Ok(None);
    };
    match entries(alloc, &row.coefs)? {
        Some(coefs) => Ok(Some(Row {
            coefs,
            kind: row.kind,
            bound,
        })),
        None => Ok(None),
    }
}

// The numbers as fractions, where each has one.
fn entries<N: Scalar>(alloc: Global, xs: &[N]) -> Result<Option<Vec<Frac>>, Halt>
    ensures memory { HaltsForMemory result }
    ensures same { IfOk result (λ o. IfSome o (λ v. v.items ≡ map N.meaning xs.now)) }
{
    let mut out = Vec::with_capacity(alloc, xs.len())?;
    for x in xs {
        match x.to_frac() {
            Some(next) => out.push(next)?,
            None => return Ok(None),
        }
    }
    Ok(Some(out))
}
