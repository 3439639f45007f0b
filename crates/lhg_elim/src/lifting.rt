// Rows of any number type as rows of whole numbers.
ghost use Rattle.std.specs.Prelude.{◌≡◌, map, IfOk};
ghost use Rattle.lhg_elim.specs.Alike.{IsAlike, AllAlike};

use crate::entries::{row_entries, split};
use lhg_num::{Frac, Halt, Scalar, Wide};
use lhg_row::Row;
use lhg_whole::{Whole, lift};
use std::alloc::Global;

/// The rows, each times the positive number that makes its entries whole and coprime. It halts for `Wide` also where an entry has no fraction.
pub fn lifted_rows<N: Scalar>(alloc: Global, rows: &[Row<N>]) -> Result<Vec<Row<Whole>>, Halt>
    ensures { IfOk result (λ v. AllAlike N.arithmetic rows.now v.items) }
{
    let mut out = Vec::with_capacity(alloc, rows.len())?;
    for row in rows {
        let whole = lifted(alloc, row)?;
        out.push(whole)?;
    }
    Ok(out)
}

// The row times the positive number that makes its entries whole and coprime.
fn lifted<N: Scalar>(alloc: Global, row: &Row<N>) -> Result<Row<Whole>, Halt>
    ensures { IfOk result (λ r. IsAlike N.arithmetic row.now r) }
{
    let entries = row_entries(alloc, row)?;
    let values = fractions(alloc, &entries)?;
    let wholes = lift(alloc, &values)?;
    Ok(split(wholes, row.kind))
}

// The numbers as fractions.
fn fractions<N: Scalar>(alloc: Global, numbers: &[N]) -> Result<Vec<Frac>, Halt>
    ensures { IfOk result (λ v. v.items ≡ map N.meaning numbers.now) }
{
    let mut out = Vec::with_capacity(alloc, numbers.len())?;
    for number in numbers {
        let value = fraction(number)?;
        out.push(value)?;
    }
    Ok(out)
}

// The number as a fraction. It answers `Wide` where it has none.
fn fraction<N: Scalar>(number: &N) -> Result<Frac, Wide>
    ensures { IfOk result (λ q. q ≡ N.meaning number.now) }
{
    match number.to_frac() {
        Some(value) => Ok(value),
        None => Err(Wide),
    }
}
