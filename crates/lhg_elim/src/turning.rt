// Rows of whole numbers as rows of another number type.
ghost use Rattle.std.specs.Prelude.{◌≡◌, map, IfOk};
ghost use Rattle.lhg_elim.specs.Turned.{IsTurned, AllTurned};

use crate::entries::{row_entries, split};
use lhg_num::{Frac, Halt, Scalar, Wide};
use lhg_row::Row;
use lhg_whole::{Whole, lower};
use std::alloc::Global;

/// The rows over another number type, each scaled by the type's rule. It halts for `Wide` where an entry has no value of the type.
pub fn turned_rows<N: Scalar>(alloc: Global, rows: &[Row<Whole>]) -> Result<Vec<Row<N>>, Halt>
    ensures { IfOk result (λ v. AllTurned N.arithmetic rows.now v.items) }
{
    let mut out = Vec::with_capacity(alloc, rows.len())?;
    for row in rows {
        let back = turned(alloc, row)?;
        out.push(back)?;
    }
    Ok(out)
}

// The row over another number type, scaled by the type's rule.
fn turned<N: Scalar>(alloc: Global, row: &Row<Whole>) -> Result<Row<N>, Halt>
    ensures { IfOk result (λ r. IsTurned N.arithmetic row.now r) }
{
    let entries = row_entries(alloc, row)?;
    let values = lower(alloc, &entries)?;
    let plain = numbers(alloc, &values)?;
    let scaled = scaled_numbers(plain)?;
    Ok(split(scaled, row.kind))
}

// The fractions as numbers of the type.
fn numbers<N: Scalar>(alloc: Global, fractions: &[Frac]) -> Result<Vec<N>, Halt>
    ensures { IfOk result (λ v. map N.meaning v.items ≡ fractions.now) }
{
    let mut out = Vec::with_capacity(alloc, fractions.len())?;
    for fraction in fractions {
        let value = number(fraction)?;
        out.push(value)?;
    }
    Ok(out)
}

// The fraction as a number of the type. It answers `Wide` where there is none.
fn number<N: Scalar>(fraction: &Frac) -> Result<N, Wide>
    ensures { IfOk result (λ x. N.meaning x ≡ fraction.now) }
{
    match N::of_frac(fraction) {
        Some(value) => Ok(value),
        None => Err(Wide),
    }
}

// The numbers scaled by their type's rule.
fn scaled_numbers<N: Scalar>(mut numbers: Vec<N>) -> Result<Vec<N>, Halt>
    ensures { IfOk result (λ v. map N.meaning v.items ≡ N.arithmetic.canon_of (map N.meaning numbers.items)) }
{
    N::canon(&mut numbers)?;
    Ok(numbers)
}
