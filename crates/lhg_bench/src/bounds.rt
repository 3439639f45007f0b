// Bounds on one of some variables.
ghost use Rattle.std.specs.Prelude.{◌≡◌, IfOk, length};

use lhg_num::{Frac, Halt};
use lhg_row::{Kind, Row, whole_row};
use std::alloc::Global;

// The factor for variable k, and 0 for each other.
fn coefs(alloc: Global, vars: usize, k: usize, factor: i64) -> Result<Vec<i64>, Halt>
    ensures { IfOk result (λ v. length v.items ≡ vars) }
{
    let mut out = Vec::with_capacity(alloc, vars)?;
    for i in 0..vars {
        out.push(if i == k { factor } else { 0 })?;
    }
    Ok(out)
}

/// The factor times variable k is at most the bound, or below it where the kind is strict.
pub fn side(
    alloc: Global,
    vars: usize,
    k: usize,
    factor: i64,
    kind: Kind,
    bound: i64,
) -> Result<Row<Frac>, Halt>
    ensures { IfOk result (λ r. length r.coefs ≡ vars) }
{
    let coefs = coefs(alloc, vars, k, factor)?;
    whole_row(alloc, &coefs, kind, bound)
}
