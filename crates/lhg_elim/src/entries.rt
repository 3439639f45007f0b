// The entries of a row: its coefficients and then its bound.
ghost use Rattle.std.specs.Prelude.{◌≡◌, map, IfOk};
ghost use Rattle.lhg_row.specs.Kinds as plain;
ghost use Rattle.lhg_row.specs.Trim.{entries_of, row_of};

use lhg_num::{Halt, Scalar};
use lhg_row::{Kind, Row};
use std::alloc::Global;

/// The entries of the row.
pub(crate) fn row_entries<N: Scalar>(alloc: Global, row: &Row<N>) -> Result<Vec<N>, Halt>
    ensures { IfOk result (λ v. map N.meaning v.items ≡ entries_of row.now) }
{
    let mut out = Vec::from_slice(alloc, &row.coefs)?;
    out.push(row.bound)?;
    Ok(out)
}

/// The row of these entries, the last one being its bound.
pub(crate) fn split<N: Scalar>(mut entries: Vec<N>, kind: Kind) -> Row<N>
    ensures { result ≡ row_of (plain.is_strict kind) (map N.meaning entries.items) }
{
    let bound = match entries.pop() {
        Some(last) => last,
        None => N::zero(),
    };
    Row {
        coefs: entries,
        kind,
        bound,
    }
}
