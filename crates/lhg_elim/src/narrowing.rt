// Rows over the other variables.
ghost use Rattle.std.specs.Prelude.{◌≡◌, ◌<◌, length};
ghost use Rattle.lhg_num.specs.Marked.{valued};
ghost use Rattle.lhg_num.specs.Halting.{IsHaltedByWide};
ghost use Rattle.lhg_row.specs.Column.{drop_column};
ghost use Rattle.lhg_row.specs.Combine as calculus;

use crate::combining::comb;
use lhg_num::{Halt, Scalar};
use lhg_row::Row;
use std::alloc::Global;

/// The combination of two rows over the variables other than k.
pub(crate) fn combined<N: Scalar>(
    alloc: Global,
    r: &Row<N>,
    s: &Row<N>,
    k: usize,
) -> Result<Row<N>, Halt>
    requires same { length r.now.coefs ≡ length s.now.coefs }
    requires there { k < length r.now.coefs }
    ensures { IsHaltedByWide result (valued (drop_column k) (calculus.comb N.arithmetic r.now s.now k)) (λ row. row) }
{
    let row = comb(alloc, r, s, k)?;
    Ok(narrowed(row, k))
}

/// The row over the variables other than k.
pub(crate) fn narrowed<N: Scalar>(row: Row<N>, k: usize) -> Row<N>
    requires { k < length row.coefs }
    ensures { result ≡ drop_column k row }
{
    let Row {
        mut coefs,
        kind,
        bound,
    } = row;
    coefs.remove(k);
    Row { coefs, kind, bound }
}
