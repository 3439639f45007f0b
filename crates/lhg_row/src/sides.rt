// On which side a row bounds a variable.
ghost use Rattle.std.specs.Prelude.{◌≡◌, ◌<◌, length};
ghost use Rattle.lhg_math.specs.Number.{sign_of};
ghost use Rattle.lhg_row.specs.Column as column;

use crate::rows::Row;
use lhg_num::Scalar;
use std::cmp::Ordering;

/// Whether the row says nothing of variable k.
pub fn is_level<N: Scalar>(row: &Row<N>, k: usize) -> bool
    requires { k < length row.now.coefs }
    ensures { result ≡ column.level_at k row.now }
{
    row.coefs[k].is_zero()
}

/// Whether the row bounds variable k from above.
pub fn is_upper<N: Scalar>(row: &Row<N>, k: usize) -> bool
    requires { k < length row.now.coefs }
    ensures { result ≡ column.upper_at k row.now }
{
    sign_at(row, k).is_gt()
}

/// Whether the row bounds variable k from below.
pub fn is_lower<N: Scalar>(row: &Row<N>, k: usize) -> bool
    requires { k < length row.now.coefs }
    ensures { result ≡ column.lower_at k row.now }
{
    sign_at(row, k).is_lt()
}

// The sign of the coefficient of variable k.
fn sign_at<N: Scalar>(row: &Row<N>, k: usize) -> Ordering
    requires { k < length row.now.coefs }
    ensures { result ≡ sign_of (column.coef_at k row.now) }
{
    row.coefs[k].sign()
}
