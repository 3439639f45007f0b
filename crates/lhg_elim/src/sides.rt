// Whether two rows say the same of one variable.
ghost use Rattle.std.specs.Prelude.{◌≡◌, ◌<◌, length};
ghost use Rattle.lhg_row.specs.Eliminate as calculus;

use lhg_num::Scalar;
use lhg_row::{Row, is_upper};

/// Whether two rows bound variable k from one side.
pub(crate) fn same_side<N: Scalar>(r: &Row<N>, s: &Row<N>, k: usize) -> bool
    requires first { k < length r.now.coefs }
    requires second { k < length s.now.coefs }
    ensures { result ≡ calculus.same_side k r.now s.now }
{
    is_upper(r, k) == is_upper(s, k)
}
