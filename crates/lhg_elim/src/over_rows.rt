// Elimination of one variable, and of all later ones, over the number type of the rows.
ghost use Rattle.std.specs.Prelude.{◌≡◌, ◌<◌, ◌≤◌, ◌+◌, ◌-◌, IfOk};
ghost use Rattle.lhg_num.specs.Marked.{and_then};
ghost use Rattle.lhg_num.specs.Halting.{IsHaltedByRows};
ghost use Rattle.lhg_row.specs.HasValue.{IsElimination};
ghost use Rattle.lhg_row.specs.Width.{AllWide, HasVariable};
ghost use Rattle.lhg_row.specs.Trim.{counted};
ghost use Rattle.lhg_row.specs.Eliminate as calculus;

use crate::by_pair::push_beside;
use crate::by_sides::push_sides;
use crate::leveling::levels;
use crate::pairing::pair;
use lhg_num::{Halt, Scalar};
use lhg_row::{Row, System, trim};
use std::alloc::Global;

/// The list over the variables other than k.
pub(crate) fn eliminate_rows<N: Scalar>(
    alloc: Global,
    vars: usize,
    rows: &[Row<N>],
    k: usize,
) -> Result<System<N>, Halt>
    requires there { k < vars }
    requires wide { AllWide vars rows.now }
    ensures list { IsHaltedByRows result (calculus.eliminate N.arithmetic k rows.now) (λ s. s.lines) }
    ensures width { IfOk result (λ s. s.width + 1 ≡ vars) }
    ensures points { IfOk result (λ s. IsElimination vars k rows.now s.lines) }
{
    let left = without(alloc, rows, k)?;
    trim(alloc, vars - 1, left)
}

/// The list over the first `keep` variables: the later ones are eliminated, the last first.
pub fn eliminate_later<N: Scalar>(
    alloc: Global,
    vars: usize,
    rows: Vec<Row<N>>,
    keep: usize,
) -> Result<Vec<Row<N>>, Halt>
    requires fits { keep ≤ vars }
    requires wide { AllWide vars rows.items }
    ensures { IsHaltedByRows result (calculus.eliminate_last N.arithmetic keep (vars - keep) rows.items) (λ v. v.items) }
{
    let mut left = rows;
    let mut n = vars;
    'later: while n > keep {
        let fewer = eliminate_rows(alloc, n, &left, n - 1)?;
        left = fewer.into_rows();
        n -= 1;
    }
    Ok(left)
}

// The rows that do not speak of variable k and the combinations, over the other variables.
fn without<N: Scalar>(alloc: Global, rows: &[Row<N>], k: usize) -> Result<Vec<Row<N>>, Halt>
    requires { HasVariable k rows.now }
    ensures { IsHaltedByRows result (and_then (and_then (calculus.pair_at N.arithmetic k 0 rows.now) (calculus.without N.arithmetic k rows.now)) counted) (λ v. v.items) }
{
    let mut out = levels(alloc, rows, k)?;
    match pair(rows, k)? {
        Some((i, j)) => push_beside(alloc, &mut out, rows, i, j, k)?,
        None => push_sides(alloc, &mut out, rows, k)?,
    }
    Ok(out)
}
