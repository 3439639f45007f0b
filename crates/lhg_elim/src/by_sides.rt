// The combinations of each upper with each lower row.
ghost use Rattle.std.specs.Prelude.{◌≡◌, ◌<◌, ◌∷◌, [], length, filter, None};
ghost use Rattle.lhg_num.specs.Marked.{and_then};
ghost use Rattle.lhg_num.specs.Halting.{IsHaltedByWide, IsHaltedByRows};
ghost use Rattle.lhg_row.specs.Column.{upper_at};
ghost use Rattle.lhg_row.specs.Width.{HasVariable, AllWide};
ghost use Rattle.lhg_row.specs.Trim.{counted};
ghost use Rattle.lhg_row.specs.Eliminate as calculus;
ghost use Rattle.lhg_elim.specs.Pushed.{pushed};

use crate::narrowing::combined;
use lhg_num::{Halt, Scalar};
use lhg_row::{ROW_LIMIT, Row, is_lower, is_upper};
use std::alloc::Global;

/// Puts the combinations of each upper with each lower row at the end, over the variables other than k. Where the list is
/// past its limit after some upper row, `Rows` is the answer at once.
pub fn push_sides<N: Scalar>(
    alloc: Global,
    out: &mut Vec<Row<N>>,
    rows: &[Row<N>],
    k: usize,
) -> Result<(), Halt>
    requires { HasVariable k rows.now }
    ensures { IsHaltedByRows result (and_then (pushed k out.old.items (calculus.combinations N.arithmetic k rows.now None)) counted) (λ _. out.new.items) }
{
    for row in rows {
        push_upper(alloc, out, rows, row, k)?;
        if out.len() > ROW_LIMIT {
            return Err(Halt::Rows);
        }
    }
    Ok(())
}

/// Puts the combinations of the row with each lower row at the end, over the variables other than k, where it is an upper row.
pub fn push_upper<N: Scalar>(
    alloc: Global,
    out: &mut Vec<Row<N>>,
    rows: &[Row<N>],
    row: &Row<N>,
    k: usize,
) -> Result<(), Halt>
    requires there { k < length row.now.coefs }
    requires wide { AllWide (length row.now.coefs) rows.now }
    ensures { IsHaltedByWide result (pushed k out.old.items (calculus.each_joined (calculus.with_lowers N.arithmetic k rows.now) (filter (upper_at k) (row.now ∷ [])))) (λ _. out.new.items) }
{
    if is_upper(row, k) {
        push_lowers(alloc, out, rows, row, k)?;
    }
    Ok(())
}

// Puts the combinations of an upper row with each lower row at the end.
fn push_lowers<N: Scalar>(
    alloc: Global,
    out: &mut Vec<Row<N>>,
    rows: &[Row<N>],
    upper: &Row<N>,
    k: usize,
) -> Result<(), Halt>
    requires there { k < length upper.now.coefs }
    requires wide { AllWide (length upper.now.coefs) rows.now }
    ensures { IsHaltedByWide result (pushed k out.old.items (calculus.with_lowers N.arithmetic k rows.now upper.now)) (λ _. out.new.items) }
{
    for row in rows {
        push_lower(alloc, out, upper, row, k)?;
    }
    Ok(())
}

// Puts the combination of an upper row with the row at the end, where that is a lower row.
fn push_lower<N: Scalar>(
    alloc: Global,
    out: &mut Vec<Row<N>>,
    upper: &Row<N>,
    row: &Row<N>,
    k: usize,
) -> Result<(), Halt>
    requires same { length upper.now.coefs ≡ length row.now.coefs }
    requires there { k < length upper.now.coefs }
    ensures { IsHaltedByWide result (pushed k out.old.items (calculus.with_lowers N.arithmetic k (row.now ∷ []) upper.now)) (λ _. out.new.items) }
{
    if is_lower(row, k) {
        let both = combined(alloc, upper, row, k)?;
        out.push(both)?;
    }
    Ok(())
}
