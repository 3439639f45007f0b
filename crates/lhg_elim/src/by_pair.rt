// The combinations of the other rows with two rows that are an equation.
ghost use Rattle.std.specs.Prelude.{◌≡◌, ◌<◌, ◌∷◌, [], length};
ghost use Rattle.lhg_num.specs.Marked.{valued};
ghost use Rattle.lhg_num.specs.Halting.{IsHaltedByWide};
ghost use Rattle.lhg_row.specs.Column.{drop_column};
ghost use Rattle.lhg_row.specs.Width.{HasVariable, AllWide};
ghost use Rattle.lhg_row.specs.Combine as combine;
ghost use Rattle.lhg_row.specs.Eliminate as calculus;
ghost use Rattle.lhg_elim.specs.Pushed.{pushed};

use crate::narrowing::combined;
use crate::sides::same_side;
use lhg_num::{Halt, Scalar};
use lhg_row::{Row, is_level};
use std::alloc::Global;

/// Puts the combinations of each row over variable k, beside those at places i and j, with the one of these two that bounds k
/// from the other side at the end, over the variables other than k.
pub(crate) fn push_beside<N: Scalar>(
    alloc: Global,
    out: &mut Vec<Row<N>>,
    rows: &[Row<N>],
    i: usize,
    j: usize,
    k: usize,
) -> Result<(), Halt>
    requires wide { HasVariable k rows.now }
    requires in_order { i < j }
    requires in_list { j < length rows.now }
    ensures { IsHaltedByWide result (pushed k out.old.items (calculus.with_pair N.arithmetic k (calculus.row_at rows.now i) (calculus.row_at rows.now j) (calculus.beside rows.now i j))) (λ _. out.new.items) }
{
    let one = &rows[i];
    let other = &rows[j];
    push_partners(alloc, out, &rows[..i], one, other, k)?;
    push_partners(alloc, out, &rows[i + 1..j], one, other, k)?;
    push_partners(alloc, out, &rows[j + 1..], one, other, k)?;
    Ok(())
}

// Puts the combinations of each row over variable k with the one or the other at the end.
fn push_partners<N: Scalar>(
    alloc: Global,
    out: &mut Vec<Row<N>>,
    rows: &[Row<N>],
    one: &Row<N>,
    other: &Row<N>,
    k: usize,
) -> Result<(), Halt>
    requires there { k < length one.now.coefs }
    requires same { length one.now.coefs ≡ length other.now.coefs }
    requires wide { AllWide (length one.now.coefs) rows.now }
    ensures { IsHaltedByWide result (pushed k out.old.items (calculus.with_pair N.arithmetic k one.now other.now rows.now)) (λ _. out.new.items) }
{
    for row in rows {
        push_partner(alloc, out, row, one, other, k)?;
    }
    Ok(())
}

// Puts the combination of the row with the one or the other at the end, where it is over variable k.
fn push_partner<N: Scalar>(
    alloc: Global,
    out: &mut Vec<Row<N>>,
    row: &Row<N>,
    one: &Row<N>,
    other: &Row<N>,
    k: usize,
) -> Result<(), Halt>
    requires there { k < length row.now.coefs }
    requires first { length row.now.coefs ≡ length one.now.coefs }
    requires second { length row.now.coefs ≡ length other.now.coefs }
    ensures { IsHaltedByWide result (pushed k out.old.items (calculus.with_pair N.arithmetic k one.now other.now (row.now ∷ []))) (λ _. out.new.items) }
{
    if !is_level(row, k) {
        let both = with_partner(alloc, row, one, other, k)?;
        out.push(both)?;
    }
    Ok(())
}

// The combination of the row with the one of two rows that bounds variable k from the other side, over the other variables.
fn with_partner<N: Scalar>(
    alloc: Global,
    row: &Row<N>,
    one: &Row<N>,
    other: &Row<N>,
    k: usize,
) -> Result<Row<N>, Halt>
    requires there { k < length row.now.coefs }
    requires first { length row.now.coefs ≡ length one.now.coefs }
    requires second { length row.now.coefs ≡ length other.now.coefs }
    ensures { IsHaltedByWide result (valued (drop_column k) (combine.comb N.arithmetic row.now (calculus.partner k one.now other.now row.now) k)) (λ r. r) }
{
    if same_side(row, one, k) {
        return combined(alloc, row, other, k);
    }
    combined(alloc, row, one, k)
}
