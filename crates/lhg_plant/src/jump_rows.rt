// Do jump rows hold at the old and the new values of the variables?
ghost use Rattle.std.specs.Prelude.{◌≡◌, ◌+◌, ◌++◌, length, map};
ghost use Rattle.lhg_math.specs.Number.{nought};
ghost use Rattle.lhg_num.specs.Halting.{IsWideBy};
ghost use Rattle.lhg_row.specs.Truths.{piece_truth};
ghost use Rattle.lhg_row.specs.Values.{truth, marked_value};
ghost use Rattle.lhg_row.specs.Width.{AllWide};

use lhg_num::{Scalar, Wide};
use lhg_row::{Point, Row, fits, value_from};

// The value of the coefficients at the old values followed by the new ones.
fn value_across<N: Scalar>(coefs: &[N], old: &[N], new: &[N]) -> Result<N, Wide>
    requires { length coefs.now ≡ length old.now + length new.now }
    ensures { IsWideBy result (marked_value N.arithmetic nought (map N.meaning coefs.now) (map N.meaning old.now ++ map N.meaning new.now)) N.meaning }
{
    let (front, back) = coefs.split_at(old.len());
    let part = value_from(N::zero(), front, old)?;
    value_from(part, back, new)
}

// Whether the row holds at the old values followed by the new ones.
fn holds_across<N: Scalar>(row: &Row<N>, old: &Point<N>, new: &Point<N>) -> Result<bool, Wide>
    requires { length row.now.coefs ≡ length old.now + length new.now }
    ensures { IsWideBy result (truth N.arithmetic row.now (old.now ++ new.now)) (λ b. b) }
{
    let sum = value_across(&row.coefs, &old.at, &new.at)?;
    let order = sum.cmp(&row.bound)?;
    Ok(fits(row.kind, order))
}

/// Whether all rows hold at the old values followed by the new ones.
pub(crate) fn all_hold_across<N: Scalar>(
    rows: &[Row<N>],
    old: &Point<N>,
    new: &Point<N>,
) -> Result<bool, Wide>
    requires { AllWide (length old.now + length new.now) rows.now }
    ensures { IsWideBy result (piece_truth N.arithmetic rows.now (old.now ++ new.now)) (λ b. b) }
{
    for row in rows {
        let here = holds_across(row, old, new)?;
        if !here {
            return Ok(false);
        }
    }
    Ok(true)
}
