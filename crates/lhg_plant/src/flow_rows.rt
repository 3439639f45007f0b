// Do flow rows let a state move from one point to another in a time?
ghost use Rattle.std.specs.Prelude.{◌≡◌, length, map};
ghost use Rattle.lhg_math.specs.Number.{nought};
ghost use Rattle.lhg_num.specs.Halting.{IsWideBy};
ghost use Rattle.lhg_row.specs.Width.{AllWide};
ghost use Rattle.lhg_plant.specs.LegalTruths as plain;

use lhg_num::{Scalar, Wide};
use lhg_row::{Point, Row, fits, plus_product};

// sum + c * (y - x)
fn plus_change<N: Scalar>(sum: &N, c: &N, x: &N, y: &N) -> Result<N, Wide>
    ensures { IsWideBy result (plain.plus_change N.arithmetic (N.meaning sum.now) (N.meaning c.now) (N.meaning x.now) (N.meaning y.now)) N.meaning }
{
    let difference = y.sub(x)?;
    plus_product(sum, c, &difference)
}

// The sum of the products of the coefficients and the differences of the ends, from the first to the last.
fn change<N: Scalar>(coefs: &[N], from: &[N], to: &[N]) -> Result<N, Wide>
    requires start { length coefs.now ≡ length from.now }
    requires end { length coefs.now ≡ length to.now }
    ensures { IsWideBy result (plain.marked_change N.arithmetic nought (map N.meaning coefs.now) (map N.meaning from.now) (map N.meaning to.now)) N.meaning }
{
    let mut sum = N::zero();
    for i in 0..coefs.len() {
        sum = plus_change(&sum, &coefs[i], &from[i], &to[i])?;
    }
    Ok(sum)
}

// Whether the row lets a state move so.
fn row_lets<N: Scalar>(row: &Row<N>, from: &Point<N>, time: &N, to: &Point<N>) -> Result<bool, Wide>
    requires start { length row.now.coefs ≡ length from.now }
    requires end { length row.now.coefs ≡ length to.now }
    ensures { IsWideBy result (plain.flow_row_truth N.arithmetic row.now from.now (N.meaning time.now) to.now) (λ b. b) }
{
    let sum = change(&row.coefs, &from.at, &to.at)?;
    let bound = row.bound.mul(time)?;
    let order = sum.cmp(&bound)?;
    Ok(fits(row.kind, order))
}

/// Whether all rows let a state move from the one point to the other in the time.
pub(crate) fn all_let<N: Scalar>(
    rows: &[Row<N>],
    from: &Point<N>,
    time: &N,
    to: &Point<N>,
) -> Result<bool, Wide>
    requires start { AllWide (length from.now) rows.now }
    requires end { length from.now ≡ length to.now }
    ensures { IsWideBy result (plain.flow_rows_truth N.arithmetic rows.now from.now (N.meaning time.now) to.now) (λ b. b) }
{
    for row in rows {
        let here = row_lets(row, from, time, to)?;
        if !here {
            return Ok(false);
        }
    }
    Ok(true)
}
