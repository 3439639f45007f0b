// Rows of wanted directions.
ghost use Rattle.std.specs.Prelude.{◌≡◌, ◌++◌, true, length, filter, IfOk};
ghost use Rattle.lhg_math.specs.Tests.{AllOf};
ghost use Rattle.lhg_row.specs.Width.{AllWide};
ghost use Rattle.lhg_prune.specs.Directions as plain;

use lhg_num::{Halt, Scalar, Wide};
use lhg_row::scaling::lead_size;
use lhg_row::{Row, is_constant, same_direction};

/// Whether the row is constant, or has the direction of some wanted row.
pub(crate) fn is_wanted<N: Scalar>(row: &Row<N>, wanted: &[Row<N>]) -> Result<bool, Wide>
    requires { AllWide (length row.now.coefs) wanted.now }
    ensures { IfOk result (λ b. b ≡ plain.is_wanted N.arithmetic wanted.now row.now) }
{
    if is_constant(row) {
        return Ok(true);
    }
    let size = lead_size(row);
    for other in wanted {
        let same = same_direction(row, &size, other)?;
        if same {
            return Ok(true);
        }
    }
    Ok(false)
}

/// Whether each of the rows, which are over `vars` variables, is wanted.
pub(crate) fn are_wanted<N: Scalar>(
    vars: usize,
    rows: &[Row<N>],
    wanted: &[Row<N>],
) -> Result<bool, Halt>
    requires rows { AllWide vars rows.now }
    requires wanted { AllWide vars wanted.now }
    ensures { IfOk result (λ b. b ≡ true → AllOf (λ r. plain.is_wanted N.arithmetic wanted.now r ≡ true) rows.now) }
{
    let _ = vars;
    for row in rows {
        let known = is_wanted(row, wanted)?;
        if !known {
            return Ok(false);
        }
    }
    Ok(true)
}

/// Puts those of the rows at the end, which are over `vars` variables, that are not wanted yet.
pub(crate) fn push_unwanted<N: Scalar>(
    out: &mut Vec<Row<N>>,
    vars: usize,
    rows: Vec<Row<N>>,
) -> Result<(), Halt>
    requires old { AllWide vars out.old.items }
    requires rows { AllWide vars rows.items }
    ensures { IfOk result (λ _. AllWide vars out.new.items) }
{
    let _ = vars;
    for row in rows {
        let known = is_wanted(&row, out)?;
        if !known {
            out.push(row)?;
        }
    }
    Ok(())
}

/// Puts the wanted ones of the rows, which are over `vars` variables, at the end.
pub(crate) fn push_wanted<N: Scalar>(
    out: &mut Vec<Row<N>>,
    vars: usize,
    rows: Vec<Row<N>>,
    wanted: &[Row<N>],
) -> Result<(), Halt>
    requires rows { AllWide vars rows.items }
    requires wanted { AllWide vars wanted.now }
    ensures { IfOk result (λ _. out.new.items ≡ out.old.items ++ filter (plain.is_wanted N.arithmetic wanted.now) rows.items) }
{
    for row in rows {
        let known = is_wanted(&row, wanted)?;
        if known {
            out.push(row)?;
        }
    }
    Ok(())
}
