// The rows of `still` and `keep`, two for each variable.
ghost use Rattle.std.specs.Prelude.{◌≡◌, ◌<◌, ◌+◌, ◌^◌, ◌++◌, ◌∷◌, [], replicate, IfOk};
ghost use Rattle.lhg_math.specs.Number.{neg, nought, unit};
ghost use Rattle.lhg_plant.specs.Still.{axis, axis_row, still_rows};
ghost use Rattle.lhg_read.specs.Keep.{change_row, keep_rows};

use lhg_num::{Frac, Scalar};
use lhg_row::{Kind, Row};
use std::alloc::{AllocError, Global};

fn zeros(alloc: Global, n: usize) -> Result<Vec<Frac>, AllocError>
    ensures { IfOk result (λ v. v.items ≡ replicate n nought) }
{
    vec![in alloc; Frac::zero(); n]
}

// Over n variables, the coefficient c at variable v, and 0 at all others.
fn axis(alloc: Global, n: usize, v: usize, c: Frac) -> Result<Vec<Frac>, AllocError>
    requires { v < n }
    ensures { IfOk result (λ x. x.items ≡ axis n v c) }
{
    let mut coefs = zeros(alloc, n)?;
    coefs[v] = c;
    Ok(coefs)
}

// Over n old variables and n new ones, the coefficient a at variable v, b at the new one, and 0 at all others.
fn change(alloc: Global, n: usize, v: usize, a: Frac, b: Frac) -> Result<Vec<Frac>, AllocError>
    requires below { v < n }
    requires few { n + n < 2 ^ 63 }
    ensures { IfOk result (λ x. x.items ≡ axis n v a ++ axis n v b) }
{
    let mut coefs = zeros(alloc, n + n)?;
    coefs[v] = a;
    coefs[n + v] = b;
    Ok(coefs)
}

// The row c * v <= 0.
fn axis_row(alloc: Global, n: usize, v: usize, c: Frac) -> Result<Row<Frac>, AllocError>
    requires { v < n }
    ensures { IfOk result (λ r. r ≡ axis_row n v c) }
{
    Ok(Row {
        coefs: axis(alloc, n, v, c)?,
        kind: Kind::Weak,
        bound: Frac::zero(),
    })
}

// The row a * v + b * v' <= 0.
fn change_row(alloc: Global, n: usize, v: usize, a: Frac, b: Frac) -> Result<Row<Frac>, AllocError>
    requires below { v < n }
    requires few { n + n < 2 ^ 63 }
    ensures { IfOk result (λ r. r ≡ change_row n v a b) }
{
    Ok(Row {
        coefs: change(alloc, n, v, a, b)?,
        kind: Kind::Weak,
        bound: Frac::zero(),
    })
}

fn push_still(
    alloc: Global,
    n: usize,
    v: usize,
    rows: &mut Vec<Row<Frac>>,
) -> Result<(), AllocError>
    requires { v < n }
    ensures { IfOk result (λ _. rows.new.items ≡ rows.old.items ++ (axis_row n v unit ∷ axis_row n v (neg unit) ∷ [])) }
{
    rows.push(axis_row(alloc, n, v, Frac::one())?)?;
    rows.push(axis_row(alloc, n, v, Frac::one().neg())?)?;
    Ok(())
}

fn push_keep(alloc: Global, n: usize, v: usize, rows: &mut Vec<Row<Frac>>) -> Result<(), AllocError>
    requires below { v < n }
    requires few { n + n < 2 ^ 63 }
    ensures { IfOk result (λ _. rows.new.items ≡ rows.old.items ++ (change_row n v (neg unit) unit ∷ change_row n v unit (neg unit) ∷ [])) }
{
    rows.push(change_row(alloc, n, v, Frac::one().neg(), Frac::one())?)?;
    rows.push(change_row(alloc, n, v, Frac::one(), Frac::one().neg())?)?;
    Ok(())
}

/// The rows that let none of n variables move.
pub fn still_rows(alloc: Global, n: usize) -> Result<Vec<Row<Frac>>, AllocError>
    ensures { IfOk result (λ v. v.items ≡ still_rows n) }
{
    let mut rows = Vec::new(alloc);
    for v in 0..n {
        push_still(alloc, n, v, &mut rows)?;
    }
    Ok(rows)
}

/// Appends the rows that leave each of n variables as it is.
pub(crate) fn push_keep_rows(
    alloc: Global,
    n: usize,
    rows: &mut Vec<Row<Frac>>,
) -> Result<(), AllocError>
    requires { n + n < 2 ^ 63 }
    ensures { IfOk result (λ _. rows.new.items ≡ rows.old.items ++ keep_rows n) }
{
    for v in 0..n {
        push_keep(alloc, n, v, rows)?;
    }
    Ok(())
}
