// The piece of a list of rows: the rows are trimmed, and each that the others entail is dropped, from the last to the first.
ghost use Rattle.std.specs.Prelude.{◌≡◌, ◌<◌, length, option_map, IfOk, IfSome};
ghost use Rattle.lhg_num.specs.Halting.{IsHaltedByMemory, IsHaltedByRows};
ghost use Rattle.lhg_num.specs.Marked.{done};
ghost use Rattle.std.specs.List.{remove};
ghost use Rattle.lhg_row.specs.Width.{AllWide};
ghost use Rattle.lhg_row.specs.PieceFacts.{IsMade};
ghost use Rattle.lhg_row.specs.Eliminate.{row_at};
ghost use Rattle.lhg_row.specs.Pieces as calculus;
ghost use Rattle.lhg_simplex.specs.Verdict.{IsAnswer};

use crate::asking::emptiness;
use crate::entailing::rows_entail;
use crate::polys::Poly;
use lhg_num::{Halt, Scalar};
use lhg_row::{Row, append_rows, trim};
use lhg_simplex::{Thinning, decide};
use std::alloc::Global;

/// The piece of the rows, each over `vars` variables: their trimmed list without the rows that the others entail. It is none where they
/// have no common point.
/// It halts for `Wide` only where the type refuses an operation of the calculus of this call,
/// for `Rows` only where it has a list past `ROW_LIMIT`, and for `Memory`.
pub fn make<N: Scalar>(
    alloc: Global,
    vars: usize,
    rows: Vec<Row<N>>,
) -> Result<Option<Poly<N>>, Halt>
    requires { AllWide vars rows.items }
    ensures calculus { IsHaltedByRows result (calculus.make N.arithmetic vars rows.items) (option_map (λ p. p.lines)) }
    ensures vars { IfOk result (λ o. IfSome o (λ p. p.width ≡ vars)) }
    ensures points { IfOk result (λ o. IsMade N.arithmetic vars rows.items (option_map (λ p. p.lines) o)) }
{
    let known = decide(alloc, vars, &rows)?;
    let none = known.unwrap_or(false);
    if none {
        return Ok(None);
    }
    formed(alloc, vars, rows, known)
}

// The piece of rows of which it may be known whether they have a point.
fn formed<N: Scalar>(
    alloc: Global,
    vars: usize,
    rows: Vec<Row<N>>,
    known: Option<bool>,
) -> Result<Option<Poly<N>>, Halt>
    requires wide { AllWide vars rows.items }
    requires known { IsAnswer vars rows.items known }
    ensures calculus { IsHaltedByRows result (calculus.make N.arithmetic vars rows.items) (option_map (λ p. p.lines)) }
    ensures vars { IfOk result (λ o. IfSome o (λ p. p.width ≡ vars)) }
    ensures points { IfOk result (λ o. IsMade N.arithmetic vars rows.items (option_map (λ p. p.lines) o)) }
{
    let system = trim(alloc, vars, rows)?;
    let empty = emptiness(alloc, known, &system)?;
    if empty {
        return Ok(None);
    }
    let kept = thin(alloc, vars, system.into_rows())?;
    Ok(Some(Poly::of(vars, kept)))
}

// The rows without those that the rows still there entail, from the last to the first.
fn thin<N: Scalar>(alloc: Global, vars: usize, mut rows: Vec<Row<N>>) -> Result<Vec<Row<N>>, Halt>
    requires { AllWide vars rows.items }
    ensures { IsHaltedByRows result (calculus.thin N.arithmetic vars (length rows.items) rows.items) (λ v. v.items) }
{
    let mut thinning = Thinning::new(alloc, vars, rows.len())?;
    let mut i = rows.len();
    while i > 0 {
        i -= 1;
        rows = thin_at(alloc, vars, rows, i, &mut thinning)?;
    }
    Ok(rows)
}

// The rows without the one at place i, where the others entail it.
fn thin_at<N: Scalar>(
    alloc: Global,
    vars: usize,
    mut rows: Vec<Row<N>>,
    i: usize,
    thinning: &mut Thinning,
) -> Result<Vec<Row<N>>, Halt>
    requires wide { AllWide vars rows.items }
    requires there { i < length rows.items }
    ensures { IsHaltedByRows result (calculus.thin_at N.arithmetic vars i rows.items) (λ v. v.items) }
{
    let entailed = follows(alloc, vars, &rows, i, thinning)?;
    if entailed {
        rows.remove(i);
        thinning.leave(i);
    } else {
        thinning.keep(i)?;
    }
    Ok(rows)
}

// Whether the other rows entail the one at place i.
fn follows<N: Scalar>(
    alloc: Global,
    vars: usize,
    rows: &[Row<N>],
    i: usize,
    thinning: &mut Thinning,
) -> Result<bool, Halt>
    requires wide { AllWide vars rows.now }
    requires there { i < length rows.now }
    ensures { IsHaltedByRows result (calculus.entails N.arithmetic vars (remove rows.now i) (row_at rows.now i)) (λ b. b) }
{
    let known = thinning.entailed(alloc, vars, rows, i)?;
    match known {
        Some(entailed) => Ok(entailed),
        None => {
            let others = copy_others(alloc, rows, i)?;
            rows_entail(alloc, vars, others, &rows[i])
        }
    }
}

// Copies of the rows but the one at place i.
fn copy_others<N: Scalar>(alloc: Global, rows: &[Row<N>], i: usize) -> Result<Vec<Row<N>>, Halt>
    requires { i < length rows.now }
    ensures { IsHaltedByMemory result (done (remove rows.now i)) (λ v. v.items) }
{
    let mut out = Vec::with_capacity(alloc, rows.len())?;
    append_rows(alloc, &mut out, &rows[..i])?;
    append_rows(alloc, &mut out, &rows[i + 1..])?;
    Ok(out)
}
