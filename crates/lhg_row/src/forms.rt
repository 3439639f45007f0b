// Rows made of whole numbers, and rows made of one row: its negation, the row made weak, and the row over other variables.
ghost use Rattle.std.specs.Prelude.{◌≡◌, ◌≢◌, ◌<◌, length, map, not, IfOk, All, AllPairs};
ghost use Rattle.std.specs.List.{range_with_len};
ghost use Rattle.lhg_math.specs.Number.{neg, whole};
ghost use Rattle.lhg_num.specs.Marked.{done};
ghost use Rattle.lhg_num.specs.Halting.{IsHaltedByMemory};
ghost use Rattle.lhg_row.specs.Row.{PlainPoint, holds_at, relaxed, row_with};
ghost use Rattle.lhg_row.specs.Kinds as plain;
ghost use Rattle.lhg_row.specs.Moves as moves;

use crate::copies::copy_row;
use crate::rows::{Kind, Row};
use lhg_num::{Frac, Halt, Scalar};
use std::alloc::Global;

/// The row with these whole numbers as its coefficients and its bound. It halts for `Memory` alone.
pub fn whole_row(alloc: Global, coefs: &[i64], kind: Kind, bound: i64) -> Result<Row<Frac>, Halt>
    ensures { IsHaltedByMemory result (done (row_with (map whole coefs.now) (plain.is_strict kind) (whole bound))) (λ r. r) }
{
    Ok(Row {
        coefs: fractions(alloc, coefs)?,
        kind,
        bound: Frac::from(bound),
    })
}

/// The row that holds exactly where the old one does not. It halts for `Memory` alone.
pub fn negate<N: Scalar>(alloc: Global, row: &Row<N>) -> Result<Row<N>, Halt>
    ensures row { IsHaltedByMemory result (done (moves.negated row.now)) (λ r. r) }
    ensures points { IfOk result (λ r. (x : PlainPoint) → holds_at r x ≡ not (holds_at row.now x)) }
{
    Ok(Row {
        coefs: negatives(alloc, &row.coefs)?,
        kind: opposite(row.kind),
        bound: row.bound.neg(),
    })
}

/// The same row, weak. It halts for `Memory` alone.
pub fn relax<N: Scalar>(alloc: Global, row: &Row<N>) -> Result<Row<N>, Halt>
    ensures { IsHaltedByMemory result (done (relaxed row.now)) (λ r. r) }
{
    let mut weak = copy_row(alloc, row)?;
    weak.kind = Kind::Weak;
    Ok(weak)
}

/// The row over `vars` variables in which coefficient i of the old one stands at `places[i]`, and all others are 0. There is
/// one place for each coefficient; the places differ and are below `vars`. It halts for `Memory` alone.
pub fn rename<N: Scalar>(
    alloc: Global,
    row: &Row<N>,
    places: &[u32],
    vars: usize,
) -> Result<Row<N>, Halt>
    requires one_each { length places.now ≡ length row.now.coefs }
    requires different { AllPairs (λ p q. p ≢ q) places.now }
    requires below { All (λ p. p < vars) places.now }
    ensures row { IsHaltedByMemory result (done (moves.renamed places.now vars row.now)) (λ r. r) }
    ensures points { IfOk result (λ r. (x : PlainPoint) → length x ≡ vars → holds_at r x ≡ holds_at row.now (moves.picked places.now x)) }
{
    Ok(Row {
        coefs: placed(alloc, places, &row.coefs, vars)?,
        kind: row.kind,
        bound: row.bound,
    })
}

// The whole numbers as fractions.
fn fractions(alloc: Global, numbers: &[i64]) -> Result<Vec<Frac>, Halt>
    ensures { IsHaltedByMemory result (done (map whole numbers.now)) (λ v. v.items) }
{
    let mut out = Vec::with_capacity(alloc, numbers.len())?;
    for n in numbers {
        out.push(Frac::from(*n))?;
    }
    Ok(out)
}

// The numbers with the other sign.
fn negatives<N: Scalar>(alloc: Global, coefs: &[N]) -> Result<Vec<N>, Halt>
    ensures { IsHaltedByMemory result (done (map neg (map N.meaning coefs.now))) (λ v. map N.meaning v.items) }
{
    let mut out = Vec::with_capacity(alloc, coefs.len())?;
    for coef in coefs {
        out.push(coef.neg())?;
    }
    Ok(out)
}

// The other kind.
fn opposite(kind: Kind) -> Kind
    ensures { plain.is_strict result ≡ not (plain.is_strict kind) }
{
    match kind {
        Kind::Weak => Kind::Strict,
        Kind::Strict => Kind::Weak,
    }
}

// One coefficient for each of the variables, each of the old ones at its place.
fn placed<N: Scalar>(
    alloc: Global,
    places: &[u32],
    coefs: &[N],
    vars: usize,
) -> Result<Vec<N>, Halt>
    requires { length places.now ≡ length coefs.now }
    ensures { IsHaltedByMemory result (done (map (λ j. moves.coef_for j places.now (map N.meaning coefs.now)) (range_with_len 0 vars))) (λ v. map N.meaning v.items) }
{
    let mut out = Vec::with_capacity(alloc, vars)?;
    for j in 0..vars {
        out.push(coef_for(places, coefs, j))?;
    }
    Ok(out)
}

// The coefficient whose place is j, and 0 where there is none.
fn coef_for<N: Scalar>(places: &[u32], coefs: &[N], j: usize) -> N
    requires { length places.now ≡ length coefs.now }
    ensures { N.meaning result ≡ moves.coef_for j places.now (map N.meaning coefs.now) }
{
    for i in 0..places.len() {
        if places[i] as usize == j {
            return coefs[i];
        }
    }
    N::zero()
}
