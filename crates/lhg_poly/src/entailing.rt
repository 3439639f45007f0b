// Whether a row holds at each point of a piece, and whether one piece holds all points of another.
ghost use Rattle.std.specs.Prelude.{◌≡◌, length, IfOk};
ghost use Rattle.lhg_num.specs.Halting.{IsHaltedByRows};
ghost use Rattle.lhg_row.specs.Width.{AllWide};
ghost use Rattle.lhg_row.specs.PieceFacts.{IsEntailment, IsInclusion};
ghost use Rattle.lhg_row.specs.Pieces as calculus;

use crate::polys::Poly;
use lhg_elim::is_empty;
use lhg_num::{Halt, Scalar};
use lhg_row::{Row, copy_rows, negate, trim};
use lhg_simplex::decide;
use std::alloc::Global;

/// Whether the row, over the variables of the piece, holds at each point of it.
/// It halts for `Wide` only where the type refuses an operation of the calculus of this call,
/// for `Rows` only where it has a list past `ROW_LIMIT`, and for `Memory`.
pub fn entails<N: Scalar>(alloc: Global, p: &Poly<N>, row: &Row<N>) -> Result<bool, Halt>
    requires { length row.now.coefs ≡ p.now.width }
    ensures calculus { IsHaltedByRows result (calculus.entails N.arithmetic p.now.width p.now.lines row.now) (λ b. b) }
    ensures points { IfOk result (IsEntailment p.now.width p.now.lines row.now) }
{
    entailed(alloc, p.vars(), p.rows(), row)
}

/// Whether each point of q is one of p; both are over the same variables.
/// It halts for `Wide` only where the type refuses an operation of the calculus of this call,
/// for `Rows` only where it has a list past `ROW_LIMIT`, and for `Memory`.
pub fn includes<N: Scalar>(alloc: Global, p: &Poly<N>, q: &Poly<N>) -> Result<bool, Halt>
    requires { p.now.width ≡ q.now.width }
    ensures calculus { IsHaltedByRows result (calculus.includes N.arithmetic q.now.width p.now.lines q.now.lines) (λ b. b) }
    ensures points { IfOk result (IsInclusion q.now.width p.now.lines q.now.lines) }
{
    all_entailed(alloc, q.vars(), q.rows(), p.rows())
}

/// Whether the row holds at each point of the rows.
pub(crate) fn rows_entail<N: Scalar>(
    alloc: Global,
    vars: usize,
    mut rows: Vec<Row<N>>,
    row: &Row<N>,
) -> Result<bool, Halt>
    requires wide { AllWide vars rows.items }
    requires same { length row.now.coefs ≡ vars }
    ensures { IsHaltedByRows result (calculus.entails N.arithmetic vars rows.items row.now) (λ b. b) }
{
    let negation = negate(alloc, row)?;
    rows.push(negation)?;
    have_no_point(alloc, vars, rows)
}

/// Whether the rows have no common point.
pub(crate) fn have_no_point<N: Scalar>(
    alloc: Global,
    vars: usize,
    rows: Vec<Row<N>>,
) -> Result<bool, Halt>
    requires { AllWide vars rows.items }
    ensures { IsHaltedByRows result (calculus.are_empty N.arithmetic vars rows.items) (λ b. b) }
{
    let known = decide(alloc, vars, &rows)?;
    match known {
        Some(none) => Ok(none),
        None => eliminated(alloc, vars, rows),
    }
}

// Whether the rows have no common point, by elimination.
fn eliminated<N: Scalar>(alloc: Global, vars: usize, rows: Vec<Row<N>>) -> Result<bool, Halt>
    requires { AllWide vars rows.items }
    ensures { IsHaltedByRows result (calculus.are_empty N.arithmetic vars rows.items) (λ b. b) }
{
    let system = trim(alloc, vars, rows)?;
    is_empty(alloc, &system)
}

// Whether each of the rows asked for holds at each point of the rows.
fn all_entailed<N: Scalar>(
    alloc: Global,
    vars: usize,
    rows: &[Row<N>],
    asked: &[Row<N>],
) -> Result<bool, Halt>
    requires wide { AllWide vars rows.now }
    requires same { AllWide vars asked.now }
    ensures { IsHaltedByRows result (calculus.includes N.arithmetic vars asked.now rows.now) (λ b. b) }
{
    for row in asked {
        let held = entailed(alloc, vars, rows, row)?;
        if !held {
            return Ok(false);
        }
    }
    Ok(true)
}

// Whether the row holds at each point of rows that stay.
fn entailed<N: Scalar>(
    alloc: Global,
    vars: usize,
    rows: &[Row<N>],
    row: &Row<N>,
) -> Result<bool, Halt>
    requires wide { AllWide vars rows.now }
    requires same { length row.now.coefs ≡ vars }
    ensures { IsHaltedByRows result (calculus.entails N.arithmetic vars rows.now row.now) (λ b. b) }
{
    let copies = copy_rows(alloc, rows)?;
    rows_entail(alloc, vars, copies, row)
}
