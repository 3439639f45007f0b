// The common points of two pieces, and the closure of a piece.
ghost use Rattle.std.specs.Prelude.{◌≡◌, ◌++◌, map, option_map, Some, IfOk, IfSome};
ghost use Rattle.lhg_num.specs.Marked.{done};
ghost use Rattle.lhg_num.specs.Halting.{IsHaltedByMemory, IsHaltedByRows};
ghost use Rattle.lhg_row.specs.Row.{relaxed};
ghost use Rattle.lhg_row.specs.Width.{AllWide};
ghost use Rattle.lhg_row.specs.HasValue.{IsEmptiness};
ghost use Rattle.lhg_row.specs.PieceFacts.{IsMeet, IsClosureOf};
ghost use Rattle.lhg_row.specs.Pieces as calculus;

use crate::clashing::clash;
use crate::entailing::have_no_point;
use crate::making::make;
use crate::polys::Poly;
use lhg_num::{Halt, Scalar};
use lhg_row::{Row, append_rows, copy_rows, relax};
use std::alloc::Global;

/// The common points of two pieces over the same variables, and none where there is no common point.
/// It halts for `Wide` only where the type refuses an operation of the calculus of this call,
/// for `Rows` only where it has a list past `ROW_LIMIT`, and for `Memory`.
pub fn meet<N: Scalar>(alloc: Global, p: &Poly<N>, q: &Poly<N>) -> Result<Option<Poly<N>>, Halt>
    requires { p.now.width ≡ q.now.width }
    ensures calculus { IsHaltedByRows result (calculus.meet N.arithmetic p.now.width p.now.lines q.now.lines) (option_map (λ m. m.lines)) }
    ensures vars { IfOk result (λ o. IfSome o (λ m. m.width ≡ p.now.width)) }
    ensures points { IfOk result (λ o. IsMeet N.arithmetic p.now.width p.now.lines q.now.lines (option_map (λ m. m.lines) o)) }
{
    let rows = rows_of_both(alloc, p, q)?;
    make(alloc, p.vars(), rows)
}

/// Whether two pieces over the same variables have no common point.
/// It halts for `Wide` only where the type refuses an operation of the calculus of this call,
/// for `Rows` only where it has a list past `ROW_LIMIT`, and for `Memory`.
pub fn are_apart<N: Scalar>(alloc: Global, p: &Poly<N>, q: &Poly<N>) -> Result<bool, Halt>
    requires { p.now.width ≡ q.now.width }
    ensures calculus { IsHaltedByRows result (calculus.are_empty N.arithmetic p.now.width (p.now.lines ++ q.now.lines)) (λ b. b) }
    ensures points { IfOk result (IsEmptiness p.now.width (p.now.lines ++ q.now.lines)) }
{
    if clash(p.rows(), q.rows()) {
        return Ok(true);
    }
    let rows = rows_of_both(alloc, p, q)?;
    have_no_point(alloc, p.vars(), rows)
}

/// The points at which all relaxed rows hold, as a piece over the same variables. There is always one, since the points of p are among them.
/// It halts for `Wide` only where the type refuses an operation of the calculus of this call,
/// for `Rows` only where it has a list past `ROW_LIMIT`, and for `Memory`.
pub fn closure<N: Scalar>(alloc: Global, p: &Poly<N>) -> Result<Poly<N>, Halt>
    ensures calculus { IsHaltedByRows result (calculus.closure N.arithmetic p.now.width p.now.lines) (λ c. Some c.lines) }
    ensures vars { IfOk result (λ c. c.width ≡ p.now.width) }
    ensures points { IfOk result (λ c. IsClosureOf N.arithmetic p.now.width p.now.lines c.lines) }
{
    let rows = relaxed_rows(alloc, p.rows())?;
    match make(alloc, p.vars(), rows)? {
        Some(piece) => Ok(piece),
        None => unreachable!(),
    }
}

// The rows of one piece and then those of another.
fn rows_of_both<N: Scalar>(alloc: Global, p: &Poly<N>, q: &Poly<N>) -> Result<Vec<Row<N>>, Halt>
    requires { p.now.width ≡ q.now.width }
    ensures rows { IsHaltedByMemory result (done (p.now.lines ++ q.now.lines)) (λ v. v.items) }
    ensures wide { AllWide p.now.width (p.now.lines ++ q.now.lines) }
{
    let first = p.rows();
    let second = q.rows();
    let mut rows = copy_rows(alloc, first)?;
    append_rows(alloc, &mut rows, second)?;
    Ok(rows)
}

// The rows, each made weak.
fn relaxed_rows<N: Scalar>(alloc: Global, rows: &[Row<N>]) -> Result<Vec<Row<N>>, Halt>
    ensures { IsHaltedByMemory result (done (map relaxed rows.now)) (λ v. v.items) }
{
    let mut out = Vec::with_capacity(alloc, rows.len())?;
    for row in rows {
        let weak = relax(alloc, row)?;
        out.push(weak)?;
    }
    Ok(out)
}
