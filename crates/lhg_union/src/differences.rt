// A list of pieces by a list of pieces: what is left of the first, and whether the second covers it.
ghost use Rattle.std.specs.Prelude.{ℕ, IfOk};
ghost use Rattle.lhg_num.specs.Marked.{done};
ghost use Rattle.lhg_num.specs.Halting.{IsHaltedBy, IsHaltedByMemory};
ghost use Rattle.lhg_row.specs.PieceFacts.{IsPoly, IsDifference, IsCovering};
ghost use Rattle.lhg_row.specs.Lists as calculus;
ghost use Rattle.lhg_union.specs.PolyLists.{lines_of, AllVars, ArePolys, HaveVars};

use crate::cutting::minus_piece;
use crate::limits::gather;
use lhg_num::{Halt, Scalar};
use lhg_poly::Poly;
use std::alloc::Global;

/// The points of some p and of no q, as a list of pieces. All are over the same variables.
/// It halts for `Wide` only where the type refuses an operation of the calculus of this call,
/// for `Rows` and `Pieces` only where it has a list past `ROW_LIMIT`, `PIECE_LIMIT` or `LIST_ROW_LIMIT`, and for `Memory`.
pub fn minus<N: Scalar>(alloc: Global, ps: &[Poly<N>], qs: &[Poly<N>]) -> Result<Vec<Poly<N>>, Halt>
    requires { HaveVars ps.now qs.now }
    ensures calculus { (n : ℕ) → AllVars n ps.now → AllVars n qs.now → IsHaltedBy result (calculus.minus N.arithmetic n (lines_of ps.now) (lines_of qs.now)) (λ v. lines_of v.items) }
    ensures vars { (n : ℕ) → AllVars n ps.now → AllVars n qs.now → IfOk result (λ v. AllVars n v.items) }
    ensures polys { IfOk result (λ v. ArePolys N.arithmetic v.items) }
    ensures points { (n : ℕ) → AllVars n ps.now → AllVars n qs.now → IfOk result (λ v. IsDifference n (lines_of ps.now) (lines_of qs.now) (lines_of v.items)) }
{
    let mut left = copies(alloc, ps)?;
    for q in qs {
        left = minus_one(alloc, left, q)?;
    }
    Ok(left)
}

/// Whether each point of some p is a point of some q. All are over the same variables.
/// It halts for `Wide` only where the type refuses an operation of the calculus of this call,
/// for `Rows` and `Pieces` only where it has a list past `ROW_LIMIT`, `PIECE_LIMIT` or `LIST_ROW_LIMIT`, and for `Memory`.
pub fn covered<N: Scalar>(alloc: Global, ps: &[Poly<N>], qs: &[Poly<N>]) -> Result<bool, Halt>
    requires { HaveVars ps.now qs.now }
    ensures calculus { (n : ℕ) → AllVars n ps.now → AllVars n qs.now → IsHaltedBy result (calculus.covered N.arithmetic n (lines_of ps.now) (lines_of qs.now)) (λ b. b) }
    ensures points { (n : ℕ) → AllVars n ps.now → AllVars n qs.now → IfOk result (IsCovering n (lines_of ps.now) (lines_of qs.now)) }
{
    let left = minus(alloc, ps, qs)?;
    Ok(left.is_empty())
}

// What one piece leaves of a list.
fn minus_one<N: Scalar>(alloc: Global, ps: Vec<Poly<N>>, q: &Poly<N>) -> Result<Vec<Poly<N>>, Halt>
    requires { AllVars q.now.width ps.items }
    ensures calculus { IsHaltedBy result (calculus.minus_one N.arithmetic q.now.width (lines_of ps.items) q.now.lines) (λ v. lines_of v.items) }
    ensures vars { IfOk result (λ v. AllVars q.now.width v.items) }
    ensures poly { IsPoly N.arithmetic q.now.width q.now.lines }
{
    // A call on q tells its invariant, for `poly`.
    let _ = q.rows();
    let mut out = Vec::new(alloc);
    for p in ps {
        let left = minus_piece(alloc, p, q)?;
        gather(&mut out, left)?;
    }
    Ok(out)
}

/// Copies of the pieces. It halts for `Memory` alone.
pub fn copies<N: Scalar>(alloc: Global, ps: &[Poly<N>]) -> Result<Vec<Poly<N>>, Halt>
    ensures copies { IsHaltedByMemory result (done ps.now) (λ v. v.items) }
    ensures polys { IfOk result (λ _. ArePolys N.arithmetic ps.now) }
{
    let mut out = Vec::with_capacity(alloc, ps.len())?;
    for p in ps {
        let copy = p.copy(alloc)?;
        out.push(copy)?;
    }
    Ok(out)
}
