// The common points of two lists of pieces.
ghost use Rattle.std.specs.Prelude.{◌≡◌, ℕ, ◌++◌, [], IfOk, OnOk};
ghost use Rattle.lhg_num.specs.Marked.{valued};
ghost use Rattle.lhg_num.specs.Halting.{IsHaltedBy, IsHaltedByRows};
ghost use Rattle.lhg_row.specs.PieceFacts.{IsPoly, IsIntersection};
ghost use Rattle.lhg_row.specs.Pieces.{meet};
ghost use Rattle.lhg_row.specs.Lists as calculus;
ghost use Rattle.lhg_union.specs.PolyLists.{lines_of, AllVars, ArePolys, HaveVars};

use crate::cutting::push_some;
use crate::limits::gather;
use lhg_num::{Halt, Scalar};
use lhg_poly::{Poly, meet};
use std::alloc::Global;

/// The points of some p and of some q: for each p, then for each q, their meet where there is one. All are over the same
/// variables.
/// It halts for `Wide` only where the type refuses an operation of the calculus of this call,
/// for `Rows` and `Pieces` only where it has a list past `ROW_LIMIT`, `PIECE_LIMIT` or `LIST_ROW_LIMIT`, and for `Memory`.
pub fn meet_lists<N: Scalar>(
    alloc: Global,
    ps: &[Poly<N>],
    qs: &[Poly<N>],
) -> Result<Vec<Poly<N>>, Halt>
    requires { HaveVars ps.now qs.now }
    ensures calculus { (n : ℕ) → AllVars n ps.now → AllVars n qs.now → IsHaltedBy result (calculus.meet_lists N.arithmetic n (lines_of ps.now) (lines_of qs.now)) (λ v. lines_of v.items) }
    ensures vars { (n : ℕ) → AllVars n ps.now → AllVars n qs.now → IfOk result (λ v. AllVars n v.items) }
    ensures polys { IfOk result (λ v. ArePolys N.arithmetic v.items) }
    ensures points { (n : ℕ) → AllVars n ps.now → AllVars n qs.now → IfOk result (λ v. IsIntersection n (lines_of ps.now) (lines_of qs.now) (lines_of v.items)) }
{
    let mut out = Vec::new(alloc);
    for p in ps {
        let met = meet_each(alloc, p, qs)?;
        gather(&mut out, met)?;
    }
    Ok(out)
}

// The meets of a piece with each of a list, where there are some.
fn meet_each<N: Scalar>(alloc: Global, p: &Poly<N>, qs: &[Poly<N>]) -> Result<Vec<Poly<N>>, Halt>
    requires { AllVars p.now.width qs.now }
    ensures calculus { IsHaltedByRows result (calculus.meet_each N.arithmetic p.now.width p.now.lines (lines_of qs.now)) (λ v. lines_of v.items) }
    ensures vars { IfOk result (λ v. AllVars p.now.width v.items) }
    ensures poly { IsPoly N.arithmetic p.now.width p.now.lines }
    ensures polys { IfOk result (λ _. ArePolys N.arithmetic qs.now) }
{
    // A call on p tells its invariant, for `poly`.
    let _ = p.rows();
    let mut out = Vec::new(alloc);
    for q in qs {
        meet_one(alloc, &mut out, p, q)?;
    }
    Ok(out)
}

// Puts the meet of two pieces at the end of the list, where there is one.
fn meet_one<N: Scalar>(
    alloc: Global,
    out: &mut Vec<Poly<N>>,
    p: &Poly<N>,
    q: &Poly<N>,
) -> Result<(), Halt>
    requires same { p.now.width ≡ q.now.width }
    requires vars { AllVars p.now.width out.old.items }
    ensures list { IsHaltedByRows result (valued (λ o. lines_of out.old.items ++ calculus.listed o []) (meet N.arithmetic p.now.width p.now.lines q.now.lines)) (λ _. lines_of out.new.items) }
    ensures vars { OnOk result (AllVars p.now.width out.new.items) }
    ensures poly { IsPoly N.arithmetic q.now.width q.now.lines }
{
    // A call on q tells its invariant, for `poly`.
    let _ = q.rows();
    let met = meet(alloc, p, q)?;
    push_some(out, met)
}
