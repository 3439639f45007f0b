// One piece by one piece: what of p is at none of the points of q.
//
// A point of p that is not one of q fails some row of q; take the first such row. So what is left of p falls apart into, for
// each row of q, the points of p at which the rows before it hold and it does not. Where p and q have no common point, p is left.
ghost use Rattle.std.specs.Prelude.{◌≡◌, ◌++◌, ◌∷◌, [], length, option_map, IfOk, IfSome, OnOk, OnErr};
ghost use Rattle.lhg_num.specs.Marked.{done, valued};
ghost use Rattle.lhg_num.specs.Halting.{IsHaltedByMemory, IsHaltedByRows};
ghost use Rattle.lhg_row.specs.Moves.{negated};
ghost use Rattle.lhg_row.specs.Width.{AllWide};
ghost use Rattle.lhg_row.specs.PieceFacts.{IsPoly};
ghost use Rattle.lhg_row.specs.Pieces.{make};
ghost use Rattle.lhg_row.specs.Lists as calculus;
ghost use Rattle.lhg_union.specs.PolyLists.{lines_of, as_list, AllVars};

use lhg_num::{Halt, Scalar};
use lhg_poly::{Poly, are_apart, make};
use lhg_row::{Row, copy_row, copy_rows, negate};
use std::alloc::Global;

/// The points of p that are not points of q, as a list of pieces.
pub(crate) fn minus_piece<N: Scalar>(
    alloc: Global,
    p: Poly<N>,
    q: &Poly<N>,
) -> Result<Vec<Poly<N>>, Halt>
    requires { p.width ≡ q.now.width }
    ensures calculus { IsHaltedByRows result (calculus.minus_piece N.arithmetic q.now.width p.lines q.now.lines) (λ v. lines_of v.items) }
    ensures vars { IfOk result (λ v. AllVars q.now.width v.items) }
    ensures poly { IsPoly N.arithmetic p.width p.lines }
    ensures other { IsPoly N.arithmetic q.now.width q.now.lines }
{
    let rows = p.rows();
    let others = q.rows();
    let apart = are_apart(alloc, &p, q)?;
    if apart {
        return alone(alloc, p);
    }
    cut_off(alloc, q.vars(), rows, others)
}

// For each row of the others, what of the rows is at the others before it and not at that row.
fn cut_off<N: Scalar>(
    alloc: Global,
    vars: usize,
    rows: &[Row<N>],
    others: &[Row<N>],
) -> Result<Vec<Poly<N>>, Halt>
    requires wide { AllWide vars rows.now }
    requires same { AllWide vars others.now }
    ensures calculus { IsHaltedByRows result (calculus.cut_off N.arithmetic vars rows.now others.now) (λ v. lines_of v.items) }
    ensures vars { IfOk result (λ v. AllVars vars v.items) }
{
    let mut base = copy_rows(alloc, rows)?;
    let mut out = Vec::new(alloc);
    for row in others {
        cut(alloc, vars, &mut base, &mut out, row)?;
    }
    Ok(out)
}

// Puts the piece of the points of the base at which the row fails at the end of the list, and the row at the end of the base.
fn cut<N: Scalar>(
    alloc: Global,
    vars: usize,
    base: &mut Vec<Row<N>>,
    out: &mut Vec<Poly<N>>,
    row: &Row<N>,
) -> Result<(), Halt>
    requires wide { AllWide vars base.old.items }
    requires same { length row.now.coefs ≡ vars }
    requires vars { AllVars vars out.old.items }
    ensures list { IsHaltedByRows result (valued (λ o. lines_of out.old.items ++ calculus.listed o []) (make N.arithmetic vars (base.old.items ++ negated row.now ∷ []))) (λ _. lines_of out.new.items) }
    ensures base { OnOk result (base.new.items ≡ base.old.items ++ row.now ∷ []) }
    ensures vars { OnOk result (AllVars vars out.new.items) }
{
    let piece = outside(alloc, vars, base, row)?;
    push_some(out, piece)?;
    let copy = copy_row(alloc, row)?;
    base.push(copy)?;
    Ok(())
}

// The piece of the points of the base at which the row fails.
fn outside<N: Scalar>(
    alloc: Global,
    vars: usize,
    base: &[Row<N>],
    row: &Row<N>,
) -> Result<Option<Poly<N>>, Halt>
    requires wide { AllWide vars base.now }
    requires same { length row.now.coefs ≡ vars }
    ensures calculus { IsHaltedByRows result (make N.arithmetic vars (base.now ++ negated row.now ∷ [])) (option_map (λ p. p.lines)) }
    ensures vars { IfOk result (λ o. IfSome o (λ p. p.width ≡ vars)) }
{
    let mut rows = copy_rows(alloc, base)?;
    let negation = negate(alloc, row)?;
    rows.push(negation)?;
    make(alloc, vars, rows)
}

/// Puts the piece at the end of the list, where there is one. After a refusal the list is as before, and the piece is dropped.
pub fn push_some<N: Scalar>(out: &mut Vec<Poly<N>>, piece: Option<Poly<N>>) -> Result<(), Halt>
    ensures list { IsHaltedByMemory result (done (out.old.items ++ as_list piece)) (λ _. out.new.items) }
    ensures err { OnErr result (out.new.items ≡ out.old.items) }
{
    if let Some(piece) = piece {
        out.push(piece)?;
    }
    Ok(())
}

// The list of the piece alone.
fn alone<N: Scalar>(alloc: Global, p: Poly<N>) -> Result<Vec<Poly<N>>, Halt>
    ensures { IsHaltedByMemory result (done (p ∷ [])) (λ v. v.items) }
{
    let mut out = Vec::with_capacity(alloc, 1)?;
    out.push(p)?;
    Ok(out)
}
