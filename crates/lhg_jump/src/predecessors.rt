// The states from which a switch leads into pieces.
ghost use Rattle.std.specs.Prelude.{◌≡◌, ◌+◌, ◌<◌, ◌≤◌, ◌++◌, [], length, slice_get, option_map, IfOk, IfSome, OnOk, IsSomeAnd};
ghost use Rattle.lhg_num.specs.Marked.{done, valued};
ghost use Rattle.lhg_num.specs.Halting.{IsHaltedBy, IsHaltedByRows, IsHaltedByMemory};
ghost use Rattle.lhg_row.specs.Width.{AllWide};
ghost use Rattle.lhg_row.specs.Lists.{listed};
ghost use Rattle.lhg_plant.specs.Limits.{most_variables};
ghost use Rattle.lhg_plant.specs.Pre as calculus;
ghost use Rattle.lhg_plant.specs.Inside.{AllInside};
ghost use Rattle.lhg_plant.specs.SwitchFacts.{IsPreOf};
ghost use Rattle.lhg_plant.specs.Views.{plain_plant};
ghost use Rattle.lhg_union.specs.PolyLists.{lines_of, AllVars};

use crate::invariant_lists::invariant_list;
use lhg_num::{Frac, Halt};
use lhg_plant::Plant;
use lhg_poly::{Poly, project};
use lhg_row::{Row, append_rows, append_widened, trim};
use lhg_union::{gather, push_some, tell_pieces};
use std::alloc::Global;

/// The states with a legal result of the switch in the target, which lies inside the invariant of the location that the switch
/// enters.
/// It halts for `Wide` only where fractions refuse an operation of the calculus of this call,
/// for `Rows` and `Pieces` only where it has a list past `ROW_LIMIT`, `PIECE_LIMIT` or `LIST_ROW_LIMIT`, and for `Memory`.
pub fn pre(
    alloc: Global,
    plant: &Plant,
    switch: u32,
    target: &[Poly<Frac>],
) -> Result<Vec<Poly<Frac>>, Halt>
    requires there { switch < length plant.now.switches.items }
    requires vars { AllVars (length plant.now.vars.items) target.now }
    requires inside { IsSomeAnd (slice_get (plain_plant plant.now).switches switch) (λ w. AllInside (plain_plant plant.now) w.to (lines_of target.now)) }
    ensures calculus { IsHaltedBy result (calculus.pre (plain_plant plant.now) switch (lines_of target.now)) (λ v. lines_of v.items) }
    ensures vars { IfOk result (λ v. AllVars (length plant.now.vars.items) v.items) }
    ensures points { IfOk result (λ v. IsPreOf (plain_plant plant.now) switch (lines_of target.now) (lines_of v.items)) }
{
    tell_pieces(target);
    let switch = &plant.switches[switch as usize];
    let location = &plant.locs[switch.from as usize];
    let invs = invariant_list(alloc, plant.vars.len(), location)?;
    pre_list(alloc, plant.vars.len(), &invs, &switch.jump, target)
}

/// For each piece of the target, in order, the points of some invariant from which the jump leads into it, where there are some.
pub(crate) fn pre_list(
    alloc: Global,
    vars: usize,
    invs: &[Poly<Frac>],
    jump: &[Row<Frac>],
    target: &[Poly<Frac>],
) -> Result<Vec<Poly<Frac>>, Halt>
    requires few { vars ≤ most_variables }
    requires invs { AllVars vars invs.now }
    requires jump { AllWide (vars + vars) jump.now }
    requires target { AllVars vars target.now }
    ensures calculus { IsHaltedBy result (calculus.pre_list vars (lines_of invs.now) jump.now (lines_of target.now)) (λ v. lines_of v.items) }
    ensures vars { IfOk result (λ v. AllVars vars v.items) }
{
    let mut out = Vec::new(alloc);
    for q in target {
        let found = pre_each(alloc, vars, jump, q, invs)?;
        gather(&mut out, found)?;
    }
    Ok(out)
}

/// Those that lead into one piece.
pub(crate) fn pre_each(
    alloc: Global,
    vars: usize,
    jump: &[Row<Frac>],
    q: &Poly<Frac>,
    invs: &[Poly<Frac>],
) -> Result<Vec<Poly<Frac>>, Halt>
    requires few { vars ≤ most_variables }
    requires jump { AllWide (vars + vars) jump.now }
    requires target { q.now.width ≡ vars }
    requires invs { AllVars vars invs.now }
    ensures calculus { IsHaltedByRows result (calculus.pre_each vars jump.now q.now.lines (lines_of invs.now)) (λ v. lines_of v.items) }
    ensures vars { IfOk result (λ v. AllVars vars v.items) }
{
    let rows = q.rows();
    let mut out = Vec::new(alloc);
    for inv in invs {
        push_pre(alloc, vars, jump, rows, inv, &mut out)?;
    }
    Ok(out)
}

// Puts those of one invariant at the end of the list, where there are some.
fn push_pre(
    alloc: Global,
    vars: usize,
    jump: &[Row<Frac>],
    q: &[Row<Frac>],
    inv: &Poly<Frac>,
    out: &mut Vec<Poly<Frac>>,
) -> Result<(), Halt>
    requires few { vars ≤ most_variables }
    requires jump { AllWide (vars + vars) jump.now }
    requires target { AllWide vars q.now }
    requires inv { inv.now.width ≡ vars }
    requires vars { AllVars vars out.old.items }
    ensures list { IsHaltedByRows result (valued (λ o. lines_of out.old.items ++ listed o []) (calculus.pre_piece vars jump.now q.now inv.now.lines)) (λ _. lines_of out.new.items) }
    ensures vars { OnOk result (AllVars vars out.new.items) }
{
    let piece = pre_piece(alloc, vars, jump, q, inv.rows())?;
    push_some(out, piece)
}

// The piece of the points of the invariant from which the jump leads into q, where there are some.
fn pre_piece(
    alloc: Global,
    vars: usize,
    jump: &[Row<Frac>],
    q: &[Row<Frac>],
    inv: &[Row<Frac>],
) -> Result<Option<Poly<Frac>>, Halt>
    requires few { vars ≤ most_variables }
    requires jump { AllWide (vars + vars) jump.now }
    requires target { AllWide vars q.now }
    requires inv { AllWide vars inv.now }
    ensures calculus { IsHaltedByRows result (calculus.pre_piece vars jump.now q.now inv.now) (option_map (λ p. p.lines)) }
    ensures vars { IfOk result (λ o. IfSome o (λ p. p.width ≡ vars)) }
{
    let rows = pre_rows(alloc, vars, jump, q, inv)?;
    let system = trim(alloc, vars + vars, rows)?;
    project(alloc, &system, vars)
}

// The invariant's rows at the old variables, the jump rows, and the rows of q at the new variables.
fn pre_rows(
    alloc: Global,
    vars: usize,
    jump: &[Row<Frac>],
    q: &[Row<Frac>],
    inv: &[Row<Frac>],
) -> Result<Vec<Row<Frac>>, Halt>
    ensures { IsHaltedByMemory result (done (calculus.pre_rows vars jump.now q.now inv.now)) (λ v. v.items) }
{
    let mut rows = Vec::new(alloc);
    append_widened(alloc, &mut rows, inv, 0, vars)?;
    append_rows(alloc, &mut rows, jump)?;
    append_widened(alloc, &mut rows, q, vars, 0)?;
    Ok(rows)
}
