// The states to which a switch leads from a piece.
ghost use Rattle.std.specs.Prelude.{◌≡◌, ◌+◌, ◌<◌, ◌≤◌, length, map, slice_get, option_map, IfOk, IfSome, IsSomeAnd};
ghost use Rattle.lhg_num.specs.Marked.{done};
ghost use Rattle.lhg_num.specs.Halting.{IsHaltedByRows, IsHaltedByMemory};
ghost use Rattle.lhg_row.specs.Width.{AllWide};
ghost use Rattle.lhg_plant.specs.Limits.{most_variables};
ghost use Rattle.lhg_plant.specs.Pre.{pre_rows, pre_piece};
ghost use Rattle.lhg_plant.specs.Sound.{IsInside};
ghost use Rattle.lhg_plant.specs.Views.{plain_plant};
ghost use Rattle.lhg_forward.specs.After as calculus;
ghost use Rattle.lhg_forward.specs.AfterFacts.{IsResult, HasPointsOr};

use crate::invariants::invariant;
use lhg_num::{Frac, Halt};
use lhg_plant::Plant;
use lhg_poly::{Poly, project};
use lhg_row::{Row, append_rows, append_widened, trim};
use std::alloc::Global;

/// The states to which the switch leads legally from the piece, which lies inside the invariant of the location that it leaves. It is none exactly where there is none.
/// It halts for `Wide` only where fractions refuse an operation of the calculus of this call, for `Rows` only where it has a
/// list past `ROW_LIMIT`, and for `Memory`.
pub fn after_switch(
    alloc: Global,
    plant: &Plant,
    switch: u32,
    piece: &Poly<Frac>,
) -> Result<Option<Poly<Frac>>, Halt>
    requires there { switch < length plant.now.switches.items }
    requires vars { piece.now.width ≡ length plant.now.vars.items }
    requires inside { IsSomeAnd (slice_get (plain_plant plant.now).switches switch) (λ w. IsInside (plain_plant plant.now) w.from piece.now.lines) }
    ensures calculus { IsHaltedByRows result (calculus.after_switch (plain_plant plant.now) switch piece.now.lines) (option_map (λ p. p.lines)) }
    ensures vars { IfOk result (λ o. IfSome o (λ p. p.width ≡ length plant.now.vars.items)) }
    ensures points { IfOk result (λ o. HasPointsOr (length plant.now.vars.items) (IsResult (plain_plant plant.now) switch piece.now.lines) (option_map (λ p. p.lines) o)) }
{
    // A call on the piece tells its invariant, for `points`.
    let _ = piece.rows();
    let vars = plant.vars.len();
    let taken = &plant.switches[switch as usize];
    let location = &plant.locs[taken.to as usize];
    match invariant(alloc, vars, location)? {
        None => Ok(None),
        Some(inv) => results(alloc, vars, &taken.jump, piece, &inv),
    }
}

// The points of the invariant to which the jump leads from the piece.
fn results(
    alloc: Global,
    vars: usize,
    jump: &[Row<Frac>],
    piece: &Poly<Frac>,
    inv: &Poly<Frac>,
) -> Result<Option<Poly<Frac>>, Halt>
    requires few { vars ≤ most_variables }
    requires jump { AllWide (vars + vars) jump.now }
    requires piece { piece.now.width ≡ vars }
    requires inv { inv.now.width ≡ vars }
    ensures calculus { IsHaltedByRows result (pre_piece vars (map (calculus.swapped vars) jump.now) piece.now.lines inv.now.lines) (option_map (λ p. p.lines)) }
    ensures vars { IfOk result (λ o. IfSome o (λ p. p.width ≡ vars)) }
{
    let from = piece.rows();
    let there = inv.rows();
    let all = result_rows(alloc, vars, jump, from, there)?;
    let system = trim(alloc, vars + vars, all)?;
    project(alloc, &system, vars)
}

// Over the new and the old variables: the invariant's rows at the new ones, the jump rows, and the piece's rows at the old ones.
fn result_rows(
    alloc: Global,
    vars: usize,
    jump: &[Row<Frac>],
    piece: &[Row<Frac>],
    inv: &[Row<Frac>],
) -> Result<Vec<Row<Frac>>, Halt>
    requires jump { AllWide (vars + vars) jump.now }
    ensures { IsHaltedByMemory result (done (pre_rows vars (map (calculus.swapped vars) jump.now) piece.now inv.now)) (λ v. v.items) }
{
    let swapped = swapped_rows(alloc, vars, jump)?;
    let mut rows = Vec::new(alloc);
    append_widened(alloc, &mut rows, inv, 0, vars)?;
    append_rows(alloc, &mut rows, &swapped)?;
    append_widened(alloc, &mut rows, piece, vars, 0)?;
    Ok(rows)
}

// The jump rows over the new values and then the old ones.
fn swapped_rows(alloc: Global, vars: usize, jump: &[Row<Frac>]) -> Result<Vec<Row<Frac>>, Halt>
    requires { AllWide (vars + vars) jump.now }
    ensures { IsHaltedByMemory result (done (map (calculus.swapped vars) jump.now)) (λ v. v.items) }
{
    let mut out = Vec::with_capacity(alloc, jump.len())?;
    for row in jump {
        let swapped = swapped_row(alloc, vars, row)?;
        out.push(swapped)?;
    }
    Ok(out)
}

// The row over the new values and then the old ones.
fn swapped_row(alloc: Global, vars: usize, row: &Row<Frac>) -> Result<Row<Frac>, Halt>
    requires { length row.now.coefs ≡ vars + vars }
    ensures { IsHaltedByMemory result (done (calculus.swapped vars row.now)) (λ r. r) }
{
    let (old, new) = row.coefs.split_at(vars);
    let mut coefs = Vec::from_slice(alloc, new)?;
    coefs.extend_from_slice(old)?;
    Ok(Row {
        coefs,
        kind: row.kind,
        bound: row.bound,
    })
}
