// The results of switches that lie outside a round.
ghost use Rattle.std.specs.Prelude.{◌≡◌, ◌<◌, ◌+◌, ◌&&◌, ℕ, not, nat_eq, nat_lt, length, is_some, vec_len, IfOk};
ghost use Rattle.lhg_num.specs.Halting.{IsHaltedBy, IsHaltedByRows, IsHaltedByMemory};
ghost use Rattle.lhg_num.specs.Marked.{done, valued};
ghost use Rattle.lhg_row.specs.Width.{AllWide};
ghost use Rattle.lhg_union.specs.PolyLists.{lines_of, AllVars};
ghost use Rattle.lhg_plant.specs.Views.{plain_plant, plain_state};
ghost use Rattle.lhg_loss.specs.Records.{pieces_lost};
ghost use Rattle.lhg_loss.specs.Views.{plain_losses, AllHaveVars};
ghost use Rattle.lhg_spoil.specs.Fibres as calculus;
ghost use Rattle.lhg_spoil.specs.Work as work;

use lhg_jump::{invariant_list, safe_pieces};
use lhg_loss::Loss;
use lhg_num::{Frac, Halt};
use lhg_pick::{first_result, results_in};
use lhg_plant::{Plant, State};
use lhg_poly::Poly;
use lhg_row::{Point, Row};
use lhg_union::minus;
use std::alloc::Global;

/// The result of the fibres of the switch at the state past round j: the sample of the first of them, where there is one.
pub(crate) fn fibre(
    alloc: Global,
    plant: &Plant,
    losses: &[Loss],
    j: u32,
    switch: u32,
    state: &State,
) -> Result<Option<Point<Frac>>, Halt>
    requires there { switch < vec_len plant.now.switches }
    requires lengths { length state.now.at ≡ vec_len plant.now.vars }
    requires vars { AllHaveVars (length plant.now.vars.items) losses.now }
    ensures { IsHaltedBy result (calculus.fibre (plain_plant plant.now) (plain_losses losses.now) j switch (plain_state state.now)) (λ o. o) }
{
    let taken = &plant.switches[switch as usize];
    if taken.from == state.loc {
        let pieces = past_at(alloc, plant, losses, j, taken.to)?;
        first_result(alloc, plant.vars.len(), &state.at, &taken.jump, &pieces)
    } else {
        Ok(None)
    }
}

// The pieces of the states of the location that lie outside round j.
fn past_at(
    alloc: Global,
    plant: &Plant,
    losses: &[Loss],
    j: u32,
    loc: u32,
) -> Result<Vec<Poly<Frac>>, Halt>
    requires there { loc < vec_len plant.now.locs }
    requires vars { AllHaveVars (length plant.now.vars.items) losses.now }
    ensures calculus { IsHaltedBy result (calculus.past_at (plain_plant plant.now) (plain_losses losses.now) j loc) (λ v. lines_of v.items) }
    ensures vars { IfOk result (λ v. AllVars (length plant.now.vars.items) v.items) }
{
    let mut pieces = unsafe_at(alloc, plant, loc)?;
    let mut past = pieces_past(alloc, losses, j, loc)?;
    pieces.append(&mut past)?;
    Ok(pieces)
}

// The unsafe states of the location.
fn unsafe_at(alloc: Global, plant: &Plant, loc: u32) -> Result<Vec<Poly<Frac>>, Halt>
    requires there { loc < vec_len plant.now.locs }
    ensures calculus { IsHaltedBy result (calculus.unsafe_at (plain_plant plant.now) loc) (λ v. lines_of v.items) }
    ensures vars { IfOk result (λ v. AllVars (length plant.now.vars.items) v.items) }
{
    let location = &plant.locs[loc as usize];
    let inv = invariant_list(alloc, plant.vars.len(), location)?;
    let safe = safe_pieces(alloc, plant.vars.len(), location)?;
    minus(alloc, &inv, &safe)
}

// Copies of the pieces of the records of the location and of a round up to j.
fn pieces_past(alloc: Global, losses: &[Loss], j: u32, loc: u32) -> Result<Vec<Poly<Frac>>, Halt>
    ensures copies { IsHaltedByMemory result (done (pieces_lost (calculus.losses_past loc j (plain_losses losses.now)))) (λ v. lines_of v.items) }
    ensures vars { (n : ℕ) → AllHaveVars n losses.now → IfOk result (λ v. AllVars n v.items) }
{
    let mut out = Vec::new(alloc);
    for loss in losses {
        if is_past(loss, loc, j) {
            let copy = loss.piece.copy(alloc)?;
            out.push(copy)?;
        }
    }
    Ok(out)
}

// Whether the record is of the location and of a round up to j.
fn is_past(loss: &Loss, loc: u32, j: u32) -> bool
    ensures { result ≡ (nat_eq loss.now.loc loc && not (nat_lt j loss.now.round)) }
{
    loss.loc == loc && loss.round <= j
}

/// Whether the switch, which leaves the location of the state, has a legal result there: some result in the piece of its target's invariant.
pub(crate) fn has_result(
    alloc: Global,
    plant: &Plant,
    switch: u32,
    state: &State,
) -> Result<bool, Halt>
    requires there { switch < vec_len plant.now.switches }
    requires lengths { length state.now.at ≡ vec_len plant.now.vars }
    ensures { IsHaltedByRows result (valued is_some (work.legal_results (plain_plant plant.now) switch (plain_state state.now))) (λ b. b) }
{
    let taken = &plant.switches[switch as usize];
    let target = &plant.locs[taken.to as usize];
    let inv = invariant_list(alloc, plant.vars.len(), target)?;
    some_results(alloc, plant.vars.len(), &state.at, &taken.jump, &inv)
}

// Whether some piece holds a result.
fn some_results(
    alloc: Global,
    vars: usize,
    point: &Point<Frac>,
    jump: &[Row<Frac>],
    pieces: &[Poly<Frac>],
) -> Result<bool, Halt>
    requires fits { length point.now ≡ vars }
    requires wide { AllWide (vars + vars) jump.now }
    requires same { AllVars vars pieces.now }
    ensures { IsHaltedByRows result (valued is_some (work.results_of vars point.now jump.now (lines_of pieces.now))) (λ b. b) }
{
    for piece in pieces {
        let results = results_in(alloc, vars, point, jump, piece)?;
        if results.is_some() {
            return Ok(true);
        }
    }
    Ok(false)
}
