// The states from which the controller keeps a region.
ghost use Rattle.std.specs.Prelude.{◌+◌, ◌≤◌, length, IfOk};
ghost use Rattle.lhg_num.specs.FracArithmetic.{frac_arithmetic};
ghost use Rattle.lhg_num.specs.Marked.{and_then};
ghost use Rattle.lhg_num.specs.Halting.{IsHaltedBy};
ghost use Rattle.lhg_row.specs.Width.{AllWide};
ghost use Rattle.lhg_row.specs.Lists as differences;
ghost use Rattle.lhg_plant.specs.BackCalculus as calculus;
ghost use Rattle.lhg_plant.specs.Laws.{HasExactGuards};
ghost use Rattle.lhg_plant.specs.Limits.{most_variables};
ghost use Rattle.lhg_plant.specs.Pre.{pre_list};
ghost use Rattle.lhg_plant.specs.Proper.{IsSwitch};
ghost use Rattle.lhg_plant.specs.SwitchFacts.{IsOutside, AreBacks};
ghost use Rattle.lhg_plant.specs.Views.{plain_plant, plain_switch};
ghost use Rattle.lhg_union.specs.PolyLists.{lines_of, AllVars};
ghost use Rattle.lhg_union.specs.Regions.{plain_region};
ghost use Rattle.lhg_jump.specs.PlantLists.{AreListsOf, IsRegionOf, AreGuardsOf, AreInvariantsOf, AreAwayOf};

use crate::invariant_lists::invariants;
use crate::outs::away_of;
use crate::predecessors::pre_list;
use lhg_num::{Frac, Halt};
use lhg_plant::{Plant, Side, Switch};
use lhg_poly::Poly;
use lhg_union::{Region, meet_lists, minus, tell_lists};
use std::alloc::Global;

/// For each switch the states that it keeps in the region, where `away` is the states outside it: for side `ctl` those with a legal
/// result all of whose legal results are outside `away`, for side `pick` those with a legal result in the region; none for side `env`.
/// It halts for `Wide` only where fractions refuse an operation of the calculus of this call,
/// for `Rows` and `Pieces` only where it has a list past `ROW_LIMIT`, `PIECE_LIMIT` or `LIST_ROW_LIMIT`, and for `Memory`.
pub fn back(
    alloc: Global,
    plant: &Plant,
    region: &Region<Frac>,
    away: &Region<Frac>,
) -> Result<Vec<Vec<Poly<Frac>>>, Halt>
    requires region { IsRegionOf plant.now region.now.pieces.items }
    requires away { AreListsOf plant.now away.now.pieces.items }
    requires outside { IsOutside (plain_plant plant.now) (plain_region region.now.pieces.items) (plain_region away.now.pieces.items) }
    ensures calculus { IsHaltedBy result (calculus.back (plain_plant plant.now) (plain_region region.now.pieces.items) (plain_region away.now.pieces.items)) (λ v. plain_region v.items) }
    ensures lists { IfOk result (λ v. AreGuardsOf plant.now v.items) }
    ensures points { IfOk result (λ v. AreBacks (plain_plant plant.now) (plain_region region.now.pieces.items) (plain_region v.items)) }
{
    tell_lists(&region.pieces);
    tell_lists(&away.pieces);
    let invs = invariants(alloc, plant)?;
    let mut backs = Vec::with_capacity(alloc, plant.switches.len())?;
    for switch in &plant.switches {
        let kept = back_by(alloc, plant, switch, &invs, &region.pieces, &away.pieces)?;
        backs.push(kept)?;
    }
    Ok(backs)
}

/// For each switch the states of the region from which `back` gives that it stays there; none for an uncontrollable switch.
/// It halts for `Wide` only where fractions refuse an operation of the calculus of this call,
/// for `Rows` and `Pieces` only where it has a list past `ROW_LIMIT`, `PIECE_LIMIT` or `LIST_ROW_LIMIT`, and for `Memory`.
pub fn guards(
    alloc: Global,
    plant: &Plant,
    region: &Region<Frac>,
) -> Result<Vec<Vec<Poly<Frac>>>, Halt>
    requires { IsRegionOf plant.now region.now.pieces.items }
    ensures calculus { IsHaltedBy result (calculus.guards (plain_plant plant.now) (plain_region region.now.pieces.items)) (λ v. plain_region v.items) }
    ensures lists { IfOk result (λ v. AreGuardsOf plant.now v.items) }
    ensures points { IfOk result (λ v. HasExactGuards (plain_plant plant.now) (record { region = plain_region region.now.pieces.items; guards = plain_region v.items })) }
{
    let invs = invariants(alloc, plant)?;
    let away = away_of(alloc, plant, &invs, &region.pieces)?;
    guards_with(alloc, plant, &invs, &away, region)
}

/// The same, where the invariants and the states outside the region are there.
pub fn guards_with(
    alloc: Global,
    plant: &Plant,
    invs: &[Vec<Poly<Frac>>],
    away: &[Vec<Poly<Frac>>],
    region: &Region<Frac>,
) -> Result<Vec<Vec<Poly<Frac>>>, Halt>
    requires invs { AreInvariantsOf plant.now invs.now }
    requires away { AreAwayOf plant.now region.now.pieces.items away.now }
    requires region { IsRegionOf plant.now region.now.pieces.items }
    ensures calculus { IsHaltedBy result (calculus.guards (plain_plant plant.now) (plain_region region.now.pieces.items)) (λ v. plain_region v.items) }
    ensures lists { IfOk result (λ v. AreGuardsOf plant.now v.items) }
    ensures points { IfOk result (λ v. HasExactGuards (plain_plant plant.now) (record { region = plain_region region.now.pieces.items; guards = plain_region v.items })) }
{
    tell_lists(&region.pieces);
    let mut guards = Vec::with_capacity(alloc, plant.switches.len())?;
    for switch in &plant.switches {
        let guard = guard_by(alloc, plant, switch, invs, &region.pieces, away)?;
        guards.push(guard)?;
    }
    Ok(guards)
}

// The states of the region from which the switch leads back.
fn guard_by(
    alloc: Global,
    plant: &Plant,
    switch: &Switch,
    invs: &[Vec<Poly<Frac>>],
    region: &[Vec<Poly<Frac>>],
    away: &[Vec<Poly<Frac>>],
) -> Result<Vec<Poly<Frac>>, Halt>
    requires switch { IsSwitch (length plant.now.vars.items) (length plant.now.locs.items) (plain_switch switch.now) }
    requires invs { AreListsOf plant.now invs.now }
    requires region { AreListsOf plant.now region.now }
    requires away { AreListsOf plant.now away.now }
    ensures calculus { IsHaltedBy result (calculus.guard_by (length plant.now.vars.items) (plain_region invs.now) (plain_region region.now) (plain_region away.now) (plain_switch switch.now)) (λ v. lines_of v.items) }
    ensures vars { IfOk result (λ v. AllVars (length plant.now.vars.items) v.items) }
{
    let kept = back_by(alloc, plant, switch, invs, region, away)?;
    meet_lists(alloc, &kept, &region[switch.from as usize])
}

/// The states that the switch keeps in the region, where it is controllable. The lists are those of all locations: the invariants,
/// the region, and the states outside it. It halts as `back` does.
pub fn back_by(
    alloc: Global,
    plant: &Plant,
    switch: &Switch,
    invs: &[Vec<Poly<Frac>>],
    region: &[Vec<Poly<Frac>>],
    away: &[Vec<Poly<Frac>>],
) -> Result<Vec<Poly<Frac>>, Halt>
    requires switch { IsSwitch (length plant.now.vars.items) (length plant.now.locs.items) (plain_switch switch.now) }
    requires invs { AreListsOf plant.now invs.now }
    requires region { AreListsOf plant.now region.now }
    requires away { AreListsOf plant.now away.now }
    ensures calculus { IsHaltedBy result (calculus.back_by (length plant.now.vars.items) (plain_region invs.now) (plain_region region.now) (plain_region away.now) (plain_switch switch.now)) (λ v. lines_of v.items) }
    ensures vars { IfOk result (λ v. AllVars (length plant.now.vars.items) v.items) }
{
    let from = &invs[switch.from as usize];
    let to = &invs[switch.to as usize];
    let inside = &region[switch.to as usize];
    let outside = &away[switch.to as usize];
    match switch.side {
        Side::Ctl => kept_by(alloc, plant.vars.len(), switch, from, to, outside),
        Side::Env => Ok(Vec::new(alloc)),
        Side::Pick => pre_list(alloc, plant.vars.len(), from, &switch.jump, inside),
    }
}

// The states with a result of the switch in `to`, none of whose results is in `outside`.
fn kept_by(
    alloc: Global,
    vars: usize,
    switch: &Switch,
    from: &[Poly<Frac>],
    to: &[Poly<Frac>],
    outside: &[Poly<Frac>],
) -> Result<Vec<Poly<Frac>>, Halt>
    requires few { vars ≤ most_variables }
    requires jump { AllWide (vars + vars) switch.now.jump.items }
    requires from { AllVars vars from.now }
    requires to { AllVars vars to.now }
    requires outside { AllVars vars outside.now }
    ensures calculus { IsHaltedBy result (and_then (pre_list vars (lines_of from.now) switch.now.jump.items (lines_of to.now)) (λ all. and_then (pre_list vars (lines_of from.now) switch.now.jump.items (lines_of outside.now)) (differences.minus frac_arithmetic vars all))) (λ v. lines_of v.items) }
    ensures vars { IfOk result (λ v. AllVars vars v.items) }
{
    let all = pre_list(alloc, vars, from, &switch.jump, to)?;
    let lost = pre_list(alloc, vars, from, &switch.jump, outside)?;
    minus(alloc, &all, &lost)
}
