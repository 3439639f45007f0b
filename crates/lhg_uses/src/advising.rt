// What a controller may do at a state.
ghost use Rattle.std.specs.Prelude.{◌≡◌, ◌<◌, ◌↔◌, length, IfOk, IfErr, IsTrue};
ghost use Rattle.lhg_math.specs.Tests.{AllOf};
ghost use Rattle.lhg_num.specs.FracArithmetic.{frac_arithmetic};
ghost use Rattle.lhg_num.specs.Halting.{IsWideBy};
ghost use Rattle.lhg_row.specs.Truths.{some_truth};
ghost use Rattle.lhg_union.specs.PolyLists.{lines_of, AllVars};
ghost use Rattle.lhg_union.specs.Regions.{plain_region};
ghost use Rattle.lhg_plant.specs.Controller.{IsValid};
ghost use Rattle.lhg_plant.specs.Region.{InGuard};
ghost use Rattle.lhg_plant.specs.State.{IsState};
ghost use Rattle.lhg_plant.specs.Views.{plain_plant, plain_state};
ghost use Rattle.lhg_ctl.specs.Conditions.{IsControllerOf};
ghost use Rattle.lhg_ctl.specs.Views.{plain_controller};
ghost use Rattle.lhg_run.specs.Answers.{IsAnswered};
ghost use Rattle.lhg_uses.specs.Advice.{IsAdvice, KeepsSafe};
ghost use Rattle.lhg_uses.specs.Allowed.{AreAllowed, AreWideGuards, IsUntold};

use lhg_ctl::Controller;
use lhg_num::{Frac, Halt, Wide};
use lhg_plant::{Plant, State, in_invariant};
use lhg_poly::Poly;
use lhg_row::Point;
use std::alloc::Global;

/// What a controller may do at a state.
#[derive(Drop)]
pub struct Advice {
    /// Whether the state is in the region.
    pub inside: bool,
    /// The switches that may be taken now: places in the plant's list, in its order.
    pub allowed: Vec<u32>,
}

/// What the controller may do at the state: whether the region holds it, and which switches may be taken now. A program that controls a
/// plant calls this at each sample.
///
/// The state has a location of the plant and one coordinate per variable. Where its point is not in the invariant it is no state of the
/// plant: then it is not inside, and no switch is allowed. The advice of a valid controller may be followed; outside its region nothing is
/// promised.
///
/// It halts for `Wide` only where whether a row of the invariant, of the region or of a guard of the location holds at the point forms too
/// wide a number, and for `Memory`.
pub fn advise(
    alloc: Global,
    plant: &Plant,
    controller: &Controller,
    state: &State,
) -> Result<Advice, Halt>
    requires controller { IsControllerOf (plain_plant plant.now) controller.now }
    requires there { state.now.loc < length plant.now.locs.items }
    requires lengths { length state.now.at ≡ length plant.now.vars.items }
    ensures advice { IsAnswered result (IsAdvice (plain_plant plant.now) (plain_controller controller.now) (plain_state state.now)) (IsUntold (plain_plant plant.now) (plain_controller controller.now) (plain_state state.now)) ⊥ }
    ensures keeps { IsValid (plain_plant plant.now) (plain_controller controller.now) → IfOk result (KeepsSafe (plain_plant plant.now) (plain_controller controller.now) (plain_state state.now)) }
{
    let is_state = in_invariant(plant, state)?;
    if !is_state {
        return Ok(Advice {
            inside: false,
            allowed: Vec::new(alloc),
        });
    }
    let inside = controller.region.contains(state.loc, &state.at)?;
    let allowed = allowed_at(alloc, plant, &controller.guards, state)?;
    Ok(Advice { inside, allowed })
}

// The switches from the location whose guards hold at the state, in the plant's order.
fn allowed_at(
    alloc: Global,
    plant: &Plant,
    guards: &[Vec<Poly<Frac>>],
    state: &State,
) -> Result<Vec<u32>, Halt>
    requires many { length guards.now ≡ length plant.now.switches.items }
    requires vars { AllOf (λ ps. AllVars (length plant.now.vars.items) ps.items) guards.now }
    requires state { IsState (plain_plant plant.now) (plain_state state.now) }
    ensures { IsAnswered result (λ v. AreAllowed (plain_plant plant.now) (plain_region guards.now) (plain_state state.now) (length plant.now.switches.items) v.items) (AreWideGuards (plain_plant plant.now) (plain_region guards.now) (plain_state state.now)) ⊥ }
{
    let mut allowed = Vec::new(alloc);
    for e in 0..plant.switches.len() {
        let here = has_guard(plant, guards, state, e)?;
        if here {
            allowed.push(e as u32)?;
        }
    }
    Ok(allowed)
}

// Whether the switch leaves the location, and its guard holds at the state.
fn has_guard(
    plant: &Plant,
    guards: &[Vec<Poly<Frac>>],
    state: &State,
    e: usize,
) -> Result<bool, Wide>
    requires there { e < length plant.now.switches.items }
    requires many { length guards.now ≡ length plant.now.switches.items }
    requires vars { AllOf (λ ps. AllVars (length plant.now.vars.items) ps.items) guards.now }
    requires state { IsState (plain_plant plant.now) (plain_state state.now) }
    ensures exact { IfOk result (λ b. IsTrue b ↔ InGuard (plain_plant plant.now) (plain_region guards.now) e (plain_state state.now)) }
    ensures wide { IfErr result (λ _. AreWideGuards (plain_plant plant.now) (plain_region guards.now) (plain_state state.now)) }
{
    let switch = &plant.switches[e];
    if switch.from != state.loc {
        return Ok(false);
    }
    some_has(&guards[e], &state.at)
}

// Whether the point is in some piece of the list.
fn some_has(pieces: &[Poly<Frac>], at: &Point<Frac>) -> Result<bool, Wide>
    requires { AllVars (length at.now) pieces.now }
    ensures { IsWideBy result (some_truth frac_arithmetic (lines_of pieces.now) at.now) (λ b. b) }
{
    for piece in pieces {
        let here = piece.has(at)?;
        if here {
            return Ok(true);
        }
    }
    Ok(false)
}
