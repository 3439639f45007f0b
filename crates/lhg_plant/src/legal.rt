// Which points are states, and which moves are legal?
ghost use Rattle.std.specs.Prelude.{◌≡◌, ◌<◌, ◌↔◌, length, vec_len, IsTrue, IfOk};
ghost use Rattle.lhg_math.specs.Number.{lt, nought};
ghost use Rattle.lhg_num.specs.FracArithmetic.{frac_arithmetic};
ghost use Rattle.lhg_num.specs.Halting.{IsWideBy};
ghost use Rattle.lhg_plant.specs.Proper.{IsLocation, IsSwitch};
ghost use Rattle.lhg_plant.specs.State.{IsState};
ghost use Rattle.lhg_plant.specs.declared.plants.Side.TheVariants.{Env};
ghost use Rattle.lhg_plant.specs.Legal.{LegalFlow, LegalSwitchTo, HasSide};
ghost use Rattle.lhg_plant.specs.LegalTruths.{state_truth, flow_truth, legal_flow_truth, switch_truth, legal_switch_truth};
ghost use Rattle.lhg_plant.specs.Views.{plain_location, plain_switch, plain_plant, plain_state};

use crate::flow_rows::all_let;
use crate::jump_rows::all_hold_across;
use crate::plants::{Location, Plant, Side, Switch};
use crate::states::State;
use lhg_num::{Frac, Scalar, Wide};
use lhg_row::{Point, all_hold};
use std::cmp::Ordering;

// Whether the point is in the invariant of the location at a place of the plant's list.
fn is_inside(plant: &Plant, loc: u32, at: &Point<Frac>) -> Result<bool, Wide>
    requires there { loc < vec_len plant.now.locs }
    requires lengths { length at.now ≡ vec_len plant.now.vars }
    ensures { IsWideBy result (state_truth frac_arithmetic (plain_plant plant.now) (record { loc = loc; at = at.now })) (λ b. b) }
{
    let location = &plant.locs[loc as usize];
    all_hold(&location.inv, at)
}

/// Whether the state is one of the plant: its point is in the invariant of its location. It answers `Wide` only where
/// whether a row of the invariant holds at the point is so answered.
pub fn in_invariant(plant: &Plant, state: &State) -> Result<bool, Wide>
    requires there { state.now.loc < vec_len plant.now.locs }
    requires lengths { length state.now.at ≡ vec_len plant.now.vars }
    ensures calculus { IsWideBy result (state_truth frac_arithmetic (plain_plant plant.now) (plain_state state.now)) (λ b. b) }
    ensures exact { IfOk result (λ b. IsTrue b ↔ IsState (plain_plant plant.now) (plain_state state.now)) }
{
    is_inside(plant, state.loc, &state.at)
}

#[tactic(auto, using(crate::proofs::LegalSteps::greater_sign))]
fn is_above_0(time: &Frac) -> bool
    ensures { result ≡ lt nought time.now }
{
    time.sign() == Ordering::Greater
}

// Whether the flow between the points is legal in the location.
fn flows(
    location: &Location,
    from: &Point<Frac>,
    time: &Frac,
    to: &Point<Frac>,
) -> Result<bool, Wide>
    requires location { IsLocation (length from.now) (plain_location location.now) }
    requires lengths { length from.now ≡ length to.now }
    ensures { IsWideBy result (flow_truth frac_arithmetic (plain_location location.now) from.now time.now to.now) (λ b. b) }
{
    if !is_above_0(time) {
        return Ok(false);
    }
    if !all_hold(&location.inv, from)? {
        return Ok(false);
    }
    if !all_hold(&location.inv, to)? {
        return Ok(false);
    }
    all_let(&location.flow, from, time, to)
}

/// Whether the flow from the state to the point in the time is legal. It answers `Wide` only where the time is above 0 and
/// a number is too large in the value of a row of the invariant at an end, in that of a flow row on the differences of the
/// ends, or in a comparison of these.
pub fn legal_flow(plant: &Plant, from: &State, time: &Frac, to: &Point<Frac>) -> Result<bool, Wide>
    requires there { from.now.loc < vec_len plant.now.locs }
    requires start { length from.now.at ≡ vec_len plant.now.vars }
    requires end { length to.now ≡ vec_len plant.now.vars }
    ensures calculus { IsWideBy result (legal_flow_truth frac_arithmetic (plain_plant plant.now) (plain_state from.now) time.now to.now) (λ b. b) }
    ensures exact { IfOk result (λ b. IsTrue b ↔ LegalFlow (plain_plant plant.now) (plain_state from.now) time.now to.now) }
{
    let location = &plant.locs[from.loc as usize];
    flows(location, &from.at, time, to)
}

// Whether the switch leaves the location of the state, and leads from the state to the point.
fn leads(plant: &Plant, switch: &Switch, from: &State, to: &Point<Frac>) -> Result<bool, Wide>
    requires switch { IsSwitch (vec_len plant.now.vars) (vec_len plant.now.locs) (plain_switch switch.now) }
    requires there { from.now.loc < vec_len plant.now.locs }
    requires start { length from.now.at ≡ vec_len plant.now.vars }
    requires end { length to.now ≡ vec_len plant.now.vars }
    ensures { IsWideBy result (switch_truth frac_arithmetic (plain_plant plant.now) (plain_switch switch.now) (plain_state from.now) to.now) (λ b. b) }
{
    if switch.from != from.loc {
        return Ok(false);
    }
    if !is_inside(plant, from.loc, &from.at)? {
        return Ok(false);
    }
    if !is_inside(plant, switch.to, to)? {
        return Ok(false);
    }
    all_hold_across(&switch.jump, &from.at, to)
}

/// Whether the switch is there and is the plant's.
pub fn is_uncontrollable(plant: &Plant, switch: u32) -> bool
    ensures { IsTrue result ↔ HasSide (plain_plant plant.now) switch Env }
{
    let e = switch as usize;
    if e >= plant.switches.len() {
        return false;
    }
    plant.switches[e].side == Side::Env
}

/// Whether the switch leaves the location of the state, and leads from the state to the point legally. It answers `Wide`
/// only where it leaves that location and whether a row of the two invariants or of the switch holds is so answered.
pub fn legal_switch(
    plant: &Plant,
    switch: u32,
    from: &State,
    to: &Point<Frac>,
) -> Result<bool, Wide>
    requires switch { switch < vec_len plant.now.switches }
    requires there { from.now.loc < vec_len plant.now.locs }
    requires start { length from.now.at ≡ vec_len plant.now.vars }
    requires end { length to.now ≡ vec_len plant.now.vars }
    ensures calculus { IsWideBy result (legal_switch_truth frac_arithmetic (plain_plant plant.now) switch (plain_state from.now) to.now) (λ b. b) }
    ensures exact { IfOk result (λ b. IsTrue b ↔ LegalSwitchTo (plain_plant plant.now) switch (plain_state from.now) to.now) }
{
    let taken = &plant.switches[switch as usize];
    leads(plant, taken, from, to)
}

#[cfg(test)]
mod tests;
