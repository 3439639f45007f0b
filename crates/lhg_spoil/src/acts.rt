// What the plant answers to a switch of the controller.
ghost use Rattle.std.specs.Prelude.{◌≡◌, ◌↔◌, ◌<◌, ◌-◌, ◌∷◌, ◌++◌, [], false, true, length, slice_get, vec_len, IsTrue, IsSome, IsSomeAnd};
ghost use Rattle.lhg_math.specs.Number.{lt, nought, unit};
ghost use Rattle.lhg_num.specs.FracArithmetic.{frac_arithmetic};
ghost use Rattle.lhg_num.specs.Halting.{IsHaltedByMemory};
ghost use Rattle.lhg_num.specs.Marked.{done};
ghost use Rattle.lhg_plant.specs.declared.plants.Side.TheVariants.{Ctl};
ghost use Rattle.lhg_plant.specs.Escape.{MayPass};
ghost use Rattle.lhg_plant.specs.Legal.{LegalSwitch, HasSide};
ghost use Rattle.lhg_plant.specs.LegalTruths.{legal_switch_truth};
ghost use Rattle.lhg_plant.specs.OutBack.{Back};
ghost use Rattle.lhg_plant.specs.Round.{InRound};
ghost use Rattle.lhg_plant.specs.SpoilSteps.{acted, landed_at, preempted};
ghost use Rattle.lhg_plant.specs.State.{IsState};
ghost use Rattle.lhg_plant.specs.Views.{plain_plant, plain_state};
ghost use Rattle.lhg_loss.specs.StageFacts.{AreCounted};
ghost use Rattle.lhg_loss.specs.Views.{plain_losses, AllHaveVars};
ghost use Rattle.lhg_play.specs.Views.{plain_moves, plain_escape, plain_spoil_steps};
ghost use Rattle.lhg_plant.specs.Choice.{result_at};
ghost use Rattle.lhg_spoil.specs.Exchange.{stands_at, again_at, AnswersAt, IsResultBy};
ghost use Rattle.lhg_spoil.specs.Facing.{IsFaced};
ghost use Rattle.lhg_spoil.specs.Fibres as calculus;
ghost use Rattle.lhg_spoil.specs.Known.{AreKnown};
ghost use Rattle.lhg_spoil.specs.Moves.{acts, MayTake};
ghost use Rattle.lhg_spoil.specs.Replies.{IsAnsweredBy, IsFirstFibreIn, IsReply, IsPlaced};
ghost use Rattle.lhg_spoil.specs.Views.{plain_answer};
ghost use Rattle.lhg_spoil.specs.Work as work;

use crate::answers::{Again, Answer};
use crate::copies::{copy_named, copy_point, state_at};
use crate::fibres::{fibre, has_result};
use crate::holding::rank_within;
use crate::plays::{run_upto, state_on};
use lhg_loss::Loss;
use lhg_num::{Frac, Halt, Scalar};
use lhg_plant::{Plant, Side, State, is_uncontrollable, legal_switch};
use lhg_play::{Escape, SpoilStep};
use lhg_row::Point;
use std::alloc::Global;
use std::cmp::Ordering;

/// The answer to a switch at a place of a flow of the escape's play, flows counted from 1, with a named result or without one, and none where this is not legal.
pub(crate) fn acted(
    alloc: Global,
    plant: &Plant,
    losses: &[Loss],
    escape: &Escape,
    flow: u32,
    place: &Frac,
    switch: u32,
    to: &Option<Point<Frac>>,
) -> Result<Option<Answer>, Halt>
    requires counted { AreCounted (plain_losses losses.now) }
    requires vars { AllHaveVars (length plant.now.vars.items) losses.now }
    requires round { 0 < escape.now.round }
    requires faced { IsFaced (plain_plant plant.now) (plain_losses losses.now) (escape.now.round - 1) (plain_state escape.now.play.start) (plain_escape escape.now).way }
    ensures { IsAnsweredBy result (IsReply (plain_plant plant.now) (plain_losses losses.now) (escape.now.round - 1) (plain_state escape.now.play.start) (plain_escape escape.now).way (acts flow place.now switch to.now)) (work.IsActWork (plain_plant plant.now) (plain_losses losses.now) (escape.now.round - 1) (plain_state escape.now.play.start) (plain_moves escape.now.play.moves.items) flow place.now switch to.now) }
{
    if !is_placed(plant, escape, flow, place, switch) {
        return Ok(None);
    }
    let k = flow as usize - 1;
    let state = state_on(alloc, &escape.play, k, place)?;
    let taken = may_take(alloc, plant, switch, &state, to)?;
    if !taken {
        return Ok(None);
    }
    let steps = run_upto(alloc, &escape.play, k, place, &state.at)?;
    let answer = answer_at(
        alloc,
        plant,
        losses,
        escape.round - 1,
        steps,
        state,
        switch,
        to,
    )?;
    Ok(Some(answer))
}

// Whether the place is one of the play, before the end of its flow, and the switch is there and leaves the location.
fn is_placed(plant: &Plant, escape: &Escape, flow: u32, place: &Frac, switch: u32) -> bool
    ensures { IsTrue result ↔ IsPlaced (plain_plant plant.now) (plain_state escape.now.play.start) (plain_moves escape.now.play.moves.items) flow place.now switch }
{
    if flow == 0 || flow as usize > escape.play.moves.len() {
        return false;
    }
    if !is_before_end(place) {
        return false;
    }
    let e = switch as usize;
    e < plant.switches.len() && plant.switches[e].from == escape.play.start.loc
}

// Whether the number is from 0 to below 1.
fn is_before_end(place: &Frac) -> bool
    ensures { IsTrue result ↔ ((lt place.now nought ≡ false) × (lt place.now unit ≡ true)) }
{
    !is_below_0(place) && is_below_1(place)
}

// Whether the number is below 0.
fn is_below_0(number: &Frac) -> bool
    ensures { result ≡ lt number.now nought }
{
    number.sign() == Ordering::Less
}

// Whether the number is below 1.
fn is_below_1(number: &Frac) -> bool
    ensures { result ≡ lt number.now unit }
{
    number.numer() < number.denom()
}

// Whether the controller may take the switch, which leaves the location of the state.
fn may_take(
    alloc: Global,
    plant: &Plant,
    switch: u32,
    state: &State,
    to: &Option<Point<Frac>>,
) -> Result<bool, Halt>
    requires there { switch < vec_len plant.now.switches }
    requires state { IsState (plain_plant plant.now) (plain_state state.now) }
    requires leaves { IsSomeAnd (slice_get (plain_plant plant.now).switches switch) (λ w. w.from ≡ state.now.loc) }
    ensures { IsAnsweredBy result (λ b. IsTrue b ↔ IsSomeAnd (slice_get (plain_plant plant.now).switches switch) (λ w. MayTake w.side (plain_plant plant.now) switch (plain_state state.now) to.now)) (work.IsTakeWork (plain_plant plant.now) switch (plain_state state.now) to.now) }
{
    match plant.switches[switch as usize].side {
        Side::Env => Ok(false),
        Side::Ctl => match to {
            Some(_) => Ok(false),
            None => has_result(alloc, plant, switch, state),
        },
        Side::Pick => match to {
            Some(at) => leads_to(plant, switch, state, at),
            None => Ok(false),
        },
    }
}

// Whether the switch leads legally from the state to the point.
fn leads_to(plant: &Plant, switch: u32, state: &State, at: &Point<Frac>) -> Result<bool, Halt>
    requires there { switch < vec_len plant.now.switches }
    requires state { IsState (plain_plant plant.now) (plain_state state.now) }
    ensures { IsAnsweredBy result (λ b. IsTrue b ↔ LegalSwitch (plain_plant plant.now) switch (plain_state state.now) (result_at (plain_plant plant.now) switch at.now)) (λ m. m ≡ work.only (legal_switch_truth frac_arithmetic (plain_plant plant.now) switch (plain_state state.now) at.now)) }
{
    if at.at.len() != plant.vars.len() {
        return Ok(false);
    }
    let legal = legal_switch(plant, switch, state, at)?;
    Ok(legal)
}

// The answer to a switch that may be taken at the state, to which these steps lead.
fn answer_at(
    alloc: Global,
    plant: &Plant,
    losses: &[Loss],
    j: u32,
    steps: Vec<SpoilStep>,
    state: State,
    switch: u32,
    to: &Option<Point<Frac>>,
) -> Result<Answer, Halt>
    requires there { switch < vec_len plant.now.switches }
    requires state { IsState (plain_plant plant.now) (plain_state state) }
    requires counted { AreCounted (plain_losses losses.now) }
    requires vars { AllHaveVars (length plant.now.vars.items) losses.now }
    requires known { AreKnown (plain_plant plant.now) (plain_losses losses.now) j }
    requires pass { MayPass (plain_plant plant.now) (InRound (plain_plant plant.now) j) (Back (plain_plant plant.now) (InRound (plain_plant plant.now) j)) (plain_state state) }
    requires takes { IsSomeAnd (slice_get (plain_plant plant.now).switches switch) (λ w. MayTake w.side (plain_plant plant.now) switch (plain_state state) to.now) }
    ensures { IsAnsweredBy result (λ r. AnswersAt (plain_plant plant.now) (plain_losses losses.now) j (plain_state state) (plain_spoil_steps steps.items) switch to.now (plain_answer r).0 (plain_answer r).1) (work.IsSettleWork (plain_plant plant.now) (plain_losses losses.now) j (plain_state state)) }
{
    let past = rank_within(plant, losses, j, &state)?;
    if let Some(rank) = past {
        return comes_past(alloc, rank, steps, state, switch, to);
    }
    let first = first_fibre(alloc, plant, losses, j, &state)?;
    if let Some((number, at)) = first {
        return goes_first(alloc, plant, steps, number, &at);
    }
    let at = result_of(alloc, plant, losses, j, &state, switch, to)?;
    switches(alloc, plant, steps, switch, &at)
}

// The play ends at the state, which has this rank; the switch is answered again where the rank is not 0.
fn comes_past(
    alloc: Global,
    rank: u32,
    steps: Vec<SpoilStep>,
    state: State,
    switch: u32,
    to: &Option<Point<Frac>>,
) -> Result<Answer, Halt>
    ensures { IsHaltedByMemory result (done (plain_spoil_steps steps.items, record { state = plain_state state; again = again_at rank switch to.now })) plain_answer }
{
    let again = if rank == 0 {
        None
    } else {
        let to = copy_named(alloc, to)?;
        Some(Again { switch, to })
    };
    Ok(Answer {
        steps,
        state,
        again,
    })
}

// The plant takes the switch, with this result.
fn goes_first(
    alloc: Global,
    plant: &Plant,
    mut steps: Vec<SpoilStep>,
    number: u32,
    at: &Point<Frac>,
) -> Result<Answer, Halt>
    requires there { number < vec_len plant.now.switches }
    ensures { IsHaltedByMemory result (done (plain_spoil_steps steps.items ++ (preempted number (result_at (plain_plant plant.now) number at.now) ∷ []), stands_at (result_at (plain_plant plant.now) number at.now))) plain_answer }
{
    let loc = plant.switches[number as usize].to;
    steps.push(SpoilStep::Env {
        number,
        to: state_at(alloc, loc, at)?,
    })?;
    let state = state_at(alloc, loc, at)?;
    Ok(Answer {
        steps,
        state,
        again: None,
    })
}

// The controller takes the switch, with this result.
fn switches(
    alloc: Global,
    plant: &Plant,
    mut steps: Vec<SpoilStep>,
    switch: u32,
    at: &Point<Frac>,
) -> Result<Answer, Halt>
    requires there { switch < vec_len plant.now.switches }
    ensures { IsHaltedByMemory result (done (plain_spoil_steps steps.items ++ (acted switch ∷ landed_at (result_at (plain_plant plant.now) switch at.now) ∷ []), stands_at (result_at (plain_plant plant.now) switch at.now))) plain_answer }
{
    let loc = plant.switches[switch as usize].to;
    steps.push(SpoilStep::Act { switch })?;
    steps.push(SpoilStep::Land(state_at(alloc, loc, at)?))?;
    let state = state_at(alloc, loc, at)?;
    Ok(Answer {
        steps,
        state,
        again: None,
    })
}

// The first uncontrollable switch with a fibre at the state past round j, with the fibres' result.
fn first_fibre(
    alloc: Global,
    plant: &Plant,
    losses: &[Loss],
    j: u32,
    state: &State,
) -> Result<Option<(u32, Point<Frac>)>, Halt>
    requires lengths { length state.now.at ≡ vec_len plant.now.vars }
    requires vars { AllHaveVars (length plant.now.vars.items) losses.now }
    ensures { IsAnsweredBy result (IsFirstFibreIn (plain_plant plant.now) (plain_losses losses.now) j (plain_state state.now)) (work.IsFibreWork (plain_plant plant.now) (plain_losses losses.now) j (plain_state state.now)) }
{
    for e in 0..plant.switches.len() {
        if is_uncontrollable(plant, e as u32) {
            let found = fibre(alloc, plant, losses, j, e as u32, state)?;
            if let Some(at) = found {
                return Ok(Some((e as u32, at)));
            }
        }
    }
    Ok(None)
}

// The result of the controller's switch: that of the fibres where the plant picks it, and else the named one.
fn result_of(
    alloc: Global,
    plant: &Plant,
    losses: &[Loss],
    j: u32,
    state: &State,
    switch: u32,
    to: &Option<Point<Frac>>,
) -> Result<Point<Frac>, Halt>
    requires there { switch < vec_len plant.now.switches }
    requires lengths { length state.now.at ≡ vec_len plant.now.vars }
    requires vars { AllHaveVars (length plant.now.vars.items) losses.now }
    requires takes { IsSomeAnd (slice_get (plain_plant plant.now).switches switch) (λ w. MayTake w.side (plain_plant plant.now) switch (plain_state state.now) to.now) }
    requires picks { HasSide (plain_plant plant.now) switch Ctl → IsSome (calculus.fibre (plain_plant plant.now) (plain_losses losses.now) j switch (plain_state state.now)).value }
    ensures { IsAnsweredBy result (λ at. IsSomeAnd (slice_get (plain_plant plant.now).switches switch) (λ w. IsResultBy w.side (plain_plant plant.now) (plain_losses losses.now) j switch (plain_state state.now) to.now at)) (work.IsFibreWork (plain_plant plant.now) (plain_losses losses.now) j (plain_state state.now)) }
{
    match to {
        Some(at) => copy_point(alloc, at),
        None => fibre_there(alloc, plant, losses, j, state, switch),
    }
}

// The result of the fibres of the switch, of which there is one.
fn fibre_there(
    alloc: Global,
    plant: &Plant,
    losses: &[Loss],
    j: u32,
    state: &State,
    switch: u32,
) -> Result<Point<Frac>, Halt>
    requires there { switch < vec_len plant.now.switches }
    requires lengths { length state.now.at ≡ vec_len plant.now.vars }
    requires vars { AllHaveVars (length plant.now.vars.items) losses.now }
    requires some { IsSome (calculus.fibre (plain_plant plant.now) (plain_losses losses.now) j switch (plain_state state.now)).value }
    ensures { IsAnsweredBy result (λ at. (calculus.fibre (plain_plant plant.now) (plain_losses losses.now) j switch (plain_state state.now)).value ≡ Some at) (work.IsFibreWork (plain_plant plant.now) (plain_losses losses.now) j (plain_state state.now)) }
{
    let found = fibre(alloc, plant, losses, j, switch, state)?;
    match found {
        Some(at) => Ok(at),
        None => unreachable!(),
    }
}
