// A flow entry.
ghost use Rattle.std.specs.Prelude.{◌≡◌, ◌<◌, ◌++◌, ◌∷◌, [], true, length};
ghost use Rattle.lhg_math.specs.Number.{lt, nought};
ghost use Rattle.lhg_num.specs.FracArithmetic.{frac_arithmetic};
ghost use Rattle.lhg_num.specs.Halting.{IsHaltedByMemory, IsHaltedByWide};
ghost use Rattle.lhg_num.specs.Marked.{done, valued, marked_mul};
ghost use Rattle.lhg_row.specs.Row.{PlainPoint};
ghost use Rattle.lhg_plant.specs.Controller.{IsValid};
ghost use Rattle.lhg_plant.specs.Inside.{IsRegionInside};
ghost use Rattle.lhg_plant.specs.Region.{InRegion};
ghost use Rattle.lhg_plant.specs.Legal.{LegalFlow};
ghost use Rattle.lhg_plant.specs.Pick.{picked_result};
ghost use Rattle.lhg_plant.specs.Run.{resting, flow_entry, flowed, landed};
ghost use Rattle.lhg_plant.specs.Choice.{result_at};
ghost use Rattle.lhg_plant.specs.State.{moved_to};
ghost use Rattle.lhg_plant.specs.Views.{plain_plant, plain_state};
ghost use Rattle.lhg_play.specs.Views.{plain_steps};
ghost use Rattle.lhg_union.specs.Regions.{plain_region};
ghost use Rattle.lhg_ctl.specs.Conditions.{IsControllerOf};
ghost use Rattle.lhg_ctl.specs.Views.{plain_controller};
ghost use Rattle.lhg_run.specs.Answers.{IsAnswered};
ghost use Rattle.lhg_run.specs.Numbers.{IsWideFlow, HasWideStop, HasLongStop};
ghost use Rattle.lhg_run.specs.Seen.{IsWay, IsDone, IsTaken, MayTake, IsPicked, IsStopDone, IsWideStop, IsLongStop, steps_to, plain_done};

use crate::copies::copy_point;
use crate::doing::Done;
use crate::rows::run_rows;
use crate::ways::{Stop, Way, follow};
use lhg_ctl::Controller;
use lhg_num::{Frac, Halt, Scalar};
use lhg_pick::first_result;
use lhg_plant::{Plant, Side, State, legal_flow};
use lhg_play::{Step, cut};
use lhg_row::Point;
use std::alloc::Global;
use std::cmp::Ordering;

/// What a flow entry does at a state of the region with no switch pending, and none where the flow is not legal.
pub(crate) fn flow(
    alloc: Global,
    plant: &Plant,
    controller: &Controller,
    from: &State,
    time: &Frac,
    to: &Point<Frac>,
) -> Result<Option<Done>, Halt>
    requires controller { IsControllerOf (plain_plant plant.now) controller.now }
    requires inside { IsRegionInside (plain_plant plant.now) (plain_region controller.now.region.pieces.items) }
    requires valid { IsValid (plain_plant plant.now) (plain_controller controller.now) }
    requires start { InRegion (plain_plant plant.now) (plain_controller controller.now).region (plain_state from.now) }
    requires end { length to.now ≡ length plant.now.vars.items }
    ensures { IsAnswered result (IsTaken (plain_plant plant.now) (plain_controller controller.now) (resting (plain_state from.now)) (flow_entry time.now to.now)) (IsWideFlow (plain_plant plant.now) (plain_controller controller.now) (plain_state from.now) time.now to.now) (LegalFlow (plain_plant plant.now) (plain_state from.now) time.now to.now × HasLongStop (plain_plant plant.now) (plain_controller controller.now) (plain_state from.now) to.now) }
{
    let legal = legal_flow(plant, from, time, to)?;
    if !legal {
        return Ok(None);
    }
    let rows = run_rows(alloc, plant, controller, from.loc)?;
    let places = cut(alloc, &from.at, to, &rows)?;
    let way = follow(alloc, plant, controller, from, to, &places)?;
    let done = done_by(alloc, plant, controller, from, time, to, way)?;
    Ok(Some(done))
}

// What the flow does that is run so far.
fn done_by(
    alloc: Global,
    plant: &Plant,
    controller: &Controller,
    from: &State,
    time: &Frac,
    to: &Point<Frac>,
    way: Way,
) -> Result<Done, Halt>
    requires controller { IsControllerOf (plain_plant plant.now) controller.now }
    requires inside { IsRegionInside (plain_plant plant.now) (plain_region controller.now.region.pieces.items) }
    requires valid { IsValid (plain_plant plant.now) (plain_controller controller.now) }
    requires way { IsWay (plain_plant plant.now) (plain_controller controller.now) (plain_state from.now) to.now way }
    ensures { IsAnswered result (IsDone (plain_plant plant.now) (plain_controller controller.now) (resting (plain_state from.now)) (flow_entry time.now to.now)) (HasWideStop (plain_plant plant.now) (plain_controller controller.now) (plain_state from.now) time.now to.now) (HasLongStop (plain_plant plant.now) (plain_controller controller.now) (plain_state from.now) to.now) }
{
    match way {
        Way::Whole => passed(alloc, from, time, to),
        Way::Stopped(stop) => stopped(alloc, plant, controller, from, time, stop),
    }
}

// The flow passes whole.
fn passed(alloc: Global, from: &State, time: &Frac, to: &Point<Frac>) -> Result<Done, Halt>
    ensures { IsHaltedByMemory result (done (flowed time.now to.now ∷ [], resting (moved_to (plain_state from.now) to.now))) plain_done }
{
    let mut steps = Vec::with_capacity(alloc, 1)?;
    steps.push(Step::Flow {
        time: *time,
        to: copy_point(alloc, to)?,
    })?;
    Ok(Done {
        steps,
        state: State {
            loc: from.loc,
            at: copy_point(alloc, to)?,
        },
        pending: None,
    })
}

// The controller takes its switch.
fn stopped(
    alloc: Global,
    plant: &Plant,
    controller: &Controller,
    from: &State,
    time: &Frac,
    stop: Stop,
) -> Result<Done, Halt>
    requires controller { IsControllerOf (plain_plant plant.now) controller.now }
    requires there { stop.switch < length plant.now.switches.items }
    requires point { length stop.at ≡ length plant.now.vars.items }
    requires taken { MayTake (plain_plant plant.now) (plain_controller controller.now) (moved_to (plain_state from.now) stop.at) stop.switch }
    ensures { IsAnswered result (IsStopDone (plain_plant plant.now) (plain_controller controller.now) (plain_state from.now) time.now stop) (IsWideStop (plain_plant plant.now) (plain_controller controller.now) (plain_state from.now) time.now stop) (IsLongStop (plain_plant plant.now) (plain_controller controller.now) (plain_state from.now) stop) }
{
    let mut steps = flow_to(alloc, time, &stop)?;
    steps.push(Step::Switch {
        number: stop.switch,
    })?;
    match plant.switches[stop.switch as usize].side {
        Side::Pick => picked(alloc, plant, controller, stop, steps),
        _ => Ok(Done {
            steps,
            state: State {
                loc: from.loc,
                at: stop.at,
            },
            pending: Some(stop.switch),
        }),
    }
}

// The flow as far as the place, where it is not 0.
fn flow_to(alloc: Global, time: &Frac, stop: &Stop) -> Result<Vec<Step>, Halt>
    ensures { IsHaltedByWide result (valued (λ part. steps_to part stop.now) (marked_mul frac_arithmetic stop.now.place time.now)) (λ v. plain_steps v.items) }
{
    let mut steps = Vec::new(alloc);
    if !is_above_0(&stop.place) {
        return Ok(steps);
    }
    let part = stop.place.mul(time)?;
    let to = copy_point(alloc, &stop.at)?;
    steps.push(Step::Flow { time: part, to })?;
    Ok(steps)
}

#[tactic(auto, using(lhg_plant::proofs::LegalSteps::greater_sign))]
fn is_above_0(x: &Frac) -> bool
    ensures { result ≡ lt nought x.now }
{
    x.sign() == Ordering::Greater
}

// The controller gives the result at once.
fn picked(
    alloc: Global,
    plant: &Plant,
    controller: &Controller,
    stop: Stop,
    mut steps: Vec<Step>,
) -> Result<Done, Halt>
    requires controller { IsControllerOf (plain_plant plant.now) controller.now }
    requires there { stop.switch < length plant.now.switches.items }
    requires point { length stop.at ≡ length plant.now.vars.items }
    requires found { (z : PlainPoint) × IsPicked (plain_plant plant.now) (plain_controller controller.now) (record { loc = 0; at = stop.at }) stop.switch z }
    ensures { IsAnswered result (λ d. (z : PlainPoint) × IsPicked (plain_plant plant.now) (plain_controller controller.now) (record { loc = 0; at = stop.at }) stop.switch z × (plain_done d ≡ (plain_steps steps.items ++ landed (result_at (plain_plant plant.now) stop.switch z) ∷ [], resting (result_at (plain_plant plant.now) stop.switch z)))) ((picked_result (plain_plant plant.now) (plain_controller controller.now).region stop.switch (record { loc = 0; at = stop.at })).wide ≡ true) ((picked_result (plain_plant plant.now) (plain_controller controller.now).region stop.switch (record { loc = 0; at = stop.at })).rows ≡ true) }
{
    let switch = &plant.switches[stop.switch as usize];
    let pieces = &controller.region.pieces[switch.to as usize];
    let found = first_result(alloc, plant.vars.len(), &stop.at, &switch.jump, pieces)?;
    let at = found.unwrap();
    let landed = State {
        loc: switch.to,
        at: copy_point(alloc, &at)?,
    };
    steps.push(Step::Land(landed))?;
    Ok(Done {
        steps,
        state: State { loc: switch.to, at },
        pending: None,
    })
}
