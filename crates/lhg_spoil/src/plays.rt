// The steps of a play, and the state at a place of it.
ghost use Rattle.std.specs.Prelude.{◌≡◌, ◌<◌, ◌++◌, length, IfOk};
ghost use Rattle.lhg_math.specs.Number.{lt, nought};
ghost use Rattle.lhg_math.specs.Tests.{AllOf};
ghost use Rattle.lhg_num.specs.Halting.{IsHaltedByMemory, IsHaltedByWide};
ghost use Rattle.lhg_num.specs.FracArithmetic.{frac_arithmetic};
ghost use Rattle.lhg_num.specs.Marked.{done, valued, marked_mul};
ghost use Rattle.lhg_motion.specs.Play.{last_point, point_of};
ghost use Rattle.lhg_plant.specs.State.{moved_to};
ghost use Rattle.lhg_plant.specs.Views.{plain_state};
ghost use Rattle.lhg_play.specs.Views.{plain_moves, plain_last, plain_spoil_steps};
ghost use Rattle.lhg_spoil.specs.Exchange as exchange;
ghost use Rattle.lhg_spoil.specs.Exchange.{part_steps};
ghost use Rattle.lhg_spoil.specs.Views.{plain_answer};
ghost use Rattle.lhg_spoil.specs.Work.{place_point, place_time};

use crate::answers::Answer;
use crate::copies::{copy_point, copy_state, state_at};
use lhg_num::{Frac, Halt, Scalar};
use lhg_plant::State;
use lhg_play::{Escape, Move, Play, SpoilStep, point_at};
use lhg_row::Point;
use std::alloc::Global;
use std::cmp::Ordering;

/// What a wait comes to: the whole play, and then its last switch, where there is one.
pub(crate) fn waited(alloc: Global, escape: &Escape) -> Result<Answer, Halt>
    ensures { IsHaltedByMemory result (done (exchange.waited (plain_state escape.now.play.start) (plain_moves escape.now.play.moves.items) (plain_last escape.now.last))) plain_answer }
{
    let play = &escape.play;
    let mut steps = whole(alloc, &play.moves)?;
    match &escape.last {
        Some((number, to)) => {
            steps.push(SpoilStep::Env {
                number: *number,
                to: copy_state(alloc, to)?,
            })?;
            let state = copy_state(alloc, to)?;
            Ok(Answer {
                steps,
                state,
                again: None,
            })
        }
        None => {
            let state = state_at(alloc, play.start.loc, end_of(&play.start.at, &play.moves))?;
            Ok(Answer {
                steps,
                state,
                again: None,
            })
        }
    }
}

// The steps of these flows.
fn whole(alloc: Global, moves: &[Move]) -> Result<Vec<SpoilStep>, Halt>
    ensures { IsHaltedByMemory result (done (exchange.run_whole (plain_moves moves.now))) (λ v. plain_spoil_steps v.items) }
{
    let mut steps = Vec::with_capacity(alloc, moves.len())?;
    for step in moves {
        let to = copy_point(alloc, &step.to)?;
        steps.push(SpoilStep::Flow {
            time: step.time,
            to,
        })?;
    }
    Ok(steps)
}

// The end of the last flow, and the start where there is none.
fn end_of<'a>(x: &'a Point<Frac>, moves: &'a [Move]) -> &'a Point<Frac>
    ensures { result.now ≡ last_point x.now (plain_moves moves.now) }
{
    match moves.last() {
        Some(step) => &step.to,
        None => x,
    }
}

/// The state at a place of the flow k of the play, flows counted from 0.
pub(crate) fn state_on(alloc: Global, play: &Play, k: usize, place: &Frac) -> Result<State, Halt>
    requires flow { k < length play.now.moves.items }
    requires ends { AllOf (λ m. length m.to ≡ length play.now.start.at) (plain_moves play.now.moves.items) }
    ensures calculus { IsHaltedByWide result (valued (λ at. record { loc = play.now.start.loc; at = at }) (place_point play.now.start.at (plain_moves play.now.moves.items) k place.now)) plain_state }
    ensures exact { IfOk result (λ s. plain_state s ≡ moved_to (plain_state play.now.start) (point_of play.now.start.at (plain_moves play.now.moves.items) k place.now)) }
{
    let from = end_of(&play.start.at, &play.moves[..k]);
    let at = point_at(alloc, from, &play.moves[k].to, place)?;
    Ok(State {
        loc: play.start.loc,
        at,
    })
}

/// The steps of the play as far as a place of the flow k, flows counted from 0, at which it is at this point.
pub(crate) fn run_upto(
    alloc: Global,
    play: &Play,
    k: usize,
    place: &Frac,
    at: &Point<Frac>,
) -> Result<Vec<SpoilStep>, Halt>
    requires flow { k < length play.now.moves.items }
    requires point { at.now ≡ point_of play.now.start.at (plain_moves play.now.moves.items) k place.now }
    ensures { IsHaltedByWide result (valued (λ _. exchange.run_upto play.now.start.at (plain_moves play.now.moves.items) k place.now) (place_time (plain_moves play.now.moves.items) k place.now)) (λ v. plain_spoil_steps v.items) }
{
    let steps = whole(alloc, &play.moves[..k])?;
    run_part(alloc, steps, &play.moves[k], place, at)
}

// The steps, and then the flow as far as the place, at which it is at this point; at the place 0 there is no step of it.
fn run_part(
    alloc: Global,
    mut steps: Vec<SpoilStep>,
    flow: &Move,
    place: &Frac,
    at: &Point<Frac>,
) -> Result<Vec<SpoilStep>, Halt>
    ensures { IsHaltedByWide result (valued (λ _. plain_spoil_steps steps.items ++ part_steps place.now flow.now.time at.now) (marked_mul frac_arithmetic place.now flow.now.time)) (λ v. plain_spoil_steps v.items) }
{
    if !is_above_0(place) {
        return Ok(steps);
    }
    let time = time_to(flow, place)?;
    let to = copy_point(alloc, at)?;
    steps.push(SpoilStep::Flow { time, to })?;
    Ok(steps)
}

// The time of the flow as far as the place.
fn time_to(flow: &Move, place: &Frac) -> Result<Frac, Halt>
    ensures { IsHaltedByWide result (marked_mul frac_arithmetic place.now flow.now.time) (λ t. t) }
{
    let time = place.mul(&flow.time)?;
    Ok(time)
}

/// Whether the number is above 0.
#[tactic(auto, using(lhg_plant::proofs::LegalSteps::greater_sign))]
pub(crate) fn is_above_0(number: &Frac) -> bool
    ensures { result ≡ lt nought number.now }
{
    number.sign() == Ordering::Greater
}
