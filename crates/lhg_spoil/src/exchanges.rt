// One exchange: the plant offers its escape, and answers the move that is asked for.
ghost use Rattle.std.specs.Prelude.{◌≡◌, ◌<◌, ◌+◌, ◌-◌, ◌^◌, Some, None, length, slice_get, option_map, IfOk, IfErr};
ghost use Rattle.lhg_math.specs.Number.{nought};
ghost use Rattle.lhg_num.specs.Halting.{IsHaltedByMemory};
ghost use Rattle.lhg_num.specs.Marked.{done};
ghost use Rattle.lhg_plant.specs.Views.{plain_plant, plain_state};
ghost use Rattle.lhg_loss.specs.StageFacts.{AreCounted};
ghost use Rattle.lhg_loss.specs.Views.{plain_losses, AllHaveVars};
ghost use Rattle.lhg_play.specs.Views.{plain_escape, plain_last, plain_moves};
ghost use Rattle.lhg_spoil.specs.declared.tellers.Told.TheVariants.{Lost};
ghost use Rattle.lhg_spoil.specs.Exchange as exchange;
ghost use Rattle.lhg_spoil.specs.Exchange.{asked, asked_again};
ghost use Rattle.lhg_spoil.specs.Facing.{IsFaced};
ghost use Rattle.lhg_spoil.specs.Replies.{IsAnsweredBy, IsReply};
ghost use Rattle.lhg_spoil.specs.Standing.{IsLostUpto, IsStanding, IsStep, IsTurn, IsStandWork, plain_stand, stand_ranked, stand_after, plain_reply, step_after, plain_step_to};
ghost use Rattle.lhg_spoil.specs.Telling.{records_upto, IsTold, IsTellHalt};
ghost use Rattle.lhg_spoil.specs.Views.{plain_again, plain_answer, plain_ctl_move, plain_ctl_moves};
ghost use Rattle.lhg_spoil.specs.Work.{IsMoveWork};

use crate::acts::acted;
use crate::answers::{Again, Answer};
use crate::ctl_moves::CtlMove;
use crate::plays::waited;
use crate::tellers::{Teller, Told};
use lhg_loss::Loss;
use lhg_num::{Frac, Halt, Scalar};
use lhg_plant::{Plant, State, is_safe};
use lhg_play::{Escape, SpoilStep};
use std::alloc::Global;

/// Where exchanges stand: the steps so far, the state, what is answered again, and how many moves of the list are answered.
#[derive(Drop)]
pub(crate) struct Stand {
    pub(crate) steps: Vec<SpoilStep>,
    pub(crate) state: State,
    pub(crate) again: Option<Again>,
    pub(crate) answered: u32,
}

/// What an exchange comes to.
#[derive(Drop)]
pub(crate) enum Step {
    /// The move that is asked for is answered.
    Answered(Stand),
    /// It is not legal.
    Stuck(Stand),
}

/// What a turn comes to.
#[derive(Drop)]
pub(crate) enum Turn {
    /// An exchange that ends at a state that is lost.
    On(Stand),
    /// An exchange that ends at an unsafe state.
    Ended(Stand),
    /// The move that is asked for is not legal.
    Illegal(Stand),
}

/// One more exchange, and whether it ends at an unsafe state.
pub(crate) fn take_turn<T: Teller>(
    alloc: Global,
    plant: &Plant,
    losses: &[Loss],
    moves: &[CtlMove],
    teller: &T,
    stand: Stand,
) -> Result<Turn, Halt>
    requires same { T.game teller.now ≡ plain_plant plant.now }
    requires knows { T.knows teller.now }
    requires sought { plain_losses losses.now ≡ records_upto (plain_plant plant.now) (T.upto teller.now) }
    requires counted { AreCounted (plain_losses losses.now) }
    requires vars { AllHaveVars (length plant.now.vars.items) losses.now }
    requires standing { IsStanding (plain_plant plant.now) (plain_losses losses.now) (T.upto teller.now) stand }
    requires few { stand.answered + 1 < 2 ^ 32 }
    ensures { IsAnsweredBy result (IsTurn (plain_plant plant.now) (plain_losses losses.now) (plain_ctl_moves moves.now) stand) (IsStandWork (plain_plant plant.now) (plain_losses losses.now) (plain_ctl_moves moves.now) stand) }
{
    let step = exchange(alloc, plant, losses, moves, teller, stand)?;
    match step {
        Step::Answered(next) => {
            let safe = is_safe(plant, &next.state)?;
            if safe {
                Ok(Turn::On(next))
            } else {
                Ok(Turn::Ended(next))
            }
        }
        Step::Stuck(next) => Ok(Turn::Illegal(next)),
    }
}

// One more exchange, where the move that is asked for is legal. If it is not, the rank is put behind the steps so far.
fn exchange<T: Teller>(
    alloc: Global,
    plant: &Plant,
    losses: &[Loss],
    moves: &[CtlMove],
    teller: &T,
    stand: Stand,
) -> Result<Step, Halt>
    requires same { T.game teller.now ≡ plain_plant plant.now }
    requires knows { T.knows teller.now }
    requires sought { plain_losses losses.now ≡ records_upto (plain_plant plant.now) (T.upto teller.now) }
    requires counted { AreCounted (plain_losses losses.now) }
    requires vars { AllHaveVars (length plant.now.vars.items) losses.now }
    requires standing { IsStanding (plain_plant plant.now) (plain_losses losses.now) (T.upto teller.now) stand }
    requires few { stand.answered + 1 < 2 ^ 32 }
    ensures { IsAnsweredBy result (IsStep (plain_plant plant.now) (plain_losses losses.now) (plain_ctl_moves moves.now) stand) (IsStandWork (plain_plant plant.now) (plain_losses losses.now) (plain_ctl_moves moves.now) stand) }
{
    let escape = offered(alloc, plant, teller, &stand.state)?;
    let reply = answer(
        alloc,
        plant,
        losses,
        &escape,
        &stand.again,
        moves,
        stand.answered,
    )?;
    replied(stand, escape.round, reply)
}

// The stand after the rank from which an exchange begins and a reply.
fn replied(stand: Stand, round: u32, reply: Option<Answer>) -> Result<Step, Halt>
    requires few { stand.answered + 1 < 2 ^ 32 }
    ensures { IsHaltedByMemory result (done (step_after (plain_stand stand) round (plain_reply reply))) plain_step_to }
{
    let begun = ranked(stand, round)?;
    match reply {
        Some(answer) => {
            let next = go_on(begun, answer)?;
            Ok(Step::Answered(next))
        }
        None => Ok(Step::Stuck(begun)),
    }
}

// The stand with the rank behind its steps.
fn ranked(mut stand: Stand, round: u32) -> Result<Stand, Halt>
    ensures { IsHaltedByMemory result (done (stand_ranked (plain_stand stand) round)) plain_stand }
{
    stand.steps.push(SpoilStep::Round(round))?;
    Ok(stand)
}

// The stand after an answer.
fn go_on(mut stand: Stand, answer: Answer) -> Result<Stand, Halt>
    requires few { stand.answered + 1 < 2 ^ 32 }
    ensures { IsHaltedByMemory result (done (stand_after (plain_stand stand) (plain_answer answer))) plain_stand }
{
    let mut steps = answer.steps;
    stand.steps.append(&mut steps)?;
    if stand.again.is_none() {
        stand.answered += 1;
    }
    stand.state = answer.state;
    stand.again = answer.again;
    Ok(stand)
}

// The escape that the plant offers from a lost state.
fn offered<T: Teller>(
    alloc: Global,
    plant: &Plant,
    teller: &T,
    state: &State,
) -> Result<Escape, Halt>
    requires same { T.game teller.now ≡ plain_plant plant.now }
    requires knows { T.knows teller.now }
    requires lost { IsLostUpto (plain_plant plant.now) (T.upto teller.now) (plain_state state.now) }
    ensures told { IfOk result (λ e. IsTold (plain_plant plant.now) (T.upto teller.now) (plain_state state.now) (Lost e)) }
    ensures halt { IfErr result (IsTellHalt (plain_plant plant.now) (T.upto teller.now) (plain_state state.now)) }
{
    let told = teller.tell(alloc, plant, state)?;
    match told {
        Told::Lost(escape) => Ok(escape),
        Told::Unsafe => unreachable!(),
    }
}

// The answer to the move that is asked for where so many moves of the list are answered, and none where it is not legal.
fn answer(
    alloc: Global,
    plant: &Plant,
    losses: &[Loss],
    escape: &Escape,
    again: &Option<Again>,
    moves: &[CtlMove],
    answered: u32,
) -> Result<Option<Answer>, Halt>
    requires counted { AreCounted (plain_losses losses.now) }
    requires vars { AllHaveVars (length plant.now.vars.items) losses.now }
    requires round { 0 < escape.now.round }
    requires faced { IsFaced (plain_plant plant.now) (plain_losses losses.now) (escape.now.round - 1) (plain_state escape.now.play.start) (plain_escape escape.now).way }
    ensures { IsAnsweredBy result (IsReply (plain_plant plant.now) (plain_losses losses.now) (escape.now.round - 1) (plain_state escape.now.play.start) (plain_escape escape.now).way (asked (plain_again again.now) (slice_get (plain_ctl_moves moves.now) answered) (plain_moves escape.now.play.moves.items))) (IsMoveWork (plain_plant plant.now) (plain_losses losses.now) (escape.now.round - 1) (plain_state escape.now.play.start) (plain_moves escape.now.play.moves.items) (asked (plain_again again.now) (slice_get (plain_ctl_moves moves.now) answered) (plain_moves escape.now.play.moves.items))) }
{
    match again {
        Some(act) => answer_again(alloc, plant, losses, escape, act),
        None => answer_next(alloc, plant, losses, escape, moves, answered),
    }
}

// The answer to a switch that was asked for before.
fn answer_again(
    alloc: Global,
    plant: &Plant,
    losses: &[Loss],
    escape: &Escape,
    act: &Again,
) -> Result<Option<Answer>, Halt>
    requires counted { AreCounted (plain_losses losses.now) }
    requires vars { AllHaveVars (length plant.now.vars.items) losses.now }
    requires round { 0 < escape.now.round }
    requires faced { IsFaced (plain_plant plant.now) (plain_losses losses.now) (escape.now.round - 1) (plain_state escape.now.play.start) (plain_escape escape.now).way }
    ensures { IsAnsweredBy result (IsReply (plain_plant plant.now) (plain_losses losses.now) (escape.now.round - 1) (plain_state escape.now.play.start) (plain_escape escape.now).way (asked_again (plain_moves escape.now.play.moves.items) (act.now.switch, act.now.to))) (IsMoveWork (plain_plant plant.now) (plain_losses losses.now) (escape.now.round - 1) (plain_state escape.now.play.start) (plain_moves escape.now.play.moves.items) (asked_again (plain_moves escape.now.play.moves.items) (act.now.switch, act.now.to))) }
{
    if escape.play.moves.is_empty() {
        wait(alloc, escape)
    } else {
        acted(
            alloc,
            plant,
            losses,
            escape,
            1,
            &Frac::zero(),
            act.switch,
            &act.to,
        )
    }
}

// The answer to the next move of the list, where so many are answered, and to a wait after its end.
fn answer_next(
    alloc: Global,
    plant: &Plant,
    losses: &[Loss],
    escape: &Escape,
    moves: &[CtlMove],
    answered: u32,
) -> Result<Option<Answer>, Halt>
    requires counted { AreCounted (plain_losses losses.now) }
    requires vars { AllHaveVars (length plant.now.vars.items) losses.now }
    requires round { 0 < escape.now.round }
    requires faced { IsFaced (plain_plant plant.now) (plain_losses losses.now) (escape.now.round - 1) (plain_state escape.now.play.start) (plain_escape escape.now).way }
    ensures { IsAnsweredBy result (IsReply (plain_plant plant.now) (plain_losses losses.now) (escape.now.round - 1) (plain_state escape.now.play.start) (plain_escape escape.now).way (asked None (slice_get (plain_ctl_moves moves.now) answered) (plain_moves escape.now.play.moves.items))) (IsMoveWork (plain_plant plant.now) (plain_losses losses.now) (escape.now.round - 1) (plain_state escape.now.play.start) (plain_moves escape.now.play.moves.items) (asked None (slice_get (plain_ctl_moves moves.now) answered) (plain_moves escape.now.play.moves.items))) }
{
    if answered as usize >= moves.len() {
        return wait(alloc, escape);
    }
    answer_move(alloc, plant, losses, escape, &moves[answered as usize])
}

// The answer to a move.
fn answer_move(
    alloc: Global,
    plant: &Plant,
    losses: &[Loss],
    escape: &Escape,
    asked: &CtlMove,
) -> Result<Option<Answer>, Halt>
    requires counted { AreCounted (plain_losses losses.now) }
    requires vars { AllHaveVars (length plant.now.vars.items) losses.now }
    requires round { 0 < escape.now.round }
    requires faced { IsFaced (plain_plant plant.now) (plain_losses losses.now) (escape.now.round - 1) (plain_state escape.now.play.start) (plain_escape escape.now).way }
    ensures { IsAnsweredBy result (IsReply (plain_plant plant.now) (plain_losses losses.now) (escape.now.round - 1) (plain_state escape.now.play.start) (plain_escape escape.now).way (plain_ctl_move asked.now)) (IsMoveWork (plain_plant plant.now) (plain_losses losses.now) (escape.now.round - 1) (plain_state escape.now.play.start) (plain_moves escape.now.play.moves.items) (plain_ctl_move asked.now)) }
{
    match asked {
        CtlMove::Wait => wait(alloc, escape),
        CtlMove::Act {
            flow,
            place,
            switch,
            to,
        } => acted(alloc, plant, losses, escape, *flow, place, *switch, to),
    }
}

// The answer to a wait.
fn wait(alloc: Global, escape: &Escape) -> Result<Option<Answer>, Halt>
    ensures { IsHaltedByMemory result (done (Some (exchange.waited (plain_state escape.now.play.start) (plain_moves escape.now.play.moves.items) (plain_last escape.now.last)))) (option_map plain_answer) }
{
    Ok(Some(waited(alloc, escape)?))
}
