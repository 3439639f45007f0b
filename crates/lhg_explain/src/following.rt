// The step that a record tells from one of its states.
ghost use Rattle.std.specs.Prelude.{◌≡◌, ◌<◌, ◌+◌, length, slice_get, vec_len};
ghost use Rattle.lhg_num.specs.Halting.{IsHaltedByRows};
ghost use Rattle.lhg_motion.specs.Crossing.{HasCrossing};
ghost use Rattle.lhg_plant.specs.Views.{plain_plant, plain_state};
ghost use Rattle.lhg_loss.specs.Views.{plain_loss, plain_losses, AllHaveVars};
ghost use Rattle.lhg_play.specs.Views.{plain_move};
ghost use Rattle.lhg_loss.specs.Explanation as calculus;
ghost use Rattle.lhg_loss.specs.ExplainFacts.{AreRecords, IsHeldBy, state_in};
ghost use Rattle.lhg_loss.specs.Results.{HasResultBy};
ghost use Rattle.lhg_explain.specs.Views.{plain_next};

use crate::moves::{flow_from, result_from};
use lhg_loss::{Cause, Loss};
use lhg_num::{Frac, Halt};
use lhg_plant::{Plant, State};
use lhg_play::Move;
use lhg_poly::Poly;
use lhg_row::Point;
use std::alloc::Global;

/// The step from a state of a record.
#[derive(Drop)]
pub(crate) enum Next {
    /// A flow to a state of the record with this number.
    On(Move, u32),
    /// A flow that leaves the round.
    Out(Move),
    /// The switch at this place of the plant's list leaves the round, to this state.
    By(u32, State),
}

/// The step from the point x of the record with the number m, by its cause.
pub(crate) fn next_from(
    alloc: Global,
    plant: &Plant,
    losses: &[Loss],
    m: u32,
    x: &Point<Frac>,
) -> Result<Next, Halt>
    requires records { AreRecords (plain_plant plant.now) (plain_losses losses.now) }
    requires vars { AllHaveVars (length plant.now.vars.items) losses.now }
    requires held { IsHeldBy (plain_plant plant.now) (plain_losses losses.now) m (state_in (plain_losses losses.now) m x.now) }
    ensures { IsHaltedByRows result (calculus.next_by (plain_plant plant.now) (plain_losses losses.now) (calculus.loss_at (plain_losses losses.now) m) x.now (calculus.loss_at (plain_losses losses.now) m).cause) plain_next }
{
    let loss = &losses[m as usize - 1];
    match &loss.cause {
        Cause::Env { switch, into } => {
            let result = switch_by(alloc, plant, *switch, x, into)?;
            Ok(Next::By(*switch, result))
        }
        Cause::Leave { through, into } => {
            let step = flow_by(alloc, plant, loss, x, through, into)?;
            Ok(Next::Out(step))
        }
        Cause::Flow { to, through } => {
            let further = &losses[*to as usize - 1];
            let step = flow_by(alloc, plant, loss, x, through, &further.piece)?;
            Ok(Next::On(step, *to))
        }
    }
}

// The flow from the point x of the record, through the one piece and into the other.
fn flow_by(
    alloc: Global,
    plant: &Plant,
    loss: &Loss,
    x: &Point<Frac>,
    through: &Poly<Frac>,
    into: &Poly<Frac>,
) -> Result<Move, Halt>
    requires there { loss.now.loc < length plant.now.locs.items }
    requires lengths { length x.now ≡ length plant.now.vars.items }
    requires start { loss.now.piece.width ≡ length plant.now.vars.items }
    requires through { through.now.width ≡ length plant.now.vars.items }
    requires into { into.now.width ≡ length plant.now.vars.items }
    requires crosses { HasCrossing loss.now.piece.lines through.now.lines into.now.lines (calculus.flow_rows (slice_get (plain_plant plant.now).locs loss.now.loc)) x.now }
    ensures { IsHaltedByRows result (calculus.flow_by (plain_plant plant.now) (plain_loss loss.now) x.now through.now.lines into.now.lines) plain_move }
{
    let flow = &plant.locs[loss.loc as usize].flow;
    flow_from(
        alloc,
        x,
        loss.piece.rows(),
        through.rows(),
        into.rows(),
        flow,
    )
}

// The state to which the switch leads from the point x, in a piece.
fn switch_by(
    alloc: Global,
    plant: &Plant,
    e: u32,
    x: &Point<Frac>,
    into: &Poly<Frac>,
) -> Result<State, Halt>
    requires there { e < length plant.now.switches.items }
    requires lengths { length x.now ≡ length plant.now.vars.items }
    requires into { into.now.width ≡ length plant.now.vars.items }
    requires result { HasResultBy (slice_get (plain_plant plant.now).switches e) (length x.now) x.now into.now.lines }
    ensures { IsHaltedByRows result (calculus.switch_by (length plant.now.vars.items) e x.now into.now.lines (slice_get (plain_plant plant.now).switches e)) (λ s. calculus.switches e (plain_state s)) }
{
    let switch = &plant.switches[e as usize];
    let at = result_from(alloc, x, &switch.jump, into.rows())?;
    Ok(State { loc: switch.to, at })
}
