// The escape of a state that a record holds.
ghost use Rattle.std.specs.Prelude.{◌≡◌, List, length, Contains, IfOk};
ghost use Rattle.lhg_num.specs.Marked.{done};
ghost use Rattle.lhg_num.specs.Halting.{IsHaltedByMemory, IsHaltedByRows};
ghost use Rattle.lhg_row.specs.Row.{PlainPoint};
ghost use Rattle.lhg_motion.specs.Play.{last_point};
ghost use Rattle.lhg_plant.specs.Loss.{PlainLoss};
ghost use Rattle.lhg_plant.specs.Sound.{IsSoundLoss};
ghost use Rattle.lhg_plant.specs.Views.{plain_plant, plain_state};
ghost use Rattle.lhg_loss.specs.StageFacts.{AreCounted};
ghost use Rattle.lhg_loss.specs.Views.{plain_losses, AllHaveVars};
ghost use Rattle.lhg_play.specs.Views.{plain_moves};
ghost use Rattle.lhg_loss.specs.Explanation as calculus;
ghost use Rattle.lhg_loss.specs.ExplainFacts.{AreRecords, IsHeldBy, state_in};
ghost use Rattle.lhg_plant.specs.Explained.{IsExplained, FitsPlant};
ghost use Rattle.lhg_explain.specs.Views.{plain_way};
ghost use Rattle.lhg_play.specs.Views.{plain_escape};

use crate::following::{Next, next_from};
use crate::laws::law_explain;
use crate::telling::tell_losses;
use lhg_loss::Loss;
use lhg_num::{Frac, Halt};
use lhg_plant::{Plant, State};
use lhg_play::{Escape, Move, Play};
use lhg_row::Point;
use std::alloc::Global;

/// Why the state was lost, by the record with this number, which holds it: an escape of the state from the round before the record's, past its `Back`, and the
/// switch that leaves from its last point, where that is in the round. Each move is the sample of all moves that the record names. The records are numbered from 1 on, sound,
/// and over the plant's variables.
/// It halts for `Wide` only where fractions refuse an operation of the calculus of this call, for `Rows` only where it has a list past `ROW_LIMIT`, and for `Memory`.
pub fn explain(
    alloc: Global,
    plant: &Plant,
    losses: &[Loss],
    number: u32,
    state: &State,
) -> Result<Escape, Halt>
    requires counted { AreCounted (plain_losses losses.now) }
    requires sound { (loss : PlainLoss) → Contains (plain_losses losses.now) loss → IsSoundLoss (plain_plant plant.now) (plain_losses losses.now) loss }
    requires vars { AllHaveVars (length plant.now.vars.items) losses.now }
    requires held { IsHeldBy (plain_plant plant.now) (plain_losses losses.now) number (plain_state state.now) }
    ensures calculus { IsHaltedByRows result (calculus.explanation (plain_plant plant.now) (plain_losses losses.now) number (plain_state state.now)) plain_escape }
    ensures escape { IfOk result (λ e. IsExplained (plain_plant plant.now) (plain_state state.now) (plain_escape e)) }
    ensures fits { IfOk result (λ e. FitsPlant (plain_plant plant.now) (plain_escape e).way) }
{
    law_explain();
    tell_losses(losses);
    let start = copy_state(alloc, state)?;
    let way = way_from(alloc, plant, losses, number, &state.at)?;
    Ok(Escape {
        round: losses[number as usize - 1].round,
        play: Play {
            start,
            moves: way.moves,
        },
        last: way.last,
    })
}

/// The flows of an escape, and the switch that leaves from its last point, where there is one, with its result.
#[derive(Drop)]
pub(crate) struct Way {
    pub(crate) moves: Vec<Move>,
    pub(crate) last: Option<(u32, State)>,
}

// The way from the point x of the record with this number, step by step.
fn way_from(
    alloc: Global,
    plant: &Plant,
    losses: &[Loss],
    number: u32,
    x: &Point<Frac>,
) -> Result<Way, Halt>
    requires records { AreRecords (plain_plant plant.now) (plain_losses losses.now) }
    requires vars { AllHaveVars (length plant.now.vars.items) losses.now }
    requires held { IsHeldBy (plain_plant plant.now) (plain_losses losses.now) number (state_in (plain_losses losses.now) number x.now) }
    ensures { IsHaltedByRows result (calculus.way_within number (plain_plant plant.now) (plain_losses losses.now) (calculus.loss_at (plain_losses losses.now) number) x.now) plain_way }
{
    let mut moves = Vec::new(alloc);
    let mut m = number;
    for i in 0..number {
        let next = next_from(alloc, plant, losses, m, end_of(x, &moves))?;
        match next {
            Next::On(step, further) => {
                moves.push(step)?;
                m = further;
            }
            Next::Out(step) => {
                moves.push(step)?;
                return Ok(Way { moves, last: None });
            }
            Next::By(e, result) => {
                return Ok(Way {
                    moves,
                    last: Some((e, result)),
                });
            }
        }
    }
    unreachable!()
}

// The end of the last flow, and the start where there is none.
fn end_of<'a>(x: &'a Point<Frac>, moves: &'a [Move]) -> &'a Point<Frac>
    ensures { result.now ≡ last_point x.now (plain_moves moves.now) }
{
    match moves.last() {
        Some(step) => &step.to,
        None => x,
    }
}

// A copy of the state.
fn copy_state(alloc: Global, state: &State) -> Result<State, Halt>
    ensures { IsHaltedByMemory result (done (plain_state state.now)) plain_state }
{
    let at = Vec::from_slice(alloc, &state.at.at)?;
    Ok(State {
        loc: state.loc,
        at: Point { at },
    })
}
