// The exchanges from a lost state.
ghost use Rattle.std.specs.Prelude.{◌≡◌, ◌<◌, ◌+◌, ◌^◌, ℕ, true, [], length, IfOk, IfErr, MatchResult};
ghost use Rattle.lhg_plant.specs.Plant.{PlainPlant};
ghost use Rattle.lhg_plant.specs.Rank.{HasRank};
ghost use Rattle.lhg_plant.specs.Views.{plain_plant, plain_state};
ghost use Rattle.lhg_loss.specs.StageFacts.{AreCounted};
ghost use Rattle.lhg_loss.specs.Holding.{holding};
ghost use Rattle.lhg_loss.specs.Views.{plain_losses, AllHaveVars, AreOver};
ghost use Rattle.lhg_spoil.specs.declared.stops.SpoilStop.TheVariants.{Illegal, Memory};
ghost use Rattle.lhg_spoil.specs.Exchange.{stands_at};
ghost use Rattle.lhg_spoil.specs.Standing.{plain_stand};
ghost use Rattle.lhg_spoil.specs.Stops.{IsLostStart, IsSpoiled, IsSpoilStop, stop_of};
ghost use Rattle.lhg_spoil.specs.Telling.{records_upto};
ghost use Rattle.lhg_spoil.specs.Views.{plain_ctl_moves};

use crate::copies::copy_state;
use crate::ctl_moves::CtlMove;
use crate::exchanges::{Stand, Turn, take_turn};
use crate::holding::held_round;
use crate::stops::{SpoilStop, Spoiled};
use crate::tellers::Teller;
use lhg_loss::Loss;
use lhg_num::{Halt, Wide};
use lhg_plant::{Plant, State};
use std::alloc::Global;

/// The exchanges of the moves from a state that was removed in a round up to the teller's last one, over the records of that many rounds; each move is answered in turn, and after
/// the list's end the plant's play runs whole. They end at the first unsafe state, and moves that are left then are not looked at.
/// It is `Illegal` exactly where some move is not legal at its turn, and names the first of these, with the steps before it. A limit comes only where something that is formed in
/// the named exchange is past it.
pub fn spoil<T: Teller>(
    alloc: Global,
    plant: &Plant,
    losses: &[Loss],
    start: &State,
    moves: &[CtlMove],
    teller: &T,
) -> Result<Spoiled, SpoilStop>
    requires same { T.game teller.now ≡ plain_plant plant.now }
    requires knows { T.knows teller.now }
    requires sought { plain_losses losses.now ≡ records_upto (plain_plant plant.now) (T.upto teller.now) }
    requires counted { AreCounted (plain_losses losses.now) }
    requires vars { AllHaveVars (length plant.now.vars.items) losses.now }
    requires start { IsLostStart (plain_plant plant.now) (plain_losses losses.now) (T.upto teller.now) (plain_state start.now) }
    requires few { length moves.now < 2 ^ 32 }
    ensures ok { IfOk result (IsSpoiled (plain_plant plant.now) (plain_losses losses.now) (plain_state start.now) (plain_ctl_moves moves.now)) }
    ensures stop { IfErr result (IsSpoilStop (plain_plant plant.now) (plain_losses losses.now) (plain_state start.now) (plain_ctl_moves moves.now)) }
{
    let rounds = match round_of(losses, start) {
        Ok(round) => round,
        Err(_) => return Err(SpoilStop::Wide(1)),
    };
    let mut stand = begun(alloc, start)?;
    for n in 0..rounds {
        match take_turn(alloc, plant, losses, moves, teller, stand) {
            Ok(Turn::On(next)) => stand = next,
            Ok(Turn::Ended(next)) => return Ok(ended(next, n + 1)),
            Ok(Turn::Illegal(next)) => return Err(illegal(next)),
            Err(halt) => return Err(stop_at(n + 1, halt)),
        }
    }
    unreachable!()
}

// The round in which the start was removed.
fn round_of(losses: &[Loss], start: &State) -> Result<u32, Wide>
    requires counted { AreCounted (plain_losses losses.now) }
    requires over { AreOver (length start.now.at) losses.now }
    requires lost { (a : PlainPlant) × (upto : ℕ) × IsLostStart a (plain_losses losses.now) upto (plain_state start.now) }
    ensures rank { (a : PlainPlant) (upto : ℕ) → IsLostStart a (plain_losses losses.now) upto (plain_state start.now) → IfOk result (λ round. HasRank a round (plain_state start.now)) }
    ensures wide { IfErr result (λ _. (holding (plain_state start.now) (plain_losses losses.now)).wide ≡ true) }
{
    let round = held_round(losses, start)?;
    match round {
        Some(round) => Ok(round),
        None => unreachable!(),
    }
}

// The stand at the start.
fn begun(alloc: Global, start: &State) -> Result<Stand, SpoilStop>
    ensures { MatchResult result (λ r. plain_stand r ≡ record { steps = []; place = stands_at (plain_state start.now); answered = 0 }) (λ e. e ≡ Memory) }
{
    match copy_state(alloc, start) {
        Ok(state) => Ok(Stand {
            steps: Vec::new(alloc),
            state,
            again: None,
            answered: 0,
        }),
        Err(_) => Err(SpoilStop::Memory),
    }
}

// The next move of the list is not legal.
fn illegal(stand: Stand) -> SpoilStop
    requires { stand.answered + 1 < 2 ^ 32 }
    ensures { result ≡ Illegal (stand.answered + 1) stand.steps }
{
    SpoilStop::Illegal {
        entry: stand.answered + 1,
        steps: stand.steps,
    }
}

// The exchanges end where they stand.
fn ended(stand: Stand, exchanges: u32) -> Spoiled
    ensures { result ≡ record { steps = stand.steps; last = stand.state; exchanges = exchanges } }
{
    Spoiled {
        steps: stand.steps,
        last: stand.state,
        exchanges,
    }
}

// The halt of an exchange.
fn stop_at(number: u32, halt: Halt) -> SpoilStop
    ensures { result ≡ stop_of halt number }
{
    match halt {
        Halt::Wide => SpoilStop::Wide(number),
        Halt::Rows => SpoilStop::Rows(number),
        Halt::Pieces => SpoilStop::Pieces(number),
        Halt::Memory => SpoilStop::Memory,
    }
}
