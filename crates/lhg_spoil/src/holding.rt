// Which rank has a state?
ghost use Rattle.std.specs.Prelude.{◌≡◌, true, length, IfOk, IfErr};
ghost use Rattle.lhg_plant.specs.State.{IsState};
ghost use Rattle.lhg_plant.specs.Views.{plain_plant, plain_state};
ghost use Rattle.lhg_loss.specs.Holding.{holding};
ghost use Rattle.lhg_loss.specs.StageFacts.{AreCounted};
ghost use Rattle.lhg_loss.specs.Views.{plain_losses, AllHaveVars, AreOver};
ghost use Rattle.lhg_spoil.specs.Known.{AreKnown};
ghost use Rattle.lhg_spoil.specs.Replies.{IsRankWithin, IsRoundOfFirst, IsWideHold, upto_of};

use lhg_loss::{Loss, first_holding};
use lhg_num::Wide;
use lhg_plant::{Plant, State, is_safe};

/// The rank of the state, where it lies outside round j: 0 where it is unsafe, and else the round of the first record that holds it. It answers `Wide` only where whether a
/// row of a safe line or of a piece of a record of its location holds at the state is so answered.
pub(crate) fn rank_within(
    plant: &Plant,
    losses: &[Loss],
    j: u32,
    state: &State,
) -> Result<Option<u32>, Wide>
    requires state { IsState (plain_plant plant.now) (plain_state state.now) }
    requires counted { AreCounted (plain_losses losses.now) }
    requires vars { AllHaveVars (length plant.now.vars.items) losses.now }
    requires known { AreKnown (plain_plant plant.now) (plain_losses losses.now) j }
    ensures rank { IfOk result (IsRankWithin (plain_plant plant.now) j (plain_state state.now)) }
    ensures wide { IfErr result (λ _. IsWideHold (plain_plant plant.now) (plain_losses losses.now) (plain_state state.now)) }
{
    let safe = is_safe(plant, state)?;
    if !safe {
        return Ok(Some(0));
    }
    let round = held_round(losses, state)?;
    Ok(up_to(round, j))
}

/// The round of the first record that holds the state. It answers `Wide` only where whether a row of a piece of a record of its location holds at the state is so answered.
pub(crate) fn held_round(losses: &[Loss], state: &State) -> Result<Option<u32>, Wide>
    requires counted { AreCounted (plain_losses losses.now) }
    requires over { AreOver (length state.now.at) losses.now }
    ensures round { IfOk result (IsRoundOfFirst (plain_state state.now) (plain_losses losses.now)) }
    ensures wide { IfErr result (λ _. (holding (plain_state state.now) (plain_losses losses.now)).wide ≡ true) }
{
    let first = first_holding(losses, state)?;
    match first {
        Some(number) => Ok(Some(losses[number as usize - 1].round)),
        None => Ok(None),
    }
}

// The round, where it is at most the other.
fn up_to(round: Option<u32>, j: u32) -> Option<u32>
    ensures { result ≡ upto_of j round }
{
    match round {
        Some(round) => { if j < round { None } else { Some(round) } }
        None => None,
    }
}
