// The first record that holds a state.
ghost use Rattle.std.specs.Prelude.{◌≡◌, length, IfOk, IfSome};
ghost use Rattle.lhg_num.specs.Halting.{IsWideBy};
ghost use Rattle.lhg_loss.specs.Holding.{IsFirstHolding};
ghost use Rattle.lhg_loss.specs.Holding as calculus;
ghost use Rattle.lhg_loss.specs.Views.{plain_losses, AreOver};
ghost use Rattle.lhg_plant.specs.Views.{plain_state};

use crate::losses::Loss;
use lhg_num::Wide;
use lhg_plant::State;

/// The number of the first record whose location and piece hold the state, whose point has one coordinate per variable of the pieces. It answers `Wide` only
/// where whether a row of a piece of that location holds at the point is so answered.
pub fn first_holding(losses: &[Loss], state: &State) -> Result<Option<u32>, Wide>
    requires { AreOver (length state.now.at) losses.now }
    ensures calculus { IsWideBy result (calculus.holding (plain_state state.now) (plain_losses losses.now)) (λ o. o) }
    ensures exact { IfOk result (IsFirstHolding (plain_state state.now) (plain_losses losses.now)) }
{
    for loss in losses {
        if loss.loc == state.loc {
            let here = loss.piece.has(&state.at)?;
            if here {
                return Ok(Some(loss.number));
            }
        }
    }
    Ok(None)
}
