// Whether a state is safe: whether some safe line holds there.
ghost use Rattle.std.specs.Prelude.{◌≡◌, ◌↔◌, ◌<◌, length, map, vec_len, IfOk, IsTrue};
ghost use Rattle.lhg_math.specs.Tests.{AllOf};
ghost use Rattle.lhg_num.specs.FracArithmetic.{frac_arithmetic};
ghost use Rattle.lhg_num.specs.Halting.{IsWideBy};
ghost use Rattle.lhg_row.specs.Width.{AllWide};
ghost use Rattle.lhg_row.specs.Truths.{some_truth};
ghost use Rattle.lhg_plant.specs.LegalTruths.{safe_truth};
ghost use Rattle.lhg_plant.specs.State.{IsState, IsSafe};
ghost use Rattle.lhg_plant.specs.Views.{plain_plant, plain_state};

use crate::plants::Plant;
use crate::states::State;
use lhg_num::{Frac, Wide};
use lhg_row::{Point, Row, all_hold};

/// Whether all rows of some safe line hold at the state. It answers `Wide` only where whether one of these rows holds there is so answered.
pub fn is_safe(plant: &Plant, state: &State) -> Result<bool, Wide>
    requires there { state.now.loc < vec_len plant.now.locs }
    requires lengths { length state.now.at ≡ vec_len plant.now.vars }
    ensures calculus { IsWideBy result (safe_truth frac_arithmetic (plain_plant plant.now) (plain_state state.now)) (λ b. b) }
    ensures exact { IsState (plain_plant plant.now) (plain_state state.now) → IfOk result (λ b. IsTrue b ↔ IsSafe (plain_plant plant.now) (plain_state state.now)) }
{
    some_holds(&plant.locs[state.loc as usize].safe, &state.at)
}

// Whether all rows of some line hold at the point.
fn some_holds(lines: &[Vec<Row<Frac>>], at: &Point<Frac>) -> Result<bool, Wide>
    requires { AllOf (λ rows. AllWide (length at.now) rows.items) lines.now }
    ensures { IsWideBy result (some_truth frac_arithmetic (map (λ rows. rows.items) lines.now) at.now) (λ b. b) }
{
    for rows in lines {
        let here = all_hold(rows, at)?;
        if here {
            return Ok(true);
        }
    }
    Ok(false)
}
