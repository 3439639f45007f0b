// One flow in the place of two.
ghost use Rattle.std.specs.Prelude.{◌≡◌, IfOk};
ghost use Rattle.lhg_math.specs.Number.{add};
ghost use Rattle.lhg_num.specs.FracArithmetic.{frac_arithmetic};
ghost use Rattle.lhg_num.specs.Halting.{IsWideBy};
ghost use Rattle.lhg_num.specs.Marked.{marked_add};
ghost use Rattle.lhg_plant.specs.Legal.{LegalFlow};
ghost use Rattle.lhg_plant.specs.State.{moved_to};
ghost use Rattle.lhg_plant.specs.Views.{plain_plant, plain_state};

use lhg_motion::laws::law_flows;
use lhg_num::{Frac, Scalar, Wide};
use lhg_plant::{Plant, State};
use lhg_row::Point;

/// The time of the flow from `a` to `c`, where there are legal flows from `a` to `b` in the time `s`, and on to `c` in the time `t`: their sum.
/// It answers `Wide` only where the sum does not fit. No memory is taken.
pub fn join_flow(
    plant: &Plant,
    a: &State,
    s: &Frac,
    b: &Point<Frac>,
    t: &Frac,
    c: &Point<Frac>,
) -> Result<Frac, Wide>
    requires first { LegalFlow (plain_plant plant.now) (plain_state a.now) s.now b.now }
    requires second { LegalFlow (plain_plant plant.now) (moved_to (plain_state a.now) b.now) t.now c.now }
    ensures sum { IsWideBy result (marked_add frac_arithmetic s.now t.now) (λ r. r) }
    ensures legal { IfOk result (λ r. LegalFlow (plain_plant plant.now) (plain_state a.now) r c.now) }
{
    law_flows();
    s.add(t)
}
