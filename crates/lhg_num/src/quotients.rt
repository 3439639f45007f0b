// The quotient by a number that is known to differ from 0.
ghost use Rattle.std.specs.Prelude.{◌≡◌, false};
ghost use Rattle.lhg_math.specs.Signs.{is_nought};
ghost use Rattle.lhg_num.specs.Halting.{IsWideBy};
ghost use Rattle.lhg_num.specs.Marked.{marked_div};

use crate::fraction::Frac;
use crate::refusals::{DivError, Wide};

/// The quotient by a number that is not 0. It answers `Wide` exactly where the division refuses its operands.
pub fn divided(x: &Frac, y: &Frac) -> Result<Frac, Wide>
    requires { is_nought y.now ≡ false }
    ensures { IsWideBy result (marked_div x.now y.now) (λ q. q) }
{
    match x.div(y) {
        Ok(quotient) => Ok(quotient),
        Err(DivError::Wide) => Err(Wide),
        Err(DivError::Zero) => unreachable!(),
    }
}
