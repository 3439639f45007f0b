// The invariant of a location as a piece.
ghost use Rattle.std.specs.Prelude.{◌≡◌, option_map, IfOk, IfSome};
ghost use Rattle.lhg_num.specs.FracArithmetic.{frac_arithmetic};
ghost use Rattle.lhg_num.specs.Halting.{IsHaltedByRows};
ghost use Rattle.lhg_row.specs.Width.{AllWide};
ghost use Rattle.lhg_row.specs.Pieces as calculus;
ghost use Rattle.lhg_plant.specs.Views.{plain_location};

use lhg_num::{Frac, Halt};
use lhg_plant::Location;
use lhg_poly::{Poly, make};
use lhg_row::copy_rows;
use std::alloc::Global;

/// The piece of the invariant's rows over this many variables, where they have a point.
pub(crate) fn invariant(
    alloc: Global,
    vars: usize,
    location: &Location,
) -> Result<Option<Poly<Frac>>, Halt>
    requires { AllWide vars (plain_location location.now).inv }
    ensures calculus { IsHaltedByRows result (calculus.make frac_arithmetic vars (plain_location location.now).inv) (option_map (λ p. p.lines)) }
    ensures vars { IfOk result (λ o. IfSome o (λ p. p.width ≡ vars)) }
{
    let rows = copy_rows(alloc, &location.inv)?;
    make(alloc, vars, rows)
}
