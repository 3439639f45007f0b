// The tighter of two bounds on one variable.
ghost use Rattle.std.specs.Prelude.{◌≡◌};
ghost use Rattle.lhg_num.specs.Halting.{IsWideBy};
ghost use Rattle.lhg_row.specs.Sample as calculus;
ghost use Rattle.lhg_sample.specs.Sides.{tighter_from};
ghost use Rattle.lhg_simplex.specs.BoundView.{plain_bound, plain_bounds};

use lhg_num::{Scalar, Wide};
use lhg_simplex::Bound;
use std::cmp::Ordering;

/// The side from which a variable is bounded.
#[derive(Clone, Copy, Debug, PartialEq, Eq)]
pub(crate) enum Side {
    /// From below.
    Lower,
    /// From above.
    Upper,
}

/// The tighter of the bound kept so far and the next one of its side, where there is one kept.
pub(crate) fn tighten(side: Side, kept: Option<Bound>, next: Bound) -> Result<Option<Bound>, Wide>
    ensures { IsWideBy result (calculus.tighten (tighter_from side) (plain_bounds kept) (plain_bound next)) plain_bounds }
{
    match kept {
        None => Ok(Some(next)),
        Some(kept) => {
            let order = kept.at.cmp(&next.at)?;
            Ok(Some(tighter(side, kept, next, order)))
        }
    }
}

// The tighter of two bounds, by the order of the first against the second.
fn tighter(side: Side, kept: Bound, next: Bound, order: Ordering) -> Bound
    ensures { plain_bound result ≡ tighter_from side (plain_bound kept) (plain_bound next) order }
{
    match (side, order) {
        (_, Ordering::Equal) => Bound {
            at: kept.at,
            strict: kept.strict || next.strict,
        },
        (Side::Lower, Ordering::Less) => next,
        (Side::Lower, Ordering::Greater) => kept,
        (Side::Upper, Ordering::Less) => kept,
        (Side::Upper, Ordering::Greater) => next,
    }
}
