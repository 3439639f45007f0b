// Bounds on one variable, and the value that is chosen between two of them.
ghost use Rattle.std.specs.Prelude.{◌≡◌, ◌||◌, Some, None};
ghost use Rattle.lhg_num.specs.Halting.{IsWideBy};
ghost use Rattle.lhg_row.specs.Sample as calculus;
ghost use Rattle.lhg_row.specs.Values.{fits_order};
ghost use Rattle.lhg_simplex.specs.Boxes.{box_value};
ghost use Rattle.lhg_simplex.specs.BoundView.{plain_bound, plain_bounds};

use lhg_num::{Frac, Scalar, Wide};
use std::cmp::Ordering;

/// A bound on a variable, which may be reached unless it is strict.
#[derive(Clone, Copy, Debug)]
pub struct Bound {
    pub at: Frac,
    pub strict: bool,
}

/// The value that is chosen between two bounds, which leave one. It answers `Wide` only where a number is past the limit that is formed for it.
pub fn chosen(lower: Option<Bound>, upper: Option<Bound>) -> Result<Frac, Wide>
    ensures { IsWideBy result (calculus.chosen (plain_bounds lower) (plain_bounds upper)) (λ x. x) }
{
    match (lower, upper) {
        (None, None) => Ok(Frac::zero()),
        (Some(lower), None) => above(lower),
        (None, Some(upper)) => below(upper),
        (Some(lower), Some(upper)) => between(lower, upper),
    }
}

/// The value between two bounds, and none where they leave no value.
pub(crate) fn value_between(
    lower: Option<Bound>,
    upper: Option<Bound>,
) -> Result<Option<Frac>, Wide>
    ensures { IsWideBy result (box_value (plain_bounds lower) (plain_bounds upper)) (λ x. x) }
{
    match (lower, upper) {
        (None, upper) => Ok(Some(chosen(None, upper)?)),
        (Some(lower), None) => Ok(Some(above(lower)?)),
        (Some(lower), Some(upper)) => within(lower, upper),
    }
}

// The value between a lower and an upper bound, and none where they leave no value.
fn within(lower: Bound, upper: Bound) -> Result<Option<Frac>, Wide>
    ensures { IsWideBy result (box_value (Some (plain_bound lower)) (Some (plain_bound upper))) (λ x. x) }
{
    let order = lower.at.cmp(&upper.at)?;
    if !fits(lower.strict || upper.strict, order) {
        return Ok(None);
    }
    Ok(Some(between(lower, upper)?))
}

// Whether a lower bound in this order against an upper one leaves a value, where one of them is strict or none.
fn fits(strict: bool, order: Ordering) -> bool
    ensures { result ≡ fits_order strict order }
{
    match order {
        Ordering::Less => true,
        Ordering::Equal => !strict,
        Ordering::Greater => false,
    }
}

// The bound, or 1 more where it is strict.
fn above(lower: Bound) -> Result<Frac, Wide>
    ensures { IsWideBy result (calculus.chosen (Some (plain_bound lower)) None) (λ x. x) }
{
    if lower.strict {
        lower.at.add(&Frac::one())
    } else {
        Ok(lower.at)
    }
}

// The bound, or 1 less where it is strict.
fn below(upper: Bound) -> Result<Frac, Wide>
    ensures { IsWideBy result (calculus.chosen None (Some (plain_bound upper))) (λ x. x) }
{
    if upper.strict {
        upper.at.sub(&Frac::one())
    } else {
        Ok(upper.at)
    }
}

// The lower bound, or the upper one where the lower is strict, or the middle where both are.
fn between(lower: Bound, upper: Bound) -> Result<Frac, Wide>
    ensures { IsWideBy result (calculus.chosen (Some (plain_bound lower)) (Some (plain_bound upper))) (λ x. x) }
{
    if !lower.strict {
        return Ok(lower.at);
    }
    if !upper.strict {
        return Ok(upper.at);
    }
    lower.at.mid(&upper.at)
}
