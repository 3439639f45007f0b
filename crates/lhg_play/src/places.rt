// The point at a place of a segment.
ghost use Rattle.std.specs.Prelude.{◌≡◌, length, IfOk};
ghost use Rattle.lhg_num.specs.Halting.{IsWideBy, IsHaltedByWide};
ghost use Rattle.lhg_motion.specs.Segment.{along};
ghost use Rattle.lhg_play.specs.Cut as calculus;

use lhg_num::{Frac, Halt, Scalar, Wide};
use lhg_row::Point;
use std::alloc::Global;

/// The point at a place of the segment, where 0 is its start and 1 its end: the start, and to it the place times the difference of
/// the ends. It halts for `Wide` only where fractions refuse an operation of the calculus of this call, and for `Memory`.
pub fn point_at(
    alloc: Global,
    from: &Point<Frac>,
    to: &Point<Frac>,
    place: &Frac,
) -> Result<Point<Frac>, Halt>
    requires { length from.now ≡ length to.now }
    ensures calculus { IsHaltedByWide result (calculus.point_at from.now to.now place.now) (λ p. p) }
    ensures exact { IfOk result (λ p. p ≡ along from.now to.now place.now) }
{
    Ok(Point {
        at: coordinates(alloc, &from.at, &to.at, place)?,
    })
}

// Its coordinates.
fn coordinates(alloc: Global, from: &[Frac], to: &[Frac], place: &Frac) -> Result<Vec<Frac>, Halt>
    requires { length from.now ≡ length to.now }
    ensures { IsHaltedByWide result (calculus.point_at from.now to.now place.now) (λ v. v.items) }
{
    let mut out = Vec::with_capacity(alloc, from.len())?;
    for i in 0..from.len() {
        let coordinate = coordinate_at(place, &from[i], &to[i])?;
        out.push(coordinate)?;
    }
    Ok(out)
}

// The coordinate at the place.
fn coordinate_at(place: &Frac, from: &Frac, to: &Frac) -> Result<Frac, Wide>
    ensures { IsWideBy result (calculus.coordinate_at place.now from.now to.now) (λ c. c) }
{
    let change = to.sub(from)?;
    let part = place.mul(&change)?;
    from.add(&part)
}
