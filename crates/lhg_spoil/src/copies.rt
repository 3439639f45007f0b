// Copies of points and states.
ghost use Rattle.lhg_num.specs.Halting.{IsHaltedByMemory};
ghost use Rattle.lhg_num.specs.Marked.{done};
ghost use Rattle.lhg_plant.specs.Views.{plain_state};

use lhg_num::{Frac, Halt};
use lhg_plant::State;
use lhg_row::Point;
use std::alloc::Global;

/// A copy of the point. It halts for `Memory` alone.
pub(crate) fn copy_point(alloc: Global, point: &Point<Frac>) -> Result<Point<Frac>, Halt>
    ensures { IsHaltedByMemory result (done point.now) (λ p. p) }
{
    Ok(Point {
        at: Vec::from_slice(alloc, &point.at)?,
    })
}

/// A copy of the state. It halts for `Memory` alone.
pub(crate) fn copy_state(alloc: Global, state: &State) -> Result<State, Halt>
    ensures { IsHaltedByMemory result (done (plain_state state.now)) plain_state }
{
    state_at(alloc, state.loc, &state.at)
}

/// The state at a point of a location. It halts for `Memory` alone.
pub(crate) fn state_at(alloc: Global, loc: u32, at: &Point<Frac>) -> Result<State, Halt>
    ensures { IsHaltedByMemory result (done (record { loc = loc; at = at.now })) plain_state }
{
    Ok(State {
        loc,
        at: copy_point(alloc, at)?,
    })
}

/// A copy of a named result, where there is one. It halts for `Memory` alone.
pub(crate) fn copy_named(
    alloc: Global,
    to: &Option<Point<Frac>>,
) -> Result<Option<Point<Frac>>, Halt>
    ensures { IsHaltedByMemory result (done to.now) (λ o. o) }
{
    match to {
        Some(point) => Ok(Some(copy_point(alloc, point)?)),
        None => Ok(None),
    }
}
