// One move from a point: a straight flow, or a switch.
ghost use Rattle.std.specs.Prelude.{◌≡◌, ◌<◌, ◌+◌, length, IfOk};
ghost use Rattle.lhg_num.specs.Halting.{IsHaltedByRows};
ghost use Rattle.lhg_row.specs.Width.{AllWide};
ghost use Rattle.lhg_motion.specs.Crossing.{HasCrossing};
ghost use Rattle.lhg_play.specs.Views.{plain_move};
ghost use Rattle.lhg_loss.specs.Explanation as calculus;
ghost use Rattle.lhg_loss.specs.Results.{HasResult};

use crate::samples::sample_of;
use lhg_cross::cross_rows;
use lhg_num::{Frac, Halt};
use lhg_play::Move;
use lhg_row::{Point, Row, append_rows, put_in_each};
use std::alloc::Global;

/// The flow from the point x of a piece, through another, to a third, all over the variables of x: the sample of all such flows, of which there is one.
pub(crate) fn flow_from(
    alloc: Global,
    x: &Point<Frac>,
    start: &[Row<Frac>],
    through: &[Row<Frac>],
    into: &[Row<Frac>],
    flow: &[Row<Frac>],
) -> Result<Move, Halt>
    requires small { length x.now + length x.now < usize.MAX }
    requires start { AllWide (length x.now) start.now }
    requires through { AllWide (length x.now) through.now }
    requires into { AllWide (length x.now) into.now }
    requires flow { AllWide (length x.now) flow.now }
    requires crosses { HasCrossing start.now through.now into.now flow.now x.now }
    ensures { IsHaltedByRows result (calculus.flow_from (length x.now) flow.now x.now start.now through.now into.now) plain_move }
{
    let n = x.at.len();
    let rows = cross_rows(alloc, n, start, through, into, flow)?;
    let left = put_in_each(alloc, &rows, x)?;
    let values = sample_of(alloc, n + 1, left)?;
    Ok(move_at(n, values))
}

// The flow whose end has these values, of which the last is its time.
fn move_at(n: usize, values: Point<Frac>) -> Move
    requires { length values ≡ n + 1 }
    ensures { plain_move result ≡ calculus.move_at n values }
{
    let mut to = values.at;
    let time = to[n];
    to.truncate(n);
    Move {
        time,
        to: Point { at: to },
    }
}

/// The result in a piece of the jump rows from the point x: the sample of all such results, of which there is one.
pub(crate) fn result_from(
    alloc: Global,
    x: &Point<Frac>,
    jump: &[Row<Frac>],
    into: &[Row<Frac>],
) -> Result<Point<Frac>, Halt>
    requires jump { AllWide (length x.now + length x.now) jump.now }
    requires into { AllWide (length x.now) into.now }
    requires result { HasResult (length x.now) jump.now x.now into.now }
    ensures { IsHaltedByRows result (calculus.result_from (length x.now) jump.now x.now into.now) (λ y. y) }
{
    let mut rows = put_in_each(alloc, jump, x)?;
    append_rows(alloc, &mut rows, into)?;
    sample_of(alloc, x.at.len(), rows)
}
