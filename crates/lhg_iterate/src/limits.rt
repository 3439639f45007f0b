// The limits on loss records.
ghost use Rattle.std.specs.Prelude.{◌≡◌, ◌+◌, ◌<◌, ◌-◌, ◌≤◌, ◌^◌, ◌||◌, length, not, nat_lt, SomeIff};
ghost use Rattle.lhg_loss.specs.Records as calculus;
ghost use Rattle.lhg_loss.specs.Views.{plain_cause, plain_losses};

use lhg_loss::{Cause, Loss};

/// How many records there may be over all rounds.
pub const RECORD_LIMIT: usize = 16384;

/// How many rows they may have in all: in their pieces and in those that their causes name.
pub const RECORD_ROW_LIMIT: usize = 262144;

/// Whether the records, numbered from `first` on, are within both limits, the number of the last one and their rows.
pub(crate) fn are_within(first: u32, losses: &[Loss]) -> bool
    requires { length losses.now < 2 ^ 32 }
    ensures { result ≡ not (nat_lt (calculus.record_limit + 1) (first + length losses.now) || nat_lt calculus.record_row_limit (calculus.loss_rows (plain_losses losses.now))) }
{
    first as usize + losses.len() <= RECORD_LIMIT + 1
        && rows_left(losses, RECORD_ROW_LIMIT).is_some()
}

/// How many rows are left of the most that there may be, where the records have no more.
pub(crate) fn rows_left(losses: &[Loss], most: usize) -> Option<usize>
    ensures { SomeIff result (calculus.loss_rows (plain_losses losses.now) ≤ most) (most - calculus.loss_rows (plain_losses losses.now)) }
{
    let mut left = most;
    for loss in losses {
        left = left_after(loss, left)?;
    }
    Some(left)
}

// How many rows are left after those of a record, where it has no more.
fn left_after(loss: &Loss, most: usize) -> Option<usize>
    ensures { SomeIff result (length loss.now.piece.lines + calculus.cause_rows (plain_cause loss.now.cause) ≤ most) (most - (length loss.now.piece.lines + calculus.cause_rows (plain_cause loss.now.cause))) }
{
    let left = most.checked_sub(loss.piece.rows().len())?;
    left_after_cause(&loss.cause, left)
}

// The same of the pieces that a cause names.
fn left_after_cause(cause: &Cause, most: usize) -> Option<usize>
    ensures { SomeIff result (calculus.cause_rows (plain_cause cause.now) ≤ most) (most - calculus.cause_rows (plain_cause cause.now)) }
{
    match cause {
        Cause::Env { into, .. } => most.checked_sub(into.rows().len()),
        Cause::Leave { through, into } => {
            let left = most.checked_sub(through.rows().len())?;
            left.checked_sub(into.rows().len())
        }
        Cause::Flow { through, .. } => most.checked_sub(through.rows().len()),
    }
}
