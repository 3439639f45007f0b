// What is known of the pieces of records by their type.
ghost use Rattle.std.specs.Prelude.{ℕ};
ghost use Rattle.lhg_math.specs.Tests.{AllOf};
ghost use Rattle.lhg_loss.specs.Views.{plain_cause, plain_loss, plain_losses, CauseVars, LossVars, AllHaveVars};
ghost use Rattle.lhg_loss.specs.ExplainFacts.{IsWideCause, IsWideLoss};

use lhg_loss::{Cause, Loss};

/// A call on a piece tells its invariant. This one tells those of all records: that their rows have as many coefficients as there are variables.
pub(crate) fn tell_losses(losses: &[Loss])
    ensures { (n : ℕ) → AllHaveVars n losses.now → AllOf (IsWideLoss n) (plain_losses losses.now) }
{
    for loss in losses {
        tell_loss(loss);
    }
}

// The same of one record.
fn tell_loss(loss: &Loss)
    ensures { (n : ℕ) → LossVars n loss.now → IsWideLoss n (plain_loss loss.now) }
{
    let _ = loss.piece.rows();
    tell_cause(&loss.cause);
}

// The same of the pieces that a cause names.
fn tell_cause(cause: &Cause)
    ensures { (n : ℕ) → CauseVars n cause.now → IsWideCause n (plain_cause cause.now) }
{
    match cause {
        Cause::Env { into, .. } => {
            let _ = into.rows();
        }
        Cause::Leave { through, into } => {
            let _ = through.rows();
            let _ = into.rows();
        }
        Cause::Flow { through, .. } => {
            let _ = through.rows();
        }
    }
}
