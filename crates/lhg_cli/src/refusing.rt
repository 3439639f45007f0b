// What answers an input that a reader refuses?
ghost use Rattle.std.specs.Prelude.{◌≡◌, IfOk};
ghost use Rattle.lhg_cli.specs.Refusal.{TellsStop};

use crate::Status;
use crate::answers::bad_line;
use crate::solving::Answer;
use lhg_lex::ReadStop;
use std::alloc::{AllocError, Global};

/// The answer to an input at which a reader stops.
pub fn refused(alloc: Global, stop: ReadStop) -> Result<Answer, AllocError>
    ensures status { IfOk result (λ a. a.status ≡ Status.Text) }
    ensures text { IfOk result (λ a. TellsStop stop a.text.items) }
{
    match stop {
        ReadStop::Bad { line, what, .. } => {
            let text = bad_line(alloc, line, what)?;
            Ok(Answer {
                status: Status::Text,
                text,
            })
        }
        ReadStop::Memory => Err(AllocError),
    }
}
