// What answers what is asked for of an input?
ghost use Rattle.std.specs.Prelude.{◌≡◌, ◌≤◌, ◌<◌, length, IfOk, IfErr, ◌⊎◌};
ghost use Rattle.lhg_io.specs.Faults.{Rose};
ghost use Rattle.lhg_cli.specs.Answer.{AnswersBytes, IsAnswerTo, IsReadToEnd};
ghost use Rattle.lhg_cli.specs.Words.{NeedsInput, HasRounds};

use crate::Status;
use crate::answers::too_long;
use crate::checking::checked;
use crate::explaining::explained;
use crate::lazing::lazy_of;
use crate::migrating::migrated;
use crate::reaching::reach_of;
use crate::request::Request;
use crate::running::ran;
use crate::solving::Answer;
use crate::spoiling::spoiled;
use crate::synthesis::synth_of;
use lhg_io::{INPUT_LIMIT, ReadAll, Source, read_all};
use std::alloc::{AllocError, Global};

// The answer to the bytes of an input within the limit.
fn answer_of(alloc: Global, request: Request, bytes: &[u8]) -> Result<Answer, AllocError>
    requires bytes { length bytes.now ≤ INPUT_LIMIT }
    requires input { NeedsInput request }
    requires rounds { HasRounds request }
    ensures { IfOk result (λ a. AnswersBytes request bytes.now a.status a.text.items) }
{
    match request {
        Request::Synth(rounds) => synth_of(alloc, rounds, bytes),
        Request::Check => checked(alloc, bytes),
        Request::Run => ran(alloc, bytes),
        Request::Explain(rounds) => explained(alloc, rounds, bytes),
        Request::Migrate => migrated(alloc, bytes),
        Request::Lazy(rounds) => lazy_of(alloc, rounds, bytes),
        Request::Spoil(rounds) => spoiled(alloc, rounds, bytes),
        Request::Reach(rounds) => reach_of(alloc, rounds, bytes),
        Request::Gen(_) => unreachable!(),
    }
}

/// The answer to the whole input, or the status with which nothing is written.
pub fn answer_input<S: Source>(
    alloc: Global,
    request: Request,
    source: &mut S,
) -> Result<Answer, Status>
    requires input { NeedsInput request }
    requires rounds { HasRounds request }
    ensures ok { IfOk result (λ a. IsAnswerTo request (S.left source.old) a.status a.text.items) }
    ensures err { IfErr result (λ e. (e ≡ Status.Memory) ⊎ (e ≡ Status.Read)) }
    ensures read { result ≡ Err Status.Read → Rose (S.faults source.old) (S.faults source.new) }
    ensures risen { S.faults source.old < S.faults source.new → result ≡ Err Status.Read }
    ensures ended { IfOk result (λ a. IsReadToEnd (S.left source.old) (S.left source.new) a.status) }
{
    match read_all(alloc, source, INPUT_LIMIT) {
        Ok(bytes) => match answer_of(alloc, request, bytes.as_slice()) {
            Ok(found) => Ok(found),
            Err(_) => Err(Status::Memory),
        },
        Err(ReadAll::TooLong) => match too_long(alloc) {
            Ok(text) => Ok(Answer {
                status: Status::Text,
                text,
            }),
            Err(_) => Err(Status::Memory),
        },
        Err(ReadAll::Fault) => Err(Status::Read),
        Err(ReadAll::Memory) => Err(Status::Memory),
    }
}
