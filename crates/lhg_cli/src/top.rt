// The program over any source and sink: words, input, answer, status.
ghost use Rattle.std.specs.Prelude.{◌≡◌, ◌<◌, ℕ, List, map, length, take, string_bytes, IfOk, IfErr, IfSome, ◌⊎◌};
ghost use Rattle.std.specs.Io.KnownBytes.{Appends};
ghost use Rattle.lhg_io.specs.Faults.{Rose};
ghost use Rattle.lhg_gen.specs.GeneratedPlant.{generated_plant};
ghost use Rattle.lhg_cli.specs.Answer.{IsAnswer, IsReadToEnd, IsAnswered, IsTextFor, IsSolvable, IsUsedUp};
ghost use Rattle.lhg_cli.specs.LazyAnswer.{IsLazySolvable};
ghost use Rattle.lhg_cli.specs.ReachAnswer.{IsExplorable, IsEndless};
ghost use Rattle.lhg_cli.specs.RunAnswer.{IsRunnable, IsUnrunnable, IsSureRun};
ghost use Rattle.lhg_cli.specs.Settling.{IsWithin};
ghost use Rattle.lhg_cli.specs.SpoilAnswer.{IsSpoilable, IsSureSpoil};
ghost use Rattle.lhg_cli.specs.StateAnswer.{IsExplainable, IsSureStatus};
ghost use Rattle.lhg_cli.specs.Verdict.{IsValidInput, IsInvalidInput};
ghost use Rattle.lhg_cli.specs.Words.{Asks, AsksSynth, AsksExplain, AsksLazy, AsksSpoil, AsksReach, AsksGen, AreKnown, AskForInput, most_rounds};

use crate::Status;
use crate::answers::usage;
use crate::inputs::answer_input;
use crate::request::Request;
use crate::solving::Answer;
use crate::summing::summed;
use crate::words::asked;
use lhg_io::{Sink, Source, write_all};
use std::alloc::Global;

// The answer to the words and the input, or the status with which nothing is written.
fn answer_to<S: Source>(alloc: Global, words: &[String], source: &mut S) -> Result<Answer, Status>
    ensures ok { IfOk result (λ a. IsAnswer (map (λ w. string_bytes w) words.now) (S.left source.old) a.status a.text.items) }
    ensures err { IfErr result (λ e. (e ≡ Status.Memory) ⊎ ((e ≡ Status.Read) × AskForInput (map (λ w. string_bytes w) words.now))) }
    ensures read { result ≡ Err Status.Read → Rose (S.faults source.old) (S.faults source.new) }
    ensures risen { S.faults source.old < S.faults source.new → result ≡ Err Status.Read }
    ensures unread { ¬ AskForInput (map (λ w. string_bytes w) words.now) → source.new ≡ source.old }
    ensures ended { AskForInput (map (λ w. string_bytes w) words.now) → IfOk result (λ a. IsReadToEnd (S.left source.old) (S.left source.new) a.status) }
{
    match asked(words) {
        None => match usage(alloc) {
            Ok(text) => Ok(Answer {
                status: Status::Words,
                text,
            }),
            Err(_) => Err(Status::Memory),
        },
        Some(Request::Gen(k)) => match summed(alloc, k) {
            Ok(found) => Ok(found),
            Err(_) => Err(Status::Memory),
        },
        Some(request) => answer_input(alloc, request, source),
    }
}

/// All that the program does: reads the words and the source, writes the answer to the sink, and gives the status.
pub fn lhg<S: Source, K: Sink>(
    alloc: Global,
    words: &[String],
    source: &mut S,
    sink: &mut K,
) -> Status
    // the whole answer is written
    ensures answered { IsAnswered result → (text : List ℕ) × IsAnswer (map (λ w. string_bytes w) words.now) (S.left source.old) result text
        × Appends (K.held sink.old) (K.held sink.new) text }
    // a prefix of the answer is written, and the sink has failed
    ensures write { result ≡ Status.Write → (status : Status) × (text : List ℕ) × (n : ℕ) × IsAnswer (map (λ w. string_bytes w) words.now) (S.left source.old) status text
        × (n < length text) × Appends (K.held sink.old) (K.held sink.new) (take n text) × Rose (K.faults sink.old) (K.faults sink.new) }
    // the source has failed
    ensures read { result ≡ Status.Read → AskForInput (map (λ w. string_bytes w) words.now) × Rose (S.faults source.old) (S.faults source.new) }
    // where a count of faults is greater afterwards, the status says so
    ensures read_risen { S.faults source.old < S.faults source.new → result ≡ Status.Read }
    ensures write_risen { K.faults sink.old < K.faults sink.new → result ≡ Status.Write }
    ensures silent { (result ≡ Status.Read) ⊎ (result ≡ Status.Memory) → sink.new ≡ sink.old }

    // other words have the usage line as their answer
    ensures words { ¬ AreKnown (map (λ w. string_bytes w) words.now) → (result ≡ Status.Words) ⊎ ((result ≡ Status.Write) ⊎ (result ≡ Status.Memory)) }
    // the source is not read, where the answer does not need the input; else the answer was made of all of it, unless it is too long
    ensures unread { ¬ AskForInput (map (λ w. string_bytes w) words.now) → source.new ≡ source.old }
    ensures ended { AskForInput (map (λ w. string_bytes w) words.now) → IsAnswered result → IsReadToEnd (S.left source.old) (S.left source.new) result }

    // where neither end fails: a plant has its report, where some round within the budget removes nothing and the calculus stays within
    // its limits; it has a state of the last round, where each round within the budget removes a state; and an input that is no text of what
    // is asked for is refused; unless memory runs out
    ensures complete { (n : ℕ) → AsksSynth (map (λ w. string_bytes w) words.now) n → IfSome (S.left source.old) (λ bytes. IsSolvable bytes n
        → ¬ Rose (S.faults source.old) (S.faults source.new) → ¬ Rose (K.faults sink.old) (K.faults sink.new) → (result ≡ Status.Done) ⊎ (result ≡ Status.Memory)) }
    ensures used_up { (n : ℕ) → AsksSynth (map (λ w. string_bytes w) words.now) n → IfSome (S.left source.old) (λ bytes. IsUsedUp bytes n
        → ¬ Rose (S.faults source.old) (S.faults source.new) → ¬ Rose (K.faults sink.old) (K.faults sink.new) → (result ≡ Status.Spent) ⊎ (result ≡ Status.Memory)) }
    ensures refused { (r : Request) → Asks (map (λ w. string_bytes w) words.now) r → IfSome (S.left source.old) (λ bytes. ¬ IsTextFor r bytes
        → ¬ Rose (S.faults source.old) (S.faults source.new) → ¬ Rose (K.faults sink.old) (K.faults sink.new) → (result ≡ Status.Text) ⊎ (result ≡ Status.Memory)) }
    // in the same way the answer to a controller is yes where it is valid and no where it is not, where the calculus stays within its limits;
    // and each controller has its text of the latest version
    ensures valid { Asks (map (λ w. string_bytes w) words.now) Request.Check → IfSome (S.left source.old) (λ bytes. IsValidInput bytes
        → ¬ Rose (S.faults source.old) (S.faults source.new) → ¬ Rose (K.faults sink.old) (K.faults sink.new) → (result ≡ Status.Done) ⊎ (result ≡ Status.Memory)) }
    ensures invalid { Asks (map (λ w. string_bytes w) words.now) Request.Check → IfSome (S.left source.old) (λ bytes. IsInvalidInput bytes
        → ¬ Rose (S.faults source.old) (S.faults source.new) → ¬ Rose (K.faults sink.old) (K.faults sink.new) → (result ≡ Status.No) ⊎ (result ≡ Status.Memory)) }
    ensures migrated { Asks (map (λ w. string_bytes w) words.now) Request.Migrate → IfSome (S.left source.old) (λ bytes. IsTextFor Request.Migrate bytes
        → ¬ Rose (S.faults source.old) (S.faults source.new) → ¬ Rose (K.faults sink.old) (K.faults sink.new) → (result ≡ Status.Done) ⊎ (result ≡ Status.Memory)) }
    // a valid controller has a yes to a log that is legal and a no to any other, and one that is not valid a no
    ensures ran { Asks (map (λ w. string_bytes w) words.now) Request.Run → IfSome (S.left source.old) (λ bytes. (t : IsRunnable bytes)
        → ¬ Rose (S.faults source.old) (S.faults source.new) → ¬ Rose (K.faults sink.old) (K.faults sink.new) → IsSureRun t.input.value result ⊎ (result ≡ Status.Memory)) }
    ensures unrun { Asks (map (λ w. string_bytes w) words.now) Request.Run → IfSome (S.left source.old) (λ bytes. IsUnrunnable bytes
        → ¬ Rose (S.faults source.old) (S.faults source.new) → ¬ Rose (K.faults sink.old) (K.faults sink.new) → (result ≡ Status.No) ⊎ (result ≡ Status.Memory)) }
    // what becomes of a state is told, unless each round within the budget removes a state and the asked one is in the last
    ensures explained { (n : ℕ) → AsksExplain (map (λ w. string_bytes w) words.now) n → IfSome (S.left source.old) (λ bytes. (t : IsExplainable n bytes)
        → ¬ Rose (S.faults source.old) (S.faults source.new) → ¬ Rose (K.faults sink.old) (K.faults sink.new) → IsSureStatus n t.input.value result ⊎ (result ≡ Status.Memory)) }
    // a plant has its controller, whose guards are cut to the rim where that is valid, where it has a report and the work behind the rounds
    // stays within its limits too; it has a state of the last round, where each round within the budget removes a state
    ensures lazy { (n : ℕ) → AsksLazy (map (λ w. string_bytes w) words.now) n → IfSome (S.left source.old) (λ bytes. IsLazySolvable bytes n
        → ¬ Rose (S.faults source.old) (S.faults source.new) → ¬ Rose (K.faults sink.old) (K.faults sink.new) → (result ≡ Status.Done) ⊎ (result ≡ Status.Memory)) }
    ensures lazy_used_up { (n : ℕ) → AsksLazy (map (λ w. string_bytes w) words.now) n → IfSome (S.left source.old) (λ bytes. IsUsedUp bytes n
        → ¬ Rose (S.faults source.old) (S.faults source.new) → ¬ Rose (K.faults sink.old) (K.faults sink.new) → (result ≡ Status.Spent) ⊎ (result ≡ Status.Memory)) }
    // where a state is lost, how the plant wins from there is told to the end of the exchanges, or to the first move that is not legal at its turn
    ensures spoiled { (n : ℕ) → AsksSpoil (map (λ w. string_bytes w) words.now) n → IfSome (S.left source.old) (λ bytes. (t : IsSpoilable n bytes)
        → ¬ Rose (S.faults source.old) (S.faults source.new) → ¬ Rose (K.faults sink.old) (K.faults sink.new) → IsSureSpoil n t.input.value result ⊎ (result ≡ Status.Memory)) }
    // where a plant can get from its first states is told, where some level within the budget adds nothing and the calculus stays within its limits;
    // there is a state of the last level, where each level within the budget adds a state
    ensures reach { (n : ℕ) → AsksReach (map (λ w. string_bytes w) words.now) n → IfSome (S.left source.old) (λ bytes. IsExplorable n bytes
        → ¬ Rose (S.faults source.old) (S.faults source.new) → ¬ Rose (K.faults sink.old) (K.faults sink.new) → (result ≡ Status.Done) ⊎ (result ≡ Status.Memory)) }
    ensures reach_endless { (n : ℕ) → AsksReach (map (λ w. string_bytes w) words.now) n → IfSome (S.left source.old) (λ bytes. IsEndless n bytes
        → ¬ Rose (S.faults source.old) (S.faults source.new) → ¬ Rose (K.faults sink.old) (K.faults sink.new) → (result ≡ Status.Spent) ⊎ (result ≡ Status.Memory)) }
    // where the sink does not fail, a generated plant has its summary, where the calculus stays within its limits; unless memory runs out
    ensures generated { (k : ℕ) → AsksGen (map (λ w. string_bytes w) words.now) k → IsWithin (generated_plant k) most_rounds
        → ¬ Rose (K.faults sink.old) (K.faults sink.new) → (result ≡ Status.Done) ⊎ (result ≡ Status.Memory) }
{
    match answer_to(alloc, words, source) {
        Ok(found) => match write_all(sink, found.text.as_slice()) {
            Ok(()) => found.status,
            Err(_) => Status::Write,
        },
        Err(status) => status,
    }
}
