// Makes the answers that are no report.
ghost use Rattle.std.specs.Prelude.{◌≡◌, ◌<◌, ◌++◌, IfOk, codes, decimal, length};
ghost use Rattle.lhg_plant.specs.Views.{plain_plant, plain_state};
ghost use Rattle.lhg_row_text.specs.PointText.{state_text};
ghost use Rattle.lhg_row_text.specs.PrintedLine.{line};
ghost use Rattle.lhg_cli.specs.Refusal.{what_text, bad_line};
ghost use Rattle.lhg_cli.specs.Answer.{usage_text};
ghost use Rattle.lhg_cli.specs.Verdict.{TellsHalt};

use crate::Status;
use crate::solving::Answer;
use itoa::Buffer;
use lhg_lex::What;
use lhg_num::Halt;
use lhg_plant::{Plant, State};
use lhg_row_text::push_state;
use std::alloc::{AllocError, Global};

/// The usage line.
pub fn usage(alloc: Global) -> Result<Vec<u8>, AllocError>
    ensures { IfOk result (λ v. v.items ≡ usage_text) }
{
    Vec::from_slice(
        alloc,
        b"usage: lhg synth [N] | check | run | explain [N] | gen K | migrate | lazy [N] | spoil [N] | reach [N]\n",
    )
}

/// The line that says that the input is too long.
pub fn too_long(alloc: Global) -> Result<Vec<u8>, AllocError>
    ensures { IfOk result (λ v. v.items ≡ line (codes "text line 0 TooLong")) }
{
    Vec::from_slice(alloc, b"text line 0 TooLong\n")
}

/// The line that names a line of the input and its error.
pub fn bad_line(alloc: Global, number: u32, what: What) -> Result<Vec<u8>, AllocError>
    ensures { IfOk result (λ v. v.items ≡ bad_line number what) }
{
    let mut buffer = Buffer::new();
    let mut text = Vec::from_slice(alloc, b"text line ")?;
    text.extend_from_slice(buffer.format(number).as_bytes())?;
    text.extend_from_slice(name_of(what))?;
    Ok(text)
}

/// The line that says which limit was passed in the work of which round.
pub fn past_limit(alloc: Global, limit: &[u8], round: u32) -> Result<Vec<u8>, AllocError>
    ensures { IfOk result (λ v. v.items ≡ line (limit.now ++ codes " round " ++ decimal round)) }
{
    let mut buffer = Buffer::new();
    let mut text = limit.to_vec(alloc)?;
    text.extend_from_slice(b" round ")?;
    text.extend_from_slice(buffer.format(round).as_bytes())?;
    text.extend_from_slice(b"\n")?;
    Ok(text)
}

/// The answer where the work of a place passes a limit.
pub fn halted(alloc: Global, halt: Halt, place: &[u8]) -> Result<Answer, AllocError>
    ensures { IfOk result (λ a. TellsHalt place.now halt a.status a.text.items) }
{
    match halt {
        Halt::Wide => limited(alloc, Status::Wide, b"wide ", place),
        Halt::Rows => limited(alloc, Status::Lists, b"rows ", place),
        Halt::Pieces => limited(alloc, Status::Lists, b"pieces ", place),
        Halt::Memory => Err(AllocError),
    }
}

// The answer of a status, a limit and a place.
fn limited(alloc: Global, status: Status, limit: &[u8], place: &[u8]) -> Result<Answer, AllocError>
    ensures status { IfOk result (λ a. a.status ≡ status) }
    ensures text { IfOk result (λ a. a.text.items ≡ line (limit.now ++ place.now)) }
{
    let mut text = limit.to_vec(alloc)?;
    text.extend_from_slice(place)?;
    text.extend_from_slice(b"\n")?;
    Ok(Answer { status, text })
}

/// The lines that name a spent budget and a state that its last round removes.
pub fn spent(
    alloc: Global,
    plant: &Plant,
    budget: u32,
    state: &State,
) -> Result<Vec<u8>, AllocError>
    requires place { state.now.loc < length plant.now.locs.items }
    requires length { length state.now.at ≡ length plant.now.vars.items }
    ensures { IfOk result (λ v. v.items ≡ line (codes "spent " ++ decimal budget) ++ line (codes "state " ++ state_text (plain_plant plant.now) (plain_state state.now))) }
{
    let mut buffer = Buffer::new();
    let mut text = Vec::from_slice(alloc, b"spent ")?;
    text.extend_from_slice(buffer.format(budget).as_bytes())?;
    text.extend_from_slice(b"\nstate ")?;
    push_state(&mut text, plant, state)?;
    text.extend_from_slice(b"\n")?;
    Ok(text)
}

// The name of an error, between a space and the end of the line.
fn name_of(what: What) -> &'static [u8]
    ensures { result.now ≡ line (codes " " ++ what_text what) }
{
    match what {
        What::BadByte => b" BadByte\n",
        What::LongNumber => b" LongNumber\n",
        What::ZeroDenominator => b" ZeroDenominator\n",
        What::NotHere => b" NotHere\n",
    }
}
