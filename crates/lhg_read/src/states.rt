// States.
ghost use Rattle.std.specs.Prelude.{◌≡◌, ◌∷◌, map, IfOk, IfErr, OnErr, All};
ghost use Rattle.lhg_lex.specs.TextTokens.{plain_of, IsSpan};
ghost use Rattle.lhg_plant.specs.Views.{plain_plant, plain_state};
ghost use Rattle.lhg_read.specs.Lexed.{IsLexed};
ghost use Rattle.lhg_read.specs.Refusals.{IsRead};
ghost use Rattle.lhg_read.specs.StateText.{state_of, state_by, IsStateText, IsSomeState};
ghost use Rattle.lhg_read.specs.TokenText.{IsTextBy, ReadsText, HasCause};

use crate::names::read_name;
use crate::next_lines::needed_line;
use crate::points::point_from;
use crate::refusal::{Refusal, stop_at};
use crate::signs::is_word;
use crate::switches::place_in;
use lhg_lex::{Lines, ReadStop, Token};
use lhg_plant::{Plant, State};
use std::alloc::Global;

// The state that the name of a location and the tokens of a point are.
fn state_from(
    alloc: Global,
    lines: &Lines,
    plant: &Plant,
    name: &Token,
    point: &[Token],
) -> Result<State, Refusal>
    requires span { IsSpan lines.now.bytes name.now }
    requires spans { All (IsSpan lines.now.bytes) point.now }
    requires word { IsLexed (plain_of lines.now.bytes name.now) }
    ensures { IsRead result (state_of (plain_plant plant.now) (plain_of lines.now.bytes name.now ∷ map (plain_of lines.now.bytes) point.now)) plain_state }
{
    let Some(name) = read_name(lines, name) else {
        return Err(Refusal::NotHere);
    };
    let Some(loc) = place_in(&plant.locs, &name) else {
        return Err(Refusal::NotHere);
    };
    let at = point_from(alloc, lines, &plant.vars, point)?;
    Ok(State {
        loc: loc as u32,
        at,
    })
}

/// The state of the line `WORD LOCATION POINT`.
pub fn state_by(
    alloc: Global,
    lines: &Lines,
    plant: &Plant,
    word: &[u8],
    tokens: &[Token],
) -> Result<State, Refusal>
    requires spans { All (IsSpan lines.now.bytes) tokens.now }
    requires words { All (λ token. IsLexed (plain_of lines.now.bytes token)) tokens.now }
    ensures { IsRead result (state_by word.now (plain_plant plant.now) (map (plain_of lines.now.bytes) tokens.now)) plain_state }
{
    let [first, name, ..] = tokens else {
        return Err(Refusal::NotHere);
    };
    if !is_word(lines, first, word) {
        return Err(Refusal::NotHere);
    }
    state_from(alloc, lines, plant, name, &tokens[2..])
}

/// The state of the next line that has a token. After a refusal the lines are of the same text, and which line comes
/// next is not promised.
pub fn read_state(alloc: Global, lines: &mut Lines, plant: &Plant) -> Result<State, ReadStop>
    // the lines that are read are a state of the plant, and this is its value
    ensures ok { IfOk result (λ s. ReadsText (λ tokens. IsStateText (plain_plant plant.now) tokens (plain_state s)) lines.old lines.new) }
    // no next lines are a state of the plant, and this is the first line that cannot stand where it does
    ensures err { IfErr result (HasCause (IsTextBy (IsSomeState (plain_plant plant.now))) lines.old) }
    ensures bytes { OnErr result (lines.new.bytes ≡ lines.old.bytes) }
{
    let line = needed_line(alloc, lines)?;
    match state_by(alloc, lines, plant, b"state", &line.tokens) {
        Ok(state) => Ok(state),
        Err(refusal) => Err(stop_at(refusal, line.number)),
    }
}
