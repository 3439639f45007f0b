// One line of the controller's moves.
ghost use Rattle.std.specs.Prelude.{◌≡◌, ◌-◌, map, All};
ghost use Rattle.std.specs.Option.{option_map};
ghost use Rattle.lhg_lex.specs.TextTokens.{plain_of, IsSpan};
ghost use Rattle.lhg_plant.specs.Views.{plain_plant};
ghost use Rattle.lhg_read.specs.Lexed.{IsLexed};
ghost use Rattle.lhg_read.specs.Listed.{with_line};
ghost use Rattle.lhg_read.specs.Numbered.{sizes_of};
ghost use Rattle.lhg_read.specs.PointText as plain;
ghost use Rattle.lhg_read.specs.Refusals.{IsRead};
ghost use Rattle.lhg_spoil.specs.OpenViews.{plain_open_moves};
ghost use Rattle.lhg_spoil.specs.Views.{plain_ctl_move};
ghost use Rattle.lhg_spoil.specs.MovesText.{flow_in, named_result, act_of, move_by, move_line};

use crate::ctl_moves::CtlMove;
use crate::open_moves::OpenMoves;
use lhg_lex::{Lines, Tok, Token};
use lhg_num::Frac;
use lhg_plant::Plant;
use lhg_read::{Refusal, controllable_named, counted_in, is_word, point_from};
use lhg_row::Point;
use std::alloc::Global;

// The largest number of a flow: it has 9 digits at most.
const MOST_FLOW: u32 = 999_999_999;

// The number that the token is.
fn number_in(lines: &Lines, token: &Token) -> Option<Frac>
    ensures { result ≡ plain.number_in (plain_of lines.now.bytes token.now) }
{
    match token.kind {
        Tok::Number(q) => Some(q),
        _ => None,
    }
}

// The number of a flow that the token is.
fn flow_in(lines: &Lines, token: &Token) -> Option<u32>
    requires { IsSpan lines.now.bytes token.now }
    ensures { result ≡ flow_in (plain_of lines.now.bytes token.now) (token.now.to - token.now.from) }
{
    let number = counted_in(token, MOST_FLOW)?;
    if number >= 1 { Some(number) } else { None }
}

// The result that is named, where one is.
fn named_result(
    alloc: Global,
    lines: &Lines,
    plant: &Plant,
    tokens: &[Token],
) -> Result<Option<Point<Frac>>, Refusal>
    requires { All (IsSpan lines.now.bytes) tokens.now }
    ensures { IsRead result (named_result plant.now.vars.items (map (plain_of lines.now.bytes) tokens.now)) (λ to. to) }
{
    match tokens {
        [] => Ok(None),
        [_, ..] => {
            let to = point_from(alloc, lines, &plant.vars, tokens)?;
            Ok(Some(to))
        }
    }
}

// A switch at a place of a flow.
fn act_from(
    alloc: Global,
    lines: &Lines,
    plant: &Plant,
    tokens: &[Token],
) -> Result<CtlMove, Refusal>
    requires spans { All (IsSpan lines.now.bytes) tokens.now }
    requires words { All (λ token. IsLexed (plain_of lines.now.bytes token)) tokens.now }
    ensures { IsRead result (act_of (plain_plant plant.now) (map (plain_of lines.now.bytes) tokens.now) (sizes_of tokens.now)) plain_ctl_move }
{
    let [flow, place, switch, ..] = tokens else {
        return Err(Refusal::NotHere);
    };
    let Some(flow) = flow_in(lines, flow) else {
        return Err(Refusal::NotHere);
    };
    let Some(place) = number_in(lines, place) else {
        return Err(Refusal::NotHere);
    };
    let Some(switch) = controllable_named(lines, plant, switch) else {
        return Err(Refusal::NotHere);
    };
    let to = named_result(alloc, lines, plant, &tokens[3..])?;
    Ok(CtlMove::Act {
        flow,
        place,
        switch,
        to,
    })
}

// Takes the line with this first token, where it can stand.
fn take_by(
    alloc: Global,
    lines: &Lines,
    plant: &Plant,
    first: &Token,
    rest: &[Token],
    moves: &mut OpenMoves,
) -> Result<(), Refusal>
    requires span { IsSpan lines.now.bytes first.now }
    requires spans { All (IsSpan lines.now.bytes) rest.now }
    requires words { All (λ token. IsLexed (plain_of lines.now.bytes token)) rest.now }
    ensures { IsRead result (option_map (with_line (plain_open_moves moves.old)) (move_by (plain_plant plant.now) (plain_of lines.now.bytes first.now) (map (plain_of lines.now.bytes) rest.now) (sizes_of rest.now))) (λ _. plain_open_moves moves.new) }
{
    if is_word(lines, first, b"wait") {
        if !rest.is_empty() {
            return Err(Refusal::NotHere);
        }
        return moves.take(CtlMove::Wait);
    }
    if is_word(lines, first, b"act") {
        let next = act_from(alloc, lines, plant, rest)?;
        return moves.take(next);
    }
    if is_word(lines, first, b"end") {
        if !rest.is_empty() {
            return Err(Refusal::NotHere);
        }
        moves.end();
        return Ok(());
    }
    Err(Refusal::NotHere)
}

/// Takes a line, where it can stand.
pub(crate) fn take_line(
    alloc: Global,
    lines: &Lines,
    plant: &Plant,
    tokens: &[Token],
    moves: &mut OpenMoves,
) -> Result<(), Refusal>
    requires spans { All (IsSpan lines.now.bytes) tokens.now }
    requires words { All (λ token. IsLexed (plain_of lines.now.bytes token)) tokens.now }
    ensures { IsRead result (option_map (with_line (plain_open_moves moves.old)) (move_line (plain_plant plant.now) (map (plain_of lines.now.bytes) tokens.now) (sizes_of tokens.now))) (λ _. plain_open_moves moves.new) }
{
    match tokens {
        [] => Err(Refusal::NotHere),
        [first, ..] => take_by(alloc, lines, plant, first, &tokens[1..], moves),
    }
}
