// One line of first states.
ghost use Rattle.std.specs.Prelude.{map, All};
ghost use Rattle.std.specs.Option.{option_map};
ghost use Rattle.lhg_lex.specs.TextTokens.{plain_of, IsSpan};
ghost use Rattle.lhg_plant.specs.Views.{plain_plant};
ghost use Rattle.lhg_read.specs.Lexed.{IsLexed};
ghost use Rattle.lhg_read.specs.Listed.{with_line};
ghost use Rattle.lhg_read.specs.Refusals.{IsRead};
ghost use Rattle.lhg_read.specs.StateText.{location_in};
ghost use Rattle.lhg_ctl.specs.ControllerLine.{placed_rows};
ghost use Rattle.lhg_ctl.specs.Views.{plain_placed};
ghost use Rattle.lhg_forward.specs.InitText.{init_by, init_line};
ghost use Rattle.lhg_forward.specs.InitViews.{plain_open};

use crate::open_inits::OpenInit;
use lhg_lex::{Lines, Token};
use lhg_num::Frac;
use lhg_plant::Plant;
use lhg_read::{Form, Refusal, is_word, location_named, rows_from};
use lhg_row::Row;
use std::alloc::Global;

// A location and rows.
fn states_from(
    alloc: Global,
    lines: &Lines,
    plant: &Plant,
    tokens: &[Token],
) -> Result<(u32, Vec<Row<Frac>>), Refusal>
    requires spans { All (IsSpan lines.now.bytes) tokens.now }
    requires words { All (λ token. IsLexed (plain_of lines.now.bytes token)) tokens.now }
    ensures { IsRead result (placed_rows (plain_plant plant.now) (location_in (plain_plant plant.now)) (map (plain_of lines.now.bytes) tokens.now)) plain_placed }
{
    match tokens {
        [] => Err(Refusal::NotHere),
        [name, ..] => {
            let Some(place) = location_named(lines, plant, name) else {
                return Err(Refusal::NotHere);
            };
            let rows = rows_from(alloc, lines, &plant.vars, Form::Plain, &tokens[1..])?;
            Ok((place, rows))
        }
    }
}

// Takes the line with this first token, where it can stand.
fn take_by(
    alloc: Global,
    lines: &Lines,
    plant: &Plant,
    first: &Token,
    rest: &[Token],
    init: &mut OpenInit,
) -> Result<(), Refusal>
    requires span { IsSpan lines.now.bytes first.now }
    requires spans { All (IsSpan lines.now.bytes) rest.now }
    requires words { All (λ token. IsLexed (plain_of lines.now.bytes token)) rest.now }
    ensures { IsRead result (option_map (with_line (plain_open init.old)) (init_by (plain_plant plant.now) (plain_of lines.now.bytes first.now) (map (plain_of lines.now.bytes) rest.now))) (λ _. plain_open init.new) }
{
    if is_word(lines, first, b"init") {
        let next = states_from(alloc, lines, plant, rest)?;
        return init.take(next);
    }
    if is_word(lines, first, b"end") {
        if !rest.is_empty() {
            return Err(Refusal::NotHere);
        }
        init.end();
        return Ok(());
    }
    Err(Refusal::NotHere)
}

/// Takes a line, where it can stand.
pub(crate) fn take_line(
    alloc: Global,
    lines: &Lines,
    plant: &Plant,
    tokens: &[Token],
    init: &mut OpenInit,
) -> Result<(), Refusal>
    requires spans { All (IsSpan lines.now.bytes) tokens.now }
    requires words { All (λ token. IsLexed (plain_of lines.now.bytes token)) tokens.now }
    ensures { IsRead result (option_map (with_line (plain_open init.old)) (init_line (plain_plant plant.now) (map (plain_of lines.now.bytes) tokens.now))) (λ _. plain_open init.new) }
{
    match tokens {
        [] => Err(Refusal::NotHere),
        [first, ..] => take_by(alloc, lines, plant, first, &tokens[1..], init),
    }
}
