// One line of a controller behind its head.
ghost use Rattle.std.specs.Prelude.{◌≡◌, ◌<◌, ◌∷◌, length, map, All, OnOk, Some, None, codes};
ghost use Rattle.std.specs.Option.{option_and_then, option_map};
ghost use Rattle.lhg_lex.specs.TextTokens.{plain_of, IsSpan};
ghost use Rattle.lhg_plant.specs.Views.{plain_plant};
ghost use Rattle.lhg_read.specs.Lexed.{IsLexed};
ghost use Rattle.lhg_read.specs.Refusals.{IsRead};
ghost use Rattle.lhg_read.specs.Rows.{rows_of};
ghost use Rattle.lhg_read.specs.StateText.{location_in};
ghost use Rattle.lhg_ctl.specs.ControllerLine.{piece, placed_rows, guard_of, named_guard, guard_by, rounds_line, controller_by};
ghost use Rattle.lhg_ctl.specs.ControllerSteps.{step, taken};
ghost use Rattle.lhg_ctl.specs.Counted.{IsCounted};
ghost use Rattle.lhg_read.specs.Numbered.{sizes_of};
ghost use Rattle.lhg_ctl.specs.Views.{plain_open};
ghost use Rattle.lhg_ctl.specs.declared.versions.Version.TheVariants.{First, Second};

use crate::open_drafts::OpenDraft;
use crate::versions::Version;
use lhg_lex::{Lines, Token};
use lhg_num::Frac;
use lhg_plant::Plant;
use lhg_read::{
    Form, Refusal, controllable_named, is_word, location_named, numbered, read_name, rows_from,
};
use lhg_row::Row;
use std::alloc::Global;

/// The largest number of rounds.
pub const MOST_ROUNDS: u32 = 1000;

// The rows that stand behind a name.
fn rows_behind(
    alloc: Global,
    lines: &Lines,
    plant: &Plant,
    tokens: &[Token],
) -> Result<Vec<Row<Frac>>, Refusal>
    requires { All (IsSpan lines.now.bytes) tokens.now }
    ensures { IsRead result (rows_of Form.Plain plant.now.vars.items (map (plain_of lines.now.bytes) tokens.now)) (λ v. v.items) }
{
    rows_from(alloc, lines, &plant.vars, Form::Plain, tokens)
}

// `rounds` and the number of rounds.
fn take_rounds(
    lines: &Lines,
    plant: &Plant,
    tokens: &[Token],
    draft: &mut OpenDraft,
) -> Result<(), Refusal>
    requires spans { All (IsSpan lines.now.bytes) tokens.now }
    requires counted { IsCounted plant.now draft.old }
    ensures step { IsRead result (option_and_then (step (plain_open draft.old)) (rounds_line (map (plain_of lines.now.bytes) tokens.now) (sizes_of tokens.now))) (λ _. plain_open draft.new) }
    ensures counted { OnOk result (IsCounted plant.now draft.new) }
{
    match numbered(lines, tokens, b"rounds", MOST_ROUNDS) {
        None => Err(Refusal::NotHere),
        Some(number) => draft.take_rounds(plant, number),
    }
}

// `piece`, a location and rows.
fn take_piece(
    alloc: Global,
    lines: &Lines,
    plant: &Plant,
    tokens: &[Token],
    draft: &mut OpenDraft,
) -> Result<(), Refusal>
    requires spans { All (IsSpan lines.now.bytes) tokens.now }
    requires words { All (λ token. IsLexed (plain_of lines.now.bytes token)) tokens.now }
    requires counted { IsCounted plant.now draft.old }
    ensures step { IsRead result (option_and_then (step (plain_open draft.old)) (option_map (λ x. piece x) (placed_rows (plain_plant plant.now) (location_in (plain_plant plant.now)) (map (plain_of lines.now.bytes) tokens.now)))) (λ _. plain_open draft.new) }
    ensures counted { OnOk result (IsCounted plant.now draft.new) }
{
    match tokens {
        [] => Err(Refusal::NotHere),
        [name, ..] => {
            let Some(place) = location_named(lines, plant, name) else {
                return Err(Refusal::NotHere);
            };
            let rows = rows_behind(alloc, lines, plant, &tokens[1..])?;
            draft.take_piece(plant, place, rows)
        }
    }
}

// A controllable switch and rows of a guard without a name.
fn take_guard(
    alloc: Global,
    lines: &Lines,
    plant: &Plant,
    tokens: &[Token],
    draft: &mut OpenDraft,
) -> Result<(), Refusal>
    requires version { draft.old.version ≡ First }
    requires spans { All (IsSpan lines.now.bytes) tokens.now }
    requires words { All (λ token. IsLexed (plain_of lines.now.bytes token)) tokens.now }
    requires counted { IsCounted plant.now draft.old }
    ensures step { IsRead result (option_and_then (step (plain_open draft.old)) (guard_of (plain_plant plant.now) None (map (plain_of lines.now.bytes) tokens.now))) (λ _. plain_open draft.new) }
    ensures counted { OnOk result (IsCounted plant.now draft.new) }
{
    match tokens {
        [] => Err(Refusal::NotHere),
        [switch, ..] => {
            let Some(place) = controllable_named(lines, plant, switch) else {
                return Err(Refusal::NotHere);
            };
            let rows = rows_behind(alloc, lines, plant, &tokens[1..])?;
            draft.take_guard(alloc, plant, place, rows)
        }
    }
}

// A controllable switch, a name and rows of a guard.
fn take_named(
    alloc: Global,
    lines: &Lines,
    plant: &Plant,
    tokens: &[Token],
    draft: &mut OpenDraft,
) -> Result<(), Refusal>
    requires version { draft.old.version ≡ Second }
    requires spans { All (IsSpan lines.now.bytes) tokens.now }
    requires words { All (λ token. IsLexed (plain_of lines.now.bytes token)) tokens.now }
    requires counted { IsCounted plant.now draft.old }
    ensures step { IsRead result (option_and_then (step (plain_open draft.old)) (named_guard (plain_plant plant.now) (map (plain_of lines.now.bytes) tokens.now))) (λ _. plain_open draft.new) }
    ensures counted { OnOk result (IsCounted plant.now draft.new) }
{
    let [switch, name, ..] = tokens else {
        return Err(Refusal::NotHere);
    };
    let Some(name) = read_name(lines, name) else {
        return Err(Refusal::NotHere);
    };
    let Some(place) = controllable_named(lines, plant, switch) else {
        return Err(Refusal::NotHere);
    };
    let rows = rows_behind(alloc, lines, plant, &tokens[2..])?;
    draft.take_named(plant, name, place, rows)
}

// What stands behind `guard`.
fn take_guard_by(
    alloc: Global,
    lines: &Lines,
    plant: &Plant,
    tokens: &[Token],
    draft: &mut OpenDraft,
) -> Result<(), Refusal>
    requires spans { All (IsSpan lines.now.bytes) tokens.now }
    requires words { All (λ token. IsLexed (plain_of lines.now.bytes token)) tokens.now }
    requires counted { IsCounted plant.now draft.old }
    ensures step { IsRead result (option_and_then (step (plain_open draft.old)) (guard_by draft.old.version (plain_plant plant.now) (map (plain_of lines.now.bytes) tokens.now))) (λ _. plain_open draft.new) }
    ensures counted { OnOk result (IsCounted plant.now draft.new) }
{
    match draft.version {
        Version::First => take_guard(alloc, lines, plant, tokens, draft),
        Version::Second => take_named(alloc, lines, plant, tokens, draft),
    }
}

// Takes the line with this first token, which is not `rounds`, where it can stand.
fn take_by(
    alloc: Global,
    lines: &Lines,
    plant: &Plant,
    first: &Token,
    rest: &[Token],
    draft: &mut OpenDraft,
) -> Result<(), Refusal>
    requires span { IsSpan lines.now.bytes first.now }
    requires spans { All (IsSpan lines.now.bytes) rest.now }
    requires words { All (λ token. IsLexed (plain_of lines.now.bytes token)) rest.now }
    requires counted { IsCounted plant.now draft.old }
    ensures step { IsRead result (option_and_then (step (plain_open draft.old)) (controller_by draft.old.version (plain_plant plant.now) (plain_of lines.now.bytes first.now) (map (plain_of lines.now.bytes) rest.now))) (λ _. plain_open draft.new) }
    ensures counted { OnOk result (IsCounted plant.now draft.new) }
{
    if is_word(lines, first, b"piece") {
        return take_piece(alloc, lines, plant, rest, draft);
    }
    if is_word(lines, first, b"guard") {
        return take_guard_by(alloc, lines, plant, rest, draft);
    }
    if is_word(lines, first, b"end") && rest.is_empty() {
        return draft.end(plant);
    }
    Err(Refusal::NotHere)
}

/// Takes a line behind the head, where it can stand.
pub(crate) fn take_line(
    alloc: Global,
    lines: &Lines,
    plant: &Plant,
    tokens: &[Token],
    draft: &mut OpenDraft,
) -> Result<(), Refusal>
    requires spans { All (IsSpan lines.now.bytes) tokens.now }
    requires words { All (λ token. IsLexed (plain_of lines.now.bytes token)) tokens.now }
    requires counted { IsCounted plant.now draft.old }
    ensures step { IsRead result (taken (plain_plant plant.now) (plain_open draft.old) (map (plain_of lines.now.bytes) tokens.now) (sizes_of tokens.now)) (λ _. plain_open draft.new) }
    ensures counted { OnOk result (IsCounted plant.now draft.new) }
{
    match tokens {
        [] => Err(Refusal::NotHere),
        [first, ..] => {
            if is_word(lines, first, b"rounds") {
                return take_rounds(lines, plant, tokens, draft);
            }
            take_by(alloc, lines, plant, first, &tokens[1..], draft)
        }
    }
}
