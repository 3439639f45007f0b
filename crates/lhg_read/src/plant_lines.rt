// One line of a plant behind that of the variables.
ghost use Rattle.std.specs.Prelude.{◌≡◌, ◌≤◌, length, map, All, vec_len};
ghost use Rattle.std.specs.Option.{option_and_then, option_map};
ghost use Rattle.lhg_lex.specs.TextTokens.{plain_of, IsSpan};
ghost use Rattle.lhg_plant.specs.Limits.{most_locations};
ghost use Rattle.lhg_read.specs.Lexed.{IsLexed};
ghost use Rattle.lhg_read.specs.Names.{one_name};
ghost use Rattle.lhg_read.specs.Rows.{rows_of};
ghost use Rattle.lhg_read.specs.PlantLine.{inv, flow, safe, loc, block, switch, switch_of, line_by};
ghost use Rattle.lhg_read.specs.PlantSteps.{step, taken};
ghost use Rattle.lhg_read.specs.DraftView.{plain_draft};
ghost use Rattle.lhg_read.specs.Refusals.{IsRead};

use crate::draft::Draft;
use crate::forms::Form;
use crate::names::one_name;
use crate::refusal::Refusal;
use crate::rows::rows_from;
use crate::signs::is_word;
use crate::switches::read_written;
use lhg_lex::{Lines, Token};
use lhg_plant::Name;
use std::alloc::Global;

// A location begins: `loc` and its name.
fn take_loc(
    alloc: Global,
    lines: &Lines,
    vars: &[Name],
    tokens: &[Token],
    draft: &mut Draft,
) -> Result<(), Refusal>
    requires spans { All (IsSpan lines.now.bytes) tokens.now }
    requires words { All (λ token. IsLexed (plain_of lines.now.bytes token)) tokens.now }
    ensures { IsRead result (option_and_then (step (length vars.now) (plain_draft draft.old)) (option_map (λ name. loc name) (one_name (map (plain_of lines.now.bytes) tokens.now)))) (λ _. plain_draft draft.new) }
{
    let Some(name) = one_name(lines, tokens) else {
        return Err(Refusal::NotHere);
    };
    draft.begin(alloc, name, vars.len())
}

// `inv` and rows.
fn take_inv(
    alloc: Global,
    lines: &Lines,
    vars: &[Name],
    tokens: &[Token],
    draft: &mut Draft,
) -> Result<(), Refusal>
    requires { All (IsSpan lines.now.bytes) tokens.now }
    ensures { IsRead result (option_and_then (step (length vars.now) (plain_draft draft.old)) (option_map (λ rows. block (inv rows)) (rows_of Form.Plain vars.now (map (plain_of lines.now.bytes) tokens.now)))) (λ _. plain_draft draft.new) }
{
    let rows = rows_from(alloc, lines, vars, Form::Plain, tokens)?;
    draft.take_inv(rows)
}

// `flow` and rows.
fn take_flow(
    alloc: Global,
    lines: &Lines,
    vars: &[Name],
    tokens: &[Token],
    draft: &mut Draft,
) -> Result<(), Refusal>
    requires { All (IsSpan lines.now.bytes) tokens.now }
    ensures { IsRead result (option_and_then (step (length vars.now) (plain_draft draft.old)) (option_map (λ rows. block (flow rows)) (rows_of Form.Flow vars.now (map (plain_of lines.now.bytes) tokens.now)))) (λ _. plain_draft draft.new) }
{
    let rows = rows_from(alloc, lines, vars, Form::Flow, tokens)?;
    draft.take_flow(rows)
}

// `safe` and rows.
fn take_safe(
    alloc: Global,
    lines: &Lines,
    vars: &[Name],
    tokens: &[Token],
    draft: &mut Draft,
) -> Result<(), Refusal>
    requires { All (IsSpan lines.now.bytes) tokens.now }
    ensures { IsRead result (option_and_then (step (length vars.now) (plain_draft draft.old)) (option_map (λ rows. block (safe rows)) (rows_of Form.Plain vars.now (map (plain_of lines.now.bytes) tokens.now)))) (λ _. plain_draft draft.new) }
{
    let rows = rows_from(alloc, lines, vars, Form::Plain, tokens)?;
    draft.take_safe(rows)
}

// `switch`, its name, its side, its locations and rows.
fn take_switch(
    alloc: Global,
    lines: &Lines,
    vars: &[Name],
    tokens: &[Token],
    draft: &mut Draft,
) -> Result<(), Refusal>
    requires spans { All (IsSpan lines.now.bytes) tokens.now }
    requires words { All (λ token. IsLexed (plain_of lines.now.bytes token)) tokens.now }
    requires few { vec_len draft.old.locs ≤ most_locations }
    ensures { IsRead result (option_and_then (step (length vars.now) (plain_draft draft.old)) (option_map (λ s. switch s) (switch_of vars.now (map (plain_of lines.now.bytes) tokens.now)))) (λ _. plain_draft draft.new) }
{
    let written = read_written(alloc, lines, vars, tokens)?;
    draft.take_switch(written)
}

// Takes the line with this first token, where it can stand.
fn take_by(
    alloc: Global,
    lines: &Lines,
    vars: &[Name],
    first: &Token,
    rest: &[Token],
    draft: &mut Draft,
) -> Result<(), Refusal>
    requires span { IsSpan lines.now.bytes first.now }
    requires spans { All (IsSpan lines.now.bytes) rest.now }
    requires words { All (λ token. IsLexed (plain_of lines.now.bytes token)) rest.now }
    requires few { vec_len draft.old.locs ≤ most_locations }
    ensures { IsRead result (option_and_then (step (length vars.now) (plain_draft draft.old)) (line_by vars.now (plain_of lines.now.bytes first.now) (map (plain_of lines.now.bytes) rest.now))) (λ _. plain_draft draft.new) }
{
    if is_word(lines, first, b"loc") {
        return take_loc(alloc, lines, vars, rest, draft);
    }
    if is_word(lines, first, b"inv") {
        return take_inv(alloc, lines, vars, rest, draft);
    }
    if is_word(lines, first, b"flow") {
        return take_flow(alloc, lines, vars, rest, draft);
    }
    if is_word(lines, first, b"safe") {
        return take_safe(alloc, lines, vars, rest, draft);
    }
    if is_word(lines, first, b"switch") {
        return take_switch(alloc, lines, vars, rest, draft);
    }
    if is_word(lines, first, b"end") {
        if !rest.is_empty() {
            return Err(Refusal::NotHere);
        }
        return draft.end();
    }
    Err(Refusal::NotHere)
}

/// Takes a line behind that of the variables, where it can stand.
pub(crate) fn take_line(
    alloc: Global,
    lines: &Lines,
    vars: &[Name],
    tokens: &[Token],
    draft: &mut Draft,
) -> Result<(), Refusal>
    requires spans { All (IsSpan lines.now.bytes) tokens.now }
    requires words { All (λ token. IsLexed (plain_of lines.now.bytes token)) tokens.now }
    requires few { vec_len draft.old.locs ≤ most_locations }
    ensures { IsRead result (taken vars.now (plain_draft draft.old) (map (plain_of lines.now.bytes) tokens.now)) (λ _. plain_draft draft.new) }
{
    match tokens {
        [] => Err(Refusal::NotHere),
        [first, ..] => take_by(alloc, lines, vars, first, &tokens[1..], draft),
    }
}
