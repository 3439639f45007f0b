// The line of a switch.
ghost use Rattle.std.specs.Prelude.{◌≡◌, ◌<◌, ◌≤◌, length, map, All, IfSome};
ghost use Rattle.std.specs.List.{position};
ghost use Rattle.std.specs.Option.{option_map};
ghost use Rattle.std.specs.Str.{bytes_eq};
ghost use Rattle.lhg_lex.specs.TextTokens.{plain_of, IsSpan};
ghost use Rattle.lhg_plant.specs.Limits.{most_locations};
ghost use Rattle.lhg_plant.specs.Views.{plain_location, plain_switch};
ghost use Rattle.lhg_read.specs.Lexed.{IsLexed};
ghost use Rattle.lhg_read.specs.PlantLine.{side_of, switch_of};
ghost use Rattle.lhg_read.specs.PlantText.{switch_at};
ghost use Rattle.lhg_read.specs.PlantSteps.{loc_names};
ghost use Rattle.lhg_read.specs.DraftView.{plain_written};
ghost use Rattle.lhg_read.specs.Refusals.{IsRead};

use crate::forms::Form;
use crate::names::read_name;
use crate::refusal::Refusal;
use crate::rows::rows_from;
use crate::signs::is_word;
use lhg_lex::{Lines, Token};
use lhg_num::Frac;
use lhg_plant::{Location, Name, Side, Switch};
use lhg_row::Row;
use std::alloc::Global;

/// A switch as it is written: its two locations stand by their names.
#[derive(Drop)]
pub(crate) struct Written {
    pub name: Name,
    pub side: Side,
    pub from: Name,
    pub to: Name,
    pub jump: Vec<Row<Frac>>,
}

fn read_side(lines: &Lines, token: &Token) -> Option<Side>
    requires { IsSpan lines.now.bytes token.now }
    ensures { result ≡ side_of (plain_of lines.now.bytes token.now) }
{
    if is_word(lines, token, b"ctl") {
        Some(Side::Ctl)
    } else if is_word(lines, token, b"env") {
        Some(Side::Env)
    } else if is_word(lines, token, b"pick") {
        Some(Side::Pick)
    } else {
        None
    }
}

/// The switch of a line, behind its first word.
pub(crate) fn read_written(
    alloc: Global,
    lines: &Lines,
    vars: &[Name],
    tokens: &[Token],
) -> Result<Written, Refusal>
    requires spans { All (IsSpan lines.now.bytes) tokens.now }
    requires words { All (λ token. IsLexed (plain_of lines.now.bytes token)) tokens.now }
    ensures { IsRead result (switch_of vars.now (map (plain_of lines.now.bytes) tokens.now)) plain_written }
{
    let [name, side, from, to, ..] = tokens else {
        return Err(Refusal::NotHere);
    };
    let Some(name) = read_name(lines, name) else {
        return Err(Refusal::NotHere);
    };
    let Some(side) = read_side(lines, side) else {
        return Err(Refusal::NotHere);
    };
    let Some(from) = read_name(lines, from) else {
        return Err(Refusal::NotHere);
    };
    let Some(to) = read_name(lines, to) else {
        return Err(Refusal::NotHere);
    };
    let jump = rows_from(alloc, lines, vars, Form::Jump, &tokens[4..])?;
    Ok(Written {
        name,
        side,
        from,
        to,
        jump,
    })
}

/// The place of the location with this name.
pub fn place_in(locs: &[Location], name: &Name) -> Option<usize>
    ensures place { result ≡ position (λ l. bytes_eq l.name name.now) locs.now }
    ensures below { IfSome result (λ i. i < length locs.now) }
{
    locs.iter().position(|l| l.name.bytes() == name.bytes())
}

/// The switch between the places of its two locations, where both are there.
pub(crate) fn placed(written: Written, locs: &[Location]) -> Option<Switch>
    requires { length locs.now ≤ most_locations }
    ensures { option_map plain_switch result ≡ switch_at (loc_names (map plain_location locs.now)) (plain_written written) }
{
    let Some(from) = place_in(locs, &written.from) else {
        return None;
    };
    let Some(to) = place_in(locs, &written.to) else {
        return None;
    };
    Some(Switch {
        name: written.name,
        from: from as u32,
        to: to as u32,
        side: written.side,
        jump: written.jump,
    })
}
