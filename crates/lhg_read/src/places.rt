// The places of locations and switches that tokens name.
ghost use Rattle.std.specs.Prelude.{◌≡◌, ◌<◌, length, IfSome};
ghost use Rattle.std.specs.List.{position};
ghost use Rattle.std.specs.Str.{bytes_eq};
ghost use Rattle.lhg_lex.specs.TextTokens.{plain_of, IsSpan};
ghost use Rattle.lhg_plant.specs.Views.{plain_plant};
ghost use Rattle.lhg_read.specs.Lexed.{IsLexed};
ghost use Rattle.lhg_read.specs.StateText.{location_in};
ghost use Rattle.lhg_read.specs.SwitchName.{is_controllable, is_uncontrollable, switch_in};

use crate::names::read_name;
use crate::switches::place_in;
use lhg_lex::{Lines, Token};
use lhg_plant::{Name, Plant, Side, Switch};

/// The place of the location that the token names.
pub fn location_named(lines: &Lines, plant: &Plant, token: &Token) -> Option<u32>
    requires span { IsSpan lines.now.bytes token.now }
    requires word { IsLexed (plain_of lines.now.bytes token.now) }
    ensures place { result ≡ location_in (plain_plant plant.now) (plain_of lines.now.bytes token.now) }
    ensures below { IfSome result (λ l. l < length plant.now.locs.items) }
{
    let Some(name) = read_name(lines, token) else {
        return None;
    };
    let Some(place) = place_in(&plant.locs, &name) else {
        return None;
    };
    Some(place as u32)
}

// The place of the switch with this name.
fn place_of(switches: &[Switch], name: &Name) -> Option<usize>
    ensures place { result ≡ position (λ s. bytes_eq s.name name.now) switches.now }
    ensures below { IfSome result (λ e. e < length switches.now) }
{
    switches.iter().position(|s| s.name.bytes() == name.bytes())
}

// Whether the controller takes switches of the side.
fn is_controllable(side: Side) -> bool
    ensures { result ≡ is_controllable side }
{
    match side {
        Side::Ctl => true,
        Side::Env => false,
        Side::Pick => true,
    }
}

// Whether the plant takes switches of the side.
fn is_uncontrollable(side: Side) -> bool
    ensures { result ≡ is_uncontrollable side }
{
    match side {
        Side::Ctl => false,
        Side::Env => true,
        Side::Pick => false,
    }
}

/// The place of the controllable switch that the token names.
pub fn controllable_named(lines: &Lines, plant: &Plant, token: &Token) -> Option<u32>
    requires span { IsSpan lines.now.bytes token.now }
    requires word { IsLexed (plain_of lines.now.bytes token.now) }
    ensures place { result ≡ switch_in is_controllable (plain_plant plant.now) (plain_of lines.now.bytes token.now) }
    ensures below { IfSome result (λ e. e < length plant.now.switches.items) }
{
    let Some(name) = read_name(lines, token) else {
        return None;
    };
    let Some(place) = place_of(&plant.switches, &name) else {
        return None;
    };
    if !is_controllable(plant.switches[place].side) {
        return None;
    }
    Some(place as u32)
}

/// The place of the uncontrollable switch that the token names.
pub fn uncontrollable_named(lines: &Lines, plant: &Plant, token: &Token) -> Option<u32>
    requires span { IsSpan lines.now.bytes token.now }
    requires word { IsLexed (plain_of lines.now.bytes token.now) }
    ensures { result ≡ switch_in is_uncontrollable (plain_plant plant.now) (plain_of lines.now.bytes token.now) }
{
    let Some(name) = read_name(lines, token) else {
        return None;
    };
    let Some(place) = place_of(&plant.switches, &name) else {
        return None;
    };
    if !is_uncontrollable(plant.switches[place].side) {
        return None;
    }
    Some(place as u32)
}
