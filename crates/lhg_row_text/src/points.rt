// Prints points and states.
ghost use Rattle.std.specs.Prelude.{◌≡◌, ◌<◌, ◌++◌, OnOk, length};
ghost use Rattle.lhg_plant.specs.Views.{plain_plant, plain_state};
ghost use Rattle.lhg_row_text.specs.PointText.{coordinate_text, next_coordinates, point_text, state_text};

use crate::numbers::push_number;
use lhg_num::Frac;
use lhg_plant::{Name, Plant, State};
use lhg_row::Point;
use std::alloc::AllocError;

// A coordinate.
fn push_coordinate(text: &mut Vec<u8>, name: &Name, x: &Frac) -> Result<(), AllocError>
    ensures { OnOk result (text.new.items ≡ text.old.items ++ coordinate_text name.now x.now) }
{
    text.extend_from_slice(name.bytes())?;
    text.extend_from_slice(b" = ")?;
    push_number(text, x)
}

// The coordinates behind the first.
fn push_next_coordinates(
    text: &mut Vec<u8>,
    vars: &[Name],
    coords: &[Frac],
) -> Result<(), AllocError>
    requires { length coords.now ≡ length vars.now }
    ensures { OnOk result (text.new.items ≡ text.old.items ++ next_coordinates vars.now coords.now) }
{
    for i in 0..vars.len() {
        text.extend_from_slice(b", ")?;
        push_coordinate(text, &vars[i], &coords[i])?;
    }
    Ok(())
}

// Coordinates, one for each variable.
fn push_coordinates(text: &mut Vec<u8>, vars: &[Name], coords: &[Frac]) -> Result<(), AllocError>
    requires { length coords.now ≡ length vars.now }
    ensures { OnOk result (text.new.items ≡ text.old.items ++ point_text vars.now coords.now) }
{
    if vars.is_empty() {
        return Ok(());
    }
    push_coordinate(text, &vars[0], &coords[0])?;
    push_next_coordinates(text, &vars[1..], &coords[1..])
}

/// Appends a point over the variables, as `NAME = NUMBER, ..`. After want of memory nothing is said of the text.
pub fn push_point(text: &mut Vec<u8>, vars: &[Name], point: &Point<Frac>) -> Result<(), AllocError>
    requires { length point.now ≡ length vars.now }
    ensures { OnOk result (text.new.items ≡ text.old.items ++ point_text vars.now point.now) }
{
    push_coordinates(text, vars, &point.at)
}

/// Appends a state, as `LOCATION POINT`. After want of memory nothing is said of the text.
pub fn push_state(text: &mut Vec<u8>, plant: &Plant, state: &State) -> Result<(), AllocError>
    requires place { state.now.loc < length plant.now.locs.items }
    requires length { length state.now.at ≡ length plant.now.vars.items }
    ensures { OnOk result (text.new.items ≡ text.old.items ++ state_text (plain_plant plant.now) (plain_state state.now)) }
{
    let name = plant.locs[state.loc as usize].name.bytes();
    text.extend_from_slice(name)?;
    text.extend_from_slice(b" ")?;
    push_point(text, &plant.vars, &state.at)
}
