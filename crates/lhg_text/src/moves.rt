// Prints flows, switches, and states behind them.
ghost use Rattle.std.specs.Prelude.{◌≡◌, ◌<◌, ◌++◌, ◌∷◌, OnOk, length, slice_get};
ghost use Rattle.lhg_plant.specs.Views.{plain_plant, plain_state};
ghost use Rattle.lhg_row_text.specs.PointText.{state_text};
ghost use Rattle.lhg_row_text.specs.PrintedLine.{switch_name};
ghost use Rattle.lhg_text.specs.TraceText.{IsPlacedState, flow_line, env_line};

use crate::words::push_word;
use lhg_num::Frac;
use lhg_plant::{Plant, State};
use lhg_row::Point;
use lhg_row_text::{push_number, push_point, push_state};
use std::alloc::AllocError;

/// A state behind a space.
pub(crate) fn push_spaced_state(
    text: &mut Vec<u8>,
    plant: &Plant,
    state: &State,
) -> Result<(), AllocError>
    requires { IsPlacedState (plain_plant plant.now) (plain_state state.now) }
    ensures { OnOk result (text.new.items ≡ text.old.items ++ 32 ∷ state_text (plain_plant plant.now) (plain_state state.now)) }
{
    text.extend_from_slice(b" ")?;
    push_state(text, plant, state)
}

/// The name of a switch behind a space.
pub(crate) fn push_switch(text: &mut Vec<u8>, plant: &Plant, number: u32) -> Result<(), AllocError>
    requires { number < length plant.now.switches.items }
    ensures { OnOk result (text.new.items ≡ text.old.items ++ 32 ∷ switch_name (slice_get (plain_plant plant.now).switches number)) }
{
    push_word(text, plant.switches[number as usize].name.bytes())
}

/// `flow`, a time and a point.
pub(crate) fn push_flow(
    text: &mut Vec<u8>,
    plant: &Plant,
    time: &Frac,
    to: &Point<Frac>,
) -> Result<(), AllocError>
    requires { length to.now ≡ length plant.now.vars.items }
    ensures { OnOk result (text.new.items ≡ text.old.items ++ flow_line plant.now.vars.items time.now to.now) }
{
    text.extend_from_slice(b"flow ")?;
    push_number(text, time)?;
    text.extend_from_slice(b" ")?;
    push_point(text, &plant.vars, to)
}

/// `env`, a switch and its result.
pub(crate) fn push_env(
    text: &mut Vec<u8>,
    plant: &Plant,
    switch: u32,
    target: &State,
) -> Result<(), AllocError>
    requires switch { switch < length plant.now.switches.items }
    requires target { IsPlacedState (plain_plant plant.now) (plain_state target.now) }
    ensures { OnOk result (text.new.items ≡ text.old.items ++ env_line (plain_plant plant.now) switch (plain_state target.now)) }
{
    text.extend_from_slice(b"env")?;
    push_switch(text, plant, switch)?;
    push_spaced_state(text, plant, target)
}
