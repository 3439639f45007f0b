// Prints plants.
ghost use Rattle.std.specs.Prelude.{◌≡◌, ◌<◌, ◌+◌, ◌++◌, ◌∷◌, [], OnOk, IfOk, length, map, slice_get, codes};
ghost use Rattle.std.specs.List.{flat_map};
ghost use Rattle.lhg_num.specs.Halting.{IsHaltedByMemory};
ghost use Rattle.lhg_num.specs.Marked.{done};
ghost use Rattle.lhg_math.specs.Tests.{AllOf};
ghost use Rattle.lhg_row.specs.Width.{AllWide};
ghost use Rattle.lhg_lex.specs.Lines.{lines_of};
ghost use Rattle.lhg_plant.specs.Printable.{IsPrintable};
ghost use Rattle.lhg_plant.specs.Proper.{IsLocation, IsSwitch};
ghost use Rattle.lhg_plant.specs.Views.{plain_plant, plain_location, plain_switch};
ghost use Rattle.lhg_read.specs.PlantText.{IsPlantText};
ghost use Rattle.lhg_text.specs.PlantText.{side_text, safe_line, location_lines, switch_line, plant_text};
ghost use Rattle.lhg_row_text.specs.PrintedLine.{line, spaced, location_name};
ghost use Rattle.lhg_row_text.specs.RowText.{rows_text};
ghost use Rattle.lhg_row_text.specs.Short.{AllShort};
ghost use Rattle.lhg_text.specs.ShortPlant.{IsShortLocation, IsShortPlant};

use crate::words::push_word;
use lhg_num::{Frac, Halt};
use lhg_plant::{Location, Name, Plant, Side, Switch};
use lhg_row::Row;
use lhg_row_text::{push_jump_rows, push_rows};
use std::alloc::{AllocError, Global};

// Names, each behind a space.
fn push_names(text: &mut Vec<u8>, names: &[Name]) -> Result<(), AllocError>
    ensures { OnOk result (text.new.items ≡ text.old.items ++ flat_map (λ w. 32 ∷ w) names.now) }
{
    for name in names {
        push_word(text, name.bytes())?;
    }
    Ok(())
}

// The line of the variables.
fn push_vars(text: &mut Vec<u8>, vars: &[Name]) -> Result<(), AllocError>
    ensures { OnOk result (text.new.items ≡ text.old.items ++ line (spaced (codes "vars" ∷ vars.now))) }
{
    text.extend_from_slice(b"vars")?;
    push_names(text, vars)?;
    text.extend_from_slice(b"\n")
}

// A line of rows behind a keyword and a space.
fn push_rows_line(
    text: &mut Vec<u8>,
    keyword: &[u8],
    vars: &[Name],
    rows: &[Row<Frac>],
) -> Result<(), AllocError>
    requires { AllWide (length vars.now) rows.now }
    ensures text { OnOk result (text.new.items ≡ text.old.items ++ line (keyword.now ++ rows_text vars.now rows.now)) }
    ensures short { OnOk result (AllShort rows.now) }
{
    text.extend_from_slice(keyword)?;
    push_rows(text, vars, rows)?;
    text.extend_from_slice(b"\n")
}

// The lines of the safe states.
fn push_safe_lines(
    text: &mut Vec<u8>,
    vars: &[Name],
    safe: &[Vec<Row<Frac>>],
) -> Result<(), AllocError>
    requires { AllOf (AllWide (length vars.now)) (map (λ rows. rows.items) safe.now) }
    ensures text { OnOk result (text.new.items ≡ text.old.items ++ flat_map line (map (safe_line vars.now) (map (λ rows. rows.items) safe.now))) }
    ensures short { OnOk result (AllOf AllShort (map (λ rows. rows.items) safe.now)) }
{
    for i in 0..safe.len() {
        push_rows_line(text, b"safe ", vars, &safe[i])?;
    }
    Ok(())
}

fn push_location(text: &mut Vec<u8>, vars: &[Name], location: &Location) -> Result<(), AllocError>
    requires { IsLocation (length vars.now) (plain_location location.now) }
    ensures text { OnOk result (text.new.items ≡ text.old.items ++ flat_map line (location_lines vars.now (plain_location location.now))) }
    ensures short { OnOk result (IsShortLocation (plain_location location.now)) }
{
    text.extend_from_slice(b"loc")?;
    push_word(text, location.name.bytes())?;
    text.extend_from_slice(b"\n")?;
    push_rows_line(text, b"inv ", vars, &location.inv)?;
    push_rows_line(text, b"flow ", vars, &location.flow)?;
    push_safe_lines(text, vars, &location.safe)
}

fn push_locations(text: &mut Vec<u8>, vars: &[Name], locs: &[Location]) -> Result<(), AllocError>
    requires { AllOf (IsLocation (length vars.now)) (map plain_location locs.now) }
    ensures text { OnOk result (text.new.items ≡ text.old.items ++ flat_map line (flat_map (location_lines vars.now) (map plain_location locs.now))) }
    ensures short { OnOk result (AllOf IsShortLocation (map plain_location locs.now)) }
{
    for i in 0..locs.len() {
        push_location(text, vars, &locs[i])?;
    }
    Ok(())
}

fn side_name(side: Side) -> &'static [u8]
    ensures { result.now ≡ side_text side }
{
    match side {
        Side::Ctl => b"ctl",
        Side::Env => b"env",
        Side::Pick => b"pick",
    }
}

// The names of the locations of a switch, each behind a space.
fn push_ends(text: &mut Vec<u8>, locs: &[Location], switch: &Switch) -> Result<(), AllocError>
    requires from { switch.now.from < length locs.now }
    requires to { switch.now.to < length locs.now }
    ensures { OnOk result (text.new.items ≡ text.old.items ++ 32 ∷ (location_name (slice_get (map plain_location locs.now) switch.now.from) ++ 32 ∷ location_name (slice_get (map plain_location locs.now) switch.now.to))) }
{
    push_word(text, locs[switch.from as usize].name.bytes())?;
    push_word(text, locs[switch.to as usize].name.bytes())
}

fn push_switch(
    text: &mut Vec<u8>,
    vars: &[Name],
    locs: &[Location],
    switch: &Switch,
) -> Result<(), AllocError>
    requires { IsSwitch (length vars.now) (length locs.now) (plain_switch switch.now) }
    ensures text { OnOk result (text.new.items ≡ text.old.items ++ line (switch_line vars.now (map plain_location locs.now) (plain_switch switch.now))) }
    ensures short { OnOk result (AllShort switch.now.jump.items) }
{
    text.extend_from_slice(b"switch")?;
    push_word(text, switch.name.bytes())?;
    push_word(text, side_name(switch.side))?;
    push_ends(text, locs, switch)?;
    text.extend_from_slice(b" ")?;
    push_jump_rows(text, vars, &switch.jump)?;
    text.extend_from_slice(b"\n")
}

fn push_switches(
    text: &mut Vec<u8>,
    vars: &[Name],
    locs: &[Location],
    switches: &[Switch],
) -> Result<(), AllocError>
    requires { AllOf (IsSwitch (length vars.now) (length locs.now)) (map plain_switch switches.now) }
    ensures text { OnOk result (text.new.items ≡ text.old.items ++ flat_map line (map (switch_line vars.now (map plain_location locs.now)) (map plain_switch switches.now))) }
    ensures short { OnOk result (AllOf (λ s. AllShort s.jump) (map plain_switch switches.now)) }
{
    for i in 0..switches.len() {
        push_switch(text, vars, locs, &switches[i])?;
    }
    Ok(())
}

fn push_plant(text: &mut Vec<u8>, plant: &Plant) -> Result<(), AllocError>
    ensures text { OnOk result (text.new.items ≡ text.old.items ++ plant_text (plain_plant plant.now)) }
    ensures short { OnOk result (IsShortPlant (plain_plant plant.now)) }
{
    text.extend_from_slice(b"lhg 1\n")?;
    push_vars(text, &plant.vars)?;
    push_locations(text, &plant.vars, &plant.locs)?;
    push_switches(text, &plant.vars, &plant.locs, &plant.switches)?;
    text.extend_from_slice(b"end\n")
}

/// The text of a plant in which each row has a variable, and no variable is named like a keyword for rows, as in each plant
/// that was read. It halts for `Memory` alone.
pub fn print_plant(alloc: Global, plant: &Plant) -> Result<Vec<u8>, Halt>
    requires { IsPrintable (plain_plant plant.now) }
    ensures text { IsHaltedByMemory result (done (plant_text (plain_plant plant.now))) (λ v. v.items) }
    // it is a plant of the grammar, whose value is the plant
    ensures reads_back { IfOk result (λ v. IsPlantText (lines_of v.items) (plain_plant plant.now)) }
{
    let mut text = Vec::new(alloc);
    push_plant(&mut text, plant)?;
    Ok(text)
}
