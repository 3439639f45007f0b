// The text of a plant with k locations, which lose their states below the gap one after the other.
ghost use Rattle.std.specs.Prelude.{◌≡◌, ◌≤◌, ◌<◌, ◌-◌, ◌++◌, ◌∷◌, OnOk, IfOk, IfErr, length, map, decimal};
ghost use Rattle.std.specs.List.{flat_map, range_with_len};
ghost use Rattle.lhg_lex.specs.Lines.{lines_of, most_bytes};
ghost use Rattle.lhg_read.specs.PlantText.{IsPlantText};
ghost use Rattle.lhg_row_text.specs.PrintedLine.{line};
ghost use Rattle.lhg_gen.specs.GeneratedPlant.{generated_plant};
ghost use Rattle.lhg_gen.specs.GeneratedText.{location_lines, switch_line, generated_text};
ghost use Rattle.lhg_gen.specs.Sizes.{IsSize, HasCause};

use crate::GenStop;
use itoa::Buffer;
use lhg_plant::MOST_LOCATIONS;
use std::alloc::{AllocError, Global};

// Appends a space, a letter and a number.
fn push_name(text: &mut Vec<u8>, letter: u8, number: u32) -> Result<(), AllocError>
    ensures { OnOk result (text.new.items ≡ text.old.items ++ 32 ∷ letter ∷ decimal number) }
{
    let mut buffer = Buffer::new();
    text.extend_from_slice(&[b' ', letter])?;
    text.extend_from_slice(buffer.format(number).as_bytes())
}

// The lines of a location.
fn push_location(text: &mut Vec<u8>, number: u32) -> Result<(), AllocError>
    ensures { OnOk result (text.new.items ≡ text.old.items ++ flat_map line (location_lines number)) }
{
    text.extend_from_slice(b"loc")?;
    push_name(text, b'a', number)?;
    text.extend_from_slice(b"\ninv 0 <= x <= 10\nflow x = 1\nsafe x <= 8\nsafe x >= 9\n")
}

// The first locations, so many.
fn push_locations(text: &mut Vec<u8>, count: u32) -> Result<(), AllocError>
    requires { count ≤ 64 }
    ensures { OnOk result (text.new.items ≡ text.old.items ++ flat_map line (flat_map location_lines (range_with_len 1 count))) }
{
    for i in 0..count {
        push_location(text, i + 1)?;
    }
    Ok(())
}

// The line of the switch from a location to the next.
fn push_switch(text: &mut Vec<u8>, number: u32) -> Result<(), AllocError>
    requires { number < 64 }
    ensures { OnOk result (text.new.items ≡ text.old.items ++ line (switch_line number)) }
{
    text.extend_from_slice(b"switch")?;
    push_name(text, b'g', number)?;
    text.extend_from_slice(b" ctl")?;
    push_name(text, b'a', number)?;
    push_name(text, b'a', number + 1)?;
    text.extend_from_slice(b" keep\n")
}

// The first switches, so many.
fn push_switches(text: &mut Vec<u8>, count: u32) -> Result<(), AllocError>
    requires { count < 64 }
    ensures { OnOk result (text.new.items ≡ text.old.items ++ flat_map line (map switch_line (range_with_len 1 count))) }
{
    for i in 0..count {
        push_switch(text, i + 1)?;
    }
    Ok(())
}

// The text of the plant with so many locations.
fn text_with(alloc: Global, count: u32) -> Result<Vec<u8>, AllocError>
    requires { IsSize count }
    ensures { IfOk result (λ v. v.items ≡ generated_text count) }
{
    let mut text = Vec::new(alloc);
    text.extend_from_slice(b"lhg 1\nvars x\n")?;
    push_locations(&mut text, count)?;
    push_switches(&mut text, count - 1)?;
    text.extend_from_slice(b"end\n")?;
    Ok(text)
}

/// The text of the plant with `k` locations, 1 to 64 of them. From each but the last a switch leads to the next.
pub fn plant_of(alloc: Global, k: u32) -> Result<Vec<u8>, GenStop>
    ensures size { OnOk result (IsSize k) }
    ensures text { IfOk result (λ v. v.items ≡ generated_text k) }
    // the text is a plant of the grammar, and short enough to be read
    ensures plant { IfOk result (λ v. IsPlantText (lines_of v.items) (generated_plant k)) }
    ensures short { IfOk result (λ v. length v.items ≤ most_bytes) }
    ensures err { IfErr result (HasCause k) }
{
    if k < 1 || k as usize > MOST_LOCATIONS {
        return Err(GenStop::Range);
    }
    let text = text_with(alloc, k)?;
    Ok(text)
}
