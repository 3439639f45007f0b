// Reads plants.
ghost use Rattle.std.specs.Prelude.{◌≡◌, IfOk, IfErr, OnErr};
ghost use Rattle.lhg_plant.specs.Printable.{IsPrintable};
ghost use Rattle.lhg_plant.specs.Views.{plain_plant};
ghost use Rattle.lhg_read.specs.PlantText.{IsPlant, IsSomePlantText};
ghost use Rattle.lhg_read.specs.TokenText.{ReadsText, HasCause};

use crate::draft::Draft;
use crate::heads::is_head;
use crate::names::read_vars;
use crate::next_lines::needed_line;
use crate::plant_lines::take_line;
use crate::refusal::{Refusal, stop_at};
use lhg_lex::{Lines, ReadStop};
use lhg_plant::Plant;
use std::alloc::Global;

/// The plant of the next lines, up to the line `end`. After a refusal the lines are of the same text, and which line
/// comes next is not promised.
pub fn read_plant(alloc: Global, lines: &mut Lines) -> Result<Plant, ReadStop>
    // the lines that are read are a plant, and this is its value
    ensures ok { IfOk result (λ p. ReadsText (λ tokens. IsPlant tokens (plain_plant p)) lines.old lines.new) }
    // a plant that is read can be printed
    ensures printable { IfOk result (λ p. IsPrintable (plain_plant p)) }
    // no next lines are a plant, and this is the first line that cannot stand where it does
    ensures err { IfErr result (HasCause IsSomePlantText lines.old) }
    ensures bytes { OnErr result (lines.new.bytes ≡ lines.old.bytes) }
{
    let line = needed_line(alloc, lines)?;
    if !is_head(lines, &line.tokens, b"lhg") {
        return Err(stop_at(Refusal::NotHere, line.number));
    }
    let line = needed_line(alloc, lines)?;
    let vars = match read_vars(alloc, lines, &line.tokens) {
        Ok(vars) => vars,
        Err(refusal) => return Err(stop_at(refusal, line.number)),
    };
    let mut draft = Draft::new(alloc);
    while !draft.ended {
        let line = needed_line(alloc, lines)?;
        if let Err(refusal) = take_line(alloc, lines, &vars, &line.tokens, &mut draft) {
            return Err(stop_at(refusal, line.number));
        }
    }
    let Draft {
        locs,
        has_inv: _,
        has_flow: _,
        switches,
        ended: _,
    } = draft;
    Ok(Plant {
        vars,
        locs,
        switches,
    })
}
