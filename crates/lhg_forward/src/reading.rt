// Reads the first states.
ghost use Rattle.std.specs.Prelude.{◌≡◌, length, map, IfOk, IfErr, OnErr};
ghost use Rattle.lhg_math.specs.Tests.{AllOf};
ghost use Rattle.lhg_plant.specs.Views.{plain_plant};
ghost use Rattle.lhg_read.specs.TokenText.{ReadsText, HasCause};
ghost use Rattle.lhg_ctl.specs.DraftStates.{IsPlaced};
ghost use Rattle.lhg_ctl.specs.Views.{plain_placed};
ghost use Rattle.lhg_forward.specs.InitText.{IsInit, IsSomeInitText};

use crate::init_lines::take_line;
use crate::open_inits::OpenInit;
use lhg_lex::{Lines, ReadStop};
use lhg_num::Frac;
use lhg_plant::Plant;
use lhg_read::{needed_line, stop_at};
use lhg_row::Row;
use std::alloc::Global;

/// The rows of the next lines, up to the line `end`, each with the place of its location. After a refusal the lines are of the same text,
/// and which line comes next is not promised.
pub fn read_init(
    alloc: Global,
    lines: &mut Lines,
    plant: &Plant,
) -> Result<Vec<(u32, Vec<Row<Frac>>)>, ReadStop>
    // the lines that are read are first states of the plant, and this is their value
    ensures ok { IfOk result (λ v. ReadsText (λ tokens. IsInit (plain_plant plant.now) tokens (map plain_placed v.items)) lines.old lines.new) }
    // its region can be made
    ensures placed { IfOk result (λ v. AllOf (IsPlaced (length plant.now.vars.items) (length plant.now.locs.items)) (map plain_placed v.items)) }
    // no next lines are first states of the plant, and this is the first line that cannot stand where it does
    ensures err { IfErr result (HasCause (IsSomeInitText (plain_plant plant.now)) lines.old) }
    ensures bytes { OnErr result (lines.new.bytes ≡ lines.old.bytes) }
{
    let mut init = OpenInit::new(alloc);
    while !init.ended {
        let line = needed_line(alloc, lines)?;
        if let Err(refusal) = take_line(alloc, lines, plant, &line.tokens, &mut init) {
            return Err(stop_at(refusal, line.number));
        }
    }
    let OpenInit { states, ended: _ } = init;
    Ok(states)
}
