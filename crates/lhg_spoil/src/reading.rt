// Reads the moves of a controller.
ghost use Rattle.std.specs.Prelude.{◌≡◌, IfOk, IfErr, OnErr};
ghost use Rattle.lhg_plant.specs.Views.{plain_plant};
ghost use Rattle.lhg_read.specs.TokenText.{ReadsText, HasCause};
ghost use Rattle.lhg_spoil.specs.Views.{plain_ctl_moves};
ghost use Rattle.lhg_spoil.specs.MovesText.{IsMoves, IsSomeMovesText};

use crate::ctl_moves::CtlMove;
use crate::move_lines::take_line;
use crate::open_moves::OpenMoves;
use lhg_lex::{Lines, ReadStop};
use lhg_plant::Plant;
use lhg_read::{needed_line, stop_at};
use std::alloc::Global;

/// The moves of the next lines, up to the line `end`. After a refusal the lines are of the same text, and which line comes next is not
/// promised.
pub fn read_moves(alloc: Global, lines: &mut Lines, plant: &Plant) -> Result<Vec<CtlMove>, ReadStop>
    // the lines that are read are moves against the plant, and these are their values
    ensures ok { IfOk result (λ m. ReadsText (λ tokens. IsMoves (plain_plant plant.now) tokens (plain_ctl_moves m.items)) lines.old lines.new) }
    // no next lines are moves against the plant, and this is the first line that cannot stand where it does
    ensures err { IfErr result (HasCause (IsSomeMovesText (plain_plant plant.now)) lines.old) }
    ensures bytes { OnErr result (lines.new.bytes ≡ lines.old.bytes) }
{
    let mut read = OpenMoves::new(alloc);
    while !read.ended {
        let line = needed_line(alloc, lines)?;
        if let Err(refusal) = take_line(alloc, lines, plant, &line.tokens, &mut read) {
            return Err(stop_at(refusal, line.number));
        }
    }
    let OpenMoves { moves, ended: _ } = read;
    Ok(moves)
}
