// Reads controllers.
ghost use Rattle.std.specs.Prelude.{◌≡◌, IfOk, IfErr, OnErr};
ghost use Rattle.lhg_plant.specs.Views.{plain_plant};
ghost use Rattle.lhg_read.specs.TokenText.{ReadsText, HasCause};
ghost use Rattle.lhg_ctl.specs.ControllerGrammar.{IsController, IsSomeControllerText};
ghost use Rattle.lhg_ctl.specs.DraftStates.{IsGivenDraft};
ghost use Rattle.lhg_ctl.specs.Views.{plain_draft};

use crate::controller_lines::take_line;
use crate::controllers::Draft;
use crate::open_drafts::OpenDraft;
use crate::versions::version_of;
use lhg_lex::{Lines, ReadStop};
use lhg_plant::Plant;
use lhg_read::{Refusal, needed_line, stop_at};
use std::alloc::Global;

/// The controller of the next lines, up to the line `end`, as it is written, of version 1 or 2. After a refusal the lines are of
/// the same text, and which line comes next is not promised.
pub fn read_controller(alloc: Global, lines: &mut Lines, plant: &Plant) -> Result<Draft, ReadStop>
    // the lines that are read are a controller of the plant, and this is its value
    ensures ok { IfOk result (λ d. ReadsText (λ tokens. IsController (plain_plant plant.now) tokens (plain_draft d)) lines.old lines.new) }
    // a controller that is read can be made, and can be printed
    ensures given { IfOk result (λ d. IsGivenDraft (plain_plant plant.now) (plain_draft d)) }
    // no next lines are a controller of the plant, and this is the first line that cannot stand where it does
    ensures err { IfErr result (HasCause (IsSomeControllerText (plain_plant plant.now)) lines.old) }
    ensures bytes { OnErr result (lines.new.bytes ≡ lines.old.bytes) }
{
    let line = needed_line(alloc, lines)?;
    let Some(version) = version_of(lines, &line.tokens) else {
        return Err(stop_at(Refusal::NotHere, line.number));
    };
    let mut draft = OpenDraft::new(alloc, plant, version)?;
    while !draft.ended {
        let line = needed_line(alloc, lines)?;
        if let Err(refusal) = take_line(alloc, lines, plant, &line.tokens, &mut draft) {
            return Err(stop_at(refusal, line.number));
        }
    }
    let OpenDraft {
        version: _,
        begun: _,
        ended: _,
        draft,
        piece_counts: _,
        guard_counts: _,
        name_lists: _,
    } = draft;
    Ok(draft)
}
