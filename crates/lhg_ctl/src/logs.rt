// Reads logs.
ghost use Rattle.std.specs.Prelude.{◌≡◌, IfOk, IfErr, OnErr};
ghost use Rattle.lhg_plant.specs.Views.{plain_plant};
ghost use Rattle.lhg_read.specs.TokenText.{ReadsText, HasCause};
ghost use Rattle.lhg_ctl.specs.LogText.{IsLog, IsSomeLogText};
ghost use Rattle.lhg_ctl.specs.LogViews.{plain_log};

use crate::entries::Entry;
use crate::log_lines::take_line;
use crate::open_logs::OpenLog;
use lhg_lex::{Lines, ReadStop};
use lhg_plant::{Plant, State};
use lhg_read::{needed_line, state_by, stop_at};
use std::alloc::Global;

/// The log of the next lines, up to the line `end`: its start and its entries. After a refusal the lines are of the same text,
/// and which line comes next is not promised.
pub fn read_log(
    alloc: Global,
    lines: &mut Lines,
    plant: &Plant,
) -> Result<(State, Vec<Entry>), ReadStop>
    // the lines that are read are a log of the plant, and this is its value
    ensures ok { IfOk result (λ l. ReadsText (λ tokens. IsLog (plain_plant plant.now) tokens (plain_log l.0 l.1.items)) lines.old lines.new) }
    // no next lines are a log of the plant, and this is the first line that cannot stand where it does
    ensures err { IfErr result (HasCause (IsSomeLogText (plain_plant plant.now)) lines.old) }
    ensures bytes { OnErr result (lines.new.bytes ≡ lines.old.bytes) }
{
    let line = needed_line(alloc, lines)?;
    let start = match state_by(alloc, lines, plant, b"start", &line.tokens) {
        Ok(start) => start,
        Err(refusal) => return Err(stop_at(refusal, line.number)),
    };
    let mut log = OpenLog::new(alloc, start);
    while !log.ended {
        let line = needed_line(alloc, lines)?;
        if let Err(refusal) = take_line(alloc, lines, plant, &line.tokens, &mut log) {
            return Err(stop_at(refusal, line.number));
        }
    }
    let OpenLog {
        start,
        entries,
        ended: _,
    } = log;
    Ok((start, entries))
}
