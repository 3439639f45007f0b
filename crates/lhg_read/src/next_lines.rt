// The next line of a text, where there must be one.
ghost use Rattle.std.specs.Prelude.{◌≡◌, IfOk, IfErr, OnErr};
ghost use Rattle.lhg_lex.specs.Reading.{IsTokenLine};
ghost use Rattle.lhg_read.specs.TokenText.{IsNoLine};

use lhg_lex::{Line, Lines, ReadStop, What};
use std::alloc::Global;

/// The next line that has a token. Where there is none, the line after the last one cannot stand.
pub fn needed_line(alloc: Global, lines: &mut Lines) -> Result<Line, ReadStop>
    ensures line { IfOk result (IsTokenLine lines.old) }
    ensures read { IfOk result (λ line. lines.new ≡ record lines.old { read = line.number }) }
    ensures stop { IfErr result (IsNoLine lines.old) }
    ensures bytes { OnErr result (lines.new.bytes ≡ lines.old.bytes) }
{
    match lines.next(alloc)? {
        Some(line) => Ok(line),
        None => Err(ReadStop::Bad {
            line: lines.lines_read() + 1,
            column: 0,
            what: What::NotHere,
        }),
    }
}
