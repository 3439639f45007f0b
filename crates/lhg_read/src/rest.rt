// The end of the input.
ghost use Rattle.std.specs.Prelude.{◌≡◌, OnOk, IfErr};
ghost use Rattle.lhg_lex.specs.Reading.{IsAtEnd};
ghost use Rattle.lhg_read.specs.Rest.{HasSurplus};

use crate::refusal::{Refusal, stop_at};
use lhg_lex::{Lines, ReadStop};
use std::alloc::Global;

/// Reads to the end of the input, behind the last part of the text. `Bad` comes exactly where a line is left that is not
/// blank, with the first such line and its error; `Memory` for want of it. After a refusal which line comes next is not promised.
pub fn finish(alloc: Global, lines: &mut Lines) -> Result<(), ReadStop>
    // only blank lines were left
    ensures ok { OnOk result (IsAtEnd lines.old) }
    // a line is left that is not blank, and this is the first
    ensures err { IfErr result (HasSurplus lines.old) }
    ensures bytes { lines.new.bytes ≡ lines.old.bytes }
{
    match lines.next(alloc)? {
        None => Ok(()),
        Some(line) => Err(stop_at(Refusal::NotHere, line.number)),
    }
}
