// A guess at whether a system has a point.
ghost use Rattle.std.specs.Prelude.{IfOk};
ghost use Rattle.lhg_row.specs.Width.{AllWide};
ghost use Rattle.lhg_simplex.specs.Boxes.{IsPromised};
ghost use Rattle.lhg_simplex.specs.Hint.{HaltsForMemory};
ghost use Rattle.lhg_simplex.specs.Verdict.{IsAnswer};

use crate::boxes::{are_boxed, box_guess};
use crate::confirming::told;
use crate::guesses::Guess;
use crate::hints::Hint;
use crate::reading::{point, refutation};
use crate::solving::{End, Search};
use crate::whole::Entry;
use lhg_num::{Frac, Halt, Scalar};
use lhg_row::{Row, System};
use std::alloc::Global;

/// A hint at whether the system has a point: a point, or multipliers of the rows, or nothing. It makes at most four pivots for each row and each variable.
/// Where each row has exactly one coefficient other than 0, the hint is a point of the system or refutes it, unless for some variable
/// a number is past the limit that the comparison of its bounds forms, or the value between them.
/// It halts for `Memory` alone.
pub fn guess(alloc: Global, sys: &System<Frac>) -> Result<Guess, Halt>
    ensures memory { HaltsForMemory result }
    ensures promise { IfOk result (IsPromised sys.now.width sys.now.lines) }
{
    let vars = sys.vars();
    let rows = sys.rows();
    if !are_boxed(vars, rows) {
        return guess_rows(alloc, vars, rows);
    }
    match box_guess(alloc, vars, rows)? {
        Guess::Undecided => guess_rows(alloc, vars, rows),
        hint => Ok(hint),
    }
}

// The same of rows, each over `vars` variables.
fn guess_rows(alloc: Global, vars: usize, rows: &[Row<Frac>]) -> Result<Guess, Halt>
    requires { AllWide vars rows.now }
    ensures { HaltsForMemory result }
{
    match hint(alloc, vars, rows)? {
        Hint::Point(point) => Ok(Guess::Point(point)),
        Hint::Multipliers(ms) => Ok(Guess::Multipliers(ms)),
        Hint::Undecided => Ok(Guess::Undecided),
    }
}

// A guess in the numbers of the rows, by whole numbers of 64 bits, and by those of 128 bits where one of them grows too large.
fn hint<N: Scalar>(alloc: Global, vars: usize, rows: &[Row<N>]) -> Result<Hint<N>, Halt>
    requires { AllWide vars rows.now }
    ensures { HaltsForMemory result }
{
    match searched::<N, i64>(alloc, vars, rows)? {
        Some(hint) => Ok(hint),
        None => match searched::<N, i128>(alloc, vars, rows)? {
            Some(hint) => Ok(hint),
            None => Ok(Hint::Undecided),
        },
    }
}

// The same by one type of whole numbers. It is none where one of them grows too large.
fn searched<N: Scalar, W: Entry>(
    alloc: Global,
    vars: usize,
    rows: &[Row<N>],
) -> Result<Option<Hint<N>>, Halt>
    requires { AllWide vars rows.now }
    ensures { HaltsForMemory result }
{
    let Some(mut search) = Search::<W>::new(alloc, vars, rows.len())? else {
        return Ok(None);
    };
    match search.run(rows) {
        Some(End::Point) => Ok(Some(point(alloc, &mut search)?)),
        Some(End::Refuted(i)) => Ok(Some(refutation(alloc, &search, i)?)),
        Some(End::Many) => Ok(Some(Hint::Undecided)),
        None => Ok(None),
    }
}

/// Whether the rows, each over `vars` variables, have no point, where a guess tells. It halts for `Memory` alone.
pub fn decide<N: Scalar>(alloc: Global, vars: usize, rows: &[Row<N>]) -> Result<Option<bool>, Halt>
    requires { AllWide vars rows.now }
    ensures memory { HaltsForMemory result }
    ensures points { IfOk result (IsAnswer vars rows.now) }
{
    let hint = hint(alloc, vars, rows)?;
    Ok(told(vars, rows, &hint))
}
