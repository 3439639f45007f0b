// The result that is picked by a switch.
ghost use Rattle.std.specs.Prelude.{◌≡◌, ◌+◌, length, option_map, IfOk, IfSome};
ghost use Rattle.lhg_num.specs.Halting.{IsHaltedByWide, IsHaltedByRows};
ghost use Rattle.lhg_row.specs.Width.{AllWide};
ghost use Rattle.lhg_union.specs.PolyLists.{lines_of, AllVars};
ghost use Rattle.lhg_plant.specs.Pick as calculus;

use lhg_num::{Frac, Halt};
use lhg_poly::{Poly, make};
use lhg_row::{Point, Row, append_rows, put_in_each};
use lhg_sample::sample;
use std::alloc::Global;

/// The sample of the results, from the point by a switch with these jump rows, in the first of the pieces that holds one.
/// It halts for `Wide` and `Rows` only where the calculus of this call sets the mark, and for `Memory`.
pub fn first_result(
    alloc: Global,
    vars: usize,
    point: &Point<Frac>,
    jump: &[Row<Frac>],
    pieces: &[Poly<Frac>],
) -> Result<Option<Point<Frac>>, Halt>
    requires fits { length point.now ≡ vars }
    requires wide { AllWide (vars + vars) jump.now }
    requires same { AllVars vars pieces.now }
    ensures { IsHaltedByRows result (calculus.first_result vars point.now jump.now (lines_of pieces.now)) (λ o. o) }
{
    for piece in pieces {
        let results = results_in(alloc, vars, point, jump, piece)?;
        if let Some(results) = results {
            let picked = sample(alloc, &results)?;
            return Ok(Some(picked));
        }
    }
    Ok(None)
}

/// The results in the piece, where there is one.
/// It halts for `Wide` and `Rows` only where the calculus of this call sets the mark, and for `Memory`.
pub fn results_in(
    alloc: Global,
    vars: usize,
    point: &Point<Frac>,
    jump: &[Row<Frac>],
    piece: &Poly<Frac>,
) -> Result<Option<Poly<Frac>>, Halt>
    requires fits { length point.now ≡ vars }
    requires wide { AllWide (vars + vars) jump.now }
    requires same { piece.now.width ≡ vars }
    ensures calculus { IsHaltedByRows result (calculus.results_in vars point.now jump.now piece.now.lines) (option_map (λ p. p.lines)) }
    ensures vars { IfOk result (λ o. IfSome o (λ p. p.width ≡ vars)) }
{
    let rows = result_rows(alloc, vars, point, jump, piece.rows())?;
    make(alloc, vars, rows)
}

/// The rows that these results satisfy, over the variables of a point: the jump rows with the point put in, then those of the piece.
/// It halts for `Wide` only where the calculus of this call sets the mark, and for `Memory`.
pub fn result_rows(
    alloc: Global,
    vars: usize,
    point: &Point<Frac>,
    jump: &[Row<Frac>],
    piece: &[Row<Frac>],
) -> Result<Vec<Row<Frac>>, Halt>
    requires fits { length point.now ≡ vars }
    requires wide { AllWide (vars + vars) jump.now }
    requires same { AllWide vars piece.now }
    ensures calculus { IsHaltedByWide result (calculus.result_rows point.now jump.now piece.now) (λ v. v.items) }
    ensures wide { IfOk result (λ v. AllWide vars v.items) }
{
    let _ = vars;
    let mut rows = put_in_each(alloc, jump, point)?;
    append_rows(alloc, &mut rows, piece)?;
    Ok(rows)
}
