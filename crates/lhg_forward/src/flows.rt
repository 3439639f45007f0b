// The states to which a flow leads from a piece.
//
// A flow leads from x to y exactly where one against the flow rows, each with its coefficients negated, leads from y to x. All points between
// the two are in the invariant where both ends are, since a piece is convex. So one crossing from the invariant through it into the piece
// gives all states to which a flow leads from there; and one flow stands for a play, since straight pieces join.
ghost use Rattle.std.specs.Prelude.{◌≡◌, ◌<◌, length, map, option_map, IfOk, IfSome};
ghost use Rattle.lhg_num.specs.FracArithmetic.{frac_arithmetic};
ghost use Rattle.lhg_num.specs.Marked.{done};
ghost use Rattle.lhg_num.specs.Halting.{IsHaltedByRows, IsHaltedByMemory};
ghost use Rattle.lhg_row.specs.Width.{AllWide};
ghost use Rattle.lhg_motion.specs.CrossCalculus as crossings;
ghost use Rattle.lhg_plant.specs.Sound.{IsInside};
ghost use Rattle.lhg_plant.specs.Views.{plain_plant};
ghost use Rattle.lhg_forward.specs.After as calculus;
ghost use Rattle.lhg_forward.specs.AfterFacts.{IsFlowEnd, HasPointsOr};

use crate::invariants::invariant;
use lhg_cross::{Tally, cross};
use lhg_num::{Frac, Halt};
use lhg_plant::Plant;
use lhg_poly::Poly;
use lhg_row::{Row, negate};
use std::alloc::Global;

/// The states of the location to which a legal flow leads from the piece, which lies inside its invariant. It is none exactly where there is none.
/// It halts for `Wide` only where fractions refuse an operation of the calculus of this call, for `Rows` only where it has a
/// list past `ROW_LIMIT`, and for `Memory`.
pub fn after_flow(
    alloc: Global,
    plant: &Plant,
    loc: u32,
    piece: &Poly<Frac>,
) -> Result<Option<Poly<Frac>>, Halt>
    requires there { loc < length plant.now.locs.items }
    requires vars { piece.now.width ≡ length plant.now.vars.items }
    requires inside { IsInside (plain_plant plant.now) loc piece.now.lines }
    ensures calculus { IsHaltedByRows result (calculus.after_flow (plain_plant plant.now) loc piece.now.lines) (option_map (λ p. p.lines)) }
    ensures vars { IfOk result (λ o. IfSome o (λ p. p.width ≡ length plant.now.vars.items)) }
    ensures points { IfOk result (λ o. HasPointsOr (length plant.now.vars.items) (IsFlowEnd (plain_plant plant.now) loc piece.now.lines) (option_map (λ p. p.lines) o)) }
{
    // A call on the piece tells its invariant, for `points`.
    let _ = piece.rows();
    let vars = plant.vars.len();
    let location = &plant.locs[loc as usize];
    match invariant(alloc, vars, location)? {
        None => Ok(None),
        Some(inv) => flow_within(alloc, &inv, piece, &location.flow),
    }
}

// The points of the invariant from which one straight flow against the flow rows leads inside it into the piece.
fn flow_within(
    alloc: Global,
    inv: &Poly<Frac>,
    piece: &Poly<Frac>,
    flow: &[Row<Frac>],
) -> Result<Option<Poly<Frac>>, Halt>
    requires piece { piece.now.width ≡ inv.now.width }
    requires flow { AllWide inv.now.width flow.now }
    ensures calculus { IsHaltedByRows result (crossings.cross frac_arithmetic inv.now.width inv.now.lines inv.now.lines piece.now.lines (map calculus.turned flow.now)) (option_map (λ p. p.lines)) }
    ensures vars { IfOk result (λ o. IfSome o (λ p. p.width ≡ inv.now.width)) }
{
    let back = turned_rows(alloc, flow)?;
    let mut tally = Tally::new();
    cross(alloc, inv, inv, piece, &back, &mut tally)
}

// The rows, each with its coefficients negated.
fn turned_rows(alloc: Global, rows: &[Row<Frac>]) -> Result<Vec<Row<Frac>>, Halt>
    ensures { IsHaltedByMemory result (done (map calculus.turned rows.now)) (λ v. v.items) }
{
    let mut out = Vec::with_capacity(alloc, rows.len())?;
    for row in rows {
        let turned = turned_row(alloc, row)?;
        out.push(turned)?;
    }
    Ok(out)
}

// The row with its coefficients negated.
fn turned_row(alloc: Global, row: &Row<Frac>) -> Result<Row<Frac>, Halt>
    ensures { IsHaltedByMemory result (done (calculus.turned row.now)) (λ r. r) }
{
    let Row {
        coefs,
        kind: _,
        bound: _,
    } = negate(alloc, row)?;
    Ok(Row {
        coefs,
        kind: row.kind,
        bound: row.bound,
    })
}
