// Whether the records of a location cover pieces.
ghost use Rattle.std.specs.Prelude.{ℕ, IfOk};
ghost use Rattle.lhg_math.specs.Tests.{AllOf};
ghost use Rattle.lhg_num.specs.FracArithmetic.{frac_arithmetic};
ghost use Rattle.lhg_num.specs.Marked.{done};
ghost use Rattle.lhg_num.specs.Halting.{IsHaltedBy, IsHaltedByMemory};
ghost use Rattle.lhg_row.specs.Lists as calculus;
ghost use Rattle.lhg_row.specs.PieceFacts.{IsCovering};
ghost use Rattle.lhg_union.specs.PolyLists.{lines_of, AllVars};
ghost use Rattle.lhg_loss.specs.Records.{pieces_lost};
ghost use Rattle.lhg_loss.specs.Holding.{losses_in};
ghost use Rattle.lhg_loss.specs.Views.{plain_losses, AreOver};

use crate::losses::Loss;
use lhg_num::{Frac, Halt};
use lhg_poly::Poly;
use lhg_union::covered;
use std::alloc::Global;

/// Whether each point of some piece is in a record of the location: whether the pieces of that location's records, in order, cover the pieces. All are over the same variables.
/// It halts for `Wide` only where fractions refuse an operation of the calculus of this call, for `Rows` and `Pieces` only where it has a list past its limit, and for `Memory`.
pub fn covers(alloc: Global, losses: &[Loss], loc: u32, pieces: &[Poly<Frac>]) -> Result<bool, Halt>
    requires { (n : ℕ) × AllVars n pieces.now × AreOver n losses.now }
    ensures calculus { (n : ℕ) → AllVars n pieces.now → AreOver n losses.now → IsHaltedBy result (calculus.covered frac_arithmetic n (lines_of pieces.now) (pieces_lost (losses_in loc (plain_losses losses.now)))) (λ b. b) }
    ensures points { (n : ℕ) → AllVars n pieces.now → AreOver n losses.now → IfOk result (IsCovering n (lines_of pieces.now) (pieces_lost (losses_in loc (plain_losses losses.now)))) }
{
    let there = pieces_in(alloc, losses, loc)?;
    covered(alloc, pieces, &there)
}

// Copies of the pieces of the records of a location.
fn pieces_in(alloc: Global, losses: &[Loss], loc: u32) -> Result<Vec<Poly<Frac>>, Halt>
    ensures copies { IsHaltedByMemory result (done (pieces_lost (losses_in loc (plain_losses losses.now)))) (λ v. lines_of v.items) }
    ensures vars { (n : ℕ) → AreOver n losses.now → IfOk result (λ v. AllVars n v.items) }
{
    let mut out = Vec::new(alloc);
    for loss in losses {
        if loss.loc == loc {
            let copy = loss.piece.copy(alloc)?;
            out.push(copy)?;
        }
    }
    Ok(out)
}
