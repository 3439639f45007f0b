// Why states are lost: the cause of a hit, and that of a found piece.
ghost use Rattle.std.specs.Prelude.{◌≡◌, ◌+◌, ◌<◌, ◌^◌, ℕ, length, IfOk};
ghost use Rattle.lhg_num.specs.Marked.{done};
ghost use Rattle.lhg_num.specs.Halting.{IsHaltedByMemory};
ghost use Rattle.lhg_plant.specs.Loss.{by_env};
ghost use Rattle.lhg_union.specs.PolyLists.{lines_of, AllVars};
ghost use Rattle.lhg_reach.specs.FoundParts.{plain_found};
ghost use Rattle.lhg_loss.specs.Records as calculus;
ghost use Rattle.lhg_loss.specs.Views.{plain_cause, CauseVars};

use lhg_jump::Hit;
use lhg_loss::Cause;
use lhg_num::{Frac, Halt};
use lhg_poly::Poly;
use lhg_reach::Found;
use std::alloc::Global;

/// The switch of a hit, into the piece that it names.
pub(crate) fn hit_cause(alloc: Global, hit: &Hit) -> Result<Cause, Halt>
    ensures cause { IsHaltedByMemory result (done (by_env hit.now.switch hit.now.into.lines)) plain_cause }
    ensures vars { (n : ℕ) → hit.now.into.width ≡ n → IfOk result (CauseVars n) }
{
    let into = hit.into.copy(alloc)?;
    Ok(Cause::Env {
        switch: hit.switch,
        into,
    })
}

/// The flow of a found piece, by its place among the ways and among the known pieces: to a piece outside, which stand first among the known ones, or to the
/// piece of a record of this place, the first of which has the number `first`.
pub(crate) fn found_cause(
    alloc: Global,
    away: &[Poly<Frac>],
    ways: &[Poly<Frac>],
    first: u32,
    found: &Found<Frac>,
) -> Result<Cause, Halt>
    requires through { found.now.through < length ways.now }
    requires to { first + found.now.to < 2 ^ 32 }
    ensures cause { IsHaltedByMemory result (done (calculus.found_cause (lines_of away.now) (lines_of ways.now) first (plain_found found.now))) plain_cause }
    ensures vars { (n : ℕ) → AllVars n away.now → AllVars n ways.now → IfOk result (CauseVars n) }
{
    let through = ways[found.through as usize].copy(alloc)?;
    let to = found.to as usize;
    if to < away.len() {
        let into = away[to].copy(alloc)?;
        Ok(Cause::Leave { through, into })
    } else {
        Ok(Cause::Flow {
            to: first + (to - away.len()) as u32,
            through,
        })
    }
}
