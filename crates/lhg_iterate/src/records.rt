// The records of a location: of the hits, and then of what is found.
ghost use Rattle.std.specs.Prelude.{◌≡◌, ◌+◌, ◌<◌, ◌^◌, ◌++◌, ℕ, length, IfOk, OnOk};
ghost use Rattle.lhg_math.specs.Tests.{AllOf};
ghost use Rattle.lhg_num.specs.Marked.{done};
ghost use Rattle.lhg_num.specs.Halting.{IsHaltedByMemory};
ghost use Rattle.lhg_union.specs.PolyLists.{lines_of, AllVars};
ghost use Rattle.lhg_reach.specs.FoundParts.{plain_found, plain_founds, AllFoundVars};
ghost use Rattle.lhg_jump.specs.HitViews.{plain_hit, plain_hits, HasVars};
ghost use Rattle.lhg_loss.specs.Records as calculus;
ghost use Rattle.lhg_loss.specs.Views.{plain_loss, plain_losses, LossVars, AllHaveVars};
ghost use Rattle.lhg_iterate.specs.Naming.{IsNameable};

use crate::causes::{found_cause, hit_cause};
use lhg_jump::Hit;
use lhg_loss::Loss;
use lhg_num::{Frac, Halt};
use lhg_poly::Poly;
use lhg_reach::Found;
use std::alloc::Global;

/// Where records are made: the round, the location, and the number of its first record.
#[derive(Clone, Copy, Debug)]
pub(crate) struct Site {
    pub(crate) round: u32,
    pub(crate) loc: u32,
    pub(crate) first: u32,
}

/// The records of a location, numbered from the site's first on. The ways are the pieces outside, those of the hits, and the near ones.
/// It halts for `Memory` alone.
pub(crate) fn records(
    alloc: Global,
    site: Site,
    away: &[Poly<Frac>],
    hits: &[Hit],
    ways: &[Poly<Frac>],
    found: &[Found<Frac>],
) -> Result<Vec<Loss>, Halt>
    requires named { AllOf (IsNameable site.first (length ways.now)) found.now }
    requires fits { site.first + (length hits.now + length found.now) < 2 ^ 32 }
    ensures losses { IsHaltedByMemory result (done (calculus.hit_losses site.round site.loc site.first (plain_hits hits.now) ++ calculus.found_losses site.round site.loc (calculus.found_cause (lines_of away.now) (lines_of ways.now) site.first) (site.first + length hits.now) (plain_founds found.now))) (λ v. plain_losses v.items) }
    ensures vars { (n : ℕ) → AllOf (HasVars n) hits.now → AllVars n away.now → AllVars n ways.now → AllFoundVars n found.now → IfOk result (λ v. AllHaveVars n v.items) }
{
    let mut losses = hit_losses(alloc, site, hits)?;
    let next = site.first + hits.len() as u32;
    let mut others = found_losses(alloc, site, next, away, ways, found)?;
    losses.append(&mut others)?;
    Ok(losses)
}

// The records of the hits.
fn hit_losses(alloc: Global, site: Site, hits: &[Hit]) -> Result<Vec<Loss>, Halt>
    requires { site.first + length hits.now < 2 ^ 32 }
    ensures losses { IsHaltedByMemory result (done (calculus.hit_losses site.round site.loc site.first (plain_hits hits.now))) (λ v. plain_losses v.items) }
    ensures vars { (n : ℕ) → AllOf (HasVars n) hits.now → IfOk result (λ v. AllHaveVars n v.items) }
{
    let mut losses = Vec::with_capacity(alloc, hits.len())?;
    for i in 0..hits.len() {
        let loss = hit_loss(alloc, site, site.first + i as u32, &hits[i])?;
        losses.push(loss)?;
    }
    Ok(losses)
}

// The record of a hit.
fn hit_loss(alloc: Global, site: Site, number: u32, hit: &Hit) -> Result<Loss, Halt>
    ensures loss { IsHaltedByMemory result (done (calculus.hit_loss site.round site.loc number (plain_hit hit.now))) plain_loss }
    ensures vars { (n : ℕ) → HasVars n hit.now → IfOk result (LossVars n) }
{
    let cause = hit_cause(alloc, hit)?;
    let piece = hit.piece.copy(alloc)?;
    Ok(Loss {
        number,
        round: site.round,
        loc: site.loc,
        piece,
        cause,
    })
}

// The records of found pieces, from a number on.
fn found_losses(
    alloc: Global,
    site: Site,
    next: u32,
    away: &[Poly<Frac>],
    ways: &[Poly<Frac>],
    found: &[Found<Frac>],
) -> Result<Vec<Loss>, Halt>
    requires named { AllOf (IsNameable site.first (length ways.now)) found.now }
    requires fits { next + length found.now < 2 ^ 32 }
    ensures losses { IsHaltedByMemory result (done (calculus.found_losses site.round site.loc (calculus.found_cause (lines_of away.now) (lines_of ways.now) site.first) next (plain_founds found.now))) (λ v. plain_losses v.items) }
    ensures vars { (n : ℕ) → AllVars n away.now → AllVars n ways.now → AllFoundVars n found.now → IfOk result (λ v. AllHaveVars n v.items) }
{
    let mut losses = Vec::with_capacity(alloc, found.len())?;
    for i in 0..found.len() {
        let loss = found_loss(alloc, site, next + i as u32, away, ways, &found[i])?;
        losses.push(loss)?;
    }
    Ok(losses)
}

// The record of a found piece.
fn found_loss(
    alloc: Global,
    site: Site,
    number: u32,
    away: &[Poly<Frac>],
    ways: &[Poly<Frac>],
    found: &Found<Frac>,
) -> Result<Loss, Halt>
    requires { IsNameable site.first (length ways.now) found.now }
    ensures loss { IsHaltedByMemory result (done (calculus.found_loss site.round site.loc (calculus.found_cause (lines_of away.now) (lines_of ways.now) site.first) number (plain_found found.now))) plain_loss }
    ensures vars { (n : ℕ) → AllVars n away.now → AllVars n ways.now → found.now.piece.width ≡ n → IfOk result (LossVars n) }
{
    let cause = found_cause(alloc, away, ways, site.first, found)?;
    let piece = found.piece.copy(alloc)?;
    Ok(Loss {
        number,
        round: site.round,
        loc: site.loc,
        piece,
        cause,
    })
}
