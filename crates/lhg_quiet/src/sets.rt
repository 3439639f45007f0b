// The sets of switches of the locations that are not quiet.
ghost use Rattle.std.specs.Prelude.{◌≡◌, ◌<◌, [], cond, length, map, IfOk};
ghost use Rattle.lhg_math.specs.Tests.{AllOf};
ghost use Rattle.lhg_num.specs.Halting.{IsHaltedBy};
ghost use Rattle.lhg_num.specs.Marked.{done};
ghost use Rattle.lhg_plant.specs.BackCalculus as backs;
ghost use Rattle.lhg_plant.specs.OutCalculus as outs;
ghost use Rattle.lhg_plant.specs.Proper.{IsSwitch};
ghost use Rattle.lhg_plant.specs.Views.{plain_plant, plain_switch};
ghost use Rattle.lhg_union.specs.PolyLists.{lines_of, AllVars};
ghost use Rattle.lhg_union.specs.Regions.{plain_region};
ghost use Rattle.lhg_jump.specs.HitViews.{plain_hits, HasVars, AreHitsOf};
ghost use Rattle.lhg_jump.specs.PlantLists.{AreListsOf, AreGuardsOf};
ghost use Rattle.lhg_quiet.specs.Masked as calculus;

use lhg_jump::{Hit, back_by, hits_at};
use lhg_num::{Frac, Halt};
use lhg_plant::{Plant, Switch};
use lhg_poly::Poly;
use std::alloc::Global;

/// The hits in each location that is not marked as quiet, and no hits in one that is. The lists are those of all locations: the invariants,
/// the states outside the region, and the region.
/// It halts for `Wide` only where fractions refuse an operation of the calculus of this call,
/// for `Rows` and `Pieces` only where it has a list past `ROW_LIMIT`, `PIECE_LIMIT` or `LIST_ROW_LIMIT`, and for `Memory`.
pub fn busy_hits(
    alloc: Global,
    plant: &Plant,
    invs: &[Vec<Poly<Frac>>],
    away: &[Vec<Poly<Frac>>],
    region: &[Vec<Poly<Frac>>],
    quiet: &[bool],
) -> Result<Vec<Vec<Hit>>, Halt>
    requires invs { AreListsOf plant.now invs.now }
    requires away { AreListsOf plant.now away.now }
    requires region { AreListsOf plant.now region.now }
    requires quiet { length quiet.now ≡ length plant.now.locs.items }
    ensures calculus { IsHaltedBy result (calculus.busy_hits (plain_plant plant.now) quiet.now (plain_region invs.now) (plain_region away.now) (plain_region region.now)) (λ v. map (λ hs. plain_hits hs.items) v.items) }
    ensures lists { IfOk result (λ v. AreHitsOf plant.now v.items) }
{
    let mut hits = Vec::with_capacity(alloc, plant.locs.len())?;
    for l in 0..plant.locs.len() {
        let here = busy_hits_at(alloc, plant, invs, away, region, quiet[l], l)?;
        hits.push(here)?;
    }
    Ok(hits)
}

// The hits in location l, and none where it is quiet.
fn busy_hits_at(
    alloc: Global,
    plant: &Plant,
    invs: &[Vec<Poly<Frac>>],
    away: &[Vec<Poly<Frac>>],
    region: &[Vec<Poly<Frac>>],
    quiet: bool,
    l: usize,
) -> Result<Vec<Hit>, Halt>
    requires there { l < length plant.now.locs.items }
    requires invs { AreListsOf plant.now invs.now }
    requires away { AreListsOf plant.now away.now }
    requires region { AreListsOf plant.now region.now }
    ensures calculus { IsHaltedBy result (cond quiet (done []) (outs.hits_at (plain_plant plant.now) (plain_region invs.now) (plain_region away.now) (plain_region region.now) l)) (λ v. plain_hits v.items) }
    ensures vars { IfOk result (λ v. AllOf (HasVars (length plant.now.vars.items)) v.items) }
{
    if quiet {
        return Ok(Vec::new(alloc));
    }
    hits_at(alloc, plant, invs, away, region, l)
}

/// The states that each switch keeps in the region, where the location that it leaves is not marked as quiet, and no states where it is. The lists
/// are those of all locations. It halts as `busy_hits` does.
pub fn busy_back(
    alloc: Global,
    plant: &Plant,
    invs: &[Vec<Poly<Frac>>],
    region: &[Vec<Poly<Frac>>],
    away: &[Vec<Poly<Frac>>],
    quiet: &[bool],
) -> Result<Vec<Vec<Poly<Frac>>>, Halt>
    requires invs { AreListsOf plant.now invs.now }
    requires region { AreListsOf plant.now region.now }
    requires away { AreListsOf plant.now away.now }
    requires quiet { length quiet.now ≡ length plant.now.locs.items }
    ensures calculus { IsHaltedBy result (calculus.busy_back (plain_plant plant.now) quiet.now (plain_region invs.now) (plain_region region.now) (plain_region away.now)) (λ v. plain_region v.items) }
    ensures lists { IfOk result (λ v. AreGuardsOf plant.now v.items) }
{
    let mut backs = Vec::with_capacity(alloc, plant.switches.len())?;
    for switch in &plant.switches {
        let mark = quiet[switch.from as usize];
        let kept = busy_back_by(alloc, plant, switch, invs, region, away, mark)?;
        backs.push(kept)?;
    }
    Ok(backs)
}

// The states that a switch keeps in the region, and none where the location that it leaves is quiet.
fn busy_back_by(
    alloc: Global,
    plant: &Plant,
    switch: &Switch,
    invs: &[Vec<Poly<Frac>>],
    region: &[Vec<Poly<Frac>>],
    away: &[Vec<Poly<Frac>>],
    quiet: bool,
) -> Result<Vec<Poly<Frac>>, Halt>
    requires switch { IsSwitch (length plant.now.vars.items) (length plant.now.locs.items) (plain_switch switch.now) }
    requires invs { AreListsOf plant.now invs.now }
    requires region { AreListsOf plant.now region.now }
    requires away { AreListsOf plant.now away.now }
    ensures calculus { IsHaltedBy result (cond quiet (done []) (backs.back_by (length plant.now.vars.items) (plain_region invs.now) (plain_region region.now) (plain_region away.now) (plain_switch switch.now))) (λ v. lines_of v.items) }
    ensures vars { IfOk result (λ v. AllVars (length plant.now.vars.items) v.items) }
{
    if quiet {
        return Ok(Vec::new(alloc));
    }
    back_by(alloc, plant, switch, invs, region, away)
}
