// The states of a region from which no switch of the controller leads into what keeps it.
ghost use Rattle.std.specs.Prelude.{◌≡◌, ◌<◌, [], cond, nat_eq, length, IfOk};
ghost use Rattle.lhg_num.specs.FracArithmetic.{frac_arithmetic};
ghost use Rattle.lhg_num.specs.Halting.{IsHaltedBy};
ghost use Rattle.lhg_row.specs.Lists as differences;
ghost use Rattle.lhg_plant.specs.BackCalculus as calculus;
ghost use Rattle.lhg_plant.specs.Views.{plain_plant};
ghost use Rattle.lhg_union.specs.PolyLists.{lines_of, AllVars};
ghost use Rattle.lhg_union.specs.Regions.{plain_region};
ghost use Rattle.lhg_jump.specs.PlantLists.{AreListsOf, AreGuardsOf};

use lhg_num::{Frac, Halt};
use lhg_plant::{Plant, Switch};
use lhg_poly::Poly;
use lhg_union::{Region, copies, minus};
use std::alloc::Global;

/// The states of the region in location l outside the lists of the switches that leave it. `lists` has one for each switch: what the
/// switch keeps in the region, or its guard. They are taken away one after the other, so their joined list is not formed.
/// It halts for `Wide`, `Rows` and `Pieces` only where the calculus of this call does, and for `Memory`.
pub fn near_at(
    alloc: Global,
    plant: &Plant,
    region: &Region<Frac>,
    lists: &[Vec<Poly<Frac>>],
    l: usize,
) -> Result<Vec<Poly<Frac>>, Halt>
    requires region { AreListsOf plant.now region.now.pieces.items }
    requires lists { AreGuardsOf plant.now lists.now }
    requires there { l < length plant.now.locs.items }
    ensures calculus { IsHaltedBy result (calculus.near_at (plain_plant plant.now) (plain_region region.now.pieces.items) (plain_region lists.now) l) (λ v. lines_of v.items) }
    ensures vars { IfOk result (λ v. AllVars (length plant.now.vars.items) v.items) }
{
    let mut near = copies(alloc, &region.pieces[l])?;
    for e in 0..plant.switches.len() {
        near = less_list(
            alloc,
            plant.vars.len(),
            &plant.switches[e],
            &lists[e],
            l,
            near,
        )?;
    }
    Ok(near)
}

// What is left of pieces without the list of a switch, where it leaves location l.
fn less_list(
    alloc: Global,
    vars: usize,
    switch: &Switch,
    list: &[Poly<Frac>],
    l: usize,
    near: Vec<Poly<Frac>>,
) -> Result<Vec<Poly<Frac>>, Halt>
    requires list { AllVars vars list.now }
    requires near { AllVars vars near.items }
    ensures calculus { IsHaltedBy result (differences.minus frac_arithmetic vars (lines_of near.items) (cond (nat_eq switch.now.from l) (lines_of list.now) [])) (λ v. lines_of v.items) }
    ensures vars { IfOk result (λ v. AllVars vars v.items) }
{
    let _ = vars;
    if switch.from as usize != l {
        return Ok(near);
    }
    minus(alloc, &near, list)
}
