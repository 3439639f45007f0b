// Guards cut to the rim of a region.
ghost use Rattle.std.specs.Prelude.{◌≡◌, IfOk, map};
ghost use Rattle.lhg_num.specs.Halting.{IsHaltedBy};
ghost use Rattle.lhg_plant.specs.Controller.{PlainController};
ghost use Rattle.lhg_plant.specs.Views.{plain_plant};
ghost use Rattle.lhg_union.specs.Regions.{plain_region};
ghost use Rattle.lhg_jump.specs.PlantLists.{AreListsOf, IsRegionOf, AreGuardsOf};
ghost use Rattle.lhg_ctl.specs.Conditions.{IsControllerOf, IsInsideInvariants};
ghost use Rattle.lhg_ctl.specs.Views.{plain_controller};
ghost use Rattle.lhg_ctl.specs.Written.{AreOfController};
ghost use Rattle.lhg_lazy.specs.Rim.{IsCandidate};
ghost use Rattle.lhg_lazy.specs.RimCalculus as calculus;
ghost use Rattle.lhg_lazy.specs.RimFacts.{IsRim, AreGuardsInside, AreCut};

use lhg_ctl::Controller;
use lhg_num::{Frac, Halt};
use lhg_plant::Plant;
use lhg_poly::Poly;
use lhg_union::{Region, meet_lists, tell_lists};
use std::alloc::Global;

/// The region as it is, and for each switch the states of its guard that are in the rim of the location that it leaves. Where `rim` is the
/// rim of the region, this is the candidate of the controller with these guards.
/// It halts for `Wide` only where fractions refuse an operation of the calculus of this call,
/// for `Rows` and `Pieces` only where it has a list past `ROW_LIMIT`, `PIECE_LIMIT` or `LIST_ROW_LIMIT`, and for `Memory`.
pub fn candidate(
    alloc: Global,
    plant: &Plant,
    region: &Region<Frac>,
    guards: &[Vec<Poly<Frac>>],
    rim: &[Vec<Poly<Frac>>],
) -> Result<Controller, Halt>
    requires region { IsRegionOf plant.now region.now.pieces.items }
    requires guards { AreGuardsOf plant.now guards.now }
    requires guards_inside { AreGuardsInside (plain_plant plant.now) (plain_region guards.now) }
    requires rim { AreListsOf plant.now rim.now }
    ensures calculus { IsHaltedBy result (calculus.candidate (plain_plant plant.now) (plain_region region.now.pieces.items) (plain_region guards.now) (plain_region rim.now)) plain_controller }
    ensures controller { AreOfController (plain_plant plant.now) (plain_region guards.now) → IfOk result (λ c. IsControllerOf (plain_plant plant.now) c) }
    ensures inside { IfOk result (λ c. IsInsideInvariants (plain_plant plant.now) (plain_controller c)) }
    ensures region { IfOk result (λ c. (plain_controller c).region ≡ plain_region region.now.pieces.items) }
    ensures guards { IfOk result (λ c. AreCut (plain_plant plant.now) (plain_region guards.now) (plain_region rim.now) (plain_controller c).guards) }
    ensures candidate { IsRim (plain_plant plant.now) (plain_region region.now.pieces.items) (plain_region rim.now)
        → IfOk result (λ c. IsCandidate (plain_plant plant.now) (record { region = plain_region region.now.pieces.items; guards = plain_region guards.now }) (plain_controller c)) }
{
    tell_lists(guards);
    tell_lists(rim);
    let kept = region.copy(alloc)?;
    let guards = cut_guards(alloc, plant, guards, rim)?;
    Ok(Controller {
        region: kept,
        guards,
    })
}

// The guards of all switches, cut to the rim.
fn cut_guards(
    alloc: Global,
    plant: &Plant,
    guards: &[Vec<Poly<Frac>>],
    rim: &[Vec<Poly<Frac>>],
) -> Result<Vec<Vec<Poly<Frac>>>, Halt>
    requires guards { AreGuardsOf plant.now guards.now }
    requires rim { AreListsOf plant.now rim.now }
    ensures calculus { IsHaltedBy result (calculus.cut_guards (plain_plant plant.now) (plain_region guards.now) (plain_region rim.now)) (λ v. plain_region v.items) }
    ensures lists { IfOk result (λ v. AreGuardsOf plant.now v.items) }
{
    let mut cut = Vec::with_capacity(alloc, plant.switches.len())?;
    for e in 0..plant.switches.len() {
        let from = plant.switches[e].from as usize;
        let here = meet_lists(alloc, &guards[e], &rim[from])?;
        cut.push(here)?;
    }
    Ok(cut)
}
