// What the controller sees at a place of a flow.
ghost use Rattle.std.specs.Prelude.{◌≡◌, ◌<◌, ◌↔◌, true, length, IfOk, IfErr, IsTrue};
ghost use Rattle.lhg_math.specs.Number.{Number};
ghost use Rattle.lhg_math.specs.Places.{IsPlace};
ghost use Rattle.lhg_math.specs.Tests.{AllOf};
ghost use Rattle.lhg_num.specs.FracArithmetic.{frac_arithmetic};
ghost use Rattle.lhg_num.specs.Halting.{IsWideBy};
ghost use Rattle.lhg_row.specs.Truths.{piece_truth, some_truth};
ghost use Rattle.lhg_union.specs.PolyLists.{lines_of, AllVars};
ghost use Rattle.lhg_union.specs.Regions.{plain_region};
ghost use Rattle.lhg_plant.specs.Legal.{LegalFlow};
ghost use Rattle.lhg_plant.specs.State.{IsState};
ghost use Rattle.lhg_plant.specs.Inside.{IsRegionInside};
ghost use Rattle.lhg_plant.specs.Region.{InGuard};
ghost use Rattle.lhg_plant.specs.Run.{guard_rows};
ghost use Rattle.lhg_plant.specs.Views.{plain_plant, plain_state};
ghost use Rattle.lhg_ctl.specs.Conditions.{IsControllerOf};
ghost use Rattle.lhg_ctl.specs.Views.{plain_controller};
ghost use Rattle.lhg_run.specs.Answers.{IsAnswered};
ghost use Rattle.lhg_run.specs.Numbers.{sight};
ghost use Rattle.lhg_run.specs.Seen.{IsGuardAt, IsSight};

use lhg_ctl::Controller;
use lhg_num::{Frac, Halt, Wide};
use lhg_plant::{Plant, State};
use lhg_play::point_at;
use lhg_poly::Poly;
use lhg_row::Point;
use std::alloc::Global;

/// What is seen at a place.
#[derive(Drop)]
pub(crate) enum Sight {
    /// The region does not hold there.
    Outside,
    /// The region holds, and no guard.
    Inside,
    /// The region and the guard of the switch, the first in the plant's order, hold at the point.
    Guarded { switch: u32, at: Point<Frac> },
}

/// What is seen at the place of the flow.
pub(crate) fn look(
    alloc: Global,
    plant: &Plant,
    controller: &Controller,
    from: &State,
    to: &Point<Frac>,
    place: &Frac,
) -> Result<Sight, Halt>
    requires controller { IsControllerOf (plain_plant plant.now) controller.now }
    requires inside { IsRegionInside (plain_plant plant.now) (plain_region controller.now.region.pieces.items) }
    requires flow { (t : Number) × LegalFlow (plain_plant plant.now) (plain_state from.now) t to.now }
    requires place { IsPlace place.now }
    ensures { IsAnswered result (IsSight (plain_plant plant.now) (plain_controller controller.now) (plain_state from.now) to.now place.now) ((sight (plain_plant plant.now) (plain_controller controller.now) (plain_state from.now) to.now place.now).wide ≡ true) ⊥ }
{
    let at = point_at(alloc, &from.at, to, place)?;
    let inside = controller.region.contains(from.loc, &at)?;
    if !inside {
        return Ok(Sight::Outside);
    }
    let found = guard_at(plant, &controller.guards, from.loc, &at)?;
    match found {
        Some(switch) => Ok(Sight::Guarded { switch, at }),
        None => Ok(Sight::Inside),
    }
}

// The first switch from the location, in the plant's order, whose guard holds at the point.
fn guard_at(
    plant: &Plant,
    guards: &[Vec<Poly<Frac>>],
    loc: u32,
    at: &Point<Frac>,
) -> Result<Option<u32>, Wide>
    requires many { length guards.now ≡ length plant.now.switches.items }
    requires vars { AllOf (λ ps. AllVars (length plant.now.vars.items) ps.items) guards.now }
    requires state { IsState (plain_plant plant.now) (record { loc = loc; at = at.now }) }
    ensures first { IfOk result (IsGuardAt (plain_plant plant.now) (plain_region guards.now) (record { loc = loc; at = at.now })) }
    ensures wide { IfErr result (λ _. (piece_truth frac_arithmetic (guard_rows (plain_plant plant.now).switches (plain_region guards.now) loc) at.now).wide ≡ true) }
{
    for e in 0..plant.switches.len() {
        let here = has_guard(plant, guards, loc, at, e)?;
        if here {
            return Ok(Some(e as u32));
        }
    }
    Ok(None)
}

// Whether the switch leaves the location, and its guard holds at the point.
fn has_guard(
    plant: &Plant,
    guards: &[Vec<Poly<Frac>>],
    loc: u32,
    at: &Point<Frac>,
    e: usize,
) -> Result<bool, Wide>
    requires there { e < length plant.now.switches.items }
    requires many { length guards.now ≡ length plant.now.switches.items }
    requires vars { AllOf (λ ps. AllVars (length plant.now.vars.items) ps.items) guards.now }
    requires state { IsState (plain_plant plant.now) (record { loc = loc; at = at.now }) }
    ensures exact { IfOk result (λ b. IsTrue b ↔ InGuard (plain_plant plant.now) (plain_region guards.now) e (record { loc = loc; at = at.now })) }
    ensures wide { IfErr result (λ _. (piece_truth frac_arithmetic (guard_rows (plain_plant plant.now).switches (plain_region guards.now) loc) at.now).wide ≡ true) }
{
    let switch = &plant.switches[e];
    if switch.from != loc {
        return Ok(false);
    }
    some_has(&guards[e], at)
}

// Whether the point is in some piece of the list.
fn some_has(pieces: &[Poly<Frac>], at: &Point<Frac>) -> Result<bool, Wide>
    requires { AllVars (length at.now) pieces.now }
    ensures { IsWideBy result (some_truth frac_arithmetic (lines_of pieces.now) at.now) (λ b. b) }
{
    for piece in pieces {
        let here = piece.has(at)?;
        if here {
            return Ok(true);
        }
    }
    Ok(false)
}
