// How far a flow is run.
ghost use Rattle.std.specs.Prelude.{◌≡◌, IfSome};
ghost use Rattle.std.specs.Option.{IsSome};
ghost use Rattle.lhg_math.specs.Number.{Number};
ghost use Rattle.lhg_plant.specs.Controller.{IsValid};
ghost use Rattle.lhg_plant.specs.Inside.{IsRegionInside};
ghost use Rattle.lhg_plant.specs.Legal.{LegalFlow};
ghost use Rattle.lhg_plant.specs.Region.{InRegion};
ghost use Rattle.lhg_plant.specs.Run.{run_rows};
ghost use Rattle.lhg_plant.specs.Views.{plain_plant, plain_state};
ghost use Rattle.lhg_play.specs.Checks.{AreChecks};
ghost use Rattle.lhg_union.specs.Regions.{plain_region};
ghost use Rattle.lhg_ctl.specs.Conditions.{IsControllerOf};
ghost use Rattle.lhg_ctl.specs.Views.{plain_controller};
ghost use Rattle.lhg_run.specs.Answers.{IsAnswered};
ghost use Rattle.lhg_run.specs.Numbers.{HasWideSight};
ghost use Rattle.lhg_run.specs.Seen.{IsWay};
ghost use Rattle.lhg_run.specs.Seen as calculus;
ghost use Rattle.lhg_run.specs.declared.ways.Way.TheVariants.{Stopped};

use crate::sights::{Sight, look};
use lhg_ctl::Controller;
use lhg_num::{Frac, Halt};
use lhg_plant::{Plant, State};
use lhg_row::Point;
use std::alloc::Global;

/// Where the controller stops a flow: the place, its point, and the switch that it takes.
#[derive(Drop)]
pub(crate) struct Stop {
    pub(crate) place: Frac,
    pub(crate) at: Point<Frac>,
    pub(crate) switch: u32,
}

/// How far a flow is run.
#[derive(Drop)]
pub(crate) enum Way {
    /// To its end.
    Whole,
    /// To a switch of the controller.
    Stopped(Stop),
}

/// How far the controller lets the flow run, where the places are the check points: to the last one with a guard before the first one
/// outside the region. A valid controller always has one.
pub(crate) fn follow(
    alloc: Global,
    plant: &Plant,
    controller: &Controller,
    from: &State,
    to: &Point<Frac>,
    places: &[Frac],
) -> Result<Way, Halt>
    requires controller { IsControllerOf (plain_plant plant.now) controller.now }
    requires inside { IsRegionInside (plain_plant plant.now) (plain_region controller.now.region.pieces.items) }
    requires valid { IsValid (plain_plant plant.now) (plain_controller controller.now) }
    requires start { InRegion (plain_plant plant.now) (plain_controller controller.now).region (plain_state from.now) }
    requires flow { (t : Number) × LegalFlow (plain_plant plant.now) (plain_state from.now) t to.now }
    requires places { AreChecks (run_rows (plain_plant plant.now) (plain_controller controller.now) from.now.loc) from.now.at to.now places.now }
    ensures { IsAnswered result (IsWay (plain_plant plant.now) (plain_controller controller.now) (plain_state from.now) to.now) (HasWideSight (plain_plant plant.now) (plain_controller controller.now) (plain_state from.now) to.now) ⊥ }
{
    let mut last = None;
    for place in places {
        let sight = look(alloc, plant, controller, from, to, place)?;
        if is_outside(&sight) {
            return Ok(stopped(last));
        }
        last = later(last, *place, sight);
    }
    Ok(Way::Whole)
}

// Whether the region does not hold.
fn is_outside(sight: &Sight) -> bool
    ensures { result ≡ calculus.is_outside sight.now }
{
    match sight {
        Sight::Outside => true,
        _ => false,
    }
}

// The stop so far, or a later one where a guard holds at the place.
fn later(last: Option<Stop>, place: Frac, sight: Sight) -> Option<Stop>
    ensures { result ≡ calculus.later last place sight }
{
    match sight {
        Sight::Guarded { switch, at } => Some(Stop { place, at, switch }),
        _ => last,
    }
}

// The flow is stopped where a guard held last.
fn stopped(last: Option<Stop>) -> Way
    requires { IsSome last }
    ensures { IfSome last (λ stop. result ≡ Stopped stop) }
{
    match last {
        Some(stop) => Way::Stopped(stop),
        None => unreachable!(),
    }
}
