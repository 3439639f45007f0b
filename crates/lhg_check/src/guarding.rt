// The second part of validity: each state of a guard is in the region, and stays there by its switch.
ghost use Rattle.std.specs.Prelude.{◌≡◌, ◌<◌, length, slice_get, Some, IfOk, IfSome, IsSomeAnd};
ghost use Rattle.lhg_num.specs.Halting.{IsHaltedBy};
ghost use Rattle.lhg_num.specs.Marked.{valued};
ghost use Rattle.lhg_plant.specs.Inside.{AllInside};
ghost use Rattle.lhg_plant.specs.Views.{plain_plant, plain_switch};
ghost use Rattle.lhg_union.specs.PolyLists.{lines_of, AllVars};
ghost use Rattle.lhg_union.specs.Regions.{plain_region};
ghost use Rattle.lhg_jump.specs.PlantLists.{IsRegionOf, AreInvariantsOf};
ghost use Rattle.lhg_ctl.specs.Views.{plain_controller};
ghost use Rattle.lhg_check.specs.Check as calculus;
ghost use Rattle.lhg_check.specs.Views.{plain_piece, plain_first, IsFirstAmong, IsChecked};

use crate::firsts::{First, first_left, first_of};
use lhg_ctl::Controller;
use lhg_jump::pre;
use lhg_num::{Frac, Halt};
use lhg_plant::{Plant, Side, Switch};
use lhg_poly::Poly;
use lhg_union::{Region, meet_lists};
use std::alloc::Global;

/// The first piece of the states that break a guard, in the order of the switches, where `invs` is the invariants and `away` the states outside the region.
pub(crate) fn first_broken(
    alloc: Global,
    plant: &Plant,
    controller: &Controller,
    invs: &[Vec<Poly<Frac>>],
    away: &Region<Frac>,
) -> Result<Option<First>, Halt>
    requires controller { IsChecked plant.now controller.now }
    requires invs { AreInvariantsOf plant.now invs.now }
    requires away { IsRegionOf plant.now away.now.pieces.items }
    ensures calculus { IsHaltedBy result (valued calculus.first_piece (calculus.broken_guards (plain_plant plant.now) (plain_controller controller.now) (plain_region away.now.pieces.items))) plain_first }
    ensures among { IfOk result (λ o. IfSome o (IsFirstAmong (length plant.now.vars.items) (length plant.now.switches.items))) }
{
    for e in 0..plant.switches.len() {
        let switch = &plant.switches[e];
        let piece = broken_by(
            alloc,
            plant,
            controller,
            invs,
            &away.pieces,
            e as u32,
            switch,
        )?;
        if let Some(piece) = piece {
            return Ok(Some(First {
                place: e as u32,
                piece,
            }));
        }
    }
    Ok(None)
}

// The first piece of the states that break the guard of switch e. A guard without a piece has none. The lists are those of all locations: the invariants, and the
// states outside the region.
fn broken_by(
    alloc: Global,
    plant: &Plant,
    controller: &Controller,
    invs: &[Vec<Poly<Frac>>],
    away: &[Vec<Poly<Frac>>],
    e: u32,
    switch: &Switch,
) -> Result<Option<Poly<Frac>>, Halt>
    requires controller { IsChecked plant.now controller.now }
    requires invs { IsRegionOf plant.now invs.now }
    requires away { IsRegionOf plant.now away.now }
    requires switch { slice_get (plain_plant plant.now).switches e ≡ Some (plain_switch switch.now) }
    ensures calculus { IsHaltedBy result (valued calculus.first_of (calculus.broken_at (plain_plant plant.now) (plain_region invs.now) (plain_region away.now) (plain_controller controller.now) (e, plain_switch switch.now))) plain_piece }
    ensures vars { IfOk result (λ o. IfSome o (λ p. p.width ≡ length plant.now.vars.items)) }
{
    if controller.guards[e as usize].is_empty() {
        return Ok(None);
    }
    match switch.side {
        Side::Ctl => broken_ctl(alloc, plant, controller, invs, away, e, switch),
        Side::Env => Ok(None),
        Side::Pick => broken_pick(alloc, plant, controller, e, switch),
    }
}

// Where the plant picks the result.
fn broken_ctl(
    alloc: Global,
    plant: &Plant,
    controller: &Controller,
    invs: &[Vec<Poly<Frac>>],
    away: &[Vec<Poly<Frac>>],
    e: u32,
    switch: &Switch,
) -> Result<Option<Poly<Frac>>, Halt>
    requires controller { IsChecked plant.now controller.now }
    requires invs { IsRegionOf plant.now invs.now }
    requires away { IsRegionOf plant.now away.now }
    requires switch { slice_get (plain_plant plant.now).switches e ≡ Some (plain_switch switch.now) }
    ensures calculus { IsHaltedBy result (valued calculus.first_of (calculus.broken_ctl (plain_plant plant.now) (plain_region invs.now) (plain_region away.now) (plain_controller controller.now) e (plain_switch switch.now))) plain_piece }
    ensures vars { IfOk result (λ o. IfSome o (λ p. p.width ≡ length plant.now.vars.items)) }
{
    let outside = outside_by(alloc, plant, controller, e, switch)?;
    match outside {
        Some(piece) => Ok(Some(piece)),
        None => unkept_by(alloc, plant, controller, invs, away, e, switch),
    }
}

// The first piece of those that the switch does not keep: with no result, or with one outside the region.
fn unkept_by(
    alloc: Global,
    plant: &Plant,
    controller: &Controller,
    invs: &[Vec<Poly<Frac>>],
    away: &[Vec<Poly<Frac>>],
    e: u32,
    switch: &Switch,
) -> Result<Option<Poly<Frac>>, Halt>
    requires controller { IsChecked plant.now controller.now }
    requires invs { IsRegionOf plant.now invs.now }
    requires away { IsRegionOf plant.now away.now }
    requires switch { slice_get (plain_plant plant.now).switches e ≡ Some (plain_switch switch.now) }
    ensures calculus { IsHaltedBy result (valued calculus.first_of (calculus.unkept_by (plain_plant plant.now) (plain_region invs.now) (plain_region away.now) (plain_controller controller.now) e (plain_switch switch.now))) plain_piece }
    ensures vars { IfOk result (λ o. IfSome o (λ p. p.width ≡ length plant.now.vars.items)) }
{
    let to = switch.to as usize;
    let stuck = stuck_by(alloc, plant, controller, e, &invs[to])?;
    match stuck {
        Some(piece) => Ok(Some(piece)),
        None => led_by(alloc, plant, controller, e, &away[to]),
    }
}

// Where the controller picks it.
fn broken_pick(
    alloc: Global,
    plant: &Plant,
    controller: &Controller,
    e: u32,
    switch: &Switch,
) -> Result<Option<Poly<Frac>>, Halt>
    requires controller { IsChecked plant.now controller.now }
    requires switch { slice_get (plain_plant plant.now).switches e ≡ Some (plain_switch switch.now) }
    ensures calculus { IsHaltedBy result (valued calculus.first_of (calculus.broken_pick (plain_plant plant.now) (plain_controller controller.now) e (plain_switch switch.now))) plain_piece }
    ensures vars { IfOk result (λ o. IfSome o (λ p. p.width ≡ length plant.now.vars.items)) }
{
    let outside = outside_by(alloc, plant, controller, e, switch)?;
    match outside {
        Some(piece) => Ok(Some(piece)),
        None => {
            let region = &controller.region.pieces;
            stuck_by(alloc, plant, controller, e, &region[switch.to as usize])
        }
    }
}

// The first piece of the states of the guard that are not in the region.
fn outside_by(
    alloc: Global,
    plant: &Plant,
    controller: &Controller,
    e: u32,
    switch: &Switch,
) -> Result<Option<Poly<Frac>>, Halt>
    requires controller { IsChecked plant.now controller.now }
    requires switch { slice_get (plain_plant plant.now).switches e ≡ Some (plain_switch switch.now) }
    ensures calculus { IsHaltedBy result (valued calculus.first_of (calculus.outside_by (plain_plant plant.now) (plain_controller controller.now) e (plain_switch switch.now))) plain_piece }
    ensures vars { IfOk result (λ o. IfSome o (λ p. p.width ≡ length plant.now.vars.items)) }
{
    let region = &controller.region.pieces;
    first_left(
        alloc,
        &controller.guards[e as usize],
        &region[switch.from as usize],
    )
}

// The first piece of those with no result in the target.
fn stuck_by(
    alloc: Global,
    plant: &Plant,
    controller: &Controller,
    e: u32,
    target: &[Poly<Frac>],
) -> Result<Option<Poly<Frac>>, Halt>
    requires controller { IsChecked plant.now controller.now }
    requires there { e < length plant.now.switches.items }
    requires vars { AllVars (length plant.now.vars.items) target.now }
    requires inside { IsSomeAnd (slice_get (plain_plant plant.now).switches e) (λ w. AllInside (plain_plant plant.now) w.to (lines_of target.now)) }
    ensures calculus { IsHaltedBy result (valued calculus.first_of (calculus.stuck_by (plain_plant plant.now) (plain_controller controller.now) e (lines_of target.now))) plain_piece }
    ensures vars { IfOk result (λ o. IfSome o (λ p. p.width ≡ length plant.now.vars.items)) }
{
    let leading = pre(alloc, plant, e, target)?;
    first_left(alloc, &controller.guards[e as usize], &leading)
}

// The first piece of those with a result in the target.
fn led_by(
    alloc: Global,
    plant: &Plant,
    controller: &Controller,
    e: u32,
    target: &[Poly<Frac>],
) -> Result<Option<Poly<Frac>>, Halt>
    requires controller { IsChecked plant.now controller.now }
    requires there { e < length plant.now.switches.items }
    requires vars { AllVars (length plant.now.vars.items) target.now }
    requires inside { IsSomeAnd (slice_get (plain_plant plant.now).switches e) (λ w. AllInside (plain_plant plant.now) w.to (lines_of target.now)) }
    ensures calculus { IsHaltedBy result (valued calculus.first_of (calculus.led_by (plain_plant plant.now) (plain_controller controller.now) e (lines_of target.now))) plain_piece }
    ensures vars { IfOk result (λ o. IfSome o (λ p. p.width ≡ length plant.now.vars.items)) }
{
    let leading = pre(alloc, plant, e, target)?;
    let led = meet_lists(alloc, &controller.guards[e as usize], &leading)?;
    Ok(first_of(led))
}
