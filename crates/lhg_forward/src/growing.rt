// The new pieces of a level, from all newest pieces.
ghost use Rattle.std.specs.Prelude.{◌≡◌, ◌<◌, ℕ, length, slice_get, Some, IfOk, OnOk};
ghost use Rattle.lhg_num.specs.Marked.{walk};
ghost use Rattle.lhg_num.specs.Halting.{IsHaltedBy};
ghost use Rattle.lhg_plant.specs.Inside.{AllInside};
ghost use Rattle.lhg_plant.specs.Invariants.{pieces_at};
ghost use Rattle.lhg_plant.specs.OutCalculus.{numbered};
ghost use Rattle.lhg_plant.specs.Sound.{IsInside};
ghost use Rattle.lhg_plant.specs.Views.{plain_switch, plain_plant};
ghost use Rattle.lhg_union.specs.Regions.{plain_region};
ghost use Rattle.lhg_jump.specs.PlantLists.{AreListsOf};
ghost use Rattle.lhg_forward.specs.Growth as calculus;
ghost use Rattle.lhg_forward.specs.Views.{plain_growth, plain_stage, IsStageOf};

use crate::flows::after_flow;
use crate::growth::{Growth, add_new, no_growth};
use crate::stages::Stage;
use crate::switches::after_switch;
use lhg_num::{Frac, Halt};
use lhg_plant::{Plant, Switch};
use lhg_poly::Poly;
use std::alloc::Global;

/// What the newest pieces of the stage lead to, location by location and piece by piece: first by a flow, then by each switch.
pub(crate) fn growth_of(alloc: Global, plant: &Plant, stage: &Stage) -> Result<Growth, Halt>
    requires stage { IsStageOf plant.now stage.now }
    requires inside { (l : ℕ) → AllInside (plain_plant plant.now) l (pieces_at (plain_region stage.now.region.pieces.items) l) }
    ensures calculus { IsHaltedBy result (calculus.growth (plain_plant plant.now) (plain_stage stage.now)) plain_growth }
    ensures lists { IfOk result (λ g. AreListsOf plant.now g.pieces.items) }
{
    let mut growth = no_growth(alloc, plant)?;
    for l in 0..plant.locs.len() {
        add_location(alloc, plant, stage, l, &mut growth)?;
    }
    Ok(growth)
}

// From each newest piece of a location, in order.
fn add_location(
    alloc: Global,
    plant: &Plant,
    stage: &Stage,
    l: usize,
    growth: &mut Growth,
) -> Result<(), Halt>
    requires there { l < length plant.now.locs.items }
    requires stage { IsStageOf plant.now stage.now }
    requires inside { AllInside (plain_plant plant.now) l (pieces_at (plain_region stage.now.region.pieces.items) l) }
    requires growth { AreListsOf plant.now growth.old.pieces.items }
    ensures calculus { IsHaltedBy result (calculus.add_location (plain_plant plant.now) (plain_stage stage.now) (plain_growth growth.old) l) (λ _. plain_growth growth.new) }
    ensures lists { OnOk result (AreListsOf plant.now growth.new.pieces.items) }
{
    let list = &stage.region.pieces[l];
    let (_, newest) = list.split_at(stage.older[l]);
    for piece in newest {
        add_from(alloc, plant, &stage.region.pieces, l as u32, piece, growth)?;
    }
    Ok(())
}

// After a flow from a piece of the location, and then after each switch from there.
fn add_from(
    alloc: Global,
    plant: &Plant,
    region: &[Vec<Poly<Frac>>],
    loc: u32,
    piece: &Poly<Frac>,
    growth: &mut Growth,
) -> Result<(), Halt>
    requires there { loc < length plant.now.locs.items }
    requires region { AreListsOf plant.now region.now }
    requires vars { piece.now.width ≡ length plant.now.vars.items }
    requires inside { IsInside (plain_plant plant.now) loc piece.now.lines }
    requires growth { AreListsOf plant.now growth.old.pieces.items }
    ensures calculus { IsHaltedBy result (calculus.add_piece (plain_plant plant.now) (plain_region region.now) loc (plain_growth growth.old) piece.now.lines) (λ _. plain_growth growth.new) }
    ensures lists { OnOk result (AreListsOf plant.now growth.new.pieces.items) }
{
    add_flow(alloc, plant, region, loc, piece, growth)?;
    add_switches(alloc, plant, region, loc, piece, growth)
}

// After a flow.
fn add_flow(
    alloc: Global,
    plant: &Plant,
    region: &[Vec<Poly<Frac>>],
    loc: u32,
    piece: &Poly<Frac>,
    growth: &mut Growth,
) -> Result<(), Halt>
    requires there { loc < length plant.now.locs.items }
    requires region { AreListsOf plant.now region.now }
    requires vars { piece.now.width ≡ length plant.now.vars.items }
    requires inside { IsInside (plain_plant plant.now) loc piece.now.lines }
    requires growth { AreListsOf plant.now growth.old.pieces.items }
    ensures calculus { IsHaltedBy result (calculus.add_flow (plain_plant plant.now) (plain_region region.now) loc piece.now.lines (plain_growth growth.old)) (λ _. plain_growth growth.new) }
    ensures lists { OnOk result (AreListsOf plant.now growth.new.pieces.items) }
{
    let end = after_flow(alloc, plant, loc, piece)?;
    add_new(alloc, plant, region, loc, end, growth)
}

// After each switch that leaves the location, in order.
fn add_switches(
    alloc: Global,
    plant: &Plant,
    region: &[Vec<Poly<Frac>>],
    loc: u32,
    piece: &Poly<Frac>,
    growth: &mut Growth,
) -> Result<(), Halt>
    requires region { AreListsOf plant.now region.now }
    requires vars { piece.now.width ≡ length plant.now.vars.items }
    requires inside { IsInside (plain_plant plant.now) loc piece.now.lines }
    requires growth { AreListsOf plant.now growth.old.pieces.items }
    ensures calculus { IsHaltedBy result (walk (calculus.add_switch (plain_plant plant.now) (plain_region region.now) loc piece.now.lines) (plain_growth growth.old) (numbered 0 (plain_plant plant.now).switches)) (λ _. plain_growth growth.new) }
    ensures lists { OnOk result (AreListsOf plant.now growth.new.pieces.items) }
{
    for e in 0..plant.switches.len() {
        let switch = &plant.switches[e];
        add_switch(alloc, plant, region, loc, piece, e as u32, switch, growth)?;
    }
    Ok(())
}

// After switch e of the plant, where it leaves the location.
fn add_switch(
    alloc: Global,
    plant: &Plant,
    region: &[Vec<Poly<Frac>>],
    loc: u32,
    piece: &Poly<Frac>,
    e: u32,
    switch: &Switch,
    growth: &mut Growth,
) -> Result<(), Halt>
    requires there { slice_get (plain_plant plant.now).switches e ≡ Some (plain_switch switch.now) }
    requires region { AreListsOf plant.now region.now }
    requires vars { piece.now.width ≡ length plant.now.vars.items }
    requires inside { IsInside (plain_plant plant.now) loc piece.now.lines }
    requires growth { AreListsOf plant.now growth.old.pieces.items }
    ensures calculus { IsHaltedBy result (calculus.add_switch (plain_plant plant.now) (plain_region region.now) loc piece.now.lines (plain_growth growth.old) (e, plain_switch switch.now)) (λ _. plain_growth growth.new) }
    ensures lists { OnOk result (AreListsOf plant.now growth.new.pieces.items) }
{
    if switch.from != loc {
        return Ok(());
    }
    let result = after_switch(alloc, plant, e, piece)?;
    add_new(alloc, plant, region, switch.to, result, growth)
}
