// The states of a region from which an uncontrollable switch leads out of it.
ghost use Rattle.std.specs.Prelude.{◌≡◌, ◌+◌, ◌<◌, ◌≤◌, length, Some, IfOk, OnOk};
ghost use Rattle.lhg_math.specs.Tests.{AllOf};
ghost use Rattle.lhg_num.specs.Marked.{walk};
ghost use Rattle.lhg_num.specs.Halting.{IsHaltedBy};
ghost use Rattle.lhg_row.specs.Width.{AllWide};
ghost use Rattle.lhg_plant.specs.Limits.{most_variables};
ghost use Rattle.lhg_plant.specs.Proper.{IsSwitch};
ghost use Rattle.lhg_plant.specs.OutCalculus as calculus;
ghost use Rattle.lhg_plant.specs.Views.{plain_plant, plain_switch};
ghost use Rattle.lhg_union.specs.PolyLists.{lines_of, AllVars};
ghost use Rattle.lhg_union.specs.Regions.{plain_region};
ghost use Rattle.lhg_jump.specs.HitViews.{plain_hits, HasVars, AreKept};
ghost use Rattle.lhg_jump.specs.PlantLists.{AreListsOf};

use crate::predecessors::pre_each;
use lhg_num::{Frac, Halt};
use lhg_plant::{Plant, Side, Switch};
use lhg_poly::{Poly, meet};
use lhg_row::Row;
use lhg_union::{covered, is_within};
use std::alloc::Global;
use std::slice;

/// States of a region in one piece, from each of which the uncontrollable switch leads into the piece `into`, which holds no
/// state of the region.
#[derive(Drop)]
pub struct Hit {
    pub switch: u32,
    pub into: Poly<Frac>,
    pub piece: Poly<Frac>,
}

// The hits that are kept, and copies of their pieces.
#[derive(Drop)]
pub(crate) struct Kept {
    hits: Vec<Hit>,
    pieces: Vec<Poly<Frac>>,
}

/// The hits in location l, by each uncontrollable switch from it, in order. The lists are those of all locations: the
/// invariants, the states outside the region, and the region.
/// It halts for `Wide` only where fractions refuse an operation of the calculus of this call,
/// for `Rows` and `Pieces` only where it has a list past `ROW_LIMIT`, `PIECE_LIMIT` or `LIST_ROW_LIMIT`, and for `Memory`.
pub fn hits_at(
    alloc: Global,
    plant: &Plant,
    invs: &[Vec<Poly<Frac>>],
    away: &[Vec<Poly<Frac>>],
    region: &[Vec<Poly<Frac>>],
    l: usize,
) -> Result<Vec<Hit>, Halt>
    requires there { l < length plant.now.locs.items }
    requires invs { AreListsOf plant.now invs.now }
    requires away { AreListsOf plant.now away.now }
    requires region { AreListsOf plant.now region.now }
    ensures calculus { IsHaltedBy result (calculus.hits_at (plain_plant plant.now) (plain_region invs.now) (plain_region away.now) (plain_region region.now) l) (λ v. plain_hits v.items) }
    ensures vars { IfOk result (λ v. AllOf (HasVars (length plant.now.vars.items)) v.items) }
{
    let mut kept = Kept {
        hits: Vec::new(alloc),
        pieces: Vec::new(alloc),
    };
    for e in 0..plant.switches.len() {
        let switch = &plant.switches[e];
        push_by(
            alloc, plant, invs, away, region, l, e as u32, switch, &mut kept,
        )?;
    }
    if is_within(&kept.pieces) {
        Ok(kept.hits)
    } else {
        Err(Halt::Pieces)
    }
}

// Puts the hits in location l by one switch at the end, where it is uncontrollable and leaves that location.
fn push_by(
    alloc: Global,
    plant: &Plant,
    invs: &[Vec<Poly<Frac>>],
    away: &[Vec<Poly<Frac>>],
    region: &[Vec<Poly<Frac>>],
    l: usize,
    e: u32,
    switch: &Switch,
    kept: &mut Kept,
) -> Result<(), Halt>
    requires there { l < length plant.now.locs.items }
    requires switch { IsSwitch (length plant.now.vars.items) (length plant.now.locs.items) (plain_switch switch.now) }
    requires invs { AreListsOf plant.now invs.now }
    requires away { AreListsOf plant.now away.now }
    requires region { AreListsOf plant.now region.now }
    requires kept { AreKept (length plant.now.vars.items) kept.old.hits.items kept.old.pieces.items }
    ensures calculus { IsHaltedBy result (calculus.hit_by (length plant.now.vars.items) (plain_region invs.now) (plain_region away.now) (plain_region region.now) l (plain_hits kept.old.hits.items) (e, plain_switch switch.now)) (λ _. plain_hits kept.new.hits.items) }
    ensures kept { OnOk result (AreKept (length plant.now.vars.items) kept.new.hits.items kept.new.pieces.items) }
{
    if switch.from as usize != l {
        return Ok(());
    }
    let here = &region[l];
    let outside = &away[switch.to as usize];
    match switch.side {
        Side::Ctl => Ok(()),
        Side::Pick => Ok(()),
        Side::Env => push_outside(
            alloc,
            plant.vars.len(),
            e,
            &switch.jump,
            &invs[l],
            here,
            outside,
            kept,
        ),
    }
}

// By switch e into each piece outside.
fn push_outside(
    alloc: Global,
    vars: usize,
    e: u32,
    jump: &[Row<Frac>],
    invs: &[Poly<Frac>],
    here: &[Poly<Frac>],
    outside: &[Poly<Frac>],
    kept: &mut Kept,
) -> Result<(), Halt>
    requires few { vars ≤ most_variables }
    requires jump { AllWide (vars + vars) jump.now }
    requires invs { AllVars vars invs.now }
    requires here { AllVars vars here.now }
    requires outside { AllVars vars outside.now }
    requires kept { AreKept vars kept.old.hits.items kept.old.pieces.items }
    ensures calculus { IsHaltedBy result (walk (calculus.hit_into vars (lines_of invs.now) (lines_of here.now) e jump.now) (plain_hits kept.old.hits.items) (lines_of outside.now)) (λ _. plain_hits kept.new.hits.items) }
    ensures kept { OnOk result (AreKept vars kept.new.hits.items kept.new.pieces.items) }
{
    for into in outside {
        push_into(alloc, vars, e, jump, invs, here, into, kept)?;
    }
    Ok(())
}

// By switch e into one piece outside.
fn push_into(
    alloc: Global,
    vars: usize,
    e: u32,
    jump: &[Row<Frac>],
    invs: &[Poly<Frac>],
    here: &[Poly<Frac>],
    into: &Poly<Frac>,
    kept: &mut Kept,
) -> Result<(), Halt>
    requires few { vars ≤ most_variables }
    requires jump { AllWide (vars + vars) jump.now }
    requires invs { AllVars vars invs.now }
    requires here { AllVars vars here.now }
    requires into { into.now.width ≡ vars }
    requires kept { AreKept vars kept.old.hits.items kept.old.pieces.items }
    ensures calculus { IsHaltedBy result (calculus.hit_into vars (lines_of invs.now) (lines_of here.now) e jump.now (plain_hits kept.old.hits.items) into.now.lines) (λ _. plain_hits kept.new.hits.items) }
    ensures kept { OnOk result (AreKept vars kept.new.hits.items kept.new.pieces.items) }
{
    let sources = pre_each(alloc, vars, jump, into, invs)?;
    push_sources(alloc, vars, e, into, here, &sources, kept)
}

// From each piece of the states that lead there.
fn push_sources(
    alloc: Global,
    vars: usize,
    e: u32,
    into: &Poly<Frac>,
    here: &[Poly<Frac>],
    sources: &[Poly<Frac>],
    kept: &mut Kept,
) -> Result<(), Halt>
    requires here { AllVars vars here.now }
    requires into { into.now.width ≡ vars }
    requires sources { AllVars vars sources.now }
    requires kept { AreKept vars kept.old.hits.items kept.old.pieces.items }
    ensures calculus { IsHaltedBy result (walk (calculus.hit_region vars (lines_of here.now) e into.now.lines) (plain_hits kept.old.hits.items) (lines_of sources.now)) (λ _. plain_hits kept.new.hits.items) }
    ensures kept { OnOk result (AreKept vars kept.new.hits.items kept.new.pieces.items) }
{
    for source in sources {
        push_source(alloc, vars, e, into, here, source, kept)?;
    }
    Ok(())
}

// From one such piece, in each piece of the region.
fn push_source(
    alloc: Global,
    vars: usize,
    e: u32,
    into: &Poly<Frac>,
    here: &[Poly<Frac>],
    source: &Poly<Frac>,
    kept: &mut Kept,
) -> Result<(), Halt>
    requires here { AllVars vars here.now }
    requires into { into.now.width ≡ vars }
    requires source { source.now.width ≡ vars }
    requires kept { AreKept vars kept.old.hits.items kept.old.pieces.items }
    ensures calculus { IsHaltedBy result (calculus.hit_region vars (lines_of here.now) e into.now.lines (plain_hits kept.old.hits.items) source.now.lines) (λ _. plain_hits kept.new.hits.items) }
    ensures kept { OnOk result (AreKept vars kept.new.hits.items kept.new.pieces.items) }
{
    for place in here {
        push_met(alloc, vars, e, into, source, place, kept)?;
    }
    Ok(())
}

// In one piece of the region.
fn push_met(
    alloc: Global,
    vars: usize,
    e: u32,
    into: &Poly<Frac>,
    source: &Poly<Frac>,
    place: &Poly<Frac>,
    kept: &mut Kept,
) -> Result<(), Halt>
    requires into { into.now.width ≡ vars }
    requires source { source.now.width ≡ vars }
    requires place { place.now.width ≡ vars }
    requires kept { AreKept vars kept.old.hits.items kept.old.pieces.items }
    ensures calculus { IsHaltedBy result (calculus.hit_piece vars e into.now.lines source.now.lines (plain_hits kept.old.hits.items) place.now.lines) (λ _. plain_hits kept.new.hits.items) }
    ensures kept { OnOk result (AreKept vars kept.new.hits.items kept.new.pieces.items) }
{
    let met = meet(alloc, source, place)?;
    match met {
        None => Ok(()),
        Some(piece) => push_hit(alloc, vars, e, into, piece, kept),
    }
}

// Puts the hit at the end, unless those that are kept cover its piece.
fn push_hit(
    alloc: Global,
    vars: usize,
    e: u32,
    into: &Poly<Frac>,
    piece: Poly<Frac>,
    kept: &mut Kept,
) -> Result<(), Halt>
    requires into { into.now.width ≡ vars }
    requires piece { piece.width ≡ vars }
    requires kept { AreKept vars kept.old.hits.items kept.old.pieces.items }
    ensures calculus { IsHaltedBy result (calculus.hit_where vars (plain_hits kept.old.hits.items) e into.now.lines (Some piece.lines)) (λ _. plain_hits kept.new.hits.items) }
    ensures kept { OnOk result (AreKept vars kept.new.hits.items kept.new.pieces.items) }
{
    let is_covered = covered(alloc, slice::from_ref(&piece), &kept.pieces)?;
    if is_covered {
        return Ok(());
    }
    let copy = piece.copy(alloc)?;
    let into = into.copy(alloc)?;
    kept.pieces.push(copy)?;
    kept.hits.push(Hit {
        switch: e,
        into,
        piece,
    })?;
    Ok(())
}
