//! A room between 18 and 22 degrees, whose heater can be switched off from some degrees on.
ghost use Rattle.std.specs.Prelude.{◌≡◌, ◌<◌, ◌≤◌, IfOk};
ghost use Rattle.lhg_plant.specs.Proper.{IsLine, IsLocation, IsSwitch};
ghost use Rattle.lhg_plant.specs.Views.{plain_location, plain_plant, plain_switch};
ghost use Rattle.lhg_plant.specs.Word.{IsName};
ghost use Rattle.lhg_iterate.specs.Outcomes.{IsSolvedBy};

use crate::{Solved, Stop, law_largest, round, solve};
use lhg_jump::safe_region;
use lhg_loss::{Cause, Loss};
use lhg_num::{Frac, Halt, Wide};
use lhg_plant::{Location, Name, Plant, Side, State, StateSet, Switch};
use lhg_poly::Poly;
use lhg_row::{Kind, Row, whole_row};
use std::alloc::Global;
use std::process::Abort;
use std::test::Fail;

// No states at all.
struct Nothing;

impl StateSet for Nothing {
    ghost belongs = { λ set a s. ⊥ };

    fn has(&self, _plant: &Plant, _state: &State) -> Result<bool, Wide> {
        Ok(false)
    }
}

// The rows of the one variable between two bounds.
fn between(alloc: Global, least: i32, most: i32) -> Result<Vec<Row<Frac>>, Halt>
    ensures { IfOk result (λ v. IsLine 1 v.items) }
{
    let mut rows = Vec::new(alloc);
    rows.push(whole_row(alloc, &[-1], Kind::Weak, -i64::from(least))?)?;
    rows.push(whole_row(alloc, &[1], Kind::Weak, i64::from(most))?)?;
    Ok(rows)
}

// A location with speeds between two bounds.
fn location(alloc: Global, name: &[u8], least: i32, most: i32) -> Result<Location, Halt>
    requires { IsName name.now }
    ensures location { IfOk result (λ l. IsLocation 1 (plain_location l)) }
    ensures name { IfOk result (λ l. l.name ≡ name.now) }
{
    let mut safe = Vec::new(alloc);
    safe.push(between(alloc, 18, 22)?)?;
    Ok(Location {
        name: Name::new(name),
        inv: between(alloc, 0, 40)?,
        flow: between(alloc, least, most)?,
        safe,
    })
}

// The value stays, and is at least this.
fn kept_from(alloc: Global, least: i32) -> Result<Vec<Row<Frac>>, Halt>
    ensures { IfOk result (λ v. IsLine 2 v.items) }
{
    let mut rows = Vec::new(alloc);
    rows.push(whole_row(alloc, &[-1, 0], Kind::Weak, -i64::from(least))?)?;
    rows.push(whole_row(alloc, &[1, -1], Kind::Weak, 0)?)?;
    rows.push(whole_row(alloc, &[-1, 1], Kind::Weak, 0)?)?;
    Ok(rows)
}

// A switch of the controller from some degrees on.
fn switch(alloc: Global, name: &[u8], from: u32, to: u32, least: i32) -> Result<Switch, Halt>
    requires name { IsName name.now }
    requires from { from < 2 }
    requires to { to < 2 }
    ensures switch { IfOk result (λ s. IsSwitch 1 2 (plain_switch s)) }
    ensures name { IfOk result (λ s. s.name ≡ name.now) }
{
    Ok(Switch {
        name: Name::new(name),
        from,
        to,
        side: Side::Ctl,
        jump: kept_from(alloc, least)?,
    })
}

// The room whose heater can be switched off from some degrees on.
fn room(alloc: Global, least: i32) -> Result<Plant, Halt> {
    let mut vars = Vec::new(alloc);
    vars.push(Name::new(b"x"))?;
    let mut locs = Vec::new(alloc);
    locs.push(location(alloc, b"heat", 1, 2)?)?;
    locs.push(location(alloc, b"cool", -2, -1)?)?;
    let mut switches = Vec::new(alloc);
    switches.push(switch(alloc, b"off", 0, 1, least)?)?;
    switches.push(switch(alloc, b"on", 1, 0, 0)?)?;
    Ok(Plant {
        vars,
        locs,
        switches,
    })
}

// What solves the game within so many rounds.
fn solved(alloc: Global, plant: &Plant, budget: u32) -> Result<Solved, Fail>
    requires low { 1 ≤ budget }
    requires high { budget ≤ 1000 }
    ensures { IfOk result (IsSolvedBy (plain_plant plant.now) budget) }
{
    match solve(alloc, plant, budget) {
        Ok(solved) => Ok(solved),
        Err(_) => Err("stopped".into()),
    }
}

// Whether each list is of one piece, from 18 to 22.
fn are_whole(lists: &[Vec<Poly<Frac>>]) -> bool {
    lists
        .iter()
        .all(|pieces| pieces.len() == 1 && pieces.iter().all(is_whole))
}

fn is_whole(piece: &Poly<Frac>) -> bool {
    let bounds = [Frac::from(-18), Frac::from(22)];
    let rows = piece.rows();
    rows.len() == 2
        && rows
            .iter()
            .zip(&bounds)
            .all(|(row, bound)| row.bound == *bound)
}

#[test]
fn keeps_what_can_be_kept(rt: HostRuntime) -> Result<(), Fail> {
    let alloc = rt.alloc();
    let plant = room(alloc, 0)?;
    let solved = solved(alloc, &plant, 64)?;
    assert_eq!(rt; solved.rounds, 1);
    assert!(rt; solved.losses.is_empty());
    assert_eq!(rt; solved.region.pieces.len(), 2);
    assert!(rt; are_whole(&solved.region.pieces));
    assert_eq!(rt; solved.guards.len(), 2);
    assert!(rt; are_whole(&solved.guards));
    law_largest(&plant, &solved, &Nothing);
    Ok(())
}

// Whether the record is of this number, round and location, and its cause is the flow to this record, or leaving where there is none.
fn is(loss: &Loss, number: u32, round: u32, loc: u32, to: Option<u32>) -> bool {
    let cause = match loss.cause {
        Cause::Leave { .. } => to.is_none(),
        Cause::Flow { to: next, .. } => to == Some(next),
        Cause::Env { .. } => false,
    };
    cause && loss.number == number && loss.round == round && loss.loc == loc
}

// The room whose heater is switched off too late: those of `heat` are lost first, and those of `cool` by it.
#[test]
fn loses_over_rounds(rt: HostRuntime) -> Result<(), Fail> {
    let alloc = rt.alloc();
    let plant = room(alloc, 23)?;
    let solved = solved(alloc, &plant, 3)?;
    assert_eq!(rt; solved.rounds, 3);
    assert!(rt; solved.region.pieces.iter().all(|pieces| pieces.is_empty()));
    assert!(rt; solved.guards.iter().all(|pieces| pieces.is_empty()));
    assert_eq!(rt; solved.losses.len(), 4);
    let wanted = [
        (1, 1, 0, None),
        (2, 1, 0, Some(1)),
        (3, 2, 1, None),
        (4, 2, 1, Some(3)),
    ];
    for (loss, (number, round, loc, to)) in solved.losses.iter().zip(wanted) {
        assert!(rt; is(loss, number, round, loc, to));
    }
    Ok(())
}

#[test]
fn spends_its_budget(rt: HostRuntime) -> Result<(), Fail> {
    let alloc = rt.alloc();
    let plant = room(alloc, 23)?;
    match solve(alloc, &plant, 2) {
        Err(Stop::Spent(state)) => {
            assert_eq!(rt; state.loc, 1);
            assert!(rt; state.at.at.as_slice() == [Frac::from(18)].as_slice());
            Ok(())
        }
        _ => Err("not spent".into()),
    }
}

#[test]
fn goes_one_round(rt: HostRuntime) -> Result<(), Fail> {
    let alloc = rt.alloc();
    let plant = room(alloc, 23)?;
    let region = safe_region(alloc, &plant)?;
    let first = round(alloc, &plant, &region, 1, 1)?;
    assert_eq!(rt; first.losses.len(), 2);
    let left: Vec<usize> = first
        .next
        .pieces
        .iter()
        .map(|pieces| pieces.len())
        .collect(alloc)?;
    assert_eq!(rt; left.as_slice(), [0, 1].as_slice());
    Ok(())
}
