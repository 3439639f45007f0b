//! The parts of an exchange: a play from 20 to 18 and then to 0, and a switch that keeps the value.
ghost use Rattle.std.specs.Prelude.{◌≡◌, IfOk, length};
ghost use Rattle.lhg_plant.specs.Proper.{IsLine, IsLocation, IsSwitch};
ghost use Rattle.lhg_plant.specs.Views.{plain_location, plain_switch};
ghost use Rattle.lhg_plant.specs.Word.{IsName};
ghost use Rattle.lhg_math.specs.Tests.{AllOf};
ghost use Rattle.lhg_play.specs.Views.{plain_moves};

use crate::fibres::{fibre, has_result};
use crate::plays::{run_upto, state_on, waited};
use lhg_num::{Frac, Halt};
use lhg_plant::{Location, Name, Plant, Side, State, Switch};
use lhg_play::{Escape, Move, Play, SpoilStep};
use lhg_row::{Kind, Point, Row, whole_row};
use std::alloc::Global;
use std::test::Fail;

// The point with this coordinate.
fn point(alloc: Global, x: i64) -> Result<Point<Frac>, Halt>
    ensures { IfOk result (λ p. length p ≡ 1) }
{
    let mut at = Vec::new(alloc);
    at.push(Frac::from(x))?;
    Ok(Point { at })
}

// The state of the first location at this value.
fn state(alloc: Global, x: i64) -> Result<State, Halt>
    ensures { IfOk result (λ s. (s.loc ≡ 0) × (length s.at ≡ 1)) }
{
    Ok(State {
        loc: 0,
        at: point(alloc, x)?,
    })
}

fn play(alloc: Global) -> Result<Play, Halt>
    ensures { IfOk result (λ p. (length p.moves.items ≡ 2) × AllOf (λ m. length m.to ≡ length p.start.at) (plain_moves p.moves.items)) }
{
    let start = state(alloc, 20)?;
    let mut moves = Vec::new(alloc);
    moves.push(Move {
        time: Frac::from(1),
        to: point(alloc, 18)?,
    })?;
    moves.push(Move {
        time: Frac::from(9),
        to: point(alloc, 0)?,
    })?;
    Ok(Play { start, moves })
}

// A place of a flow, and what the play comes to there: how many steps, the time of the last one, and the value.
struct Place {
    flow: usize,
    place: (i128, i128),
    steps: usize,
    time: (i128, i128),
    value: i64,
}

const PLACES: [Place; 3] = [
    Place {
        flow: 0,
        place: (1, 2),
        steps: 1,
        time: (1, 2),
        value: 19,
    },
    Place {
        flow: 1,
        place: (0, 1),
        steps: 1,
        time: (1, 1),
        value: 18,
    },
    Place {
        flow: 1,
        place: (1, 3),
        steps: 2,
        time: (3, 1),
        value: 12,
    },
];

// The fraction of these whole numbers.
fn fraction(of: (i128, i128)) -> Result<Frac, Fail> {
    Ok(Frac::new(of.0, of.1).ok().ok_or("no fraction")?)
}

fn is_at(point: &Point<Frac>, x: i64) -> bool {
    point.at.as_slice() == [Frac::from(x)].as_slice()
}

fn ends_with(steps: &[SpoilStep], wanted: &Frac, x: i64) -> bool {
    match steps.last() {
        Some(SpoilStep::Flow { time, to }) => *time == *wanted && is_at(to, x),
        _ => false,
    }
}

#[test]
fn a_flow_is_run_as_far_as_its_place(rt: HostRuntime) -> Result<(), Fail> {
    let alloc = rt.alloc();
    let play = play(alloc)?;
    for case in &PLACES {
        let place = fraction(case.place)?;
        assert!(rt; case.flow < play.moves.len());
        let state = state_on(alloc, &play, case.flow, &place)?;
        assert!(rt; is_at(&state.at, case.value));
        let steps = run_upto(alloc, &play, case.flow, &place, &state.at)?;
        assert!(rt; steps.len() == case.steps);
        assert!(rt; ends_with(&steps, &fraction(case.time)?, case.value));
    }
    Ok(())
}

#[test]
fn a_wait_is_the_whole_play_and_its_last_switch(rt: HostRuntime) -> Result<(), Fail> {
    let alloc = rt.alloc();
    let escape = Escape {
        round: 2,
        play: play(alloc)?,
        last: Some((3, state(alloc, 7)?)),
    };
    let answer = waited(alloc, &escape)?;
    assert!(rt; answer.steps.len() == 3);
    assert!(rt; is_at(&answer.state.at, 7));
    assert!(rt; answer.again.is_none());
    Ok(())
}

// The rows of the one value between two bounds.
fn between(alloc: Global, least: i64, most: i64) -> Result<Vec<Row<Frac>>, Halt>
    ensures { IfOk result (λ v. IsLine 1 v.items) }
{
    let mut rows = Vec::new(alloc);
    rows.push(whole_row(alloc, &[1], Kind::Weak, most)?)?;
    rows.push(whole_row(alloc, &[-1], Kind::Weak, least.wrapping_neg())?)?;
    Ok(rows)
}

// The rows of a switch that keeps the value.
fn kept(alloc: Global) -> Result<Vec<Row<Frac>>, Halt>
    ensures { IfOk result (λ v. IsLine 2 v.items) }
{
    let mut rows = Vec::new(alloc);
    rows.push(whole_row(alloc, &[1, -1], Kind::Weak, 0)?)?;
    rows.push(whole_row(alloc, &[-1, 1], Kind::Weak, 0)?)?;
    Ok(rows)
}

// A location of values from 0 to 40, of which those from 18 to 22 are safe.
fn location(alloc: Global, name: &[u8]) -> Result<Location, Halt>
    requires { IsName name.now }
    ensures location { IfOk result (λ l. IsLocation 1 (plain_location l)) }
    ensures name { IfOk result (λ l. l.name ≡ name.now) }
{
    let mut safe = Vec::new(alloc);
    safe.push(between(alloc, 18, 22)?)?;
    Ok(Location {
        name: Name::new(name),
        inv: between(alloc, 0, 40)?,
        flow: Vec::new(alloc),
        safe,
    })
}

fn switch(alloc: Global) -> Result<Switch, Halt>
    ensures { IfOk result (λ s. IsSwitch 1 2 (plain_switch s)) }
{
    Ok(Switch {
        name: Name::new(b"on"),
        from: 0,
        to: 1,
        side: Side::Ctl,
        jump: kept(alloc)?,
    })
}

fn plant(alloc: Global) -> Result<Plant, Halt>
    ensures { IfOk result (λ p. (length p.switches.items ≡ 1) × (length p.vars.items ≡ 1)) }
{
    let mut vars = Vec::new(alloc);
    vars.push(Name::new(b"x"))?;
    let mut locs = Vec::new(alloc);
    locs.push(location(alloc, b"cool")?)?;
    locs.push(location(alloc, b"heat")?)?;
    let mut switches = Vec::new(alloc);
    switches.push(switch(alloc)?)?;
    Ok(Plant {
        vars,
        locs,
        switches,
    })
}

fn is_found(found: &Option<Point<Frac>>, x: i64) -> bool {
    match found {
        Some(point) => is_at(point, x),
        None => false,
    }
}

#[test]
fn a_fibre_is_an_unsafe_result(rt: HostRuntime) -> Result<(), Fail> {
    let alloc = rt.alloc();
    let plant = plant(alloc)?;
    let safe = state(alloc, 20)?;
    assert!(rt; has_result(alloc, &plant, 0, &safe)?);
    assert!(rt; fibre(alloc, &plant, &[], 0, 0, &safe)?.is_none());
    let lost = state(alloc, 30)?;
    assert!(rt; is_found(&fibre(alloc, &plant, &[], 0, 0, &lost)?, 30));
    Ok(())
}
