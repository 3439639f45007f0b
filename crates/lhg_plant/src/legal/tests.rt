// What is legal in a plant over x: one location with 2*x <= 16 and speeds up to 1, and one switch with x <= 2*x'.
ghost use Rattle.std.specs.Prelude.{◌≡◌, length, vec_len, IfOk};
ghost use Rattle.lhg_plant.specs.Proper.{IsLine, IsLocation, IsSwitch};
ghost use Rattle.lhg_plant.specs.Views.{plain_location, plain_switch};

use super::{in_invariant, legal_flow, legal_switch};
use crate::names::Name;
use crate::plants::{Location, Plant, Side, Switch};
use crate::states::State;
use lhg_num::Frac;
use lhg_row::{Kind, Point, Row};
use std::alloc::{AllocError, Global};
use std::test::Fail;

// The one row with these coefficients and at most this bound.
fn line(alloc: Global, coefs: &[Frac], bound: i64) -> Result<Vec<Row<Frac>>, AllocError>
    ensures { IfOk result (λ v. IsLine (length coefs.now) v.items) }
{
    let row = Row {
        coefs: coefs.to_vec(alloc)?,
        kind: Kind::Weak,
        bound: Frac::from(bound),
    };
    let mut rows = Vec::new(alloc);
    rows.push(row)?;
    Ok(rows)
}

fn location(alloc: Global) -> Result<Location, AllocError>
    ensures { IfOk result (λ l. IsLocation 1 (plain_location l)) }
{
    Ok(Location {
        name: Name::new(b"l"),
        inv: line(alloc, &[Frac::from(2)], 16)?,
        flow: line(alloc, &[Frac::from(1)], 1)?,
        safe: Vec::new(alloc),
    })
}

fn switch(alloc: Global) -> Result<Switch, AllocError>
    ensures { IfOk result (λ w. IsSwitch 1 1 (plain_switch w)) }
{
    Ok(Switch {
        name: Name::new(b"s"),
        from: 0,
        to: 0,
        side: Side::Ctl,
        jump: line(alloc, &[Frac::from(1), Frac::from(-2)], 0)?,
    })
}

fn plant(alloc: Global) -> Result<Plant, AllocError>
    ensures vars { IfOk result (λ p. vec_len p.vars ≡ 1) }
    ensures locs { IfOk result (λ p. vec_len p.locs ≡ 1) }
    ensures switches { IfOk result (λ p. vec_len p.switches ≡ 1) }
{
    let mut vars = Vec::new(alloc);
    vars.push(Name::new(b"x"))?;
    let mut locs = Vec::new(alloc);
    locs.push(location(alloc)?)?;
    let mut switches = Vec::new(alloc);
    switches.push(switch(alloc)?)?;
    Ok(Plant {
        vars,
        locs,
        switches,
    })
}

fn point(alloc: Global, x: Frac) -> Result<Point<Frac>, AllocError>
    ensures { IfOk result (λ p. length p ≡ 1) }
{
    Ok(Point {
        at: [x].to_vec(alloc)?,
    })
}

// What is answered of the state at x, and none for `Wide`.
fn state_answer(alloc: Global, x: Frac) -> Result<Option<bool>, AllocError> {
    let state = State {
        loc: 0,
        at: point(alloc, x)?,
    };
    Ok(in_invariant(&plant(alloc)?, &state).ok())
}

// The same of the flow from x to y.
fn flow_answer(alloc: Global, x: Frac, time: Frac, y: Frac) -> Result<Option<bool>, AllocError> {
    let from = State {
        loc: 0,
        at: point(alloc, x)?,
    };
    let to = point(alloc, y)?;
    Ok(legal_flow(&plant(alloc)?, &from, &time, &to).ok())
}

// The same of the switch from x to y.
fn switch_answer(alloc: Global, x: Frac, y: Frac) -> Result<Option<bool>, AllocError> {
    let from = State {
        loc: 0,
        at: point(alloc, x)?,
    };
    let to = point(alloc, y)?;
    Ok(legal_switch(&plant(alloc)?, 0, &from, &to).ok())
}

#[test]
fn tells_states(rt: HostRuntime) -> Result<(), Fail> {
    for (x, want) in [(8, true), (9, false)] {
        assert_eq!(rt; state_answer(rt.alloc(), Frac::from(x))?, Some(want));
    }
    Ok(())
}

#[test]
fn tells_flows(rt: HostRuntime) -> Result<(), Fail> {
    let flows = [
        (0, 2, 2, true),
        (0, 1, 2, false),
        (8, 1, 9, false),
        (9, 1, 8, false),
        (0, 0, 0, false),
        (0, -1, -1, false),
    ];
    for (x, time, y, want) in flows {
        let answer = flow_answer(rt.alloc(), Frac::from(x), Frac::from(time), Frac::from(y))?;
        assert_eq!(rt; answer, Some(want));
    }
    Ok(())
}

#[test]
fn tells_switches(rt: HostRuntime) -> Result<(), Fail> {
    let switches = [(4, 2, true), (4, 1, false), (4, 9, false), (9, 8, false)];
    for (x, y, want) in switches {
        let answer = switch_answer(rt.alloc(), Frac::from(x), Frac::from(y))?;
        assert_eq!(rt; answer, Some(want));
    }
    Ok(())
}

#[test]
fn is_too_wide(rt: HostRuntime) -> Result<(), Fail> {
    let huge = Frac::new(i128::MAX, 1).ok().ok_or("no number")?;
    let one = Frac::from(1);
    assert_eq!(rt; state_answer(rt.alloc(), huge)?, None);
    assert_eq!(rt; flow_answer(rt.alloc(), huge, one, one)?, None);
    assert_eq!(rt; switch_answer(rt.alloc(), huge, one)?, None);
    Ok(())
}
