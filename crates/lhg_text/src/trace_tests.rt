//! Traces of known runs.
ghost use Rattle.std.specs.Prelude.{◌≡◌, ◌<◌, ◌≤◌, OnOk, IfOk, length};
ghost use Rattle.lhg_math.specs.Tests.{AllOf};
ghost use Rattle.lhg_plant.specs.Views.{plain_plant, plain_state};
ghost use Rattle.lhg_play.specs.Views.{plain_step, plain_steps};
ghost use Rattle.lhg_text.specs.TraceText.{IsPlacedState, IsPlacedStep};

use crate::print_trace;
use lhg_lex::{Lines, TEXT_LIMIT};
use lhg_num::Frac;
use lhg_plant::{Plant, State};
use lhg_play::{Step, Trace};
use lhg_read::read_plant;
use lhg_row::Point;
use std::alloc::Global;
use std::test::Fail;

const HALF_OPEN: &[u8] =
    b"lhg 1\nvars x\nloc run\ninv 0 <= x <= 10\nflow x = 1\nsafe x < 8\nloc rest\ninv 0 <= x <= 10\nsafe all
switch go ctl run rest x >= 7, keep\nswitch hit env rest run keep\nend\n";

const WHOLE_TRACE: &[u8] =
    b"trace 1\nstart run x = 0\nflow 15/2 x = 15/2\nswitch go\nland rest x = 15/2\nenv hit run x = -1\nend\n";

const STOPPED_TRACE: &[u8] =
    b"trace 1\nstart run x = 0\nflow 15/2 x = 15/2\nswitch go\nillegal 2\n";

const NO_TRACE: &[u8] = b"trace 1\nillegal 0\n";

#[derive(Copy, Clone)]
enum Told {
    Start(u32, i128, i128),
    Flow(i128, i128),
    Switch(u32),
    Land(u32, i128, i128),
    Env(u32, u32, i128),
}

const STEPS: [Told; 5] = [
    Told::Start(0, 0, 1),
    Told::Flow(15, 2),
    Told::Switch(0),
    Told::Land(1, 15, 2),
    Told::Env(1, 0, -1),
];

fn number(n: i128, d: i128) -> Result<Frac, Fail> {
    Ok(Frac::new(n, d).ok().ok_or("no fraction")?)
}

// The plant has one variable.
fn is_one(count: usize) -> Result<(), Fail>
    ensures { OnOk result (count ≡ 1) }
{
    let found = if count == 1 { Some(()) } else { None };
    Ok(found.ok_or("not one")?)
}

// The place is one of so many.
fn there(place: u32, count: usize) -> Result<(), Fail>
    ensures { OnOk result (place < count) }
{
    let found = if (place as usize) < count {
        Some(())
    } else {
        None
    };
    Ok(found.ok_or("no such place")?)
}

fn point(alloc: Global, n: i128, d: i128) -> Result<Point<Frac>, Fail>
    ensures { IfOk result (λ p. length p ≡ 1) }
{
    let mut at = Vec::new(alloc);
    at.push(number(n, d)?)?;
    Ok(Point { at })
}

fn state(alloc: Global, plant: &Plant, loc: u32, n: i128, d: i128) -> Result<State, Fail>
    requires { length plant.now.vars.items ≡ 1 }
    ensures { IfOk result (λ s. IsPlacedState (plain_plant plant.now) (plain_state s)) }
{
    there(loc, plant.locs.len())?;
    let at = point(alloc, n, d)?;
    Ok(State { loc, at })
}

fn step(alloc: Global, plant: &Plant, told: Told) -> Result<Step, Fail>
    requires { length plant.now.vars.items ≡ 1 }
    ensures { IfOk result (λ s. IsPlacedStep (plain_plant plant.now) (plain_step s)) }
{
    match told {
        Told::Start(loc, n, d) => {
            let start = state(alloc, plant, loc, n, d)?;
            Ok(Step::Start(start))
        }
        Told::Flow(n, d) => {
            let time = number(n, d)?;
            let to = point(alloc, n, d)?;
            Ok(Step::Flow { time, to })
        }
        Told::Switch(number) => {
            there(number, plant.switches.len())?;
            Ok(Step::Switch { number })
        }
        Told::Land(loc, n, d) => {
            let result = state(alloc, plant, loc, n, d)?;
            Ok(Step::Land(result))
        }
        Told::Env(number, loc, n) => {
            there(number, plant.switches.len())?;
            let to = state(alloc, plant, loc, n, 1)?;
            Ok(Step::Env { number, to })
        }
    }
}

fn steps(alloc: Global, plant: &Plant, list: &[Told]) -> Result<Vec<Step>, Fail>
    requires { length plant.now.vars.items ≡ 1 }
    ensures { IfOk result (λ v. AllOf (IsPlacedStep (plain_plant plant.now)) (plain_steps v.items)) }
{
    let mut out = Vec::new(alloc);
    for told in list {
        let next = step(alloc, plant, *told)?;
        out.push(next)?;
    }
    Ok(out)
}

fn printed(alloc: Global, text: &[u8], list: &[Told], illegal: Option<u32>) -> Result<Vec<u8>, Fail>
    requires { length text.now ≤ TEXT_LIMIT }
{
    let mut lines = Lines::new(text);
    let plant = read_plant(alloc, &mut lines)?;
    is_one(plant.vars.len())?;
    let trace = Trace {
        steps: steps(alloc, &plant, list)?,
    };
    Ok(print_trace(alloc, &plant, &trace, illegal)?)
}

#[test]
fn half_open(rt: HostRuntime) -> Result<(), Fail> {
    let alloc = rt.alloc();
    let whole = printed(alloc, HALF_OPEN, &STEPS, None)?;
    assert_eq!(rt; whole.as_slice(), WHOLE_TRACE);
    let stopped = printed(alloc, HALF_OPEN, &STEPS[..3], Some(2))?;
    assert_eq!(rt; stopped.as_slice(), STOPPED_TRACE);
    let none = printed(alloc, HALF_OPEN, &[], Some(0))?;
    assert_eq!(rt; none.as_slice(), NO_TRACE);
    Ok(())
}
