//! Flows that join.
ghost use Rattle.std.specs.Prelude.{◌≡◌, ◌↔◌, ◌<◌, length, vec_len, IsTrue, IfOk, IfSome};
ghost use Rattle.lhg_plant.specs.Legal.{LegalFlow};
ghost use Rattle.lhg_plant.specs.Proper.{IsLine};
ghost use Rattle.lhg_plant.specs.Views.{plain_plant, plain_state};

use crate::{cut, join_flow, point_at};
use lhg_num::{Frac, Scalar};
use lhg_plant::{Location, Name, Plant, State, legal_flow};
use lhg_row::{Kind, Point, Row, whole_row};
use std::alloc::Global;
use std::test::Fail;

// The rows of the one variable between two bounds.
fn between(alloc: Global, least: i32, most: i32) -> Result<Vec<Row<Frac>>, Fail>
    ensures { IfOk result (λ v. IsLine 1 v.items) }
{
    let mut rows = Vec::new(alloc);
    rows.push(whole_row(alloc, &[-1], Kind::Weak, -i64::from(least))?)?;
    rows.push(whole_row(alloc, &[1], Kind::Weak, i64::from(most))?)?;
    Ok(rows)
}

// The point with this coordinate.
fn point(alloc: Global, x: i64) -> Result<Point<Frac>, Fail>
    ensures { IfOk result (λ p. length p ≡ 1) }
{
    let mut at = Vec::new(alloc);
    at.push(Frac::from(x))?;
    Ok(Point { at })
}

// Whether the flow is legal, where no number is too wide.
fn is_legal(plant: &Plant, from: &State, time: &Frac, to: &Point<Frac>) -> Option<bool>
    requires there { from.now.loc < vec_len plant.now.locs }
    requires start { length from.now.at ≡ vec_len plant.now.vars }
    requires end { length to.now ≡ vec_len plant.now.vars }
    ensures { IfSome result (λ b. IsTrue b ↔ LegalFlow (plain_plant plant.now) (plain_state from.now) time.now to.now) }
{
    match legal_flow(plant, from, time, to) {
        Ok(legal) => Some(legal),
        Err(_) => None,
    }
}

#[test]
fn two_flows_are_one(rt: HostRuntime) -> Result<(), Fail> {
    let alloc = rt.alloc();
    let mut vars = Vec::new(alloc);
    vars.push(Name::new(b"x"))?;
    let mut safe = Vec::new(alloc);
    safe.push(between(alloc, 18, 22)?)?;
    let mut locs = Vec::new(alloc);
    locs.push(Location {
        name: Name::new(b"heat"),
        inv: between(alloc, 0, 40)?,
        flow: between(alloc, 1, 2)?,
        safe,
    })?;
    let plant = Plant {
        vars,
        locs,
        switches: Vec::new(alloc),
    };
    let start = State {
        loc: 0,
        at: point(alloc, 18)?,
    };
    let middle = State {
        loc: 0,
        at: point(alloc, 19)?,
    };
    let end = point(alloc, 21)?;
    let one = Frac::one();
    let first = is_legal(&plant, &start, &one, &middle.at).ok_or("wide")?;
    assert!(rt; first);
    let second = is_legal(&plant, &middle, &one, &end).ok_or("wide")?;
    assert!(rt; second);
    let time = join_flow(&plant, &start, &one, &middle.at, &one, &end);
    assert!(rt; time == Ok(Frac::from(2)));
    Ok(())
}

// The fraction of these whole numbers.
fn fraction(n: i128, d: i128) -> Result<Frac, Fail> {
    Ok(Frac::new(n, d).ok().ok_or("no fraction")?)
}

#[test]
fn a_region_and_a_guard(rt: HostRuntime) -> Result<(), Fail> {
    let alloc = rt.alloc();
    let start = point(alloc, 0)?;
    let end = point(alloc, 9)?;
    let mut rows = between(alloc, 0, 8)?;
    let mut guard = between(alloc, 7, 8)?;
    rows.append(&mut guard)?;
    let places = cut(alloc, &start, &end, &rows)?;
    let expected = vec![in alloc;
        Frac::zero(),
        fraction(7, 18)?,
        fraction(7, 9)?,
        fraction(5, 6)?,
        fraction(8, 9)?,
        fraction(17, 18)?,
        Frac::one(),
    ]?;
    assert!(rt; places == expected);
    let at = point_at(alloc, &start, &end, &fraction(5, 6)?)?;
    let middle = vec![in alloc; fraction(15, 2)?]?;
    assert!(rt; at.at == middle);
    Ok(())
}
