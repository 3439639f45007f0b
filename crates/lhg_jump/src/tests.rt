//! A switch from `run`, where values up to 8 are safe, to `rest`, where those up to 5 are.
ghost use Rattle.std.specs.Prelude.{◌≡◌, ◌<◌, IfOk, length};
ghost use Rattle.lhg_plant.specs.Proper.{IsLine, IsLocation, IsSwitch};
ghost use Rattle.lhg_plant.specs.Views.{plain_location, plain_switch};
ghost use Rattle.lhg_plant.specs.Word.{IsName};
ghost use Rattle.lhg_jump.specs.PlantLists.{IsRegionOf};

use crate::{Hit, back, guards, out, pre, safe_region};
use lhg_num::{Frac, Halt};
use lhg_plant::{Location, Name, Plant, Side, Switch};
use lhg_poly::Poly;
use lhg_row::{Kind, Row, whole_row};
use lhg_union::Region;
use std::alloc::Global;
use std::process::Abort;
use std::test::Fail;

// The coefficient of the one variable, the kind, and the bound.
type Line = (i64, Kind, i64);

const FROM_0: Line = (-1, Kind::Weak, 0);

const ABOVE_0: Line = (-1, Kind::Strict, 0);

const ABOVE_5: Line = (-1, Kind::Strict, -5);

const FROM_6: Line = (-1, Kind::Weak, -6);

const FROM_11: Line = (-1, Kind::Weak, -11);

const BELOW_0: Line = (1, Kind::Strict, 0);

const UP_TO_5: Line = (1, Kind::Weak, 5);

const UP_TO_8: Line = (1, Kind::Weak, 8);

const UP_TO_10: Line = (1, Kind::Weak, 10);

// The values of both locations.
const ALL: [Line; 2] = [FROM_0, UP_TO_10];

const NONE: [Line; 2] = [ABOVE_0, BELOW_0];

const UNSAFE_AT_REST: [Line; 2] = [ABOVE_5, UP_TO_10];

const SAFE: [Line; 2] = [FROM_0, UP_TO_8];

type Pieces = &'static [[Line; 2]];

// A switch, and what it does to the safe states.
struct Case {
    // the values of `run`
    inv: [Line; 2],
    side: Side,
    // the line of the value after it, where there is one
    jump: Option<Line>,
    safe: Pieces,
    // where it has a result that is safe, is kept, is kept and safe, and leads out
    leading: Pieces,
    kept: Pieces,
    guard: Pieces,
    hit: Pieces,
}

const CASES: [Case; 8] = [
    // some results are unsafe
    Case {
        inv: ALL,
        side: Side::Ctl,
        jump: None,
        safe: &[SAFE],
        leading: &[ALL],
        kept: &[],
        guard: &[],
        hit: &[],
    },
    // all results are safe
    Case {
        inv: ALL,
        side: Side::Ctl,
        jump: Some(UP_TO_5),
        safe: &[SAFE],
        leading: &[ALL],
        kept: &[ALL],
        guard: &[SAFE],
        hit: &[],
    },
    // there is no result
    Case {
        inv: ALL,
        side: Side::Ctl,
        jump: Some(FROM_11),
        safe: &[SAFE],
        leading: &[],
        kept: &[],
        guard: &[],
        hit: &[],
    },
    // the controller picks one of the safe results
    Case {
        inv: ALL,
        side: Side::Pick,
        jump: None,
        safe: &[SAFE],
        leading: &[ALL],
        kept: &[ALL],
        guard: &[SAFE],
        hit: &[],
    },
    // it has none to pick
    Case {
        inv: ALL,
        side: Side::Pick,
        jump: Some(FROM_6),
        safe: &[SAFE],
        leading: &[],
        kept: &[],
        guard: &[],
        hit: &[],
    },
    // the plant picks one of the unsafe results
    Case {
        inv: ALL,
        side: Side::Env,
        jump: None,
        safe: &[SAFE],
        leading: &[ALL],
        kept: &[],
        guard: &[],
        hit: &[SAFE],
    },
    // it has none to pick
    Case {
        inv: ALL,
        side: Side::Env,
        jump: Some(UP_TO_5),
        safe: &[SAFE],
        leading: &[ALL],
        kept: &[],
        guard: &[],
        hit: &[],
    },
    // `run` has no states
    Case {
        inv: NONE,
        side: Side::Ctl,
        jump: Some(UP_TO_5),
        safe: &[],
        leading: &[],
        kept: &[],
        guard: &[],
        hit: &[],
    },
];

fn rows(alloc: Global, lines: &[Line]) -> Result<Vec<Row<Frac>>, Halt>
    requires { length lines.now < 64 }
    ensures { IfOk result (λ v. IsLine 1 v.items) }
{
    let mut rows = Vec::new(alloc);
    for (coef, kind, bound) in lines {
        rows.push(whole_row(alloc, &[*coef], *kind, *bound)?)?;
    }
    Ok(rows)
}

// The row of the value after a switch, where there is a line.
fn jump_rows(alloc: Global, line: Option<Line>) -> Result<Vec<Row<Frac>>, Halt>
    ensures { IfOk result (λ v. IsLine 2 v.items) }
{
    let mut rows = Vec::new(alloc);
    if let Some((coef, kind, bound)) = line {
        rows.push(whole_row(alloc, &[0, coef], kind, bound)?)?;
    }
    Ok(rows)
}

// A location in which values are safe up to the last line.
fn location(alloc: Global, name: &[u8], inv: [Line; 2], most: Line) -> Result<Location, Halt>
    requires { IsName name.now }
    ensures location { IfOk result (λ l. IsLocation 1 (plain_location l)) }
    ensures name { IfOk result (λ l. l.name ≡ name.now) }
{
    let mut safe = Vec::new(alloc);
    safe.push(rows(alloc, &[most])?)?;
    Ok(Location {
        name: Name::new(name),
        inv: rows(alloc, &inv)?,
        flow: Vec::new(alloc),
        safe,
    })
}

fn switch(alloc: Global, case: &Case) -> Result<Switch, Halt>
    ensures { IfOk result (λ s. IsSwitch 1 2 (plain_switch s)) }
{
    Ok(Switch {
        name: Name::new(b"go"),
        from: 0,
        to: 1,
        side: case.side,
        jump: jump_rows(alloc, case.jump)?,
    })
}

fn plant(alloc: Global, case: &Case) -> Result<Plant, Halt>
    ensures { IfOk result (λ p. length p.switches.items ≡ 1) }
{
    let mut vars = Vec::new(alloc);
    vars.push(Name::new(b"x"))?;
    let mut locs = Vec::new(alloc);
    locs.push(location(alloc, b"run", case.inv, UP_TO_8)?)?;
    locs.push(location(alloc, b"rest", ALL, UP_TO_5)?)?;
    let mut switches = Vec::new(alloc);
    switches.push(switch(alloc, case)?)?;
    Ok(Plant {
        vars,
        locs,
        switches,
    })
}

// The states from which the first switch leads into the region.
fn leading(alloc: Global, plant: &Plant, region: &Region<Frac>) -> Result<Vec<Poly<Frac>>, Halt>
    requires there { 0 < length plant.now.switches.items }
    requires region { IsRegionOf plant.now region.now.pieces.items }
{
    let to = plant.switches[0].to as usize;
    pre(alloc, plant, 0, &region.pieces[to])
}

// The states that each switch keeps in the region.
fn kept(alloc: Global, plant: &Plant, region: &Region<Frac>) -> Result<Vec<Vec<Poly<Frac>>>, Halt>
    requires { IsRegionOf plant.now region.now.pieces.items }
{
    let outs = out(alloc, plant, region)?;
    back(alloc, plant, region, &outs.away)
}

fn is(row: &Row<Frac>, line: &Line) -> bool {
    let (coef, kind, bound) = *line;
    row.coefs.as_slice() == [Frac::from(coef)].as_slice()
        && row.kind == kind
        && row.bound == Frac::from(bound)
}

fn has_rows(piece: &Poly<Frac>, lines: &[Line]) -> bool {
    let rows = piece.rows();
    rows.len() == lines.len() && rows.iter().zip(lines).all(|(row, line)| is(row, line))
}

// Whether the first list is of these pieces.
fn begins(lists: &[Vec<Poly<Frac>>], wanted: &[[Line; 2]]) -> bool {
    match lists.first() {
        Some(pieces) => are(pieces, wanted),
        None => false,
    }
}

fn are(pieces: &[Poly<Frac>], wanted: &[[Line; 2]]) -> bool {
    pieces.len() == wanted.len()
        && pieces
            .iter()
            .zip(wanted)
            .all(|(piece, lines)| has_rows(piece, lines))
}

// Whether the hits are by the first switch from these pieces, into the unsafe states of `rest`.
fn are_hits(hits: &[Hit], wanted: &[[Line; 2]]) -> bool {
    hits.len() == wanted.len()
        && hits
            .iter()
            .zip(wanted)
            .all(|(hit, lines)| is_hit(hit, lines))
}

fn is_hit(hit: &Hit, lines: &[Line]) -> bool {
    hit.switch == 0 && has_rows(&hit.into, &UNSAFE_AT_REST) && has_rows(&hit.piece, lines)
}

#[test]
fn keeps(rt: HostRuntime) -> Result<(), Fail> {
    let alloc = rt.alloc();
    for case in &CASES {
        let plant = plant(alloc, case)?;
        let region = safe_region(alloc, &plant)?;
        assert!(rt; begins(&region.pieces, case.safe));
        assert!(rt; are(&leading(alloc, &plant, &region)?, case.leading));
        assert!(rt; begins(&kept(alloc, &plant, &region)?, case.kept));
        assert!(rt; begins(&guards(alloc, &plant, &region)?, case.guard));
    }
    Ok(())
}

#[test]
fn leaves(rt: HostRuntime) -> Result<(), Fail> {
    let alloc = rt.alloc();
    for case in &CASES {
        let plant = plant(alloc, case)?;
        let region = safe_region(alloc, &plant)?;
        let outs = out(alloc, &plant, &region)?;
        let at_rest = outs
            .away
            .pieces
            .get(1)
            .is_some_and(|ps| are(ps, &[UNSAFE_AT_REST]));
        assert!(rt; at_rest);
        let hits = outs
            .hits
            .first()
            .is_some_and(|hits| are_hits(hits, case.hit));
        assert!(rt; hits);
    }
    Ok(())
}
