//! Regions and guards as points: where the report has several lists of rows for one set, its points are compared.
ghost use Rattle.std.specs.Prelude.{◌≤◌, length};

use crate::plant_texts::{BEND, EDGE};
use lhg_iterate::{Solved, solve};
use lhg_lex::{Lines, TEXT_LIMIT};
use lhg_num::Frac;
use lhg_poly::Poly;
use lhg_read::read_plant;
use lhg_row::Point;
use std::alloc::Global;
use std::test::Fail;

// A water level whose pump obeys two time units late.
const PUMP: &[u8] =
    b"lhg 1\nvars x y\nloc fill\ninv 0 <= x <= 2, 0 <= y <= 20\nflow x = 0, y = 1\nsafe 1 <= y <= 12\nloc stopping\ninv 0 <= x <= 2, 0 <= y <= 20\nflow x = 1, y = 1\nsafe 1 <= y <= 12\nloc drain\ninv 0 <= x <= 2, 0 <= y <= 20\nflow x = 0, y = -2\nsafe 1 <= y <= 12\nloc starting\ninv 0 <= x <= 2, 0 <= y <= 20\nflow x = 1, y = -2\nsafe 1 <= y <= 12\nswitch stop ctl fill stopping x' = 0, y' = y\nswitch off env stopping drain x = 2, keep\nswitch start ctl drain starting x' = 0, y' = y\nswitch on env starting fill x = 2, keep\nend\n";

fn game(alloc: Global, text: &[u8]) -> Result<Solved, Fail>
    requires { length text.now ≤ TEXT_LIMIT }
{
    let mut lines = Lines::new(text);
    let plant = read_plant(alloc, &mut lines)?;
    match solve(alloc, &plant, 64) {
        Ok(solved) => Ok(solved),
        Err(_) => Err(Fail::from("it has no solution")),
    }
}

// Whether the point (x/d, y/d) is in some piece of the list with this place.
fn holds(
    alloc: Global,
    lists: &[Vec<Poly<Frac>>],
    place: usize,
    x: i64,
    y: i64,
    d: i64,
) -> Result<bool, Fail> {
    let at = vec![in alloc;
        Frac::new(x.into(), d.into())?,
        Frac::new(y.into(), d.into())?,
    ]?;
    let point = Point { at };
    let Some(pieces) = lists.get(place) else {
        return Err(Fail::from("no such list"));
    };
    for piece in pieces {
        if piece.vars() != 2 {
            return Err(Fail::from("another number of variables"));
        }
        let here = piece.has(&point)?;
        if here {
            return Ok(true);
        }
    }
    Ok(false)
}

// Points over one denominator: the numerators of x and y, the denominator, and whether the region holds the point in the first location.
const BEND_POINTS: [(i64, i64, i64, bool); 7] = [
    (0, 1, 1, true),
    (1, 3, 2, true),
    (1, 2, 1, true),
    (2, 2, 1, true),
    (0, 21, 20, false),
    (20, 41, 20, false),
    (42, 0, 20, false),
];

const EDGE_POINTS: [(i64, i64, i64, bool); 5] = [
    (1, 0, 1, true),
    (3, 2, 2, true),
    (4, 1, 2, true),
    (0, 0, 1, false),
    (1, 1, 1, false),
];

#[test]
fn bends(rt: HostRuntime) -> Result<(), Fail> {
    let bend = game(rt.alloc(), BEND)?;
    assert_eq!(rt; bend.rounds, 2);
    for (x, y, d, want) in BEND_POINTS {
        let found = holds(rt.alloc(), &bend.region.pieces, 0, x, y, d)?;
        assert_eq!(rt; found, want, "{x}/{d}, {y}/{d}");
    }
    let edge = game(rt.alloc(), EDGE)?;
    assert_eq!(rt; edge.rounds, 2);
    for (x, y, d, want) in EDGE_POINTS {
        let found = holds(rt.alloc(), &edge.region.pieces, 0, x, y, d)?;
        assert_eq!(rt; found, want, "{x}/{d}, {y}/{d}");
    }
    Ok(())
}

// Whether the pump's region holds (x/2, y/2) in the location with this place.
fn is_kept(place: usize, x: i64, y: i64) -> bool {
    let (x, y) = (i128::from(x), i128::from(y));
    match place {
        0 => (2..=20).contains(&y),
        1 => (6..=20).contains(&(y - x)),
        2 => (10..=24).contains(&y),
        _ => (10..=28).contains(&(2 * x + y)) && y <= 24,
    }
}

#[test]
fn pumps(rt: HostRuntime) -> Result<(), Fail> {
    let pump = game(rt.alloc(), PUMP)?;
    assert_eq!(rt; pump.rounds, 4);
    for x in 0..=4 {
        for y in 0..=40 {
            for place in 0..4 {
                let found = holds(rt.alloc(), &pump.region.pieces, place, x, y, 2)?;
                assert_eq!(rt; found, is_kept(place, x, y), "{place}: {x}/2, {y}/2");
            }
            let stop = holds(rt.alloc(), &pump.guards, 0, x, y, 2)?;
            assert_eq!(rt; stop, (6..=20).contains(&y), "stop: {x}/2, {y}/2");
            let start = holds(rt.alloc(), &pump.guards, 2, x, y, 2)?;
            assert_eq!(rt; start, (10..=24).contains(&y), "start: {x}/2, {y}/2");
        }
    }
    Ok(())
}
