//! The worked plants of the forward sets, read from their texts.
ghost use Rattle.std.specs.Prelude.{◌≤◌};

use crate::{Forward, ForwardStop, forward, init_of, read_init};
use lhg_lex::{Lines, TEXT_LIMIT};
use lhg_num::Frac;
use lhg_read::read_plant;
use std::alloc::Global;
use std::test::Fail;

// What is forward reachable from the first states that stand behind a plant, within so many levels.
fn answer(alloc: Global, text: &[u8], budget: u32) -> Result<Result<Forward, ForwardStop>, Fail>
    requires low { 1 ≤ budget }
    requires high { budget ≤ 1000 }
{
    if text.len() > TEXT_LIMIT {
        return Err("too long".into());
    }
    let mut lines = Lines::new(text);
    let Ok(plant) = read_plant(alloc, &mut lines) else {
        return Err("no plant".into());
    };
    let Ok(rows) = read_init(alloc, &mut lines, &plant) else {
        return Err("no first states".into());
    };
    let Ok(init) = init_of(alloc, &plant, &rows) else {
        return Err("no region".into());
    };
    Ok(forward(alloc, &plant, &init, budget))
}

const FLOW: &[u8] =
    b"lhg 1\nvars x\nloc only\ninv 0 <= x <= 10\nflow x = 1\nsafe x <= 8\nend\ninit only x = 3\nend\n";

// From 3 the plant flows up to 10.
#[test]
fn flows_on(rt: HostRuntime) -> Result<(), Fail> {
    let Ok(found) = answer(rt.alloc(), FLOW, 5)? else {
        return Err("stopped".into());
    };
    assert_eq!(rt; found.rounds, 2);
    assert_eq!(rt; found.region.pieces.len(), 1);
    let pieces = &found.region.pieces[0];
    assert_eq!(rt; pieces.len(), 2);
    let bounds = [
        [Frac::from(-3), Frac::from(3)],
        [Frac::from(-3), Frac::from(10)],
    ];
    for (piece, bound) in pieces.iter().zip(&bounds) {
        assert!(rt; piece.rows().len() == 2);
        assert!(rt;
            piece
                .rows()
                .iter()
                .zip(bound)
                .all(|(row, b)| row.bound == *b)
        );
    }
    Ok(())
}

const GROW: &[u8] =
    b"lhg 1\nvars x\nloc grow\ninv x >= 0\nsafe x <= 1\nswitch double env grow grow x' = 2*x\nend\ninit grow x = 1\nend\n";

// Each level doubles the newest value.
#[test]
fn has_no_end(rt: HostRuntime) -> Result<(), Fail> {
    match answer(rt.alloc(), GROW, 3)? {
        Err(ForwardStop::Spent(state)) => {
            assert_eq!(rt; state.loc, 0);
            assert!(rt; state.at.at.as_slice() == [Frac::from(8)].as_slice());
            Ok(())
        }
        _ => Err("not spent".into()),
    }
}

const NOTHING: &[u8] =
    b"lhg 1\nvars x\nloc grow\ninv x >= 0\nsafe x <= 1\nswitch double env grow grow x' = 2*x\nend\nend\n";

// Without a first state the first level adds nothing.
#[test]
fn begins_nowhere(rt: HostRuntime) -> Result<(), Fail> {
    let Ok(found) = answer(rt.alloc(), NOTHING, 3)? else {
        return Err("stopped".into());
    };
    assert_eq!(rt; found.rounds, 1);
    assert!(rt; found.region.pieces.iter().all(|pieces| pieces.is_empty()));
    Ok(())
}
