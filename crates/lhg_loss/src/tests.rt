//! The records of a plant that rises from below 8 to above it.
ghost use Rattle.std.specs.Prelude.{◌≡◌, IfOk, length};
ghost use Rattle.lhg_row.specs.Width.{AllWide};
ghost use Rattle.lhg_union.specs.PolyLists.{AllVars};
ghost use Rattle.lhg_loss.specs.Views.{AreOver};

use crate::{Cause, Loss, covers, first_holding};
use lhg_num::{Frac, Halt};
use lhg_plant::State;
use lhg_poly::{Poly, make};
use lhg_row::{Kind, Point, Row, whole_row};
use std::alloc::Global;
use std::test::Fail;

fn row(alloc: Global, coef: i64, kind: Kind, bound: i64) -> Result<Row<Frac>, Halt>
    ensures { IfOk result (λ r. length r.coefs ≡ 1) }
{
    whole_row(alloc, &[coef], kind, bound)
}

// The two rows of x.
fn rows(alloc: Global, least: Kind, from: i64, most: Kind, to: i64) -> Result<Vec<Row<Frac>>, Halt>
    ensures { IfOk result (λ v. AllWide 1 v.items) }
{
    let mut rows = Vec::new(alloc);
    rows.push(row(alloc, -1, least, from)?)?;
    rows.push(row(alloc, 1, most, to)?)?;
    Ok(rows)
}

// The points from a bound, which is given by its negative, to another.
fn piece(alloc: Global, from: i64, most: Kind, to: i64) -> Result<Poly<Frac>, Fail>
    ensures { IfOk result (λ p. p.width ≡ 1) }
{
    let rows = rows(alloc, Kind::Weak, from, most, to)?;
    match make(alloc, 1, rows)? {
        Some(piece) => Ok(piece),
        None => Err("empty".into()),
    }
}

// At 8 the plant leaves, and from below it flows to 8.
fn losses(alloc: Global) -> Result<Vec<Loss>, Fail>
    ensures { IfOk result (λ v. AreOver 1 v.items) }
{
    let mut losses = Vec::new(alloc);
    losses.push(Loss {
        number: 1,
        round: 1,
        loc: 0,
        piece: piece(alloc, -8, Kind::Weak, 8)?,
        cause: Cause::Leave {
            through: piece(alloc, -8, Kind::Weak, 10)?,
            into: piece(alloc, -8, Kind::Weak, 10)?,
        },
    })?;
    losses.push(Loss {
        number: 2,
        round: 1,
        loc: 0,
        piece: piece(alloc, 0, Kind::Strict, 8)?,
        cause: Cause::Flow {
            to: 1,
            through: piece(alloc, 0, Kind::Weak, 8)?,
        },
    })?;
    Ok(losses)
}

// The state at x in a location.
fn state(alloc: Global, loc: u32, x: i64) -> Result<State, Fail>
    ensures { IfOk result (λ s. length s.at ≡ 1) }
{
    let mut at = Vec::new(alloc);
    at.push(Frac::from(x))?;
    Ok(State {
        loc,
        at: Point { at },
    })
}

// Whether the records of a location cover the points from 0 to a bound.
fn are_covered(alloc: Global, loc: u32, to: i64) -> Result<bool, Fail> {
    let losses = losses(alloc)?;
    let mut pieces = Vec::new(alloc);
    pieces.push(piece(alloc, 0, Kind::Weak, to)?)?;
    Ok(covers(alloc, &losses, loc, &pieces)?)
}

// The first record that holds the state at x in a location.
fn first(alloc: Global, loc: u32, x: i64) -> Result<Option<u32>, Fail> {
    let losses = losses(alloc)?;
    let state = state(alloc, loc, x)?;
    match first_holding(&losses, &state) {
        Ok(first) => Ok(first),
        Err(_) => Err("wide".into()),
    }
}

#[test]
fn what_is_lost(rt: HostRuntime) -> Result<(), Fail> {
    let alloc = rt.alloc();
    assert!(rt; are_covered(alloc, 0, 8)?);
    assert!(rt; !are_covered(alloc, 0, 9)?);
    assert!(rt; !are_covered(alloc, 1, 8)?);
    for (loc, x, number) in [(0, 8, Some(1)), (0, 3, Some(2)), (0, 9, None), (1, 3, None)] {
        assert_eq!(rt; first(alloc, loc, x)?, number);
    }
    Ok(())
}
