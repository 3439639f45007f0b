// Boxes over some variables, and what others leave of one.
ghost use Rattle.std.specs.Prelude.{IfOk};
ghost use Rattle.lhg_row.specs.Width.{AllWide};
ghost use Rattle.lhg_union.specs.PolyLists.{AllVars};

use crate::bounds::side;
use lhg_num::{Frac, Halt};
use lhg_poly::{Poly, make};
use lhg_row::{Kind, Row};
use lhg_union::minus;
use std::alloc::Global;

// Each variable is from low to high.
fn sides(alloc: Global, vars: usize, low: u16, high: u16) -> Result<Vec<Row<Frac>>, Halt>
    ensures { IfOk result (λ v. AllWide vars v.items) }
{
    let mut out = Vec::new(alloc);
    for k in 0..vars {
        out.push(side(alloc, vars, k, -1, Kind::Weak, -i64::from(low))?)?;
        out.push(side(alloc, vars, k, 1, Kind::Weak, i64::from(high))?)?;
    }
    Ok(out)
}

// Puts the box from low to high in each variable at the end of the list.
fn push_box(
    alloc: Global,
    out: &mut Vec<Poly<Frac>>,
    vars: usize,
    low: u16,
    high: u16,
) -> Result<(), Halt>
    requires { AllVars vars out.old.items }
    ensures { IfOk result (λ _. AllVars vars out.new.items) }
{
    let rows = sides(alloc, vars, low, high)?;
    if let Some(piece) = make(alloc, vars, rows)? {
        out.push(piece)?;
    }
    Ok(())
}

// The boxes from 1 to 2, from 3 to 4, and so on, in each variable.
fn diagonal(alloc: Global, vars: usize, count: u8) -> Result<Vec<Poly<Frac>>, Halt>
    ensures { IfOk result (λ v. AllVars vars v.items) }
{
    let mut out = Vec::new(alloc);
    for i in 0..count {
        let low = 2 * u16::from(i) + 1;
        push_box(alloc, &mut out, vars, low, low + 1)?;
    }
    Ok(out)
}

/// The pieces that so many boxes leave of one box that holds them all. No two of them touch.
pub fn left(alloc: Global, vars: usize, count: u8) -> Result<Vec<Poly<Frac>>, Halt> {
    let mut whole = Vec::new(alloc);
    push_box(alloc, &mut whole, vars, 0, 2 * u16::from(count) + 1)?;
    let boxes = diagonal(alloc, vars, count)?;
    minus(alloc, &whole, &boxes)
}
