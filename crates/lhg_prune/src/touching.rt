// Points at which a piece over some variables touches the bounds of the piece that is left of it without the last one.
//
// They are guessed. Nothing rests on them but which rows are thought to be wanted, and what is chosen so is confirmed.
ghost use Rattle.std.specs.Prelude.{◌≡◌, ◌+◌, ℕ, length, IfOk, IfSome};
ghost use Rattle.lhg_math.specs.Tests.{AllOf};
ghost use Rattle.lhg_row.specs.Width.{AllWide};

use crate::kinds::weak_rows;
use lhg_num::{Frac, Halt, Scalar};
use lhg_row::{Kind, Point, Row, append_rows, copy_row, copy_rows, negate, relax, trim, widen};
use lhg_simplex::{Guess, guess};
use std::alloc::Global;

// How much room the other rows shall have at a point where one is tight: the first of these that some point allows.
const ROOMS: [i128; 3] = [16, 4096, 1048576];

/// For each row of `left`, a point in the closure of the rows, which are over `vars` variables, one more than it is, at which it has no room and as many others as are
/// found to have some.
pub(crate) fn touch_points(
    alloc: Global,
    vars: usize,
    rows: &[Row<Frac>],
    left: &[Row<Frac>],
) -> Result<Vec<Point<Frac>>, Halt>
    requires rows { AllWide vars rows.now }
    requires left { AllOf (λ r. length r.coefs + 1 ≡ vars) left.now }
    ensures { IfOk result (λ v. AllOf (λ z. length z ≡ vars) v.items) }
{
    let weak = weak_rows(alloc, rows)?;
    let lowered = with_rooms(alloc, vars, &weak, left)?;
    let mut points = Vec::new(alloc);
    for i in 0..left.len() {
        push_point(alloc, vars, &weak, &left[i], &lowered, i, &mut points)?;
    }
    Ok(points)
}

// Puts a point at which the row at place i is tight at the end, where one is found.
fn push_point(
    alloc: Global,
    vars: usize,
    weak: &[Row<Frac>],
    row: &Row<Frac>,
    lowered: &[Row<Frac>],
    i: usize,
    points: &mut Vec<Point<Frac>>,
) -> Result<(), Halt>
    requires weak { AllWide vars weak.now }
    requires row { length row.now.coefs + 1 ≡ vars }
    requires lowered { AllWide vars lowered.now }
    requires points { AllOf (λ z. length z ≡ vars) points.old.items }
    ensures { IfOk result (λ _. AllOf (λ z. length z ≡ vars) points.new.items) }
{
    let tight = tight_rows(alloc, weak, row)?;
    let mut rows = copy_rows(alloc, &tight)?;
    push_others(alloc, &mut rows, lowered, i)?;
    let found = match point_of(alloc, vars, rows)? {
        Some(point) => Some(point),
        None => point_of(alloc, vars, tight)?,
    };
    if let Some(point) = found {
        points.push(point)?;
    }
    Ok(())
}

// The rows, and that the row over one variable less has no room.
fn tight_rows(alloc: Global, weak: &[Row<Frac>], row: &Row<Frac>) -> Result<Vec<Row<Frac>>, Halt>
    requires { AllWide (length row.now.coefs + 1) weak.now }
    ensures { IfOk result (λ v. AllWide (length row.now.coefs + 1) v.items) }
{
    let mut rows = copy_rows(alloc, weak)?;
    let wide = widen(alloc, row, 0, 1)?;
    let below = relax(alloc, &wide)?;
    let past = negate(alloc, &below)?;
    let above = relax(alloc, &past)?;
    rows.push(below)?;
    rows.push(above)?;
    Ok(rows)
}

// Puts copies of the rows but the one at place i at the end.
fn push_others(
    alloc: Global,
    rows: &mut Vec<Row<Frac>>,
    more: &[Row<Frac>],
    i: usize,
) -> Result<(), Halt>
    ensures { (n : ℕ) → AllWide n rows.old.items → AllWide n more.now → IfOk result (λ _. AllWide n rows.new.items) }
{
    if i >= more.len() {
        return append_rows(alloc, rows, more);
    }
    append_rows(alloc, rows, &more[..i])?;
    append_rows(alloc, rows, &more[i + 1..])
}

// Of each row of what is left, the row with its bound lowered by the first of the rooms that some point of the rows allows.
fn with_rooms(
    alloc: Global,
    vars: usize,
    weak: &[Row<Frac>],
    left: &[Row<Frac>],
) -> Result<Vec<Row<Frac>>, Halt>
    requires weak { AllWide vars weak.now }
    requires left { AllOf (λ r. length r.coefs + 1 ≡ vars) left.now }
    ensures { IfOk result (λ v. AllWide vars v.items) }
{
    let mut out = Vec::with_capacity(alloc, left.len())?;
    for row in left {
        let lowered = with_room(alloc, vars, weak, row)?;
        out.push(lowered)?;
    }
    Ok(out)
}

// The same of one row.
fn with_room(
    alloc: Global,
    vars: usize,
    weak: &[Row<Frac>],
    row: &Row<Frac>,
) -> Result<Row<Frac>, Halt>
    requires weak { AllWide vars weak.now }
    requires row { length row.now.coefs + 1 ≡ vars }
    ensures { IfOk result (λ r. length r.coefs ≡ vars) }
{
    for room in ROOMS {
        let lowered = lowered(alloc, row, room)?;
        let mut rows = copy_rows(alloc, weak)?;
        let copy = copy_row(alloc, &lowered)?;
        rows.push(copy)?;
        if point_of(alloc, vars, rows)?.is_some() {
            return Ok(lowered);
        }
    }
    let wide = widen(alloc, row, 0, 1)?;
    relax(alloc, &wide)
}

// The row over one variable more, made weak, with its bound lowered by 1 over the number; the bound stays where it would be too wide.
fn lowered(alloc: Global, row: &Row<Frac>, room: i128) -> Result<Row<Frac>, Halt>
    ensures { IfOk result (λ r. length r.coefs ≡ length row.now.coefs + 1) }
{
    let mut wide = widen(alloc, row, 0, 1)?;
    wide.kind = Kind::Weak;
    if let Ok(part) = Frac::new(1, room) {
        if let Ok(bound) = row.bound.sub(&part) {
            wide.bound = bound;
        }
    }
    Ok(wide)
}

// A point of the rows, where one is guessed.
fn point_of(alloc: Global, vars: usize, rows: Vec<Row<Frac>>) -> Result<Option<Point<Frac>>, Halt>
    requires { AllWide vars rows.items }
    ensures { IfOk result (λ o. IfSome o (λ z. length z ≡ vars)) }
{
    let system = trim(alloc, vars, rows)?;
    match guess(alloc, &system)? {
        Guess::Point(point) => {
            if point.at.len() == vars {
                return Ok(Some(point));
            }
            Ok(None)
        }
        _ => Ok(None),
    }
}
