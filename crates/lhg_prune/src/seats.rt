// Whether points tell which rows of an elimination are wanted.
ghost use Rattle.std.specs.Prelude.{◌≡◌, ◌+◌, ◌⊎◌, true, false, length, map, take, IfOk};
ghost use Rattle.lhg_math.specs.Tests.{AllOf};
ghost use Rattle.lhg_row.specs.Members.{SomeOf};
ghost use Rattle.lhg_row.specs.Row.{Holds, holds_at, relaxed};
ghost use Rattle.lhg_row.specs.Width.{AllWide};
ghost use Rattle.lhg_prune.specs.Directions as plain;
ghost use Rattle.lhg_prune.specs.Grown.{IsGrown};
ghost use Rattle.lhg_prune.specs.Seat.{IsIn, IsSeat};
ghost use Rattle.lhg_prune.specs.Touch.{strictly};

use crate::directions::are_wanted;
use crate::forming::formed;
use lhg_num::{Frac, Halt, Scalar, Wide};
use lhg_row::{Point, Row, all_hold, copy_row, holds};
use std::alloc::Global;

/// Whether each of the points, over `keep` + 1 variables, lies in the closure of the rows, and all that is made there of rows without room is wanted.
/// `weak` and `strict` are the rows made weak and made strict.
pub(crate) fn are_seats<N: Scalar>(
    alloc: Global,
    keep: usize,
    rows: &[Row<N>],
    weak: &[Row<Frac>],
    strict: &[Row<Frac>],
    wanted: &[Row<N>],
    points: &[Point<Frac>],
) -> Result<bool, Halt>
    requires wide { AllWide (keep + 1) rows.now }
    requires weak { weak.now ≡ map relaxed rows.now }
    requires strict { strict.now ≡ map strictly rows.now }
    requires wanted { AllWide keep wanted.now }
    requires points { AllOf (λ z. length z ≡ keep + 1) points.now }
    ensures { IfOk result (λ b. b ≡ true → AllOf (IsSeat N.arithmetic keep rows.now (plain.is_wanted N.arithmetic wanted.now)) points.now) }
{
    for point in points {
        let seat = is_seat(alloc, keep, rows, weak, strict, wanted, point)?;
        if !seat {
            return Ok(false);
        }
    }
    Ok(true)
}

// The same of one point.
fn is_seat<N: Scalar>(
    alloc: Global,
    keep: usize,
    rows: &[Row<N>],
    weak: &[Row<Frac>],
    strict: &[Row<Frac>],
    wanted: &[Row<N>],
    point: &Point<Frac>,
) -> Result<bool, Halt>
    requires wide { AllWide (keep + 1) rows.now }
    requires weak { weak.now ≡ map relaxed rows.now }
    requires strict { strict.now ≡ map strictly rows.now }
    requires wanted { AllWide keep wanted.now }
    requires point { length point.now ≡ keep + 1 }
    ensures { IfOk result (λ b. b ≡ true → IsSeat N.arithmetic keep rows.now (plain.is_wanted N.arithmetic wanted.now) point.now) }
{
    let inside = all_hold(weak, point)?;
    if !inside {
        return Ok(false);
    }
    let firm = firm_rows(alloc, rows, strict, point)?;
    let made = formed(alloc, keep, &firm, keep)?;
    are_wanted(keep, &made, wanted)
}

/// Copies of the rows that have no room at the point; `strict` are the rows made strict.
pub(crate) fn firm_rows<N: Scalar>(
    alloc: Global,
    rows: &[Row<N>],
    strict: &[Row<Frac>],
    point: &Point<Frac>,
) -> Result<Vec<Row<N>>, Halt>
    requires strict { strict.now ≡ map strictly rows.now }
    requires wide { AllWide (length point.now) rows.now }
    ensures told { IfOk result (λ v. AllOf (λ r. Holds (strictly r) point.now ⊎ IsIn r v.items) rows.now) }
    ensures wide { IfOk result (λ v. AllWide (length point.now) v.items) }
{
    let mut out = Vec::new(alloc);
    for i in 0..rows.len() {
        push_firm(alloc, &mut out, &rows[i], &strict[i], point)?;
    }
    Ok(out)
}

// Puts a copy of the row at the end, unless it has room at the point.
fn push_firm<N: Scalar>(
    alloc: Global,
    out: &mut Vec<Row<N>>,
    row: &Row<N>,
    strict: &Row<Frac>,
    point: &Point<Frac>,
) -> Result<(), Halt>
    requires strict { strict.now ≡ strictly row.now }
    requires wide { length row.now.coefs ≡ length point.now }
    ensures { IfOk result (λ _. IsGrown (Holds (strictly row.now) point.now) out.old.items row.now out.new.items) }
{
    let room = holds(strict, point)?;
    if !room {
        let copy = copy_row(alloc, row)?;
        out.push(copy)?;
    }
    Ok(())
}

/// Whether each of the rows fails at some of the points.
pub(crate) fn fail_somewhere(rows: &[Row<Frac>], points: &[Point<Frac>]) -> Result<bool, Wide>
    requires { AllOf (λ r. AllOf (λ c. length r.coefs ≡ length c) points.now) rows.now }
    ensures { IfOk result (λ b. b ≡ true → AllOf (λ r. SomeOf (λ c. holds_at r c ≡ false) points.now) rows.now) }
{
    for row in rows {
        let fails = fails_somewhere(row, points)?;
        if !fails {
            return Ok(false);
        }
    }
    Ok(true)
}

// The same of one row.
fn fails_somewhere(row: &Row<Frac>, points: &[Point<Frac>]) -> Result<bool, Wide>
    requires { AllOf (λ c. length row.now.coefs ≡ length c) points.now }
    ensures { IfOk result (λ b. b ≡ true → SomeOf (λ c. holds_at row.now c ≡ false) points.now) }
{
    for point in points {
        let here = holds(row, point)?;
        if !here {
            return Ok(true);
        }
    }
    Ok(false)
}

/// The first coordinates of the points.
pub(crate) fn firsts(
    alloc: Global,
    keep: usize,
    points: &[Point<Frac>],
) -> Result<Vec<Point<Frac>>, Halt>
    requires { AllOf (λ z. length z ≡ keep + 1) points.now }
    ensures { IfOk result (λ v. v.items ≡ map (take keep) points.now) }
{
    let mut out = Vec::with_capacity(alloc, points.len())?;
    for point in points {
        let first = first(alloc, keep, point)?;
        out.push(first)?;
    }
    Ok(out)
}

// Those of one point.
fn first(alloc: Global, keep: usize, point: &Point<Frac>) -> Result<Point<Frac>, Halt>
    requires { length point.now ≡ keep + 1 }
    ensures { IfOk result (λ p. p ≡ take keep point.now) }
{
    let mut at = Vec::with_capacity(alloc, keep)?;
    for i in 0..keep {
        at.push(point.at[i])?;
    }
    Ok(Point { at })
}
