// The last elimination, with the rows alone that the piece of what is left needs.
ghost use Rattle.std.specs.Prelude.{◌≡◌, ◌<◌, ◌+◌, true, false, length, map, take, IfOk, None};
ghost use Rattle.lhg_math.specs.Tests.{AllOf};
ghost use Rattle.lhg_row.specs.Eliminate as calculus;
ghost use Rattle.lhg_row.specs.Members.{SomeOf};
ghost use Rattle.lhg_row.specs.Piece.{in_piece};
ghost use Rattle.lhg_row.specs.Row.{PlainPoint, holds_at};
ghost use Rattle.lhg_row.specs.Width.{AllWide};
ghost use Rattle.lhg_prune.specs.Chosen.{IsSeatedChoice, IsChosen};
ghost use Rattle.lhg_prune.specs.Pruning.{IsLeft};
ghost use Rattle.lhg_prune.specs.Touch.{strictly};

use crate::directions::push_unwanted;
use crate::forming::{formed, wanted_rows};
use crate::fractions::fractions;
use crate::kinds::{strict_rows, weak_rows};
use crate::seats::{are_seats, fail_somewhere, firm_rows, firsts};
use crate::touching::touch_points;
use lhg_elim::{eliminate_later, pair};
use lhg_num::{Frac, Halt, Scalar, Wide};
use lhg_poly::{Poly, includes, make, project};
use lhg_row::{Point, Row, copy_rows, is_lower, is_upper, trim};
use std::alloc::Global;

/// What is left over the first `keep` variables without the later ones: all rows, or, where the last elimination has more than `few` combinations, those that the piece needs.
/// It halts where these are not found, and where a list or a number is past a limit on this way.
pub(crate) fn left_rows<N: Scalar>(
    alloc: Global,
    vars: usize,
    rows: Vec<Row<N>>,
    keep: usize,
    few: usize,
) -> Result<Vec<Row<N>>, Halt>
    requires keep { keep < vars }
    requires wide { AllWide vars rows.items }
    ensures { IfOk result (λ v. IsLeft N.arithmetic vars keep rows.items v.items) }
{
    let before = eliminate_later(alloc, vars, rows, keep + 1)?;
    let short = is_short(&before, keep, few)?;
    if short {
        return eliminate_later(alloc, keep + 1, before, keep);
    }
    chosen(alloc, keep, keep + 1, &before)
}

// Whether the elimination of the variable is by an equation, or has at most so many combinations.
fn is_short<N: Scalar>(rows: &[Row<N>], k: usize, few: usize) -> Result<bool, Wide>
    requires { AllWide (k + 1) rows.now }
    ensures { IfOk result (λ b. b ≡ false → (calculus.pair_at N.arithmetic k 0 rows.now).value ≡ None) }
{
    let mates = pair(rows, k)?;
    if mates.is_some() {
        return Ok(true);
    }
    Ok(has_few(rows, k, few))
}

// Whether the variable has at most so many combinations of an upper with a lower row.
fn has_few<N: Scalar>(rows: &[Row<N>], k: usize, few: usize) -> bool
    requires { AllWide (k + 1) rows.now }
{
    let mut uppers: usize = 0;
    let mut lowers: usize = 0;
    for row in rows {
        if is_upper(row, k) {
            uppers = uppers.saturating_add(1);
        }
        if is_lower(row, k) {
            lowers = lowers.saturating_add(1);
        }
    }
    uppers.saturating_mul(lowers) <= few
}

// The trim of those rows of the last elimination that have the direction of one that is tight where the piece touches its bounds.
fn chosen<N: Scalar>(
    alloc: Global,
    keep: usize,
    vars: usize,
    before: &[Row<N>],
) -> Result<Vec<Row<N>>, Halt>
    requires vars { vars ≡ keep + 1 }
    requires wide { AllWide vars before.now }
    ensures { IfOk result (λ v. IsChosen N.arithmetic keep before.now v.items) }
{
    let Some(lines) = fractions(alloc, before)? else {
        return Err(Halt::Wide);
    };
    let copies = copy_rows(alloc, &lines)?;
    let Some(whole) = make(alloc, vars, copies)? else {
        return Err(Halt::Rows);
    };
    let Some(left) = project(alloc, whole.system(), keep)? else {
        return Err(Halt::Rows);
    };
    let points = touch_points(alloc, vars, whole.rows(), left.rows())?;
    let rows = chosen_at(alloc, keep, before, &lines, &points)?;
    let within = is_within(alloc, keep, &rows, &left)?;
    if !within {
        return Err(Halt::Rows);
    }
    Ok(rows)
}

// The trim of those rows of the last elimination that have the direction of one without room at one of the points, where each row of it is so.
fn chosen_at<N: Scalar>(
    alloc: Global,
    keep: usize,
    before: &[Row<N>],
    lines: &[Row<Frac>],
    points: &[Point<Frac>],
) -> Result<Vec<Row<N>>, Halt>
    requires wide { AllWide (keep + 1) before.now }
    requires lines { lines.now ≡ before.now }
    requires points { AllOf (λ z. length z ≡ keep + 1) points.now }
    ensures choice { IfOk result (λ v. IsSeatedChoice N.arithmetic keep before.now v.items) }
    ensures wide { IfOk result (λ v. AllWide keep v.items) }
{
    let weak = weak_rows(alloc, lines)?;
    let strict = strict_rows(alloc, lines)?;
    let wanted = wanted_directions(alloc, keep, before, &strict, points)?;
    let seats = are_seats(alloc, keep, before, &weak, &strict, &wanted, points)?;
    if !seats {
        return Err(Halt::Rows);
    }
    let left = wanted_rows(alloc, keep, before, keep, &wanted)?;
    let system = trim(alloc, keep, left)?;
    let rows = system.into_rows();
    let tight = are_tight(alloc, keep, &rows, points)?;
    if !tight {
        return Err(Halt::Rows);
    }
    Ok(rows)
}

// Directions of what is made of the rows without room at each of the points.
fn wanted_directions<N: Scalar>(
    alloc: Global,
    keep: usize,
    before: &[Row<N>],
    strict: &[Row<Frac>],
    points: &[Point<Frac>],
) -> Result<Vec<Row<N>>, Halt>
    requires wide { AllWide (keep + 1) before.now }
    requires strict { strict.now ≡ map strictly before.now }
    requires points { AllOf (λ z. length z ≡ keep + 1) points.now }
    ensures { IfOk result (λ v. AllWide keep v.items) }
{
    let mut wanted = Vec::new(alloc);
    for point in points {
        push_directions(alloc, keep, before, strict, point, &mut wanted)?;
    }
    Ok(wanted)
}

// Puts those of one point at the end.
fn push_directions<N: Scalar>(
    alloc: Global,
    keep: usize,
    before: &[Row<N>],
    strict: &[Row<Frac>],
    point: &Point<Frac>,
    wanted: &mut Vec<Row<N>>,
) -> Result<(), Halt>
    requires wide { AllWide (keep + 1) before.now }
    requires strict { strict.now ≡ map strictly before.now }
    requires point { length point.now ≡ keep + 1 }
    requires wanted { AllWide keep wanted.old.items }
    ensures { IfOk result (λ _. AllWide keep wanted.new.items) }
{
    let firm = firm_rows(alloc, before, strict, point)?;
    let made = formed(alloc, keep, &firm, keep)?;
    push_unwanted(wanted, keep, made)
}

// Whether each of the rows, which are over `keep` variables, has no room at the first coordinates of some of the points.
fn are_tight<N: Scalar>(
    alloc: Global,
    keep: usize,
    rows: &[Row<N>],
    points: &[Point<Frac>],
) -> Result<bool, Halt>
    requires rows { AllWide keep rows.now }
    requires points { AllOf (λ z. length z ≡ keep + 1) points.now }
    ensures { IfOk result (λ b. b ≡ true → AllOf (λ r. SomeOf (λ z. holds_at (strictly r) (take keep z) ≡ false) points.now) rows.now) }
{
    let Some(lines) = fractions(alloc, rows)? else {
        return Ok(false);
    };
    let strict = strict_rows(alloc, &lines)?;
    let firsts = firsts(alloc, keep, points)?;
    let tight = fail_somewhere(&strict, &firsts)?;
    Ok(tight)
}

// Whether all points of the rows, which are over `keep` variables, are points of the piece.
fn is_within<N: Scalar>(
    alloc: Global,
    keep: usize,
    rows: &[Row<N>],
    piece: &Poly<Frac>,
) -> Result<bool, Halt>
    requires rows { AllWide keep rows.now }
    requires piece { piece.now.width ≡ keep }
    ensures { IfOk result (λ b. b ≡ true → (x : PlainPoint) → length x ≡ keep → in_piece rows.now x ≡ true → in_piece piece.now.lines x ≡ true) }
{
    let Some(lines) = fractions(alloc, rows)? else {
        return Ok(false);
    };
    match make(alloc, keep, lines)? {
        Some(chosen) => includes(alloc, piece, &chosen),
        None => Ok(false),
    }
}
