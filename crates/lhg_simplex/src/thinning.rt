// Which rows of a list follow from the others, asked of one row after the other.
//
// The rows are asked from the last to the first, and each that follows is left out. One search serves all questions: a row is lifted once, and the
// rows that decided earlier questions are looked at first. To ask of a row, the search puts its opposite in its place.
ghost use Rattle.std.specs.Prelude.{◌≡◌, ◌<◌, true, length, vec_len, IfOk, OnOk};
ghost use Rattle.lhg_row.specs.Piece.{in_piece};
ghost use Rattle.lhg_row.specs.Width.{AllWide};
ghost use Rattle.lhg_simplex.specs.Hint.{HaltsForMemory};
ghost use Rattle.lhg_simplex.specs.Verdict.{IsAnswer};
ghost use Rattle.lhg_simplex.specs.Others.{others, AreFrom};

use crate::confirming::refuted;
use crate::hints::{Hint, Part};
use crate::reading::{parts, point};
use crate::solving::{End, Search};
use lhg_num::{Halt, Scalar, Wide};
use lhg_row::{Point, Row, all_hold, copy_row, holds, negate};
use std::alloc::Global;

/// What is remembered between two questions.
#[derive(Drop)]
pub struct Thinning {
    search: Option<Search<i64>>,
    /// The rows that were asked for and kept, from the last to the first.
    kept: Vec<usize>,
}

/// What a search tells of one row.
#[derive(Drop)]
enum Clue<N: Scalar> {
    /// The others may hold here, and the row not.
    Point(Point<N>),
    /// The sum of these rows, of which the one that is asked for stands for its opposite, may be false everywhere.
    Sum(Vec<Part<N>>),
    /// Nothing.
    Nothing,
}

impl Thinning {
    /// Nothing was asked of so many rows.
    pub fn new(alloc: Global, vars: usize, rows: usize) -> Result<Thinning, Halt>
        ensures { HaltsForMemory result }
    {
        Ok(Thinning {
            search: Search::new(alloc, vars, rows)?,
            kept: Vec::new(alloc),
        })
    }

    /// Whether the other rows entail row i, where a confirmed guess tells. The guess supposes that each row behind it was asked for, and kept. It halts for `Memory` alone.
    pub fn entailed<N: Scalar>(
        &mut self,
        alloc: Global,
        vars: usize,
        rows: &[Row<N>],
        i: usize,
    ) -> Result<Option<bool>, Halt>
        requires wide { AllWide vars rows.now }
        requires there { i < length rows.now }
        ensures memory { HaltsForMemory result }
        ensures points { IfOk result (IsAnswer vars (others rows.now i)) }
    {
        let clue = self.clue(alloc, vars, rows, i)?;
        match clue {
            Clue::Point(point) => {
                if point.at.len() == vars {
                    Ok(shown_outside(vars, rows, i, &point))
                } else {
                    Ok(None)
                }
            }
            Clue::Sum(parts) => follows_by(alloc, vars, rows, i, &self.kept, &parts),
            Clue::Nothing => Ok(None),
        }
    }

    /// Row i, the last that was asked for, is kept. It halts for `Memory` alone.
    pub fn keep(&mut self, i: usize) -> Result<(), Halt>
        ensures { HaltsForMemory result }
    {
        self.kept.push(i)?;
        Ok(())
    }

    /// Row i, the last that was asked for, is left out.
    pub fn leave(&mut self, i: usize) {
        if let Some(search) = &mut self.search {
            search.order.leave(i);
        }
    }

    // What the search tells of row i.
    fn clue<N: Scalar>(
        &mut self,
        alloc: Global,
        vars: usize,
        rows: &[Row<N>],
        i: usize,
    ) -> Result<Clue<N>, Halt>
        requires { AllWide vars rows.now }
        ensures { HaltsForMemory result }
    {
        let Some(search) = &mut self.search else {
            return Ok(Clue::Nothing);
        };
        if search.beside.len() != vars {
            return Ok(Clue::Nothing);
        }
        let end = opposed(search, rows, i);
        let clue = read(alloc, search, end)?;
        if restored(search, i).is_none() {
            self.search = None;
        }
        Ok(clue)
    }
}

// Looks for a point of the other rows at which row i fails.
fn opposed<N: Scalar>(search: &mut Search<i64>, rows: &[Row<N>], i: usize) -> Option<End>
    requires { AllWide (vec_len search.old.beside) rows.now }
{
    search.look_at(i, rows)?;
    search.order.bring(i);
    search.lines.oppose(i)?;
    search.run(rows)
}

// Puts row i in the place of its opposite.
fn restored(search: &mut Search<i64>, i: usize) -> Option<()> {
    if i >= search.multiples.len() {
        return None;
    }
    search.lines.oppose(i)?;
    if search.has_beside(i) {
        search.restart()?;
    }
    Some(())
}

// What the end of a search tells.
fn read<N: Scalar>(
    alloc: Global,
    search: &mut Search<i64>,
    end: Option<End>,
) -> Result<Clue<N>, Halt>
    ensures { HaltsForMemory result }
{
    match end {
        Some(End::Point) => match point(alloc, search)? {
            Hint::Point(point) => Ok(Clue::Point(point)),
            _ => Ok(Clue::Nothing),
        },
        Some(End::Refuted(k)) => match parts(alloc, search, k)? {
            Some(parts) => Ok(Clue::Sum(parts)),
            None => Ok(Clue::Nothing),
        },
        _ => Ok(Clue::Nothing),
    }
}

// That the others do not entail row i, where they hold at this point and it does not.
fn shown_outside<N: Scalar>(
    vars: usize,
    rows: &[Row<N>],
    i: usize,
    point: &Point<N>,
) -> Option<bool>
    requires wide { AllWide vars rows.now }
    requires there { i < length rows.now }
    requires same { length point.now ≡ vars }
    ensures { IsAnswer vars (others rows.now i) result }
{
    match is_outside(rows, i, point) {
        Ok(true) => Some(false),
        _ => None,
    }
}

// Whether the other rows hold at the point and row i does not.
fn is_outside<N: Scalar>(rows: &[Row<N>], i: usize, point: &Point<N>) -> Result<bool, Wide>
    requires wide { AllWide (length point.now) rows.now }
    requires there { i < length rows.now }
    ensures { IfOk result (λ b. b ≡ true → in_piece (others rows.now i) point.now ≡ true) }
{
    let held = holds(&rows[i], point)?;
    if held {
        return Ok(false);
    }
    let before = all_hold(&rows[..i], point)?;
    if !before {
        return Ok(false);
    }
    all_hold(&rows[i + 1..], point)
}

// That the others entail row i, where the sum of these rows is false everywhere.
fn follows_by<N: Scalar>(
    alloc: Global,
    vars: usize,
    rows: &[Row<N>],
    i: usize,
    kept: &[usize],
    parts: &[Part<N>],
) -> Result<Option<bool>, Halt>
    requires wide { AllWide vars rows.now }
    requires there { i < length rows.now }
    ensures memory { HaltsForMemory result }
    ensures points { IfOk result (IsAnswer vars (others rows.now i)) }
{
    let few = picked(alloc, vars, rows, i, kept, parts)?;
    let ms = multipliers(alloc, parts)?;
    match refuted(vars, &few, &ms) {
        Some(true) => Ok(Some(true)),
        _ => Ok(None),
    }
}

// The multipliers.
fn multipliers<N: Scalar>(alloc: Global, parts: &[Part<N>]) -> Result<Vec<N>, Halt>
    ensures { HaltsForMemory result }
{
    let mut out = Vec::with_capacity(alloc, parts.len())?;
    for part in parts {
        out.push(part.by)?;
    }
    Ok(out)
}

// Copies of the rows of the sum.
fn picked<N: Scalar>(
    alloc: Global,
    vars: usize,
    rows: &[Row<N>],
    i: usize,
    kept: &[usize],
    parts: &[Part<N>],
) -> Result<Vec<Row<N>>, Halt>
    requires wide { AllWide vars rows.now }
    requires there { i < length rows.now }
    ensures memory { HaltsForMemory result }
    ensures rows { IfOk result (λ v. AreFrom vars (others rows.now i) v.items) }
{
    let mut out = Vec::with_capacity(alloc, parts.len())?;
    for part in parts {
        push_row(alloc, &mut out, vars, rows, i, place_of(part.row, i, kept))?;
    }
    Ok(out)
}

// The place at which a row stands now.
fn place_of(row: usize, i: usize, kept: &[usize]) -> usize {
    if row <= i {
        return row;
    }
    for m in 0..kept.len() {
        if kept[m] == row {
            return i.saturating_add(kept.len() - m);
        }
    }
    row
}

// Puts a copy of the row at a place, where there is one, or of the opposite of row i.
fn push_row<N: Scalar>(
    alloc: Global,
    out: &mut Vec<Row<N>>,
    vars: usize,
    rows: &[Row<N>],
    i: usize,
    place: usize,
) -> Result<(), Halt>
    requires wide { AllWide vars rows.now }
    requires there { i < length rows.now }
    requires from { AreFrom vars (others rows.now i) out.old.items }
    ensures memory { HaltsForMemory result }
    ensures rows { OnOk result (AreFrom vars (others rows.now i) out.new.items) }
{
    if place == i {
        let opposite = negate(alloc, &rows[i])?;
        out.push(opposite)?;
    } else if place < rows.len() {
        let copy = copy_row(alloc, &rows[place])?;
        out.push(copy)?;
    }
    Ok(())
}
