// What a search that has ended tells.
ghost use Rattle.std.specs.Prelude.{◌≡◌, ◌<◌, ◌+◌, vec_len, length};
ghost use Rattle.lhg_simplex.specs.Hint.{HaltsForMemory};

use crate::hints::{Hint, Part};
use crate::solving::Search;
use crate::whole::{Entry, common, cross, negative};
use lhg_num::{Frac, Halt, Scalar};
use lhg_row::Point;
use std::alloc::Global;

/// The multipliers of the rows whose sum is row i, written over the names beside.
pub(crate) fn refutation<N: Scalar, W: Entry>(
    alloc: Global,
    search: &Search<W>,
    i: usize,
) -> Result<Hint<N>, Halt>
    ensures { HaltsForMemory result }
{
    let Some(parts) = parts(alloc, search, i)? else {
        return Ok(Hint::Undecided);
    };
    let mut out = Vec::from_elem(alloc, N::zero(), search.multiples.len())?;
    for part in &parts {
        if part.row < out.len() {
            out[part.row] = part.by;
        }
    }
    Ok(Hint::Multipliers(out))
}

/// The rows whose sum is row i, written over the names beside. It is none where a number is no number of the rows.
pub(crate) fn parts<N: Scalar, W: Entry>(
    alloc: Global,
    search: &Search<W>,
    i: usize,
) -> Result<Option<Vec<Part<N>>>, Halt>
    ensures { HaltsForMemory result }
{
    let vars = search.beside.len();
    let Some(own) = part(search, vars.saturating_add(i), search.turned[vars + 2]) else {
        return Ok(None);
    };
    let mut out = Vec::with_capacity(alloc, vars + 1)?;
    out.push(own)?;
    for c in 0..vars {
        if search.turned[c].size() != 0 {
            match part(search, search.beside[c], search.turned[c]) {
                Some(next) => out.push(next)?,
                None => return Ok(None),
            }
        }
    }
    Ok(Some(out))
}

// The row whose slack has this name, with its multiplier.
fn part<N: Scalar, W: Entry>(search: &Search<W>, name: usize, x: W) -> Option<Part<N>> {
    let row = name.checked_sub(search.beside.len())?;
    let multiple = search.multiples.get(row)?;
    let by = number(x.wide().checked_mul(multiple.wide())?, 1)?;
    Some(Part { row, by })
}

/// The point at which the names beside are 0, and the small number is as large as the slacks allow, but at most 1.
pub(crate) fn point<N: Scalar, W: Entry>(
    alloc: Global,
    search: &mut Search<W>,
) -> Result<Hint<N>, Halt>
    ensures { HaltsForMemory result }
{
    let Some((p, q)) = small(search) else {
        return Ok(Hint::Undecided);
    };
    let vars = search.beside.len();
    let mut at = Vec::with_capacity(alloc, vars)?;
    for k in 0..vars {
        let row = search.table.row(k);
        match coordinate(row[vars], row[vars + 1], row[vars + 2], p, q) {
            Some(x) => at.push(x)?,
            None => return Ok(Hint::Undecided),
        }
    }
    Ok(Hint::Point(Point { at }))
}

// The small number as a fraction. It is 1 where no value has a part, since the slack of a strict row is positive then.
fn small<W: Entry>(search: &mut Search<W>) -> Option<(W, W)> {
    let mut p = W::one();
    let mut q = W::one();
    if !has_part(search) {
        return Some((p, q));
    }
    for t in 0..search.order.len() {
        let i = search.order.at(t)?;
        if i >= search.multiples.len() {
            return None;
        }
        let (slack, part) = search.slack_of(i)?;
        if part.is_negative() {
            let step = negative(part)?;
            if cross(slack, q, p, step)?.is_negative() {
                let g = common(slack, step)?;
                p = slack.over(g);
                q = step.over(g);
            }
        }
    }
    Some((p, q))
}

// Whether the value of some variable has a part.
fn has_part<W: Entry>(search: &Search<W>) -> bool {
    let vars = search.beside.len();
    for k in 0..vars {
        if search.table.row(k)[vars + 1].size() != 0 {
            return true;
        }
    }
    false
}

// The value of a variable with its part.
fn coordinate<N: Scalar, W: Entry>(value: W, part: W, scale: W, p: W, q: W) -> Option<N> {
    if part.size() == 0 {
        return number(value.wide(), scale.wide());
    }
    let top = cross(value, q, negative(part)?, p)?;
    number(top.wide(), scale.times(q)?.wide())
}

// The quotient as a number of the rows.
fn number<N: Scalar>(top: i128, bottom: i128) -> Option<N> {
    N::of_frac(&Frac::new(top, bottom).ok()?)
}
