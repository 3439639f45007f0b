// The search for a point of rows, or for a row that the others refute.
//
// Each row has a slack, which is not negative: the sum of its products and its slack is its bound plus its part of a small number,
// which is positive and smaller than all others. A table has a row for each variable: the sum of its entries times the names beside, and its factor times the
// variable, is its bound plus its part. The factor is positive, and a row of its own keeps it. The names beside are variables at first,
// each equal to itself, and then slacks. They are 0. The first row whose slack is negative then is written over these names, and a name with which it
// grows goes out for its slack. Where there is none, this row cannot hold.
// The values of the variables have one denominator where this fits; else each row is written over the names beside to see its slack.
ghost use Rattle.std.specs.Prelude.{◌≡◌, ◌<◌, ◌≤◌, ◌+◌, vec_len, length, IfOk, IfSome};
ghost use Rattle.lhg_row.specs.Width.{AllWide};
ghost use Rattle.lhg_simplex.specs.Hint.{HaltsForMemory};

use crate::lifting::lift;
use crate::orders::{Order, names};
use crate::tableau::{Table, turn};
use crate::whole::{Entry, common, multiple, negative, reduce};
use lhg_num::{Halt, Scalar};
use lhg_row::Row;
use std::alloc::Global;

/// How a search ends.
#[derive(Clone, Copy, Debug, PartialEq, Eq)]
pub(crate) enum End {
    /// No slack is negative.
    Point,
    /// The slack of this row is negative, and no name beside can change that.
    Refuted(usize),
    /// The pivots are too many.
    Many,
}

/// The rows so far, and the variables over the names beside: variable k is k, and the slack of row i is the number of variables and i.
#[derive(Drop)]
pub(crate) struct Search<W: Entry> {
    /// Coefficients, bound and part of each row that was looked at.
    pub(crate) lines: Table<W>,
    /// What each of these rows was multiplied by.
    pub(crate) multiples: Vec<W>,
    /// The rows that count.
    pub(crate) order: Order,
    pub(crate) table: Table<W>,
    pub(crate) beside: Vec<usize>,
    /// The row that was written over the names beside.
    pub(crate) turned: Vec<W>,
    /// The values of the variables, their parts and the positive number by which both are to be divided, where it fits.
    at: Vec<W>,
    parts: Vec<W>,
    scale: W,
    is_placed: bool,
    weights: Vec<W>,
    ghost lines_wide: { lines.wide ≡ vec_len beside + 2 },
    ghost many: { vec_len multiples ≡ lines.tall },
    ghost square: { table.tall ≡ vec_len beside },
    ghost columns: { table.wide ≡ vec_len beside + 3 },
    ghost room: { vec_len turned ≡ vec_len beside + 3 },
    ghost values: { vec_len at ≡ vec_len beside },
    ghost smalls: { vec_len parts ≡ vec_len beside },
    ghost shares: { vec_len weights ≡ vec_len beside },
}

impl<W: Entry> Search<W> {
    /// The search over rows of so many variables.
    pub(crate) fn new(alloc: Global, vars: usize, rows: usize) -> Result<Option<Search<W>>, Halt>
        ensures memory { HaltsForMemory result }
        ensures vars { IfOk result (λ o. IfSome o (λ s. vec_len s.beside ≡ vars)) }
        ensures rows { IfOk result (λ o. IfSome o (λ s. s.lines.tall ≡ rows)) }
    {
        let Some(wide) = vars.checked_add(3) else {
            return Ok(None);
        };
        let Some(lines) = Table::new(alloc, rows, wide - 1)? else {
            return Ok(None);
        };
        let Some(table) = Table::new(alloc, vars, wide)? else {
            return Ok(None);
        };
        let multiples = Vec::from_elem(alloc, W::zero(), rows)?;
        let beside = names(alloc, vars)?;
        let turned = Vec::from_elem(alloc, W::zero(), wide)?;
        let at = Vec::from_elem(alloc, W::zero(), vars)?;
        let parts = Vec::from_elem(alloc, W::zero(), vars)?;
        let weights = Vec::from_elem(alloc, W::zero(), vars)?;
        let order = Order::new(alloc, rows)?;
        let mut search = Search {
            lines,
            multiples,
            order,
            table,
            beside,
            turned,
            at,
            parts,
            scale: W::one(),
            is_placed: false,
            weights,
        };
        if search.restart().is_none() {
            return Ok(None);
        }
        Ok(Some(search))
    }

    /// Puts the variables beside.
    pub(crate) fn restart(&mut self) -> Option<()>
        ensures vars { vec_len self.new.beside ≡ vec_len self.old.beside }
        ensures rows { self.new.lines.tall ≡ self.old.lines.tall }
    {
        let minus = negative(W::one())?;
        self.table.clear();
        let vars = self.beside.len();
        for k in 0..vars {
            self.beside[k] = k;
            self.table.put(k, k, minus);
            self.table.put(k, vars + 2, W::one());
        }
        Some(())
    }

    /// Looks for an end. It is none where a number grows too large.
    pub(crate) fn run<N: Scalar>(&mut self, rows: &[Row<N>]) -> Option<End>
        requires { AllWide (vec_len self.old.beside) rows.now }
        ensures vars { vec_len self.new.beside ≡ vec_len self.old.beside }
        ensures rows { self.new.lines.tall ≡ self.old.lines.tall }
    {
        for _ in 0..self.budget() {
            self.is_placed = self.place().is_some();
            let Some(i) = self.negative(rows)? else {
                return Some(End::Point);
            };
            self.express(i)?;
            let Some(c) = self.raising() else {
                return Some(End::Refuted(i));
            };
            self.pivot(i, c)?;
        }
        Some(End::Many)
    }

    // The most turns, of which the last one makes no pivot unless there are too many: at least 1, and at most 4 for each row and each variable.
    fn budget(&self) -> usize {
        let names = self.multiples.len().saturating_add(self.beside.len());
        names.saturating_mul(3).saturating_add(1)
    }

    // The values of the variables where the names beside are 0, over one number.
    fn place(&mut self) -> Option<()>
        ensures vars { vec_len self.new.beside ≡ vec_len self.old.beside }
        ensures rows { self.new.lines.tall ≡ self.old.lines.tall }
    {
        self.scale = scale_of_all(&self.table, self.beside.len())?;
        values(&self.table, self.scale, &mut self.at, &mut self.parts)
    }

    // The first row in order whose slack is negative.
    fn negative<N: Scalar>(&mut self, rows: &[Row<N>]) -> Option<Option<usize>>
        requires { AllWide (vec_len self.old.beside) rows.now }
        ensures vars { vec_len self.new.beside ≡ vec_len self.old.beside }
        ensures rows { self.new.lines.tall ≡ self.old.lines.tall }
        ensures there { IfSome result (λ o. IfSome o (λ i. i < self.old.lines.tall)) }
    {
        for t in 0..self.order.len() {
            let i = self.order.at(t)?;
            self.look_at(i, rows)?;
            if self.is_low(i)? {
                self.order.forward(t);
                return Some(Some(i));
            }
        }
        Some(None)
    }

    // Whether the slack of row i is negative.
    fn is_low(&mut self, i: usize) -> Option<bool>
        requires { i < self.old.lines.tall }
        ensures vars { vec_len self.new.beside ≡ vec_len self.old.beside }
        ensures rows { self.new.lines.tall ≡ self.old.lines.tall }
    {
        if self.is_placed {
            let told = is_negative(self.lines.row(i), &self.at, &self.parts, self.scale);
            if told.is_some() {
                return told;
            }
        }
        self.express(i)?;
        Some(is_below(&self.turned, self.beside.len()))
    }

    /// The slack of row i and its part, both times one positive number.
    pub(crate) fn slack_of(&mut self, i: usize) -> Option<(W, W)>
        requires { i < self.old.lines.tall }
        ensures vars { vec_len self.new.beside ≡ vec_len self.old.beside }
        ensures rows { self.new.lines.tall ≡ self.old.lines.tall }
    {
        let vars = self.beside.len();
        if self.is_placed {
            let row = self.lines.row(i);
            let slack = rest(row, &self.at, row[vars], self.scale);
            let part = rest(row, &self.parts, row[vars + 1], self.scale);
            if let (Some(slack), Some(part)) = (slack, part) {
                return Some((slack, part));
            }
        }
        self.express(i)?;
        Some((self.turned[vars], self.turned[vars + 1]))
    }

    /// Puts row i of the system into the table, where it is not there.
    pub(crate) fn look_at<N: Scalar>(&mut self, i: usize, rows: &[Row<N>]) -> Option<()>
        requires { AllWide (vec_len self.old.beside) rows.now }
        ensures vars { vec_len self.new.beside ≡ vec_len self.old.beside }
        ensures rows { self.new.lines.tall ≡ self.old.lines.tall }
        ensures there { IfSome result (λ _. i < self.old.lines.tall) }
    {
        if i >= self.multiples.len() {
            return None;
        }
        if self.multiples[i].size() == 0 {
            self.multiples[i] = lift(&mut self.lines, i, rows.get(i)?)?;
        }
        Some(())
    }

    /// Whether the slack of row i is a name beside.
    pub(crate) fn has_beside(&self, i: usize) -> bool {
        let name = self.beside.len().saturating_add(i);
        for other in &self.beside {
            if *other == name {
                return true;
            }
        }
        false
    }

    // Writes row i over the names beside.
    fn express(&mut self, i: usize) -> Option<()>
        requires { i < self.old.lines.tall }
        ensures vars { vec_len self.new.beside ≡ vec_len self.old.beside }
        ensures rows { self.new.lines.tall ≡ self.old.lines.tall }
    {
        let row = self.lines.row(i);
        let scale = scale_of(&self.table, row)?;
        weigh(&self.table, row, scale, &mut self.weights)?;
        write(&self.table, &self.weights, row, scale, &mut self.turned)?;
        reduce(&mut self.turned, scale)
    }

    // The column of the name that goes out.
    fn raising(&self) -> Option<usize>
        ensures { IfSome result (λ c. c < vec_len self.now.beside) }
    {
        match self.variable() {
            Some(c) => Some(c),
            None => self.slack(),
        }
    }

    // The column of a variable, whose entry is the smallest but 0.
    fn variable(&self) -> Option<usize>
        ensures { IfSome result (λ c. c < vec_len self.now.beside) }
    {
        let mut best = None;
        let mut least = 0;
        for c in 0..self.beside.len() {
            let here = self.turned[c].size();
            if here != 0 && self.beside[c] < self.beside.len() && (best.is_none() || here < least) {
                best = Some(c);
                least = here;
            }
        }
        best
    }

    // The column of the first slack with which the row grows.
    fn slack(&self) -> Option<usize>
        ensures { IfSome result (λ c. c < vec_len self.now.beside) }
    {
        let mut best = None;
        let mut name = 0;
        for c in 0..self.beside.len() {
            if self.turned[c].is_negative() && (best.is_none() || self.beside[c] < name) {
                best = Some(c);
                name = self.beside[c];
            }
        }
        best
    }

    // Puts the slack of row i, which was written over the names beside, in the place of the one at column c.
    fn pivot(&mut self, i: usize, c: usize) -> Option<()>
        requires { c < vec_len self.old.beside }
        ensures vars { vec_len self.new.beside ≡ vec_len self.old.beside }
        ensures rows { self.new.lines.tall ≡ self.old.lines.tall }
    {
        turn(&mut self.turned, c)?;
        self.table.take_out(c, &self.turned)?;
        self.beside[c] = self.beside.len().saturating_add(i);
        Some(())
    }
}

// The least common multiple of the factors of all variables.
fn scale_of_all<W: Entry>(table: &Table<W>, vars: usize) -> Option<W>
    requires tall { vars ≡ table.now.tall }
    requires wide { table.now.wide ≡ vars + 3 }
{
    let mut scale = W::one();
    for k in 0..vars {
        scale = multiple(scale, table.row(k)[vars + 2])?;
    }
    Some(scale)
}

// The values and parts of the variables, times a multiple of their factors.
fn values<W: Entry>(table: &Table<W>, scale: W, at: &mut [W], parts: &mut [W]) -> Option<()>
    requires tall { length at.old ≡ table.now.tall }
    requires wide { table.now.wide ≡ length at.old + 3 }
    requires same { length parts.old ≡ length at.old }
    ensures values { length at.new ≡ length at.old }
    ensures smalls { length parts.new ≡ length parts.old }
{
    let vars = at.len();
    for k in 0..vars {
        let row = table.row(k);
        let weight = scale.over(row[vars + 2]);
        at[k] = row[vars].times(weight)?;
        parts[k] = row[vars + 1].times(weight)?;
    }
    Some(())
}

// What the row is multiplied by so that each of its variables has a whole weight.
fn scale_of<W: Entry>(table: &Table<W>, row: &[W]) -> Option<W>
    requires there { length row.now ≡ table.now.tall + 2 }
    requires wide { table.now.wide ≡ length row.now + 1 }
{
    let last = row.len();
    let mut scale = W::one();
    for k in 0..last - 2 {
        let factor = table.row(k)[last];
        scale = multiple(scale, factor.over(common(row[k], factor)?))?;
    }
    Some(scale)
}

// The weight of each variable in the row that is multiplied so.
fn weigh<W: Entry>(table: &Table<W>, row: &[W], scale: W, weights: &mut [W]) -> Option<()>
    requires tall { length weights.old ≡ table.now.tall }
    requires there { length row.now ≡ length weights.old + 2 }
    requires wide { table.now.wide ≡ length row.now + 1 }
    ensures { length weights.new ≡ length weights.old }
{
    for k in 0..weights.len() {
        let factor = table.row(k)[row.len()];
        let shared = common(row[k], factor)?;
        let weight = scale.over(factor.over(shared));
        weights[k] = row[k].over(shared).times(weight)?;
    }
    Some(())
}

// The row over the names beside, by the weights of the variables in it.
fn write<W: Entry>(
    table: &Table<W>,
    weights: &[W],
    row: &[W],
    scale: W,
    out: &mut [W],
) -> Option<()>
    requires tall { length weights.now ≡ table.now.tall }
    requires wide { table.now.wide ≡ length weights.now + 3 }
    requires there { length row.now ≡ length weights.now + 2 }
    requires room { length out.old ≡ length weights.now + 3 }
    ensures { length out.new ≡ length out.old }
{
    let vars = weights.len();
    for c in 0..row.len() {
        let first = if c < vars {
            W::zero()
        } else {
            row[c].times(scale)?
        };
        out[c] = mixed(table, weights, c, first)?;
    }
    out[row.len()] = scale;
    Some(())
}

// Whether the bound of a row over the names beside is negative with its part.
fn is_below<W: Entry>(row: &[W], vars: usize) -> bool
    requires { length row.now ≡ vars + 3 }
{
    let bound = row[vars];
    bound.is_negative() || (bound.size() == 0 && row[vars + 1].is_negative())
}

// Whether the slack of a row is negative at these values and parts.
fn is_negative<W: Entry>(row: &[W], at: &[W], parts: &[W], scale: W) -> Option<bool>
    requires values { length row.now ≡ length at.now + 2 }
    requires smalls { length row.now ≡ length parts.now + 2 }
{
    let vars = at.len();
    let slack = rest(row, at, row[vars], scale)?;
    if slack.size() == 0 {
        let part = rest(row, parts, row[vars + 1], scale)?;
        return Some(part.is_negative());
    }
    Some(slack.is_negative())
}

// The bound without the value of the row.
fn rest<W: Entry>(row: &[W], at: &[W], bound: W, scale: W) -> Option<W>
    requires { length at.now ≤ length row.now }
{
    let mut rest = bound.times(scale)?;
    for k in 0..at.len() {
        rest = rest.less(row[k].times(at[k])?)?;
    }
    Some(rest)
}

// The number without the entries of column c, each times its weight.
fn mixed<W: Entry>(table: &Table<W>, weights: &[W], c: usize, first: W) -> Option<W>
    requires tall { length weights.now ≡ table.now.tall }
    requires there { c < table.now.wide }
{
    let mut rest = first;
    for k in 0..weights.len() {
        rest = rest.less(weights[k].times(table.row(k)[c])?)?;
    }
    Some(rest)
}
