// Tables of whole numbers.
ghost use Rattle.std.specs.Prelude.{◌≡◌, ◌<◌, ◌≤◌, ◌+◌, ◌*◌, vec_len, length, IfOk, IfSome};
ghost use Rattle.lhg_simplex.specs.Hint.{HaltsForMemory};

use crate::whole::{Entry, common, cross, negative, reduce};
use lhg_num::Halt;
use std::alloc::Global;

/// Rows of entries, one behind the other.
#[derive(Drop)]
pub(crate) struct Table<W: Entry> {
    cells: Vec<W>,
    tall: usize,
    wide: usize,
    ghost full: { vec_len cells ≡ tall * wide },
}

impl<W: Entry> Table<W> {
    /// A table of zeros, where it has at most 2^64 - 1 places.
    pub(crate) fn new(alloc: Global, tall: usize, wide: usize) -> Result<Option<Table<W>>, Halt>
        ensures memory { HaltsForMemory result }
        ensures tall { IfOk result (λ o. IfSome o (λ t. t.tall ≡ tall)) }
        ensures wide { IfOk result (λ o. IfSome o (λ t. t.wide ≡ wide)) }
    {
        let Some(count) = tall.checked_mul(wide) else {
            return Ok(None);
        };
        let cells = Vec::from_elem(alloc, W::zero(), count)?;
        Ok(Some(Table { cells, tall, wide }))
    }

    /// Row i.
    pub(crate) fn row(&self, i: usize) -> &[W]
        requires { i < self.now.tall }
        ensures { length result.now ≡ self.now.wide }
    {
        let from = i * self.wide;
        &self.cells[from..from + self.wide]
    }

    /// Sets an entry of row i.
    pub(crate) fn put(&mut self, i: usize, j: usize, x: W)
        requires row_in { i < self.old.tall }
        requires col_in { j < self.old.wide }
        ensures tall { self.new.tall ≡ self.old.tall }
        ensures wide { self.new.wide ≡ self.old.wide }
    {
        self.cells[i * self.wide + j] = x;
    }

    /// Makes all entries 0.
    pub(crate) fn clear(&mut self)
        ensures tall { self.new.tall ≡ self.old.tall }
        ensures wide { self.new.wide ≡ self.old.wide }
    {
        clear(&mut self.cells)
    }

    /// Turns row i, whose last entry is 0 or -1, into the one that says the opposite. It is none where a number grows too large.
    pub(crate) fn oppose(&mut self, i: usize) -> Option<()>
        requires { i < self.old.tall }
        ensures tall { self.new.tall ≡ self.old.tall }
        ensures wide { self.new.wide ≡ self.old.wide }
    {
        let from = i * self.wide;
        oppose(&mut self.cells[from..from + self.wide])
    }

    /// Takes the name at column c out of each row, by the row that is solved for it. It is none where a number grows too large.
    pub(crate) fn take_out(&mut self, c: usize, turned: &[W]) -> Option<()>
        requires col_in { c + 1 < self.old.wide }
        requires room { length turned.now ≡ self.old.wide }
        ensures tall { self.new.tall ≡ self.old.tall }
        ensures wide { self.new.wide ≡ self.old.wide }
    {
        let wide = self.wide;
        for i in 0..self.tall {
            let start = i * wide;
            combine(&mut self.cells[start..start + wide], turned, c)?;
        }
        Some(())
    }
}

/// Solves the row for the name at column c in place of its own.
pub(crate) fn turn<W: Entry>(row: &mut [W], c: usize) -> Option<()>
    requires { c + 1 < length row.old }
    ensures { length row.new ≡ length row.old }
{
    let last = row.len() - 1;
    let factor = row[last];
    let p = row[c];
    row[c] = factor;
    row[last] = p;
    if p.is_negative() {
        for j in 0..row.len() {
            row[j] = negative(row[j])?;
        }
    }
    Some(())
}

// Makes all numbers 0.
fn clear<W: Entry>(xs: &mut [W])
    ensures { length xs.new ≡ length xs.old }
{
    for i in 0..xs.len() {
        xs[i] = W::zero();
    }
}

// The row that says the opposite.
fn oppose<W: Entry>(row: &mut [W]) -> Option<()>
    ensures { length row.new ≡ length row.old }
{
    for j in 0..row.len() {
        row[j] = negative(row[j])?;
    }
    if let Some(last) = row.len().checked_sub(1) {
        row[last] = row[last].less(W::one())?;
    }
    Some(())
}

// The row without the name at column c, by the row that was solved for it.
fn combine<W: Entry>(row: &mut [W], turned: &[W], c: usize) -> Option<()>
    requires there { c + 1 < length row.old }
    requires same { length turned.now ≡ length row.old }
    ensures { length row.new ≡ length row.old }
{
    let last = row.len() - 1;
    let f = row[c];
    if f.size() == 0 {
        return Some(());
    }
    let p = turned[last];
    let g = common(p, f)?;
    let p = p.over(g);
    let f = f.over(g);
    row[c] = W::zero();
    for j in 0..last {
        row[j] = cross(row[j], p, f, turned[j])?;
    }
    row[last] = row[last].times(p)?;
    let factor = row[last];
    reduce(row, factor)
}
