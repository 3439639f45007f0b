// In which order rows are looked at.
ghost use Rattle.std.specs.Prelude.{◌≡◌, ◌<◌, vec_len, IfOk, IfSome};
ghost use Rattle.lhg_simplex.specs.Hint.{HaltsForMemory};

use lhg_num::Halt;
use std::alloc::Global;

/// The rows that count: so many that were negative once, and then the others.
#[derive(Drop)]
pub(crate) struct Order {
    rows: Vec<usize>,
    front: usize,
}

impl Order {
    /// So many rows, from the first to the last.
    pub(crate) fn new(alloc: Global, count: usize) -> Result<Order, Halt>
        ensures { HaltsForMemory result }
    {
        Ok(Order {
            rows: names(alloc, count)?,
            front: 0,
        })
    }

    /// How many rows count.
    pub(crate) fn len(&self) -> usize {
        self.rows.len()
    }

    /// The row at a place, where there is one.
    pub(crate) fn at(&self, t: usize) -> Option<usize> {
        if t < self.rows.len() {
            Some(self.rows[t])
        } else {
            None
        }
    }

    /// Puts the row at a place among those that were negative once.
    pub(crate) fn forward(&mut self, t: usize) {
        if t >= self.front && t < self.rows.len() {
            self.rows.swap(t, self.front);
            self.front += 1;
        }
    }

    /// Puts row i among those that were negative once.
    pub(crate) fn bring(&mut self, i: usize) {
        if let Some(t) = self.place_of(i) {
            self.forward(t);
        }
    }

    /// Lets row i count no more.
    pub(crate) fn leave(&mut self, i: usize) {
        let Some(t) = self.place_of(i) else {
            return;
        };
        if t >= self.front || self.front > self.rows.len() {
            self.rows.swap_remove(t);
            return;
        }
        self.front -= 1;
        self.rows.swap(t, self.front);
        self.rows.swap_remove(self.front);
    }

    // The place of row i.
    fn place_of(&self, i: usize) -> Option<usize>
        ensures { IfSome result (λ t. t < vec_len self.now.rows) }
    {
        for t in 0..self.rows.len() {
            if self.rows[t] == i {
                return Some(t);
            }
        }
        None
    }
}

/// The first names.
pub(crate) fn names(alloc: Global, count: usize) -> Result<Vec<usize>, Halt>
    ensures memory { HaltsForMemory result }
    ensures many { IfOk result (λ v. vec_len v ≡ count) }
{
    let mut out = Vec::with_capacity(alloc, count)?;
    for i in 0..count {
        out.push(i)?;
    }
    Ok(out)
}
