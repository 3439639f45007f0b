// Trimmed lists of rows.
ghost use Rattle.std.specs.Prelude.{◌≡◌};
ghost use Rattle.lhg_num.specs.Marked.{done};
ghost use Rattle.lhg_num.specs.Halting.{IsHaltedByMemory};
ghost use Rattle.lhg_row.specs.System.{PlainSystem, IsSystem};

use crate::copies::copy_rows;
use crate::rows::Row;
use lhg_num::{Halt, Scalar};
use std::alloc::Global;
use std::marker::Model;

/// A number of variables and a trimmed list of rows, each with that many coefficients: the value of the calculus's `trim` of the list is the
/// list. So it is `0 < 0` alone, or its rows are scaled, each has a variable, and no two have one direction.
#[derive(Drop)]
pub struct System<N: Scalar> {
    vars: usize,
    rows: Vec<Row<N>>,
}

impl<N: Scalar> Model for System<N> {
    ghost use Rattle.lhg_row.specs.System.{PlainSystem, system_code, IsSystem};

    ghost Value = { PlainSystem };

    ghost coded = { system_code };

    ghost view = { λ s. record { width = s.vars; lines = s.rows.items } };

    ghost invariant = { λ s. IsSystem N.arithmetic s.vars s.rows.items };
}

impl<N: Scalar> System<N> {
    /// The number of variables.
    pub fn vars(&self) -> usize
        ensures { result ≡ self.now.width }
    {
        self.vars
    }

    /// The rows, in order.
    pub fn rows(&self) -> &[Row<N>]
        ensures rows { result.now ≡ self.now.lines }
        ensures trimmed { IsSystem N.arithmetic self.now.width self.now.lines }
    {
        &self.rows
    }

    /// A copy. It halts for `Memory` alone.
    pub fn copy(&self, alloc: Global) -> Result<System<N>, Halt>
        ensures copy { IsHaltedByMemory result (done self.now) (λ s. s) }
        ensures trimmed { IsSystem N.arithmetic self.now.width self.now.lines }
    {
        let rows = copy_rows(alloc, &self.rows)?;
        Ok(System {
            vars: self.vars,
            rows,
        })
    }

    /// The rows by value.
    pub fn into_rows(self) -> Vec<Row<N>>
        ensures rows { result.items ≡ self.lines }
        ensures trimmed { IsSystem N.arithmetic self.width self.lines }
    {
        let System { vars: _, rows } = self;
        rows
    }

    /// The system of a trimmed list, each row of which has `vars` coefficients.
    pub fn of(vars: usize, rows: Vec<Row<N>>) -> System<N>
        requires { IsSystem N.arithmetic vars rows.items }
        ensures { result ≡ record { width = vars; lines = rows.items } }
    {
        System { vars, rows }
    }
}
