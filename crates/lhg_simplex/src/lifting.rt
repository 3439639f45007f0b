// Rows of numbers as rows of a table.
ghost use Rattle.std.specs.Prelude.{◌≡◌, ◌<◌, ◌+◌, length};

use crate::tableau::Table;
use crate::whole::{Entry, multiple};
use lhg_num::{Frac, Scalar};
use lhg_row::Row;

/// Puts the row, times the least common multiple of its denominators, into row i of the table: the coefficients, the bound, and the small
/// part, which is -1 for a strict row. It gives the multiple, and none where a number is no fraction or grows too large.
pub(crate) fn lift<N: Scalar, W: Entry>(table: &mut Table<W>, i: usize, row: &Row<N>) -> Option<W>
    requires there { i < table.old.tall }
    requires wide { length row.now.coefs + 2 ≡ table.old.wide }
    ensures tall { table.new.tall ≡ table.old.tall }
    ensures wide { table.new.wide ≡ table.old.wide }
{
    let m = denominators(row)?;
    let last = row.coefs.len();
    for j in 0..last {
        table.put(i, j, lifted(&row.coefs[j], m)?);
    }
    table.put(i, last, lifted(&row.bound, m)?);
    table.put(
        i,
        last + 1,
        W::of_wide(if row.kind.is_strict() { -1 } else { 0 })?,
    );
    W::of_wide(m)
}

// The least common multiple of the denominators of a row.
fn denominators<N: Scalar>(row: &Row<N>) -> Option<i128> {
    let mut m = 1;
    for x in &row.coefs {
        m = multiple(m, fraction(x)?.denom())?;
    }
    multiple(m, fraction(&row.bound)?.denom())
}

// The number times a multiple of its denominator.
fn lifted<N: Scalar, W: Entry>(x: &N, m: i128) -> Option<W> {
    let q = fraction(x)?;
    if m == 1 {
        return W::of_wide(q.numer());
    }
    W::of_wide(q.numer().checked_mul(m.over(q.denom()))?)
}

// The number as a fraction.
fn fraction<N: Scalar>(x: &N) -> Option<Frac> {
    x.to_frac()
}
