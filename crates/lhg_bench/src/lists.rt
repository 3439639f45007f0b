// Lists of rows over three variables, of any length.
ghost use Rattle.std.specs.Prelude.{◌≡◌, IfOk, length};
ghost use Rattle.lhg_row.specs.Width.{AllWide};

use lhg_num::{Frac, Halt};
use lhg_row::{Kind, Row, System, trim, whole_row};
use std::alloc::Global;

// (n*n + 1)*x + n*y + z <= n where n is even, and the same with -z where it is odd.
fn row(alloc: Global, n: u8) -> Result<Row<Frac>, Halt>
    ensures { IfOk result (λ r. length r.coefs ≡ 3) }
{
    let i = i64::from(n);
    let side = if n % 2 == 0 { 1 } else { -1 };
    whole_row(alloc, &[i * i + 1, i, side], Kind::Weak, i)
}

/// A list in which half of the rows bound the last variable from above and half from below, in turn. Nearly all combinations
/// of two such rows have directions of their own.
pub fn fan(alloc: Global, count: u8) -> Result<System<Frac>, Halt>
    ensures { IfOk result (λ s. s.width ≡ 3) }
{
    let mut rows = Vec::with_capacity(alloc, count as usize)?;
    for n in 0..count {
        rows.push(row(alloc, n)?)?;
    }
    trim(alloc, 3, rows)
}
