// The systems of crossings: rows over two points and a time.
ghost use Rattle.std.specs.Prelude.{◌≡◌, ◌+◌, ◌<◌, IfOk};
ghost use Rattle.lhg_row.specs.Width.{AllWide};

use lhg_cross::cross_rows;
use lhg_num::{Frac, Halt};
use lhg_poly::Poly;
use lhg_row::{Row, System, trim};
use std::alloc::Global;

/// A straight flow from a point of the first piece through the second to a point of the third, over so many variables. Its rows are over the two points, one
/// after the other, and the time between them.
pub fn system(
    alloc: Global,
    vars: usize,
    from: &Poly<Frac>,
    through: &Poly<Frac>,
    into: &Poly<Frac>,
    flow: &[Row<Frac>],
) -> Result<System<Frac>, Halt>
    requires few { vars < 256 }
    requires from { from.now.width ≡ vars }
    requires through { through.now.width ≡ vars }
    requires into { into.now.width ≡ vars }
    requires flow { AllWide vars flow.now }
    ensures { IfOk result (λ s. s.width ≡ vars + vars + 1) }
{
    let rows = cross_rows(alloc, vars, from.rows(), through.rows(), into.rows(), flow)?;
    trim(alloc, vars + vars + 1, rows)
}
