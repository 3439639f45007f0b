// What the entries of a row have in common, and rows divided by it.
ghost use Rattle.std.specs.Prelude.{◌≡◌, ◌<◌, ◌^◌, pos, ◌<ℤ◌, map};
ghost use Rattle.std.specs.Int.RustNames.{int_div};
ghost use Rattle.lhg_math.specs.Number.{whole};
ghost use Rattle.lhg_whole.specs.Content as spec;

use crate::whole::Whole;
use lhg_num::gcd;

/// The greatest common divisor of the entries, and 0 where all are 0.
pub fn content(row: &[Whole]) -> Whole
    ensures { result ≡ pos (spec.content (map whole row.now)) }
{
    Whole::of_size(common(row))
}

// The same as a number of the machine.
fn common(row: &[Whole]) -> u128
    ensures value { result ≡ spec.content (map whole row.now) }
    ensures small { result < 2 ^ 127 }
{
    let mut g = 0;
    let mut i = row.len();
    while i > 0 {
        i -= 1;
        g = gcd(row[i].value().unsigned_abs(), g);
    }
    g
}

// Divides each entry by the content, where that is not 0.
pub(crate) fn scale_row(row: &mut [Whole])
    ensures { map whole row.new ≡ spec.canon_whole (map whole row.old) }
{
    let g = common(row);
    if g > 1 {
        divide(row, g as i128);
    }
}

// Divides each entry.
fn divide(row: &mut [Whole], g: i128)
    requires { pos 0 <ℤ g }
    ensures { row.new ≡ map (λ z. int_div z g) row.old }
{
    for i in 0..row.len() {
        row[i] = row[i].over(g);
    }
}
