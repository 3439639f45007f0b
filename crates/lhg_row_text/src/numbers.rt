// Prints numbers.
ghost use Rattle.std.specs.Prelude.{◌≡◌, ◌≤◌, ◌++◌, OnOk, false};
ghost use Rattle.lhg_math.specs.Number.{lt, nought};
ghost use Rattle.lhg_lex.specs.Literal.{limit};
ghost use Rattle.lhg_row_text.specs.RowText.{denominator_text, number_text, size_text};
ghost use Rattle.lhg_row_text.specs.Short.{IsShort};

use itoa::Buffer;
use lhg_num::{Frac, Scalar};
use std::alloc::AllocError;
use std::cmp::Ordering;

/// Whether the number is below 0.
pub(crate) fn is_negative(x: &Frac) -> bool
    ensures { result ≡ lt x.now nought }
{
    x.sign() == Ordering::Less
}

fn push_denominator(text: &mut Vec<u8>, x: &Frac) -> Result<(), AllocError>
    ensures text { OnOk result (text.new.items ≡ text.old.items ++ denominator_text x.now) }
    ensures short { OnOk result (x.now.bottom ≤ limit) }
{
    if x.denom() == 1 {
        return Ok(());
    }
    let mut buffer = Buffer::new();
    text.extend_from_slice(b"/")?;
    text.extend_from_slice(buffer.format(x.denom()).as_bytes())?;
    Ok(())
}

/// Appends a number that has no sign.
pub(crate) fn push_size(text: &mut Vec<u8>, x: &Frac) -> Result<(), AllocError>
    requires { lt x.now nought ≡ false }
    ensures text { OnOk result (text.new.items ≡ text.old.items ++ size_text x.now) }
    ensures short { OnOk result (IsShort x.now) }
{
    let mut buffer = Buffer::new();
    text.extend_from_slice(buffer.format(x.numer().unsigned_abs()).as_bytes())?;
    push_denominator(text, x)
}

/// Appends a number, as a whole number or a fraction.
pub fn push_number(text: &mut Vec<u8>, x: &Frac) -> Result<(), AllocError>
    ensures text { OnOk result (text.new.items ≡ text.old.items ++ number_text x.now) }
    ensures short { OnOk result (IsShort x.now) }
{
    if is_negative(x) {
        text.extend_from_slice(b"-")?;
        return push_size(text, &x.neg());
    }
    push_size(text, x)
}
