// A row of fractions is scaled by one factor, or refused before any entry changes.
ghost use Rattle.std.specs.Prelude.{◌≡◌, false, not, cond, map, OnErr};
ghost use Rattle.lhg_math.specs.Number.{mul};
ghost use Rattle.lhg_math.specs.Signs.{is_nought, size_of, lead};
ghost use Rattle.lhg_math.specs.Tests.{any_of};
ghost use Rattle.lhg_num.specs.Limits.{IsExact, frac_refuses_mul};

use crate::fraction::Frac;
use crate::number_type::Scalar;
use crate::refusals::Wide;

// The size of the first entry that is not 0. The rule of a type cannot call code over every type, since that code may call the rule.
pub(crate) fn leading_size(row: &[Frac]) -> Option<Frac>
    ensures { result ≡ cond (is_nought (lead row.now)) None (Some (size_of (lead row.now))) }
{
    for entry in row {
        if !entry.is_zero() {
            return Some(entry.size());
        }
    }
    None
}

// Multiplies each entry by the factor.
pub(crate) fn scale(row: &mut [Frac], factor: &Frac) -> Result<(), Wide>
    ensures exact { IsExact result (any_of (λ x. frac_refuses_mul x factor.now) row.old) (λ _. row.new ≡ map (λ x. mul x factor.now) row.old) }
    ensures err { OnErr result (row.new ≡ row.old) }
{
    if is_refused(row, factor) {
        return Err(Wide);
    }
    for i in 0..row.len() {
        row[i] = product_of(&row[i], factor);
    }
    Ok(())
}

// Whether the product of some entry by the factor is refused.
fn is_refused(row: &[Frac], factor: &Frac) -> bool
    ensures { result ≡ any_of (λ x. frac_refuses_mul x factor.now) row.now }
{
    for entry in row {
        if entry.mul(factor).is_err() {
            return true;
        }
    }
    false
}

// The product, where it is not refused.
fn product_of(entry: &Frac, factor: &Frac) -> Frac
    requires { frac_refuses_mul entry.now factor.now ≡ false }
    ensures { result ≡ mul entry.now factor.now }
{
    entry.mul(factor).unwrap()
}
