// How a row of fractions becomes a row of whole numbers, and the way back.
ghost use Prim.Native.Nat.{◌∣◌};
ghost use Rattle.std.specs.Prelude.{◌≡◌, ◌<◌, ◌^◌, pos, ◌<ℤ◌, false, cond, length, map, IfOk, unsigned_abs};
ghost use Rattle.lhg_math.specs.Number.{unit, whole, mul, quot};
ghost use Rattle.lhg_math.specs.Signs.{is_nought, lead, size_of};
ghost use Rattle.lhg_num.specs.Arithmetic.{IsMultiple};
ghost use Rattle.lhg_num.specs.FracCanon.{canon_frac};
ghost use Rattle.lhg_num.specs.Halting.{IsHaltedByMemory};
ghost use Rattle.lhg_num.specs.Limits.{IsExact, is_past};
ghost use Rattle.lhg_num.specs.Marked.{done};
ghost use Rattle.lhg_whole.specs.Content.{canon_whole};
ghost use Rattle.lhg_whole.specs.Lifting as spec;
ghost use Rattle.lhg_whole.specs.Lifting.{IsCoprime, IsExactOrMemory, common_multiple, passes_from, passes_times, lift_refuses, lifted};

use crate::contents::scale_row;
use crate::numbers::times;
use crate::whole::Whole;
use lhg_num::{Frac, Halt, Scalar, Wide, gcd};
use std::alloc::Global;

const LIMIT: u128 = i128::MAX as u128;

/// The positive multiple of the row whose entries are whole and coprime. A row of zeros stays. It is `Wide` exactly where a
/// running least common multiple of the denominators, or an entry times the last of them, is past the limit.
pub fn lift(alloc: Global, row: &[Frac]) -> Result<Vec<Whole>, Halt>
    ensures exact { IsExactOrMemory result (lift_refuses row.now) (λ v. map whole v.items ≡ lifted row.now) }
    ensures multiple { IfOk result (λ v. IsMultiple row.now (map whole v.items)) }
    ensures coprime { IfOk result (λ v. IsCoprime (map whole v.items)) }
    ensures length { IfOk result (λ v. length v.items ≡ length row.now) }
{
    let factor = denominators(row)?;
    let out = multiplied(alloc, row, factor)?;
    Ok(scaled(out))
}

/// The row as fractions, scaled by the rule of fractions. It halts for `Memory` alone.
pub fn lower(alloc: Global, row: &[Whole]) -> Result<Vec<Frac>, Halt>
    ensures value { IsHaltedByMemory result (done (canon_frac (map whole row.now))) (λ v. v.items) }
    ensures multiple { IfOk result (λ v. IsMultiple (map whole row.now) v.items) }
    ensures length { IfOk result (λ v. length v.items ≡ length row.now) }
{
    let size = leading_size(row);
    let mut out = Vec::with_capacity(alloc, row.len())?;
    for entry in row {
        out.push(ratio(entry, &size))?;
    }
    Ok(out)
}

// The least common multiple of the denominators.
fn denominators(row: &[Frac]) -> Result<u128, Wide>
    ensures exact { IsExact result (passes_from 1 row.now) (λ m. m ≡ common_multiple row.now) }
    ensures small { IfOk result (λ m. m < 2 ^ 127) }
{
    let mut m = 1;
    for entry in row {
        m = lcm(m, entry.denom().unsigned_abs())?;
    }
    Ok(m)
}

// The least common multiple, where it is within the limit.
fn lcm(a: u128, b: u128) -> Result<u128, Wide>
    requires { 0 < b }
    ensures { IsExact result (is_past (pos (spec.lcm a b))) (λ m. m ≡ spec.lcm a b) }
{
    match (a / gcd(a, b)).checked_mul(b) {
        Some(m) if m <= LIMIT => Ok(m),
        _ => Err(Wide),
    }
}

// Each entry times a common multiple of the denominators.
fn multiplied(alloc: Global, row: &[Frac], factor: u128) -> Result<Vec<Whole>, Halt>
    requires common { factor ≡ common_multiple row.now }
    requires small { factor < 2 ^ 127 }
    ensures { IsExactOrMemory result (passes_times factor row.now) (λ v. map whole v.items ≡ map (λ x. mul (whole (pos factor)) x) row.now) }
{
    let mut out = Vec::with_capacity(alloc, row.len())?;
    for entry in row {
        out.push(multiple(entry, factor)?)?;
    }
    Ok(out)
}

// The row divided by its content.
fn scaled(mut row: Vec<Whole>) -> Vec<Whole>
    ensures { map whole result.items ≡ canon_whole (map whole row.items) }
{
    scale_row(&mut row);
    row
}

// The number times a multiple of its denominator.
fn multiple(entry: &Frac, factor: u128) -> Result<Whole, Wide>
    requires common { entry.now.bottom ∣ factor }
    requires small { factor < 2 ^ 127 }
    ensures { IsExact result (is_past (mul (whole (pos factor)) entry.now).top) (λ z. whole z ≡ mul (whole (pos factor)) entry.now) }
{
    let part = factor / entry.denom().unsigned_abs();
    match times(entry.numer(), part as i128) {
        Some(n) => Whole::new(n),
        None => Err(Wide),
    }
}

// The size of the first entry that is not 0, and 1 where there is none.
fn leading_size(row: &[Whole]) -> Whole
    ensures value { whole result ≡ cond (is_nought (lead (map whole row.now))) unit (size_of (lead (map whole row.now))) }
    ensures above { pos 0 <ℤ result }
{
    for entry in row {
        if !entry.is_zero() {
            return Whole::of_size(entry.value().unsigned_abs());
        }
    }
    Whole::of_size(1)
}

// The quotient by a positive number.
fn ratio(entry: &Whole, size: &Whole) -> Frac
    requires { pos 0 <ℤ size.now }
    ensures { result ≡ quot (whole entry.now) (whole size.now) }
{
    Frac::new(entry.value(), size.value()).unwrap()
}
