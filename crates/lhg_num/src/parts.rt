// Arithmetic on numerators and denominators.
ghost use Rattle.std.specs.Prelude.{◌≡◌, ℕ, ◌^◌, ◌<◌, ℤ, pos, ◌+ℤ◌, ◌*ℤ◌, ◌<ℤ◌, ◌&&◌, unsigned_abs};
ghost use Rattle.std.specs.Int.RustNames.{int_div};
ghost use Rattle.std.specs.Ordering.{int_eq};
ghost use Rattle.lhg_math.specs.Gcd as spec;
ghost use Rattle.lhg_math.specs.Number.{flip_sign};
ghost use Rattle.lhg_num.specs.Limits.{formed};
ghost use Rattle.lhg_num.specs.Parts.{product_parts, both_of, sides_of, total_parts, reduced_parts, crossed_parts, lowest_parts};

use crate::divisors::gcd;

// The greatest common divisor of a numerator and a denominator.
fn common(n: i128, d: i128) -> i128
    requires { pos 0 <ℤ d }
    ensures value { result ≡ pos (spec.gcd (unsigned_abs n) (unsigned_abs d)) }
    ensures above { pos 0 <ℤ result }
{
    gcd(n.unsigned_abs(), d.unsigned_abs()) as i128
}

// The product, where its size is at most 2^127 - 1.
fn times(a: i128, b: i128) -> Option<i128>
    ensures { result ≡ formed (a *ℤ b) }
{
    if b == 1 && a != i128::MIN {
        return Some(a);
    }
    match a.checked_mul(b) {
        Some(product) if product != i128::MIN => Some(product),
        _ => None,
    }
}

// The sum, where its size is at most 2^127 - 1.
fn plus(a: i128, b: i128) -> Option<i128>
    ensures { result ≡ formed (a +ℤ b) }
{
    match a.checked_add(b) {
        Some(sum) if sum != i128::MIN => Some(sum),
        _ => None,
    }
}

// The quotient by a divisor.
fn part(a: i128, g: i128) -> i128
    requires { pos 0 <ℤ g }
    ensures { result ≡ int_div a g }
{
    if g == 1 { a } else { a / g }
}

// Both numbers, where both were formed.
fn both(top: Option<i128>, bottom: Option<i128>) -> Option<(i128, i128)>
    ensures { result ≡ both_of top bottom }
{
    match (top, bottom) {
        (Some(t), Some(b)) => Some((t, b)),
        _ => None,
    }
}

// The numerator and the denominator of the product of a / b and c / d.
pub(crate) fn product(a: i128, b: i128, c: i128, d: i128) -> Option<(i128, i128)>
    requires left { pos 0 <ℤ b }
    requires right { pos 0 <ℤ d }
    ensures { result ≡ product_parts a b c d }
{
    let g = common(a, d);
    let h = common(c, b);
    let top = times(part(a, g), part(c, h));
    let bottom = times(part(b, h), part(d, g));
    both(top, bottom)
}

// The numerators of a / b and c / d over their least common denominator, where g is the denominators' divisor.
fn sides(a: i128, b: i128, c: i128, d: i128, g: i128) -> Option<(i128, i128)>
    requires { pos 0 <ℤ g }
    ensures { result ≡ sides_of a b c d g }
{
    both(times(a, part(d, g)), times(c, part(b, g)))
}

// The numerator and the denominator of the sum of a / b and c / d.
pub(crate) fn total(a: i128, b: i128, c: i128, d: i128) -> Option<(i128, i128)>
    requires left { pos 0 <ℤ b }
    requires right { pos 0 <ℤ d }
    ensures { result ≡ total_parts a b c d }
{
    let g = common(b, d);
    match sides(a, b, c, d, g) {
        Some((p, q)) => reduced(p, q, b, d, g),
        None => None,
    }
}

// The parts of p + q over the least common denominator of b and d, where g is their divisor.
fn reduced(p: i128, q: i128, b: i128, d: i128, g: i128) -> Option<(i128, i128)>
    requires { pos 0 <ℤ g }
    ensures { result ≡ reduced_parts p q b d g }
{
    match plus(p, q) {
        Some(sum) => {
            let h = common(sum, g);
            both(Some(part(sum, h)), times(part(b, g), part(d, h)))
        }
        None => None,
    }
}

// The two sides of the comparison of a / b and c / d.
pub(crate) fn crossed(a: i128, b: i128, c: i128, d: i128) -> Option<(i128, i128)>
    requires left { pos 0 <ℤ b }
    requires right { pos 0 <ℤ d }
    ensures { result ≡ crossed_parts a b c d }
{
    sides(a, b, c, d, common(b, d))
}

// The parts of n / d with the sign moved to the numerator.
pub(crate) fn upright(n: i128, d: i128) -> (i128, i128)
    requires top { unsigned_abs n < 2 ^ 127 }
    requires bottom { unsigned_abs d < 2 ^ 127 }
    ensures { result ≡ (flip_sign d n, pos (unsigned_abs d)) }
{
    if d < 0 { (-n, -d) } else { (n, d) }
}

// The parts of n / d in lowest terms.
pub(crate) fn lowest(n: i128, d: i128) -> (i128, i128)
    requires some { 0 < unsigned_abs d }
    requires top { unsigned_abs n < 2 ^ 127 }
    requires bottom { unsigned_abs d < 2 ^ 127 }
    ensures { result ≡ lowest_parts n d }
{
    let (top, bottom) = upright(n, d);
    let g = common(top, bottom);
    (part(top, g), part(bottom, g))
}

// Whether the two fractions have the same parts.
pub(crate) fn same(a: i128, b: i128, c: i128, d: i128) -> bool
    ensures { result ≡ (int_eq a c && int_eq b d) }
{
    a == c && b == d
}
