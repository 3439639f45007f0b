// The greatest common divisor, by Euclid's steps.
ghost use Rattle.std.specs.Prelude.{◌≡◌};
ghost use Rattle.lhg_math.specs.Gcd as spec;

const WORD: u128 = u64::MAX as u128;

/// The greatest common divisor of two numbers, which is the first where the second is 0.
pub fn gcd(a: u128, b: u128) -> u128
    ensures { result ≡ spec.gcd a b }
{
    let mut x = a;
    let mut y = b;
    while y > 1 {
        if x <= WORD && y <= WORD {
            return gcd_of_words(x as u64, y as u64) as u128;
        }
        let rest = x % y;
        x = y;
        y = rest;
    }
    if y == 1 { 1 } else { x }
}

// The same of numbers of 64 bits, which are faster to divide.
fn gcd_of_words(a: u64, b: u64) -> u64
    ensures { result ≡ spec.gcd a b }
{
    let mut x = a;
    let mut y = b;
    while y > 1 {
        let rest = x % y;
        x = y;
        y = rest;
    }
    if y == 1 { 1 } else { x }
}
