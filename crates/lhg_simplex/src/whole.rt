// The whole numbers of a table. They may grow past the size of their type: then there is no answer.
ghost use Rattle.std.specs.Prelude.{◌≡◌, length};

use lhg_num::gcd;

/// A type of whole numbers. What it does not hold is none.
pub(crate) trait Entry: Copy {
    /// The number 0.
    fn zero() -> Self;

    /// The number 1.
    fn one() -> Self;

    /// The number of this type that a number is.
    fn of_wide(x: i128) -> Option<Self>;

    /// The number in 128 bits.
    fn wide(self) -> i128;

    /// The number without its sign.
    fn size(self) -> u128;

    /// Whether the number is below 0.
    fn is_negative(self) -> bool;

    /// The product.
    fn times(self, other: Self) -> Option<Self>;

    /// The difference.
    fn less(self, other: Self) -> Option<Self>;

    /// The number without a common divisor above 1, which is exact.
    fn over(self, g: Self) -> Self;
}

impl Entry for i64 {
    fn zero() -> i64 {
        0
    }

    fn one() -> i64 {
        1
    }

    fn of_wide(x: i128) -> Option<i64> {
        i64::try_from(x).ok()
    }

    fn wide(self) -> i128 {
        self as i128
    }

    fn size(self) -> u128 {
        self.unsigned_abs() as u128
    }

    fn is_negative(self) -> bool {
        self < 0
    }

    fn times(self, other: i64) -> Option<i64> {
        self.checked_mul(other)
    }

    fn less(self, other: i64) -> Option<i64> {
        self.checked_sub(other)
    }

    fn over(self, g: i64) -> i64 {
        if g > 1 { self / g } else { self }
    }
}

impl Entry for i128 {
    fn zero() -> i128 {
        0
    }

    fn one() -> i128 {
        1
    }

    fn of_wide(x: i128) -> Option<i128> {
        Some(x)
    }

    fn wide(self) -> i128 {
        self
    }

    fn size(self) -> u128 {
        self.unsigned_abs()
    }

    fn is_negative(self) -> bool {
        self < 0
    }

    fn times(self, other: i128) -> Option<i128> {
        self.checked_mul(other)
    }

    fn less(self, other: i128) -> Option<i128> {
        self.checked_sub(other)
    }

    fn over(self, g: i128) -> i128 {
        if g > 1 { self / g } else { self }
    }
}

/// The number with the other sign.
pub(crate) fn negative<W: Entry>(a: W) -> Option<W> {
    W::zero().less(a)
}

/// The greatest common divisor.
pub(crate) fn common<W: Entry>(a: W, b: W) -> Option<W> {
    of_size(gcd(a.size(), b.size()))
}

/// The least common multiple of two positive numbers.
pub(crate) fn multiple<W: Entry>(a: W, d: W) -> Option<W> {
    if d.size() == 1 {
        return Some(a);
    }
    let g = common(a, d)?;
    a.times(d.over(g))
}

/// a * p - f * b
pub(crate) fn cross<W: Entry>(a: W, p: W, f: W, b: W) -> Option<W> {
    let left = a.times(p)?;
    let right = f.times(b)?;
    left.less(right)
}

/// Divides the numbers by what they have in common with this one of them, which is looked at first.
pub(crate) fn reduce<W: Entry>(row: &mut [W], last: W) -> Option<()>
    ensures { length row.new ≡ length row.old }
{
    let mut g = last.size();
    for x in &*row {
        if g == 1 {
            return Some(());
        }
        g = gcd(g, x.size());
    }
    let g = of_size::<W>(g)?;
    for j in 0..row.len() {
        row[j] = row[j].over(g);
    }
    Some(())
}

// The number of this size that is not negative.
fn of_size<W: Entry>(g: u128) -> Option<W> {
    W::of_wide(i128::try_from(g).ok()?)
}
