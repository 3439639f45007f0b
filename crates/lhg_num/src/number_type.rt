// What every number type offers.
ghost use Rattle.std.specs.Prelude.{◌≡◌, true, List, map, OnErr, IfSome};
ghost use Rattle.lhg_math.specs.Number.{Number, add, sub, mul, neg, nought, unit, compare, sign_of};
ghost use Rattle.lhg_math.specs.Signs.{is_nought, same_number};
ghost use Rattle.lhg_num.specs.Arithmetic.{Arithmetic, IsLawful};
ghost use Rattle.lhg_num.specs.Limits.{IsExact};

use crate::fraction::Frac;
use crate::refusals::Wide;
use std::cmp::Ordering;

/// A type of exact numbers. An operation answers `Wide` exactly on the operands that the type refuses.
/// `==` compares values, and is never refused.
pub trait Scalar: Copy + PartialEq {
    ghost meaning: { Self → Number };

    ghost arithmetic: { Arithmetic };

    /// The number 0.
    fn zero() -> Self
        ensures { meaning result ≡ nought };

    /// The number 1.
    fn one() -> Self
        ensures { meaning result ≡ unit };

    /// The sum.
    fn add(&self, other: &Self) -> Result<Self, Wide>
        ensures { IsExact result (arithmetic.refuses_add (meaning self.now) (meaning other.now)) (λ r. meaning r ≡ add (meaning self.now) (meaning other.now)) };

    /// The difference.
    fn sub(&self, other: &Self) -> Result<Self, Wide>
        ensures { IsExact result (arithmetic.refuses_sub (meaning self.now) (meaning other.now)) (λ r. meaning r ≡ sub (meaning self.now) (meaning other.now)) };

    /// The product.
    fn mul(&self, other: &Self) -> Result<Self, Wide>
        ensures { IsExact result (arithmetic.refuses_mul (meaning self.now) (meaning other.now)) (λ r. meaning r ≡ mul (meaning self.now) (meaning other.now)) };

    /// The number with the other sign.
    fn neg(&self) -> Self
        ensures { meaning result ≡ neg (meaning self.now) };

    /// Whether the number is 0.
    fn is_zero(&self) -> bool
        ensures { result ≡ is_nought (meaning self.now) };

    /// The order of the number against 0.
    fn sign(&self) -> Ordering
        ensures { result ≡ sign_of (meaning self.now) };

    /// The order of the two numbers.
    fn cmp(&self, other: &Self) -> Result<Ordering, Wide>
        ensures { IsExact result (arithmetic.refuses_cmp (meaning self.now) (meaning other.now)) (λ r. r ≡ compare (meaning self.now) (meaning other.now)) };

    /// The number as a fraction, where there is one of 128 bits.
    fn to_frac(&self) -> Option<Frac>
        ensures { IfSome result (λ q. q ≡ meaning self.now) };

    /// The number that a fraction is, where the type has it.
    fn of_frac(value: &Frac) -> Option<Self>
        ensures { IfSome result (λ x. meaning x ≡ value.now) };

    /// Makes a row the positive multiple of itself that stands for all its positive multiples.
    /// A row that is refused stays as it is.
    fn canon(row: &mut [Self]) -> Result<(), Wide>
        ensures exact { IsExact result (arithmetic.refuses_canon (map meaning row.old)) (λ _. map meaning row.new ≡ arithmetic.canon_of (map meaning row.old)) }
        ensures err { OnErr result (row.new ≡ row.old) };

    ghost lawful: { IsLawful arithmetic };

    ghost held: { (x : Self) → arithmetic.holds (meaning x) ≡ true };

    ghost equality: { (x y : Self) → Self.eq x y ≡ same_number (meaning x) (meaning y) };
}
