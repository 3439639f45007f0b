// A fraction in lowest terms.
ghost use Rattle.std.specs.Prelude.{◌≡◌, ◌<◌, ◌^◌, pos, false, ◌||◌, unsigned_abs, Some};
ghost use Rattle.std.specs.Ordering.{int_eq};
ghost use Rattle.lhg_math.specs.Number.{Number, whole, quot, inverse, half, mid};
ghost use Rattle.lhg_math.specs.Signs.{is_nought, size_of};
ghost use Rattle.lhg_num.specs.Dividing.{IsDivided};
ghost use Rattle.lhg_num.specs.Limits.{IsExact, is_past, frac_refuses_div, frac_refuses_mid};

use crate::number_type::Scalar;
use crate::parts::{crossed, lowest, product, same, total, upright};
use crate::refusals::{DivError, Wide};
use crate::scaling::{leading_size, scale};
use std::cmp::Ordering;
use std::marker::Model;

/// A fraction in lowest terms with a positive denominator, both at most 2^127 - 1 in size.
#[derive(Clone, Copy, Debug)]
pub struct Frac {
    numerator: i128,
    denominator: i128,
}

impl Model for Frac {
    ghost use Rattle.lhg_math.specs.Number.{Number};
    ghost use Rattle.lhg_math.specs.NumberCode.{number_code};

    ghost Value = { Number };

    ghost coded = { number_code };

    ghost use Rattle.lhg_num.specs.Stored.{IsStored};
    ghost use Rattle.lhg_num.specs.FracModel.{number_of, fields_of, fields_back};

    ghost view = { number_of };

    ghost invariant = { λ f. IsStored f.numerator f.denominator };

    ghost inverse = { fields_of };

    ghost inverse_ok = { fields_back };
}

impl PartialEq for Frac {
    ghost use Rattle.std.specs.Cmp.{partial_equiv_from_equiv};
    ghost use Rattle.lhg_math.specs.Signs.{same_number};
    ghost use Rattle.lhg_math.specs.SignLaws.{same_number_equivalence};

    ghost eq = { same_number };

    ghost laws = { partial_equiv_from_equiv same_number_equivalence };

    fn eq(&self, other: &Frac) -> bool {
        same(
            self.numerator,
            self.denominator,
            other.numerator,
            other.denominator,
        )
    }
}

impl Eq for Frac {
    ghost use Rattle.lhg_math.specs.SignLaws.{same_number_equivalence};

    ghost laws = { same_number_equivalence };
}

impl From<i64> for Frac {
    ghost use Rattle.std.specs.Prelude.{◌≡◌};
    ghost use Rattle.lhg_math.specs.Number.{whole};

    ghost from_gives = { λ n q. q ≡ whole n };

    fn from(n: i64) -> Frac {
        Frac {
            numerator: n as i128,
            denominator: 1,
        }
    }
}

impl Frac {
    /// The fraction n / d in lowest terms. It is `Zero` where d is 0, and else `Wide` where n or d is -2^127.
    pub fn new(n: i128, d: i128) -> Result<Frac, DivError>
        ensures { IsDivided result (int_eq d (pos 0)) (is_past n || is_past d) (λ q. q ≡ quot (whole n) (whole d)) }
    {
        if d == 0 {
            return Err(DivError::Zero);
        }
        if n == i128::MIN || d == i128::MIN {
            return Err(DivError::Wide);
        }
        let (numerator, denominator) = lowest(n, d);
        Ok(Frac {
            numerator,
            denominator,
        })
    }

    /// The numerator in lowest terms.
    pub fn numer(&self) -> i128
        ensures value { result ≡ self.now.top }
        ensures short { unsigned_abs result < 2 ^ 127 }
    {
        self.numerator
    }

    /// The denominator in lowest terms.
    pub fn denom(&self) -> i128
        ensures value { result ≡ pos self.now.bottom }
        ensures short { unsigned_abs result < 2 ^ 127 }
    {
        self.denominator
    }

    /// The quotient. It is `Zero` exactly where the divisor is 0, and else `Wide` exactly where a number that is formed is past
    /// 2^127 - 1 in size.
    pub fn div(&self, other: &Frac) -> Result<Frac, DivError>
        ensures { IsDivided result (is_nought other.now) (frac_refuses_div self.now other.now) (λ q. q ≡ quot self.now other.now) }
    {
        if other.is_zero() {
            return Err(DivError::Zero);
        }
        Ok(self.mul(&other.inverted())?)
    }

    /// Half of the sum. It is `Wide` exactly where a number that is formed is past 2^127 - 1 in size.
    pub fn mid(&self, other: &Frac) -> Result<Frac, Wide>
        ensures { IsExact result (frac_refuses_mid self.now other.now) (λ q. q ≡ mid self.now other.now) }
    {
        let sum = self.add(other)?;
        sum.mul(&Frac::half())
    }

    // The number without its sign.
    pub(crate) fn size(&self) -> Frac
        ensures { result ≡ size_of self.now }
    {
        match self.sign() {
            Ordering::Less => self.neg(),
            _ => *self,
        }
    }

    // The fraction 1 / 2.
    fn half() -> Frac
        ensures { result ≡ half }
    {
        Frac {
            numerator: 1,
            denominator: 2,
        }
    }

    // 1 over a number that is not 0.
    fn inverted(&self) -> Frac
        requires { is_nought self.now ≡ false }
        ensures { result ≡ inverse self.now }
    {
        let (numerator, denominator) = upright(self.denominator, self.numerator);
        Frac {
            numerator,
            denominator,
        }
    }
}

impl Scalar for Frac {
    ghost use Rattle.std.specs.Prelude.{true, refl};
    ghost use Rattle.lhg_num.specs.FracArithmetic.{frac_arithmetic, frac_is_lawful};

    ghost meaning = { λ q. q };

    ghost arithmetic = { frac_arithmetic };

    ghost lawful = { frac_is_lawful };

    ghost held = { λ x. refl };

    ghost equality = { λ x y. refl };

    fn zero() -> Frac {
        Frac::from(0)
    }

    fn one() -> Frac {
        Frac::from(1)
    }

    fn add(&self, other: &Frac) -> Result<Frac, Wide> {
        match total(
            self.numerator,
            self.denominator,
            other.numerator,
            other.denominator,
        ) {
            Some((numerator, denominator)) => Ok(Frac {
                numerator,
                denominator,
            }),
            None => Err(Wide),
        }
    }

    fn sub(&self, other: &Frac) -> Result<Frac, Wide> {
        self.add(&other.neg())
    }

    fn mul(&self, other: &Frac) -> Result<Frac, Wide> {
        match product(
            self.numerator,
            self.denominator,
            other.numerator,
            other.denominator,
        ) {
            Some((numerator, denominator)) => Ok(Frac {
                numerator,
                denominator,
            }),
            None => Err(Wide),
        }
    }

    fn neg(&self) -> Frac {
        Frac {
            numerator: -self.numerator,
            denominator: self.denominator,
        }
    }

    fn is_zero(&self) -> bool {
        self.sign().is_eq()
    }

    fn sign(&self) -> Ordering {
        self.numerator.cmp(&0)
    }

    fn cmp(&self, other: &Frac) -> Result<Ordering, Wide> {
        match crossed(
            self.numerator,
            self.denominator,
            other.numerator,
            other.denominator,
        ) {
            Some((p, q)) => Ok(p.cmp(&q)),
            None => Err(Wide),
        }
    }

    fn to_frac(&self) -> Option<Frac>
        ensures { result ≡ Some self.now }
    {
        Some(*self)
    }

    fn of_frac(value: &Frac) -> Option<Frac>
        ensures { result ≡ Some value.now }
    {
        Some(*value)
    }

    fn canon(row: &mut [Frac]) -> Result<(), Wide> {
        match leading_size(row) {
            Some(size) => scale(row, &size.inverted()),
            None => Ok(()),
        }
    }
}
