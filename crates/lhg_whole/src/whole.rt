// A whole number.
ghost use Rattle.std.specs.Prelude.{◌≡◌, ◌<◌, ◌^◌, pos, ◌<ℤ◌};
ghost use Rattle.std.specs.Int.RustNames.{int_div, unsigned_abs};
ghost use Rattle.lhg_num.specs.Limits.{IsExact, is_past};

use crate::contents::scale_row;
use crate::numbers::{plus, same, times};
use lhg_num::{Frac, Scalar, Wide};
use std::cmp::Ordering;
use std::marker::Model;

/// A whole number of at most 2^127 - 1 in size.
#[derive(Clone, Copy, Debug)]
pub struct Whole {
    value: i128,
}

impl Model for Whole {
    ghost use Rattle.std.specs.Prelude.{ℤ};
    ghost use Rattle.std.specs.Coded.{coded_ℤ};

    ghost Value = { ℤ };

    ghost coded = { coded_ℤ };

    ghost use Rattle.lhg_whole.specs.WholeModel.{IsWithin, field_of, field_back};

    ghost view = { λ f. f.value };

    ghost invariant = { λ f. IsWithin f.value };

    ghost inverse = { field_of };

    ghost inverse_ok = { field_back };
}

impl PartialEq for Whole {
    ghost use Rattle.std.specs.Cmp.{partial_equiv_from_equiv};
    ghost use Rattle.lhg_whole.specs.Values.{same_value, same_value_equivalence};

    ghost eq = { same_value };

    ghost laws = { partial_equiv_from_equiv same_value_equivalence };

    fn eq(&self, other: &Whole) -> bool {
        same(self.value, other.value)
    }
}

impl Eq for Whole {
    ghost use Rattle.lhg_whole.specs.Values.{same_value_equivalence};

    ghost laws = { same_value_equivalence };
}

impl Whole {
    /// The number. It is `Wide` exactly where it is -2^127.
    pub fn new(n: i128) -> Result<Whole, Wide>
        ensures { IsExact result (is_past n) (λ q. q ≡ n) }
    {
        if n == i128::MIN {
            return Err(Wide);
        }
        Ok(Whole { value: n })
    }

    // The number of this size.
    pub(crate) fn of_size(size: u128) -> Whole
        requires { size < 2 ^ 127 }
        ensures { result ≡ pos size }
    {
        Whole {
            value: size as i128,
        }
    }

    // The number divided by a positive one.
    pub(crate) fn over(&self, g: i128) -> Whole
        requires { pos 0 <ℤ g }
        ensures { result ≡ int_div self.now g }
    {
        Whole {
            value: self.value / g,
        }
    }

    /// The number as a number of the machine.
    pub fn value(&self) -> i128
        ensures value { result ≡ self.now }
        ensures small { unsigned_abs result < 2 ^ 127 }
    {
        self.value
    }
}

impl Scalar for Whole {
    ghost use Rattle.std.specs.Prelude.{◌≡◌, true, refl, Some, IfSome, is_some};
    ghost use Rattle.lhg_math.specs.Number.{whole};
    ghost use Rattle.lhg_whole.specs.Content.{is_whole};
    ghost use Rattle.lhg_whole.specs.ContentLaws.{whole-is_whole};
    ghost use Rattle.lhg_whole.specs.WholeArithmetic.{whole_arithmetic, whole_is_lawful};

    ghost meaning = { whole };

    ghost arithmetic = { whole_arithmetic };

    ghost lawful = { whole_is_lawful };

    ghost held = { whole-is_whole };

    ghost equality = { λ x y. refl };

    fn zero() -> Whole {
        Whole { value: 0 }
    }

    fn one() -> Whole {
        Whole { value: 1 }
    }

    fn add(&self, other: &Whole) -> Result<Whole, Wide> {
        match plus(self.value, other.value) {
            Some(value) => Ok(Whole { value }),
            None => Err(Wide),
        }
    }

    fn sub(&self, other: &Whole) -> Result<Whole, Wide> {
        self.add(&other.neg())
    }

    fn mul(&self, other: &Whole) -> Result<Whole, Wide> {
        match times(self.value, other.value) {
            Some(value) => Ok(Whole { value }),
            None => Err(Wide),
        }
    }

    fn neg(&self) -> Whole {
        Whole { value: -self.value }
    }

    fn is_zero(&self) -> bool {
        self.sign().is_eq()
    }

    fn sign(&self) -> Ordering {
        self.value.cmp(&0)
    }

    fn cmp(&self, other: &Whole) -> Result<Ordering, Wide> {
        Ok(self.value.cmp(&other.value))
    }

    fn to_frac(&self) -> Option<Frac>
        ensures { result ≡ Some (whole self.now) }
    {
        match Frac::new(self.value, 1) {
            Ok(fraction) => Some(fraction),
            Err(_) => None,
        }
    }

    fn of_frac(value: &Frac) -> Option<Whole>
        ensures value { IfSome result (λ x. whole x ≡ value.now) }
        ensures exact { is_some result ≡ is_whole value.now }
    {
        if value.denom() == 1 {
            Some(Whole {
                value: value.numer(),
            })
        } else {
            None
        }
    }

    fn canon(row: &mut [Whole]) -> Result<(), Wide> {
        scale_row(row);
        Ok(())
    }
}
