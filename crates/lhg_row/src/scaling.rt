// Sizes, and rows compared after each was multiplied by the size of the other's leading coefficient.
ghost use Rattle.std.specs.Prelude.{◌≡◌, ◌||◌, length, map};
ghost use Rattle.lhg_math.specs.Signs as signs;
ghost use Rattle.lhg_num.specs.Marked.{marked_mul};
ghost use Rattle.lhg_num.specs.Halting.{IsWideBy};
ghost use Rattle.lhg_row.specs.Kinds as plain;
ghost use Rattle.lhg_row.specs.Senses.{seen_as};
ghost use Rattle.lhg_row.specs.Trim as calculus;

use crate::rows::{Kind, Row};
use lhg_num::{Scalar, Wide};
use std::cmp::Ordering;

/// Whether numbers are compared as they are, or with the negatives of others.
#[derive(Clone, Copy, Debug, PartialEq, Eq)]
pub enum Sense {
    /// As they are.
    Same,
    /// With the negatives.
    Opposite,
}

/// The number without its sign.
pub fn size<N: Scalar>(x: &N) -> N
    ensures { N.meaning result ≡ signs.size_of (N.meaning x.now) }
{
    match x.sign() {
        Ordering::Less => x.neg(),
        Ordering::Equal => *x,
        Ordering::Greater => *x,
    }
}

/// The first number that is not 0, and 0 where there is none.
pub(crate) fn lead<N: Scalar>(coefs: &[N]) -> N
    ensures { N.meaning result ≡ signs.lead (map N.meaning coefs.now) }
{
    for coef in coefs {
        if !coef.is_zero() {
            return *coef;
        }
    }
    N::zero()
}

/// The size of the first coefficient that is not 0.
pub fn lead_size<N: Scalar>(row: &Row<N>) -> N
    ensures { N.meaning result ≡ calculus.lead_size row.now }
{
    size(&lead(&row.coefs))
}

/// Strict where either kind is.
pub fn stricter(a: Kind, b: Kind) -> Kind
    ensures { plain.is_strict result ≡ (plain.is_strict a || plain.is_strict b) }
{
    match a {
        Kind::Strict => Kind::Strict,
        Kind::Weak => b,
    }
}

/// The product f * x, which is x where f is 1. It answers `Wide` only where the type refuses the product.
pub fn times<N: Scalar>(f: &N, x: &N) -> Result<N, Wide>
    ensures { IsWideBy result (marked_mul N.arithmetic (N.meaning f.now) (N.meaning x.now)) N.meaning }
{
    if *f == N::one() {
        return Ok(*x);
    }
    f.mul(x)
}

/// Whether f * c is g * d in this sense. It answers `Wide` only where the type refuses one of the products.
pub fn agree_at<N: Scalar>(sense: Sense, f: &N, g: &N, c: &N, d: &N) -> Result<bool, Wide>
    ensures { IsWideBy result (calculus.agree_at N.arithmetic (seen_as sense) (N.meaning f.now) (N.meaning g.now) (N.meaning c.now) (N.meaning d.now)) (λ b. b) }
{
    let x = times(f, c)?;
    let y = times(g, d)?;
    Ok(x == turned(sense, y))
}

/// Whether f * c is g * d in this sense for each two entries of the lists. It answers `Wide` only where the type refuses one
/// of the products.
pub fn agree<N: Scalar>(sense: Sense, f: &N, g: &N, cs: &[N], ds: &[N]) -> Result<bool, Wide>
    requires { length cs.now ≡ length ds.now }
    ensures { IsWideBy result (calculus.agree N.arithmetic (seen_as sense) (N.meaning f.now) (N.meaning g.now) (map N.meaning cs.now) (map N.meaning ds.now)) (λ b. b) }
{
    for i in 0..cs.len() {
        let same = agree_at(sense, f, g, &cs[i], &ds[i])?;
        if !same {
            return Ok(false);
        }
    }
    Ok(true)
}

// The number as this sense compares with it.
fn turned<N: Scalar>(sense: Sense, y: N) -> N
    ensures { N.meaning result ≡ seen_as sense (N.meaning y) }
{
    match sense {
        Sense::Same => y,
        Sense::Opposite => y.neg(),
    }
}
