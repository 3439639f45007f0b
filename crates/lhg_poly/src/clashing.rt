// Whether two rows tell that two pieces have no common point.
ghost use Rattle.std.specs.Prelude.{◌≡◌, ◌||◌, true, map, IfSome};
ghost use Rattle.lhg_math.specs.Number.{neg, compare};
ghost use Rattle.lhg_row.specs.Members.{SomeOf};
ghost use Rattle.lhg_poly.specs.Clash.{IsClash};

use lhg_num::Scalar;
use lhg_row::Row;
use lhg_row::scaling::{Sense, agree};
use std::cmp::Ordering;

/// Whether some row of the one list and some row of the other are found to hold at no common point. They have opposite coefficients, and bounds that no
/// value keeps both.
#[tactic(auto, using(crate::proofs::ClashSteps::some_item))]
pub(crate) fn clash<N: Scalar>(rows: &[Row<N>], others: &[Row<N>]) -> bool
    ensures { result ≡ true → SomeOf (λ r. SomeOf (IsClash r) others.now) rows.now }
{
    for row in rows {
        if clashes(row, others) {
            return true;
        }
    }
    false
}

// The same of one row and the other list.
#[tactic(auto, using(crate::proofs::ClashSteps::some_item))]
fn clashes<N: Scalar>(row: &Row<N>, others: &[Row<N>]) -> bool
    ensures { result ≡ true → SomeOf (IsClash row.now) others.now }
{
    for other in others {
        if is_clash(row, other) {
            return true;
        }
    }
    false
}

// The same of two rows.
fn is_clash<N: Scalar>(r: &Row<N>, s: &Row<N>) -> bool
    ensures { result ≡ true → IsClash r.now s.now }
{
    if !have_opposites(r, s) {
        return false;
    }
    match bound_order(r, s) {
        Some(Ordering::Less) => true,
        Some(Ordering::Equal) => is_either_strict(r, s),
        _ => false,
    }
}

// The order of the bound and the negative of the other bound, where it is known.
fn bound_order<N: Scalar>(r: &Row<N>, s: &Row<N>) -> Option<Ordering>
    ensures { IfSome result (λ o. compare r.now.bound (neg s.now.bound) ≡ o) }
{
    match r.bound.cmp(&s.bound.neg()) {
        Ok(order) => Some(order),
        Err(_) => None,
    }
}

// Whether either row is strict.
fn is_either_strict<N: Scalar>(r: &Row<N>, s: &Row<N>) -> bool
    ensures { result ≡ (r.now.strict || s.now.strict) }
{
    r.kind.is_strict() || s.kind.is_strict()
}

// Whether the coefficients are the others' negatives.
fn have_opposites<N: Scalar>(r: &Row<N>, s: &Row<N>) -> bool
    ensures { result ≡ true → r.now.coefs ≡ map neg s.now.coefs }
{
    are_opposite(&r.coefs, &s.coefs)
}

// Whether the numbers are the others' negatives.
fn are_opposite<N: Scalar>(cs: &[N], ds: &[N]) -> bool
    ensures { result ≡ true → map N.meaning cs.now ≡ map neg (map N.meaning ds.now) }
{
    if cs.len() != ds.len() {
        return false;
    }
    let one = N::one();
    match agree(Sense::Opposite, &one, &one, cs, ds) {
        Ok(same) => same,
        Err(_) => false,
    }
}
