// The search for two weak rows that are an equation.
ghost use Rattle.std.specs.Prelude.{◌≡◌, ◌<◌, ◌+◌, true, length, map, drop};
ghost use Rattle.lhg_num.specs.Halting.{IsWideBy};
ghost use Rattle.lhg_row.specs.Width.{HasVariable};
ghost use Rattle.lhg_row.specs.Eliminate as calculus;
ghost use Rattle.lhg_elim.specs.OneSign.{SharesSign, one_sign};

use lhg_num::{Scalar, Wide};
use lhg_row::scaling::{Sense, agree, agree_at, lead_size};
use lhg_row::{Row, is_level};
use std::cmp::Ordering;

/// The places of the first two weak rows over variable k that are an equation.
pub fn pair<N: Scalar>(rows: &[Row<N>], k: usize) -> Result<Option<(usize, usize)>, Wide>
    requires { HasVariable k rows.now }
    ensures { IsWideBy result (calculus.pair_at N.arithmetic k 0 rows.now) (λ o. o) }
{
    for i in 0..rows.len() {
        let found = mate(rows, i, k)?;
        if let Some(j) = found {
            return Ok(Some((i, j)));
        }
    }
    Ok(None)
}

// The place of the first later row that is an equation together with the row at place i.
fn mate<N: Scalar>(rows: &[Row<N>], i: usize, k: usize) -> Result<Option<usize>, Wide>
    requires wide { HasVariable k rows.now }
    requires there { i < length rows.now }
    ensures { IsWideBy result (calculus.mate_of N.arithmetic k (calculus.row_at rows.now i) (i + 1) (drop (i + 1) rows.now)) (λ o. o) }
{
    let row = &rows[i];
    if !is_candidate(row, k) {
        return Ok(None);
    }
    for j in i + 1..rows.len() {
        let found = is_mate(row, &rows[j], k)?;
        if found {
            return Ok(Some(j));
        }
    }
    Ok(None)
}

// Whether s is weak, is over variable k, and is an equation together with r.
fn is_mate<N: Scalar>(r: &Row<N>, s: &Row<N>, k: usize) -> Result<bool, Wide>
    requires same { length r.now.coefs ≡ length s.now.coefs }
    requires there { k < length s.now.coefs }
    ensures { IsWideBy result (calculus.is_mate N.arithmetic k r.now s.now) (λ b. b) }
{
    if !is_candidate(s, k) {
        return Ok(false);
    }
    is_opposite(r, s)
}

// Whether the row is weak and over variable k.
fn is_candidate<N: Scalar>(row: &Row<N>, k: usize) -> bool
    requires { k < length row.now.coefs }
    ensures { result ≡ calculus.is_candidate k row.now }
{
    !row.kind.is_strict() && !is_level(row, k)
}

// Whether the rows are each other's negatives, after each was multiplied by the size of the other's leading coefficient.
fn is_opposite<N: Scalar>(r: &Row<N>, s: &Row<N>) -> Result<bool, Wide>
    requires { length r.now.coefs ≡ length s.now.coefs }
    ensures { IsWideBy result (calculus.is_opposite N.arithmetic r.now s.now) (λ b. b) }
{
    if share_sign(&r.coefs, &s.coefs) {
        return Ok(false);
    }
    let f = lead_size(s);
    let g = lead_size(r);
    let along = agree(Sense::Opposite, &f, &g, &r.coefs, &s.coefs)?;
    if !along {
        return Ok(false);
    }
    agree_at(Sense::Opposite, &f, &g, &r.bound, &s.bound)
}

// Whether two entries are both negative or both positive. Rows with such entries are no equation, whatever the products.
fn share_sign<N: Scalar>(cs: &[N], ds: &[N]) -> bool
    requires { length cs.now ≡ length ds.now }
    ensures { result ≡ true → SharesSign (map N.meaning cs.now) (map N.meaning ds.now) }
{
    for i in 0..cs.len() {
        if have_one_sign(&cs[i], &ds[i]) {
            return true;
        }
    }
    false
}

// Whether both numbers are negative or both are positive.
fn have_one_sign<N: Scalar>(c: &N, d: &N) -> bool
    ensures { result ≡ one_sign (N.meaning c.now) (N.meaning d.now) }
{
    match c.sign() {
        Ordering::Less => d.sign().is_lt(),
        Ordering::Equal => false,
        Ordering::Greater => d.sign().is_gt(),
    }
}
