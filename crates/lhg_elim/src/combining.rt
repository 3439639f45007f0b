// The combination of two rows in which a variable cancels.
ghost use Rattle.std.specs.Prelude.{◌≡◌, ◌<◌, length, map, IfOk};
ghost use Rattle.lhg_num.specs.Halting.{IsWideBy, IsHaltedByWide};
ghost use Rattle.lhg_row.specs.Row.{PlainRow};
ghost use Rattle.lhg_row.specs.Column.{coef_at};
ghost use Rattle.lhg_row.specs.Combination.{AreOpposed, IsCombination};
ghost use Rattle.lhg_row.specs.Combine as calculus;

use lhg_num::{Halt, Scalar, Wide};
use lhg_row::Row;
use lhg_row::scaling::{size, stricter, times};
use std::alloc::Global;

/// The row |s_k| * r + |r_k| * s of two rows over the same variables, strict where either is. Where the coefficients at k have opposite signs, k cancels, and
/// the row says of the other variables that some value of k satisfies both rows. It halts for `Wide` only where the type
/// refuses one of the products or sums, and for `Memory`.
pub fn comb<N: Scalar>(alloc: Global, r: &Row<N>, s: &Row<N>, k: usize) -> Result<Row<N>, Halt>
    requires same { length r.now.coefs ≡ length s.now.coefs }
    requires there { k < length r.now.coefs }
    ensures row { IsHaltedByWide result (calculus.comb N.arithmetic r.now s.now k) (λ row. row) }
    ensures points { IfOk result (λ row. AreOpposed (coef_at k r.now) (coef_at k s.now) → IsCombination k r.now s.now row) }
{
    let f = coef_size(s, k);
    let g = coef_size(r, k);
    let coefs = entries(alloc, &f, &g, &r.coefs, &s.coefs)?;
    let bound = entry(&f, &g, &r.bound, &s.bound)?;
    Ok(Row {
        coefs,
        kind: stricter(r.kind, s.kind),
        bound,
    })
}

// The size of the coefficient of variable k.
fn coef_size<N: Scalar>(row: &Row<N>, k: usize) -> N
    requires { k < length row.now.coefs }
    ensures { N.meaning result ≡ calculus.coef_size k row.now }
{
    size(&row.coefs[k])
}

// f * c + g * d of each two entries of two lists.
fn entries<N: Scalar>(alloc: Global, f: &N, g: &N, cs: &[N], ds: &[N]) -> Result<Vec<N>, Halt>
    requires { length cs.now ≡ length ds.now }
    ensures { IsHaltedByWide result (calculus.entries N.arithmetic (N.meaning f.now) (N.meaning g.now) (map N.meaning cs.now) (map N.meaning ds.now)) (λ v. map N.meaning v.items) }
{
    let mut out = Vec::with_capacity(alloc, cs.len())?;
    for i in 0..cs.len() {
        let sum = entry(f, g, &cs[i], &ds[i])?;
        out.push(sum)?;
    }
    Ok(out)
}

// f * c + g * d
fn entry<N: Scalar>(f: &N, g: &N, c: &N, d: &N) -> Result<N, Wide>
    ensures { IsWideBy result (calculus.entry N.arithmetic (N.meaning f.now) (N.meaning g.now) (N.meaning c.now) (N.meaning d.now)) N.meaning }
{
    let left = times(f, c)?;
    let right = times(g, d)?;
    left.add(&right)
}
