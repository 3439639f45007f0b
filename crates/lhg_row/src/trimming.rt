// Trim: rows scaled by their type's rule, true rows left out, and of rows with one direction the tighter kept.
ghost use Rattle.std.specs.Prelude.{◌≡◌, ◌++◌, ◌∷◌, [], length, map, not, filter, IfOk};
ghost use Rattle.lhg_math.specs.Tests.{any_of};
ghost use Rattle.lhg_num.specs.Arithmetic as arithmetic;
ghost use Rattle.lhg_num.specs.Marked.{done, each, refusing, valued};
ghost use Rattle.lhg_num.specs.Halting.{IsWideBy, IsHaltedByMemory, IsHaltedByWide, IsHaltedByRows};
ghost use Rattle.lhg_row.specs.Row.{PlainPoint};
ghost use Rattle.lhg_row.specs.Piece.{in_piece};
ghost use Rattle.lhg_row.specs.Kinds as plain;
ghost use Rattle.lhg_row.specs.Constant as constant;
ghost use Rattle.lhg_row.specs.Width.{AllWide, HasWidth};
ghost use Rattle.lhg_row.specs.Trim as calculus;

use crate::coding::{Coded, are_apart};
use crate::rows::{Kind, Row};
use crate::scaling::{Sense, agree, lead, lead_size, stricter, times};
use crate::systems::System;
use crate::values::fits;
use lhg_num::{Halt, Scalar, Wide};
use std::alloc::Global;
use std::cmp::Ordering;

/// How many rows a list may have.
pub const ROW_LIMIT: usize = 8192;

/// The trimmed list, which has the same points: rows over `vars` variables, scaled by their type's rule, of those with one
/// direction the tightest, and `0 < 0` alone where a row without a variable is false. It halts for `Wide` only where the type
/// refuses an operation of the calculus of this call, for `Rows` only where there are more than `ROW_LIMIT` rows, and for `Memory`.
pub fn trim<N: Scalar>(alloc: Global, vars: usize, rows: Vec<Row<N>>) -> Result<System<N>, Halt>
    requires { AllWide vars rows.items }
    ensures list { IsHaltedByRows result (calculus.trim N.arithmetic rows.items) (λ s. s.lines) }
    ensures width { IfOk result (λ s. s.width ≡ vars) }
    ensures points { IfOk result (λ s. (x : PlainPoint) → in_piece s.lines x ≡ in_piece rows.items x) }
{
    if rows.len() > ROW_LIMIT {
        return Err(Halt::Rows);
    }
    let scaled = canons(alloc, rows)?;
    let kept = settled(alloc, vars, scaled)?;
    Ok(System::of(vars, kept))
}

// The rows that are not true, gathered; or 0 < 0 alone where a row is false.
fn settled<N: Scalar>(alloc: Global, vars: usize, rows: Vec<Row<N>>) -> Result<Vec<Row<N>>, Halt>
    requires { AllWide vars rows.items }
    ensures { IsHaltedByWide result (calculus.settled N.arithmetic rows.items) (λ v. v.items) }
{
    if any_false(&rows) {
        return nothing(alloc, vars);
    }
    gathered(alloc, rows)
}

// The rows that are not true, each put among those before it.
fn gathered<N: Scalar>(alloc: Global, rows: Vec<Row<N>>) -> Result<Vec<Row<N>>, Halt>
    requires { HasWidth rows.items }
    ensures { IsHaltedByWide result (calculus.gathered N.arithmetic [] (filter (λ r. not (constant.is_true r)) rows.items)) (λ v. v.items) }
{
    let mut kept = Vec::new(alloc);
    for row in rows {
        add(&mut kept, row)?;
    }
    uncoded(alloc, kept)
}

// The rows without their codes.
fn uncoded<N: Scalar>(alloc: Global, rows: Vec<Coded<N>>) -> Result<Vec<Row<N>>, Halt>
    ensures { IsHaltedByMemory result (done rows.items) (λ v. v.items) }
{
    let mut out = Vec::with_capacity(alloc, rows.len())?;
    for coded in rows {
        out.push(coded.row)?;
    }
    Ok(out)
}

// Puts a row among the kept ones, unless it is true.
fn add<N: Scalar>(kept: &mut Vec<Coded<N>>, row: Row<N>) -> Result<(), Halt>
    requires { AllWide (length row.coefs) kept.old.items }
    ensures { IsHaltedByWide result (calculus.gathered N.arithmetic kept.old.items (filter (λ r. not (constant.is_true r)) (row ∷ []))) (λ _. kept.new.items) }
{
    if is_true(&row) {
        return Ok(());
    }
    place(kept, Coded::of(row))
}

// Puts a row among the kept ones: in the place of the first of its direction, else at the end.
fn place<N: Scalar>(kept: &mut Vec<Coded<N>>, row: Coded<N>) -> Result<(), Halt>
    requires { AllWide (length row.coefs) kept.old.items }
    ensures { IsHaltedByWide result (calculus.placed N.arithmetic row kept.old.items) (λ _. kept.new.items) }
{
    match place_along(kept, &row)? {
        Some(i) => tighten(&mut kept[i], row)?,
        None => kept.push(row)?,
    }
    Ok(())
}

// The place of the first kept row that has the direction of the row.
fn place_along<N: Scalar>(kept: &[Coded<N>], row: &Coded<N>) -> Result<Option<usize>, Wide>
    requires { AllWide (length row.now.coefs) kept.now }
    ensures { IsWideBy result (calculus.place_along N.arithmetic row.now 0 kept.now) (λ o. o) }
{
    let g = row.lead_size();
    for i in 0..kept.len() {
        let same = have_one_direction(row, &g, &kept[i])?;
        if same {
            return Ok(Some(i));
        }
    }
    Ok(None)
}

// The same as `same_direction`, which is asked only where the codes do not tell.
fn have_one_direction<N: Scalar>(r: &Coded<N>, g: &N, s: &Coded<N>) -> Result<bool, Wide>
    requires same { length r.now.coefs ≡ length s.now.coefs }
    requires size { N.meaning g.now ≡ calculus.lead_size r.now }
    ensures { IsWideBy result (calculus.same_direction N.arithmetic r.now s.now) (λ b. b) }
{
    if are_apart(r, s) {
        return Ok(false);
    }
    same_direction(&r.row, g, &s.row)
}

/// Whether the coefficients are the same after each row was multiplied by the size of the other's leading coefficient, which is g for r.
/// It answers `Wide` only where the type refuses one of the products.
pub fn same_direction<N: Scalar>(r: &Row<N>, g: &N, s: &Row<N>) -> Result<bool, Wide>
    requires same { length r.now.coefs ≡ length s.now.coefs }
    requires size { N.meaning g.now ≡ calculus.lead_size r.now }
    ensures { IsWideBy result (calculus.same_direction N.arithmetic r.now s.now) (λ b. b) }
{
    let f = lead_size(s);
    agree(Sense::Same, &f, g, &r.coefs, &s.coefs)
}

// Makes a kept row the tighter of it and another row of its direction.
fn tighten<N: Scalar>(kept: &mut Coded<N>, row: Coded<N>) -> Result<(), Wide>
    ensures { IsWideBy result (valued (λ o. calculus.tighter o kept.old row) (calculus.bound_order N.arithmetic row kept.old)) (λ _. kept.new) }
{
    let order = bound_order(&row.row, &kept.row)?;
    match order {
        Ordering::Less => *kept = row,
        Ordering::Equal => kept.row.kind = stricter(kept.row.kind, row.row.kind),
        Ordering::Greater => {}
    }
    Ok(())
}

// The order of the bounds after each row was multiplied by the size of the other's leading coefficient.
fn bound_order<N: Scalar>(r: &Row<N>, s: &Row<N>) -> Result<Ordering, Wide>
    ensures { IsWideBy result (calculus.bound_order N.arithmetic r.now s.now) (λ o. o) }
{
    let x = times(&lead_size(s), &r.bound)?;
    let y = times(&lead_size(r), &s.bound)?;
    x.cmp(&y)
}

// The one row 0 < 0.
fn nothing<N: Scalar>(alloc: Global, vars: usize) -> Result<Vec<Row<N>>, Halt>
    ensures { IsHaltedByMemory result (done (constant.never vars ∷ [])) (λ v. v.items) }
{
    let mut coefs = Vec::with_capacity(alloc, vars)?;
    for _ in 0..vars {
        coefs.push(N::zero())?;
    }
    let mut out = Vec::with_capacity(alloc, 1)?;
    out.push(Row {
        coefs,
        kind: Kind::Strict,
        bound: N::zero(),
    })?;
    Ok(out)
}

// Whether some row holds nowhere.
fn any_false<N: Scalar>(rows: &[Row<N>]) -> bool
    ensures { result ≡ any_of constant.is_false rows.now }
{
    for row in rows {
        if is_constant(row) && !stands_alone(row) {
            return true;
        }
    }
    false
}

// Each row scaled.
fn canons<N: Scalar>(alloc: Global, rows: Vec<Row<N>>) -> Result<Vec<Row<N>>, Halt>
    ensures { IsHaltedByWide result (each (calculus.canon N.arithmetic) rows.items) (λ v. v.items) }
{
    let mut out = Vec::with_capacity(alloc, rows.len())?;
    for row in rows {
        let scaled = canon(row)?;
        out.push(scaled)?;
    }
    Ok(out)
}

// The row scaled by its type's rule. A row without a variable stays.
fn canon<N: Scalar>(row: Row<N>) -> Result<Row<N>, Halt>
    ensures { IsHaltedByWide result (calculus.canon N.arithmetic row) (λ r. r) }
{
    if is_constant(&row) {
        return Ok(row);
    }
    let Row { coefs, kind, bound } = row;
    let entries = scaled(coefs, bound)?;
    Ok(split(entries, kind))
}

// The coefficients and then the bound, scaled by the type's rule.
fn scaled<N: Scalar>(mut coefs: Vec<N>, bound: N) -> Result<Vec<N>, Halt>
    ensures { let entries = map N.meaning coefs.items ++ N.meaning bound ∷ [] in IsHaltedByWide result (refusing (N.arithmetic.refuses_canon entries) (arithmetic.scaled N.arithmetic entries)) (λ v. map N.meaning v.items) }
{
    coefs.push(bound)?;
    N::canon(&mut coefs)?;
    Ok(coefs)
}

// The row of these entries, the last one being its bound.
fn split<N: Scalar>(mut entries: Vec<N>, kind: Kind) -> Row<N>
    ensures { result ≡ calculus.row_of (plain.is_strict kind) (map N.meaning entries.items) }
{
    let bound = match entries.pop() {
        Some(last) => last,
        None => N::zero(),
    };
    Row {
        coefs: entries,
        kind,
        bound,
    }
}

/// Whether all coefficients are 0.
pub fn is_constant<N: Scalar>(row: &Row<N>) -> bool
    ensures { result ≡ constant.is_constant row.now }
{
    lead(&row.coefs).is_zero()
}

// Whether the row has no variable and holds everywhere.
fn is_true<N: Scalar>(row: &Row<N>) -> bool
    ensures { result ≡ constant.is_true row.now }
{
    is_constant(row) && stands_alone(row)
}

// Whether 0 is at most the bound, or below it where the row is strict.
fn stands_alone<N: Scalar>(row: &Row<N>) -> bool
    ensures { result ≡ constant.stands_alone row.now }
{
    fits(row.kind, row.bound.sign().reverse())
}
