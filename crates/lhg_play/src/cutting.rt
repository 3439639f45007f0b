// The check points of a segment.
//
// Along a segment the value of a row moves evenly, so the row holds with equality at one place at most, unless it is constant.
// Between two neighbours of these places no row changes its truth, so the middle tells it for all places between them.
ghost use Rattle.std.specs.Prelude.{◌≡◌, ◌≤◌, ◌++◌, ◌∷◌, [], false, length, IfOk, IfSome};
ghost use Rattle.lhg_math.specs.Signs.{is_nought};
ghost use Rattle.lhg_num.specs.Halting.{IsWideBy, IsHaltedByWide};
ghost use Rattle.lhg_num.specs.Marked.{valued, marked_div, marked_mid};
ghost use Rattle.lhg_row.specs.Width.{AllWide};
ghost use Rattle.lhg_play.specs.Checks.{AreChecks, HaveMiddleTruths};
ghost use Rattle.lhg_play.specs.Cut as calculus;
ghost use Rattle.lhg_play.specs.Slots.{put_in};

use lhg_num::{DivError, Frac, Halt, Scalar, Wide};
use lhg_row::{Point, Row, value_from};
use std::alloc::Global;
use std::cmp::Ordering;

/// The check points of the segment against the rows, from its start, 0, to its end, 1: both ends, each place at which a row that is
/// not constant along the segment holds with equality, and the middle between each two neighbours of these. All have one coordinate
/// per variable. It halts for `Wide` only where fractions refuse an operation of the calculus of this call, and for `Memory`.
pub fn cut(
    alloc: Global,
    from: &Point<Frac>,
    to: &Point<Frac>,
    rows: &[Row<Frac>],
) -> Result<Vec<Frac>, Halt>
    requires ends { length from.now ≡ length to.now }
    requires rows { AllWide (length from.now) rows.now }
    ensures calculus { IsHaltedByWide result (calculus.cut from.now to.now rows.now) (λ v. v.items) }
    ensures places { IfOk result (λ v. AreChecks rows.now from.now to.now v.items) }
    ensures truths { IfOk result (λ v. HaveMiddleTruths rows.now from.now to.now v.items) }
{
    let change = change(alloc, &from.at, &to.at)?;
    let turns = turns(alloc, &from.at, &change, rows)?;
    with_middles(alloc, &turns)
}

// The second point less the first, coordinate by coordinate.
fn change(alloc: Global, from: &[Frac], to: &[Frac]) -> Result<Vec<Frac>, Halt>
    requires { length from.now ≡ length to.now }
    ensures { IsHaltedByWide result (calculus.change from.now to.now) (λ v. v.items) }
{
    let mut out = Vec::with_capacity(alloc, from.len())?;
    for i in 0..from.len() {
        let step = to[i].sub(&from[i])?;
        out.push(step)?;
    }
    Ok(out)
}

// The places 0 and 1, and the place of each row that has one.
fn turns(
    alloc: Global,
    from: &[Frac],
    change: &[Frac],
    rows: &[Row<Frac>],
) -> Result<Vec<Frac>, Halt>
    requires ends { length from.now ≡ length change.now }
    requires rows { AllWide (length from.now) rows.now }
    ensures { IsHaltedByWide result (calculus.turns from.now change.now rows.now) (λ v. v.items) }
{
    let mut places = vec![in alloc; Frac::zero(), Frac::one()]?;
    for row in rows {
        add_turn(&mut places, from, change, row)?;
    }
    Ok(places)
}

// Puts the place of the row in, where it has one.
fn add_turn(
    places: &mut Vec<Frac>,
    from: &[Frac],
    change: &[Frac],
    row: &Row<Frac>,
) -> Result<(), Halt>
    requires from { length row.now.coefs ≡ length from.now }
    requires change { length row.now.coefs ≡ length change.now }
    ensures { IsHaltedByWide result (calculus.with_turn from.now change.now places.old.items row.now) (λ _. places.new.items) }
{
    match turn(from, change, row)? {
        Some(place) => insert(places, place),
        None => Ok(()),
    }
}

// The place at which the row holds with equality, where it is not constant.
fn turn(from: &[Frac], change: &[Frac], row: &Row<Frac>) -> Result<Option<Frac>, Wide>
    requires from { length row.now.coefs ≡ length from.now }
    requires change { length row.now.coefs ≡ length change.now }
    ensures { IsWideBy result (calculus.turn_place from.now change.now row.now) (λ o. o) }
{
    let slope = value_from(Frac::zero(), &row.coefs, change)?;
    if slope.is_zero() {
        return Ok(None);
    }
    level(from, row, &slope)
}

// The place at which a row with this slope holds with equality.
fn level(from: &[Frac], row: &Row<Frac>, slope: &Frac) -> Result<Option<Frac>, Wide>
    requires from { length row.now.coefs ≡ length from.now }
    requires moves { is_nought slope.now ≡ false }
    ensures { IsWideBy result (calculus.level_place from.now row.now slope.now) (λ o. o) }
{
    let start = value_from(Frac::zero(), &row.coefs, from)?;
    let gap = row.bound.sub(&start)?;
    let place = divided(&gap, slope)?;
    kept(place)
}

// The quotient by a number that is not 0.
fn divided(x: &Frac, y: &Frac) -> Result<Frac, Wide>
    requires { is_nought y.now ≡ false }
    ensures { IsWideBy result (marked_div x.now y.now) (λ q. q) }
{
    match x.div(y) {
        Ok(quotient) => Ok(quotient),
        Err(DivError::Wide) => Err(Wide),
        Err(DivError::Zero) => unreachable!(),
    }
}

// The place, where it is from 0 to 1.
fn kept(place: Frac) -> Result<Option<Frac>, Wide>
    ensures { IsWideBy result (calculus.kept_place place) (λ o. o) }
{
    if place.sign() == Ordering::Less {
        return Ok(None);
    }
    match place.cmp(&Frac::one())? {
        Ordering::Greater => Ok(None),
        _ => Ok(Some(place)),
    }
}

// Puts a new place into the ascending list, where it is not there yet.
fn insert(places: &mut Vec<Frac>, place: Frac) -> Result<(), Halt>
    ensures { IsHaltedByWide result (calculus.inserted place places.old.items) (λ _. places.new.items) }
{
    if let Some(i) = slot(places, &place)? {
        places.insert(i, place)?;
    }
    Ok(())
}

// Where a new place stands in the ascending list, and none where it is there already.
fn slot(places: &[Frac], place: &Frac) -> Result<Option<usize>, Wide>
    ensures list { IsWideBy result (calculus.inserted place.now places.now) (put_in place.now places.now) }
    ensures inside { IfOk result (λ o. IfSome o (λ i. i ≤ length places.now)) }
{
    for i in 0..places.len() {
        match place.cmp(&places[i])? {
            Ordering::Less => return Ok(Some(i)),
            Ordering::Equal => return Ok(None),
            Ordering::Greater => {}
        }
    }
    Ok(Some(places.len()))
}

// The list with the middle between each two neighbours.
fn with_middles(alloc: Global, places: &[Frac]) -> Result<Vec<Frac>, Halt>
    ensures { IsHaltedByWide result (calculus.with_middles places.now) (λ v. v.items) }
{
    let mut out = Vec::new(alloc);
    if places.is_empty() {
        return Ok(out);
    }
    out.push(places[0])?;
    for i in 1..places.len() {
        push_pair(&mut out, &places[i - 1], &places[i])?;
    }
    Ok(out)
}

// Puts the middle of two neighbours and the second of them at the end.
fn push_pair(out: &mut Vec<Frac>, left: &Frac, right: &Frac) -> Result<(), Halt>
    ensures { IsHaltedByWide result (valued (λ m. out.old.items ++ m ∷ right.now ∷ []) (marked_mid left.now right.now)) (λ _. out.new.items) }
{
    let middle = left.mid(right)?;
    out.push(middle)?;
    out.push(*right)?;
    Ok(())
}
