// Which near pieces can a crossing into a piece start in: those with a point at which all rows hold that hold wherever a flow into it starts.
//
// A row whose value no legal speed makes fall holds at the start of a flow where it holds at its end; where each speed makes it rise, it holds strictly there.
ghost use Rattle.std.specs.Prelude.{◌≡◌, ◌++◌, ◌∷◌, [], true, false, length, IfOk, IfSome};
ghost use Rattle.lhg_num.specs.Marked.{done};
ghost use Rattle.lhg_num.specs.Halting.{IsHaltedByMemory};
ghost use Rattle.lhg_row.specs.HasValue.{IsEmptiness};
ghost use Rattle.lhg_row.specs.Kinds as plain;
ghost use Rattle.lhg_row.specs.System.{PlainSystem};
ghost use Rattle.lhg_row.specs.Width.{AllWide};
ghost use Rattle.lhg_union.specs.PolyLists.{AllVars};
ghost use Rattle.lhg_reach.specs.Before.{AreBefore, IsBefore, HasMore, IsOpening, falling, of_kind};
ghost use Rattle.lhg_reach.specs.Neighbours.{EachWith};

use lhg_num::{Halt, Scalar};
use lhg_poly::{Poly, are_refuted};
use lhg_row::{Kind, Row, append_rows, copy_row, copy_rows};
use std::alloc::Global;

/// For each near piece whether a crossing from it into the piece is tried: not where it has no point at which the rows hold that hold wherever a flow into the piece starts.
/// It halts for `Memory` alone.
pub(crate) fn openings<N: Scalar>(
    alloc: Global,
    near: &[Poly<N>],
    into: &Poly<N>,
    flow: &[Row<N>],
) -> Result<Vec<bool>, Halt>
    requires near { AllVars into.now.width near.now }
    requires flow { AllWide into.now.width flow.now }
    ensures halts { IsHaltedByMemory result (done true) (λ _. true) }
    ensures told { IfOk result (λ v. EachWith (λ (start : PlainSystem) b. IsOpening N.arithmetic into.now.width into.now.lines flow.now start.lines b) near.now v.items) }
{
    let before = rows_before(alloc, into.vars(), into.rows(), flow)?;
    let mut out = Vec::with_capacity(alloc, near.len())?;
    for start in near {
        let open = is_open(alloc, start, &before)?;
        out.push(open)?;
    }
    Ok(out)
}

// Whether the piece may have a point at which all the rows hold.
fn is_open<N: Scalar>(alloc: Global, start: &Poly<N>, before: &[Row<N>]) -> Result<bool, Halt>
    requires { AllWide start.now.width before.now }
    ensures halts { IsHaltedByMemory result (done true) (λ _. true) }
    ensures told { IfOk result (λ b. b ≡ false → IsEmptiness start.now.width (start.now.lines ++ before.now) true) }
    ensures wide { IfOk result (λ b. b ≡ false → AllWide start.now.width start.now.lines) }
{
    if before.is_empty() {
        return Ok(true);
    }
    let mut rows = copy_rows(alloc, start.rows())?;
    append_rows(alloc, &mut rows, before)?;
    let none = are_refuted(alloc, start.vars(), &rows)?;
    Ok(!none)
}

// The rows found to hold wherever a flow starts at whose end all the rows hold. All are over `vars` variables.
fn rows_before<N: Scalar>(
    alloc: Global,
    vars: usize,
    rows: &[Row<N>],
    flow: &[Row<N>],
) -> Result<Vec<Row<N>>, Halt>
    requires rows { AllWide vars rows.now }
    requires flow { AllWide vars flow.now }
    ensures halts { IsHaltedByMemory result (done true) (λ _. true) }
    ensures before { IfOk result (λ v. AreBefore vars flow.now rows.now v.items) }
    ensures wide { IfOk result (λ v. AllWide vars v.items) }
{
    let mut out = Vec::new(alloc);
    for row in rows {
        push_before(alloc, vars, &mut out, row, flow)?;
    }
    Ok(out)
}

// Puts the row that is found for one row at the end.
fn push_before<N: Scalar>(
    alloc: Global,
    vars: usize,
    out: &mut Vec<Row<N>>,
    row: &Row<N>,
    flow: &[Row<N>],
) -> Result<(), Halt>
    requires row { length row.now.coefs ≡ vars }
    requires flow { AllWide vars flow.now }
    ensures halts { IsHaltedByMemory result (done true) (λ _. true) }
    ensures more { IfOk result (λ _. HasMore vars flow.now row.now out.old.items out.new.items) }
{
    if let Some(before) = row_before(alloc, vars, row, flow)? {
        out.push(before)?;
    }
    Ok(())
}

// The row, where no speed of the flow makes its value fall, and made strict, where each makes it rise.
fn row_before<N: Scalar>(
    alloc: Global,
    vars: usize,
    row: &Row<N>,
    flow: &[Row<N>],
) -> Result<Option<Row<N>>, Halt>
    requires row { length row.now.coefs ≡ vars }
    requires flow { AllWide vars flow.now }
    ensures halts { IsHaltedByMemory result (done true) (λ _. true) }
    ensures before { IfOk result (λ o. IfSome o (IsBefore vars flow.now row.now)) }
    ensures wide { IfOk result (λ o. IfSome o (λ s. length s.coefs ≡ vars)) }
{
    let level = never_falls(alloc, vars, row, flow, Kind::Strict)?;
    if !level {
        return Ok(None);
    }
    let rises = never_falls(alloc, vars, row, flow, Kind::Weak)?;
    let before = copy_row(alloc, row)?;
    if rises {
        return Ok(Some(strict(before)));
    }
    Ok(Some(before))
}

// The row made strict.
fn strict<N: Scalar>(mut row: Row<N>) -> Row<N>
    ensures { result ≡ of_kind true row }
{
    row.kind = Kind::Strict;
    row
}

// Whether the value of the row is found to be below 0 at no speed of the flow, and, where the kind is weak, not 0 either.
fn never_falls<N: Scalar>(
    alloc: Global,
    vars: usize,
    row: &Row<N>,
    flow: &[Row<N>],
    kind: Kind,
) -> Result<bool, Halt>
    requires row { length row.now.coefs ≡ vars }
    requires flow { AllWide vars flow.now }
    ensures halts { IsHaltedByMemory result (done true) (λ _. true) }
    ensures told { IfOk result (λ b. b ≡ true → IsEmptiness vars (flow.now ++ falling (plain.is_strict kind) row.now ∷ []) true) }
{
    let mut rows = copy_rows(alloc, flow)?;
    let fall = Row {
        coefs: Vec::from_slice(alloc, &row.coefs)?,
        kind,
        bound: N::zero(),
    };
    rows.push(fall)?;
    are_refuted(alloc, vars, &rows)
}
