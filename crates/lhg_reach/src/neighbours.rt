// Which ways can a crossing from a near piece, or into a known one, lead through: those with whose closure the piece has a common point.
ghost use Rattle.std.specs.Prelude.{◌≡◌, true, Some, IfOk, IfSome};
ghost use Rattle.lhg_math.specs.Tests.{AllOf};
ghost use Rattle.lhg_num.specs.Marked.{done};
ghost use Rattle.lhg_num.specs.Halting.{IsHaltedByMemory};
ghost use Rattle.lhg_row.specs.Width.{AllWide};
ghost use Rattle.lhg_union.specs.PolyLists.{AllVars, ArePolys, HaveVars};
ghost use Rattle.lhg_reach.specs.Neighbours.{EachWith, IsEdge, AreKept, IsTold, IsHint};

use crate::kept::Kept;
use lhg_num::{Halt, Scalar};
use lhg_poly::{Poly, are_apart, closure};
use std::alloc::Global;

/// The closures of the ways; and for each near piece, and for each way, whether the near piece and the closure of the way have a common point. Where a limit is
/// passed on the way to know it, the entry says that they have. It halts for `Memory` alone.
pub(crate) fn kept_of<N: Scalar>(
    alloc: Global,
    near: &[Poly<N>],
    ways: &[Poly<N>],
) -> Result<Kept<N>, Halt>
    requires vars { HaveVars near.now ways.now }
    requires ways { ArePolys N.arithmetic ways.now }
    ensures halts { IsHaltedByMemory result (done true) (λ _. true) }
    ensures kept { IfOk result (λ k. AreKept N.arithmetic near.now ways.now k.table.items k.edges.items) }
{
    let edges = edges_of(alloc, ways)?;
    let mut table = Vec::with_capacity(alloc, near.len())?;
    for from in near {
        let row = entries(alloc, from, &edges)?;
        table.push(row)?;
    }
    Ok(Kept { edges, table })
}

// The closures of the ways; none in the place of one that passes a limit.
fn edges_of<N: Scalar>(alloc: Global, ways: &[Poly<N>]) -> Result<Vec<Option<Poly<N>>>, Halt>
    ensures halts { IsHaltedByMemory result (done true) (λ _. true) }
    ensures edges { IfOk result (λ v. EachWith (IsEdge N.arithmetic) ways.now v.items) }
{
    let mut edges = Vec::with_capacity(alloc, ways.len())?;
    for way in ways {
        let edge = edge_of(alloc, way)?;
        edges.push(edge)?;
    }
    Ok(edges)
}

// The closure of a way, or none where it passes a limit.
#[tactic(auto, using(crate::proofs::Pairs::edge_halt))]
fn edge_of<N: Scalar>(alloc: Global, way: &Poly<N>) -> Result<Option<Poly<N>>, Halt>
    ensures halts { IsHaltedByMemory result (done true) (λ _. true) }
    ensures edge { IfOk result (IsEdge N.arithmetic way.now) }
{
    match closure(alloc, way) {
        Ok(edge) => Ok(Some(edge)),
        Err(Halt::Memory) => Err(Halt::Memory),
        Err(_) => Ok(None),
    }
}

/// For each closure, whether the piece has a common point with it. Where there is none, or a limit is passed on the way to know it, the entry says that it has one. It
/// halts for `Memory` alone.
pub(crate) fn entries<N: Scalar>(
    alloc: Global,
    from: &Poly<N>,
    edges: &[Option<Poly<N>>],
) -> Result<Vec<bool>, Halt>
    requires { AllOf (λ o. IfSome o (λ e. e.width ≡ from.now.width)) edges.now }
    ensures halts { IsHaltedByMemory result (done true) (λ _. true) }
    ensures told { IfOk result (λ v. EachWith (IsTold N.arithmetic from.now.width from.now.lines) edges.now v.items) }
    ensures wide { AllWide from.now.width from.now.lines }
{
    let _ = from.rows();
    let mut row = Vec::with_capacity(alloc, edges.len())?;
    for edge in edges {
        let told = entry(alloc, from, edge)?;
        row.push(told)?;
    }
    Ok(row)
}

/// The same, but only for closures that count with an open near piece; for all others the entry says that there is a common point.
pub(crate) fn hints<N: Scalar>(
    alloc: Global,
    into: &Poly<N>,
    edges: &[Option<Poly<N>>],
    table: &[Vec<bool>],
    opens: &[bool],
) -> Result<Vec<bool>, Halt>
    requires { AllOf (λ o. IfSome o (λ e. e.width ≡ into.now.width)) edges.now }
    ensures halts { IsHaltedByMemory result (done true) (λ _. true) }
    ensures told { IfOk result (λ v. EachWith (IsHint N.arithmetic into.now.width into.now.lines) edges.now v.items) }
    ensures wide { AllWide into.now.width into.now.lines }
{
    let _ = into.rows();
    let mut row = Vec::with_capacity(alloc, edges.len())?;
    for i in 0..edges.len() {
        let asked = counts_with_open(table, opens, i);
        let hint = hint(alloc, into, &edges[i], asked)?;
        row.push(hint)?;
    }
    Ok(row)
}

// The entry of one closure, where it is asked for.
fn hint<N: Scalar>(
    alloc: Global,
    into: &Poly<N>,
    edge: &Option<Poly<N>>,
    asked: bool,
) -> Result<bool, Halt>
    requires { IfSome edge.now (λ e. e.width ≡ into.now.width) }
    ensures halts { IsHaltedByMemory result (done true) (λ _. true) }
    ensures told { IfOk result (IsHint N.arithmetic into.now.width into.now.lines edge.now) }
{
    if !asked {
        return Ok(true);
    }
    entry(alloc, into, edge)
}

// Whether the way at place i counts with some open near piece.
fn counts_with_open(table: &[Vec<bool>], opens: &[bool], i: usize) -> bool {
    for (row, open) in table.iter().zip(opens) {
        if *open && row.get(i) == Some(&true) {
            return true;
        }
    }
    false
}

// Whether the piece has a common point with the closure, or there is none.
fn entry<N: Scalar>(alloc: Global, from: &Poly<N>, edge: &Option<Poly<N>>) -> Result<bool, Halt>
    requires { IfSome edge.now (λ e. e.width ≡ from.now.width) }
    ensures halts { IsHaltedByMemory result (done true) (λ _. true) }
    ensures told { IfOk result (IsTold N.arithmetic from.now.width from.now.lines edge.now) }
{
    match edge {
        None => Ok(true),
        Some(edge) => can_touch(alloc, from, edge),
    }
}

// Whether the piece and the closure have a common point, or a limit is passed on the way to know it.
#[tactic(auto, using(crate::proofs::Pairs::told_halt, crate::proofs::Pairs::told_answer))]
fn can_touch<N: Scalar>(alloc: Global, from: &Poly<N>, edge: &Poly<N>) -> Result<bool, Halt>
    requires { edge.now.width ≡ from.now.width }
    ensures halts { IsHaltedByMemory result (done true) (λ _. true) }
    ensures told { IfOk result (IsTold N.arithmetic from.now.width from.now.lines (Some edge.now)) }
{
    match are_apart(alloc, from, edge) {
        Ok(apart) => Ok(!apart),
        Err(Halt::Memory) => Err(Halt::Memory),
        Err(_) => Ok(true),
    }
}
