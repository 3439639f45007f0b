// One layer: the crossings into each of the newest known pieces, from each near piece that is open to it, through each way whose closure touches both.
ghost use Rattle.std.specs.Prelude.{◌≡◌, ◌≤◌, ◌<◌, ◌+◌, ◌*◌, ℕ, List, [], length, get_or, OnOk};
ghost use Rattle.lhg_num.specs.Halting.{IsHaltedBy};
ghost use Rattle.lhg_row.specs.Piece.{PlainPiece};
ghost use Rattle.lhg_row.specs.Width.{AllWide};
ghost use Rattle.lhg_row.specs.Lists.{piece_limit};
ghost use Rattle.lhg_motion.specs.ReachCalculus as calculus;
ghost use Rattle.lhg_union.specs.PolyLists.{lines_of, AllVars};
ghost use Rattle.lhg_reach.specs.FoundParts.{plain_founds, AllFoundVars};
ghost use Rattle.lhg_reach.specs.Neighbours.{EachWith, IsEntry, IsFlag, IsTable, AreKept, pair_count, way_count, ways_count};
ghost use Rattle.lhg_reach.specs.Before.{IsOpening};
ghost use Rattle.lhg_reach.specs.Newest.{IsNewest};
ghost use Rattle.lhg_reach.specs.Searching.{IsSearch};
ghost use Rattle.lhg_reach.specs.Widths.{AllThree, HaveThree};

use crate::kept::Kept;
use crate::neighbours::hints;
use crate::openings::openings;
use crate::search::{Aim, Search, attempt};
use lhg_cross::Tally;
use lhg_num::{Halt, Scalar};
use lhg_poly::Poly;
use lhg_row::Row;
use std::alloc::Global;

/// The new pieces of the layer with this number. Only crossings into the known pieces from the place `first` on are made: those into earlier ones were made before.
pub(crate) fn layer<N: Scalar>(
    alloc: Global,
    near: &[Poly<N>],
    ways: &[Poly<N>],
    kept: &Kept<N>,
    flow: &[Row<N>],
    first: usize,
    number: u32,
    search: &mut Search<N>,
    tally: &mut Tally,
) -> Result<(), Halt>
    requires none { search.old.found.items ≡ [] }
    requires few_known { length search.old.known.items ≤ piece_limit }
    requires few_ways { length ways.now ≤ piece_limit }
    requires over { HaveThree near.now ways.now search.old.known.items flow.now }
    requires kept { AreKept N.arithmetic near.now ways.now kept.now.table.items kept.now.edges.items }
    requires newest { (n : ℕ) → AllThree n near.now ways.now search.old.known.items flow.now → IsNewest n (lines_of near.now) (lines_of ways.now) (lines_of search.old.known.items) flow.now first }
    ensures layer { (n : ℕ) → AllThree n near.now ways.now search.old.known.items flow.now → IsHaltedBy result (calculus.layer_of N.arithmetic n flow.now (lines_of near.now) (lines_of ways.now) (lines_of search.old.known.items) number) (λ _. plain_founds search.new.found.items) }
    ensures known { OnOk result (IsSearch (lines_of search.old.known.items) search.new.known.items search.new.found.items) }
    ensures vars { (n : ℕ) → AllThree n near.now ways.now search.old.known.items flow.now → OnOk result (AllVars n search.new.known.items) }
    ensures found { (n : ℕ) → AllThree n near.now ways.now search.old.known.items flow.now → OnOk result (AllFoundVars n search.new.found.items) }
    ensures tally { tally.old ≤ tally.new }
    ensures count { (n : ℕ) → AllThree n near.now ways.now search.old.known.items flow.now → OnOk result (tally.new + first * pair_count N.arithmetic n (lines_of near.now) (lines_of ways.now) ≤ tally.old + length search.old.known.items * pair_count N.arithmetic n (lines_of near.now) (lines_of ways.now)) }
{
    for place in first..search.known.len() {
        into_place(alloc, near, ways, kept, flow, place, number, search, tally)?;
    }
    Ok(())
}

// The crossings into the piece at a place.
fn into_place<N: Scalar>(
    alloc: Global,
    near: &[Poly<N>],
    ways: &[Poly<N>],
    kept: &Kept<N>,
    flow: &[Row<N>],
    place: usize,
    number: u32,
    search: &mut Search<N>,
    tally: &mut Tally,
) -> Result<(), Halt>
    requires there { place < length search.old.known.items }
    requires few { place < piece_limit }
    requires few_ways { length ways.now ≤ piece_limit }
    requires over { HaveThree near.now ways.now search.old.known.items flow.now }
    requires kept { AreKept N.arithmetic near.now ways.now kept.now.table.items kept.now.edges.items }
    ensures step { (n : ℕ) (base : List PlainPiece) → AllThree n near.now ways.now search.old.known.items flow.now → IsSearch base search.old.known.items search.old.found.items → IsHaltedBy result (calculus.from_near N.arithmetic n flow.now base number (lines_of near.now) (calculus.numbered 0 (lines_of ways.now)) (plain_founds search.old.found.items) (record { place = place; piece = get_or (lines_of search.old.known.items) place [] })) (λ _. plain_founds search.new.found.items) }
    ensures known { (base : List PlainPiece) → IsSearch base search.old.known.items search.old.found.items → OnOk result (IsSearch base search.new.known.items search.new.found.items) }
    ensures vars { (n : ℕ) → AllThree n near.now ways.now search.old.known.items flow.now → OnOk result (AllVars n search.new.known.items) }
    ensures found { (n : ℕ) → AllThree n near.now ways.now search.old.known.items flow.now → AllFoundVars n search.old.found.items → OnOk result (AllFoundVars n search.new.found.items) }
    ensures tally { tally.old ≤ tally.new }
    ensures count { (n : ℕ) → AllThree n near.now ways.now search.old.known.items flow.now → OnOk result (tally.new ≤ tally.old + pair_count N.arithmetic n (lines_of near.now) (lines_of ways.now)) }
{
    match near {
        [] => Ok(()),
        _ => into_known(alloc, near, ways, kept, flow, place, number, search, tally),
    }
}

// The same where there is some near piece, so that it matters which ways the piece touches.
fn into_known<N: Scalar>(
    alloc: Global,
    near: &[Poly<N>],
    ways: &[Poly<N>],
    kept: &Kept<N>,
    flow: &[Row<N>],
    place: usize,
    number: u32,
    search: &mut Search<N>,
    tally: &mut Tally,
) -> Result<(), Halt>
    requires there { place < length search.old.known.items }
    requires few { place < piece_limit }
    requires few_ways { length ways.now ≤ piece_limit }
    requires over { HaveThree near.now ways.now search.old.known.items flow.now }
    requires kept { AreKept N.arithmetic near.now ways.now kept.now.table.items kept.now.edges.items }
    ensures step { (n : ℕ) (base : List PlainPiece) → AllThree n near.now ways.now search.old.known.items flow.now → IsSearch base search.old.known.items search.old.found.items → IsHaltedBy result (calculus.from_near N.arithmetic n flow.now base number (lines_of near.now) (calculus.numbered 0 (lines_of ways.now)) (plain_founds search.old.found.items) (record { place = place; piece = get_or (lines_of search.old.known.items) place [] })) (λ _. plain_founds search.new.found.items) }
    ensures known { (base : List PlainPiece) → IsSearch base search.old.known.items search.old.found.items → OnOk result (IsSearch base search.new.known.items search.new.found.items) }
    ensures vars { (n : ℕ) → AllThree n near.now ways.now search.old.known.items flow.now → OnOk result (AllVars n search.new.known.items) }
    ensures found { (n : ℕ) → AllThree n near.now ways.now search.old.known.items flow.now → AllFoundVars n search.old.found.items → OnOk result (AllFoundVars n search.new.found.items) }
    ensures tally { tally.old ≤ tally.new }
    ensures count { (n : ℕ) → AllThree n near.now ways.now search.old.known.items flow.now → OnOk result (tally.new ≤ tally.old + pair_count N.arithmetic n (lines_of near.now) (lines_of ways.now)) }
{
    let piece = search.known[place].copy(alloc)?;
    let aim = Aim {
        piece,
        place: place as u32,
        layer: number,
    };
    into_aim(alloc, near, ways, kept, &aim, flow, search, tally)
}

// The crossings into one piece, through the ways whose closures it has a common point with.
fn into_aim<N: Scalar>(
    alloc: Global,
    near: &[Poly<N>],
    ways: &[Poly<N>],
    kept: &Kept<N>,
    aim: &Aim<N>,
    flow: &[Row<N>],
    search: &mut Search<N>,
    tally: &mut Tally,
) -> Result<(), Halt>
    requires near { AllVars aim.now.piece.width near.now }
    requires ways { AllVars aim.now.piece.width ways.now }
    requires few_ways { length ways.now ≤ piece_limit }
    requires flow { AllWide aim.now.piece.width flow.now }
    requires known { AllVars aim.now.piece.width search.old.known.items }
    requires kept { AreKept N.arithmetic near.now ways.now kept.now.table.items kept.now.edges.items }
    ensures step { (base : List PlainPiece) → IsSearch base search.old.known.items search.old.found.items → IsHaltedBy result (calculus.from_near N.arithmetic aim.now.piece.width flow.now base aim.now.layer (lines_of near.now) (calculus.numbered 0 (lines_of ways.now)) (plain_founds search.old.found.items) (record { place = aim.now.place; piece = aim.now.piece.lines })) (λ _. plain_founds search.new.found.items) }
    ensures known { (base : List PlainPiece) → IsSearch base search.old.known.items search.old.found.items → OnOk result (IsSearch base search.new.known.items search.new.found.items) }
    ensures vars { OnOk result (AllVars aim.now.piece.width search.new.known.items) }
    ensures found { AllFoundVars aim.now.piece.width search.old.found.items → OnOk result (AllFoundVars aim.now.piece.width search.new.found.items) }
    ensures tally { tally.old ≤ tally.new }
    ensures count { OnOk result (tally.new ≤ tally.old + pair_count N.arithmetic aim.now.piece.width (lines_of near.now) (lines_of ways.now)) }
{
    let opens = openings(alloc, near, &aim.piece, flow)?;
    let flags = hints(alloc, &aim.piece, &kept.edges, &kept.table, &opens)?;
    from_near(
        alloc,
        near,
        ways,
        &kept.table,
        &flags,
        &opens,
        aim,
        flow,
        search,
        tally,
    )
}

// The crossings from each of the near pieces.
fn from_near<N: Scalar>(
    alloc: Global,
    near: &[Poly<N>],
    ways: &[Poly<N>],
    table: &[Vec<bool>],
    flags: &[bool],
    opens: &[bool],
    aim: &Aim<N>,
    flow: &[Row<N>],
    search: &mut Search<N>,
    tally: &mut Tally,
) -> Result<(), Halt>
    requires near { AllVars aim.now.piece.width near.now }
    requires ways { AllVars aim.now.piece.width ways.now }
    requires few_ways { length ways.now ≤ piece_limit }
    requires flow { AllWide aim.now.piece.width flow.now }
    requires known { AllVars aim.now.piece.width search.old.known.items }
    requires aim { AllWide aim.now.piece.width aim.now.piece.lines }
    requires table { IsTable N.arithmetic near.now ways.now table.now }
    requires flags { EachWith (λ way b. IsFlag N.arithmetic aim.now.piece.width aim.now.piece.lines way.lines b) ways.now flags.now }
    requires opens { EachWith (λ start b. IsOpening N.arithmetic aim.now.piece.width aim.now.piece.lines flow.now start.lines b) near.now opens.now }
    ensures step { (base : List PlainPiece) → IsSearch base search.old.known.items search.old.found.items → IsHaltedBy result (calculus.from_near N.arithmetic aim.now.piece.width flow.now base aim.now.layer (lines_of near.now) (calculus.numbered 0 (lines_of ways.now)) (plain_founds search.old.found.items) (record { place = aim.now.place; piece = aim.now.piece.lines })) (λ _. plain_founds search.new.found.items) }
    ensures known { (base : List PlainPiece) → IsSearch base search.old.known.items search.old.found.items → OnOk result (IsSearch base search.new.known.items search.new.found.items) }
    ensures vars { OnOk result (AllVars aim.now.piece.width search.new.known.items) }
    ensures found { AllFoundVars aim.now.piece.width search.old.found.items → OnOk result (AllFoundVars aim.now.piece.width search.new.found.items) }
    ensures tally { tally.old ≤ tally.new }
    ensures count { OnOk result (tally.new ≤ tally.old + pair_count N.arithmetic aim.now.piece.width (lines_of near.now) (lines_of ways.now)) }
{
    for j in 0..near.len() {
        through_ways(
            alloc, &near[j], ways, &table[j], flags, opens[j], aim, flow, search, tally,
        )?;
    }
    Ok(())
}

// The crossings through each of the ways that have an entry and a flag, where the near piece is open.
fn through_ways<N: Scalar>(
    alloc: Global,
    from: &Poly<N>,
    ways: &[Poly<N>],
    entries: &[bool],
    flags: &[bool],
    opening: bool,
    aim: &Aim<N>,
    flow: &[Row<N>],
    search: &mut Search<N>,
    tally: &mut Tally,
) -> Result<(), Halt>
    requires aim { aim.now.piece.width ≡ from.now.width }
    requires ways { AllVars from.now.width ways.now }
    requires few { length ways.now ≤ piece_limit }
    requires flow { AllWide from.now.width flow.now }
    requires known { AllVars from.now.width search.old.known.items }
    requires aim_wide { AllWide from.now.width aim.now.piece.lines }
    requires entries { EachWith (λ way b. IsEntry N.arithmetic from.now.width from.now.lines way.lines b) ways.now entries.now }
    requires flags { EachWith (λ way b. IsFlag N.arithmetic from.now.width aim.now.piece.lines way.lines b) ways.now flags.now }
    requires opening { IsOpening N.arithmetic from.now.width aim.now.piece.lines flow.now from.now.lines opening }
    ensures step { (base : List PlainPiece) → IsSearch base search.old.known.items search.old.found.items → IsHaltedBy result (calculus.through_ways N.arithmetic from.now.width flow.now base aim.now.layer (calculus.numbered 0 (lines_of ways.now)) (record { place = aim.now.place; piece = aim.now.piece.lines }) (plain_founds search.old.found.items) from.now.lines) (λ _. plain_founds search.new.found.items) }
    ensures known { (base : List PlainPiece) → IsSearch base search.old.known.items search.old.found.items → OnOk result (IsSearch base search.new.known.items search.new.found.items) }
    ensures vars { OnOk result (AllVars from.now.width search.new.known.items) }
    ensures found { AllFoundVars from.now.width search.old.found.items → OnOk result (AllFoundVars from.now.width search.new.found.items) }
    ensures tally { tally.old ≤ tally.new }
    ensures count { OnOk result (tally.new ≤ tally.old + ways_count N.arithmetic from.now.width from.now.lines (lines_of ways.now)) }
{
    for i in 0..ways.len() {
        let entry = entries[i];
        let flag = flags[i];
        through_way(
            alloc, from, &ways[i], i as u32, entry, flag, opening, aim, flow, search, tally,
        )?;
    }
    Ok(())
}

// The crossing through one way, where it has an entry and a flag and the near piece is open.
fn through_way<N: Scalar>(
    alloc: Global,
    from: &Poly<N>,
    way: &Poly<N>,
    through: u32,
    entry: bool,
    flag: bool,
    opening: bool,
    aim: &Aim<N>,
    flow: &[Row<N>],
    search: &mut Search<N>,
    tally: &mut Tally,
) -> Result<(), Halt>
    requires way { way.now.width ≡ from.now.width }
    requires aim { aim.now.piece.width ≡ from.now.width }
    requires flow { AllWide from.now.width flow.now }
    requires known { AllVars from.now.width search.old.known.items }
    requires aim_wide { AllWide from.now.width aim.now.piece.lines }
    requires entry { IsEntry N.arithmetic from.now.width from.now.lines way.now.lines entry }
    requires flag { IsFlag N.arithmetic from.now.width aim.now.piece.lines way.now.lines flag }
    requires opening { IsOpening N.arithmetic from.now.width aim.now.piece.lines flow.now from.now.lines opening }
    ensures step { (base : List PlainPiece) → IsSearch base search.old.known.items search.old.found.items → IsHaltedBy result (calculus.attempt N.arithmetic from.now.width flow.now base aim.now.layer (record { place = aim.now.place; piece = aim.now.piece.lines }) from.now.lines (plain_founds search.old.found.items) (record { place = through; piece = way.now.lines })) (λ _. plain_founds search.new.found.items) }
    ensures known { (base : List PlainPiece) → IsSearch base search.old.known.items search.old.found.items → OnOk result (IsSearch base search.new.known.items search.new.found.items) }
    ensures vars { OnOk result (AllVars from.now.width search.new.known.items) }
    ensures found { AllFoundVars from.now.width search.old.found.items → OnOk result (AllFoundVars from.now.width search.new.found.items) }
    ensures tally { tally.old ≤ tally.new }
    ensures count { tally.new ≤ tally.old + way_count N.arithmetic from.now.width from.now.lines way.now.lines }
{
    if !entry {
        return Ok(());
    }
    if !flag {
        // A look at the rows tells that all have as many variables.
        let _ = from.rows();
        return Ok(());
    }
    if !opening {
        // A look at the rows tells that all have as many variables.
        let _ = way.rows();
        return Ok(());
    }
    attempt(alloc, from, way, through, aim, flow, search, tally)
}
