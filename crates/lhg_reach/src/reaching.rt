// The work of `reach`: layer after layer, each with the crossings into the pieces that the one before it added, until one finds nothing new.
ghost use Rattle.std.specs.Prelude.{◌≡◌, ◌≤◌, ◌+◌, ◌*◌, ◌↔◌, ◌++◌, ℕ, List, [], true, false, length, IfOk, OnOk};
ghost use Rattle.lhg_num.specs.Marked.{and_then};
ghost use Rattle.lhg_num.specs.Halting.{IsHaltedBy, IsHaltedByPieces};
ghost use Rattle.lhg_row.specs.Row.{PlainPoint};
ghost use Rattle.lhg_row.specs.Piece.{PlainPiece, InSome};
ghost use Rattle.lhg_row.specs.Lists.{piece_limit, is_past_list, counted_pieces};
ghost use Rattle.lhg_motion.specs.Reach.{HasPlay};
ghost use Rattle.lhg_motion.specs.Found.{EachNamed, EachPlays, pieces_of};
ghost use Rattle.lhg_motion.specs.Reached.{AreInLayers, EachInside, EachPoly};
ghost use Rattle.lhg_motion.specs.ReachCalculus as calculus;
ghost use Rattle.lhg_union.specs.PolyLists.{lines_of, AllVars, ArePolys};
ghost use Rattle.lhg_reach.specs.FoundParts.{plain_founds, plain_reached, AllFoundVars};
ghost use Rattle.lhg_reach.specs.Neighbours.{AreKept, pair_count};
ghost use Rattle.lhg_reach.specs.Newest.{IsNewest};
ghost use Rattle.lhg_reach.specs.Searching.{IsSearch, counted_layer};
ghost use Rattle.lhg_reach.specs.Widths.{AllOverVars, HaveVarsAndFlow, AllThree, HaveThree};

use crate::found::{Found, Reached};
use crate::kept::Kept;
use crate::layer::layer;
use crate::neighbours::kept_of;
use crate::search::Search;
use lhg_cross::Tally;
use lhg_num::{Halt, Scalar};
use lhg_poly::Poly;
use lhg_row::Row;
use lhg_union::{copies, is_within};
use std::alloc::Global;

/// How many layers may be counted: each adds a piece, so after as many the list is past its limit.
const LAYER_LIMIT: u32 = 4097;

/// The pieces from which a play inside the bad and near pieces, by flows of the flow set, ends in a bad one. All pieces, and the flow rows, are over the same
/// variables. A point is in a bad or found piece exactly where it has such a play; each found piece lies inside one of the near ones, and names the first flow of
/// a play from each of its points. There are at most two layers for each bad or near piece.
/// It halts for `Wide` only where the type refuses an operation of the calculus of this call,
/// for `Rows` and `Pieces` only where it has a list past `ROW_LIMIT`, `PIECE_LIMIT` or `LIST_ROW_LIMIT`, and for `Memory`. The count of the tally never falls;
/// where the pieces are found it rises by at most one for each bad or found piece and each pair of a near piece and a way that counts.
pub fn reach<N: Scalar>(
    alloc: Global,
    bad: &[Poly<N>],
    near: &[Poly<N>],
    flow: &[Row<N>],
    tally: &mut Tally,
) -> Result<Reached<N>, Halt>
    requires { HaveVarsAndFlow bad.now near.now flow.now }
    ensures calculus { (n : ℕ) → AllOverVars n bad.now near.now flow.now → IsHaltedBy result (calculus.reach N.arithmetic n (lines_of bad.now) (lines_of near.now) flow.now) plain_reached }
    ensures within { IfOk result (λ r. is_past_list (lines_of bad.now ++ pieces_of (plain_founds r.found.items)) ≡ false) }
    ensures vars { (n : ℕ) → AllOverVars n bad.now near.now flow.now → IfOk result (λ r. AllFoundVars n r.found.items) }
    ensures polys { (n : ℕ) → AllOverVars n bad.now near.now flow.now → IfOk result (λ r. EachPoly N.arithmetic n (plain_founds r.found.items)) }
    ensures points { (n : ℕ) → AllOverVars n bad.now near.now flow.now → IfOk result (λ r. (x : PlainPoint) → length x ≡ n → InSome (lines_of bad.now ++ pieces_of (plain_founds r.found.items)) x ↔ HasPlay (lines_of bad.now) (lines_of near.now) flow.now x) }
    ensures named { (n : ℕ) → AllOverVars n bad.now near.now flow.now → IfOk result (λ r. EachNamed n (lines_of near.now) (lines_of bad.now ++ lines_of near.now) (lines_of bad.now) flow.now (plain_founds r.found.items)) }
    ensures plays { (n : ℕ) → AllOverVars n bad.now near.now flow.now → IfOk result (λ r. EachPlays n (lines_of bad.now) (lines_of near.now) (lines_of bad.now) flow.now (plain_founds r.found.items)) }
    ensures inside { (n : ℕ) → AllOverVars n bad.now near.now flow.now → IfOk result (λ r. EachInside n (lines_of near.now) (plain_founds r.found.items)) }
    ensures layers { (n : ℕ) → AllOverVars n bad.now near.now flow.now → IfOk result (λ r. AreInLayers n (lines_of bad.now) (lines_of near.now) flow.now (plain_reached r)) }
    ensures few { IfOk result (λ r. r.layers ≤ 2 * (length bad.now + length near.now)) }
    ensures tally { tally.old ≤ tally.new }
    ensures count { (n : ℕ) → AllOverVars n bad.now near.now flow.now → IfOk result (λ r. tally.new ≤ tally.old + (length bad.now + length r.found.items) * pair_count N.arithmetic n (lines_of near.now) (lines_of bad.now ++ lines_of near.now)) }
{
    let ways = ways_of(alloc, bad, near)?;
    let kept = kept_of(alloc, near, &ways)?;
    let mut search = Search {
        known: copies(alloc, bad)?,
        found: Vec::new(alloc),
    };
    let mut found = Vec::new(alloc);
    let mut first = 0;
    for layers in 0..LAYER_LIMIT {
        let next = search.known.len();
        let more = grow(
            alloc,
            near,
            &ways,
            &kept,
            flow,
            first,
            layers + 1,
            &mut search,
            &mut found,
            tally,
        )?;
        if !more {
            return Ok(Reached { found, layers });
        }
        first = next;
    }
    Err(Halt::Pieces)
}

// The bad pieces followed by the near ones. Where the list is past its limits, `Pieces` is the answer.
fn ways_of<N: Scalar>(
    alloc: Global,
    bad: &[Poly<N>],
    near: &[Poly<N>],
) -> Result<Vec<Poly<N>>, Halt>
    ensures limit { IsHaltedByPieces result (counted_pieces (lines_of (bad.now ++ near.now))) (λ v. lines_of v.items) }
    ensures items { IfOk result (λ v. v.items ≡ bad.now ++ near.now) }
    ensures within { IfOk result (λ v. is_past_list (lines_of v.items) ≡ false) }
    ensures bad { IfOk result (λ _. ArePolys N.arithmetic bad.now) }
    ensures near { IfOk result (λ _. ArePolys N.arithmetic near.now) }
{
    let mut ways = copies(alloc, bad)?;
    let mut others = copies(alloc, near)?;
    ways.append(&mut others)?;
    if is_within(&ways) {
        Ok(ways)
    } else {
        Err(Halt::Pieces)
    }
}

// One layer more: whether it found a piece. Where the list is then past its limits, `Pieces` is the answer.
fn grow<N: Scalar>(
    alloc: Global,
    near: &[Poly<N>],
    ways: &[Poly<N>],
    kept: &Kept<N>,
    flow: &[Row<N>],
    first: usize,
    number: u32,
    search: &mut Search<N>,
    found: &mut Vec<Found<N>>,
    tally: &mut Tally,
) -> Result<bool, Halt>
    requires none { search.old.found.items ≡ [] }
    requires few_known { length search.old.known.items ≤ piece_limit }
    requires few_ways { length ways.now ≤ piece_limit }
    requires over { HaveThree near.now ways.now search.old.known.items flow.now }
    requires kept { AreKept N.arithmetic near.now ways.now kept.now.table.items kept.now.edges.items }
    requires newest { (n : ℕ) → AllThree n near.now ways.now search.old.known.items flow.now → IsNewest n (lines_of near.now) (lines_of ways.now) (lines_of search.old.known.items) flow.now first }
    ensures step { (n : ℕ) → AllThree n near.now ways.now search.old.known.items flow.now → IsHaltedBy result (and_then (calculus.layer_of N.arithmetic n flow.now (lines_of near.now) (lines_of ways.now) (lines_of search.old.known.items) number) (counted_layer (lines_of search.old.known.items) (plain_founds found.old.items))) (λ more. (more, plain_founds found.new.items)) }
    ensures none { OnOk result (search.new.found.items ≡ []) }
    ensures known { (base : List PlainPiece) → IsSearch base search.old.known.items found.old.items → OnOk result (IsSearch base search.new.known.items found.new.items) }
    ensures vars { (n : ℕ) → AllThree n near.now ways.now search.old.known.items flow.now → OnOk result (AllVars n search.new.known.items) }
    ensures found { (n : ℕ) → AllThree n near.now ways.now search.old.known.items flow.now → AllFoundVars n found.old.items → OnOk result (AllFoundVars n found.new.items) }
    ensures within { IfOk result (λ more. more ≡ true → is_past_list (lines_of search.new.known.items) ≡ false) }
    ensures tally { tally.old ≤ tally.new }
    ensures count { (n : ℕ) → AllThree n near.now ways.now search.old.known.items flow.now → OnOk result (tally.new + first * pair_count N.arithmetic n (lines_of near.now) (lines_of ways.now) ≤ tally.old + length search.old.known.items * pair_count N.arithmetic n (lines_of near.now) (lines_of ways.now)) }
{
    layer(alloc, near, ways, kept, flow, first, number, search, tally)?;
    if search.found.is_empty() {
        return Ok(false);
    }
    found.append(&mut search.found)?;
    if is_within(&search.known) {
        Ok(true)
    } else {
        Err(Halt::Pieces)
    }
}
