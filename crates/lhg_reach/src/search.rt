// The search for the pieces of one layer: each crossing into a known piece is made, and where its piece is not covered it is new.
//
// The known pieces and, behind them, those that are new stand in one list, against which a piece is covered or not.
ghost use Rattle.std.specs.Prelude.{◌≡◌, ◌≤◌, ◌+◌, List, [], ◌∷◌, ◌++◌, Some, OnOk};
ghost use Rattle.lhg_num.specs.Marked.{done};
ghost use Rattle.lhg_num.specs.Halting.{IsHaltedBy, IsHaltedByMemory};
ghost use Rattle.lhg_row.specs.Piece.{PlainPiece};
ghost use Rattle.lhg_row.specs.Width.{AllWide};
ghost use Rattle.lhg_motion.specs.ReachCalculus as calculus;
ghost use Rattle.lhg_union.specs.PolyLists.{AllVars};
ghost use Rattle.lhg_reach.specs.FoundParts.{plain_founds, AllFoundVars};
ghost use Rattle.lhg_reach.specs.Searching.{IsSearch};

use crate::found::Found;
use lhg_cross::{Tally, cross};
use lhg_num::{Halt, Scalar};
use lhg_poly::Poly;
use lhg_row::Row;
use lhg_union::covered;
use std::alloc::Global;
use std::slice;

/// The known pieces, followed by the new ones; and the new ones with what they name.
#[derive(Drop)]
pub(crate) struct Search<N: Scalar> {
    pub(crate) known: Vec<Poly<N>>,
    pub(crate) found: Vec<Found<N>>,
}

/// The piece that crossings lead to, its place among the known ones, and the number of the layer.
#[derive(Drop)]
pub(crate) struct Aim<N: Scalar> {
    pub(crate) piece: Poly<N>,
    pub(crate) place: u32,
    pub(crate) layer: u32,
}

/// One crossing: its piece becomes a new one, where there is one that is not covered.
pub(crate) fn attempt<N: Scalar>(
    alloc: Global,
    from: &Poly<N>,
    way: &Poly<N>,
    through: u32,
    aim: &Aim<N>,
    flow: &[Row<N>],
    search: &mut Search<N>,
    tally: &mut Tally,
) -> Result<(), Halt>
    requires way { way.now.width ≡ from.now.width }
    requires aim { aim.now.piece.width ≡ from.now.width }
    requires flow { AllWide from.now.width flow.now }
    requires known { AllVars from.now.width search.old.known.items }
    ensures step { (base : List PlainPiece) → IsSearch base search.old.known.items search.old.found.items → IsHaltedBy result (calculus.attempt N.arithmetic from.now.width flow.now base aim.now.layer (record { place = aim.now.place; piece = aim.now.piece.lines }) from.now.lines (plain_founds search.old.found.items) (record { place = through; piece = way.now.lines })) (λ _. plain_founds search.new.found.items) }
    ensures known { (base : List PlainPiece) → IsSearch base search.old.known.items search.old.found.items → OnOk result (IsSearch base search.new.known.items search.new.found.items) }
    ensures vars { OnOk result (AllVars from.now.width search.new.known.items) }
    ensures found { AllFoundVars from.now.width search.old.found.items → OnOk result (AllFoundVars from.now.width search.new.found.items) }
    ensures tally { tally.old ≤ tally.new }
    ensures count { tally.new ≤ tally.old + 1 }
{
    // A look at the count tells that it is one of 64 bits, for `tally`.
    let _ = tally.count();
    let crossing = cross(alloc, from, way, &aim.piece, flow, tally)?;
    match crossing {
        None => Ok(()),
        Some(piece) => add_new(alloc, piece, through, aim, search),
    }
}

// The piece becomes a new one, unless it is covered.
fn add_new<N: Scalar>(
    alloc: Global,
    piece: Poly<N>,
    through: u32,
    aim: &Aim<N>,
    search: &mut Search<N>,
) -> Result<(), Halt>
    requires { AllVars piece.width search.old.known.items }
    ensures step { (base : List PlainPiece) → IsSearch base search.old.known.items search.old.found.items → IsHaltedBy result (calculus.add_new N.arithmetic piece.width base (plain_founds search.old.found.items) (λ p. record { piece = p; through = through; to = aim.now.place; layer = aim.now.layer }) (Some piece.lines)) (λ _. plain_founds search.new.found.items) }
    ensures known { (base : List PlainPiece) → IsSearch base search.old.known.items search.old.found.items → OnOk result (IsSearch base search.new.known.items search.new.found.items) }
    ensures vars { OnOk result (AllVars piece.width search.new.known.items) }
    ensures found { AllFoundVars piece.width search.old.found.items → OnOk result (AllFoundVars piece.width search.new.found.items) }
{
    let is_covered = covered(alloc, slice::from_ref(&piece), &search.known)?;
    if is_covered {
        return Ok(());
    }
    let found = Found {
        piece,
        through,
        to: aim.place,
        layer: aim.layer,
    };
    push_new(alloc, found, search)
}

// Puts a new piece at the end of both lists.
fn push_new<N: Scalar>(alloc: Global, found: Found<N>, search: &mut Search<N>) -> Result<(), Halt>
    ensures known { IsHaltedByMemory result (done (search.old.known.items ++ found.piece ∷ [])) (λ _. search.new.known.items) }
    ensures found { OnOk result (search.new.found.items ≡ search.old.found.items ++ found ∷ []) }
{
    let copy = found.piece.copy(alloc)?;
    search.known.push(copy)?;
    search.found.push(found)?;
    Ok(())
}
