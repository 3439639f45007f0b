// Regions: a list of pieces for each location.
ghost use Rattle.std.specs.Prelude.{◌≡◌, ◌↔◌, ◌<◌, ◌++◌, ◌∷◌, [], true, length, set, IfOk, OnOk, OnErr};
ghost use Rattle.lhg_num.specs.Marked.{done};
ghost use Rattle.lhg_num.specs.Halting.{IsHaltedByMemory, IsHaltedByPieces, IsWideBy};
ghost use Rattle.lhg_row.specs.Piece.{in_some};
ghost use Rattle.lhg_row.specs.Lists.{is_past_list, counted_pieces};
ghost use Rattle.lhg_row.specs.Truths as calculus;
ghost use Rattle.lhg_union.specs.PolyLists.{lines_of, AllVars};
ghost use Rattle.lhg_union.specs.Regions.{polys_of, polys_at};

use crate::differences::copies;
use crate::limits::has_room;
use lhg_num::{Halt, Scalar, Wide};
use lhg_poly::Poly;
use lhg_row::Point;
use std::alloc::Global;

/// A list of pieces for each location, in the plant's order.
#[derive(Drop)]
pub struct Region<N: Scalar> {
    pub pieces: Vec<Vec<Poly<N>>>,
}

impl<N: Scalar> Region<N> {
    /// A copy. It halts for `Memory` alone.
    pub fn copy(&self, alloc: Global) -> Result<Region<N>, Halt>
        ensures { IsHaltedByMemory result (done (polys_of self.now.pieces.items)) (λ r. polys_of r.pieces.items) }
    {
        let mut pieces = Vec::with_capacity(alloc, self.pieces.len())?;
        for list in &self.pieces {
            let copy = copies(alloc, list)?;
            pieces.push(copy)?;
        }
        Ok(Region { pieces })
    }

    /// Whether the point is in some piece of the location, which is one of the region's. It answers `Wide` only where whether a row of one of these pieces
    /// holds at the point is so answered.
    pub fn contains(&self, loc: u32, point: &Point<N>) -> Result<bool, Wide>
        requires there { loc < length self.now.pieces.items }
        requires same { AllVars (length point.now) (polys_at self.now.pieces.items loc) }
        ensures calculus { IsWideBy result (calculus.some_truth N.arithmetic (lines_of (polys_at self.now.pieces.items loc)) point.now) (λ b. b) }
        ensures exact { IfOk result (λ b. b ≡ in_some (lines_of (polys_at self.now.pieces.items loc)) point.now) }
    {
        some_has(&self.pieces[loc as usize], point)
    }

    /// Puts the piece at the end of the list of the location, which is one of the region's. It answers `Pieces` exactly where that list would be past its limits.
    /// After a refusal the region is as before, and the piece is dropped.
    pub fn add(&mut self, loc: u32, piece: Poly<N>) -> Result<(), Halt>
        requires { loc < length self.old.pieces.items }
        ensures calculus { IsHaltedByPieces result (counted_pieces (lines_of (polys_at self.old.pieces.items loc ++ piece ∷ []))) (λ _. lines_of (polys_at self.new.pieces.items loc)) }
        ensures full { (result ≡ Err Halt.Pieces) ↔ (is_past_list (lines_of (polys_at self.old.pieces.items loc ++ piece ∷ [])) ≡ true) }
        ensures ok { OnOk result (polys_of self.new.pieces.items ≡ set (polys_of self.old.pieces.items) loc (polys_at self.old.pieces.items loc ++ piece ∷ [])) }
        ensures err { OnErr result (polys_of self.new.pieces.items ≡ polys_of self.old.pieces.items) }
    {
        let list = &mut self.pieces[loc as usize];
        if !has_room(list, &piece) {
            return Err(Halt::Pieces);
        }
        list.push(piece)?;
        Ok(())
    }
}

// Whether the point is in some piece of the list.
fn some_has<N: Scalar>(pieces: &[Poly<N>], point: &Point<N>) -> Result<bool, Wide>
    requires { AllVars (length point.now) pieces.now }
    ensures { IsWideBy result (calculus.some_truth N.arithmetic (lines_of pieces.now) point.now) (λ b. b) }
{
    for piece in pieces {
        let here = piece.has(point)?;
        if here {
            return Ok(true);
        }
    }
    Ok(false)
}
