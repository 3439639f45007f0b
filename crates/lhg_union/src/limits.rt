// The limits of a list of pieces.
ghost use Rattle.std.specs.Prelude.{◌≡◌, ◌++◌, ◌∷◌, [], not, nat_lt, OnOk};
ghost use Rattle.lhg_num.specs.Halting.{IsHaltedByPieces};
ghost use Rattle.lhg_row.specs.Lists as calculus;
ghost use Rattle.lhg_union.specs.PolyLists.{lines_of};

use lhg_num::{Halt, Scalar};
use lhg_poly::Poly;

/// How many pieces a list may have.
pub const PIECE_LIMIT: usize = 4096;

/// How many rows the pieces of a list may have in all.
pub const LIST_ROW_LIMIT: usize = 16384;

/// Whether the list is within its limits.
pub fn is_within<N: Scalar>(pieces: &[Poly<N>]) -> bool
    ensures { result ≡ not (calculus.is_past_list (lines_of pieces.now)) }
{
    pieces.len() <= PIECE_LIMIT && has_rows_within(pieces, LIST_ROW_LIMIT)
}

/// Whether the list is within its limits with one piece more.
pub(crate) fn has_room<N: Scalar>(pieces: &[Poly<N>], piece: &Poly<N>) -> bool
    ensures { result ≡ not (calculus.is_past_list (lines_of pieces.now ++ piece.now.lines ∷ [])) }
{
    let rows = piece.rows().len();
    if pieces.len() >= PIECE_LIMIT {
        return false;
    }
    if rows > LIST_ROW_LIMIT {
        return false;
    }
    has_rows_within(pieces, LIST_ROW_LIMIT - rows)
}

/// Puts more pieces at the end of the list. Where the list is then past its limits, `Pieces` is the answer.
pub fn gather<N: Scalar>(out: &mut Vec<Poly<N>>, mut more: Vec<Poly<N>>) -> Result<(), Halt>
    ensures limit { IsHaltedByPieces result (calculus.counted_pieces (lines_of (out.old.items ++ more.items))) (λ _. lines_of out.new.items) }
    ensures items { OnOk result (out.new.items ≡ out.old.items ++ more.items) }
{
    out.append(&mut more)?;
    if is_within(out) {
        Ok(())
    } else {
        Err(Halt::Pieces)
    }
}

// Whether the pieces have at most so many rows in all.
fn has_rows_within<N: Scalar>(pieces: &[Poly<N>], most: usize) -> bool
    ensures { result ≡ not (nat_lt most (calculus.row_count (lines_of pieces.now))) }
{
    let mut left = most;
    for piece in pieces {
        let rows = piece.rows().len();
        if rows > left {
            return false;
        }
        left -= rows;
    }
    true
}
