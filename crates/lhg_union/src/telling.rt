// What is known of each piece of lists by its type.
ghost use Rattle.lhg_math.specs.Tests.{AllOf};
ghost use Rattle.lhg_union.specs.PolyLists.{ArePolys};

use lhg_num::Scalar;
use lhg_poly::Poly;

/// A call on a piece tells its invariant. This one tells those of a list, and changes nothing.
pub fn tell_pieces<N: Scalar>(pieces: &[Poly<N>])
    ensures { ArePolys N.arithmetic pieces.now }
{
    for piece in pieces {
        let _ = piece.rows();
    }
}

/// The same of all lists.
pub fn tell_lists<N: Scalar>(lists: &[Vec<Poly<N>>])
    ensures { AllOf (λ ps. ArePolys N.arithmetic ps.items) lists.now }
{
    for pieces in lists {
        tell_pieces(pieces);
    }
}
