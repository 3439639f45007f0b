// What is kept of the near pieces and the ways.

use lhg_num::Scalar;
use lhg_poly::Poly;

/// The closures of the ways, none in the place of one that passes a limit; and for each near piece, and for each way, whether a crossing from the one through the
/// other is tried.
#[derive(Drop)]
pub(crate) struct Kept<N: Scalar> {
    pub(crate) edges: Vec<Option<Poly<N>>>,
    pub(crate) table: Vec<Vec<bool>>,
}
