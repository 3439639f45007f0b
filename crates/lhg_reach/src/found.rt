// What is found: pieces with a play into bad ones.

use lhg_num::Scalar;
use lhg_poly::Poly;

/// A found piece. Each of its points has one straight flow, the inner points of which lie in the piece at the place `through` of the bad
/// pieces followed by the near ones, and which ends in the piece at the place `to` of the bad pieces followed by the found ones. `layer` is
/// the number of the layer that found it, counted from 1.
#[derive(Drop)]
pub struct Found<N: Scalar> {
    pub piece: Poly<N>,
    pub through: u32,
    pub to: u32,
    pub layer: u32,
}

/// All found pieces, and how many layers were counted.
#[derive(Drop)]
pub struct Reached<N: Scalar> {
    pub found: Vec<Found<N>>,
    pub layers: u32,
}
