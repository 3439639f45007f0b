// What moves: segments, flows, plays, check points, crossings and what is reached by them. No code, but laws as contracts.
#![tactic(auto)]

pub mod cross_laws;
pub mod laws;
pub mod reach_laws;
