// What exchanges come to, and why there is no answer.
use lhg_plant::State;
use lhg_play::SpoilStep;

/// The steps of all exchanges, the unsafe state at which they end, and how many they are.
#[derive(Drop)]
pub struct Spoiled {
    pub steps: Vec<SpoilStep>,
    pub last: State,
    pub exchanges: u32,
}

/// What stops exchanges. Moves and exchanges are counted from 1.
#[derive(Drop)]
pub enum SpoilStop {
    /// The move with this number is the first that is not legal at its turn; the steps before it.
    Illegal { entry: u32, steps: Vec<SpoilStep> },
    /// A number of the exchange is too large.
    Wide(u32),
    /// A list of rows of the exchange is too long.
    Rows(u32),
    /// A list of pieces of the exchange is past one of its limits.
    Pieces(u32),
    /// Memory is out.
    Memory,
}
