// Forward sets as values.
use lhg_num::Frac;
use lhg_union::Region;

/// The forward reachable states, and the number of the first level that adds nothing.
#[derive(Drop)]
pub struct Forward {
    pub region: Region<Frac>,
    pub rounds: u32,
}
