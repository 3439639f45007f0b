// What callers may rest on.
ghost use Rattle.lhg_prune.specs.Laws.{EnoughLaw, PruningLaw, PieceLaw};

/// Rows that are enough make the piece that all make, and the piece that a system projects to is that of the rows that are chosen of its last elimination.
pub fn law_pruned()
    ensures enough { EnoughLaw }
    ensures pruning { PruningLaw }
    ensures piece { PieceLaw }
{}
