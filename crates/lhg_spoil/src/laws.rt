// What callers may rest on: the laws of ranks, fibres and exchanges.
ghost use Rattle.std.specs.Prelude.{ℕ, List};
ghost use Rattle.lhg_plant.specs.Loss.{PlainLoss};
ghost use Rattle.lhg_plant.specs.Plant.{PlainPlant};
ghost use Rattle.lhg_plant.specs.SpoilSteps.{PlainSpoilStep};
ghost use Rattle.lhg_plant.specs.State.{PlainState};
ghost use Rattle.lhg_spoil.specs.Laws.{RankLaws, FibreLaws, LastCaseLaws, ExchangeLaw, WinLaws, OutcomeLaws, DecidedLaw};
ghost use Rattle.lhg_spoil.specs.Moves.{PlainCtlMove};

/// A state has one rank, and lies outside a round exactly where it is not in it.
pub fn law_ranks()
    ensures { (a : PlainPlant) (losses : List PlainLoss) (k j : ℕ) → RankLaws a losses k j }
{}

/// The result of the fibres of a switch is legal and lies outside the round.
pub fn law_fibres()
    ensures { (a : PlainPlant) (losses : List PlainLoss) (k j : ℕ) → FibreLaws a losses k j }
{}

/// Where the plant cannot go first, a switch on an escape has a result outside the round.
pub fn law_last_case()
    ensures { (a : PlainPlant) (losses : List PlainLoss) (k j : ℕ) (p : PlainState) → LastCaseLaws a losses k j p }
{}

/// Each exchange from a rank ends at a lower one.
pub fn law_exchange()
    ensures { (a : PlainPlant) (losses : List PlainLoss) (k : ℕ) → ExchangeLaw a losses k }
{}

/// The plant wins from a lost state, by legal steps and in at most as many exchanges as the rank.
pub fn law_wins()
    ensures { (a : PlainPlant) (losses : List PlainLoss) (k i n : ℕ) (start : PlainState) (moves : List PlainCtlMove) (trace : List PlainSpoilStep) (last : PlainState) → WinLaws a losses k i n start moves trace last }
{}

/// The exchanges of a list of moves have one outcome, or the list has one first illegal move.
pub fn law_outcomes()
    ensures { (a : PlainPlant) (losses : List PlainLoss) (start : PlainState) (moves : List PlainCtlMove) → OutcomeLaws a losses start moves }
{}

/// From a lost state each list of moves is answered to the end, or has a first move that is not legal.
pub fn law_decided()
    ensures { (a : PlainPlant) (losses : List PlainLoss) (k : ℕ) → DecidedLaw a losses k }
{}
