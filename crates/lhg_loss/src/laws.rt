// What callers may rest on: the rounds of the calculus are the rounds of the game, and what the iteration gives solves it.
ghost use Rattle.lhg_plant.specs.Plant.{PlainPlant};
ghost use Rattle.lhg_loss.specs.RoundLaws.{PlaceLaw, RoundLaw};
ghost use Rattle.lhg_loss.specs.WorkedRounds.{RoundRows, RisingSolved};
ghost use Rattle.std.specs.Prelude.{ℕ, List};
ghost use Rattle.lhg_plant.specs.State.{PlainState};
ghost use Rattle.lhg_plant.specs.Escape.{IsSecure};
ghost use Rattle.lhg_plant.specs.Region.{PlainRegion, InRegion};
ghost use Rattle.lhg_plant.specs.Controller.{PlainController};
ghost use Rattle.lhg_plant.specs.Loss.{PlainLoss};
ghost use Rattle.lhg_loss.specs.StageFacts.{IsSolved};
ghost use Rattle.lhg_loss.specs.SeekLaws.{SeekLaw};
ghost use Rattle.lhg_loss.specs.WorkLaws.{StepLaws, WorkLaws};
ghost use Rattle.lhg_loss.specs.SolveLaws.{StageLaws, SolveLaw, LimitLaw, PartsLaw, SolvedLaw, OutcomeLaws, LastLaw};

use lhg_plant::StateSet;

/// What a location loses and keeps in a round.
pub fn law_place()
    ensures { (a : PlainPlant) (region : PlainRegion) → PlaceLaw a region }
{}

/// A round leaves exactly what has no escape, and its records are sound and hold what it takes away.
pub fn law_round()
    ensures { (a : PlainPlant) (region : PlainRegion) → RoundLaw a region }
{}

/// Each stage of the iteration is the round of the game, and the last one solves it.
pub fn law_stages()
    ensures { (a : PlainPlant) → StageLaws a }
{}

/// The solution within a budget solves the game, or each round up to it removes a state.
pub fn law_solve()
    ensures { (a : PlainPlant) → SolveLaw a }
{}

/// Within the limits of lists of pieces the solution of the calculus solves the game.
pub fn law_within_limits()
    ensures { (a : PlainPlant) → LimitLaw a }
{}

/// Known plants, by computation.
pub fn law_worked_rounds()
    ensures rows { RoundRows }
    ensures solved { RisingSolved }
{}

/// What the calculus makes of a plant below its rounds is exact.
pub fn law_parts()
    ensures { (a : PlainPlant) → PartsLaw a }
{}

/// The solution of the calculus solves the game, or each round up to the budget removes a state.
pub fn law_solved_within()
    ensures { (a : PlainPlant) → SolvedLaw a }
{}

/// A budget is spent or the game is solved, not both.
pub fn law_outcomes()
    ensures { (a : PlainPlant) (budget : ℕ) → OutcomeLaws a budget }
{}

/// No round is computed after the last one.
pub fn law_last()
    ensures { (a : PlainPlant) → LastLaw a }
{}

/// The loop over the rounds, and its marks.
pub fn law_work()
    ensures steps { (a : PlainPlant) → StepLaws a }
    ensures marks { (a : PlainPlant) (budget i : ℕ) → WorkLaws a budget i }
{}

/// A state of a round is removed in the next one exactly where a record of that round holds it.
pub fn law_seek()
    ensures { (a : PlainPlant) → SeekLaw a }
{}

/// A solved region holds every secure set, given in any way.
pub fn law_largest<T: StateSet>(set: &T)
    ensures { (a : PlainPlant) (budget : ℕ) (c : PlainController) (rounds : ℕ) (losses : List PlainLoss) → IsSolved a budget c rounds losses → IsSecure a (T.belongs set.now a) → (s : PlainState) → T.belongs set.now a s → InRegion a c.region s }
{
    let _ = set;
}
