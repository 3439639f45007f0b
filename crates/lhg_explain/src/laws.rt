// What callers may rest on: sound records explain each state that they hold, and the first record that holds a state is one that does.
ghost use Rattle.std.specs.Prelude.{ℕ, List, Some};
ghost use Rattle.lhg_plant.specs.Loss.{PlainLoss};
ghost use Rattle.lhg_plant.specs.Plant.{PlainPlant};
ghost use Rattle.lhg_plant.specs.Proper.{IsProper};
ghost use Rattle.lhg_plant.specs.State.{PlainState, IsState};
ghost use Rattle.lhg_loss.specs.Holding.{IsFirstHolding};
ghost use Rattle.lhg_loss.specs.ExplainFacts.{IsHeldBy, ExplainLaw};

/// What the calculus explains of a state that a sound record holds is an escape from it.
pub fn law_explain()
    ensures { (a : PlainPlant) → IsProper a → (losses : List PlainLoss) → ExplainLaw a losses }
{}

/// The first record that holds a state is one that holds it.
pub fn law_first_held()
    ensures { (a : PlainPlant) (s : PlainState) (losses : List PlainLoss) (m : ℕ) → IsState a s → IsFirstHolding s losses (Some m) → IsHeldBy a losses m s }
{}
