// What callers may rest on: the laws of the safety game.
ghost use Rattle.std.specs.Prelude.{ℕ, List};
ghost use Rattle.lhg_num.specs.Arithmetic.{Arithmetic};
ghost use Rattle.lhg_plant.specs.Plant.{PlainPlant};
ghost use Rattle.lhg_plant.specs.State.{PlainState};
ghost use Rattle.lhg_plant.specs.Escape.{HasEscape, IsSecure};
ghost use Rattle.lhg_plant.specs.Round.{InRound};
ghost use Rattle.lhg_plant.specs.Still.{IsStill, HasNoSwitch};
ghost use Rattle.lhg_plant.specs.Region.{PlainRegion};
ghost use Rattle.lhg_plant.specs.Controller.{PlainController};
ghost use Rattle.lhg_plant.specs.Loss.{PlainLoss};
ghost use Rattle.lhg_plant.specs.Example.{WordFacts, ThermostatFacts, TankFacts};
ghost use Rattle.lhg_plant.specs.PickExample.{LiftFacts};
ghost use Rattle.lhg_plant.specs.Choice.{Choice};
ghost use Rattle.lhg_plant.specs.Inside.{IsRegionInside};
ghost use Rattle.lhg_plant.specs.Proper.{IsProper};
ghost use Rattle.lhg_plant.specs.SafeRegion.{safe_region};
ghost use Rattle.lhg_plant.specs.Laws.{MemberLaws, LegalLaws, MonotoneLaws, RoundLaws, ValidLaws, PicksLaw, RunLaws, LossLaws, SolvedLaw, StillLaws, SafeRegionLaw, WordLaws};
ghost use Rattle.lhg_plant.specs.SwitchLaws.{PreLaw, OutLaw, BackLaw, KeepLaw, GuardLaw};
ghost use Rattle.lhg_plant.specs.WorkedSwitches.{SwitchRows};

use crate::sets::StateSet;

/// Whether a point is a state, is safe, or is in a region or a guard is decidable.
pub fn law_members()
    ensures { (a : PlainPlant) → MemberLaws a }
{}

/// The truth that is formed of a state, a flow or a switch is whether it is legal.
pub fn law_legal()
    ensures { (n : Arithmetic) (a : PlainPlant) → LegalLaws n a }
{}

/// Out shrinks and Back grows when the set grows.
pub fn law_monotone<T: StateSet, U: StateSet>(small: &T, large: &U)
    ensures { (a : PlainPlant) → ((s : PlainState) → T.belongs small.now a s → U.belongs large.now a s) → MonotoneLaws a (T.belongs small.now a) (U.belongs large.now a) }
{
    let _ = small;
    let _ = large;
}

/// Rounds shrink, remove each state once, and settle in a secure set.
pub fn law_rounds()
    ensures { (a : PlainPlant) → RoundLaws a }
{}

/// Every secure set lies in every round.
pub fn law_secure_sets<T: StateSet>(set: &T)
    ensures { (a : PlainPlant) → IsSecure a (T.belongs set.now a) → (i : ℕ) (s : PlainState) → T.belongs set.now a s → InRound a i s }
{
    let _ = set;
}

/// A secure region with the guards from its Back is a valid controller.
pub fn law_valid()
    ensures { (a : PlainPlant) (c : PlainController) → ValidLaws a c }
{}

/// What the calculus picks at a switch of side `pick` is a legal result in the region, where there is one.
pub fn law_picks()
    ensures { (a : PlainPlant) (region : PlainRegion) → PicksLaw a region }
{}

/// A valid controller has exactly one run over each legal log, and all its visited states are in the region, whatever legal results it chooses.
pub fn law_run()
    ensures { (choice : Choice) (a : PlainPlant) (c : PlainController) → RunLaws choice a c }
{}

/// Sound loss records are true.
pub fn law_losses()
    ensures { (a : PlainPlant) (losses : List PlainLoss) (loss : PlainLoss) → LossLaws a losses loss }
{}

/// The round before the last one solves the game.
pub fn law_solved()
    ensures { SolvedLaw }
{}

/// What holds of a plant in which no flow moves a variable, over any number of variables.
pub fn law_still()
    ensures { (a : PlainPlant) → StillLaws a }
{}

/// In a plant in which nothing moves no set of states has an escape, past any other set.
pub fn law_still_sets<T: StateSet, U: StateSet>(set: &T, past: &U)
    ensures { (a : PlainPlant) → IsStill a → HasNoSwitch a → (s : PlainState) → T.belongs set.now a s → ¬ HasEscape a (T.belongs set.now a) (U.belongs past.now a) s }
{
    let _ = set;
    let _ = past;
}

/// The safe region of the calculus holds exactly the safe states, and lies inside the invariants.
pub fn law_safe_region()
    ensures states { (a : PlainPlant) → SafeRegionLaw a }
    ensures inside { (a : PlainPlant) → IsProper a → IsRegionInside a (safe_region a).value }
{}

/// Whether bytes are a name is decidable.
pub fn law_words()
    ensures { WordLaws }
{}

/// What the definitions say of a few names, of a thermostat, of a tank in which nothing moves, and of a lift whose result the controller picks.
pub fn law_example()
    ensures words { WordFacts }
    ensures thermostat { ThermostatFacts }
    ensures tank { TankFacts }
    ensures lift { LiftFacts }
{}

/// What `pre` of the calculus gives are exactly the states with a legal result in the target.
pub fn law_pre()
    ensures { (a : PlainPlant) → PreLaw a }
{}

/// What `out` of the calculus gives are exactly the states of Out.
pub fn law_out()
    ensures { (a : PlainPlant) → OutLaw a }
{}

/// What `back` of the calculus gives are exactly the states that the controller can keep, switch by switch, joined in a location, and as guards.
pub fn law_back()
    ensures back { (a : PlainPlant) → BackLaw a }
    ensures joined { (a : PlainPlant) → KeepLaw a }
    ensures guards { (a : PlainPlant) → GuardLaw a }
{}

/// What the sets of switches give in a known plant.
pub fn law_worked_switches()
    ensures { SwitchRows }
{}
