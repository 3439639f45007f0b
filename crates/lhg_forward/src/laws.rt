// Laws of the levels and of their calculus.
ghost use Rattle.lhg_plant.specs.Plant.{PlainPlant};
ghost use Rattle.lhg_plant.specs.Region.{PlainRegion};
ghost use Rattle.std.specs.Prelude.{ℕ};
ghost use Rattle.lhg_read.specs.TextLaws.{HasOneReading, HasBlankEnd};
ghost use Rattle.lhg_forward.specs.InitText.{IsInitText, IsSomeInitText};
ghost use Rattle.lhg_forward.specs.WorkLaws.{StepLaws, WorkLaws};
ghost use Rattle.lhg_forward.specs.Laws.{AfterLaws, GrowthLaw, LevelLaws, StageLaw, ForwardLaw, OutcomeLaws};

/// After a flow and after a switch from a piece are exactly the points to which they lead legally.
pub fn law_after()
    ensures { (a : PlainPlant) → AfterLaws a }
{}

/// The new pieces of a level are all that the newest pieces lead to, and nothing else.
pub fn law_growth()
    ensures { (a : PlainPlant) → GrowthLaw a }
{}

/// Levels grow, hold what is reachable, and stand still after one that adds nothing.
pub fn law_levels()
    ensures { (a : PlainPlant) (init : PlainRegion) → LevelLaws a init }
{}

/// The stages of the calculus are the levels.
pub fn law_stages()
    ensures { (a : PlainPlant) → StageLaw a }
{}

/// Within a budget the iteration ends with the forward reachable states, or with a state that its last level adds.
pub fn law_forward()
    ensures { (a : PlainPlant) → ForwardLaw a }
{}

/// The two ends of the iteration exclude each other.
pub fn law_outcomes()
    ensures { (a : PlainPlant) (init : PlainRegion) (budget : ℕ) → OutcomeLaws a init budget }
{}

/// The loop over the levels, and which marks of its steps are marks of the work of a level.
pub fn law_work()
    ensures steps { (a : PlainPlant) (init : PlainRegion) → StepLaws a init }
    ensures marks { (a : PlainPlant) (init : PlainRegion) (budget i : ℕ) → WorkLaws a init budget i }
{}

/// A text is one list of first states at most; where it is none, one line is the first that cannot stand. Only blank lines may follow it.
pub fn law_inits()
    ensures reading { (p : PlainPlant) → HasOneReading (IsInitText p) (IsSomeInitText p) }
    ensures end { (p : PlainPlant) → HasBlankEnd (IsInitText p) }
{}
