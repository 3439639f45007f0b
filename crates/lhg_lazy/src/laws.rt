// What callers may rest on: what the calculus of the rim holds, and what candidates of a controller have in common.
ghost use Rattle.lhg_plant.specs.Controller.{PlainController};
ghost use Rattle.lhg_plant.specs.Plant.{PlainPlant};
ghost use Rattle.lhg_lazy.specs.RimLaws.{AwayLaw, RimLaw, CutLaw, CandidateLaws};
ghost use Rattle.lhg_lazy.specs.WorkedRims.{RimRows};

/// The states outside a region and its rim are exact, and so are the guards that are cut to it.
pub fn law_rim()
    ensures away { (a : PlainPlant) → AwayLaw a }
    ensures rim { (a : PlainPlant) → RimLaw a }
    ensures cut { (a : PlainPlant) → CutLaw a }
{}

/// Guards that are cut to the rim make a candidate, whose guards lie in those of the controller; candidates are valid together.
pub fn law_candidates()
    ensures { (a : PlainPlant) (c : PlainController) → CandidateLaws a c }
{}

/// Known rims, by computation.
pub fn law_worked_rims()
    ensures { RimRows }
{}
