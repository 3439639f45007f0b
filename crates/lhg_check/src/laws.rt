// What callers may rest on: which verdict the check of the calculus gives, and that what is solved passes it.
ghost use Rattle.lhg_plant.specs.Plant.{PlainPlant};
ghost use Rattle.lhg_check.specs.CheckLaws.{CheckLaw, CheckedLaw, SolvedCheckLaws};
ghost use Rattle.lhg_check.specs.WorkedChecks.{CheckRows, ThermostatValid};

/// The check gives the verdict of the first part of validity that fails, with a state that breaks it.
pub fn law_check()
    ensures { (a : PlainPlant) → CheckLaw a }
{}

/// The same within the limits of lists of pieces.
pub fn law_checked()
    ensures { (a : PlainPlant) → CheckedLaw a }
{}

/// What the iteration gives passes the check.
pub fn law_solved_check()
    ensures { (a : PlainPlant) → SolvedCheckLaws a }
{}

/// Known controllers, by computation.
pub fn law_worked_checks()
    ensures rows { CheckRows }
    ensures valid { ThermostatValid }
{}
