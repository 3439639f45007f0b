// What callers may rest on: a text has one value or one first bad line, and a controller keeps the states that were read.
ghost use Rattle.lhg_plant.specs.Plant.{PlainPlant};
ghost use Rattle.lhg_read.specs.TextLaws.{HasOneReading, HasBlankEnd};
ghost use Rattle.lhg_ctl.specs.ControllerGrammar.{IsControllerText, IsSomeControllerText};
ghost use Rattle.lhg_ctl.specs.LogText.{IsLogText, IsSomeLogText};
ghost use Rattle.lhg_ctl.specs.MakingLaws.{MakingLaws};

/// A text is one controller of a plant at most; where it is none, one line is the first that cannot stand. Only blank lines may
/// follow it.
pub fn law_controllers()
    ensures reading { (p : PlainPlant) → HasOneReading (IsControllerText p) (IsSomeControllerText p) }
    ensures end { (p : PlainPlant) → HasBlankEnd (IsControllerText p) }
{}

/// A text is one log of a plant at most; where it is none, one line is the first that cannot stand. Only blank lines may follow it.
pub fn law_logs()
    ensures reading { (p : PlainPlant) → HasOneReading (IsLogText p) (IsSomeLogText p) }
    ensures end { (p : PlainPlant) → HasBlankEnd (IsLogText p) }
{}

/// The controller that is made of a controller's text keeps exactly the states of its pieces and guards, inside the invariants.
pub fn law_making()
    ensures { MakingLaws }
{}
