// What callers may rest on: an input has one value or one first bad line.
ghost use Rattle.lhg_read.specs.TextLaws.{HasOneReading};
ghost use Rattle.lhg_input.specs.Inputs.{IsControllerInput, IsInitInput, IsLogInput, IsSpoilInput, IsStateInput};
ghost use Rattle.lhg_input.specs.Then.{IsSome};

/// An input of each grammar has one value at most; where it is none of the grammar, one line is the first that cannot stand.
pub fn law_inputs()
    ensures controllers { HasOneReading IsControllerInput (IsSome IsControllerInput) }
    ensures logs { HasOneReading IsLogInput (IsSome IsLogInput) }
    ensures states { HasOneReading IsStateInput (IsSome IsStateInput) }
    ensures inits { HasOneReading IsInitInput (IsSome IsInitInput) }
    ensures spoils { HasOneReading IsSpoilInput (IsSome IsSpoilInput) }
{}
