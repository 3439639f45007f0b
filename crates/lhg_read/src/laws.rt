// What callers may rest on: a text has one value or one first bad line, and a plant's text ends.
ghost use Rattle.lhg_plant.specs.Plant.{PlainPlant};
ghost use Rattle.lhg_read.specs.PlantText.{IsPlantText, IsSomePlantText};
ghost use Rattle.lhg_read.specs.StateText.{IsStateLines, IsSomeState};
ghost use Rattle.lhg_read.specs.TextLaws.{HasOneReading, HasBlankEnd};
ghost use Rattle.lhg_read.specs.TokenText.{IsTextBy};

/// A text is one plant at most, and one state of a plant at most; where it is none, one line is the first that cannot stand.
pub fn law_texts()
    ensures plants { HasOneReading IsPlantText IsSomePlantText }
    ensures states { (p : PlainPlant) → HasOneReading (IsStateLines p) (IsTextBy (IsSomeState p)) }
{}

/// Only blank lines may follow the text of a plant.
pub fn law_plants()
    ensures { HasBlankEnd IsPlantText }
{}
