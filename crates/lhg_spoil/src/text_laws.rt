// What callers may rest on: a text of moves has one value or one first bad line.
ghost use Rattle.lhg_plant.specs.Plant.{PlainPlant};
ghost use Rattle.lhg_read.specs.TextLaws.{HasOneReading, HasBlankEnd};
ghost use Rattle.lhg_spoil.specs.MovesText.{IsMovesText, IsSomeMovesText};

/// A text is one list of moves against a plant at most; where it is none, one line is the first that cannot stand. Only blank lines may
/// follow it.
pub fn law_moves()
    ensures reading { (p : PlainPlant) → HasOneReading (IsMovesText p) (IsSomeMovesText p) }
    ensures end { (p : PlainPlant) → HasBlankEnd (IsMovesText p) }
{}
