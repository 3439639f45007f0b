// What callers may rest on: where neither a location nor a target of its switches has changed, a round does there what the round before did.
ghost use Rattle.std.specs.Prelude.{ℕ};
ghost use Rattle.lhg_plant.specs.Plant.{PlainPlant, PlainLocation};
ghost use Rattle.lhg_plant.specs.Region.{PlainRegion};
ghost use Rattle.lhg_quiet.specs.Masked.{MaskedLaw};
ghost use Rattle.lhg_quiet.specs.QuietLaws.{QuietLaws, PlaceLaws, ChangeLaws};

/// A location that lost nothing loses nothing again, unless it or a target of one of its switches has changed.
pub fn law_quiet()
    ensures { (a : PlainPlant) → QuietLaws a }
{}

/// What one location of a round rests on, and that it is quiet where it makes no record.
pub fn law_place()
    ensures { (a : PlainPlant) (region : PlainRegion) (l : ℕ) (place : PlainLocation) → PlaceLaws a region l place }
{}

/// Which locations are quiet in the next round.
pub fn law_changes()
    ensures { (a : PlainPlant) (region : PlainRegion) → ChangeLaws a region }
{}

/// The sets of switches that are formed for the locations that are not marked are those of the region there.
pub fn law_masked()
    ensures { (a : PlainPlant) → MaskedLaw a }
{}
