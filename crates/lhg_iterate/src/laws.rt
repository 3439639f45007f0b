// What callers may rest on: no secure set holds more than the region that is solved, and the answers about one state exclude each other.
ghost use Rattle.std.specs.Prelude.{◌≤◌, ℕ};
ghost use Rattle.lhg_plant.specs.Escape.{IsSecure};
ghost use Rattle.lhg_plant.specs.Plant.{PlainPlant};
ghost use Rattle.lhg_plant.specs.Region.{InRegion};
ghost use Rattle.lhg_plant.specs.State.{PlainState};
ghost use Rattle.lhg_plant.specs.Views.{plain_plant};
ghost use Rattle.lhg_union.specs.Regions.{plain_region};
ghost use Rattle.lhg_iterate.specs.Outcomes.{IsSolvedBy};
ghost use Rattle.lhg_iterate.specs.SeekLaws.{SoughtLaws};

use crate::solving::Solved;
use lhg_loss::laws::law_largest as law_region_largest;
use lhg_plant::{Plant, StateSet};

/// The region that solves a game holds every state of a secure set, given in any way, with numbers of any size.
pub fn law_largest<T: StateSet>(plant: &Plant, solved: &Solved, set: &T)
    requires solved { (budget : ℕ) × IsSolvedBy (plain_plant plant.now) budget solved.now }
    requires secure { IsSecure (plain_plant plant.now) (T.belongs set.now (plain_plant plant.now)) }
    ensures { (s : PlainState) → T.belongs set.now (plain_plant plant.now) s → InRegion (plain_plant plant.now) (plain_region solved.now.region.pieces.items) s }
{
    law_region_largest(set);
    let _ = plant;
    let _ = solved;
}

/// A state that is kept, lost, or in the last round of a spent budget is safe, and is only one of the three.
pub fn law_sought()
    ensures { (a : PlainPlant) (budget : ℕ) (z : PlainState) → SoughtLaws a budget z }
{}
