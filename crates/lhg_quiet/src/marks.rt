// Which locations are quiet in the next round.
ghost use Rattle.std.specs.Prelude.{◌≡◌, ◌<◌, ℕ, true, false, length, get_or, IfOk};
ghost use Rattle.lhg_plant.specs.Region.{PlainRegion};
ghost use Rattle.lhg_plant.specs.Views.{plain_plant};
ghost use Rattle.lhg_quiet.specs.Quiet.{AreQuiet, AreChanges, IsUnmarked};

use crate::laws::law_changes;
use lhg_plant::{Plant, Switch};
use std::alloc::{AllocError, Global};

/// A mark for each location, of which none is set.
pub fn none_quiet(alloc: Global, plant: &Plant) -> Result<Vec<bool>, AllocError>
    ensures { (region : PlainRegion) → IfOk result (λ v. AreQuiet (plain_plant plant.now) region v.items) }
{
    let mut marks = Vec::with_capacity(alloc, plant.locs.len())?;
    for l in 0..plant.locs.len() {
        let _ = l;
        marks.push(false)?;
    }
    Ok(marks)
}

/// The locations that are quiet after a round with these changes: those that have not changed, and none of whose switches leads to one that has.
pub fn quiet_after(alloc: Global, plant: &Plant, changed: &[bool]) -> Result<Vec<bool>, AllocError>
    requires { length changed.now ≡ length plant.now.locs.items }
    ensures { (region next : PlainRegion) → AreChanges (plain_plant plant.now) region next changed.now → IfOk result (λ v. AreQuiet (plain_plant plant.now) next v.items) }
{
    law_changes();
    let mut marks = Vec::with_capacity(alloc, plant.locs.len())?;
    for l in 0..plant.locs.len() {
        let mark = is_unmarked(plant, changed, l);
        marks.push(mark)?;
    }
    Ok(marks)
}

// Whether neither the location nor a target of one of its switches is marked.
fn is_unmarked(plant: &Plant, changed: &[bool], loc: usize) -> bool
    requires many { length changed.now ≡ length plant.now.locs.items }
    requires there { loc < length plant.now.locs.items }
    ensures { result ≡ true → IsUnmarked (plain_plant plant.now) changed.now loc }
{
    if changed[loc] {
        return false;
    }
    for e in 0..plant.switches.len() {
        let clear = is_clear(&plant.switches[e], changed, loc);
        if !clear {
            return false;
        }
    }
    true
}

// Whether the switch leaves another location, or its target is not marked.
fn is_clear(switch: &Switch, changed: &[bool], loc: usize) -> bool
    requires { switch.now.to < length changed.now }
    ensures { result ≡ true → switch.now.from ≡ loc → get_or changed.now switch.now.to true ≡ false }
{
    if switch.from as usize != loc {
        return true;
    }
    !changed[switch.to as usize]
}
