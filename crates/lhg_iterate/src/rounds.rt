// The records and the next region of a round, location by location.
ghost use Rattle.std.specs.Prelude.{◌≡◌, ◌*◌, ◌≤◌, ℕ, false, length, get_or, IfOk, OnOk};
ghost use Rattle.lhg_num.specs.Halting.{IsHaltedBy};
ghost use Rattle.lhg_row.specs.Lists.{piece_limit};
ghost use Rattle.lhg_union.specs.Regions.{plain_region};
ghost use Rattle.lhg_plant.specs.Views.{plain_plant};
ghost use Rattle.lhg_jump.specs.OutViews.{plain_outs};
ghost use Rattle.lhg_loss.specs.Records as calculus;
ghost use Rattle.lhg_loss.specs.RoundFacts.{HasReached};
ghost use Rattle.lhg_loss.specs.Views.{AllHaveVars};
ghost use Rattle.lhg_quiet.specs.Quiet.{outs_from, backs_from, HasSetsAt, AreQuiet, AreChanges};
ghost use Rattle.lhg_iterate.specs.RoundViews.{plain_round, IsOverPlant, AreRoundLists};

use crate::passing::step_place;
use crate::records::Site;
use lhg_jump::Outs;
use lhg_loss::Loss;
use lhg_num::{Frac, Halt};
use lhg_plant::Plant;
use lhg_poly::Poly;
use lhg_quiet::laws::law_changes;
use lhg_union::Region;
use std::alloc::Global;

/// The records of a round, and the region after it.
#[derive(Drop)]
pub struct Round {
    pub losses: Vec<Loss>,
    pub next: Region<Frac>,
}

/// A round, with a mark for each location that it may have changed.
#[derive(Drop)]
pub(crate) struct Passed {
    pub(crate) round: Round,
    pub(crate) changed: Vec<bool>,
}

/// All locations in order, where the states outside the region, the hits and the states of each switch back are given for those that are not quiet.
pub(crate) fn over_places(
    alloc: Global,
    plant: &Plant,
    region: &Region<Frac>,
    outs: &Outs,
    backs: &[Vec<Poly<Frac>>],
    quiet: &[bool],
    number: u32,
    first: u32,
) -> Result<Passed, Halt>
    requires lists { AreRoundLists plant.now region.now.pieces.items outs.now backs.now }
    requires sets { (l : ℕ) → get_or quiet.now l false ≡ false → HasSetsAt (plain_plant plant.now) (plain_region region.now.pieces.items) l (plain_outs outs.now) (plain_region backs.now) }
    requires quiet { AreQuiet (plain_plant plant.now) (plain_region region.now.pieces.items) quiet.now }
    requires first { first ≤ 16385 }
    ensures calculus { IsHaltedBy result (calculus.round_over (plain_plant plant.now) (plain_region region.now.pieces.items) (outs_from (plain_plant plant.now) (plain_region region.now.pieces.items)) (backs_from (plain_plant plant.now) (plain_region region.now.pieces.items)) number first) (λ d. plain_round d.round) }
    ensures reached { OnOk result (HasReached (plain_plant plant.now) (plain_region region.now.pieces.items)) }
    ensures changes { IfOk result (λ d. AreChanges (plain_plant plant.now) (plain_region region.now.pieces.items) (plain_region d.round.next.pieces.items) d.changed.items) }
    ensures marks { IfOk result (λ d. length d.changed.items ≡ length plant.now.locs.items) }
    ensures many { IfOk result (λ d. length d.round.next.pieces.items ≡ length plant.now.locs.items) }
    ensures vars { IfOk result (λ d. IsOverPlant plant.now d.round.next.pieces.items) }
    ensures losses_vars { IfOk result (λ d. AllHaveVars (length plant.now.vars.items) d.round.losses.items) }
    ensures few { IfOk result (λ d. length d.round.losses.items ≤ 64 * piece_limit) }
{
    law_changes();
    let mut so_far = Round {
        losses: Vec::new(alloc),
        next: Region {
            pieces: Vec::with_capacity(alloc, plant.locs.len())?,
        },
    };
    let mut changed = Vec::with_capacity(alloc, plant.locs.len())?;
    for l in 0..plant.locs.len() {
        let site = Site {
            round: number,
            loc: l as u32,
            first,
        };
        let mark = step_place(
            alloc,
            plant,
            region,
            outs,
            backs,
            quiet[l],
            site,
            &mut so_far,
        )?;
        changed.push(mark)?;
    }
    Ok(Passed {
        round: so_far,
        changed,
    })
}
