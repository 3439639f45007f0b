// Whether a controller is valid.
ghost use Rattle.std.specs.Prelude.{IfOk};
ghost use Rattle.lhg_num.specs.Halting.{IsHaltedBy};
ghost use Rattle.lhg_plant.specs.Views.{plain_plant};
ghost use Rattle.lhg_ctl.specs.Conditions.{IsControllerOf, IsInsideInvariants};
ghost use Rattle.lhg_ctl.specs.Views.{plain_controller};
ghost use Rattle.lhg_check.specs.Check as calculus;
ghost use Rattle.lhg_check.specs.CheckLaws.{IsExactVerdict};
ghost use Rattle.lhg_check.specs.Views.{plain_verdict};

use crate::escaping::first_lost;
use crate::firsts::sample_in;
use crate::guarding::first_broken;
use crate::safety::first_unsafe;
use crate::verdicts::Verdict;
use lhg_ctl::Controller;
use lhg_jump::{invariants, out_with};
use lhg_num::Halt;
use lhg_plant::Plant;
use lhg_union::tell_lists;
use std::alloc::Global;

/// Whether the controller, whose pieces and guard pieces lie inside the invariants of their locations, is valid; else the first part of
/// validity that fails, with a state that breaks it. Each answer comes exactly where it says. The parts are decided one after the other,
/// and nothing is formed of those after the first that fails.
/// It halts for `Wide` only where fractions refuse an operation of the calculus of this call, for `Rows` and `Pieces` only where it has a
/// list past `ROW_LIMIT`, `PIECE_LIMIT` or `LIST_ROW_LIMIT`, and for `Memory`.
pub fn check(alloc: Global, plant: &Plant, controller: &Controller) -> Result<Verdict, Halt>
    requires controller { IsControllerOf (plain_plant plant.now) controller.now }
    requires inside { IsInsideInvariants (plain_plant plant.now) (plain_controller controller.now) }
    ensures calculus { IsHaltedBy result (calculus.check (plain_plant plant.now) (plain_controller controller.now)) plain_verdict }
    ensures exact { IfOk result (λ v. IsExactVerdict (plain_plant plant.now) (plain_controller controller.now) (plain_verdict v)) }
{
    tell_lists(&controller.region.pieces);
    tell_lists(&controller.guards);
    let bad = first_unsafe(alloc, plant, &controller.region)?;
    if let Some(first) = bad {
        let state = sample_in(alloc, first.place, &first.piece)?;
        return Ok(Verdict::Unsafe(state));
    }
    let invs = invariants(alloc, plant)?;
    let outs = out_with(alloc, plant, &invs, &controller.region)?;
    let broken = first_broken(alloc, plant, controller, &invs, &outs.away)?;
    if let Some(first) = broken {
        let from = plant.switches[first.place as usize].from;
        let state = sample_in(alloc, from, &first.piece)?;
        return Ok(Verdict::BadGuard {
            switch: first.place,
            state,
        });
    }
    let lost = first_lost(alloc, plant, controller, &outs)?;
    if let Some(first) = lost {
        let state = sample_in(alloc, first.place, &first.piece)?;
        return Ok(Verdict::Escapes(state));
    }
    Ok(Verdict::Valid)
}
