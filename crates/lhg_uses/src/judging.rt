// Is a controller that was built from rows valid?
ghost use Rattle.std.specs.Prelude.{length, IfOk};
ghost use Rattle.lhg_num.specs.Halting.{IsHaltedBy};
ghost use Rattle.lhg_plant.specs.Views.{plain_plant};
ghost use Rattle.lhg_ctl.specs.Conditions.{IsControllerOf, IsInsideController};
ghost use Rattle.lhg_ctl.specs.DraftStates.{IsDraft};
ghost use Rattle.lhg_ctl.specs.Views.{plain_controller};
ghost use Rattle.lhg_check.specs.CheckLaws.{IsExactVerdict};
ghost use Rattle.lhg_check.specs.Views.{plain_verdict};
ghost use Rattle.lhg_uses.specs.Judgement.{draft_of, tried, HoldsWhere};

use lhg_check::{Verdict, check};
use lhg_ctl::{Controller, Draft, controller_of};
use lhg_num::{Frac, Halt};
use lhg_plant::Plant;
use lhg_row::Row;
use std::alloc::Global;

/// A controller with what its check found.
#[derive(Drop)]
pub struct Judged {
    pub controller: Controller,
    pub verdict: Verdict,
}

/// The controller whose region holds the states of each location at which all rows of one of its pieces hold, and whose guards hold those at
/// which all rows of one of the switch's guards do, with the verdict on it: `Valid` exactly where it is valid, and else the first part of
/// validity that fails, with a state that shows it. What it gives may be handed to `advise`.
///
/// The places are those of the plant's locations and switches, each row has one coefficient per variable, and no guard is of an uncontrollable
/// switch. Many pieces may have one place. It halts only for a limit that the making of the controller or its check passes, and for `Memory`.
pub fn judge(
    alloc: Global,
    plant: &Plant,
    pieces: Vec<(u32, Vec<Row<Frac>>)>,
    guards: Vec<(u32, Vec<Row<Frac>>)>,
) -> Result<Judged, Halt>
    requires { IsDraft (plain_plant plant.now) (draft_of pieces.items guards.items) }
    ensures holds { IfOk result (λ j. HoldsWhere (plain_plant plant.now) (draft_of pieces.items guards.items) (plain_controller j.controller)) }
    ensures verdict { IfOk result (λ j. IsExactVerdict (plain_plant plant.now) (plain_controller j.controller) (plain_verdict j.verdict)) }
    // it can be advised by, checked again and run
    ensures controller { IfOk result (λ j. IsControllerOf (plain_plant plant.now) j.controller) }
    ensures inside { IfOk result (λ j. IsInsideController (plain_plant plant.now) (plain_controller j.controller)) }
    ensures halt { IsHaltedBy result (tried (plain_plant plant.now) (draft_of pieces.items guards.items)) (λ j. plain_verdict j.verdict) }
{
    let draft = Draft {
        pieces,
        guards,
        rounds: 0,
        names: Vec::new(alloc),
    };
    let controller = controller_of(alloc, plant, &draft)?;
    let verdict = check(alloc, plant, &controller)?;
    Ok(Judged {
        controller,
        verdict,
    })
}
