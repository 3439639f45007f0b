// Is a controller that is written valid, and which text tells it?
ghost use Rattle.std.specs.Prelude.{◌≡◌, ◌<◌, ◌++◌, IfOk, length};
ghost use Rattle.lhg_num.specs.Halting.{IsHaltedBy};
ghost use Rattle.lhg_plant.specs.Views.{plain_plant, plain_state};
ghost use Rattle.lhg_row_text.specs.PointText.{state_text};
ghost use Rattle.lhg_row_text.specs.PrintedLine.{line};
ghost use Rattle.lhg_ctl.specs.Conditions.{IsControllerOf, IsInsideController};
ghost use Rattle.lhg_ctl.specs.DraftStates.{IsDraft};
ghost use Rattle.lhg_ctl.specs.Views.{plain_controller, plain_draft};
ghost use Rattle.lhg_check.specs.Check.{bad_guard};
ghost use Rattle.lhg_check.specs.CheckLaws.{IsExactVerdict};
ghost use Rattle.lhg_check.specs.Views.{plain_verdict};
ghost use Rattle.lhg_text.specs.TraceText.{IsPlacedState};
ghost use Rattle.lhg_cli.specs.Verdict.{controller_in, check_of, KeepsWritten, verdict_text, status_of, IsPlacedVerdict};

use crate::Status;
use crate::solving::Answer;
use lhg_check::{Verdict, check};
use lhg_ctl::{Controller, Draft, controller_of};
use lhg_num::Halt;
use lhg_plant::{Plant, State};
use lhg_row_text::push_state;
use std::alloc::{AllocError, Global};

/// A controller with its verdict.
#[derive(Drop)]
pub struct Judged {
    pub controller: Controller,
    pub verdict: Verdict,
}

/// The controller of what is written, with its verdict. It halts only where the calculus of its making or of its check does.
pub fn judge(alloc: Global, plant: &Plant, draft: &Draft) -> Result<Judged, Halt>
    requires { IsDraft (plain_plant plant.now) (plain_draft draft.now) }
    ensures calculus { IsHaltedBy result (check_of (plain_plant plant.now, plain_draft draft.now)) (λ j. plain_verdict j.verdict) }
    ensures made { IfOk result (λ j. plain_controller j.controller ≡ controller_in (plain_plant plant.now, plain_draft draft.now)) }
    ensures controller { IfOk result (λ j. IsControllerOf (plain_plant plant.now) j.controller) }
    ensures inside { IfOk result (λ j. IsInsideController (plain_plant plant.now) (plain_controller j.controller)) }
    ensures keeps { IfOk result (λ j. KeepsWritten (plain_plant plant.now) (plain_draft draft.now) (plain_controller j.controller)) }
    ensures exact { IfOk result (λ j. IsExactVerdict (plain_plant plant.now) (plain_controller j.controller) (plain_verdict j.verdict)) }
{
    let controller = controller_of(alloc, plant, draft)?;
    let verdict = check(alloc, plant, &controller)?;
    Ok(Judged {
        controller,
        verdict,
    })
}

// The line of some words and a state.
fn shown(alloc: Global, words: &[u8], plant: &Plant, state: &State) -> Result<Vec<u8>, AllocError>
    requires { IsPlacedState (plain_plant plant.now) (plain_state state.now) }
    ensures { IfOk result (λ v. v.items ≡ line (words.now ++ state_text (plain_plant plant.now) (plain_state state.now))) }
{
    let mut text = words.to_vec(alloc)?;
    push_state(&mut text, plant, state)?;
    text.extend_from_slice(b"\n")?;
    Ok(text)
}

// The line of a guard, by the place of its switch, and a state.
fn bad_guard(alloc: Global, plant: &Plant, place: u32, state: &State) -> Result<Vec<u8>, AllocError>
    requires place { place < length plant.now.switches.items }
    requires state { IsPlacedState (plain_plant plant.now) (plain_state state.now) }
    ensures { IfOk result (λ v. v.items ≡ line (verdict_text (plain_plant plant.now) (bad_guard place (plain_state state.now)))) }
{
    let mut words = Vec::from_slice(alloc, b"bad guard ")?;
    words.extend_from_slice(plant.switches[place as usize].name.bytes())?;
    words.extend_from_slice(b" ")?;
    shown(alloc, &words, plant, state)
}

// The line of a verdict.
fn verdict_line(alloc: Global, plant: &Plant, verdict: &Verdict) -> Result<Vec<u8>, AllocError>
    requires { IsPlacedVerdict (plain_plant plant.now) (plain_verdict verdict.now) }
    ensures { IfOk result (λ v. v.items ≡ line (verdict_text (plain_plant plant.now) (plain_verdict verdict.now))) }
{
    match verdict {
        Verdict::Valid => Vec::from_slice(alloc, b"valid\n"),
        Verdict::Unsafe(state) => shown(alloc, b"unsafe ", plant, state),
        Verdict::BadGuard { switch, state } => bad_guard(alloc, plant, *switch, state),
        Verdict::Escapes(state) => shown(alloc, b"escapes ", plant, state),
    }
}

/// The answer that tells a verdict.
pub fn verdict_answer(alloc: Global, plant: &Plant, verdict: &Verdict) -> Result<Answer, AllocError>
    requires { IsPlacedVerdict (plain_plant plant.now) (plain_verdict verdict.now) }
    ensures status { IfOk result (λ a. a.status ≡ status_of (plain_verdict verdict.now)) }
    ensures text { IfOk result (λ a. a.text.items ≡ line (verdict_text (plain_plant plant.now) (plain_verdict verdict.now))) }
{
    let text = verdict_line(alloc, plant, verdict)?;
    let status = match verdict {
        Verdict::Valid => Status::Done,
        _ => Status::No,
    };
    Ok(Answer { status, text })
}
