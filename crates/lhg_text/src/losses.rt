// Prints loss records.
ghost use Rattle.std.specs.Prelude.{◌≡◌, ◌<◌, ◌≤◌, ◌++◌, [], ◌∷◌, OnOk, length, map, codes, decimal, slice_get};
ghost use Rattle.std.specs.List.{flat_map};
ghost use Rattle.lhg_math.specs.Tests.{AllOf};
ghost use Rattle.lhg_lex.specs.Literal.{limit};
ghost use Rattle.lhg_plant.specs.Views.{plain_plant};
ghost use Rattle.lhg_loss.specs.Views.{plain_cause, plain_loss, plain_losses, AreOver};
ghost use Rattle.lhg_row_text.specs.PrintedLine.{line, location_name};
ghost use Rattle.lhg_text.specs.ReportConditions.{IsPlacedCause, IsPlacedLoss};
ghost use Rattle.lhg_text.specs.ReportLaws.{IsWrittenCause, IsWrittenLoss};
ghost use Rattle.lhg_text.specs.ReportText.{cause_words, loss_line};

use crate::words::{push_whole, push_word};
use lhg_loss::{Cause, Loss};
use lhg_plant::Plant;
use lhg_row_text::push_rows;
use std::alloc::AllocError;

// The words of a cause, each behind a space.
fn push_cause(text: &mut Vec<u8>, plant: &Plant, cause: &Cause) -> Result<(), AllocError>
    requires { IsPlacedCause (plain_plant plant.now) (plain_cause cause.now) }
    ensures text { OnOk result (text.new.items ≡ text.old.items ++ flat_map (λ w. 32 ∷ w) (cause_words (plain_plant plant.now) (plain_cause cause.now))) }
    ensures written { OnOk result (IsWrittenCause (plain_plant plant.now) (plain_cause cause.now)) }
{
    match cause {
        Cause::Env { switch, .. } => {
            push_word(text, b"env")?;
            push_word(text, plant.switches[*switch as usize].name.bytes())
        }
        Cause::Leave { .. } => push_word(text, b"leave"),
        Cause::Flow { to, .. } => {
            push_word(text, b"flow")?;
            push_whole(text, *to)
        }
    }
}

// The words of a record in front of its cause.
fn push_head(text: &mut Vec<u8>, plant: &Plant, loss: &Loss) -> Result<(), AllocError>
    requires { loss.now.loc < length plant.now.locs.items }
    ensures text { OnOk result (text.new.items ≡ text.old.items ++ (codes "loss" ++ flat_map (λ w. 32 ∷ w) (decimal loss.now.number ∷ codes "round" ∷ decimal loss.now.round ∷ location_name (slice_get (plain_plant plant.now).locs loss.now.loc) ∷ []))) }
    ensures number { OnOk result (loss.now.number ≤ limit) }
    ensures round { OnOk result (loss.now.round ≤ limit) }
{
    text.extend_from_slice(b"loss")?;
    push_whole(text, loss.number)?;
    push_word(text, b"round")?;
    push_whole(text, loss.round)?;
    push_word(text, plant.locs[loss.loc as usize].name.bytes())
}

// The line of a record.
fn push_loss(text: &mut Vec<u8>, plant: &Plant, loss: &Loss) -> Result<(), AllocError>
    requires place { IsPlacedLoss (plain_plant plant.now) (plain_loss loss.now) }
    requires vars { loss.now.piece.width ≡ length plant.now.vars.items }
    ensures text { OnOk result (text.new.items ≡ text.old.items ++ line (loss_line (plain_plant plant.now) (plain_loss loss.now))) }
    ensures written { OnOk result (IsWrittenLoss (plain_plant plant.now) (plain_loss loss.now)) }
{
    push_head(text, plant, loss)?;
    push_cause(text, plant, &loss.cause)?;
    text.extend_from_slice(b" ")?;
    push_rows(text, &plant.vars, loss.piece.rows())?;
    text.extend_from_slice(b"\n")
}

/// Appends the lines of the records, in order.
pub(crate) fn push_losses(
    text: &mut Vec<u8>,
    plant: &Plant,
    losses: &[Loss],
) -> Result<(), AllocError>
    requires places { AllOf (IsPlacedLoss (plain_plant plant.now)) (plain_losses losses.now) }
    requires vars { AreOver (length plant.now.vars.items) losses.now }
    ensures text { OnOk result (text.new.items ≡ text.old.items ++ flat_map line (map (loss_line (plain_plant plant.now)) (plain_losses losses.now))) }
    ensures written { OnOk result (AllOf (IsWrittenLoss (plain_plant plant.now)) (plain_losses losses.now)) }
{
    for i in 0..losses.len() {
        push_loss(text, plant, &losses[i])?;
    }
    Ok(())
}
