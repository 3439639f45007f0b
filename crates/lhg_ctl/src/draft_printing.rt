// Prints controllers as they are written, with their number of rounds and the names of their guards.
ghost use Rattle.std.specs.Prelude.{◌≡◌, ◌<◌, ◌++◌, OnOk, IfOk, length, map, codes, slice_get};
ghost use Rattle.std.specs.List.{flat_map};
ghost use Rattle.lhg_math.specs.Tests.{AllOf};
ghost use Rattle.lhg_num.specs.Halting.{IsHaltedByMemory};
ghost use Rattle.lhg_num.specs.Marked.{done};
ghost use Rattle.lhg_row.specs.Width.{AllWide};
ghost use Rattle.lhg_lex.specs.Lines.{lines_of};
ghost use Rattle.lhg_plant.specs.Views.{plain_plant};
ghost use Rattle.lhg_plant.specs.Word.{IsName};
ghost use Rattle.lhg_row_text.specs.PrintedLine.{line};
ghost use Rattle.lhg_row_text.specs.Short.{AllShort};
ghost use Rattle.lhg_ctl.specs.ControllerGrammar.{IsControllerText};
ghost use Rattle.lhg_ctl.specs.ControllerText.{piece_line, named_guard_line, named_guard_lines, rounds_text, second_text};
ghost use Rattle.lhg_ctl.specs.DraftStates.{IsPlaced, IsGivenDraft};
ghost use Rattle.lhg_ctl.specs.Views.{plain_placed, plain_draft};

use crate::controllers::Draft;
use crate::printing::push_line;
use itoa::Buffer;
use lhg_num::{Frac, Halt};
use lhg_plant::{Name, Plant};
use lhg_row::Row;
use std::alloc::{AllocError, Global};

// The line of a piece of a location.
fn push_piece(
    text: &mut Vec<u8>,
    plant: &Plant,
    place: u32,
    rows: &[Row<Frac>],
) -> Result<(), AllocError>
    requires place { place < length plant.now.locs.items }
    requires rows { AllWide (length plant.now.vars.items) rows.now }
    ensures text { OnOk result (text.new.items ≡ text.old.items ++ line (piece_line (plain_plant plant.now) (place, rows.now))) }
    ensures short { OnOk result (AllShort rows.now) }
{
    let name = plant.locs[place as usize].name.bytes();
    push_line(text, b"piece", name, &plant.vars, rows)
}

// The line of a guard of a switch, with its name.
fn push_guard(
    text: &mut Vec<u8>,
    plant: &Plant,
    name: &Name,
    place: u32,
    rows: &[Row<Frac>],
) -> Result<(), AllocError>
    requires place { place < length plant.now.switches.items }
    requires rows { AllWide (length plant.now.vars.items) rows.now }
    ensures text { OnOk result (text.new.items ≡ text.old.items ++ line (named_guard_line (plain_plant plant.now) name.now (place, rows.now))) }
    ensures short { OnOk result (AllShort rows.now) }
    ensures name { OnOk result (IsName name.now) }
{
    let switch = plant.switches[place as usize].name.bytes();
    text.extend_from_slice(b"guard ")?;
    push_line(text, switch, name.bytes(), &plant.vars, rows)
}

// The lines of pieces.
fn push_pieces(
    text: &mut Vec<u8>,
    plant: &Plant,
    pieces: &[(u32, Vec<Row<Frac>>)],
) -> Result<(), AllocError>
    requires { AllOf (IsPlaced (length plant.now.vars.items) (length plant.now.locs.items)) (map plain_placed pieces.now) }
    ensures text { OnOk result (text.new.items ≡ text.old.items ++ flat_map line (map (piece_line (plain_plant plant.now)) (map plain_placed pieces.now))) }
    ensures short { OnOk result (AllOf (λ p. AllShort p.1) (map plain_placed pieces.now)) }
{
    for i in 0..pieces.len() {
        push_piece(text, plant, pieces[i].0, &pieces[i].1)?;
    }
    Ok(())
}

// The lines of guards, with their names.
fn push_guards(
    text: &mut Vec<u8>,
    plant: &Plant,
    names: &[Name],
    guards: &[(u32, Vec<Row<Frac>>)],
) -> Result<(), AllocError>
    requires placed { AllOf (IsPlaced (length plant.now.vars.items) (length plant.now.switches.items)) (map plain_placed guards.now) }
    requires named { length names.now ≡ length guards.now }
    ensures text { OnOk result (text.new.items ≡ text.old.items ++ flat_map line (named_guard_lines (plain_plant plant.now) names.now (map plain_placed guards.now))) }
    ensures short { OnOk result (AllOf (λ g. AllShort g.1) (map plain_placed guards.now)) }
    ensures names { OnOk result (AllOf IsName names.now) }
{
    for i in 0..guards.len() {
        push_guard(text, plant, &names[i], guards[i].0, &guards[i].1)?;
    }
    Ok(())
}

// The line of the number of rounds.
fn push_rounds(text: &mut Vec<u8>, rounds: u32) -> Result<(), AllocError>
    ensures { OnOk result (text.new.items ≡ text.old.items ++ line (rounds_text rounds)) }
{
    let mut buffer = Buffer::new();
    text.extend_from_slice(b"rounds ")?;
    text.extend_from_slice(buffer.format(rounds).as_bytes())?;
    text.extend_from_slice(b"\n")
}

/// The text of a controller as it is written, of version 2: its number of rounds, its pieces and its guards with their names, in
/// order. It halts for `Memory` alone.
pub fn print_draft(alloc: Global, plant: &Plant, draft: &Draft) -> Result<Vec<u8>, Halt>
    requires { IsGivenDraft (plain_plant plant.now) (plain_draft draft.now) }
    ensures text { IsHaltedByMemory result (done (second_text (plain_plant plant.now) (plain_draft draft.now))) (λ v. v.items) }
    // it is a controller of the grammar, whose value is the draft
    ensures reads_back { IfOk result (λ v. IsControllerText (plain_plant plant.now) (lines_of v.items) (plain_draft draft.now)) }
{
    let mut text = Vec::new(alloc);
    text.extend_from_slice(b"controller 2\n")?;
    push_rounds(&mut text, draft.rounds)?;
    push_pieces(&mut text, plant, &draft.pieces)?;
    push_guards(&mut text, plant, &draft.names, &draft.guards)?;
    text.extend_from_slice(b"end\n")?;
    Ok(text)
}
