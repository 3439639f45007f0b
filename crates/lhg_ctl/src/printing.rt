// Prints controllers.
ghost use Rattle.std.specs.Prelude.{◌≡◌, ◌<◌, ◌++◌, [], ◌∷◌, OnOk, IfOk, length, map, codes, slice_get};
ghost use Rattle.std.specs.List.{flat_map};
ghost use Rattle.lhg_math.specs.Tests.{AllOf};
ghost use Rattle.lhg_num.specs.Halting.{IsHaltedByMemory};
ghost use Rattle.lhg_num.specs.Marked.{done};
ghost use Rattle.lhg_row.specs.Width.{AllWide};
ghost use Rattle.lhg_lex.specs.Lines.{lines_of};
ghost use Rattle.lhg_plant.specs.Views.{plain_plant};
ghost use Rattle.lhg_union.specs.PolyLists as polys;
ghost use Rattle.lhg_union.specs.Regions.{plain_region};
ghost use Rattle.lhg_row_text.specs.PrintedLine.{line, spaced};
ghost use Rattle.lhg_row_text.specs.RowText.{rows_text};
ghost use Rattle.lhg_row_text.specs.Short.{AllShort};
ghost use Rattle.lhg_ctl.specs.Conditions.{IsControllerOf};
ghost use Rattle.lhg_ctl.specs.ControllerGrammar.{IsControllerText};
ghost use Rattle.lhg_ctl.specs.ControllerText.{piece_line, guard_line, controller_text};
ghost use Rattle.lhg_ctl.specs.Draft.{placed_from, draft_of};
ghost use Rattle.lhg_ctl.specs.NamedLines.{named_line, named_lines, AreWrittenLists};
ghost use Rattle.lhg_ctl.specs.Views.{plain_controller};
ghost use Rattle.lhg_ctl.specs.Written.{IsWritten, IsShortController};

use crate::controllers::Controller;
use lhg_num::{Frac, Halt};
use lhg_plant::{Name, Plant};
use lhg_poly::Poly;
use lhg_row::Row;
use lhg_row_text::push_rows;
use std::alloc::{AllocError, Global};

/// A line of rows behind a word and a name.
pub(crate) fn push_line(
    text: &mut Vec<u8>,
    word: &[u8],
    name: &[u8],
    vars: &[Name],
    rows: &[Row<Frac>],
) -> Result<(), AllocError>
    requires { AllWide (length vars.now) rows.now }
    ensures text { OnOk result (text.new.items ≡ text.old.items ++ line (named_line word.now name.now vars.now rows.now)) }
    ensures short { OnOk result (AllShort rows.now) }
{
    text.extend_from_slice(word)?;
    text.extend_from_slice(b" ")?;
    text.extend_from_slice(name)?;
    text.extend_from_slice(b" ")?;
    push_rows(text, vars, rows)?;
    text.extend_from_slice(b"\n")
}

// A line for each piece of a list, behind a word and a name.
fn push_list(
    text: &mut Vec<u8>,
    word: &[u8],
    name: &[u8],
    vars: &[Name],
    pieces: &[Poly<Frac>],
) -> Result<(), AllocError>
    requires { polys.AllVars (length vars.now) pieces.now }
    ensures text { OnOk result (text.new.items ≡ text.old.items ++ flat_map line (map (named_line word.now name.now vars.now) (polys.lines_of pieces.now))) }
    ensures written { OnOk result (AllOf (IsWritten (length vars.now)) (polys.lines_of pieces.now)) }
{
    for i in 0..pieces.len() {
        push_line(text, word, name, vars, pieces[i].rows())?;
    }
    Ok(())
}

/// Appends the lines of the pieces of all locations, each with its list. After want of memory nothing is said of the text.
pub fn push_pieces(
    text: &mut Vec<u8>,
    plant: &Plant,
    region: &[Vec<Poly<Frac>>],
) -> Result<(), AllocError>
    requires same_length { length region.now ≡ length plant.now.locs.items }
    requires vars { AllOf (λ ps. polys.AllVars (length plant.now.vars.items) ps.items) region.now }
    ensures text { OnOk result (text.new.items ≡ text.old.items ++ flat_map line (map (piece_line (plain_plant plant.now)) (placed_from 0 (plain_region region.now)))) }
    ensures written { OnOk result (AllOf (AllOf (IsWritten (length plant.now.vars.items))) (plain_region region.now)) }
{
    for i in 0..region.len() {
        let name = plant.locs[i].name.bytes();
        push_list(text, b"piece", name, &plant.vars, &region[i])?;
    }
    Ok(())
}

// The guards of all switches.
fn push_guards(
    text: &mut Vec<u8>,
    plant: &Plant,
    guards: &[Vec<Poly<Frac>>],
) -> Result<(), AllocError>
    requires same_length { length guards.now ≡ length plant.now.switches.items }
    requires vars { AllOf (λ ps. polys.AllVars (length plant.now.vars.items) ps.items) guards.now }
    ensures text { OnOk result (text.new.items ≡ text.old.items ++ flat_map line (named_lines (codes "guard") (map (λ s. s.name) plant.now.switches.items) plant.now.vars.items (plain_region guards.now))) }
    ensures written { OnOk result (AllOf (AllOf (IsWritten (length plant.now.vars.items))) (plain_region guards.now)) }
{
    for i in 0..guards.len() {
        let name = plant.switches[i].name.bytes();
        push_list(text, b"guard", name, &plant.vars, &guards[i])?;
    }
    Ok(())
}

/// Appends the lines of a controller. After want of memory nothing is said of the text.
pub fn push_controller(
    text: &mut Vec<u8>,
    plant: &Plant,
    controller: &Controller,
) -> Result<(), AllocError>
    requires { IsControllerOf (plain_plant plant.now) controller.now }
    ensures text { OnOk result (text.new.items ≡ text.old.items ++ controller_text (plain_plant plant.now) (plain_controller controller.now)) }
    ensures written { OnOk result (AreWrittenLists (plain_plant plant.now) (plain_controller controller.now)) }
{
    text.extend_from_slice(b"controller 1\n")?;
    push_pieces(text, plant, &controller.region.pieces)?;
    push_guards(text, plant, &controller.guards)?;
    text.extend_from_slice(b"end\n")
}

/// The text of a controller, of version 1: pieces in the order of locations and then of the list, guards in the order of
/// switches and then of the list. It halts for `Memory` alone.
pub fn print_controller(
    alloc: Global,
    plant: &Plant,
    controller: &Controller,
) -> Result<Vec<u8>, Halt>
    requires { IsControllerOf (plain_plant plant.now) controller.now }
    ensures text { IsHaltedByMemory result (done (controller_text (plain_plant plant.now) (plain_controller controller.now))) (λ v. v.items) }
    // where no line gives too many rows and no list has too many pieces, it is a controller of the grammar, whose value has the
    // rows of the pieces and guards
    ensures reads_back { IfOk result (λ v. IsShortController (plain_controller controller.now) → IsControllerText (plain_plant plant.now) (lines_of v.items) (draft_of (plain_controller controller.now))) }
{
    let mut text = Vec::new(alloc);
    push_controller(&mut text, plant, controller)?;
    Ok(text)
}
