// The rows at which a run looks in a location.
ghost use Rattle.std.specs.Prelude.{◌≡◌, ◌<◌, ◌+◌, ◌++◌, ℕ, length, map, drop, OnOk, IfOk, IfErr};
ghost use Rattle.lhg_math.specs.Tests.{AllOf};
ghost use Rattle.lhg_num.specs.Halting.{IsHaltedByMemory};
ghost use Rattle.lhg_num.specs.Marked.{done};
ghost use Rattle.lhg_row.specs.Width.{AllWide};
ghost use Rattle.lhg_motion.specs.CheckPoint.{rows_of};
ghost use Rattle.lhg_plant.specs.Run.{guard_rows, run_rows};
ghost use Rattle.lhg_plant.specs.Views.{plain_plant, plain_switch};
ghost use Rattle.lhg_union.specs.PolyLists.{lines_of, AllVars};
ghost use Rattle.lhg_union.specs.Regions.{plain_region};
ghost use Rattle.lhg_ctl.specs.Conditions.{IsControllerOf};
ghost use Rattle.lhg_ctl.specs.Views.{plain_controller};

use lhg_ctl::Controller;
use lhg_num::{Frac, Halt};
use lhg_plant::Plant;
use lhg_poly::Poly;
use lhg_row::{Row, append_rows};
use std::alloc::Global;

/// Copies of the rows of the region's pieces in the location, then of those of the guards of its switches, in the plant's order. It halts
/// for `Memory` alone.
pub(crate) fn run_rows(
    alloc: Global,
    plant: &Plant,
    controller: &Controller,
    loc: u32,
) -> Result<Vec<Row<Frac>>, Halt>
    requires there { loc < length plant.now.locs.items }
    requires controller { IsControllerOf (plain_plant plant.now) controller.now }
    ensures rows { IsHaltedByMemory result (done (run_rows (plain_plant plant.now) (plain_controller controller.now) loc)) (λ v. v.items) }
    ensures wide { IfOk result (λ v. AllWide (length plant.now.vars.items) v.items) }
{
    let mut rows = Vec::new(alloc);
    append_pieces(alloc, &mut rows, &controller.region.pieces[loc as usize])?;
    append_guards(alloc, &mut rows, plant, &controller.guards, loc)?;
    Ok(rows)
}

// Those of the guards of the location's switches.
fn append_guards(
    alloc: Global,
    rows: &mut Vec<Row<Frac>>,
    plant: &Plant,
    guards: &[Vec<Poly<Frac>>],
    loc: u32,
) -> Result<(), Halt>
    requires { length guards.now ≡ length plant.now.switches.items }
    ensures rows { IsHaltedByMemory result (done (rows.old.items ++ guard_rows (plain_plant plant.now).switches (plain_region guards.now) loc)) (λ _. rows.new.items) }
    ensures wide { (n : ℕ) → AllOf (λ ps. AllVars n ps.items) guards.now → AllWide n rows.old.items → OnOk result (AllWide n rows.new.items) }
{
    for e in 0..plant.switches.len() {
        append_guard(alloc, rows, plant, guards, loc, e)?;
    }
    Ok(())
}

// Those of one guard, where its switch leaves the location, so that those of the guards behind it are left.
fn append_guard(
    alloc: Global,
    rows: &mut Vec<Row<Frac>>,
    plant: &Plant,
    guards: &[Vec<Poly<Frac>>],
    loc: u32,
    e: usize,
) -> Result<(), Halt>
    requires there { e < length plant.now.switches.items }
    requires many { length guards.now ≡ length plant.now.switches.items }
    ensures rows { OnOk result (rows.new.items ++ guard_rows (map plain_switch (drop (e + 1) plant.now.switches.items)) (plain_region (drop (e + 1) guards.now)) loc ≡ rows.old.items ++ guard_rows (map plain_switch (drop e plant.now.switches.items)) (plain_region (drop e guards.now)) loc) }
    ensures wide { (n : ℕ) → AllOf (λ ps. AllVars n ps.items) guards.now → AllWide n rows.old.items → OnOk result (AllWide n rows.new.items) }
    ensures err { IfErr result (λ h. h ≡ Halt.Memory) }
{
    let switch = &plant.switches[e];
    if switch.from != loc {
        return Ok(());
    }
    append_pieces(alloc, rows, &guards[e])
}

// Those of the pieces of a list.
fn append_pieces(
    alloc: Global,
    rows: &mut Vec<Row<Frac>>,
    pieces: &[Poly<Frac>],
) -> Result<(), Halt>
    ensures rows { IsHaltedByMemory result (done (rows.old.items ++ rows_of (lines_of pieces.now))) (λ _. rows.new.items) }
    ensures wide { (n : ℕ) → AllVars n pieces.now → AllWide n rows.old.items → OnOk result (AllWide n rows.new.items) }
{
    for piece in pieces {
        append_rows(alloc, rows, piece.rows())?;
    }
    Ok(())
}
