//! Controllers and reports of known values.
ghost use Rattle.std.specs.Prelude.{◌≡◌, ◌<◌, ◌≤◌, [], OnOk, IfOk, length};
ghost use Rattle.lhg_math.specs.Tests.{AllOf};
ghost use Rattle.lhg_row.specs.Width.{AllWide};
ghost use Rattle.lhg_plant.specs.Views.{plain_plant};
ghost use Rattle.lhg_union.specs.PolyLists.{AllVars};
ghost use Rattle.lhg_union.specs.Regions.{plain_region};
ghost use Rattle.lhg_ctl.specs.Conditions.{IsControllerOf};
ghost use Rattle.lhg_ctl.specs.Written.{AreOfController};
ghost use Rattle.lhg_loss.specs.Views.{plain_cause, plain_loss, plain_losses, AreOver};
ghost use Rattle.lhg_text.specs.ReportConditions.{IsPlacedCause, IsPlacedLoss};

use crate::print_report;
use lhg_ctl::{Controller, print_controller};
use lhg_lex::{Lines, TEXT_LIMIT};
use lhg_loss::{Cause, Loss};
use lhg_num::{Frac, Halt};
use lhg_plant::{Plant, Side};
use lhg_poly::{Poly, make};
use lhg_read::read_plant;
use lhg_row::{Kind, Row, whole_row};
use lhg_union::Region;
use std::alloc::Global;
use std::test::Fail;

const THERMOSTAT: &[u8] =
    b"lhg 1\nvars x\nloc heat\ninv 0 <= x <= 40\nflow 1 <= x <= 2\nsafe 18 <= x <= 22\nloc cool\ninv 0 <= x <= 40
flow -2 <= x <= -1\nsafe 18 <= x <= 22\nswitch off ctl heat cool keep\nswitch on ctl cool heat keep\nend\n";

const THERMOSTAT_CONTROLLER: &[u8] =
    b"controller 1\npiece heat x >= 18, x <= 22\npiece cool x >= 18, x <= 22
guard off x >= 18, x <= 22\nguard on x >= 18, x <= 22\nend\n";

const THERMOSTAT_REPORT: &[u8] =
    b"report 1\nrounds 1\ncontroller 1\npiece heat x >= 18, x <= 22\npiece cool x >= 18, x <= 22
guard off x >= 18, x <= 22\nguard on x >= 18, x <= 22\nend\nend\n";

const ROUNDS: &[u8] =
    b"lhg 1\nvars x\nloc heat\ninv 0 <= x <= 40\nflow 1 <= x <= 2\nsafe 18 <= x <= 22\nloc cool\ninv 0 <= x <= 40
flow -2 <= x <= -1\nsafe 18 <= x <= 22\nswitch off ctl heat cool x >= 23, keep\nswitch on ctl cool heat keep\nend\n";

const ROUNDS_REPORT: &[u8] =
    b"report 1\nrounds 3\ncontroller 1\nend\nloss 1 round 1 heat leave x >= 22, x <= 22\nloss 2 round 1 heat flow 1 x >= 18, x < 22
loss 3 round 2 cool leave x >= 18, x <= 18\nloss 4 round 2 cool flow 3 x > 18, x <= 22\nend\n";

const STEP: &[u8] =
    b"lhg 1\nvars x\nloc a\ninv 0 <= x <= 10\nsafe all\nloc b\ninv 0 <= x <= 10\nsafe x <= 5\nswitch e env a b keep\nend\n";

const STEP_REPORT: &[u8] =
    b"report 1\nrounds 2\ncontroller 1\npiece a x >= 0, x <= 5\npiece b x >= 0, x <= 5\nend
loss 1 round 1 a env e x > 5, x <= 10\nend\n";

// The coefficient of x, the kind, and the bound.
type Line = (i64, Kind, i64);

#[derive(Copy, Clone)]
enum Move {
    Leave,
    Flow(u32),
    Env(u32),
}

// The number, the round, the location, both rows and the cause.
type Record = (u32, u32, u32, Line, Line, Move);

const ROUNDS_RECORDS: [Record; 4] = [
    (
        1,
        1,
        0,
        (-1, Kind::Weak, -22),
        (1, Kind::Weak, 22),
        Move::Leave,
    ),
    (
        2,
        1,
        0,
        (-1, Kind::Weak, -18),
        (1, Kind::Strict, 22),
        Move::Flow(1),
    ),
    (
        3,
        2,
        1,
        (-1, Kind::Weak, -18),
        (1, Kind::Weak, 18),
        Move::Leave,
    ),
    (
        4,
        2,
        1,
        (-1, Kind::Strict, -18),
        (1, Kind::Weak, 22),
        Move::Flow(3),
    ),
];

const STEP_RECORDS: [Record; 1] = [(
    1,
    1,
    0,
    (-1, Kind::Strict, -5),
    (1, Kind::Weak, 10),
    Move::Env(0),
)];

const FROM_18_TO_22: [[Line; 2]; 1] = [[(-1, Kind::Weak, -18), (1, Kind::Weak, 22)]];

const FROM_0_TO_5: [[Line; 2]; 1] = [[(-1, Kind::Weak, 0), (1, Kind::Weak, 5)]];

fn row(alloc: Global, line: &Line) -> Result<Row<Frac>, Halt>
    ensures { IfOk result (λ r. length r.coefs ≡ 1) }
{
    let (x, kind, bound) = *line;
    whole_row(alloc, &[x], kind, bound)
}

fn rows(alloc: Global, lines: &[Line]) -> Result<Vec<Row<Frac>>, Halt>
    ensures { IfOk result (λ v. AllWide 1 v.items) }
{
    let mut out = Vec::new(alloc);
    for line in lines {
        let row = row(alloc, line)?;
        out.push(row)?;
    }
    Ok(out)
}

// The piece of lines that have a common point.
fn piece(alloc: Global, lines: &[Line]) -> Result<Poly<Frac>, Fail>
    ensures { IfOk result (λ p. p.width ≡ 1) }
{
    let rows = rows(alloc, lines)?;
    let made = make(alloc, 1, rows)?;
    Ok(made.ok_or("none")?)
}

// The place is one of so many.
fn there(place: u32, count: usize) -> Result<(), Fail>
    ensures { OnOk result (place < count) }
{
    let found = if (place as usize) < count {
        Some(())
    } else {
        None
    };
    Ok(found.ok_or("no such place")?)
}

fn cause(alloc: Global, plant: &Plant, lines: &[Line], by: Move) -> Result<Cause, Fail>
    ensures { IfOk result (λ x. IsPlacedCause (plain_plant plant.now) (plain_cause x)) }
{
    let through = piece(alloc, lines)?;
    match by {
        Move::Leave => {
            let into = piece(alloc, lines)?;
            Ok(Cause::Leave { through, into })
        }
        Move::Flow(to) => Ok(Cause::Flow { to, through }),
        Move::Env(switch) => {
            there(switch, plant.switches.len())?;
            let into = through;
            Ok(Cause::Env { switch, into })
        }
    }
}

fn loss(alloc: Global, plant: &Plant, record: &Record) -> Result<Loss, Fail>
    ensures place { IfOk result (λ r. IsPlacedLoss (plain_plant plant.now) (plain_loss r)) }
    ensures vars { IfOk result (λ r. r.piece.width ≡ 1) }
{
    let (number, round, loc, low, high, by) = *record;
    let lines = [low, high];
    there(loc, plant.locs.len())?;
    Ok(Loss {
        number,
        round,
        loc,
        piece: piece(alloc, &lines)?,
        cause: cause(alloc, plant, &lines, by)?,
    })
}

fn losses(alloc: Global, plant: &Plant, records: &[Record]) -> Result<Vec<Loss>, Fail>
    ensures places { IfOk result (λ v. AllOf (IsPlacedLoss (plain_plant plant.now)) (plain_losses v.items)) }
    ensures vars { IfOk result (λ v. AreOver 1 v.items) }
{
    let mut out = Vec::new(alloc);
    for record in records {
        let next = loss(alloc, plant, record)?;
        out.push(next)?;
    }
    Ok(out)
}

// A list of these pieces for each of so many locations.
fn lists(alloc: Global, count: usize, pieces: &[[Line; 2]]) -> Result<Vec<Vec<Poly<Frac>>>, Fail>
    ensures count { IfOk result (λ v. length v.items ≡ count) }
    ensures vars { IfOk result (λ v. AllOf (λ ps. AllVars 1 ps.items) v.items) }
{
    let mut out = Vec::new(alloc);
    for i in 0..count {
        let next = list(alloc, pieces)?;
        out.push(next)?;
    }
    Ok(out)
}

fn list(alloc: Global, pieces: &[[Line; 2]]) -> Result<Vec<Poly<Frac>>, Fail>
    ensures { IfOk result (λ v. AllVars 1 v.items) }
{
    let mut out = Vec::new(alloc);
    for lines in pieces {
        let next = piece(alloc, lines)?;
        out.push(next)?;
    }
    Ok(out)
}

// The pieces, where the switch is controllable.
fn guard(alloc: Global, side: Side, pieces: &[[Line; 2]]) -> Result<Vec<Poly<Frac>>, Fail>
    ensures vars { IfOk result (λ v. AllVars 1 v.items) }
    ensures none { IfOk result (λ v. side ≡ Side.Env → v.items ≡ []) }
{
    match side {
        Side::Env => Ok(Vec::new(alloc)),
        Side::Ctl | Side::Pick => list(alloc, pieces),
    }
}

// These pieces as the guard of each controllable switch.
fn guards(alloc: Global, plant: &Plant, pieces: &[[Line; 2]]) -> Result<Vec<Vec<Poly<Frac>>>, Fail>
    ensures count { IfOk result (λ v. length v.items ≡ length plant.now.switches.items) }
    ensures vars { IfOk result (λ v. AllOf (λ ps. AllVars 1 ps.items) v.items) }
    ensures ctl { IfOk result (λ v. AreOfController (plain_plant plant.now) (plain_region v.items)) }
{
    let mut out = Vec::new(alloc);
    for i in 0..plant.switches.len() {
        let next = guard(alloc, plant.switches[i].side, pieces)?;
        out.push(next)?;
    }
    Ok(out)
}

// The controller with these pieces in each location and these guards of each controllable switch.
fn controller(
    alloc: Global,
    plant: &Plant,
    pieces: &[[Line; 2]],
    guarded: &[[Line; 2]],
) -> Result<Controller, Fail>
    requires { length plant.now.vars.items ≡ 1 }
    ensures { IfOk result (IsControllerOf (plain_plant plant.now)) }
{
    let pieces = lists(alloc, plant.locs.len(), pieces)?;
    let guards = guards(alloc, plant, guarded)?;
    Ok(Controller {
        region: Region { pieces },
        guards,
    })
}

fn is_one(count: usize) -> Result<(), Fail>
    ensures { OnOk result (count ≡ 1) }
{
    let found = if count == 1 { Some(()) } else { None };
    Ok(found.ok_or("not one")?)
}

// The texts of the controller and of the report.
fn printed(
    alloc: Global,
    text: &[u8],
    pieces: &[[Line; 2]],
    guarded: &[[Line; 2]],
    rounds: u32,
    records: &[Record],
) -> Result<(Vec<u8>, Vec<u8>), Fail>
    requires { length text.now ≤ TEXT_LIMIT }
{
    let plant = read_plant(alloc, &mut Lines::new(text))?;
    is_one(plant.vars.len())?;
    let controller = controller(alloc, &plant, pieces, guarded)?;
    let losses = losses(alloc, &plant, records)?;
    let text = print_controller(alloc, &plant, &controller)?;
    let report = print_report(alloc, &plant, &controller, rounds, &losses)?;
    Ok((text, report))
}

#[test]
fn thermostat(rt: HostRuntime) -> Result<(), Fail> {
    let (controller, report) = printed(
        rt.alloc(),
        THERMOSTAT,
        &FROM_18_TO_22,
        &FROM_18_TO_22,
        1,
        &[],
    )?;
    assert_eq!(rt; controller.as_slice(), THERMOSTAT_CONTROLLER);
    assert_eq!(rt; report.as_slice(), THERMOSTAT_REPORT);
    Ok(())
}

#[test]
fn dependence_over_rounds(rt: HostRuntime) -> Result<(), Fail> {
    let (_, report) = printed(rt.alloc(), ROUNDS, &[], &[], 3, &ROUNDS_RECORDS)?;
    assert_eq!(rt; report.as_slice(), ROUNDS_REPORT);
    Ok(())
}

#[test]
fn discrete_step(rt: HostRuntime) -> Result<(), Fail> {
    let (_, report) = printed(
        rt.alloc(),
        STEP,
        &FROM_0_TO_5,
        &FROM_0_TO_5,
        2,
        &STEP_RECORDS,
    )?;
    assert_eq!(rt; report.as_slice(), STEP_REPORT);
    Ok(())
}
