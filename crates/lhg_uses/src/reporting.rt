// The report of the text of a plant.
ghost use Rattle.std.specs.Prelude.{◌≡◌, ◌≤◌, length, IfOk, IfErr};
ghost use Rattle.lhg_math.specs.Tests.{AllOf};
ghost use Rattle.lhg_lex.specs.Lines.{most_bytes};
ghost use Rattle.lhg_plant.specs.Views.{plain_plant};
ghost use Rattle.lhg_union.specs.PolyLists.{AllVars};
ghost use Rattle.lhg_loss.specs.Iterate.{solution};
ghost use Rattle.lhg_loss.specs.Views.{AllHaveVars};
ghost use Rattle.lhg_iterate.specs.Outcomes.{plain_solved, IsSolvedBy};
ghost use Rattle.lhg_uses.specs.declared.reporting.NoReport.TheVariants.{Memory};
ghost use Rattle.lhg_uses.specs.Report.{IsReport, IsReportOf, IsUnsolved, IsUnreported};

use lhg_check::laws::law_solved_check;
use lhg_ctl::Controller;
use lhg_input::read_plant_input;
use lhg_iterate::{Solved, Stop, solve};
use lhg_lex::ReadStop;
use lhg_plant::Plant;
use lhg_text::{print_report, tell_places};
use std::alloc::Global;

/// Why there is no report.
#[derive(Drop)]
pub enum NoReport {
    /// The bytes are the text of no plant: the first line that cannot stand there, with its error.
    Text(ReadStop),
    /// The game is not solved: the budget of rounds is spent, or a limit is passed.
    Game(Stop),
    /// Memory is out.
    Memory,
}

/// The report of the plant whose text the bytes are, at most 1,048,576, with its game solved in at most so many rounds, from 1 to 1,000. It has the
/// largest region in which a controller can keep the plant safe, the guards of its switches, and a record of what was lost. One report has
/// one reading, so these can be read back.
///
/// With `Text`, the bytes are no text of a plant. With `Spent`, each round up to the budget removes a state, the given one in the last: a larger
/// budget may solve the game.
pub fn report(alloc: Global, budget: u32, bytes: &[u8]) -> Result<Vec<u8>, NoReport>
    requires bytes { length bytes.now ≤ most_bytes }
    requires low { 1 ≤ budget }
    requires high { budget ≤ 1000 }
    ensures report { IfOk result (λ v. IsReportOf bytes.now budget v.items) }
    ensures none { IfErr result (IsUnreported bytes.now budget) }
{
    match read_plant_input(alloc, bytes) {
        Ok(plant) => report_of(alloc, &plant, budget),
        Err(stop) => Err(NoReport::Text(stop)),
    }
}

// The report of a plant.
fn report_of(alloc: Global, plant: &Plant, budget: u32) -> Result<Vec<u8>, NoReport>
    requires low { 1 ≤ budget }
    requires high { budget ≤ 1000 }
    ensures report { IfOk result (λ v. IsReport (plain_plant plant.now) budget v.items) }
    ensures none { IfErr result (IsUnsolved (plain_plant plant.now) budget) }
{
    match solve(alloc, plant, budget) {
        Ok(found) => printed(alloc, plant, budget, found),
        Err(stop) => Err(NoReport::Game(stop)),
    }
}

// The report of what solves the game.
fn printed(alloc: Global, plant: &Plant, budget: u32, found: Solved) -> Result<Vec<u8>, NoReport>
    requires solved { IsSolvedBy (plain_plant plant.now) budget found }
    requires solution { solution (plain_plant plant.now) budget ≡ plain_solved found }
    requires many { length found.region.pieces.items ≡ length plant.now.locs.items }
    requires guards_many { length found.guards.items ≡ length plant.now.switches.items }
    requires vars { AllOf (λ ps. AllVars (length plant.now.vars.items) ps.items) found.region.pieces.items }
    requires guards_vars { AllOf (λ ps. AllVars (length plant.now.vars.items) ps.items) found.guards.items }
    requires losses_vars { AllHaveVars (length plant.now.vars.items) found.losses.items }
    ensures report { IfOk result (λ v. IsReport (plain_plant plant.now) budget v.items) }
    ensures none { IfErr result (λ e. e ≡ Memory) }
{
    let _ = budget;
    law_solved_check();
    tell_places(plant, &found.losses);
    let controller = Controller {
        region: found.region,
        guards: found.guards,
    };
    match print_report(alloc, plant, &controller, found.rounds, &found.losses) {
        Ok(text) => Ok(text),
        Err(_) => Err(NoReport::Memory),
    }
}
