// The run of a controller over a log.
ghost use Rattle.std.specs.Prelude.{◌≡◌, ◌<◌, ◌^◌, List, true, length, IfOk, IfErr};
ghost use Rattle.lhg_math.specs.Tests.{AllOf};
ghost use Rattle.lhg_plant.specs.Controller.{IsValid};
ghost use Rattle.lhg_plant.specs.Inside.{IsRegionInside};
ghost use Rattle.lhg_plant.specs.Run.{PlainEntry};
ghost use Rattle.lhg_plant.specs.Views.{plain_plant, plain_state};
ghost use Rattle.lhg_play.specs.Views.{plain_steps};
ghost use Rattle.lhg_union.specs.Regions.{plain_region};
ghost use Rattle.lhg_ctl.specs.Conditions.{IsControllerOf};
ghost use Rattle.lhg_ctl.specs.Views.{plain_controller};
ghost use Rattle.lhg_run.specs.Answers.{IsAnswered, IsTraceOf};
ghost use Rattle.lhg_run.specs.Numbers.{IsWideEntry, IsLongEntry, region_truth};
ghost use Rattle.lhg_run.specs.Seen.{running_place, IsTaken, IsStep, IsBegun, IsBegunIf, IsStanding};
ghost use Rattle.lhg_run.specs.Stop.{IsStop};
ghost use Rattle.lhg_run.specs.StopFor.{IsRunHalt, stop_for};
ghost use Rattle.lhg_run.specs.declared.stops.RunStop.TheVariants.{Illegal};
ghost use Rattle.lhg_ctl.specs.LogViews.{plain_entry};
ghost use Rattle.lhg_run.specs.Views.{plain_entries, IsOver};

use crate::copies::copy_state;
use crate::doing::Done;
use crate::flows::flow;
use crate::moves::{env, land};
use crate::running::Running;
use crate::stops::RunStop;
use lhg_ctl::{Controller, Entry};
use lhg_num::Halt;
use lhg_plant::{Plant, State};
use lhg_play::{Step, Trace};
use std::alloc::Global;

/// The trace of the run of a valid controller, whose pieces lie inside the invariants, over a log of fewer than 2^32 entries: all its
/// states, and all points of its flows, are in the region.
/// It is `Illegal` exactly where the start is not in the region, or some entry is not legal at its turn, and names the first of these. It
/// is `Wide` or `Rows` only where a number or a list of rows that the run forms for the named entry is past its limit.
pub fn run(
    alloc: Global,
    plant: &Plant,
    controller: &Controller,
    start: &State,
    log: &[Entry],
) -> Result<Trace, RunStop>
    requires controller { IsControllerOf (plain_plant plant.now) controller.now }
    requires inside { IsRegionInside (plain_plant plant.now) (plain_region controller.now.region.pieces.items) }
    requires valid { IsValid (plain_plant plant.now) (plain_controller controller.now) }
    requires there { start.now.loc < length plant.now.locs.items }
    requires start { length start.now.at ≡ length plant.now.vars.items }
    requires ends { AllOf (IsOver (length plant.now.vars.items)) (plain_entries log.now) }
    requires few { length log.now < 2 ^ 32 }
    ensures trace { IfOk result (λ t. IsTraceOf (plain_plant plant.now) (plain_controller controller.now) (plain_state start.now) (plain_entries log.now) (plain_steps t.steps.items)) }
    ensures stop { IfErr result (IsStop (plain_plant plant.now) (plain_controller controller.now) (plain_state start.now) (plain_entries log.now)) }
{
    let mut running = begun(alloc, plant, controller, start)?;
    for i in 0..log.len() {
        let number = i as u32 + 1;
        match step(alloc, plant, controller, &mut running, &log[i]) {
            Ok(true) => {}
            Ok(false) => return Err(illegal(number, running.steps)),
            Err(halt) => return Err(stop_at(number, halt)),
        }
    }
    Ok(Trace {
        steps: running.steps,
    })
}

// The run at its start.
fn begun(
    alloc: Global,
    plant: &Plant,
    controller: &Controller,
    start: &State,
) -> Result<Running, RunStop>
    requires controller { IsControllerOf (plain_plant plant.now) controller.now }
    requires inside { IsRegionInside (plain_plant plant.now) (plain_region controller.now.region.pieces.items) }
    requires there { start.now.loc < length plant.now.locs.items }
    requires start { length start.now.at ≡ length plant.now.vars.items }
    ensures ok { IfOk result (IsBegun (plain_plant plant.now) (plain_controller controller.now) (plain_state start.now)) }
    ensures err { (entries : List PlainEntry) → IfErr result (IsStop (plain_plant plant.now) (plain_controller controller.now) (plain_state start.now) entries) }
{
    match at_start(alloc, plant, controller, start) {
        Ok(Some(running)) => Ok(running),
        Ok(None) => Err(illegal(0, Vec::new(alloc))),
        Err(halt) => Err(stop_at(0, halt)),
    }
}

// The run at its start, where that is in the region.
fn at_start(
    alloc: Global,
    plant: &Plant,
    controller: &Controller,
    start: &State,
) -> Result<Option<Running>, Halt>
    requires controller { IsControllerOf (plain_plant plant.now) controller.now }
    requires inside { IsRegionInside (plain_plant plant.now) (plain_region controller.now.region.pieces.items) }
    requires there { start.now.loc < length plant.now.locs.items }
    requires start { length start.now.at ≡ length plant.now.vars.items }
    ensures { IsAnswered result (IsBegunIf (plain_plant plant.now) (plain_controller controller.now) (plain_state start.now)) ((region_truth (plain_controller controller.now) (plain_state start.now)).wide ≡ true) ⊥ }
{
    let _ = plant;
    let inside = controller.region.contains(start.loc, &start.at)?;
    if !inside {
        return Ok(None);
    }
    let mut steps = Vec::new(alloc);
    steps.push(Step::Start(copy_state(alloc, start)?))?;
    let state = copy_state(alloc, start)?;
    Ok(Some(Running {
        steps,
        state,
        pending: None,
    }))
}

// The entry is the first illegal one.
fn illegal(entry: u32, steps: Vec<Step>) -> RunStop
    ensures { result ≡ Illegal entry (record { steps = steps }) }
{
    RunStop::Illegal {
        entry,
        trace: Trace { steps },
    }
}

// The halt of an entry.
fn stop_at(entry: u32, halt: Halt) -> RunStop
    requires { IsRunHalt halt }
    ensures { result ≡ stop_for entry halt }
{
    match halt {
        Halt::Wide => RunStop::Wide { entry },
        Halt::Rows => RunStop::Rows { entry },
        Halt::Pieces => unreachable!(),
        Halt::Memory => RunStop::Memory,
    }
}

// The run goes on by an entry, where that is legal.
fn step(
    alloc: Global,
    plant: &Plant,
    controller: &Controller,
    running: &mut Running,
    entry: &Entry,
) -> Result<bool, Halt>
    requires controller { IsControllerOf (plain_plant plant.now) controller.now }
    requires inside { IsRegionInside (plain_plant plant.now) (plain_region controller.now.region.pieces.items) }
    requires valid { IsValid (plain_plant plant.now) (plain_controller controller.now) }
    requires standing { IsStanding (plain_plant plant.now) (plain_controller controller.now) running.old }
    requires end { IsOver (length plant.now.vars.items) (plain_entry entry.now) }
    ensures { IsAnswered result (IsStep (plain_plant plant.now) (plain_controller controller.now) (plain_entry entry.now) running.old running.new) (IsWideEntry (plain_plant plant.now) (plain_controller controller.now) (running_place running.old) (plain_entry entry.now)) (IsLongEntry (plain_plant plant.now) (plain_controller controller.now) (running_place running.old) (plain_entry entry.now)) }
{
    match taken(alloc, plant, controller, running, entry)? {
        None => Ok(false),
        Some(mut done) => {
            running.steps.append(&mut done.steps)?;
            running.state = done.state;
            running.pending = done.pending;
            Ok(true)
        }
    }
}

// What an entry does where the run stands, and none where it is not legal.
fn taken(
    alloc: Global,
    plant: &Plant,
    controller: &Controller,
    running: &Running,
    entry: &Entry,
) -> Result<Option<Done>, Halt>
    requires controller { IsControllerOf (plain_plant plant.now) controller.now }
    requires inside { IsRegionInside (plain_plant plant.now) (plain_region controller.now.region.pieces.items) }
    requires valid { IsValid (plain_plant plant.now) (plain_controller controller.now) }
    requires standing { IsStanding (plain_plant plant.now) (plain_controller controller.now) running.now }
    requires end { IsOver (length plant.now.vars.items) (plain_entry entry.now) }
    ensures { IsAnswered result (IsTaken (plain_plant plant.now) (plain_controller controller.now) (running_place running.now) (plain_entry entry.now)) (IsWideEntry (plain_plant plant.now) (plain_controller controller.now) (running_place running.now) (plain_entry entry.now)) (IsLongEntry (plain_plant plant.now) (plain_controller controller.now) (running_place running.now) (plain_entry entry.now)) }
{
    let state = &running.state;
    match (running.pending, entry) {
        (None, Entry::Flow { time, to }) => flow(alloc, plant, controller, state, time, to),
        (None, Entry::Env { switch, to }) => env(alloc, plant, state, *switch, to),
        (Some(switch), Entry::Land { to }) => land(alloc, plant, state, switch, to),
        _ => Ok(None),
    }
}
