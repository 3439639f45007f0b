// Texts of controllers and logs that are read, and texts that are refused at their first bad line.
use crate::{Entry, controller_of, print_controller, print_draft, read_controller, read_log};
use lhg_lex::{Lines, ReadStop, TEXT_LIMIT, What};
use lhg_plant::Plant;
use lhg_read::{finish, read_plant};
use std::alloc::Global;
use std::test::Fail;

const THERMOSTAT: &[u8] =
    b"lhg 1\nvars x\nloc heat\ninv 0 <= x <= 40\nflow 1 <= x <= 2\nsafe 18 <= x <= 22\nloc cool\ninv 0 <= x <= 40
flow -2 <= x <= -1\nsafe 18 <= x <= 22\nswitch off ctl heat cool keep\nswitch on ctl cool heat keep\nswitch fall env heat cool keep\nend\n";

// The line of a refusal; 0 where the text is read, and where it could not be tried.
type Stop = u32;

fn stop_in(answer: Result<(), ReadStop>) -> Stop {
    match answer {
        Ok(()) => 0,
        Err(
            ReadStop::Bad {
                line,
                column: 0,
                what: What::NotHere,
            },
        ) => line,
        Err(_) => 1000,
    }
}

fn controller_stop(alloc: Global, plant: &Plant, text: &[u8]) -> Stop {
    if text.len() > TEXT_LIMIT {
        return 1000;
    }
    let mut lines = Lines::new(text);
    match read_controller(alloc, &mut lines, plant) {
        Ok(_) => stop_in(finish(alloc, &mut lines)),
        Err(stop) => stop_in(Err(stop)),
    }
}

fn log_stop(alloc: Global, plant: &Plant, text: &[u8]) -> Stop {
    if text.len() > TEXT_LIMIT {
        return 1000;
    }
    let mut lines = Lines::new(text);
    match read_log(alloc, &mut lines, plant) {
        Ok(_) => stop_in(finish(alloc, &mut lines)),
        Err(stop) => stop_in(Err(stop)),
    }
}

fn thermostat(alloc: Global) -> Result<Plant, Fail> {
    let mut lines = Lines::new(THERMOSTAT);
    Ok(read_plant(alloc, &mut lines).ok().ok_or("plant")?)
}

const CONTROLLERS: [(&[u8], Stop); 21] = [
    (b"controller 1\nend\n", 0),
    (b"\ncontroller 1 # first\n\nend\n\n", 0),
    (
        b"controller 1\npiece heat x >= 18\npiece heat all\npiece cool x < 3\nguard on x > 2, x < 3\nguard off all\nend\n",
        0,
    ),
    (b"controller 2\nrounds 0\nend\n", 0),
    (
        b"controller 2\nrounds 1000\npiece heat all\nguard off g1 all\nguard off g2 x = 1\nend\n",
        0,
    ),
    (b"controller 3\nend\n", 1),
    (b"controller 01\nend\n", 1),
    (b"controller 1.0\nend\n", 1),
    (b"controller 1\nrounds 0\nend\n", 2),
    (b"controller 2\nend\n", 2),
    (b"controller 2\nrounds 1001\nend\n", 2),
    (b"controller 2\nrounds 01\nend\n", 2),
    (b"controller 2\nrounds 6/2\nend\n", 2),
    (b"controller 2\nrounds 1\nrounds 1\nend\n", 3),
    (b"controller 1\nguard off all\npiece heat all\nend\n", 3),
    (b"controller 1\npiece heat all\nguard fall all\nend\n", 3),
    (b"controller 1\npiece warm all\nend\n", 2),
    (
        b"controller 2\nrounds 0\nguard off g all\nguard on g all\nend\n",
        4,
    ),
    (b"controller 2\nrounds 0\nguard off all\nend\n", 3),
    (b"controller 1\npiece heat x' > 1\nend\n", 2),
    (b"controller 1\npiece heat all\n", 3),
];

const LOGS: [(&[u8], Stop); 9] = [
    (b"start heat x = 20\nend\n", 0),
    (
        b"start heat x = 20\nflow 1/2 x = 21\nflow -1 x = -3\nenv fall x = 21\nland x == 21\nend\n",
        0,
    ),
    (b"start warm x = 20\nend\n", 1),
    (b"start heat x = 20\nenv off x = 21\nend\n", 2),
    (b"start heat x = 20\nflow x = 21\nend\n", 2),
    (b"start heat x = 20\nflow - - 1 x = 21\nend\n", 2),
    (b"start heat x = 20\nland\nend\n", 2),
    (b"start heat x = 20\nend\nend\n", 3),
    (b"start heat x = 20\nflow 1 x = 21\n", 3),
];

#[test]
fn texts_are_read_or_refused(rt: HostRuntime) -> Result<(), Fail> {
    let plant = thermostat(rt.alloc())?;
    for (text, line) in &CONTROLLERS {
        assert_eq!(rt;
            controller_stop(rt.alloc(), &plant, text),
            *line,
            "of {text:?}"
        );
    }
    for (text, line) in &LOGS {
        assert_eq!(rt; log_stop(rt.alloc(), &plant, text), *line, "of {text:?}");
    }
    Ok(())
}

const FIRST: &[u8] = b"controller 1\npiece heat x >= 18, x <= 22\npiece cool x >= 18, x <= 22
guard off x >= 18, x <= 22\nguard on x >= 18, x <= 22\nend\n";

const SECOND: &[u8] =
    b"controller 2\nrounds 0\npiece heat x >= 18, x <= 22\npiece cool x >= 18, x <= 22
guard off g1 x >= 18, x <= 22\nguard on g2 x >= 18, x <= 22\nend\n";

#[test]
fn versions(rt: HostRuntime) -> Result<(), Fail> {
    let plant = thermostat(rt.alloc())?;
    for text in [FIRST, SECOND] {
        let mut lines = Lines::new(text);
        let draft = read_controller(rt.alloc(), &mut lines, &plant)?;
        let printed = print_draft(rt.alloc(), &plant, &draft)?;
        assert_eq!(rt; printed.as_slice(), SECOND);
        let controller = controller_of(rt.alloc(), &plant, &draft)?;
        let printed = print_controller(rt.alloc(), &plant, &controller)?;
        assert_eq!(rt; printed.as_slice(), FIRST);
    }
    Ok(())
}

#[test]
fn negative_time(rt: HostRuntime) -> Result<(), Fail> {
    let plant = thermostat(rt.alloc())?;
    let mut lines = Lines::new(b"start cool x = 20\nflow -1/2 x = 21\nend\n");
    let (start, entries) = read_log(rt.alloc(), &mut lines, &plant)?;
    assert_eq!(rt; start.loc, 1);
    assert!(rt; matches!(entries.as_slice(), [Entry::Flow { .. }]));
    let mut times = 0_u32;
    for entry in &entries {
        if let Entry::Flow { time, to: _ } = entry {
            assert_eq!(rt; time.numer(), -1);
            assert_eq!(rt; time.denom(), 2);
            times = times.saturating_add(1);
        }
    }
    assert_eq!(rt; times, 1);
    Ok(())
}
