// Texts of moves that are read, and texts that are refused at their first bad line.
use crate::{CtlMove, read_moves};
use lhg_lex::{Lines, ReadStop, TEXT_LIMIT};
use lhg_plant::Plant;
use lhg_read::{finish, read_plant};
use std::alloc::Global;
use std::test::Fail;

const THERMOSTAT: &[u8] =
    b"lhg 1\nvars x\nloc heat\ninv 0 <= x <= 40\nflow 1 <= x <= 2\nsafe 18 <= x <= 22\nloc cool\ninv 0 <= x <= 40
flow -2 <= x <= -1\nsafe 18 <= x <= 22\nswitch off ctl heat cool keep\nswitch on pick cool heat keep\nswitch fall env heat cool keep\nend\n";

// The line of a refusal; 0 where the text is read, and 1000 where it could not be tried.
type Stop = u32;

fn stop_in(answer: Result<(), ReadStop>) -> Stop {
    match answer {
        Ok(()) => 0,
        Err(ReadStop::Bad { line, .. }) => line,
        Err(ReadStop::Memory) => 1000,
    }
}

fn stop_of(alloc: Global, plant: &Plant, text: &[u8]) -> Stop {
    if text.len() > TEXT_LIMIT {
        return 1000;
    }
    let mut lines = Lines::new(text);
    match read_moves(alloc, &mut lines, plant) {
        Ok(_) => stop_in(finish(alloc, &mut lines)),
        Err(stop) => stop_in(Err(stop)),
    }
}

fn thermostat(alloc: Global) -> Result<Plant, Fail> {
    let mut lines = Lines::new(THERMOSTAT);
    Ok(read_plant(alloc, &mut lines).ok().ok_or("plant")?)
}

const MOVES: [(&[u8], Stop); 17] = [
    (b"end\n", 0),
    (b"\nwait # first\n\nwait\nend\n\n", 0),
    (
        b"act 1 1/2 on x = 19\nact 999999999 0.5 off\nact 7 3 off x = -1/2\nend\n",
        0,
    ),
    (b"act 01 0 on\nend\n", 1),
    (b"act 0 0 on\nend\n", 1),
    (b"act 1000000000 0 on\nend\n", 1),
    (b"act 2/1 0 on\nend\n", 1),
    (b"act 1 -1/2 on\nend\n", 1),
    (b"act 1 0 fall\nend\n", 1),
    (b"act 1 0 off y = 1\nend\n", 1),
    (b"act 1 0\nend\n", 1),
    (b"act\nend\n", 1),
    (b"wait wait\nend\n", 1),
    (b"wait\nend 1\n", 2),
    (b"wait\n", 2),
    (b"wait\n?\nend\n", 2),
    (b"end\nend\n", 2),
];

#[test]
fn moves_are_read_or_refused(rt: HostRuntime) -> Result<(), Fail> {
    let plant = thermostat(rt.alloc())?;
    for (text, line) in &MOVES {
        assert_eq!(rt; stop_of(rt.alloc(), &plant, text), *line, "of {text:?}");
    }
    Ok(())
}

#[test]
fn moves_in_order(rt: HostRuntime) -> Result<(), Fail> {
    let plant = thermostat(rt.alloc())?;
    let mut lines = Lines::new(b"act 2 1/2 on x = 7\nwait\nend\n");
    let moves = read_moves(rt.alloc(), &mut lines, &plant)
        .ok()
        .ok_or("moves")?;
    assert_eq!(rt; moves.len(), 2);
    assert!(rt;
        matches!(
            &moves[0],
            CtlMove::Act {
                flow: 2,
                switch: 1,
                to: Some(_),
                ..
            }
        )
    );
    assert!(rt; matches!(&moves[1], CtlMove::Wait));
    Ok(())
}
