//! Whole inputs that are read, and inputs that are refused at their first bad line.
use crate::{
    read_controller_input, read_log_input, read_plant_input, read_spoil_input, read_state_input,
};
use lhg_lex::{ReadStop, TEXT_LIMIT};
use std::alloc::Global;
use std::test::Fail;

// What an input is read as.
#[derive(Clone, Copy, Debug)]
enum Form {
    Plant,
    Controller,
    Log,
    State,
    Moves,
}

// The line of a refusal; 0 where the input is read, and 1000 where it could not be tried.
type Stop = u32;

fn stop_in<T: Drop>(answer: Result<T, ReadStop>) -> Stop {
    match answer {
        Ok(_) => 0,
        Err(ReadStop::Bad { line, .. }) => line,
        Err(ReadStop::Memory) => 1000,
    }
}

fn stop_of(alloc: Global, form: Form, text: &[u8]) -> Stop {
    if text.len() > TEXT_LIMIT {
        return 1000;
    }
    match form {
        Form::Plant => stop_in(read_plant_input(alloc, text)),
        Form::Controller => stop_in(read_controller_input(alloc, text)),
        Form::Log => stop_in(read_log_input(alloc, text)),
        Form::State => stop_in(read_state_input(alloc, text)),
        Form::Moves => stop_in(read_spoil_input(alloc, text)),
    }
}

// Good texts, a bad line in each part, parts that are missing or cut, and lines that are too many.
const INPUTS: [(Form, &[u8], Stop); 25] = [
    (Form::Plant, b"lhg 1\nvars x\nloc a\nend\n\n # \n", 0),
    (Form::Plant, b"lhg 1\nvars x\nloc a\nsafe y < 1\nend\n", 4),
    (Form::Plant, b"lhg 1\nvars x\nloc a\nend\n\n?\n", 6),
    (Form::Plant, b"lhg 1\nvars x\nloc a\n", 4),
    (
        Form::Controller,
        b"lhg 1\nvars x\nloc a\nend\n\ncontroller 1\npiece a all\nend\n\n",
        0,
    ),
    (
        Form::Controller,
        b"lhg 1\nvars x\nend\ncontroller 1\nend\n",
        3,
    ),
    (
        Form::Controller,
        b"lhg 1\nvars x\nloc a\nend\ncontroller 1\npiece b all\nend\n",
        6,
    ),
    (
        Form::Controller,
        b"lhg 1\nvars x\nloc a\nend\ncontroller 1\nend\n\nend\n",
        8,
    ),
    (Form::Controller, b"lhg 1\nvars x\nloc a\nend\n", 5),
    (
        Form::Controller,
        b"controller 1\nend\nlhg 1\nvars x\nloc a\nend\n",
        1,
    ),
    (
        Form::Log,
        b"lhg 1\nvars x\nloc a\nend\ncontroller 1\nend\nstart a x = 0\nflow 1 x = 0\nend\n",
        0,
    ),
    (
        Form::Log,
        b"lhg 1\nvars x\nloc x y\nend\ncontroller 1\nend\nstart a x = 0\nend\n",
        3,
    ),
    (
        Form::Log,
        b"lhg 1\nvars x\nloc a\nend\nstart a x = 0\nend\n",
        5,
    ),
    (
        Form::Log,
        b"lhg 1\nvars x\nloc a\nend\ncontroller 1\nend\nstart a x = 0\nland y = 0\nend\n",
        8,
    ),
    (
        Form::Log,
        b"lhg 1\nvars x\nloc a\nend\ncontroller 1\nend\nstart a x = 0\nend\nend\n",
        9,
    ),
    (
        Form::Log,
        b"lhg 1\nvars x\nloc a\nend\ncontroller 1\nend\nstart a x = 0\n",
        8,
    ),
    (
        Form::State,
        b"lhg 1\nvars x\nloc a\nend\n\nstate a x = 0\n\n",
        0,
    ),
    (
        Form::State,
        b"lhg 2\nvars x\nloc a\nend\nstate a x = 0\n",
        1,
    ),
    (
        Form::State,
        b"lhg 1\nvars x\nloc a\nend\nstate b x = 0\n",
        5,
    ),
    (
        Form::State,
        b"lhg 1\nvars x\nloc a\nend\nstate a x = 0\nstate a x = 0\n",
        6,
    ),
    (Form::State, b"lhg 1\nvars x\nloc a\nend", 5),
    (
        Form::Moves,
        b"lhg 1\nvars x\nloc a\nswitch go ctl a a keep\nend\nstate a x = 0\n\nwait\nact 1 0 go\nend\n\n",
        0,
    ),
    (
        Form::Moves,
        b"lhg 1\nvars x\nloc a\nswitch go ctl a a keep\nend\nstate b x = 0\nend\n",
        6,
    ),
    (
        Form::Moves,
        b"lhg 1\nvars x\nloc a\nswitch go env a a keep\nend\nstate a x = 0\nact 1 0 go\nend\n",
        7,
    ),
    (
        Form::Moves,
        b"lhg 1\nvars x\nloc a\nend\nstate a x = 0\n",
        6,
    ),
];

#[test]
fn inputs_are_read_or_refused(rt: HostRuntime) -> Result<(), Fail> {
    for (form, text, line) in &INPUTS {
        assert_eq!(rt;
            stop_of(rt.alloc(), *form, text),
            *line,
            "of {form:?}, {text:?}"
        );
    }
    Ok(())
}

#[test]
fn parts_of_an_input(rt: HostRuntime) -> Result<(), Fail> {
    let input = read_log_input(
        rt.alloc(),
        b"lhg 1\nvars x\nloc a\nloc b\nend\ncontroller 1\npiece b all\nend\nstart b x = 7\nland x = 7\nland x = 7\nend\n",
    )?;
    assert_eq!(rt; input.plant.locs.len(), 2);
    assert_eq!(rt; input.draft.pieces.len(), 1);
    assert_eq!(rt; input.start.loc, 1);
    assert_eq!(rt; input.entries.len(), 2);
    Ok(())
}
