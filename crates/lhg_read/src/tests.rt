// Texts that are read and texts that are refused, texts at each limit, states and points.
use crate::{Form, finish, read_plant, read_point, read_rows, read_state};
use lhg_lex::{Lines, ReadStop, TEXT_LIMIT, What};
use lhg_num::Frac;
use lhg_plant::{Plant, State};
use lhg_row::Row;
use std::alloc::{AllocError, Global};
use std::test::Fail;

// A refusal: the line, the column and the error; or none, where the text is read.
type Stop = Option<(u32, u32, What)>;

// The refusal of a text that has to be a plant. Want of memory is told as line 0.
fn stop_of(alloc: Global, text: &[u8]) -> Stop {
    if text.len() > TEXT_LIMIT {
        return Some((0, 0, What::NotHere));
    }
    let mut lines = Lines::new(text);
    match read_plant(alloc, &mut lines) {
        Ok(_) => stop_in(finish(alloc, &mut lines)),
        Err(stop) => stop_in(Err(stop)),
    }
}

fn stop_in(answer: Result<(), ReadStop>) -> Stop {
    match answer {
        Ok(()) => None,
        Err(ReadStop::Bad { line, column, what }) => Some((line, column, what)),
        Err(ReadStop::Memory) => Some((0, 0, What::NotHere)),
    }
}

const THERMOSTAT: [&[u8]; 13] = [
    b"lhg 1",
    b"vars x",
    b"loc heat",
    b"inv 0 <= x <= 40",
    b"flow 1 <= x <= 2",
    b"safe 18 <= x <= 22",
    b"loc cool",
    b"inv 0 <= x <= 40",
    b"flow -2 <= x <= -1",
    b"safe 18 <= x <= 22",
    b"switch off ctl heat cool keep",
    b"switch on ctl cool heat keep",
    b"end",
];

// So many lines of the thermostat, of which the one with this number is changed.
fn changed(alloc: Global, count: usize, number: usize, line: &[u8]) -> Result<Vec<u8>, AllocError> {
    let mut text = Vec::new(alloc);
    for (i, plain) in THERMOSTAT.iter().enumerate() {
        if i < count {
            text.extend_from_slice(if i + 1 == number { line } else { plain })?;
            text.push(b'\n')?;
        }
    }
    Ok(text)
}

const CHANGES: [(usize, usize, &[u8], Stop); 10] = [
    (0, 0, b"", Some((1, 0, What::NotHere))),
    (11, 11, b"switch off ctl heat", Some((11, 0, What::NotHere))),
    (11, 0, b"", Some((12, 0, What::NotHere))),
    (
        13,
        4,
        b"inv 0 <= x <= 170141183460469231731687303715884105728",
        Some((4, 15, What::LongNumber)),
    ),
    (
        13,
        4,
        b"inv 0 <= x <= 170141183460469231731687303715884105727",
        None,
    ),
    (13, 5, b"flow x = 1/0", Some((5, 10, What::ZeroDenominator))),
    (
        13,
        11,
        b"switch off ctl heat warm keep",
        Some((11, 0, What::NotHere)),
    ),
    (13, 11, b"switch off pick heat cool keep", None),
    (
        13,
        11,
        b"switch off picks heat cool keep",
        Some((11, 0, What::NotHere)),
    ),
    (13, 2, b"vars \xff", Some((2, 6, What::BadByte))),
];

#[test]
fn changed_texts(rt: HostRuntime) -> Result<(), Fail> {
    for (count, number, line, stop) in CHANGES {
        let text = changed(rt.alloc(), count, number, line)?;
        assert_eq!(rt; stop_of(rt.alloc(), &text), stop, "with {line:?}");
    }
    Ok(())
}

// A line of a plant over x and y with the location a, and whether it can stand: where a grammar is easily read otherwise.
const LINES: [(&[u8], bool); 10] = [
    (b"inv x-y<=-1/2&y>0", true),
    (b"inv 0 <= x <= 1 < y", false),
    (b"inv 0 <= x + 0", false),
    (b"inv 0/5*x <= 1", false),
    (b"inv x <= x", false),
    (b"flow all", true),
    (b"flow still, x = 1", false),
    (b"flow x + x' <= 1", false),
    (b"switch a env a a x ' = x + y, keep", true),
    (b"switch keep ctl a a all", true),
];

fn with_line(alloc: Global, line: &[u8]) -> Result<Vec<u8>, AllocError> {
    let mut text = b"lhg 1\nvars x y\nloc a\n".to_vec(alloc)?;
    text.extend_from_slice(line)?;
    text.extend_from_slice(b"\nend")?;
    Ok(text)
}

#[test]
fn lines(rt: HostRuntime) -> Result<(), Fail> {
    for (line, stands) in LINES {
        let text = with_line(rt.alloc(), line)?;
        let stop = if stands {
            None
        } else {
            Some((4, 0, What::NotHere))
        };
        assert_eq!(rt; stop_of(rt.alloc(), &text), stop, "at {line:?}");
    }
    Ok(())
}

// A text with a part that stands often, with or without a number in it; how often it may, and the line of one too many.
struct Limit {
    before: &'static [u8],
    part: &'static [u8],
    numbered: bool,
    tail: &'static [u8],
    behind: &'static [u8],
    most: usize,
    line: u32,
}

const LIMITS: [Limit; 6] = [
    Limit {
        before: b"lhg 1\nvars",
        part: b" x",
        numbered: true,
        tail: b"",
        behind: b"\nloc a\nend\n",
        most: 8,
        line: 2,
    },
    Limit {
        before: b"lhg 1\nvars ",
        part: b"x",
        numbered: false,
        tail: b"",
        behind: b"\nloc a\nend\n",
        most: 32,
        line: 2,
    },
    Limit {
        before: b"lhg 1\nvars x\n",
        part: b"loc l",
        numbered: true,
        tail: b"\n",
        behind: b"end\n",
        most: 64,
        line: 67,
    },
    Limit {
        before: b"lhg 1\nvars x\nloc a\n",
        part: b"switch s",
        numbered: true,
        tail: b" ctl a a keep\n",
        behind: b"end\n",
        most: 256,
        line: 260,
    },
    Limit {
        before: b"lhg 1\nvars x\nloc a\n",
        part: b"safe all\n",
        numbered: false,
        tail: b"",
        behind: b"end\n",
        most: 64,
        line: 68,
    },
    Limit {
        before: b"lhg 1\nvars x\nloc a\ninv x = 1",
        part: b", x <= 1, x < 2",
        numbered: false,
        tail: b"",
        behind: b"\nend\n",
        most: 31,
        line: 4,
    },
];

fn digits(n: usize) -> [u8; 3] {
    [
        b'0' + (n / 100 % 10) as u8,
        b'0' + (n / 10 % 10) as u8,
        b'0' + (n % 10) as u8,
    ]
}

fn repeated(alloc: Global, limit: &Limit, count: usize) -> Result<Vec<u8>, AllocError> {
    let mut text = limit.before.to_vec(alloc)?;
    for i in 0..count {
        text.extend_from_slice(limit.part)?;
        if limit.numbered {
            text.extend_from_slice(&digits(i))?;
        }
        text.extend_from_slice(limit.tail)?;
    }
    text.extend_from_slice(limit.behind)?;
    Ok(text)
}

#[test]
fn limits(rt: HostRuntime) -> Result<(), Fail> {
    for limit in &LIMITS {
        let text = repeated(rt.alloc(), limit, limit.most)?;
        assert_eq!(rt; stop_of(rt.alloc(), &text), None, "at {}", limit.line);
        let text = repeated(rt.alloc(), limit, limit.most.saturating_add(1))?;
        let stop = Some((limit.line, 0, What::NotHere));
        assert_eq!(rt; stop_of(rt.alloc(), &text), stop, "past {}", limit.line);
    }
    Ok(())
}

const PLAIN: &[u8] =
    b"lhg 1\nvars x\nloc heat\ninv 0 <= x <= 40\nflow 1 <= x <= 2\nsafe 18 <= x <= 22\nloc cool\ninv 0 <= x <= 40\nflow -2 <= x <= -1\nsafe 18 <= x <= 22\nswitch off ctl heat cool keep\nswitch on ctl cool heat keep\nend\n";

const LENIENT: &[u8] =
    b"\r\nlhg\t1\r\nvars\tx # degrees\r\n \r\nloc heat\r\nsafe\t18<=x<=22\r\nflow 1.00 <= x <= 4/2\r\ninv 0 <= x <= 40\r\nloc cool\r\ninv 0 <= x & x <= 40.0\r\nflow -2 <= x' <= -1\r\nsafe 18 <= x <= 22\r\nswitch off ctl heat cool keep\r\nswitch on ctl cool heat keep\r\nend\r";

fn push_numbers(rows: &[Row<Frac>], numbers: &mut Vec<Frac>) -> Result<(), AllocError> {
    for row in rows {
        numbers.extend_from_slice(&row.coefs)?;
        numbers.push(row.bound)?;
    }
    Ok(())
}

// The numbers of all invariants and flows.
fn numbers_of(alloc: Global, text: &[u8]) -> Result<Vec<Frac>, ReadStop> {
    if text.len() > TEXT_LIMIT {
        return Err(ReadStop::Memory);
    }
    let plant = read_plant(alloc, &mut Lines::new(text))?;
    let mut numbers = Vec::new(alloc);
    for location in &plant.locs {
        push_numbers(&location.inv, &mut numbers)?;
        push_numbers(&location.flow, &mut numbers)?;
    }
    Ok(numbers)
}

#[test]
fn lenient(rt: HostRuntime) -> Result<(), Fail> {
    let plain = numbers_of(rt.alloc(), PLAIN)?;
    let lenient = numbers_of(rt.alloc(), LENIENT)?;
    assert_eq!(rt; plain.len(), 16);
    assert_eq!(rt; lenient.as_slice(), plain.as_slice());
    Ok(())
}

const DOCUMENTED: &[u8] = b"lhg 1
vars level valve            # names of variables
loc filling
inv 0 <= level <= 120, 0 <= valve <= 1
flow 1/2 <= level' <= 2, valve = 0
safe level <= 95
loc draining
inv level >= 0
flow level' = -1.5 & valve = 0
safe level <= 95
switch open ctl filling draining keep
switch burst env draining filling level' >= level + 1, valve' = 0
end
";

#[test]
fn documented(rt: HostRuntime) {
    assert_eq!(rt; stop_of(rt.alloc(), DOCUMENTED), None);
}

const PLANE: &[u8] = b"lhg 1\nvars x y\nloc state\nloc b\nend\n";

fn plane(alloc: Global) -> Result<Plant, ReadStop> {
    if PLANE.len() > TEXT_LIMIT {
        return Err(ReadStop::Memory);
    }
    read_plant(alloc, &mut Lines::new(PLANE))
}

// A state as the last part of an input.
fn state_in(alloc: Global, plant: &Plant, text: &[u8]) -> Result<State, ReadStop> {
    if text.len() > TEXT_LIMIT {
        return Err(ReadStop::Memory);
    }
    let mut lines = Lines::new(text);
    let state = read_state(alloc, &mut lines, plant)?;
    finish(alloc, &mut lines)?;
    Ok(state)
}

const STATES: [(&[u8], Stop); 6] = [
    (b"\n state state x==0&y=0 # here\n\n", None),
    (b"", Some((1, 0, What::NotHere))),
    (b"state b y = 0, x = 0", Some((1, 0, What::NotHere))),
    (b"state b x = 0, y = --1", Some((1, 0, What::NotHere))),
    (b"state b x = 0, y = 1.", Some((1, 21, What::BadByte))),
    (b"state b x = 0, y = 0\nend", Some((2, 0, What::NotHere))),
];

#[test]
fn states(rt: HostRuntime) -> Result<(), Fail> {
    let plant = plane(rt.alloc())?;
    for (text, stop) in STATES {
        let answer = state_in(rt.alloc(), &plant, text).map(|_| ());
        assert_eq!(rt; stop_in(answer), stop, "at {text:?}");
    }
    Ok(())
}

#[test]
fn a_state(rt: HostRuntime) -> Result<(), Fail> {
    let plant = plane(rt.alloc())?;
    let state = state_in(rt.alloc(), &plant, b"state b x = 1/2, y = -3")?;
    let point = [Frac::new(1, 2)?, Frac::from(-3)];
    assert_eq!(rt; state.loc, 1);
    assert_eq!(rt; state.at.at.as_slice(), point.as_slice());
    Ok(())
}

#[test]
fn parts_of_a_line(rt: HostRuntime) -> Result<(), Fail> {
    let plant = plane(rt.alloc())?;
    let mut lines = Lines::new(b"flow 1 x = 1/2, y = -3");
    let line = lines.next(rt.alloc())?.ok_or("a line")?;
    assert!(rt; line.tokens.len() >= 2);
    let point = read_point(rt.alloc(), &line, 2, &lines, &plant)?;
    let coordinates = [Frac::new(1, 2)?, Frac::from(-3)];
    assert_eq!(rt; point.at.as_slice(), coordinates.as_slice());
    let rows = read_rows(rt.alloc(), &line, 2, &lines, &plant.vars, Form::Plain)?;
    assert_eq!(rt; rows.len(), 4);
    Ok(())
}
