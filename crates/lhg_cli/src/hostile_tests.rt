//! Ends that fail, texts that are cut, and texts at their limits and one past them.
use crate::Status;
use crate::plant_texts::{
    NOTHING_KEPT_REPORT, ONE_FLOW, THERMOSTAT, THERMOSTAT_CONTROLLER, THERMOSTAT_REPORT,
};
use crate::tests::{AMPLE, NEVER, SYNTH, run, run_over, sink_for, source_over};
use lhg_io::INPUT_LIMIT;
use std::alloc::{AllocError, Global};
use std::process::Abort;
use std::test::Fail;

// The synthesis for the thermostat over ends of step 7, where the calls with these numbers fail and the sink has this room.
fn in_sevens(
    alloc: Global,
    read_fails: u32,
    write_fails: u32,
    room: usize,
) -> Result<(Status, Vec<u8>), Fail> {
    let source = source_over(alloc, THERMOSTAT, 7, read_fails)?;
    let sink = sink_for(alloc, room, 7, write_fails)?;
    run_over(alloc, SYNTH, source, sink)
}

// Each call of the source fails in turn. How many does a run make?
fn failing_reads(rt: &impl Abort, alloc: Global) -> Result<u32, Fail> {
    for before in 0..100u32 {
        let (ended, written) = in_sevens(alloc, before + 1, NEVER, AMPLE)?;
        if ended == Status::Done {
            assert_eq!(rt; written.as_slice(), THERMOSTAT_REPORT);
            return Ok(before);
        }
        assert_eq!(rt; ended, Status::Read, "{before}");
        assert_eq!(rt; written.as_slice(), b"".as_slice(), "{before}");
    }
    Err(Fail::from("a run makes too many reads"))
}

// Each call of the sink fails in turn. How many does a run make?
fn failing_writes(rt: &impl Abort, alloc: Global) -> Result<u32, Fail> {
    for before in 0..100u32 {
        let (ended, written) = in_sevens(alloc, NEVER, before + 1, AMPLE)?;
        if ended == Status::Done {
            assert_eq!(rt; written.as_slice(), THERMOSTAT_REPORT);
            return Ok(before);
        }
        let held = THERMOSTAT_REPORT.get(..7 * before as usize);
        assert_eq!(rt; ended, Status::Write, "{before}");
        assert_eq!(rt; Some(written.as_slice()), held, "{before}");
    }
    Err(Fail::from("a run makes too many writes"))
}

// A plant without its last line end is whole, and no shorter part of it is.
fn cut_texts(rt: &impl Abort, alloc: Global) -> Result<(), Fail> {
    let (_, whole) = THERMOSTAT.split_last().ok_or("no byte")?;
    let (ended, written) = run(alloc, SYNTH, whole)?;
    assert_eq!(rt; ended, Status::Done);
    assert_eq!(rt; written.as_slice(), THERMOSTAT_REPORT);
    let (_, longest) = whole.split_last().ok_or("no byte")?;
    for n in 0..=longest.len() {
        let (ended, _) = run(alloc, SYNTH, &longest[..n])?;
        assert_eq!(rt; ended, Status::Text, "{n}");
    }
    let controller = THERMOSTAT_CONTROLLER.get(..30).ok_or("too short")?;
    let input = [THERMOSTAT, controller].concat(alloc)?;
    let (ended, written) = run(alloc, &["check"], &input)?;
    assert_eq!(rt; ended, Status::Text);
    assert_eq!(rt; written.as_slice(), b"text line 16 NotHere\n".as_slice());
    Ok(())
}

// Inputs as long as may be.
fn longest_inputs(rt: &impl Abort, alloc: Global) -> Result<(), Fail> {
    let input = vec![in alloc; b'#'; INPUT_LIMIT]?;
    let (ended, written) = run(alloc, SYNTH, &input)?;
    assert_eq!(rt; ended, Status::Text);
    assert_eq!(rt; written.as_slice(), b"text line 2 NotHere\n".as_slice());
    let mut input = THERMOSTAT.to_vec(alloc)?;
    input.resize(INPUT_LIMIT, b'\n')?;
    let (ended, written) = run(alloc, SYNTH, &input)?;
    assert_eq!(rt; ended, Status::Done);
    assert_eq!(rt; written.as_slice(), THERMOSTAT_REPORT);
    Ok(())
}

// A text with a part that stands often, with or without a number in it.
struct Repeated {
    before: &'static [u8],
    part: &'static [u8],
    numbered: bool,
    behind: &'static [u8],
}

// A text at a limit: how often its part may stand, its report, and the answer where the part stands once more.
struct Limit {
    text: Repeated,
    most: usize,
    report: &'static [u8],
    past: &'static [u8],
}

// Names in a list, bytes in a name, safe lines, and rows in a line. In the first plant one variable grows, and the last one, which never
// changes, says whether the controller may rest.
const LIMITS: [Limit; 4] = [
    Limit {
        text: Repeated {
            before: b"lhg 1\nvars",
            part: b" x",
            numbered: true,
            behind: b"\nloc run\ninv 0 <= x0 <= 2\nflow x0 = 1, x1 = 0, x2 = 0, x3 = 0, x4 = 0, x5 = 0, x6 = 0, x7 = 0\nsafe x0 <= 1\nloc rest\nsafe x7 >= 0\nswitch go ctl run rest keep\nend\n",
        },
        most: 8,
        report: b"report 1\nrounds 2\ncontroller 1\npiece run x0 >= 0, x0 < 1, x7 >= 0\npiece run x0 >= 1, x0 <= 1, x7 >= 0\npiece rest x7 >= 0\nguard go x0 >= 0, x0 < 1, x7 >= 0\nguard go x0 >= 1, x0 <= 1, x7 >= 0\nend\nloss 1 round 1 run leave x0 >= 1, x0 <= 1, x7 < 0\nloss 2 round 1 run flow 1 x0 >= 0, x0 < 1, x7 < 0\nend\n",
        past: b"text line 2 NotHere\n",
    },
    Limit {
        text: Repeated {
            before: b"lhg 1\nvars ",
            part: b"x",
            numbered: false,
            behind: b"\nloc a\nend\n",
        },
        most: 32,
        report: NOTHING_KEPT_REPORT,
        past: b"text line 2 NotHere\n",
    },
    Limit {
        text: Repeated {
            before: b"lhg 1\nvars x\nloc a\ninv x >= 0\n",
            part: b"safe x < 0\n",
            numbered: false,
            behind: b"end\n",
        },
        most: 64,
        report: NOTHING_KEPT_REPORT,
        past: b"text line 69 NotHere\n",
    },
    Limit {
        text: Repeated {
            before: b"lhg 1\nvars x\nloc a\ninv x >= 0",
            part: b", x <= 1",
            numbered: false,
            behind: b"\nend\n",
        },
        most: 63,
        report: NOTHING_KEPT_REPORT,
        past: b"text line 4 NotHere\n",
    },
];

// The text with its part so often.
fn with_parts(alloc: Global, text: &Repeated, count: usize) -> Result<Vec<u8>, AllocError> {
    let mut all = text.before.to_vec(alloc)?;
    for i in 0..count {
        all.extend_from_slice(text.part)?;
        if text.numbered {
            let number = format!(in alloc; "{i}")?;
            all.extend_from_slice(number.as_bytes())?;
        }
    }
    all.extend_from_slice(text.behind)?;
    Ok(all)
}

// A ring of locations at rest, with switches from one of the first 64 to the next.
fn ring(alloc: Global, locations: usize, switches: usize) -> Result<Vec<u8>, AllocError> {
    let mut text = b"lhg 1\nvars x\n".to_vec(alloc)?;
    for i in 0..locations {
        let block = format!(in alloc; "loc a{i}\ninv 0 <= x <= 1\nsafe all\n")?;
        text.extend_from_slice(block.as_bytes())?;
    }
    for i in 0..switches {
        let from = i % 64;
        let to = (i + 1) % 64;
        let switch = format!(in alloc; "switch s{i} ctl a{from} a{to} keep\n")?;
        text.extend_from_slice(switch.as_bytes())?;
    }
    text.extend_from_slice(b"end\n")?;
    Ok(text)
}

// The report of the largest ring: each state is kept, and each switch may be taken everywhere.
fn ring_report(alloc: Global) -> Result<Vec<u8>, AllocError> {
    let mut report = b"report 1\nrounds 1\ncontroller 1\n".to_vec(alloc)?;
    for i in 0..64usize {
        let piece = format!(in alloc; "piece a{i} x >= 0, x <= 1\n")?;
        report.extend_from_slice(piece.as_bytes())?;
    }
    for i in 0..256usize {
        let guard = format!(in alloc; "guard s{i} x >= 0, x <= 1\n")?;
        report.extend_from_slice(guard.as_bytes())?;
    }
    report.extend_from_slice(b"end\nend\n")?;
    Ok(report)
}

// Texts at their limits are read, and those one past them are refused.
fn limits(rt: &impl Abort, alloc: Global) -> Result<(), Fail> {
    for limit in &LIMITS {
        let input = with_parts(alloc, &limit.text, limit.most)?;
        let (ended, written) = run(alloc, SYNTH, &input)?;
        assert_eq!(rt; ended, Status::Done);
        assert_eq!(rt; written.as_slice(), limit.report);
        let input = with_parts(alloc, &limit.text, limit.most.saturating_add(1))?;
        let (ended, written) = run(alloc, SYNTH, &input)?;
        assert_eq!(rt; ended, Status::Text);
        assert_eq!(rt; written.as_slice(), limit.past);
    }
    Ok(())
}

// So are rings.
fn rings(rt: &impl Abort, alloc: Global) -> Result<(), Fail> {
    let (ended, written) = run(alloc, SYNTH, &ring(alloc, 64, 256)?)?;
    assert_eq!(rt; ended, Status::Done);
    assert_eq!(rt; written, ring_report(alloc)?);
    let (ended, written) = run(alloc, SYNTH, &ring(alloc, 65, 256)?)?;
    assert_eq!(rt; ended, Status::Text);
    assert_eq!(rt; written.as_slice(), b"text line 195 NotHere\n".as_slice());
    let (ended, written) = run(alloc, SYNTH, &ring(alloc, 64, 257)?)?;
    assert_eq!(rt; ended, Status::Text);
    assert_eq!(rt; written.as_slice(), b"text line 451 NotHere\n".as_slice());
    Ok(())
}

// First states in one line more than a location may have pieces.
const MANY_FIRST_STATES: Repeated = Repeated {
    before: ONE_FLOW,
    part: b"init only x = 3\n",
    numbered: false,
    behind: b"end\n",
};

// They are too many.
fn many_first_states(rt: &impl Abort, alloc: Global) -> Result<(), Fail> {
    let input = with_parts(alloc, &MANY_FIRST_STATES, 4_097)?;
    let (ended, written) = run(alloc, &["reach"], &input)?;
    assert_eq!(rt; ended, Status::Lists);
    assert_eq!(rt; written.as_slice(), b"pieces round 0\n".as_slice());
    Ok(())
}

// All of these, and a sink that has no room left.
#[test]
fn hostile(rt: HostRuntime) -> Result<(), Fail> {
    let alloc = rt.alloc();
    assert_eq!(rt; failing_reads(&rt, alloc)?, 30);
    assert_eq!(rt; failing_writes(&rt, alloc)?, 22);
    let (ended, written) = in_sevens(alloc, NEVER, NEVER, 20)?;
    assert_eq!(rt; ended, Status::Write);
    assert_eq!(rt; Some(written.as_slice()), THERMOSTAT_REPORT.get(..20));
    cut_texts(&rt, alloc)?;
    longest_inputs(&rt, alloc)?;
    limits(&rt, alloc)?;
    rings(&rt, alloc)?;
    many_first_states(&rt, alloc)
}
