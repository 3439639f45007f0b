//! The program over ends in memory.
ghost use Rattle.std.specs.Prelude.{◌≤◌};

use crate::plant_texts::{
    DEPENDENCE, DEPENDENCE_REPORT, NO_END, NOTHING_KEPT_REPORT, ONE_FLOW, OPEN_EDGE, PICKED_RESULT,
    PLAIN, RUN_KEPT_REPORT, RUN_LOST_REPORT, STEP, THERMOSTAT, THERMOSTAT_LAZY, THERMOSTAT_REPORT,
    TIE_OPEN,
};
use crate::{Status, lhg};
use lhg_io::{MemSink, MemSource};
use std::alloc::{AllocError, Global};
use std::test::Fail;

const USAGE: &[u8] =
    b"usage: lhg synth [N] | check | run | explain [N] | gen K | migrate | lazy [N] | spoil [N] | reach [N]\n";

pub(crate) const SYNTH: &[&str] = &["synth"];

// The number of a call that no run makes.
pub(crate) const NEVER: u32 = u32::MAX;

// More bytes than any answer has.
pub(crate) const AMPLE: usize = 524_288;

fn all_words(alloc: Global, words: &[&str]) -> Result<Vec<String>, AllocError> {
    let mut all = Vec::new(alloc);
    for word in words {
        all.push(String::from_str(alloc, word)?)?;
    }
    Ok(all)
}

// A source over the bytes, which gives at most so many a call, and whose call with this number fails.
pub(crate) fn source_over(
    alloc: Global,
    input: &[u8],
    step: usize,
    fails: u32,
) -> Result<MemSource, AllocError>
    requires { 1 ≤ step }
{
    let fails = [fails].to_vec(alloc)?;
    Ok(MemSource::new(input.to_vec(alloc)?, step, fails))
}

// A sink for so many bytes, which takes at most so many a call, and whose call with this number fails.
pub(crate) fn sink_for(alloc: Global, room: usize, step: usize, fails: u32) -> Result<MemSink, Fail>
    requires { 1 ≤ step }
{
    let fails = [fails].to_vec(alloc)?;
    Ok(MemSink::new(alloc, room, step, fails)?)
}

// The status and what is written, where these are the ends.
pub(crate) fn run_over(
    alloc: Global,
    words: &[&str],
    mut source: MemSource,
    mut sink: MemSink,
) -> Result<(Status, Vec<u8>), Fail> {
    let words = all_words(alloc, words)?;
    let status = lhg(alloc, &words, &mut source, &mut sink);
    Ok((status, sink.held().to_vec(alloc)?))
}

// The status and what is written, where neither end fails.
pub(crate) fn run(alloc: Global, words: &[&str], input: &[u8]) -> Result<(Status, Vec<u8>), Fail> {
    let source = source_over(alloc, input, 4096, NEVER)?;
    let sink = sink_for(alloc, AMPLE, 10, NEVER)?;
    run_over(alloc, words, source, sink)
}

// What is asked of plants, with the answers.
pub(crate) const PLANTS: [(&[&str], &[u8], Status, &[u8]); 36] = [
    (
        &["synth"],
        PLAIN,
        Status::Done,
        b"report 1\nrounds 1\ncontroller 1\npiece only x >= 0, x <= 8\nend\nend\n",
    ),
    (
        &["synth"],
        b"lhg 1\nvars x\nloc only\ninv 5 <= x <= 9\nflow still\nsafe x <= 4\nend\n",
        Status::Done,
        NOTHING_KEPT_REPORT,
    ),
    (
        &["synth"],
        b"lhg 1\nvars x y\nloc a\ninv 0 <= x <= 4, 0 <= y <= 4\nsafe x + y <= 2\nsafe y > 3\nloc b\ninv 0 <= x <= 4, 0 <= y <= 4\nend\n",
        Status::Done,
        b"report 1\nrounds 1\ncontroller 1\npiece a x >= 0, y >= 0, x + y <= 2\npiece a x >= 0, x <= 4, y > 3, y <= 4\nend\nend\n",
    ),
    (
        &["synth"],
        b"lhg 1\nvars x\nloc all\nsafe all\nend\n",
        Status::Done,
        b"report 1\nrounds 1\ncontroller 1\npiece all all\nend\nend\n",
    ),
    (
        &["synth"],
        b"lhg 1\nvars x\nloc only\nsafe 170141183460469231731687303715884105727*x <= 1/3\nend\n",
        Status::Wide,
        b"wide round 0\n",
    ),
    (
        &["synth"],
        ONE_FLOW,
        Status::Done,
        b"report 1\nrounds 2\ncontroller 1\nend\nloss 1 round 1 only leave x >= 8, x <= 8\nloss 2 round 1 only flow 1 x >= 0, x < 8\nend\n",
    ),
    (&["synth"], THERMOSTAT, Status::Done, THERMOSTAT_REPORT),
    (&["synth", "1"], THERMOSTAT, Status::Done, THERMOSTAT_REPORT),
    (&["synth"], DEPENDENCE, Status::Done, DEPENDENCE_REPORT),
    (&["synth", "3"], DEPENDENCE, Status::Done, DEPENDENCE_REPORT),
    (
        &["synth", "2"],
        DEPENDENCE,
        Status::Spent,
        b"spent 2\nstate cool x = 18\n",
    ),
    (
        &["synth"],
        b"lhg 1\nvars x\nloc run\ninv 0 <= x <= 10\nflow x = 1\nsafe x < 8\nloc rest\ninv 0 <= x <= 10\nsafe all\nswitch go ctl run rest x >= 8, keep\nend\n",
        Status::Done,
        b"report 1\nrounds 2\ncontroller 1\npiece rest x >= 0, x <= 10\nend\nloss 1 round 1 run leave x >= 0, x < 8\nend\n",
    ),
    (
        &["synth"],
        OPEN_EDGE,
        Status::Done,
        b"report 1\nrounds 1\ncontroller 1\npiece run x >= 0, x < 8\npiece rest x >= 0, x <= 10\nguard go x >= 7, x < 8\nend\nend\n",
    ),
    (
        &["synth"],
        TIE_OPEN,
        Status::Done,
        b"report 1\nrounds 2\ncontroller 1\npiece rest x >= 0, x <= 10\nend\nloss 1 round 1 run env hit x > 5, x <= 10\nloss 2 round 1 run flow 1 x >= 5, x <= 5\nloss 3 round 1 run flow 2 x >= 0, x < 5\nend\n",
    ),
    (
        &["synth"],
        b"lhg 1\nvars x\nloc run\ninv 0 <= x <= 10\nflow x = 1\nsafe all\nloc bad\ninv 0 <= x <= 10\nloc rest\ninv 0 <= x <= 10\nsafe all\nswitch hit env run bad x > 5, keep\nswitch go ctl run rest x >= 5, keep\nend\n",
        Status::Done,
        b"report 1\nrounds 2\ncontroller 1\npiece run x >= 0, x <= 5\npiece rest x >= 0, x <= 10\nguard go x >= 5, x <= 5\nend\nloss 1 round 1 run env hit x > 5, x <= 10\nend\n",
    ),
    (
        &["synth"],
        b"lhg 1\nvars x\nloc run\ninv 0 <= x <= 10\nflow x = 1\nsafe x <= 8\nloc rest\ninv 0 <= x <= 10\nsafe x <= 5\nswitch go ctl run rest all\nend\n",
        Status::Done,
        RUN_LOST_REPORT,
    ),
    (
        &["synth"],
        b"lhg 1\nvars x\nloc run\ninv 0 <= x <= 10\nflow x = 1\nsafe x <= 8\nloc rest\ninv 0 <= x <= 10\nsafe x <= 5\nswitch go ctl run rest x' <= 5\nend\n",
        Status::Done,
        RUN_KEPT_REPORT,
    ),
    (&["synth"], PICKED_RESULT, Status::Done, RUN_KEPT_REPORT),
    (
        &["synth"],
        b"lhg 1\nvars x\nloc run\ninv 0 <= x <= 10\nflow x = 1\nsafe x <= 8\nloc rest\ninv 0 <= x <= 10\nsafe x <= 5\nswitch go pick run rest x' >= 6\nend\n",
        Status::Done,
        RUN_LOST_REPORT,
    ),
    (
        &["synth"],
        STEP,
        Status::Done,
        b"report 1\nrounds 2\ncontroller 1\npiece a x >= 0, x <= 5\npiece b x >= 0, x <= 5\nend\nloss 1 round 1 a env e x > 5, x <= 10\nend\n",
    ),
    (
        &["synth", "1"],
        STEP,
        Status::Spent,
        b"spent 1\nstate a x = 10\n",
    ),
    (
        &["synth", "64"],
        NO_END,
        Status::Spent,
        b"spent 64\nstate grow x = 1/9223372036854775808\n",
    ),
    (&["synth", "200"], NO_END, Status::Wide, b"wide round 127\n"),
    (
        &["synth"],
        b"lhg 1\nvars x\nloc void\ninv x < 0, x > 0\nsafe all\nloc none\ninv 0 <= x <= 10\nloc held\ninv 0 <= x <= 10\nflow x < 0, x > 0\nsafe x <= 8\nend\n",
        Status::Done,
        b"report 1\nrounds 1\ncontroller 1\npiece held x >= 0, x <= 8\nend\nend\n",
    ),
    (
        &["synth"],
        b"lhg 1\nvars x\nloc void\ninv x < 0, x > 0\nsafe 170141183460469231731687303715884105727*x <= 1/3\nend\n",
        Status::Done,
        NOTHING_KEPT_REPORT,
    ),
    (
        &["synth"],
        b"lhg 1\r\nvars\tx\t# degrees\r\n\r\nloc heat\r\ninv 0 <= x <= 40\r\nflow 1.00 <= x <= 4/2\r\nsafe 18 <= x <= 22\r\n\t\r\nloc cool\r\ninv 0 <= x & x <= 40.0\r\nflow -2 <= x' <= -1\r\nsafe 18 <= x <= 22\r\nswitch off ctl heat cool keep\r\nswitch on ctl cool heat keep\r\nend\r\n",
        Status::Done,
        THERMOSTAT_REPORT,
    ),
    (
        &["synth"],
        b"lhg 1\nvars x\nloc heat\ninv 0 <= x <= 170141183460469231731687303715884105727\nflow 1 <= x <= 2\nsafe 18 <= x <= 22\nloc cool\ninv 0 <= x <= 40\nflow -2 <= x <= -1\nsafe 18 <= x <= 22\nswitch off ctl heat cool keep\nswitch on ctl cool heat keep\nend\n",
        Status::Done,
        THERMOSTAT_REPORT,
    ),
    (
        &["synth"],
        b"lhg 1\nvars x y\nloc run\ninv 0 <= x <= 1, 0 <= y <= 1\nsafe all\nloc bad\ninv 0 <= x <= 1, 0 <= y <= 1\nswitch hit env run bad 1*x + 1*x' + y' <= 1, 2*x + 2*x' + y' <= 1, 3*x + 3*x' + y' <= 1, 4*x + 4*x' + y' <= 1, 5*x + 5*x' + y' <= 1, 6*x + 6*x' + y' <= 1, 7*x + 7*x' + y' <= 1, 8*x + 8*x' + y' <= 1, 9*x + 9*x' + y' <= 1, 10*x + 10*x' + y' <= 1, 11*x + 11*x' + y' <= 1, 12*x + 12*x' + y' <= 1, 13*x + 13*x' + y' <= 1, 14*x + 14*x' + y' <= 1, 15*x + 15*x' + y' <= 1, 16*x + 16*x' + y' <= 1, 17*x + 17*x' + y' <= 1, 18*x + 18*x' + y' <= 1, 19*x + 19*x' + y' <= 1, 20*x + 20*x' + y' <= 1, 21*x + 21*x' + y' <= 1, 22*x + 22*x' + y' <= 1, 23*x + 23*x' + y' <= 1, 24*x + 24*x' + y' <= 1, 25*x + 25*x' + y' <= 1, 26*x + 26*x' + y' <= 1, 27*x + 27*x' + y' <= 1, 28*x + 28*x' + y' <= 1, 29*x + 29*x' + y' <= 1, 30*x + 30*x' + y' <= 1, 31*x + 31*x' + y' <= 1, -1*x' - y' <= 1, -2*x' - y' <= 1, -3*x' - y' <= 1, -4*x' - y' <= 1, -5*x' - y' <= 1, -6*x' - y' <= 1, -7*x' - y' <= 1, -8*x' - y' <= 1, -9*x' - y' <= 1, -10*x' - y' <= 1, -11*x' - y' <= 1, -12*x' - y' <= 1, -13*x' - y' <= 1, -14*x' - y' <= 1, -15*x' - y' <= 1, -16*x' - y' <= 1, -17*x' - y' <= 1, -18*x' - y' <= 1, -19*x' - y' <= 1, -20*x' - y' <= 1, -21*x' - y' <= 1, -22*x' - y' <= 1, -23*x' - y' <= 1, -24*x' - y' <= 1, -25*x' - y' <= 1, -26*x' - y' <= 1, -27*x' - y' <= 1, -28*x' - y' <= 1, -29*x' - y' <= 1, -30*x' - y' <= 1, -31*x' - y' <= 1\nend\n",
        Status::Lists,
        b"rows round 1\n",
    ),
    (&["lazy"], THERMOSTAT, Status::Done, THERMOSTAT_LAZY),
    (&["lazy", "1"], THERMOSTAT, Status::Done, THERMOSTAT_LAZY),
    (
        &["lazy"],
        PICKED_RESULT,
        Status::Done,
        b"lazy cut\ncontroller 1\npiece run x >= 0, x <= 8\npiece rest x >= 0, x <= 5\nguard go x >= 8, x <= 8\nend\n",
    ),
    (
        &["lazy"],
        OPEN_EDGE,
        Status::Done,
        b"lazy full\ncontroller 1\npiece run x >= 0, x < 8\npiece rest x >= 0, x <= 10\nguard go x >= 7, x < 8\nend\n",
    ),
    (
        &["lazy"],
        b"lhg 1\nvars x\nloc heat\ninv 0 <= x <= 40\nflow 1 <= x <= 2\nsafe 18 <= x < 22\nloc cool\ninv 0 <= x <= 40\nflow -2 <= x <= -1\nsafe 18 <= x <= 22\nswitch off ctl heat cool keep\nswitch on ctl cool heat keep\nend\n",
        Status::Done,
        b"lazy full\ncontroller 1\npiece heat x >= 18, x < 22\npiece cool x >= 18, x <= 22\nguard off x >= 18, x < 22\nguard on x >= 18, x < 22\nend\n",
    ),
    (
        &["lazy", "2"],
        DEPENDENCE,
        Status::Spent,
        b"spent 2\nstate cool x = 18\n",
    ),
    (
        &["lazy"],
        b"lhg 1\nvars x\nloc only\nsafe 170141183460469231731687303715884105727*x <= 1/3\nend\n",
        Status::Wide,
        b"wide round 0\n",
    ),
    (
        &["lazy"],
        b"lhg 1\nvars x\nloc run\ninv 0 <= x <= 10\nflow x = 1\nsafe 1/9999999999999999999 < x < 9999999999999999997/9999999999999999998\nloc rest\ninv 0 <= x <= 10\nsafe all\nswitch go ctl run rest keep\nend\n",
        Status::Wide,
        b"wide lazy\n",
    ),
];

// What is no plant, with the answers.
const TEXTS: [(&[&str], &[u8], Status, &[u8]); 10] = [
    (
        &["synth"],
        b"lhg 1\nvars x\nloc heat\ninv 0 <= x <= 40\nflow 1 <= x <= 2\nsafe 18 <= x <= 22\nloc cool\ninv 0 <= x <= 40\nflow -2 <= x <= -1\nsafe 18 <= x <= 22\nswitch off ctl heat",
        Status::Text,
        b"text line 11 NotHere\n",
    ),
    (
        &["synth"],
        b"lhg 1\nvars x\nloc heat\ninv 0 <= x <= 40\nflow 1 <= x <= 2\nsafe 18 <= x <= 22\nloc cool\ninv 0 <= x <= 40\nflow -2 <= x <= -1\nsafe 18 <= x <= 22\nswitch off ctl heat cool keep\n",
        Status::Text,
        b"text line 12 NotHere\n",
    ),
    (
        &["synth"],
        b"lhg 1\nvars x\nloc heat\ninv 0 <= x <= 170141183460469231731687303715884105728\nflow 1 <= x <= 2\nsafe 18 <= x <= 22\nloc cool\ninv 0 <= x <= 40\nflow -2 <= x <= -1\nsafe 18 <= x <= 22\nswitch off ctl heat cool keep\nswitch on ctl cool heat keep\nend\n",
        Status::Text,
        b"text line 4 LongNumber\n",
    ),
    (
        &["synth"],
        b"lhg 1\nvars x\nloc heat\ninv 0 <= x <= 40\nflow x = 1/0\nsafe 18 <= x <= 22\nloc cool\ninv 0 <= x <= 40\nflow -2 <= x <= -1\nsafe 18 <= x <= 22\nswitch off ctl heat cool keep\nswitch on ctl cool heat keep\nend\n",
        Status::Text,
        b"text line 5 ZeroDenominator\n",
    ),
    (
        &["synth"],
        b"lhg 1\nvars x\nloc heat\ninv 0 <= x <= 40\nflow 1 <= x <= 2\nsafe 18 <= x <= 22\nloc cool\ninv 0 <= x <= 40\nflow -2 <= x <= -1\nsafe 18 <= x <= 22\nswitch off ctl heat warm keep\nswitch on ctl cool heat keep\nend\n",
        Status::Text,
        b"text line 11 NotHere\n",
    ),
    (
        &["synth"],
        b"lhg 1\nvars x\xff\nloc heat\ninv 0 <= x <= 40\nflow 1 <= x <= 2\nsafe 18 <= x <= 22\nloc cool\ninv 0 <= x <= 40\nflow -2 <= x <= -1\nsafe 18 <= x <= 22\nswitch off ctl heat cool keep\nswitch on ctl cool heat keep\nend\n",
        Status::Text,
        b"text line 2 BadByte\n",
    ),
    (&["synth"], b"", Status::Text, b"text line 1 NotHere\n"),
    (&["lazy"], b"", Status::Text, b"text line 1 NotHere\n"),
    (
        &["synth"],
        b"lhg 1\nvars x\nloc only\nend\n\n# the end\nend\n",
        Status::Text,
        b"text line 7 NotHere\n",
    ),
    (
        &["synth"],
        b"lhg 1\nvars x.\n",
        Status::Text,
        b"text line 2 BadByte\n",
    ),
];

#[test]
fn plants(rt: HostRuntime) -> Result<(), Fail> {
    for (words, input, status, text) in PLANTS {
        let (ended, written) = run(rt.alloc(), words, input)?;
        assert_eq!(rt; ended, status);
        assert_eq!(rt; written.as_slice(), text);
    }
    Ok(())
}

#[test]
fn texts(rt: HostRuntime) -> Result<(), Fail> {
    for (words, input, status, text) in TEXTS {
        let (ended, written) = run(rt.alloc(), words, input)?;
        assert_eq!(rt; ended, status);
        assert_eq!(rt; written.as_slice(), text);
    }
    Ok(())
}

// What is asked of no input, with the answers.
const GENERATED: [(&[&str], &[u8]); 3] = [
    (
        &["gen", "1"],
        b"gen 1\nrounds 2\npieces 1\nguards 0\nlosses 2\n",
    ),
    (
        &["gen", "3"],
        b"gen 3\nrounds 4\npieces 3\nguards 2\nlosses 6\n",
    ),
    (
        &["gen", "64"],
        b"gen 64\nrounds 65\npieces 64\nguards 63\nlosses 128\n",
    ),
];

#[test]
fn generated(rt: HostRuntime) -> Result<(), Fail> {
    for (words, text) in GENERATED {
        let source = source_over(rt.alloc(), b"", 4096, 1)?;
        let sink = sink_for(rt.alloc(), AMPLE, 10, NEVER)?;
        let (ended, written) = run_over(rt.alloc(), words, source, sink)?;
        assert_eq!(rt; ended, Status::Done);
        assert_eq!(rt; written.as_slice(), text);
    }
    Ok(())
}

const OTHER_WORDS: [&[&str]; 22] = [
    &[],
    &["check", "1"],
    &["migrate", "2"],
    &["check", "migrate"],
    &["explains"],
    &["explain", "0"],
    &["run", "1"],
    &["synth", "0"],
    &["synth", "01"],
    &["synth", "1001"],
    &["synth", "1", "2"],
    &["solve"],
    &["gen"],
    &["gen", "0"],
    &["gen", "01"],
    &["gen", "65"],
    &["gen", "3", "4"],
    &["lazy", "0"],
    &["lazier"],
    &["spoil", "0"],
    &["spoils"],
    &["reach", "1001"],
];

#[test]
fn words(rt: HostRuntime) -> Result<(), Fail> {
    for words in OTHER_WORDS {
        let (ended, written) = run(rt.alloc(), words, PLAIN)?;
        assert_eq!(rt; ended, Status::Words);
        assert_eq!(rt; written.as_slice(), USAGE);
    }
    Ok(())
}

#[test]
fn faults(rt: HostRuntime) -> Result<(), Fail> {
    let source = source_over(rt.alloc(), PLAIN, 4096, 2)?;
    let sink = sink_for(rt.alloc(), AMPLE, 10, NEVER)?;
    let (ended, written) = run_over(rt.alloc(), SYNTH, source, sink)?;
    assert_eq!(rt; ended, Status::Read);
    assert_eq!(rt; written.as_slice(), b"".as_slice());
    let source = source_over(rt.alloc(), PLAIN, 4096, NEVER)?;
    let sink = sink_for(rt.alloc(), AMPLE, 10, 2)?;
    let (ended, written) = run_over(rt.alloc(), SYNTH, source, sink)?;
    assert_eq!(rt; ended, Status::Write);
    assert_eq!(rt; written.as_slice(), b"report 1\nr".as_slice());
    Ok(())
}

#[test]
fn too_long(rt: HostRuntime) -> Result<(), Fail> {
    let input = vec![in rt.alloc(); b'#'; 1_048_577]?;
    let (ended, written) = run(rt.alloc(), SYNTH, &input)?;
    assert_eq!(rt; ended, Status::Text);
    assert_eq!(rt; written.as_slice(), b"text line 0 TooLong\n".as_slice());
    Ok(())
}
