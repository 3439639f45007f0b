//! What becomes of states, how the plant wins them, where first ones lead, and runs over logs.
use crate::Status;
use crate::plant_texts::{
    BEND, DEPENDENCE, EDGE, NO_END, ONE_FLOW, OPEN_EDGE, OPEN_EDGE_CONTROLLER, PICKED_RESULT,
    PICKED_RESULT_CONTROLLER, THERMOSTAT, THERMOSTAT_CONTROLLER, TIE_OPEN, TWO_GUARDS,
};
use crate::tests::run;
use std::test::Fail;

// What is asked of a plant and a state, of these and moves, or of a plant and its first states, with the answers.
const STATES: [(&[&str], &[u8], &[u8], Status, &[u8]); 28] = [
    (
        &["explain"],
        DEPENDENCE,
        b"state cool x = 20\n",
        Status::Done,
        b"round 2\nflow 1 x = 18\nflow 9 x = 0\nend\n",
    ),
    (
        &["explain"],
        THERMOSTAT,
        b"state heat x = 20\n",
        Status::Done,
        b"kept\n",
    ),
    (
        &["explain"],
        THERMOSTAT,
        b"state heat x = 30\n",
        Status::Done,
        b"unsafe\n",
    ),
    (
        &["explain"],
        THERMOSTAT,
        b"state heat x = 41\n",
        Status::Done,
        b"outside\n",
    ),
    (
        &["explain", "3"],
        NO_END,
        b"state grow x = 3/16\n",
        Status::Done,
        b"round 3\nenv double grow x = 3/8\nend\n",
    ),
    (
        &["explain", "3"],
        NO_END,
        b"state grow x = 1/16\n",
        Status::Spent,
        b"spent 3\nstate grow x = 1/4\n",
    ),
    (
        &["explain"],
        THERMOSTAT,
        b"",
        Status::Text,
        b"text line 14 NotHere\n",
    ),
    (
        &["explain"],
        BEND,
        b"state run x = 0, y = 21/20\n",
        Status::Done,
        b"round 1\nflow 1 x = 1, y = 41/20\nflow 1 x = 2, y = 3\nflow 1 x = 3, y = 2\nflow 1 x = 4, y = 1\nend\n",
    ),
    (
        &["explain"],
        EDGE,
        b"state run x = 0, y = 0\n",
        Status::Done,
        b"round 1\nflow 1 x = 1, y = 1\nflow 1 x = 2, y = 0\nend\n",
    ),
    (
        &["explain"],
        TIE_OPEN,
        b"state run x = 7\n",
        Status::Done,
        b"round 1\nenv hit bad x = 7\nend\n",
    ),
    (
        &["explain"],
        b"lhg 1\nvars x\nloc a1\ninv 0 <= x <= 10\nflow x = 1\nsafe x <= 8\nsafe x >= 9\nloc a2\ninv 0 <= x <= 10\nflow x = 1\nsafe x <= 8\nsafe x >= 9\nloc a3\ninv 0 <= x <= 10\nflow x = 1\nsafe x <= 8\nsafe x >= 9\nswitch g1 ctl a1 a2 keep\nswitch g2 ctl a2 a3 keep\nend\n",
        b"state a1 x = 4\n",
        Status::Done,
        b"round 3\nflow 4 x = 8\nflow 1/2 x = 17/2\nend\n",
    ),
    (
        &["explain"],
        ONE_FLOW,
        b"state only x = 8\n",
        Status::Done,
        b"round 1\nflow 2 x = 10\nend\n",
    ),
    (
        &["spoil"],
        DEPENDENCE,
        b"state cool x = 20\nact 1 1/2 on\nend\n",
        Status::Done,
        b"spoil 1\nstart cool x = 20\nround 2\nflow 1/2 x = 19\nact on\nland heat x = 19\nround 1\nflow 3/2 x = 22\nflow 9 x = 40\nunsafe heat x = 40\nend\n",
    ),
    (
        &["spoil", "2"],
        DEPENDENCE,
        b"state cool x = 20\nend\n",
        Status::Done,
        b"spoil 1\nstart cool x = 20\nround 2\nflow 1 x = 18\nflow 9 x = 0\nunsafe cool x = 0\nend\n",
    ),
    (
        &["spoil"],
        DEPENDENCE,
        b"state cool x = 20\nact 3 0 on\nend\n",
        Status::No,
        b"spoil 1\nstart cool x = 20\nround 2\nillegal 1\n",
    ),
    (
        &["spoil"],
        TIE_OPEN,
        b"state run x = 3\nact 2 3/10 go\nend\n",
        Status::Done,
        b"spoil 1\nstart run x = 3\nround 1\nflow 2 x = 5\nflow 3/2 x = 13/2\nenv hit bad x = 13/2\nunsafe bad x = 13/2\nend\n",
    ),
    (
        &["spoil"],
        b"lhg 1\nvars x\nloc run\ninv 0 <= x <= 10\nflow x = 1\nsafe x < 8\nloc other\ninv 0 <= x <= 10\nflow x = 1\nsafe x <= 5\nswitch go pick run other keep\nend\n",
        b"state run x = 3\nact 2 1/5 go x = 6\nend\n",
        Status::Done,
        b"spoil 1\nstart run x = 3\nround 2\nflow 2 x = 5\nflow 1 x = 6\nround 1\nact go\nland other x = 6\nunsafe other x = 6\nend\n",
    ),
    (
        &["spoil"],
        DEPENDENCE,
        b"state cool x = 20\nact 1 1/2 on\nact 1 1/170141183460469231731687303715884105727 off\nend\n",
        Status::Wide,
        b"wide exchange 2\n",
    ),
    (
        &["spoil"],
        DEPENDENCE,
        b"state cool x = 20\nact 0 0 on\nend\n",
        Status::Text,
        b"text line 15 NotHere\n",
    ),
    (
        &["reach", "5"],
        ONE_FLOW,
        b"init only x = 3\nend\n",
        Status::Done,
        b"reach 1\nrounds 2\npiece only x >= 3, x <= 3\npiece only x > 3, x <= 10\nend\n",
    ),
    (
        &["reach"],
        ONE_FLOW,
        b"init only 2 < x < 3\ninit only x = 11\nend\n",
        Status::Done,
        b"reach 1\nrounds 2\npiece only x > 2, x < 3\npiece only x > 2, x <= 10\nend\n",
    ),
    (
        &["reach", "3"],
        NO_END,
        b"init grow x = 1\nend\n",
        Status::Spent,
        b"spent 3\nstate grow x = 8\n",
    ),
    (
        &["reach", "1000"],
        NO_END,
        b"init grow x = 1\nend\n",
        Status::Wide,
        b"wide round 127\n",
    ),
    (
        &["reach"],
        NO_END,
        b"end\n",
        Status::Done,
        b"reach 1\nrounds 1\nend\n",
    ),
    (
        &["reach"],
        b"lhg 1\nvars x\nloc a\nloc b\nloc c\nloc d\nswitch go ctl a b keep\nswitch hit env b c x' = 2*x\nswitch set pick c d 5 <= x' <= 6\nend\n",
        b"init a x = 1\nend\n",
        Status::Done,
        b"reach 1\nrounds 4\npiece a x <= 1, x >= 1\npiece b x <= 1, x >= 1\npiece c x <= 2, x >= 2\npiece d x >= 5, x <= 6\nend\n",
    ),
    (
        &["reach"],
        THERMOSTAT,
        b"init heat x = 20\ninit warm x = 20\nend\n",
        Status::Text,
        b"text line 15 NotHere\n",
    ),
    (
        &["reach"],
        THERMOSTAT,
        b"init heat x' = 20\nend\n",
        Status::Text,
        b"text line 14 NotHere\n",
    ),
    (
        &["reach"],
        b"lhg 1\nvars keep\nloc a\nend\n",
        b"end\n",
        Status::Text,
        b"text line 2 NotHere\n",
    ),
];

// A plant, a controller and a log, and the answer.
const LOGS: [(&[u8], &[u8], &[u8], Status, &[u8]); 13] = [
    (
        OPEN_EDGE,
        OPEN_EDGE_CONTROLLER,
        b"start run x = 0\nflow 9 x = 9\nland x = 15/2\nend\n",
        Status::Done,
        b"trace 1\nstart run x = 0\nflow 15/2 x = 15/2\nswitch go\nland rest x = 15/2\nend\n",
    ),
    (
        OPEN_EDGE,
        OPEN_EDGE_CONTROLLER,
        b"start run x = 0\nflow 9 x = 9\nend\n",
        Status::Done,
        b"trace 1\nstart run x = 0\nflow 15/2 x = 15/2\nswitch go\nend\n",
    ),
    (
        THERMOSTAT,
        THERMOSTAT_CONTROLLER,
        b"start heat x = 20\nflow 1/2 x = 21\nflow 1/2 x = 22\nflow 1 x = 25\nend\n",
        Status::No,
        b"trace 1\nstart heat x = 20\nflow 1/2 x = 21\nflow 1/2 x = 22\nillegal 3\n",
    ),
    (
        THERMOSTAT,
        THERMOSTAT_CONTROLLER,
        b"start heat x = 23\nend\n",
        Status::No,
        b"trace 1\nillegal 0\n",
    ),
    (
        THERMOSTAT,
        THERMOSTAT_CONTROLLER,
        b"start heat x = 20\nland x = 21\nend\n",
        Status::No,
        b"trace 1\nstart heat x = 20\nillegal 1\n",
    ),
    (
        THERMOSTAT,
        b"controller 1\npiece heat x >= 18, x <= 22\npiece cool x >= 18, x <= 22\nguard on x >= 18, x <= 22\nend\n",
        b"start heat x = 20\nend\n",
        Status::No,
        b"escapes heat x = 22\n",
    ),
    (
        THERMOSTAT,
        THERMOSTAT_CONTROLLER,
        b"",
        Status::Text,
        b"text line 20 NotHere\n",
    ),
    (
        PICKED_RESULT,
        PICKED_RESULT_CONTROLLER,
        b"start run x = 0\nflow 9 x = 9\nend\n",
        Status::Done,
        b"trace 1\nstart run x = 0\nflow 8 x = 8\nswitch go\nland rest x = 0\nend\n",
    ),
    (
        PICKED_RESULT,
        PICKED_RESULT_CONTROLLER,
        b"start run x = 0\nflow 9 x = 9\nland x = 1\nend\n",
        Status::No,
        b"trace 1\nstart run x = 0\nflow 8 x = 8\nswitch go\nland rest x = 0\nillegal 2\n",
    ),
    (
        b"lhg 1\nvars x y\nloc run\ninv 0 <= x <= 4, 0 <= y <= 4\nflow x = 1, y = 0\nsafe all\nend\n",
        b"controller 1\npiece run y <= 2\nend\n",
        b"start run x = 0, y = 2\nflow 4 x = 4, y = 2\nend\n",
        Status::Done,
        b"trace 1\nstart run x = 0, y = 2\nflow 4 x = 4, y = 2\nend\n",
    ),
    (
        THERMOSTAT,
        THERMOSTAT_CONTROLLER,
        b"start heat x = 22\nflow 1 x = 23\nland x = 22\nend\n",
        Status::Done,
        b"trace 1\nstart heat x = 22\nswitch off\nland cool x = 22\nend\n",
    ),
    (
        TWO_GUARDS,
        b"controller 1\npiece run x <= 5\npiece a all\npiece b all\nguard second 3 <= x <= 5\nguard first 4 <= x <= 5\nend\n",
        b"start run x = 0\nflow 8 x = 8\nland x = 5\nend\n",
        Status::Done,
        b"trace 1\nstart run x = 0\nflow 5 x = 5\nswitch first\nland a x = 5\nend\n",
    ),
    (
        TWO_GUARDS,
        b"controller 1\npiece run x <= 5\npiece a all\npiece b all\nguard second 3 <= x <= 5\nguard first 4 <= x < 5\nend\n",
        b"start run x = 0\nflow 8 x = 8\nland x = 5\nend\n",
        Status::Done,
        b"trace 1\nstart run x = 0\nflow 5 x = 5\nswitch second\nland b x = 5\nend\n",
    ),
];

#[test]
fn states(rt: HostRuntime) -> Result<(), Fail> {
    for (words, plant, state, status, text) in STATES {
        let input = [plant, state].concat(rt.alloc())?;
        let (ended, written) = run(rt.alloc(), words, &input)?;
        assert_eq!(rt; ended, status);
        assert_eq!(rt; written.as_slice(), text);
    }
    Ok(())
}

#[test]
fn logs(rt: HostRuntime) -> Result<(), Fail> {
    for (plant, controller, log, status, text) in LOGS {
        let input = [plant, controller, log].concat(rt.alloc())?;
        let (ended, written) = run(rt.alloc(), &["run"], &input)?;
        assert_eq!(rt; ended, status);
        assert_eq!(rt; written.as_slice(), text);
    }
    Ok(())
}

// A log of 10,000 entries: the plant heats past 22, is switched off there, cools past 18, and is switched on there, again and again.
#[test]
fn long_log(rt: HostRuntime) -> Result<(), Fail> {
    let mut input = [THERMOSTAT, THERMOSTAT_CONTROLLER].concat(rt.alloc())?;
    input.extend_from_slice(b"start heat x = 18\n")?;
    let mut trace = b"trace 1\nstart heat x = 18\n".to_vec(rt.alloc())?;
    for _ in 0..2_500 {
        input.extend_from_slice(b"flow 5 x = 23\nland x = 22\nflow 5 x = 17\nland x = 18\n")?;
        trace.extend_from_slice(
            b"flow 4 x = 22\nswitch off\nland cool x = 22\nflow 4 x = 18\nswitch on\nland heat x = 18\n",
        )?;
    }
    input.extend_from_slice(b"end\n")?;
    trace.extend_from_slice(b"end\n")?;
    let (ended, written) = run(rt.alloc(), &["run"], &input)?;
    assert_eq!(rt; ended, Status::Done);
    assert!(rt; written == trace, "another trace");
    Ok(())
}
