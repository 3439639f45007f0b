//! Controllers that are checked and written anew, each behind the plant of a thermostat, and those of all reports.
use crate::Status;
use crate::plant_texts::{THERMOSTAT, THERMOSTAT_CONTROLLER};
use crate::tests::{PLANTS, run};
use std::test::Fail;

const SECOND_VERSION: &[u8] =
    b"controller 2\nrounds 0\npiece heat x >= 18, x <= 22\npiece cool x >= 18, x <= 22\nguard off g1 x >= 18, x <= 22\nguard on g2 x >= 18, x <= 22\nend\n";

// What is asked of controllers, with the answers.
const CONTROLLERS: [(&str, &[u8], Status, &[u8]); 12] = [
    ("check", THERMOSTAT_CONTROLLER, Status::Done, b"valid\n"),
    (
        "check",
        b"controller 1\npiece heat x >= 18, x <= 22\npiece cool x >= 18, x <= 22\nguard on x >= 18, x <= 22\nend\n",
        Status::No,
        b"escapes heat x = 22\n",
    ),
    (
        "check",
        b"controller 1\npiece heat x >= 18, x <= 23\npiece cool x >= 18, x <= 22\nguard off x >= 18, x <= 22\nguard on x >= 18, x <= 22\nend\n",
        Status::No,
        b"unsafe heat x = 23\n",
    ),
    (
        "check",
        b"controller 1\npiece heat x >= 18, x <= 22\npiece cool x >= 18, x <= 22\nguard off x >= 10, x <= 22\nguard on x >= 18, x <= 22\nend\n",
        Status::No,
        b"bad guard off heat x = 10\n",
    ),
    ("check", b"controller 1\nend\n", Status::Done, b"valid\n"),
    (
        "check",
        b"controller 1\nguard off all\nend\n",
        Status::No,
        b"bad guard off heat x = 0\n",
    ),
    ("check", SECOND_VERSION, Status::Done, b"valid\n"),
    (
        "check",
        b"controller 1\npiece heat 170141183460469231731687303715884105727*x <= 1/3\nend\n",
        Status::Wide,
        b"wide check\n",
    ),
    (
        "migrate",
        THERMOSTAT_CONTROLLER,
        Status::Done,
        SECOND_VERSION,
    ),
    ("migrate", SECOND_VERSION, Status::Done, SECOND_VERSION),
    (
        "migrate",
        b"controller 2\nrounds 0\npiece heat x >= 18, x <= 22\npiece cool x >= 18, x <= 22\nguard off g1 x >= 18, x <= 22\nguard on g1 x >= 18, x <= 22\nend\n",
        Status::Text,
        b"text line 19 NotHere\n",
    ),
    ("migrate", b"", Status::Text, b"text line 14 NotHere\n"),
];

#[test]
fn controllers(rt: HostRuntime) -> Result<(), Fail> {
    let alloc = rt.alloc();
    for (word, controller, status, text) in CONTROLLERS {
        let input = [THERMOSTAT, controller].concat(alloc)?;
        let (ended, written) = run(alloc, &[word], &input)?;
        assert_eq!(rt; written.as_slice(), text);
        assert_eq!(rt; ended, status);
    }
    Ok(())
}

// The controller of a report, up to its last line.
fn controller_in(report: &[u8]) -> Option<&[u8]> {
    let start = report
        .windows(12)
        .position(|part| part == b"controller 1".as_slice())?;
    let end = report
        .windows(5)
        .position(|part| part == b"\nend\n".as_slice())?;
    report.get(start..end)
}

#[test]
fn reports(rt: HostRuntime) -> Result<(), Fail> {
    let alloc = rt.alloc();
    for (_, plant, status, report) in PLANTS {
        if status == Status::Done {
            let controller = controller_in(report).ok_or("no controller")?;
            let input = [plant, controller, b"\nend\n"].concat(alloc)?;
            let (ended, written) = run(alloc, &["check"], &input)?;
            assert_eq!(rt; written.as_slice(), b"valid\n".as_slice());
            assert_eq!(rt; ended, Status::Done);
        }
    }
    Ok(())
}
