//! The ends in memory, read to the end and written to.
use crate::{
    Failed, Fault, INPUT_LIMIT, MemSink, MemSource, NoMemory, ReadAll, read_all, write_all,
};
use std::test::Fail;

const NEVER: u32 = 99;

#[test]
fn reads_to_the_end(rt: HostRuntime) -> Result<(), Fail> {
    let cases = [
        (b"".as_slice(), 1, NEVER, 0, None),
        (b"vars x\n".as_slice(), 1, NEVER, 7, None),
        (b"vars x\n".as_slice(), 1, NEVER, 6, Some(ReadAll::TooLong)),
        (b"vars x\n".as_slice(), 9, NEVER, INPUT_LIMIT, None),
        (b"vars x\n".as_slice(), 9, 2, 7, Some(ReadAll::Fault)),
        (b"vars x\n".as_slice(), 3, 3, 5, Some(ReadAll::TooLong)),
    ];
    for (bytes, step, fails, limit, want) in cases {
        assert!(rt; step >= 1 && limit <= INPUT_LIMIT);
        let fails = [fails].to_vec(rt.alloc())?;
        let mut source = MemSource::new(bytes.to_vec(rt.alloc())?, step, fails);
        match read_all(rt.alloc(), &mut source, limit) {
            Ok(all) => {
                assert_eq!(rt; all.as_slice(), bytes);
                assert_eq!(rt; want, None, "{limit}");
            }
            Err(stop) => assert_eq!(rt; want, Some(stop), "{limit}"),
        }
    }
    Ok(())
}

#[test]
fn goes_on_after_a_fault(rt: HostRuntime) -> Result<(), Fail> {
    let fails = [2].to_vec(rt.alloc())?;
    let mut source = MemSource::new(b"vars x\n".to_vec(rt.alloc())?, 5, fails);
    let first = read_all(rt.alloc(), &mut source, 7);
    assert!(rt; first.is_err());
    assert_eq!(rt;
        read_all(rt.alloc(), &mut source, 7)?.as_slice(),
        b"x\n".as_slice()
    );
    Ok(())
}

#[test]
fn writes_until_a_fault(rt: HostRuntime) -> Result<(), Fail> {
    let text = b"report 1\nrounds 1\n".as_slice();
    let cases = [
        (64, 1, NEVER, text, Ok(())),
        (18, 7, NEVER, text, Ok(())),
        (64, 10, 2, b"report 1\nr".as_slice(), Err(Fault)),
        (5, 9, NEVER, b"repor".as_slice(), Err(Fault)),
        (64, 9, 1, b"".as_slice(), Err(Fault)),
    ];
    for (room, step, fails, held, want) in cases {
        assert!(rt; step >= 1);
        let fails = [fails].to_vec(rt.alloc())?;
        let mut sink = MemSink::new(rt.alloc(), room, step, fails)?;
        assert_eq!(rt; write_all(&mut sink, text), want, "{room}");
        assert_eq!(rt; sink.held(), held, "{room}");
    }
    Ok(())
}

#[test]
fn refusals_say_their_names(rt: HostRuntime) -> Result<(), Fail> {
    let refusals = [
        (ReadAll::Fault, "Fault"),
        (ReadAll::TooLong, "TooLong"),
        (ReadAll::Memory, "Memory"),
    ];
    for (refusal, name) in refusals {
        let said = format!(in rt.alloc(); "{refusal}")?;
        assert_eq!(rt; said.as_str(), name);
    }
    let fault = format!(in rt.alloc(); "{Fault}")?;
    assert_eq!(rt; fault.as_str(), "Fault");
    let failed = format!(in rt.alloc(); "{Failed}")?;
    assert_eq!(rt; failed.as_str(), "Failed");
    let no_memory = format!(in rt.alloc(); "{NoMemory}")?;
    assert_eq!(rt; no_memory.as_str(), "NoMemory");
    Ok(())
}
