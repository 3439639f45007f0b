// A walk over a text of several lines, its first fault, and what refusals say.
use crate::{Lines, ReadStop, Tok, What};
use std::test::Fail;

#[test]
fn walk(rt: HostRuntime) -> Result<(), Fail> {
    let text = b"\n# \xff\r\nflow 1x<==2# y\r\n\t \r\nend\r";
    let mut lines = Lines::new(text);
    let flow = lines.next(rt.alloc())?.ok_or("a line")?;
    assert_eq!(rt; flow.number, 3);
    let places = [(6, 10), (11, 12), (12, 13), (13, 15), (15, 16), (16, 17)];
    assert_eq!(rt; flow.tokens.len(), places.len());
    for (token, (from, to)) in flow.tokens.iter().zip(places.iter()) {
        assert_eq!(rt; token.from, *from);
        assert_eq!(rt; token.to, *to);
    }
    assert_eq!(rt; flow.tokens[3].kind, Tok::TwoSign(b'<', b'='));
    assert_eq!(rt; flow.tokens[4].kind, Tok::Sign(b'='));
    assert_eq!(rt; lines.lines_read(), 3);
    let end = lines.next(rt.alloc())?.ok_or("a line")?;
    assert_eq!(rt; end.number, 5);
    assert_eq!(rt; end.tokens.len(), 1);
    assert!(rt; end.tokens[0].from <= end.tokens[0].to && end.tokens[0].to as usize <= text.len());
    assert_eq!(rt; lines.text(&end.tokens[0]), b"end".as_slice());
    assert!(rt; lines.next(rt.alloc())?.is_none());
    assert_eq!(rt; lines.lines_read(), 5);
    Ok(())
}

#[test]
fn first_fault(rt: HostRuntime) {
    let mut lines = Lines::new(b"\n# 1/0\n x 1/0 @");
    let stop = ReadStop::Bad {
        line: 3,
        column: 4,
        what: What::ZeroDenominator,
    };
    assert_eq!(rt; lines.next(rt.alloc()).err(), Some(stop));
    assert_eq!(rt; lines.lines_read(), 0);
}

#[test]
fn refusals_say_their_names(rt: HostRuntime) -> Result<(), Fail> {
    let whats = [
        (What::BadByte, "BadByte in line 3, column 4"),
        (What::LongNumber, "LongNumber in line 3, column 4"),
        (What::ZeroDenominator, "ZeroDenominator in line 3, column 4"),
        (What::NotHere, "NotHere in line 3, column 4"),
    ];
    for (what, message) in whats {
        let stop = ReadStop::Bad {
            line: 3,
            column: 4,
            what,
        };
        let said = format!(in rt.alloc(); "{stop}")?;
        assert_eq!(rt; said.as_str(), message);
    }
    let said = format!(in rt.alloc(); "{}", ReadStop::Memory)?;
    assert_eq!(rt; said.as_str(), "Memory");
    Ok(())
}
