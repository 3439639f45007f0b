//! Plants that are read and printed.
ghost use Rattle.std.specs.Prelude.{◌≤◌, length};

use crate::print_plant;
use lhg_lex::{Lines, TEXT_LIMIT};
use lhg_read::read_plant;
use std::alloc::Global;
use std::test::Fail;

const PLAIN: &[u8] = b"lhg 1\nvars x\nloc only\ninv 0 <= x <= 8\nflow still\nsafe x <= 8\nend\n";

const PLAIN_PRINTED: &[u8] =
    b"lhg 1\nvars x\nloc only\ninv x >= 0, x <= 8\nflow x <= 0, x >= 0\nsafe x <= 8\nend\n";

// Two variables, a location without safe states, a union of safe states, fractions, and each side of a switch.
const RICH: &[u8] =
    b"lhg 1\nvars x y\nloc a\nflow all\ninv 0 <= x & -1/2 < y\nloc b\nsafe all\nflow x' = 1.50, x - 2*y < 3\nsafe y == 2/4
switch go env a b x' = 2*x - y, -3/4*y' < 1\nswitch stay ctl b b keep\nswitch back pick b a x' = 0\nend";

const RICH_PRINTED: &[u8] =
    b"lhg 1\nvars x y\nloc a\ninv x >= 0, y > -1/2\nflow all\nloc b\ninv all\nflow x <= 3/2, x >= 3/2, x - 2*y < 3\nsafe all\nsafe y <= 1/2, y >= 1/2
switch go env a b 2*x - y - x' >= 0, 2*x - y - x' <= 0, 3/4*y' > -1\nswitch stay ctl b b x - x' >= 0, x - x' <= 0, y - y' >= 0, y - y' <= 0\nswitch back pick b a x' <= 0, x' >= 0\nend\n";

const CASES: [(&[u8], &[u8]); 3] = [
    (PLAIN, PLAIN_PRINTED),
    (RICH, RICH_PRINTED),
    (RICH_PRINTED, RICH_PRINTED),
];

fn printed(alloc: Global, text: &[u8]) -> Result<Vec<u8>, Fail>
    requires { length text.now ≤ TEXT_LIMIT }
{
    let mut lines = Lines::new(text);
    let plant = read_plant(alloc, &mut lines)?;
    Ok(print_plant(alloc, &plant)?)
}

#[test]
fn texts(rt: HostRuntime) -> Result<(), Fail> {
    for (text, wanted) in CASES {
        let answer = printed(rt.alloc(), text)?;
        assert_eq!(rt; answer.as_slice(), wanted);
    }
    Ok(())
}
