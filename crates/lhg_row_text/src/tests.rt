//! Rows and states that are read and printed.
ghost use Rattle.std.specs.Prelude.{length, map};
ghost use Rattle.lhg_math.specs.Tests.{AllOf};
ghost use Rattle.lhg_plant.specs.Proper.{IsLocation};
ghost use Rattle.lhg_plant.specs.Views.{plain_location};

use crate::{push_rows, push_state};
use lhg_lex::Lines;
use lhg_plant::{Location, Name};
use lhg_read::{read_plant, read_state};
use std::test::Fail;

// Signs, fractions, a row that is negated, both kinds, pairs of rows, and no row.
const ROWS: &[u8] =
    b"lhg 1\nvars x y z\nloc a\ninv x >= 18\nloc b\ninv -2/4*x < 1/3 & y <= 0\nloc c\ninv all\nloc d\ninv 1.5*y - z == -0.25
loc e\ninv -1 <= y + 3*z < 7\nloc f\ninv x - y - 4/2*z > 0\nend\nstate b x = -3/6, y = 0, z = 2.50\n";

const PRINTED: &[u8] =
    b"x >= 18\n1/2*x > -1/3, y <= 0\nall\n3/2*y - z <= -1/4, 3/2*y - z >= -1/4\ny + 3*z >= -1, y + 3*z < 7\nx - y - 2*z > 0\nb x = -1/2, y = 0, z = 5/2";

// The rows of the invariants, a line each.
fn push_each(text: &mut Vec<u8>, vars: &[Name], locs: &[Location]) -> Result<(), Fail>
    requires { AllOf (IsLocation (length vars.now)) (map plain_location locs.now) }
{
    for i in 0..locs.len() {
        push_rows(text, vars, &locs[i].inv)?;
        text.extend_from_slice(b"\n")?;
    }
    Ok(())
}

#[test]
fn rows(rt: HostRuntime) -> Result<(), Fail> {
    let mut lines = Lines::new(ROWS);
    let plant = read_plant(rt.alloc(), &mut lines)?;
    let state = read_state(rt.alloc(), &mut lines, &plant)?;
    assert!(rt; (state.loc as usize) < plant.locs.len());
    assert!(rt; state.at.at.len() == plant.vars.len());
    let mut text = Vec::new(rt.alloc());
    push_each(&mut text, &plant.vars, &plant.locs)?;
    push_state(&mut text, &plant, &state)?;
    assert_eq!(rt; text.as_slice(), PRINTED);
    Ok(())
}
