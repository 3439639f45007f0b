// The pruned way gives the piece of the plain one.
ghost use Rattle.std.specs.Prelude.{◌≡◌, IfOk, length};
ghost use Rattle.lhg_row.specs.Width.{AllWide};

use crate::project_further;
use crate::projecting::by_whole;
use lhg_num::{Frac, Halt};
use lhg_poly::{Poly, project};
use lhg_row::{Kind, Row, System, trim, whole_row};
use std::alloc::Global;
use std::process::Abort;
use std::test::Fail;

// The coefficients of x, y and z, the kind, and the bound.
type Line = (i64, i64, i64, Kind, i64);

// A box without a corner, below a slope of z, and rows that have room everywhere on it.
const CORNER: [Line; 11] = [
    (-1, 0, 0, Kind::Weak, 0),
    (1, 0, 0, Kind::Strict, 5),
    (0, -1, 0, Kind::Weak, 0),
    (0, 1, 0, Kind::Weak, 4),
    (0, 0, -1, Kind::Strict, 0),
    (0, 0, 1, Kind::Weak, 9),
    (1, 2, 1, Kind::Weak, 14),
    (-1, 2, -3, Kind::Weak, 7),
    (2, 3, 1, Kind::Weak, 100),
    (-2, -3, -1, Kind::Weak, 50),
    (1, -1, 2, Kind::Strict, 70),
];

fn row(alloc: Global, line: &Line) -> Result<Row<Frac>, Halt>
    ensures { IfOk result (λ r. length r.coefs ≡ 3) }
{
    let (x, y, z, kind, bound) = *line;
    whole_row(alloc, &[x, y, z], kind, bound)
}

fn rows(alloc: Global, lines: &[Line]) -> Result<Vec<Row<Frac>>, Halt>
    ensures { IfOk result (λ v. AllWide 3 v.items) }
{
    let mut out = Vec::with_capacity(alloc, lines.len())?;
    for line in lines {
        out.push(row(alloc, line)?)?;
    }
    Ok(out)
}

fn system(alloc: Global, lines: &[Line]) -> Result<System<Frac>, Halt>
    ensures { IfOk result (λ s. s.width ≡ 3) }
{
    let rows = rows(alloc, lines)?;
    trim(alloc, 3, rows)
}

fn is(row: &Row<Frac>, other: &Row<Frac>) -> bool {
    row.coefs.as_slice() == other.coefs.as_slice()
        && row.kind == other.kind
        && row.bound == other.bound
}

// Whether these are the same pieces.
fn are(piece: &Poly<Frac>, other: &Poly<Frac>) -> bool {
    let rows = piece.rows();
    let others = other.rows();
    rows.len() == others.len() && rows.iter().zip(others).all(|(row, other)| is(row, other))
}

#[test]
fn prunes_to_the_same_piece(rt: HostRuntime) -> Result<(), Fail> {
    let system = system(rt.alloc(), &CORNER)?;
    let plain = project(rt.alloc(), &system, 2)?.ok_or("none")?;
    let short = by_whole(rt.alloc(), &system, 2, 0)?.ok_or("none")?;
    assert!(rt; are(&short, &plain));
    let further = project_further(rt.alloc(), &system, 2)?.ok_or("none")?;
    assert!(rt; are(&further, &plain));
    let line = project(rt.alloc(), &system, 1)?.ok_or("none")?;
    let short = by_whole(rt.alloc(), &system, 1, 0)?.ok_or("none")?;
    assert!(rt; are(&short, &line));
    Ok(())
}
