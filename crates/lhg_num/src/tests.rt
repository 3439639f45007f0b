// Worked numbers with their edges, generic code at fractions, and the names of refusals.
use crate::{DivError, Frac, Halt, Scalar, Wide};
use std::cmp::Ordering;
use std::test::Fail;

const MAX: i128 = i128::MAX;

// 2^126
const HIGH: i128 = 85070591730234615865843651857942052864;

fn parts(x: Frac) -> (i128, i128) {
    (x.numer(), x.denom())
}

// Three times the number.
fn tripled<N: Scalar>(x: &N) -> Result<N, Halt> {
    let two = N::one().add(&N::one())?;
    let twice = x.mul(&two)?;
    let sum = twice.add(x)?;
    Ok(sum.sub(&N::zero())?)
}

// Makes the row the multiple that stands for it.
fn canonical<N: Scalar>(row: &mut [N]) -> Result<(), Wide> {
    N::canon(row)
}

#[test]
fn worked_numbers(rt: HostRuntime) -> Result<(), Fail> {
    let half = Frac::new(1, 2)?;
    assert_eq!(rt; Frac::new(4, -6).map(parts), Ok((-2, 3)));
    assert_eq!(rt; Frac::new(1, 0).map(parts), Err(DivError::Zero));
    assert_eq!(rt; half.add(&Frac::new(1, 3)?).map(parts), Ok((5, 6)));
    assert_eq!(rt; Frac::new(1, HIGH)?.mul(&half).map(parts), Err(Wide));
    assert_eq!(rt; Frac::zero().mid(&Frac::one()).map(parts), Ok((1, 2)));

    let next = Frac::new(1, MAX - 1)?;
    assert_eq!(rt; Scalar::cmp(&Frac::new(1, MAX)?, &next), Ok(Ordering::Less));
    assert_eq!(rt; Scalar::cmp(&Frac::new(2, MAX)?, &next), Err(Wide));
    Ok(())
}

#[test]
fn generic_code(rt: HostRuntime) -> Result<(), Fail> {
    assert_eq!(rt; tripled(&Frac::new(1, 3)?)?, Frac::from(1));
    let mut row = [Frac::from(0), Frac::from(-2), Frac::new(3, 2)?];
    canonical(&mut row)?;
    assert_eq!(rt; row.map(parts), [(0, 1), (-1, 1), (3, 4)]);
    Ok(())
}

#[test]
fn refusals_say_their_names(rt: HostRuntime) -> Result<(), Fail> {
    let halts = [
        (Halt::Wide, "Wide"),
        (Halt::Rows, "Rows"),
        (Halt::Pieces, "Pieces"),
        (Halt::Memory, "Memory"),
    ];
    for (halt, name) in halts {
        let said = format!(in rt.alloc(); "{halt}")?;
        assert_eq!(rt; said.as_str(), name);
    }
    for (error, name) in [(DivError::Zero, "Zero"), (DivError::Wide, "Wide")] {
        let said = format!(in rt.alloc(); "{error}")?;
        assert_eq!(rt; said.as_str(), name);
    }
    Ok(())
}
