// Worked rows of numbers, and generic code at whole numbers.
use crate::{Whole, content, lift, lower};
use lhg_num::{DivError, Frac, Scalar, Wide};
use std::test::Fail;

fn fractions(parts: [(i128, i128); 3]) -> Result<[Frac; 3], DivError> {
    let [(a, b), (c, d), (e, f)] = parts;
    Ok([Frac::new(a, b)?, Frac::new(c, d)?, Frac::new(e, f)?])
}

fn wholes(values: [i128; 3]) -> Result<[Whole; 3], Wide> {
    let [a, b, c] = values;
    Ok([Whole::new(a)?, Whole::new(b)?, Whole::new(c)?])
}

// The number as a fraction, and back.
fn again<N: Scalar>(x: &N) -> Option<N> {
    N::of_frac(&x.to_frac()?)
}

// Makes the row the multiple that stands for it.
fn canonical<N: Scalar>(row: &mut [N]) -> Result<(), Wide> {
    N::canon(row)
}

#[test]
fn worked_numbers(rt: HostRuntime) -> Result<(), Fail> {
    assert_eq!(rt; content(&wholes([4, -6, 10])?).value(), 2);
    let row = fractions([(1, 2), (1, 3), (5, 6)])?;
    let lifted = lift(rt.alloc(), &row)?;
    assert_eq!(rt; lifted.as_slice(), wholes([3, 2, 5])?.as_slice());
    let lowered = lower(rt.alloc(), &lifted)?;
    let want = fractions([(1, 1), (2, 3), (5, 3)])?;
    assert_eq!(rt; lowered.as_slice(), want.as_slice());
    Ok(())
}

#[test]
fn generic_code(rt: HostRuntime) -> Result<(), Fail> {
    let seven = Whole::new(7)?;
    assert_eq!(rt; again(&seven), Some(seven));
    let mut row = wholes([4, -6, 10])?;
    canonical(&mut row)?;
    assert_eq!(rt; row, wholes([2, -3, 5])?);
    Ok(())
}
