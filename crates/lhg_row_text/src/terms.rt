// Prints the terms of rows.
ghost use Rattle.std.specs.Prelude.{◌≡◌, ◌<◌, ◌≤◌, ◌+◌, ◌++◌, [], OnOk, false, length, map, drop, slice_index_or};
ghost use Rattle.lhg_math.specs.Number.{lt, nought};
ghost use Rattle.lhg_math.specs.Tests.{AllOf};
ghost use Rattle.lhg_row_text.specs.RowText.{jump_names, term_text, next_term, next_terms, terms_from, turned};
ghost use Rattle.lhg_row_text.specs.Short.{IsShort};

use crate::numbers::push_size;
use lhg_num::{Frac, Scalar};
use lhg_plant::Name;
use std::alloc::AllocError;
use std::cmp::Ordering;

/// The number, negated where the row is.
pub(crate) fn turned(flip: bool, x: &Frac) -> Frac
    ensures { result ≡ turned flip x.now }
{
    if flip { x.neg() } else { *x }
}

// The variable at a place: an old one, or behind all of them a new one, with `'`.
fn push_variable(text: &mut Vec<u8>, vars: &[Name], place: usize) -> Result<(), AllocError>
    requires { place < length vars.now + length vars.now }
    ensures { OnOk result (text.new.items ≡ text.old.items ++ slice_index_or (jump_names vars.now) place []) }
{
    if place < vars.len() {
        return text.extend_from_slice(vars[place].bytes());
    }
    text.extend_from_slice(vars[place - vars.len()].bytes())?;
    text.extend_from_slice(b"'")
}

// A term without its sign.
fn push_term(text: &mut Vec<u8>, size: &Frac, vars: &[Name], place: usize) -> Result<(), AllocError>
    requires unsigned { lt size.now nought ≡ false }
    requires there { place < length vars.now + length vars.now }
    ensures text { OnOk result (text.new.items ≡ text.old.items ++ term_text size.now (slice_index_or (jump_names vars.now) place [])) }
    ensures short { OnOk result (IsShort size.now) }
{
    if size.numer().unsigned_abs() == 1 && size.denom() == 1 {
        return push_variable(text, vars, place);
    }
    push_size(text, size)?;
    text.extend_from_slice(b"*")?;
    push_variable(text, vars, place)
}

fn push_next_term(
    text: &mut Vec<u8>,
    coefficient: &Frac,
    vars: &[Name],
    place: usize,
) -> Result<(), AllocError>
    requires { place < length vars.now + length vars.now }
    ensures text { OnOk result (text.new.items ≡ text.old.items ++ next_term coefficient.now (slice_index_or (jump_names vars.now) place [])) }
    ensures short { OnOk result (IsShort coefficient.now) }
{
    match coefficient.sign() {
        Ordering::Equal => Ok(()),
        Ordering::Less => {
            text.extend_from_slice(b" - ")?;
            push_term(text, &coefficient.neg(), vars, place)
        }
        Ordering::Greater => {
            text.extend_from_slice(b" + ")?;
            push_term(text, coefficient, vars, place)
        }
    }
}

// The terms from a place on, each with its sign in front.
fn push_next_terms(
    text: &mut Vec<u8>,
    vars: &[Name],
    coefs: &[Frac],
    from: usize,
    flip: bool,
) -> Result<(), AllocError>
    requires { length coefs.now ≤ length vars.now + length vars.now }
    ensures text { OnOk result (text.new.items ≡ text.old.items ++ next_terms (drop from (jump_names vars.now)) (map (turned flip) (drop from coefs.now))) }
    ensures short { OnOk result (AllOf IsShort (drop from coefs.now)) }
{
    for i in from..coefs.len() {
        push_next_term(text, &turned(flip, &coefs[i]), vars, i)?;
    }
    Ok(())
}

/// Appends the terms from a place on, where once it is turned the coefficient there has no sign.
pub(crate) fn push_terms_from(
    text: &mut Vec<u8>,
    vars: &[Name],
    coefs: &[Frac],
    place: usize,
    flip: bool,
) -> Result<(), AllocError>
    requires wide { length coefs.now ≤ length vars.now + length vars.now }
    requires there { place < length coefs.now }
    requires unsigned { lt (turned flip (slice_index_or coefs.now place nought)) nought ≡ false }
    ensures text { OnOk result (text.new.items ≡ text.old.items ++ terms_from place (jump_names vars.now) (map (turned flip) coefs.now)) }
    ensures short { OnOk result (AllOf IsShort (drop place coefs.now)) }
{
    push_term(text, &turned(flip, &coefs[place]), vars, place)?;
    push_next_terms(text, vars, coefs, place + 1, flip)
}
