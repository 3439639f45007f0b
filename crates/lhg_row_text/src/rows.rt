// Prints rows and lists of rows.
ghost use Rattle.std.specs.Prelude.{◌≡◌, ◌≤◌, ◌+◌, ◌++◌, OnOk, length, not, position};
ghost use Rattle.lhg_math.specs.Signs.{is_nought};
ghost use Rattle.lhg_math.specs.Tests.{AllOf};
ghost use Rattle.lhg_row.specs.Width.{AllWide};
ghost use Rattle.lhg_row_text.specs.RowText.{turned, operator_text, number_text, jump_names, row_text, next_rows, rows_text};
ghost use Rattle.lhg_row_text.specs.Short.{IsShort, IsShortRow, AllShort};

use crate::numbers::{is_negative, push_number};
use crate::terms::{push_terms_from, turned};
use lhg_num::{Frac, Scalar};
use lhg_plant::Name;
use lhg_row::Row;
use std::alloc::AllocError;

// The place of the first coefficient that is not zero.
fn lead_place(coefs: &[Frac]) -> Option<usize>
    ensures { result ≡ position (λ c. not (is_nought c)) coefs.now }
{
    coefs.iter().position(|c| !c.is_zero())
}

fn push_operator(text: &mut Vec<u8>, flip: bool, strict: bool) -> Result<(), AllocError>
    ensures { OnOk result (text.new.items ≡ text.old.items ++ operator_text flip strict) }
{
    let operator = match (flip, strict) {
        (true, true) => b" > ".as_slice(),
        (true, false) => b" >= ".as_slice(),
        (false, true) => b" < ".as_slice(),
        (false, false) => b" <= ".as_slice(),
    };
    text.extend_from_slice(operator)
}

// The operator of a row and its bound.
fn push_bound(text: &mut Vec<u8>, flip: bool, strict: bool, bound: &Frac) -> Result<(), AllocError>
    ensures text { OnOk result (text.new.items ≡ text.old.items ++ (operator_text flip strict ++ number_text (turned flip bound.now))) }
    ensures short { OnOk result (IsShort bound.now) }
{
    push_operator(text, flip, strict)?;
    push_number(text, &turned(flip, bound))
}

fn push_parts(
    text: &mut Vec<u8>,
    vars: &[Name],
    coefs: &[Frac],
    strict: bool,
    bound: &Frac,
) -> Result<(), AllocError>
    requires { length coefs.now ≤ length vars.now + length vars.now }
    ensures text { OnOk result (text.new.items ≡ text.old.items ++ row_text (jump_names vars.now) (record { coefs = coefs.now; strict = strict; bound = bound.now })) }
    ensures coefs { OnOk result (AllOf IsShort coefs.now) }
    ensures bound { OnOk result (IsShort bound.now) }
{
    match lead_place(coefs) {
        None => push_bound(text, false, strict, bound),
        Some(place) => {
            let flip = is_negative(&coefs[place]);
            push_terms_from(text, vars, coefs, place, flip)?;
            push_bound(text, flip, strict, bound)
        }
    }
}

// A row over the old variables, or over these and the new ones.
fn push_row(text: &mut Vec<u8>, vars: &[Name], row: &Row<Frac>) -> Result<(), AllocError>
    requires { length row.now.coefs ≤ length vars.now + length vars.now }
    ensures text { OnOk result (text.new.items ≡ text.old.items ++ row_text (jump_names vars.now) row.now) }
    ensures short { OnOk result (IsShortRow row.now) }
{
    push_parts(
        text,
        vars,
        row.coefs.as_slice(),
        row.kind.is_strict(),
        &row.bound,
    )
}

// The rows behind the first.
fn push_next_rows(text: &mut Vec<u8>, vars: &[Name], rows: &[Row<Frac>]) -> Result<(), AllocError>
    requires { AllOf (λ r. length r.coefs ≤ length vars.now + length vars.now) rows.now }
    ensures text { OnOk result (text.new.items ≡ text.old.items ++ next_rows (jump_names vars.now) rows.now) }
    ensures short { OnOk result (AllShort rows.now) }
{
    for i in 0..rows.len() {
        text.extend_from_slice(b", ")?;
        push_row(text, vars, &rows[i])?;
    }
    Ok(())
}

fn push_list(text: &mut Vec<u8>, vars: &[Name], rows: &[Row<Frac>]) -> Result<(), AllocError>
    requires { AllOf (λ r. length r.coefs ≤ length vars.now + length vars.now) rows.now }
    ensures text { OnOk result (text.new.items ≡ text.old.items ++ rows_text (jump_names vars.now) rows.now) }
    ensures short { OnOk result (AllShort rows.now) }
{
    match rows.split_first() {
        None => text.extend_from_slice(b"all"),
        Some((first, rest)) => {
            push_row(text, vars, first)?;
            push_next_rows(text, vars, rest)
        }
    }
}

/// Appends a list of rows over the variables. After want of memory nothing is said of the text.
pub fn push_rows(text: &mut Vec<u8>, vars: &[Name], rows: &[Row<Frac>]) -> Result<(), AllocError>
    requires { AllWide (length vars.now) rows.now }
    ensures text { OnOk result (text.new.items ≡ text.old.items ++ rows_text vars.now rows.now) }
    ensures short { OnOk result (AllShort rows.now) }
{
    push_list(text, vars, rows)
}

/// Appends a list of rows over the old variables and then the new ones.
pub fn push_jump_rows(
    text: &mut Vec<u8>,
    vars: &[Name],
    rows: &[Row<Frac>],
) -> Result<(), AllocError>
    requires { AllWide (length vars.now + length vars.now) rows.now }
    ensures text { OnOk result (text.new.items ≡ text.old.items ++ rows_text (jump_names vars.now) rows.now) }
    ensures short { OnOk result (AllShort rows.now) }
{
    push_list(text, vars, rows)
}
