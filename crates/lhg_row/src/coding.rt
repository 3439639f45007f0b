// Rows with a number that all rows of their direction share, where it is known: rows with different numbers have different directions.
ghost use Rattle.std.specs.Prelude.{◌≡◌, ◌⊎◌, ◌<◌, map, true, false, IfSome};
ghost use Rattle.lhg_math.specs.Number.{quot};
ghost use Rattle.lhg_row.specs.Trim as calculus;
ghost use Rattle.lhg_row.specs.Codes as plain;

use crate::rows::Row;
use crate::scaling::lead_size;
use lhg_num::{Frac, Scalar};
use std::cmp::Ordering;
use std::marker::Model;

// The number above all codes.
const UNKNOWN: u64 = 4294967296;

/// A row and its code.
#[derive(Drop)]
pub(crate) struct Coded<N: Scalar> {
    code: u64,
    pub(crate) row: Row<N>,
}

impl<N: Scalar> Model for Coded<N> {
    ghost use Rattle.lhg_row.specs.Row.{PlainRow};
    ghost use Rattle.lhg_row.specs.PlainCode.{row_code};
    ghost use Rattle.lhg_row.specs.Codes.{IsCode};

    ghost Value = { PlainRow };

    ghost coded = { row_code };

    ghost view = { λ c. c.row };

    ghost invariant = { λ c. IsCode c.code c.row.coefs };
}

impl<N: Scalar> Coded<N> {
    /// The row with its code.
    pub(crate) fn of(row: Row<N>) -> Coded<N>
        ensures { result ≡ row }
    {
        Coded {
            code: code(&row),
            row,
        }
    }

    /// The size of the first coefficient that is not 0.
    pub(crate) fn lead_size(&self) -> N
        ensures { N.meaning result ≡ calculus.lead_size self.now }
    {
        lead_size(&self.row)
    }
}

/// Whether the codes tell that two rows have different directions.
pub(crate) fn are_apart<N: Scalar>(r: &Coded<N>, s: &Coded<N>) -> bool
    ensures { result ≡ true → (calculus.same_direction N.arithmetic r.now s.now).value ≡ false }
{
    r.code != s.code && r.code < UNKNOWN && s.code < UNKNOWN
}

// The code of the row, where it is known.
fn code<N: Scalar>(row: &Row<N>) -> u64
    ensures { plain.IsCode result row.now.coefs }
{
    match lead_size(row).to_frac() {
        Some(size) => {
            if size.is_zero() {
                return UNKNOWN;
            }
            code_by(&row.coefs, &size)
        }
        None => UNKNOWN,
    }
}

// The code of coefficients by the size of the first that is not 0.
fn code_by<N: Scalar>(coefs: &[N], size: &Frac) -> u64
    ensures { (result ≡ plain.unknown) ⊎ (result ≡ plain.codes_from size.now 0 (map N.meaning coefs.now)) }
{
    let mut code = 0;
    for coef in coefs {
        match part(coef, size) {
            Some(q) => code = mixed(code, &q),
            None => return UNKNOWN,
        }
    }
    code
}

// The quotient, where it is known.
fn part<N: Scalar>(x: &N, size: &Frac) -> Option<Frac>
    ensures { IfSome result (λ q. q ≡ quot (N.meaning x.now) size.now) }
{
    let value = x.to_frac()?;
    match value.div(size) {
        Ok(q) => Some(q),
        Err(_) => None,
    }
}

// A code, and a number put to it.
fn mixed(code: u64, q: &Frac) -> u64
    requires { code < plain.unknown }
    ensures value { result ≡ plain.mixed code q.now }
    ensures below { result < plain.unknown }
{
    let top = q.numer().unsigned_abs() % (UNKNOWN as u128);
    let bottom = q.denom().unsigned_abs() % (UNKNOWN as u128);
    let first = code * 1009 + top as u64;
    (first * 1009 + bottom as u64 + sign_code(q.sign())) % UNKNOWN
}

// A number of the sign.
fn sign_code(sign: Ordering) -> u64
    ensures value { result ≡ plain.sign_code sign }
    ensures few { result < 3 }
{
    match sign {
        Ordering::Less => 2,
        Ordering::Equal => 1,
        Ordering::Greater => 0,
    }
}
