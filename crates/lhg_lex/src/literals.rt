// The values of numbers as they are written.
ghost use Rattle.std.specs.Prelude.{◌≡◌, ◌≤◌, ◌+◌, ◌==◌, ◌++◌, true, pos, length, nat_lt, if◌then◌else◌, Ok, Err, Some, None};
ghost use Rattle.std.specs.Str.Parse.{digits_value_after};
ghost use Rattle.lhg_math.specs.Number.{whole, quot};
ghost use Rattle.lhg_lex.specs.Digits.{is_run, all_digits, value_of};
ghost use Rattle.lhg_lex.specs.Literal.{limit, is_number, whole_value, fraction_value, decimal_value, number_of};

use crate::lengths::digit_run;
use crate::stops::What;
use lhg_num::Frac;

// The greatest number that a run of digits may stand for.
const LIMIT: u128 = 170141183460469231731687303715884105727;

// How many digits a decimal may have.
const DECIMAL_DIGITS: usize = 38;

// The number that digits stand for when they follow those of `start`, where it is within the limit.
fn value_after(start: u128, run: &[u8]) -> Option<u128>
    requires within { start ≤ limit }
    requires digits { all_digits run.now ≡ true }
    ensures { result ≡ (if nat_lt limit (digits_value_after 10 start run.now) then None else Some (digits_value_after 10 start run.now)) }
{
    let mut n = start;
    for b in run {
        let digit = u128::from(*b) - 48;
        if n > (LIMIT - digit) / 10 {
            return None;
        }
        n = 10 * n + digit;
    }
    Some(n)
}

// The number that the digits of both runs stand for, one behind the other, where it is within the limit.
fn joined_value(first: &[u8], second: &[u8]) -> Option<u128>
    requires first { all_digits first.now ≡ true }
    requires second { all_digits second.now ≡ true }
    ensures { result ≡ (if nat_lt limit (value_of (first.now ++ second.now)) then None else Some (value_of (first.now ++ second.now))) }
{
    match value_after(0, first) {
        Some(n) => value_after(n, second),
        None => None,
    }
}

// n / d in lowest terms.
fn divided(n: u128, d: u128) -> Result<Frac, What>
    requires top { n ≤ limit }
    requires bottom { d ≤ limit }
    ensures { result ≡ (if d == 0 then Err What.ZeroDenominator else Ok (quot (whole (pos n)) (whole (pos d)))) }
{
    match Frac::new(n as i128, d as i128) {
        Ok(q) => Ok(q),
        Err(_) => Err(What::ZeroDenominator),
    }
}

fn whole_number(run: &[u8]) -> Result<Frac, What>
    requires { all_digits run.now ≡ true }
    ensures { result ≡ whole_value run.now }
{
    match value_after(0, run) {
        Some(n) => divided(n, 1),
        None => Err(What::LongNumber),
    }
}

fn fraction(first: &[u8], second: &[u8]) -> Result<Frac, What>
    requires first { all_digits first.now ≡ true }
    requires second { all_digits second.now ≡ true }
    ensures { result ≡ fraction_value first.now second.now }
{
    match (value_after(0, first), value_after(0, second)) {
        (Some(n), Some(d)) => divided(n, d),
        _ => Err(What::LongNumber),
    }
}

fn decimal(first: &[u8], second: &[u8]) -> Result<Frac, What>
    requires first { all_digits first.now ≡ true }
    requires second { all_digits second.now ≡ true }
    ensures { result ≡ decimal_value first.now second.now }
{
    if second.len() > DECIMAL_DIGITS || first.len() > DECIMAL_DIGITS - second.len() {
        return Err(What::LongNumber);
    }
    match joined_value(first, second) {
        Some(n) => divided(n, 10u128.pow(second.len() as u32)),
        None => Err(What::LongNumber),
    }
}

/// The value of a number as it is written.
pub(crate) fn literal(text: &[u8]) -> Result<Frac, What>
    requires { is_number text.now ≡ true }
    ensures { result ≡ number_of text.now }
{
    let whole = digit_run(text);
    if whole >= text.len() {
        whole_number(text)
    } else if text[whole] == b'/' {
        fraction(&text[..whole], &text[whole + 1..])
    } else {
        decimal(&text[..whole], &text[whole + 1..])
    }
}
