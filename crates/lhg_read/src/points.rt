// Points: a number for each variable, in order.
ghost use Rattle.std.specs.Prelude.{◌≡◌, ◌≤◌, length, map, drop, [], All};
ghost use Rattle.lhg_lex.specs.TextTokens.{plain_of, IsSpan};
ghost use Rattle.lhg_read.specs.PointText as plain;
ghost use Rattle.lhg_read.specs.Refusals.{IsRead, IsReadAt};

use crate::parts::before_comma;
use crate::refusal::{Refusal, stop_at};
use crate::signs::{is_minus, is_word};
use lhg_lex::{Line, Lines, ReadStop, Tok, Token};
use lhg_num::{Frac, Scalar};
use lhg_plant::{Name, Plant};
use lhg_row::Point;
use std::alloc::Global;

// Whether the token is a `=` or a `==`.
fn is_equals(token: &Token) -> bool
    ensures { result ≡ plain.is_equals (plain_of [] token.now) }
{
    match token.kind {
        Tok::Sign(b) => b == b'=',
        Tok::TwoSign(b, c) => b == b'=' && c == b'=',
        _ => false,
    }
}

fn number_in(token: &Token) -> Option<Frac>
    ensures { result ≡ plain.number_in (plain_of [] token.now) }
{
    match token.kind {
        Tok::Number(q) => Some(q),
        _ => None,
    }
}

// The number that the tokens are, behind a minus or not.
fn signed_number(tokens: &[Token]) -> Option<Frac>
    ensures { result ≡ plain.signed_number (map (plain_of []) tokens.now) }
{
    match tokens {
        [token] => number_in(token),
        [minus, token] if is_minus(minus) => number_in(token).map(|q| q.neg()),
        _ => None,
    }
}

// The number that the tokens give to the variable with this name.
fn read_coordinate(lines: &Lines, name: &Name, tokens: &[Token]) -> Option<Frac>
    requires { All (IsSpan lines.now.bytes) tokens.now }
    ensures { result ≡ plain.coordinate_of name.now (map (plain_of lines.now.bytes) tokens.now) }
{
    match tokens {
        [first, second, ..] if is_word(lines, first, name.bytes()) && is_equals(second) => {
            signed_number(&tokens[2..])
        }
        _ => None,
    }
}

/// The point that the tokens are: a number for each of the variables, in order.
pub fn point_from(
    alloc: Global,
    lines: &Lines,
    vars: &[Name],
    tokens: &[Token],
) -> Result<Point<Frac>, Refusal>
    requires { All (IsSpan lines.now.bytes) tokens.now }
    ensures { IsRead result (plain.point_of vars.now (map (plain_of lines.now.bytes) tokens.now)) (λ x. x) }
{
    let mut at = Vec::new(alloc);
    let mut from = 0;
    for name in vars {
        if from > tokens.len() {
            return Err(Refusal::NotHere);
        }
        let to = from + before_comma(&tokens[from..]);
        let Some(q) = read_coordinate(lines, name, &tokens[from..to]) else {
            return Err(Refusal::NotHere);
        };
        at.push(q)?;
        from = to + 1;
    }
    if from <= tokens.len() {
        return Err(Refusal::NotHere);
    }
    Ok(Point { at })
}

/// The point that begins with the token at a place and ends with the line: a number for each variable of the plant, in
/// order. The line came from the lines. `Bad` comes exactly where the tokens are no such point, with the line's number and
/// column 0; `Memory` for want of it.
pub fn read_point(
    alloc: Global,
    line: &Line,
    at: usize,
    lines: &Lines,
    plant: &Plant,
) -> Result<Point<Frac>, ReadStop>
    requires here { All (IsSpan lines.now.bytes) line.now.tokens.items }
    requires at { at ≤ length line.now.tokens.items }
    ensures { IsReadAt result line.now.number (plain.point_of plant.now.vars.items (map (plain_of lines.now.bytes) (drop at line.now.tokens.items))) (λ x. x) }
{
    match point_from(alloc, lines, &plant.vars, &line.tokens[at..]) {
        Ok(point) => Ok(point),
        Err(refusal) => Err(stop_at(refusal, line.number)),
    }
}
