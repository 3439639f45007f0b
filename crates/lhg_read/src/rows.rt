// The rows that a line gives.
ghost use Rattle.std.specs.Prelude.{◌≡◌, ◌≤◌, ◌&&◌, length, map, drop, codes, All};
ghost use Rattle.lhg_lex.specs.TextTokens.{plain_of, IsSpan};
ghost use Rattle.lhg_read.specs.Signs as plain;
ghost use Rattle.lhg_read.specs.Rows.{is_flow, rows_of};
ghost use Rattle.lhg_read.specs.Refusals.{IsRead, IsReadAt};

use crate::axes::still_rows;
use crate::constraints::read_list;
use crate::forms::Form;
use crate::refusal::{Refusal, stop_at};
use crate::signs::is_one_word;
use lhg_lex::{Line, Lines, ReadStop, Token};
use lhg_num::Frac;
use lhg_plant::Name;
use lhg_row::Row;
use std::alloc::Global;

// Whether the tokens are `still`, in a flow line.
fn is_still(lines: &Lines, form: Form, tokens: &[Token]) -> bool
    requires { All (IsSpan lines.now.bytes) tokens.now }
    ensures { result ≡ (is_flow form && plain.is_one_word (codes "still") (map (plain_of lines.now.bytes) tokens.now)) }
{
    match form {
        Form::Flow => is_one_word(lines, tokens, b"still"),
        _ => false,
    }
}

/// The rows of tokens that are `all`, `still` or a list of constraints.
pub fn rows_from(
    alloc: Global,
    lines: &Lines,
    vars: &[Name],
    form: Form,
    tokens: &[Token],
) -> Result<Vec<Row<Frac>>, Refusal>
    requires { All (IsSpan lines.now.bytes) tokens.now }
    ensures { IsRead result (rows_of form vars.now (map (plain_of lines.now.bytes) tokens.now)) (λ v. v.items) }
{
    if is_one_word(lines, tokens, b"all") {
        return Ok(Vec::new(alloc));
    }
    if is_still(lines, form, tokens) {
        return Ok(still_rows(alloc, vars.len())?);
    }
    read_list(alloc, lines, vars, form, tokens)
}

/// The rows that begin with the token at a place and end with the line, which came from the lines: `all`, a list of
/// constraints or, in a flow, `still`. Each row has one coefficient per variable, in a switch one per old and then per new
/// variable. `Bad` comes exactly where the tokens are no such rows, with the line's number and column 0; `Memory` for want of it.
pub fn read_rows(
    alloc: Global,
    line: &Line,
    at: usize,
    lines: &Lines,
    vars: &[Name],
    form: Form,
) -> Result<Vec<Row<Frac>>, ReadStop>
    requires here { All (IsSpan lines.now.bytes) line.now.tokens.items }
    requires at { at ≤ length line.now.tokens.items }
    ensures { IsReadAt result line.now.number (rows_of form vars.now (map (plain_of lines.now.bytes) (drop at line.now.tokens.items))) (λ v. v.items) }
{
    match rows_from(alloc, lines, vars, form, &line.tokens[at..]) {
        Ok(rows) => Ok(rows),
        Err(refusal) => Err(stop_at(refusal, line.number)),
    }
}
