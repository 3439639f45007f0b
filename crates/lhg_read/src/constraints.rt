// Constraints: sums with operators between, and lists of them.
ghost use Rattle.std.specs.Prelude.{◌≡◌, ◌&&◌, map, codes, All};
ghost use Rattle.lhg_lex.specs.TextTokens.{plain_of, IsSpan};
ghost use Rattle.lhg_read.specs.Cut.{cut};
ghost use Rattle.lhg_read.specs.Signs as plain;
ghost use Rattle.lhg_read.specs.Rows.{is_jump, chain_of, constraint_of, list_of};
ghost use Rattle.lhg_read.specs.Refusals.{IsRead, IsAppended};

use crate::axes::push_keep_rows;
use crate::forms::Form;
use crate::pairs::push_pair;
use crate::parts::{before_comma, before_operator};
use crate::refusal::Refusal;
use crate::signs::is_one_word;
use lhg_lex::{Lines, Token};
use lhg_num::Frac;
use lhg_plant::{MOST_LINE_ROWS, Name};
use lhg_row::Row;
use std::alloc::Global;

// Appends the rows of two or three sums with operators between.
fn push_chain(
    alloc: Global,
    lines: &Lines,
    vars: &[Name],
    form: Form,
    tokens: &[Token],
    rows: &mut Vec<Row<Frac>>,
) -> Result<(), Refusal>
    requires { All (IsSpan lines.now.bytes) tokens.now }
    ensures { let parts = cut plain.is_operator (map (plain_of lines.now.bytes) tokens.now) in IsAppended result rows.old.items rows.new.items (chain_of form vars.now parts.first parts.others) }
{
    let first = before_operator(tokens);
    if first >= tokens.len() {
        return Err(Refusal::NotHere);
    }
    let middle = first + 1;
    let second = middle + before_operator(&tokens[middle..]);
    let op = &tokens[first];
    push_pair(
        alloc,
        lines,
        vars,
        form,
        &tokens[..first],
        op,
        &tokens[middle..second],
        rows,
    )?;
    if second >= tokens.len() {
        return Ok(());
    }
    let last = second + 1;
    if last + before_operator(&tokens[last..]) < tokens.len() {
        return Err(Refusal::NotHere);
    }
    let next = &tokens[second];
    push_pair(
        alloc,
        lines,
        vars,
        form,
        &tokens[middle..second],
        next,
        &tokens[last..],
        rows,
    )
}

// Whether the tokens are `keep`, in a switch.
fn is_keep(lines: &Lines, form: Form, tokens: &[Token]) -> bool
    requires { All (IsSpan lines.now.bytes) tokens.now }
    ensures { result ≡ (is_jump form && plain.is_one_word (codes "keep") (map (plain_of lines.now.bytes) tokens.now)) }
{
    match form {
        Form::Jump => is_one_word(lines, tokens, b"keep"),
        _ => false,
    }
}

// Appends the rows of a constraint.
fn push_constraint(
    alloc: Global,
    lines: &Lines,
    vars: &[Name],
    form: Form,
    tokens: &[Token],
    rows: &mut Vec<Row<Frac>>,
) -> Result<(), Refusal>
    requires { All (IsSpan lines.now.bytes) tokens.now }
    ensures { IsAppended result rows.old.items rows.new.items (constraint_of form vars.now (map (plain_of lines.now.bytes) tokens.now)) }
{
    if is_keep(lines, form, tokens) {
        push_keep_rows(alloc, vars.len(), rows)?;
        return Ok(());
    }
    push_chain(alloc, lines, vars, form, tokens, rows)
}

/// The rows of a list of constraints.
pub(crate) fn read_list(
    alloc: Global,
    lines: &Lines,
    vars: &[Name],
    form: Form,
    tokens: &[Token],
) -> Result<Vec<Row<Frac>>, Refusal>
    requires { All (IsSpan lines.now.bytes) tokens.now }
    ensures { IsRead result (list_of form vars.now (map (plain_of lines.now.bytes) tokens.now)) (λ v. v.items) }
{
    let mut rows = Vec::new(alloc);
    let mut at = 0;
    loop {
        let end = at + before_comma(&tokens[at..]);
        push_constraint(alloc, lines, vars, form, &tokens[at..end], &mut rows)?;
        if rows.len() > MOST_LINE_ROWS {
            return Err(Refusal::NotHere);
        }
        if end >= tokens.len() {
            return Ok(rows);
        }
        at = end + 1;
    }
}
