// The rows of two sums with an operator between.
ghost use Rattle.std.specs.Prelude.{◌≡◌, ◌++◌, ◌∷◌, [], length, map, IfOk, Some, All};
ghost use Rattle.lhg_lex.specs.TextTokens.{plain_of, IsSpan};
ghost use Rattle.lhg_read.specs.Term.{width};
ghost use Rattle.lhg_read.specs.Pair.{opposite_row, rows_by, pair_of};
ghost use Rattle.lhg_read.specs.Collect.{collected, has_variable, row_from};
ghost use Rattle.lhg_read.specs.Refusals.{IsAppended};
ghost use Rattle.lhg_row.specs.Kinds as plain;

use crate::forms::Form;
use crate::operators::{Operator, read_operator};
use crate::refusal::Refusal;
use crate::sums::{Sum, put_terms};
use lhg_lex::{Lines, Token};
use lhg_num::{Frac, Scalar};
use lhg_plant::Name;
use lhg_row::{Kind, Row, negate};
use std::alloc::{AllocError, Global};

// How many coefficients the rows of a line have.
fn width(form: Form, vars: &[Name]) -> usize
    ensures { result ≡ width form vars.now }
{
    match form {
        Form::Jump => 2 * vars.len(),
        _ => vars.len(),
    }
}

fn has_variable(sum: &Sum) -> bool
    ensures { result ≡ has_variable (collected sum.now) }
{
    sum.coefs.iter().any(|q| !q.is_zero())
}

// The row of a sum: the variables on the left, the number on the right.
fn row_from(alloc: Global, sum: &Sum, kind: Kind) -> Result<Row<Frac>, AllocError>
    ensures { IfOk result (λ r. r ≡ row_from (collected sum.now) (plain.is_strict kind)) }
{
    let number = match sum.number {
        Some(q) => q,
        None => Frac::zero(),
    };
    Ok(Row {
        coefs: Vec::from_slice(alloc, &sum.coefs)?,
        kind,
        bound: number.neg(),
    })
}

// The row with the other sign on both sides.
fn opposite_row(alloc: Global, row: &Row<Frac>) -> Result<Row<Frac>, AllocError>
    ensures { IfOk result (λ r. r ≡ opposite_row row.now) }
{
    match negate(alloc, row) {
        Ok(mut opposite) => {
            opposite.kind = row.kind;
            Ok(opposite)
        }
        Err(_) => Err(AllocError),
    }
}

// Appends the rows of a pair, given all its terms on the left.
fn push_by(
    alloc: Global,
    op: Operator,
    sum: &Sum,
    rows: &mut Vec<Row<Frac>>,
) -> Result<(), AllocError>
    ensures { IfOk result (λ _. rows.new.items ≡ rows.old.items ++ rows_by op (row_from (collected sum.now))) }
{
    let kind = match op {
        Operator::Less | Operator::Greater => Kind::Strict,
        _ => Kind::Weak,
    };
    let row = row_from(alloc, sum, kind)?;
    match op {
        Operator::Less | Operator::AtMost => rows.push(row)?,
        Operator::Greater | Operator::AtLeast => rows.push(opposite_row(alloc, &row)?)?,
        Operator::Equal => {
            let back = opposite_row(alloc, &row)?;
            rows.push(row)?;
            rows.push(back)?;
        }
    }
    Ok(())
}

/// Appends the rows of two sums with an operator between, where they are a pair.
pub(crate) fn push_pair(
    alloc: Global,
    lines: &Lines,
    vars: &[Name],
    form: Form,
    left: &[Token],
    op: &Token,
    right: &[Token],
    rows: &mut Vec<Row<Frac>>,
) -> Result<(), Refusal>
    requires left { All (IsSpan lines.now.bytes) left.now }
    requires right { All (IsSpan lines.now.bytes) right.now }
    ensures { IsAppended result rows.old.items rows.new.items (pair_of form vars.now (map (plain_of lines.now.bytes) left.now) (plain_of [] op.now) (map (plain_of lines.now.bytes) right.now)) }
{
    let Some(op) = read_operator(op) else {
        return Err(Refusal::NotHere);
    };
    let mut sum = Sum::new(alloc, width(form, vars))?;
    if !put_terms(lines, vars, form, left, false, &mut sum) {
        return Err(Refusal::NotHere);
    }
    if !put_terms(lines, vars, form, right, true, &mut sum) {
        return Err(Refusal::NotHere);
    }
    if !has_variable(&sum) {
        return Err(Refusal::NotHere);
    }
    push_by(alloc, op, &sum, rows)?;
    Ok(())
}
