// Variables and terms.
ghost use Rattle.std.specs.Prelude.{◌≡◌, ◌<◌, ◌≤◌, length, map, All, IfSome, [], ◌∷◌};
ghost use Rattle.std.specs.Option.{option_map};
ghost use Rattle.lhg_lex.specs.TextTokens.{plain_of, IsSpan};
ghost use Rattle.lhg_read.specs.Term.{width, place_of, new_place, variable_of, times, term_of, IsBelow};
ghost use Rattle.lhg_lex.specs.PlainToken.{number};

use crate::forms::Form;
use crate::signs::is_sign;
use lhg_lex::{Lines, Tok, Token};
use lhg_num::{Frac, Scalar};
use lhg_plant::Name;

/// What stands between the signs of a sum.
#[derive(Clone, Copy, Debug, PartialEq, Eq)]
pub enum Term {
    /// A factor and the place of its variable among the coefficients of a row.
    Times(Frac, usize),
    /// A number alone.
    Alone(Frac),
}

// The place of the variable with this name.
fn place_of(vars: &[Name], word: &[u8]) -> Option<usize>
    ensures place { result ≡ place_of word.now vars.now }
    ensures below { IfSome result (λ i. i < length vars.now) }
{
    vars.iter().position(|name| name.bytes() == word)
}

// The place of the variable with `'` that has this place without.
fn new_place(form: Form, vars: &[Name], place: Option<usize>) -> Option<usize>
    requires { IfSome place (λ i. i < length vars.now) }
    ensures place { result ≡ new_place form vars.now place }
    ensures below { IfSome result (λ i. i < width form vars.now) }
{
    match form {
        Form::Plain => None,
        Form::Flow => place,
        Form::Jump => match place {
            Some(i) => Some(vars.len() + i),
            None => None,
        },
    }
}

// The place of the variable that a token names.
fn word_place(lines: &Lines, vars: &[Name], token: &Token) -> Option<usize>
    requires order { token.now.from ≤ token.now.to }
    requires within { token.now.to ≤ length lines.now.bytes }
    ensures place { result ≡ variable_of Form.Plain vars.now (plain_of lines.now.bytes token.now ∷ []) }
    ensures below { IfSome result (λ i. i < length vars.now) }
{
    match token.kind {
        Tok::Word => place_of(vars, lines.text(token)),
        _ => None,
    }
}

fn read_variable(lines: &Lines, vars: &[Name], form: Form, tokens: &[Token]) -> Option<usize>
    requires { All (IsSpan lines.now.bytes) tokens.now }
    ensures place { result ≡ variable_of form vars.now (map (plain_of lines.now.bytes) tokens.now) }
    ensures below { IfSome result (λ i. i < width form vars.now) }
{
    match tokens {
        [name] => word_place(lines, vars, name),
        [name, prime] if is_sign(prime, b'\'') => {
            new_place(form, vars, word_place(lines, vars, name))
        }
        _ => None,
    }
}

// The factor and the variable at a place.
fn times(q: Frac, place: Option<usize>) -> Option<Term>
    ensures { result ≡ times q place }
{
    match place {
        Some(i) => Some(Term::Times(q, i)),
        None => None,
    }
}

// The term that begins with a number.
fn number_term(lines: &Lines, vars: &[Name], form: Form, q: Frac, rest: &[Token]) -> Option<Term>
    requires { All (IsSpan lines.now.bytes) rest.now }
    ensures term { result ≡ term_of form vars.now (number q ∷ map (plain_of lines.now.bytes) rest.now) }
    ensures below { IfSome result (IsBelow (width form vars.now)) }
{
    match rest {
        [] => Some(Term::Alone(q)),
        [star, ..] if is_sign(star, b'*') && !q.is_zero() => {
            times(q, read_variable(lines, vars, form, &rest[1..]))
        }
        _ => None,
    }
}

/// The term that the tokens are.
pub(crate) fn read_term(lines: &Lines, vars: &[Name], form: Form, tokens: &[Token]) -> Option<Term>
    requires { All (IsSpan lines.now.bytes) tokens.now }
    ensures term { result ≡ term_of form vars.now (map (plain_of lines.now.bytes) tokens.now) }
    ensures below { IfSome result (IsBelow (width form vars.now)) }
{
    match tokens {
        [] => None,
        [first, ..] => match first.kind {
            Tok::Number(q) => number_term(lines, vars, form, q, &tokens[1..]),
            _ => times(Frac::one(), read_variable(lines, vars, form, tokens)),
        },
    }
}
