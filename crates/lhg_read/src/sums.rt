// Sums, term by term.
ghost use Rattle.std.specs.Prelude.{◌≡◌, [], length, map, IfOk, All};
ghost use Rattle.lhg_lex.specs.TextTokens.{plain_of, IsSpan};
ghost use Rattle.lhg_read.specs.Term.{width, IsBelow};
ghost use Rattle.lhg_read.specs.Sum.{opposite, signed, begins_with_minus, sum_of};
ghost use Rattle.lhg_read.specs.Collect.{none_of, with_term, with_turned, collected, Takes};

use crate::forms::Form;
use crate::parts::before_sign;
use crate::signs::is_minus;
use crate::terms::{Term, read_term};
use lhg_lex::{Lines, Token};
use lhg_num::{Frac, Scalar};
use lhg_plant::Name;
use std::alloc::{AllocError, Global};

/// The terms of a pair, on one side: a factor for each variable, 0 where it has not occurred, and the number alone.
#[derive(Drop)]
pub(crate) struct Sum {
    pub coefs: Vec<Frac>,
    pub number: Option<Frac>,
}

impl Sum {
    /// No term of so many variables.
    pub(crate) fn new(alloc: Global, vars: usize) -> Result<Sum, AllocError>
        ensures { IfOk result (λ s. collected s ≡ none_of vars) }
    {
        Ok(Sum {
            coefs: vec![in alloc; Frac::zero(); vars]?,
            number: None,
        })
    }

    // Puts a term, where its variable has not occurred and where it is the first number.
    fn put(&mut self, term: Term) -> bool
        requires { IsBelow (length self.old.coefs.items) term }
        ensures put { Takes result (collected self.new) (with_term (collected self.old) term) }
        ensures wide { length self.new.coefs.items ≡ length self.old.coefs.items }
    {
        match term {
            Term::Times(q, i) => {
                if !self.coefs[i].is_zero() {
                    return false;
                }
                self.coefs[i] = q;
            }
            Term::Alone(q) => {
                if self.number.is_some() {
                    return false;
                }
                self.number = Some(q);
            }
        }
        true
    }
}

fn opposite(term: Term) -> Term
    ensures { result ≡ opposite term }
{
    match term {
        Term::Times(q, i) => Term::Times(q.neg(), i),
        Term::Alone(q) => Term::Alone(q.neg()),
    }
}

fn signed(minus: bool, term: Term) -> Term
    ensures { result ≡ signed minus term }
{
    if minus { opposite(term) } else { term }
}

fn begins_with_minus(tokens: &[Token]) -> bool
    ensures { result ≡ begins_with_minus (map (plain_of []) tokens.now) }
{
    match tokens {
        [] => false,
        [first, ..] => is_minus(first),
    }
}

/// Puts the terms of a sum, turned to the other side or not, where it is one and all its terms can come.
pub(crate) fn put_terms(
    lines: &Lines,
    vars: &[Name],
    form: Form,
    tokens: &[Token],
    turned: bool,
    sum: &mut Sum,
) -> bool
    requires inside { All (IsSpan lines.now.bytes) tokens.now }
    requires wide { length sum.old.coefs.items ≡ width form vars.now }
    ensures put { Takes result (collected sum.new) (with_turned turned (collected sum.old) (sum_of form vars.now (map (plain_of lines.now.bytes) tokens.now))) }
    ensures wide { length sum.new.coefs.items ≡ width form vars.now }
{
    let mut minus = begins_with_minus(tokens);
    let mut at = if minus { 1 } else { 0 };
    loop {
        let end = at + before_sign(&tokens[at..]);
        let Some(term) = read_term(lines, vars, form, &tokens[at..end]) else {
            return false;
        };
        if !sum.put(signed(turned, signed(minus, term))) {
            return false;
        }
        if end >= tokens.len() {
            return true;
        }
        minus = is_minus(&tokens[end]);
        at = end + 1;
    }
}
