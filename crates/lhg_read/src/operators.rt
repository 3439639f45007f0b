// The operators of constraints.
ghost use Rattle.std.specs.Prelude.{◌≡◌, []};
ghost use Rattle.lhg_lex.specs.TextTokens.{plain_of};
ghost use Rattle.lhg_read.specs.Signs.{operator_by_sign, operator_by_pair, operator_of, is_operator};

use lhg_lex::{Tok, Token};

/// How the two sums of a pair stand to each other.
#[derive(Clone, Copy, Debug, PartialEq, Eq)]
pub enum Operator {
    Less,
    AtMost,
    Equal,
    AtLeast,
    Greater,
}

fn by_sign(b: u8) -> Option<Operator>
    ensures { result ≡ operator_by_sign b }
{
    match b {
        b'<' => Some(Operator::Less),
        b'=' => Some(Operator::Equal),
        b'>' => Some(Operator::Greater),
        _ => None,
    }
}

fn by_pair(b: u8, c: u8) -> Option<Operator>
    ensures { result ≡ operator_by_pair b c }
{
    match (b, c) {
        (b'<', b'=') => Some(Operator::AtMost),
        (b'=', b'=') => Some(Operator::Equal),
        (b'>', b'=') => Some(Operator::AtLeast),
        _ => None,
    }
}

/// The operator that a token is.
pub(crate) fn read_operator(token: &Token) -> Option<Operator>
    ensures { result ≡ operator_of (plain_of [] token.now) }
{
    match token.kind {
        Tok::Sign(b) => by_sign(b),
        Tok::TwoSign(b, c) => by_pair(b, c),
        _ => None,
    }
}

/// Whether the token is an operator.
pub(crate) fn is_operator(token: &Token) -> bool
    ensures { result ≡ is_operator (plain_of [] token.now) }
{
    read_operator(token).is_some()
}
