// How far the parts between signs go.
ghost use Rattle.std.specs.Prelude.{◌≡◌, ◌≤◌, [], length};
ghost use Rattle.std.specs.List.{position_or_len};
ghost use Rattle.lhg_lex.specs.TextTokens.{plain_of};
ghost use Rattle.lhg_read.specs.Signs as plain;

use crate::operators::is_operator;
use crate::signs::{is_comma, is_plus_or_minus};
use lhg_lex::Token;

/// How many tokens stand before the first `,` or `&`.
pub(crate) fn before_comma(tokens: &[Token]) -> usize
    ensures place { result ≡ position_or_len (λ token. plain.is_comma (plain_of [] token)) tokens.now }
    ensures within { result ≤ length tokens.now }
{
    tokens.iter().take_while(|token| !is_comma(token)).count()
}

/// How many tokens stand before the first operator.
pub(crate) fn before_operator(tokens: &[Token]) -> usize
    ensures place { result ≡ position_or_len (λ token. plain.is_operator (plain_of [] token)) tokens.now }
    ensures within { result ≤ length tokens.now }
{
    tokens
        .iter()
        .take_while(|token| !is_operator(token))
        .count()
}

/// How many tokens stand before the first `+` or `-`.
pub(crate) fn before_sign(tokens: &[Token]) -> usize
    ensures place { result ≡ position_or_len (λ token. plain.is_plus_or_minus (plain_of [] token)) tokens.now }
    ensures within { result ≤ length tokens.now }
{
    tokens
        .iter()
        .take_while(|token| !is_plus_or_minus(token))
        .count()
}
