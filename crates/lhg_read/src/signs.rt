// Tests of single tokens.
ghost use Rattle.std.specs.Prelude.{◌≡◌, [], ◌∷◌, ◌≤◌, length, map, All};
ghost use Rattle.lhg_lex.specs.TextTokens.{plain_of, IsSpan};
ghost use Rattle.lhg_read.specs.Signs as plain;

use lhg_lex::{Lines, Tok, Token};

/// Whether the token is this one sign.
pub(crate) fn is_sign(token: &Token, b: u8) -> bool
    ensures { result ≡ plain.is_sign b (plain_of [] token.now) }
{
    match token.kind {
        Tok::Sign(c) => c == b,
        _ => false,
    }
}

/// Whether the token is a `,` or a `&`.
pub(crate) fn is_comma(token: &Token) -> bool
    ensures { result ≡ plain.is_comma (plain_of [] token.now) }
{
    is_sign(token, b',') || is_sign(token, b'&')
}

/// Whether the token is a `-`.
pub(crate) fn is_minus(token: &Token) -> bool
    ensures { result ≡ plain.is_minus (plain_of [] token.now) }
{
    is_sign(token, b'-')
}

/// Whether the token is a `+` or a `-`.
pub(crate) fn is_plus_or_minus(token: &Token) -> bool
    ensures { result ≡ plain.is_plus_or_minus (plain_of [] token.now) }
{
    is_sign(token, b'+') || is_minus(token)
}

/// Whether the token is this word.
pub fn is_word(lines: &Lines, token: &Token, word: &[u8]) -> bool
    requires order { token.now.from ≤ token.now.to }
    requires within { token.now.to ≤ length lines.now.bytes }
    ensures { result ≡ plain.is_word word.now (plain_of lines.now.bytes token.now) }
{
    match token.kind {
        Tok::Word => lines.text(token) == word,
        _ => false,
    }
}

/// Whether the tokens are this one word.
pub(crate) fn is_one_word(lines: &Lines, tokens: &[Token], word: &[u8]) -> bool
    requires { All (IsSpan lines.now.bytes) tokens.now }
    ensures { result ≡ plain.is_one_word word.now (map (plain_of lines.now.bytes) tokens.now) }
{
    match tokens {
        [token] => is_word(lines, token, word),
        _ => false,
    }
}
