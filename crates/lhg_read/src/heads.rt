// The head of a plant, or of another part of an input.
ghost use Rattle.std.specs.Prelude.{◌≡◌, [], All};
ghost use Rattle.lhg_lex.specs.TextTokens.{plain_of, IsSpan};
ghost use Rattle.lhg_read.specs.HeadTest.{is_unit, head_test};

use crate::signs::is_word;
use lhg_lex::{Lines, Tok, Token};
use lhg_num::{Frac, Scalar};

fn is_unit(token: &Token) -> bool
    ensures { result ≡ is_unit (plain_of [] token.now) }
{
    match token.kind {
        Tok::Number(q) => q == Frac::one(),
        _ => false,
    }
}

/// Whether the tokens are the word and `1`, where the number is that one digit.
pub fn is_head(lines: &Lines, tokens: &[Token], word: &[u8]) -> bool
    requires { All (IsSpan lines.now.bytes) tokens.now }
    ensures { result ≡ head_test word.now lines.now.bytes tokens.now }
{
    match tokens {
        [first, number] => {
            is_word(lines, first, word) && is_unit(number) && number.to - number.from == 1
        }
        _ => false,
    }
}
