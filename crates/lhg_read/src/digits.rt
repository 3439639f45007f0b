// A word and a number in digits without a leading zero.
ghost use Rattle.std.specs.Prelude.{◌≡◌, ◌≤◌, ◌-◌, [], All, map};
ghost use Rattle.lhg_lex.specs.TextTokens.{plain_of, IsSpan};
ghost use Rattle.lhg_read.specs.Numbered as plain;

use crate::signs::is_word;
use itoa::Buffer;
use lhg_lex::{Lines, Tok, Token};
use lhg_num::Scalar;
use std::cmp::Ordering;

// The natural number that the token is.
fn natural_in(token: &Token) -> Option<u128>
    ensures { result ≡ plain.natural_in (plain_of [] token.now) }
{
    match token.kind {
        Tok::Number(q) => {
            if q.denom() == 1 && q.sign() != Ordering::Less {
                Some(q.numer().unsigned_abs())
            } else {
                None
            }
        }
        _ => None,
    }
}

// The number, where it is small enough and has as many digits as there are bytes.
fn in_digits(most: u32, size: u32, number: u128) -> Option<u32>
    ensures { result ≡ plain.in_digits most size number }
{
    let mut buffer = Buffer::new();
    if number <= most as u128 && size as usize == buffer.format(number).len() {
        Some(number as u32)
    } else {
        None
    }
}

/// The number, at most so large, that the token is in digits without a leading zero.
pub fn counted_in(token: &Token, most: u32) -> Option<u32>
    requires { token.now.from ≤ token.now.to }
    ensures { result ≡ plain.counted_in most (plain_of [] token.now) (token.now.to - token.now.from) }
{
    let number = natural_in(token)?;
    in_digits(most, token.to - token.from, number)
}

/// The number, at most so large, that the tokens give: the word, and the number in digits without a leading zero.
pub fn numbered(lines: &Lines, tokens: &[Token], word: &[u8], most: u32) -> Option<u32>
    requires { All (IsSpan lines.now.bytes) tokens.now }
    ensures { result ≡ plain.numbered word.now most (map (plain_of lines.now.bytes) tokens.now) (plain.sizes_of tokens.now) }
{
    match tokens {
        [first, second] if is_word(lines, first, word) => counted_in(second, most),
        _ => None,
    }
}
