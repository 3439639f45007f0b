// How long the token at the front of a text is.
ghost use Rattle.std.specs.Prelude.{◌≡◌, ◌<◌, true, false, length, slice_index};
ghost use Rattle.std.specs.List.{prefix_len};
ghost use Rattle.lhg_lex.specs.Word.{is_digit, begins_word, continues_word};
ghost use Rattle.lhg_lex.specs.Longest.{IsLongest};

use crate::classes::{begins_word, continues_word, is_digit, is_mark, is_pair, is_sign_byte};

pub(crate) fn digit_run(text: &[u8]) -> usize
    ensures { result ≡ prefix_len is_digit text.now }
{
    text.iter().take_while(|b| is_digit(**b)).count()
}

fn word_len(text: &[u8]) -> usize
    ensures { result ≡ prefix_len continues_word text.now }
{
    text.iter().take_while(|b| continues_word(**b)).count()
}

fn number_len(text: &[u8]) -> usize
    requires some { 0 < length text.now }
    requires digit { is_digit (slice_index text.now 0) ≡ true }
    ensures { IsLongest text.now result }
{
    let whole = digit_run(text);
    if whole == text.len() || !is_mark(text[whole]) {
        return whole;
    }
    let part = digit_run(&text[whole + 1..]);
    if part == 0 { whole } else { whole + 1 + part }
}

fn signs_len(text: &[u8]) -> usize
    requires some { 0 < length text.now }
    requires no_letter { begins_word (slice_index text.now 0) ≡ false }
    requires no_digit { is_digit (slice_index text.now 0) ≡ false }
    ensures { IsLongest text.now result }
{
    if text.len() > 1 && is_pair(text[0], text[1]) {
        return 2;
    }
    if is_sign_byte(text[0]) { 1 } else { 0 }
}

/// The length of the longest token at the front, and 0 where there is none.
pub(crate) fn token_len(text: &[u8]) -> usize
    ensures { IsLongest text.now result }
{
    if text.is_empty() {
        0
    } else if begins_word(text[0]) {
        word_len(text)
    } else if is_digit(text[0]) {
        number_len(text)
    } else {
        signs_len(text)
    }
}
