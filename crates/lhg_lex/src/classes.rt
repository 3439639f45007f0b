// Classes of bytes.
ghost use Rattle.std.specs.Prelude.{◌≡◌};
ghost use Rattle.lhg_lex.specs.Word.{begins_word, continues_word, is_digit};
ghost use Rattle.lhg_lex.specs.Literal.{is_mark};
ghost use Rattle.lhg_lex.specs.Token.{is_sign_byte, is_pair};
ghost use Rattle.lhg_lex.specs.LineTokens.{is_separator};

pub(crate) fn begins_word(b: u8) -> bool
    ensures { result ≡ begins_word b }
{
    b.is_ascii_alphabetic() || b == b'_'
}

pub(crate) fn is_digit(b: u8) -> bool
    ensures { result ≡ is_digit b }
{
    b.is_ascii_digit()
}

pub(crate) fn continues_word(b: u8) -> bool
    ensures { result ≡ continues_word b }
{
    begins_word(b) || is_digit(b)
}

pub(crate) fn is_separator(b: u8) -> bool
    ensures { result ≡ is_separator b }
{
    b == b' ' || b == b'\t'
}

// Whether the byte stands between the digits of a fraction or a decimal.
pub(crate) fn is_mark(b: u8) -> bool
    ensures { result ≡ is_mark b }
{
    b == b'/' || b == b'.'
}

pub(crate) fn is_sign_byte(b: u8) -> bool
    ensures { result ≡ is_sign_byte b }
{
    matches!(
        b,
        b'<' | b'=' | b'>' | b'+' | b'-' | b'*' | b',' | b'&' | b'\''
    )
}

// Whether the two bytes are two signs.
pub(crate) fn is_pair(b: u8, c: u8) -> bool
    ensures { result ≡ is_pair b c }
{
    matches!(b, b'<' | b'>' | b'=') && c == b'='
}
