// What kind of token some bytes are.
ghost use Rattle.std.specs.Prelude.{◌≡◌, ◌<◌, true, length};
ghost use Rattle.lhg_lex.specs.Token.{is_token, is_signs, said, number_said, signs_said};
ghost use Rattle.lhg_lex.specs.Literal.{is_number, number_of};
ghost use Rattle.lhg_lex.specs.TextTokens.{kind_said};

use crate::classes::{begins_word, is_digit};
use crate::literals::literal;
use crate::stops::What;
use crate::tokens::Tok;

fn number(token: &[u8]) -> Result<Tok, What>
    requires { is_number token.now ≡ true }
    ensures { result ≡ kind_said (number_said (number_of token.now)) }
{
    let value = literal(token)?;
    Ok(Tok::Number(value))
}

fn signs(token: &[u8]) -> Result<Tok, What>
    requires { is_signs token.now ≡ true }
    ensures { result ≡ kind_said (signs_said token.now) }
{
    match token {
        [b] => Ok(Tok::Sign(*b)),
        [b, c] => Ok(Tok::TwoSign(*b, *c)),
        _ => Err(What::BadByte),
    }
}

/// What kind of token the bytes are, or its error. Where there are no bytes, no token stands.
pub(crate) fn kind_of(token: &[u8]) -> Result<Tok, What>
    requires { 0 < length token.now → is_token token.now ≡ true }
    ensures { result ≡ kind_said (said token.now) }
{
    if token.is_empty() {
        Err(What::BadByte)
    } else if begins_word(token[0]) {
        Ok(Tok::Word)
    } else if is_digit(token[0]) {
        number(token)
    } else {
        signs(token)
    }
}
