// Names, and the variables of a plant.
ghost use Rattle.std.specs.Prelude.{◌≡◌, ◌≤◌, [], ◌∷◌, length, map, All};
ghost use Rattle.std.specs.Option.{option_and_then};
ghost use Rattle.lhg_lex.specs.TextTokens.{plain_of, IsSpan};
ghost use Rattle.lhg_read.specs.Lexed.{IsLexed};
ghost use Rattle.lhg_plant.specs.Differ.{is_among};
ghost use Rattle.lhg_read.specs.Names as plain;
ghost use Rattle.lhg_read.specs.Refusals.{IsRead};

use crate::refusal::Refusal;
use crate::signs::is_word;
use lhg_lex::{Lines, Tok, Token};
use lhg_plant::{MOST_NAME_BYTES, MOST_VARIABLES, Name};
use std::alloc::Global;

/// The name that a token is.
pub fn read_name(lines: &Lines, token: &Token) -> Option<Name>
    requires span { IsSpan lines.now.bytes token.now }
    requires word { IsLexed (plain_of lines.now.bytes token.now) }
    ensures { result ≡ plain.name_of (plain_of lines.now.bytes token.now) }
{
    match token.kind {
        Tok::Word => {
            let text = lines.text(token);
            if text.len() <= MOST_NAME_BYTES {
                Some(Name::new(text))
            } else {
                None
            }
        }
        _ => None,
    }
}

/// The one name that the tokens are.
pub(crate) fn one_name(lines: &Lines, tokens: &[Token]) -> Option<Name>
    requires spans { All (IsSpan lines.now.bytes) tokens.now }
    requires words { All (λ token. IsLexed (plain_of lines.now.bytes token)) tokens.now }
    ensures { result ≡ plain.one_name (map (plain_of lines.now.bytes) tokens.now) }
{
    match tokens {
        [token] => read_name(lines, token),
        _ => None,
    }
}

// Whether a keyword for rows takes the name.
fn is_taken(word: &[u8]) -> bool
    ensures { result ≡ plain.is_taken word.now }
{
    word == b"all".as_slice() || word == b"still".as_slice() || word == b"keep".as_slice()
}

// The name of a variable that a token is.
fn variable_name(lines: &Lines, token: &Token) -> Option<Name>
    requires span { IsSpan lines.now.bytes token.now }
    requires word { IsLexed (plain_of lines.now.bytes token.now) }
    ensures { result ≡ plain.variable_name (plain_of lines.now.bytes token.now) }
{
    match read_name(lines, token) {
        Some(name) => {
            if is_taken(name.bytes()) {
                None
            } else {
                Some(name)
            }
        }
        None => None,
    }
}

// Whether the name is among these.
fn is_among(name: &Name, names: &[Name]) -> bool
    ensures { result ≡ is_among name.now names.now }
{
    names.iter().any(|other| other.bytes() == name.bytes())
}

// The variables, if the tokens are names of variables.
fn read_variables(alloc: Global, lines: &Lines, tokens: &[Token]) -> Result<Vec<Name>, Refusal>
    requires spans { All (IsSpan lines.now.bytes) tokens.now }
    requires words { All (λ token. IsLexed (plain_of lines.now.bytes token)) tokens.now }
    ensures { IsRead result (option_and_then plain.proper_variables (plain.variable_names (map (plain_of lines.now.bytes) tokens.now))) (λ v. v.items) }
{
    let mut vars = Vec::new(alloc);
    for token in tokens {
        let Some(name) = variable_name(lines, token) else {
            return Err(Refusal::NotHere);
        };
        if vars.len() == MOST_VARIABLES {
            return Err(Refusal::NotHere);
        }
        if is_among(&name, &vars) {
            return Err(Refusal::NotHere);
        }
        vars.push(name)?;
    }
    if vars.is_empty() {
        return Err(Refusal::NotHere);
    }
    Ok(vars)
}

/// The variables of the line `vars NAMES`.
pub(crate) fn read_vars(
    alloc: Global,
    lines: &Lines,
    tokens: &[Token],
) -> Result<Vec<Name>, Refusal>
    requires spans { All (IsSpan lines.now.bytes) tokens.now }
    requires words { All (λ token. IsLexed (plain_of lines.now.bytes token)) tokens.now }
    ensures { IsRead result (plain.vars_of (map (plain_of lines.now.bytes) tokens.now)) (λ v. v.items) }
{
    match tokens {
        [] => Err(Refusal::NotHere),
        [first, ..] => {
            if !is_word(lines, first, b"vars") {
                return Err(Refusal::NotHere);
            }
            read_variables(alloc, lines, &tokens[1..])
        }
    }
}
