// The tokens of a line.
ghost use Rattle.std.specs.Prelude.{◌≡◌, ◌+◌, ◌^◌, ◌<◌, length, IfOk, IfErr, Ok};
ghost use Rattle.lhg_lex.specs.LineTokens.{tokens_from};
ghost use Rattle.lhg_lex.specs.TextTokens.{all_placed, IsStopAt};

use crate::classes::is_separator;
use crate::kinds::kind_of;
use crate::lengths::token_len;
use crate::stops::ReadStop;
use crate::tokens::Token;
use std::alloc::Global;

/// The tokens of the bytes of a line that count, from left to right. `start` is the place of the line in its text.
pub(crate) fn line_tokens(
    alloc: Global,
    line: &[u8],
    number: u32,
    start: u32,
) -> Result<Vec<Token>, ReadStop>
    requires { start + length line.now < 2 ^ 32 }
    ensures ok { IfOk result (λ v. all_placed start (tokens_from 0 0 line.now) ≡ Ok v.items) }
    ensures err { IfErr result (λ e. IsStopAt number (tokens_from 0 0 line.now) e) }
{
    let mut tokens = Vec::new(alloc);
    let mut at = 0;
    while at < line.len() {
        if is_separator(line[at]) {
            at += 1;
        } else {
            let len = token_len(&line[at..]);
            match kind_of(&line[at..at + len]) {
                Ok(kind) => {
                    let from = start + at as u32;
                    let to = from + len as u32;
                    tokens.push(Token { kind, from, to })?;
                    at += len;
                }
                Err(what) => {
                    let column = at as u32 + 1;
                    return Err(ReadStop::Bad {
                        line: number,
                        column,
                        what,
                    });
                }
            }
        }
    }
    Ok(tokens)
}
