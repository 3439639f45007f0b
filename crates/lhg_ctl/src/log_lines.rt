// One line of a log behind its start.
ghost use Rattle.std.specs.Prelude.{◌≡◌, map, All};
ghost use Rattle.std.specs.Option.{option_map};
ghost use Rattle.lhg_lex.specs.TextTokens.{plain_of, IsSpan};
ghost use Rattle.lhg_plant.specs.Views.{plain_plant};
ghost use Rattle.lhg_read.specs.Lexed.{IsLexed};
ghost use Rattle.lhg_read.specs.PointText as plain;
ghost use Rattle.lhg_read.specs.Refusals.{IsRead};
ghost use Rattle.lhg_read.specs.Signs as sign;
ghost use Rattle.lhg_ctl.specs.LogText.{signed_by, timed, flow_of, env_of, log_by, log_taken, with_line};
ghost use Rattle.lhg_ctl.specs.LogViews.{plain_entry, plain_open_log};

use crate::entries::Entry;
use crate::open_logs::OpenLog;
use lhg_lex::{Lines, Tok, Token};
use lhg_num::{Frac, Scalar};
use lhg_plant::Plant;
use lhg_read::{Refusal, is_word, point_from, uncontrollable_named};
use std::alloc::Global;

// Whether the token is a `-`.
fn is_minus(lines: &Lines, token: &Token) -> bool
    ensures { result ≡ sign.is_minus (plain_of lines.now.bytes token.now) }
{
    match token.kind {
        Tok::Sign(b) => b == b'-',
        _ => false,
    }
}

// The number that the token is.
fn number_in(lines: &Lines, token: &Token) -> Option<Frac>
    ensures { result ≡ plain.number_in (plain_of lines.now.bytes token.now) }
{
    match token.kind {
        Tok::Number(q) => Some(q),
        _ => None,
    }
}

// The number, negated or not.
fn signed_by(minus: bool, time: Frac) -> Frac
    ensures { result ≡ signed_by minus time }
{
    if minus { time.neg() } else { time }
}

// A flow: its time, negated or not, and its end.
fn timed_from(
    alloc: Global,
    lines: &Lines,
    plant: &Plant,
    minus: bool,
    tokens: &[Token],
) -> Result<Entry, Refusal>
    requires { All (IsSpan lines.now.bytes) tokens.now }
    ensures { IsRead result (timed plant.now.vars.items minus (map (plain_of lines.now.bytes) tokens.now)) plain_entry }
{
    match tokens {
        [] => Err(Refusal::NotHere),
        [first, ..] => {
            let Some(time) = number_in(lines, first) else {
                return Err(Refusal::NotHere);
            };
            let to = point_from(alloc, lines, &plant.vars, &tokens[1..])?;
            Ok(Entry::Flow {
                time: signed_by(minus, time),
                to,
            })
        }
    }
}

// A flow, where a `-` may stand before its time.
fn flow_from(
    alloc: Global,
    lines: &Lines,
    plant: &Plant,
    tokens: &[Token],
) -> Result<Entry, Refusal>
    requires { All (IsSpan lines.now.bytes) tokens.now }
    ensures { IsRead result (flow_of plant.now.vars.items (map (plain_of lines.now.bytes) tokens.now)) plain_entry }
{
    match tokens {
        [] => Err(Refusal::NotHere),
        [first, ..] => {
            if is_minus(lines, first) {
                return timed_from(alloc, lines, plant, true, &tokens[1..]);
            }
            timed_from(alloc, lines, plant, false, tokens)
        }
    }
}

// An uncontrollable switch and its result.
fn env_from(alloc: Global, lines: &Lines, plant: &Plant, tokens: &[Token]) -> Result<Entry, Refusal>
    requires spans { All (IsSpan lines.now.bytes) tokens.now }
    requires words { All (λ token. IsLexed (plain_of lines.now.bytes token)) tokens.now }
    ensures { IsRead result (env_of (plain_plant plant.now) (map (plain_of lines.now.bytes) tokens.now)) plain_entry }
{
    match tokens {
        [] => Err(Refusal::NotHere),
        [name, ..] => {
            let Some(switch) = uncontrollable_named(lines, plant, name) else {
                return Err(Refusal::NotHere);
            };
            let to = point_from(alloc, lines, &plant.vars, &tokens[1..])?;
            Ok(Entry::Env { switch, to })
        }
    }
}

// Takes the line with this first token, where it can stand.
fn take_by(
    alloc: Global,
    lines: &Lines,
    plant: &Plant,
    first: &Token,
    rest: &[Token],
    log: &mut OpenLog,
) -> Result<(), Refusal>
    requires span { IsSpan lines.now.bytes first.now }
    requires spans { All (IsSpan lines.now.bytes) rest.now }
    requires words { All (λ token. IsLexed (plain_of lines.now.bytes token)) rest.now }
    ensures { IsRead result (option_map (with_line (plain_open_log log.old)) (log_by (plain_plant plant.now) (plain_of lines.now.bytes first.now) (map (plain_of lines.now.bytes) rest.now))) (λ _. plain_open_log log.new) }
{
    if is_word(lines, first, b"flow") {
        let next = flow_from(alloc, lines, plant, rest)?;
        return log.take(next);
    }
    if is_word(lines, first, b"env") {
        let next = env_from(alloc, lines, plant, rest)?;
        return log.take(next);
    }
    if is_word(lines, first, b"land") {
        let to = point_from(alloc, lines, &plant.vars, rest)?;
        return log.take(Entry::Land { to });
    }
    if is_word(lines, first, b"end") {
        if !rest.is_empty() {
            return Err(Refusal::NotHere);
        }
        log.end();
        return Ok(());
    }
    Err(Refusal::NotHere)
}

/// Takes a line behind the start, where it can stand.
pub(crate) fn take_line(
    alloc: Global,
    lines: &Lines,
    plant: &Plant,
    tokens: &[Token],
    log: &mut OpenLog,
) -> Result<(), Refusal>
    requires spans { All (IsSpan lines.now.bytes) tokens.now }
    requires words { All (λ token. IsLexed (plain_of lines.now.bytes token)) tokens.now }
    ensures { IsRead result (log_taken (plain_plant plant.now) (plain_open_log log.old) (map (plain_of lines.now.bytes) tokens.now)) (λ _. plain_open_log log.new) }
{
    match tokens {
        [] => Err(Refusal::NotHere),
        [first, ..] => take_by(alloc, lines, plant, first, &tokens[1..], log),
    }
}
