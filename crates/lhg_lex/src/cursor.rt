// The lines of a text, one after another.
ghost use Rattle.std.specs.Prelude.{◌≡◌, ◌+◌, ◌≤◌, length, slice_range, IfOk, IfErr, IfSome, IfNone, OnErr};
ghost use Rattle.lhg_lex.specs.Lines.{lines_of};
ghost use Rattle.lhg_lex.specs.Reading.{Reading, IsAt, IsAtEnd, IsTokenLine, IsStop};

use crate::contents::{content, first_line};
use crate::line_tokens::line_tokens;
use crate::stops::ReadStop;
use crate::tokens::{Line, Token};
use std::alloc::Global;
use std::marker::Model;

/// The most bytes that a text may have.
pub const TEXT_LIMIT: usize = 1_048_576;

/// The lines of a text, from the next that is not read yet.
#[derive(Debug, Drop)]
pub struct Lines<'a> {
    bytes: &'a [u8],
    place: usize,
    read: u32,
}

impl<'a> Model for Lines<'a> {
    ghost use Rattle.std.specs.Prelude.{◌≤◌, length};
    ghost use Rattle.lhg_lex.specs.declared.cursor.TheConstants.{TEXT_LIMIT};
    ghost use Rattle.lhg_lex.specs.Reading.{Reading, IsAt};

    ghost Value = { Reading };

    ghost view = { λ l. record { bytes = l.bytes.now; read = l.read } };

    ghost invariant = { λ l. (length l.bytes.now ≤ TEXT_LIMIT) × IsAt l.bytes.now l.place l.read };
}

// A place in a text behind some of its lines, and the last of these where it is not blank.
#[derive(Drop)]
struct Found {
    place: usize,
    read: u32,
    line: Option<Line>,
}

// The next line that has a token, from a place behind `read` lines on.
fn next_line(alloc: Global, bytes: &[u8], from: usize, read: u32) -> Result<Found, ReadStop>
    requires short { length bytes.now ≤ TEXT_LIMIT }
    requires at { IsAt bytes.now from read }
    ensures at { IfOk result (λ f. IsAt bytes.now f.place f.read) }
    ensures line { IfOk result (λ f. IfSome f.line (λ line. IsTokenLine (record { bytes = bytes.now; read = read }) line)) }
    ensures read { IfOk result (λ f. IfSome f.line (λ line. f.read ≡ line.number)) }
    ensures none { IfOk result (λ f. IfNone f.line (IsAtEnd (record { bytes = bytes.now; read = read }))) }
    ensures all { IfOk result (λ f. IfNone f.line (f.read ≡ length (lines_of bytes.now))) }
    ensures stop { IfErr result (λ e. IsStop (record { bytes = bytes.now; read = read }) e) }
{
    let mut place = from;
    let mut number = read;
    while place < bytes.len() {
        let line = first_line(&bytes[place..]);
        let start = place as u32;
        number += 1;
        place += line.len() + 1;
        let tokens = line_tokens(alloc, content(line), number, start)?;
        if !tokens.is_empty() {
            return Ok(Found {
                place,
                read: number,
                line: Some(Line { number, tokens }),
            });
        }
    }
    Ok(Found {
        place,
        read: number,
        line: None,
    })
}

impl<'a> Lines<'a> {
    /// The lines of a text, from the first on.
    pub fn new(bytes: &'a [u8]) -> Lines<'a>
        requires { length bytes.now ≤ TEXT_LIMIT }
        ensures { result ≡ record { bytes = bytes.now; read = 0 } }
    {
        Lines {
            bytes,
            place: 0,
            read: 0,
        }
    }

    /// The next line that has a token, with its number and its tokens. A token error, or want of memory, leaves the
    /// lines where they were.
    pub fn next(&mut self, alloc: Global) -> Result<Option<Line>, ReadStop>
        // the lines that are read are lines of the text
        ensures within { self.old.read ≤ length (lines_of self.old.bytes) }
        // the next line that is not blank, and its tokens
        ensures line { IfOk result (λ o. IfSome o (λ line. IsTokenLine self.old line)) }
        ensures read { IfOk result (λ o. IfSome o (λ line. self.new ≡ record self.old { read = line.number })) }
        // none exactly where all lines that are left are blank
        ensures none { IfOk result (λ o. IfNone o (IsAtEnd self.old)) }
        ensures all { IfOk result (λ o. IfNone o (self.new ≡ record self.old { read = length (lines_of self.old.bytes) })) }
        // the next line that is not blank, and its first token error
        ensures stop { IfErr result (λ e. IsStop self.old e) }
        ensures err { OnErr result (self.new ≡ self.old) }
    {
        let found = next_line(alloc, self.bytes, self.place, self.read)?;
        self.place = found.place;
        self.read = found.read;
        Ok(found.line)
    }

    /// How many lines are read, blank ones included.
    pub fn lines_read(&self) -> u32
        ensures count { result ≡ self.now.read }
        ensures few { result ≤ TEXT_LIMIT }
    {
        self.read
    }

    /// The bytes of a token.
    pub fn text(&self, token: &Token) -> &[u8]
        requires order { token.now.from ≤ token.now.to }
        requires within { token.now.to ≤ length self.now.bytes }
        ensures { result.now ≡ slice_range self.now.bytes token.now.from token.now.to }
    {
        &self.bytes[token.from as usize..token.to as usize]
    }
}
