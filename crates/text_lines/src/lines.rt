ghost use Rattle.std.specs.Prelude.{◌≡◌, ◌+◌, ◌-◌, ◌^◌, ◌<◌, ◌≤◌, ◌∷◌, [], ◌==◌, not, length, drop, take_while, find, MatchOption};
ghost use Rattle.std.specs.Str.Lines.{strip_carriage_return};
ghost use Rattle.text_lines.specs.Lines.{is_blank, is_skipped, lines, field_lines};

use crate::fields::{Fields, is_blank};
use crate::line::Line;
use std::marker::Model;

/// The lines of a text that are still to be read. Skipped lines, which have only spaces and tabs or
/// whose first other byte is `#`, are passed over and counted.
#[derive(Debug, Drop)]
pub struct Lines<'a> {
    rest: &'a [u8],
    // How many lines were read or passed over.
    before: u32,
}

impl<'a> Model for Lines<'a> {
    ghost use Rattle.std.specs.Prelude.{◌+◌, ◌≤◌, ◌^◌, suc, length};
    ghost use Rattle.text_lines.specs.Lines.{LinesAhead, lines, field_lines_from};

    ghost Value = { LinesAhead };

    ghost view = { λ l. record {
      ahead = field_lines_from (suc l.before) (lines l.rest.now);
      count = l.before + length (lines l.rest.now);
    } };

    ghost invariant = { λ l. l.before + length l.rest.now ≤ 2 ^ 31 };
}

impl<'a> Lines<'a> {
    /// The lines of a text of at most 2^31 bytes.
    pub fn new(text: &'a [u8]) -> Self
        requires { length text.now ≤ 2 ^ 31 }
        ensures { result ≡ record { ahead = field_lines text.now; count = length (lines text.now) } }
    {
        Lines {
            rest: text,
            before: 0,
        }
    }

    /// The next line that isn't skipped.
    pub fn next_line(&mut self) -> Option<Line<'a>>
        ensures line { MatchOption result ((self.old.ahead ≡ []) × (self.new.ahead ≡ []))
            (λ line. self.old.ahead ≡ line ∷ self.new.ahead) }
        ensures count { self.new.count ≡ self.old.count }
    {
        while !self.rest.is_empty() {
            let (line, rest) = split_line(self.rest);
            self.rest = rest;
            self.before += 1;
            if !is_skipped(line) {
                return Some(Line {
                    number: self.before,
                    fields: Fields::new(line),
                });
            }
        }
        None
    }

    /// The number of all lines of the text, skipped ones included. It takes the time of reading those
    /// that are still to be read.
    pub fn count(&self) -> u32
        ensures value { result ≡ self.now.count }
        ensures small { result ≤ 2 ^ 31 }
    {
        let mut rest = self.rest;
        let mut count = self.before;
        while !rest.is_empty() {
            rest = split_line(rest).1;
            count += 1;
        }
        count
    }
}

// The first line, less its end, and the text after it.
fn split_line(text: &[u8]) -> (&[u8], &[u8])
    requires { 0 < length text.now }
    ensures lines { lines text.now ≡ result.0.now ∷ lines result.1.now }
    ensures shorter { length result.1.now < length text.now }
{
    let (line, rest) = text.split_at(line_len(text));
    (without_return(line), without_first(rest))
}

fn without_first(text: &[u8]) -> &[u8]
    ensures { result.now ≡ drop 1 text.now }
{
    match text {
        [_, rest @ ..] => rest,
        [] => text,
    }
}

// How many bytes stand before the first line feed, or before the end.
fn line_len(text: &[u8]) -> usize
    ensures { result ≡ length (take_while (λ b. not (b == 10)) text.now) }
{
    text.iter().take_while(|byte| **byte != b'\n').count()
}

// The line without one carriage return at its end.
fn without_return(line: &[u8]) -> &[u8]
    ensures { result.now ≡ strip_carriage_return line.now }
{
    match line {
        [front @ .., b'\r'] => front,
        _ => line,
    }
}

// Whether the line has only blanks, or `#` is the first other byte.
fn is_skipped(line: &[u8]) -> bool
    ensures { result ≡ is_skipped line.now }
{
    match first_other(line) {
        Some(byte) => byte == b'#',
        None => true,
    }
}

// The first byte that is no blank.
fn first_other(line: &[u8]) -> Option<u8>
    ensures { result ≡ find (λ b. not (is_blank b)) line.now }
{
    line.iter().copied().find(|byte| !is_blank(*byte))
}
