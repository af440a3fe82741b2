//! The lines of a text, by a cursor.

ghost use Rattle.std.specs.Prelude.{◌≡◌, ℕ, List, [], ◌∷◌, ◌++◌, ◌+◌, ◌^◌, ◌<◌, ◌≤◌, ◌↔◌, ◌==◌, length, position, IsNone, IfNone, IfSome};
ghost use Rattle.std.specs.Str.Lines.{strip_carriage_return};
ghost use Rattle.cts_io.specs.Lines.{lines_of, pieces_of, IsLineEnd};

use memchr::memchr;
use std::marker::Model;

/// A cursor over the lines of a text, which it gives as slices with their numbers.
///
/// A line ends with LF, with CR LF, with a CR that is the last byte of the text, or with the end
/// of the text; the slice is without that end. A CR anywhere else stays in the line. An empty text
/// has no lines, and a text that ends with LF or CR has no further line after it.
#[derive(Drop)]
pub struct Lines<'a> {
    rest: &'a [u8],
    line: u32,
}

impl<'a> Model for Lines<'a> {
    ghost use Rattle.std.specs.Prelude.{◌+◌, ◌≤◌, ◌^◌, length};
    ghost use Rattle.cts_io.specs.Lines.{LinesLeft};

    ghost Value = { LinesLeft };

    ghost view = { λ s. record { rest = s.rest.now; line = s.line } };

    ghost invariant = { λ s. s.line + length s.rest.now ≤ 2 ^ 31 };
}

impl<'a> Lines<'a> {
    /// The lines of `bytes`, where `line` lines came before. The first has the number `line + 1`.
    pub fn new(bytes: &'a [u8], line: u32) -> Lines<'a>
        requires few_lines { line ≤ 2 ^ 30 }
        requires few_bytes { length bytes.now ≤ 2 ^ 30 }
        ensures rest { result.rest ≡ bytes.now }
        ensures line { result.line ≡ line }
    {
        Lines { rest: bytes, line }
    }

    /// The next line with its number, or `None` exactly where no line is left.
    pub fn next(&mut self) -> Option<(u32, &'a [u8])>
        ensures none { IsNone result ↔ (lines_of self.old.rest ≡ []) }
        ensures end { IsNone result ↔ (self.old.rest ≡ []) }
        ensures first { IfSome result (λ next.
            lines_of self.old.rest ≡ next.1.now ∷ lines_of self.new.rest) }
        ensures number { IfSome result (λ next. next.0 ≡ self.old.line + 1) }
        ensures bound { IfSome result (λ next. next.0 ≤ 2 ^ 31) }
        ensures after { IfSome result (λ next. self.new.line ≡ next.0) }
        ensures taken { IfSome result (λ next. (end : List ℕ) × IsLineEnd end self.new.rest
            × (self.old.rest ≡ next.1.now ++ end ++ self.new.rest)) }
        ensures kept { IfNone result (self.new ≡ self.old) }
    {
        if self.rest.is_empty() {
            return None;
        }
        let (line, rest) = split_line(self.rest);
        self.rest = rest;
        self.line += 1;
        Some((self.line, line))
    }

    /// The bytes after the lines given so far.
    pub fn rest(&self) -> &'a [u8]
        ensures { result.now ≡ self.now.rest }
    {
        self.rest
    }

    /// The number of the line given last, or of the line before the first.
    pub fn line(&self) -> u32
        ensures value { result ≡ self.now.line }
        ensures bound { result + length self.now.rest ≤ 2 ^ 31 }
    {
        self.line
    }
}

/// The first line of a text, without its end, and what comes after that end.
fn split_line(text: &[u8]) -> (&[u8], &[u8])
    requires { 0 < length text.now }
    ensures lines { lines_of text.now ≡ result.0.now ∷ lines_of result.1.now }
    ensures taken { (end : List ℕ) × IsLineEnd end result.1.now
        × (text.now ≡ result.0.now ++ end ++ result.1.now) }
    ensures shorter { length result.1.now < length text.now }
{
    match find_line_feed(text) {
        Some(at) => (without_cr(&text[..at]), &text[at + 1..]),
        None => (without_cr(text), &text[text.len()..]),
    }
}

/// The place of the first LF.
#[tactic(auto, using(crate::proofs::Found::first_is_position))]
fn find_line_feed(text: &[u8]) -> Option<usize>
    ensures { result ≡ position (λ byte. byte == 10) text.now }
{
    memchr(b'\n', text)
}

/// A piece less the one CR at its end.
fn without_cr(piece: &[u8]) -> &[u8]
    ensures { result.now ≡ strip_carriage_return piece.now }
{
    match piece {
        [line @ .., b'\r'] => line,
        _ => piece,
    }
}
