//! Walks the lines of a text, one at a time. A line ends at the byte 10, and the last one may lack it.
ghost use Rattle.std.specs.Prelude.{◌≡◌, ◌<◌, ◌≤◌, ◌+◌, List, [], ◌∷◌, length, min, true, IfSome, IfNone};
ghost use Rattle.rv_text.specs.TextLines.{LineText, line_text, lines_from, lines_of, line_end, next_number, is_line_start};

use crate::bytes::near_byte;
use memchr::memchr;
use std::marker::Model;

/// A line of a text.
#[derive(Clone, Copy, Debug, Drop)]
pub struct TextLine<'a> {
    /// Counted from 1; past 4,294,967,295 it stands still.
    pub number: u32,
    /// Where the line starts.
    pub from: usize,
    /// The line without its line end.
    pub bytes: &'a [u8],
    /// Where the line ends, its line end included.
    pub end: usize,
}

/// The lines of a text that were not yet given.
#[derive(Debug, Drop)]
pub struct Cursor<'a> {
    text: &'a [u8],
    number: u32,
    place: usize,
}

impl<'a> Model for Cursor<'a> {
    ghost Value = { List LineText };

    ghost view = { λ cursor. lines_from cursor.text.now cursor.number cursor.place };

    ghost invariant = { λ cursor. (cursor.place ≤ length cursor.text.now)
        × (cursor.place < length cursor.text.now → is_line_start cursor.text.now cursor.place ≡ true) };
}

impl<'a> Cursor<'a> {
    /// At the first line of the text.
    #[tactic(auto, unfolding(crate::specs::TextLines::lines_of))]
    pub fn new(text: &'a [u8]) -> Cursor<'a>
        ensures { result ≡ lines_of text.now }
    {
        Cursor {
            text,
            number: 1,
            place: 0,
        }
    }

    /// The next line, where there is one.
    pub fn next_line(&mut self) -> Option<TextLine<'a>>
        ensures some { IfSome result (λ line. self.old ≡ line_text line ∷ self.new) }
        ensures none { IfNone result ((self.old ≡ []) × (self.new ≡ [])) }
    {
        let text = self.text;
        let from = self.place;
        let number = self.number;
        if from == text.len() {
            return None;
        }
        let to = line_end(text, from);
        let end = past_line_end(text, to);
        self.place = end;
        self.number = next_number(number);
        Some(TextLine {
            number,
            from,
            bytes: &text[from..to],
            end,
        })
    }
}

/// The first line end from a place on, or the end of the text. Most are near.
#[inline(always)]
#[tactic(auto, unfolding(crate::specs::TextLines::line_end))]
pub fn line_end(text: &[u8], from: usize) -> usize
    requires { from ≤ length text.now }
    ensures value { result ≡ line_end text.now from }
    ensures low { from ≤ result }
    ensures high { result ≤ length text.now }
{
    match near_byte(b'\n', text, from) {
        Some(to) => to,
        None => far_line_end(text, from),
    }
}

/// The same, however far it is.
#[inline(never)]
fn far_line_end(text: &[u8], from: usize) -> usize
    requires { from ≤ length text.now }
    ensures value { result ≡ line_end text.now from }
    ensures low { from ≤ result }
    ensures high { result ≤ length text.now }
{
    match memchr(b'\n', &text[from..]) {
        Some(offset) => from + offset,
        None => text.len(),
    }
}

/// The place behind the line end that stands here, if one does.
#[inline(always)]
pub fn past_line_end(text: &[u8], to: usize) -> usize
    requires { to ≤ length text.now }
    ensures { result ≡ min (to + 1) (length text.now) }
{
    if to < text.len() { to + 1 } else { to }
}

/// The next line's number.
#[inline(always)]
pub fn next_number(number: u32) -> u32
    ensures { result ≡ next_number number }
{
    if number < u32::MAX {
        number + 1
    } else {
        number
    }
}
