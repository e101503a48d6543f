//! The marked lines of a text, each with what stands behind it.
//!
//! A line `-- NAME --` begins a file, which has the lines up to the next marked line. Behind NAME may stand `cut`: the
//! file ends without its last line end; or `times N`: it has its lines N times. A line `== NAME ==` begins a case of a
//! table.

use crate::fault::CaseFault;
use rv_text::{Cursor, Words, decimal};
use std::alloc::Global;

/// What a marked line begins.
#[derive(Clone, Copy, Debug, Drop)]
enum MarkKind {
    Case,
    Whole,
    Cut,
    Times(u64),
}

/// A marked line.
#[derive(Clone, Copy, Debug, Drop)]
struct MarkedLine<'a> {
    kind: MarkKind,
    name: &'a [u8],
}

/// A marked line, and the lines up to the next one.
#[derive(Clone, Copy, Debug, Drop)]
pub(crate) struct Piece<'a> {
    mark: MarkedLine<'a>,
    pub(crate) lines: &'a [u8],
}

impl<'a> Piece<'a> {
    pub(crate) fn name(&self) -> &'a [u8] {
        self.mark.name
    }

    pub(crate) fn begins_case(&self) -> bool {
        matches!(self.mark.kind, MarkKind::Case)
    }

    /// The bytes of the file.
    pub(crate) fn bytes(&self, alloc: Global) -> Result<Vec<u8>, CaseFault> {
        let mut bytes = Vec::new(alloc);
        match self.mark.kind {
            MarkKind::Case | MarkKind::Whole => bytes.extend_from_slice(self.lines)?,
            MarkKind::Cut => {
                if let Some((_, front)) = self.lines.split_last() {
                    bytes.extend_from_slice(front)?;
                }
            }
            MarkKind::Times(count) => {
                for _ in 0..count {
                    bytes.extend_from_slice(self.lines)?;
                }
            }
        }
        Ok(bytes)
    }
}

/// Which file a mark begins, by the word behind its name and those that follow.
fn file_kind(next: &[u8], behind: &mut Words<'_>) -> Option<MarkKind> {
    if next == b"--".as_slice() {
        return Some(MarkKind::Whole);
    }
    if next == b"cut".as_slice() {
        return Some(MarkKind::Cut);
    }
    if next == b"times".as_slice() {
        let count = decimal(behind.next_word()?)?;
        return Some(MarkKind::Times(count));
    }
    None
}

/// What a line begins, by its first word, the word behind the name and those that follow.
fn kind_of(edge: &[u8], next: &[u8], behind: &mut Words<'_>) -> Option<MarkKind> {
    if edge == b"--".as_slice() {
        return file_kind(next, behind);
    }
    if edge == b"==".as_slice() && next == edge {
        return Some(MarkKind::Case);
    }
    None
}

/// The mark that a line is.
fn mark_of<'a>(line: &'a [u8]) -> Option<MarkedLine<'a>> {
    let mut words = Words::new(line);
    let edge = words.next_word()?;
    let name = words.next_word()?;
    let next = words.next_word()?;
    let kind = kind_of(edge, next, &mut words)?;
    Some(MarkedLine { kind, name })
}

/// The piece between two places.
fn between<'a>(mark: MarkedLine<'a>, text: &'a [u8], from: usize, to: usize) -> Piece<'a> {
    Piece {
        mark,
        lines: text.get(from..to).unwrap_or(b""),
    }
}

/// The pieces of a text. What stands in front of the first mark is in none.
pub(crate) fn pieces<'a>(alloc: Global, text: &'a [u8]) -> Result<Vec<Piece<'a>>, CaseFault> {
    let mut pieces = Vec::new(alloc);
    let mut lines = Cursor::new(text);
    let mut open: Option<MarkedLine<'a>> = None;
    let mut from = 0;
    let mut to = 0;
    while let Some(line) = lines.next_line() {
        if let Some(next) = mark_of(line.bytes) {
            if let Some(mark) = open {
                pieces.push(between(mark, text, from, to))?;
            }
            open = Some(next);
            from = line.end;
        }
        to = line.end;
    }
    if let Some(mark) = open {
        pieces.push(between(mark, text, from, to))?;
    }
    Ok(pieces)
}
