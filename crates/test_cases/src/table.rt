//! A table: files that are said once, and cases over them.
//!
//! The files stand first. Then comes each case: its mark, and behind it what a case's file has. Its own files stand
//! beside those of the table, or in place of the one of the same name.

use crate::case::Case;
use crate::fault::CaseFault;
use crate::marks::{Piece, pieces};
use crate::tell;
use crate::words::text_in;
use std::alloc::Global;
use std::fs::Files;
use std::io::Print;
use std::thread::Threads;

/// The pieces in front of the first case.
fn files<'a>(pieces: &'a [Piece<'a>]) -> &'a [Piece<'a>] {
    match pieces.iter().position(|piece| piece.begins_case()) {
        Some(count) => pieces.get(..count).unwrap_or(pieces),
        None => pieces,
    }
}

/// Runs the cases of the table of the name, and counts those that agree.
pub(crate) fn run<R: Files + Print + Threads + Sync>(
    rt: &R,
    alloc: Global,
    name: &[u8],
) -> Result<u32, CaseFault> {
    let mut count: u32 = 0;
    let text = text_in(rt, alloc, "tables", name)?;
    let pieces = pieces(alloc, text.as_slice())?;
    for (place, piece) in pieces.iter().enumerate() {
        if piece.begins_case() {
            let case = Case {
                head: piece.lines,
                shared: files(pieces.as_slice()),
                own: files(pieces.get(place.saturating_add(1)..).unwrap_or(&[])),
            };
            let agreed = tell(rt, piece.name(), case.agrees(rt, alloc))?;
            count = count.saturating_add(agreed);
        }
    }
    Ok(count)
}
