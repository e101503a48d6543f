//! A stored case: a text with the words, the status, the files and the output.
//!
//! The first line has the words, the second one the status. Then come the files, each behind its mark; the one that is
//! called `stdout` is the output.

use crate::fault::CaseFault;
use crate::marks::{Piece, pieces};
use crate::outcome::is_outcome;
use crate::words::{text_in, words_of};
use rv_io::MemStore;
use rv_text::{Cursor, decimal};
use std::alloc::Global;
use std::fs::Files;
use std::thread::Threads;

/// What the output is called.
const OUTPUT: &[u8] = b"stdout";

/// A case, alone or of a table.
#[derive(Clone, Copy, Debug, Drop)]
pub(crate) struct Case<'a> {
    /// The words and the status, a line each.
    pub(crate) head: &'a [u8],
    /// The files of its table.
    pub(crate) shared: &'a [Piece<'a>],
    /// Its own files, and its output.
    pub(crate) own: &'a [Piece<'a>],
}

/// Adds the files, each in place of an older one of its name. The answer is the output, where it is among them.
fn add_files(
    alloc: Global,
    store: &mut MemStore,
    pieces: &[Piece<'_>],
) -> Result<Vec<u8>, CaseFault> {
    let mut output = Vec::new(alloc);
    for piece in pieces {
        let bytes = piece.bytes(alloc)?;
        if piece.name() == OUTPUT {
            output = bytes;
        } else {
            store.add(std::str::from_utf8(piece.name())?, bytes.as_slice())?;
        }
    }
    Ok(output)
}

/// The first two lines of a case.
#[derive(Drop)]
struct CaseHead {
    words: Vec<String>,
    status: u64,
}

/// Reads the words and the status.
fn head_in(alloc: Global, head: &[u8]) -> Result<CaseHead, CaseFault> {
    let mut lines = Cursor::new(head);
    let words = lines.next_line().ok_or(CaseFault)?.bytes;
    let status = decimal(lines.next_line().ok_or(CaseFault)?.bytes).ok_or(CaseFault)?;
    let words = words_of(alloc, words)?;
    Ok(CaseHead { words, status })
}

impl Case<'_> {
    /// Whether the run ends with the case's status, and puts its output.
    pub(crate) fn agrees<R: Threads + Sync>(
        &self,
        rt: &R,
        alloc: Global,
    ) -> Result<bool, CaseFault> {
        let head = head_in(alloc, self.head)?;
        let mut store = MemStore::new(alloc);
        add_files(alloc, &mut store, self.shared)?;
        let output = add_files(alloc, &mut store, self.own)?;
        is_outcome(
            rt,
            alloc,
            head.words.as_slice(),
            &mut store,
            head.status,
            output.as_slice(),
        )
    }
}

/// Whether the case of the name agrees.
pub(crate) fn run<R: Files + Threads + Sync>(
    rt: &R,
    alloc: Global,
    name: &[u8],
) -> Result<bool, CaseFault> {
    let text = text_in(rt, alloc, "cases", name)?;
    let own = pieces(alloc, text.as_slice())?;
    let case = Case {
        head: text.as_slice(),
        shared: &[],
        own: own.as_slice(),
    };
    case.agrees(rt, alloc)
}
