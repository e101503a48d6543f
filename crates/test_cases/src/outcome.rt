//! A run of a top call, and what it comes to.

use crate::fault::CaseFault;
use rv_coverage::rv_coverage;
use rv_io::{MemSink, OpenGate, Store};
use rv_tool::rv;
use std::alloc::Global;
use std::thread::Threads;

/// The most bytes that one put takes.
const PIECE: usize = 4096;

/// The most bytes that a run puts.
const ROOM: usize = 1_048_576;

/// The word before those of the second program.
const COVERAGE: &str = "rv-coverage";

/// The status of a run of the first program.
fn rv_status<R: Threads + Sync, S: Store>(
    rt: &R,
    alloc: Global,
    words: &[String],
    store: &mut S,
    out: &mut MemSink,
) -> u8 {
    rv(rt, alloc, words, store, out, &OpenGate).status
}

/// The status of a run of the second program.
fn coverage_status<S: Store>(
    alloc: Global,
    words: &[String],
    store: &mut S,
    out: &mut MemSink,
) -> u8 {
    rv_coverage(alloc, words, store, out).status
}

/// Whether the run ends with this status, and puts this text.
pub(crate) fn is_outcome<R: Threads + Sync, S: Store>(
    rt: &R,
    alloc: Global,
    words: &[String],
    store: &mut S,
    status: u64,
    text: &[u8],
) -> Result<bool, CaseFault> {
    let mut out = MemSink::new(alloc, PIECE, ROOM)?;
    let ended = match words {
        [first, rest @ ..] if first.as_str() == COVERAGE => {
            coverage_status(alloc, rest, store, &mut out)
        }
        _ => rv_status(rt, alloc, words, store, &mut out),
    };
    Ok(ended as u64 == status && out.taken() == text)
}
