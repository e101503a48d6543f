//! An example: a folder with bindings, a trace, and the report that they come to.

use crate::fault::CaseFault;
use crate::outcome::is_outcome;
use crate::words::{joined, next_decimal, next_word, read, replay_of};
use rv_io::Disk;
use rv_text::Words;
use std::alloc::Global;
use std::fs::Files;
use std::thread::Threads;

/// What a line of the list has: the example's name, and its status.
fn named_in(line: &[u8]) -> Result<(&str, u64), CaseFault> {
    let mut entry = Words::new(line);
    let name = next_word(&mut entry)?;
    let status = next_decimal(&mut entry)?;
    Ok((name, status))
}

/// The words of the example's run.
fn example_words(alloc: Global, name: &str) -> Result<Vec<String>, CaseFault> {
    let bindings = joined(alloc, &["examples/", name, "/", name, ".rv"])?;
    let trace = joined(alloc, &["examples/", name, "/", name, ".txt"])?;
    replay_of(alloc, bindings.as_str(), trace.as_str())
}

/// Whether the run of the example puts its report, and ends with its status.
pub(crate) fn run<R: Files + Threads + Sync>(
    rt: &R,
    alloc: Global,
    line: &[u8],
) -> Result<bool, CaseFault> {
    let (name, status) = named_in(line)?;
    let words = example_words(alloc, name)?;
    let report = read(rt, alloc, &["examples/", name, "/report.txt"])?;
    is_outcome(
        rt,
        alloc,
        words.as_slice(),
        &mut Disk::new(rt),
        status,
        report.as_slice(),
    )
}
