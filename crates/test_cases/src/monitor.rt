//! A run of a monitor: a folder with specifications, bindings, traces and reports, which name one another as they lie there.

use crate::fault::CaseFault;
use crate::outcome::is_outcome;
use crate::words::{next_decimal, next_word, read, replay_of};
use rv_io::MemStore;
use rv_text::Words;
use std::alloc::Global;
use std::fs::Files;
use std::thread::Threads;

/// What a line of the list has in front of the files that the bindings name.
#[derive(Clone, Copy, Debug, Drop)]
struct MonitorRun<'a> {
    folder: &'a str,
    status: u64,
    bindings: &'a str,
    trace: &'a str,
    report: &'a str,
}

/// A file of the folder.
fn file_of<R: Files>(
    rt: &R,
    alloc: Global,
    folder: &str,
    name: &str,
) -> Result<Vec<u8>, CaseFault> {
    read(rt, alloc, &["monitors/", folder, "/", name])
}

/// The front of a line.
fn run_in<'a>(entry: &mut Words<'a>) -> Result<MonitorRun<'a>, CaseFault> {
    let folder = next_word(entry)?;
    let status = next_decimal(entry)?;
    let bindings = next_word(entry)?;
    let trace = next_word(entry)?;
    let report = next_word(entry)?;
    Ok(MonitorRun {
        folder,
        status,
        bindings,
        trace,
        report,
    })
}

/// Adds a file of the folder, by the name that it has there.
fn add<R: Files>(
    rt: &R,
    alloc: Global,
    store: &mut MemStore,
    folder: &str,
    name: &[u8],
) -> Result<(), CaseFault> {
    let name = std::str::from_utf8(name)?;
    let bytes = file_of(rt, alloc, folder, name)?;
    Ok(store.add(name, bytes.as_slice())?)
}

/// The files of a run.
fn files_of<R: Files>(
    rt: &R,
    alloc: Global,
    run: MonitorRun<'_>,
    names: Words<'_>,
) -> Result<MemStore, CaseFault> {
    let mut store = MemStore::new(alloc);
    let mut names = names;
    while let Some(name) = names.next_word() {
        add(rt, alloc, &mut store, run.folder, name)?;
    }
    add(rt, alloc, &mut store, run.folder, run.bindings.as_bytes())?;
    add(rt, alloc, &mut store, run.folder, run.trace.as_bytes())?;
    Ok(store)
}

/// Whether `replay` puts the report, and ends with the status. The line has the folder, the status, the bindings, the
/// trace, the report, and the files that the bindings name.
pub(crate) fn run<R: Files + Threads + Sync>(
    rt: &R,
    alloc: Global,
    line: &[u8],
) -> Result<bool, CaseFault> {
    let mut entry = Words::new(line);
    let run = run_in(&mut entry)?;
    let report = file_of(rt, alloc, run.folder, run.report)?;
    let mut store = files_of(rt, alloc, run, entry)?;
    let words = replay_of(alloc, run.bindings, run.trace)?;
    is_outcome(
        rt,
        alloc,
        words.as_slice(),
        &mut store,
        run.status,
        report.as_slice(),
    )
}
