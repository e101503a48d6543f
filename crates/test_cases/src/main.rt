//! Runs the stored cases, the tables of cases, the examples and the monitors on the top call, and says which of them differ.
#![tactic(auto)]

mod case;
mod example;
mod fault;
mod marks;
mod monitor;
mod outcome;
mod table;
mod words;

use crate::fault::CaseFault;
use rv_io::{Disk, Store};
use rv_text::Cursor;
use std::alloc::Global;
use std::fs::Files;
use std::io::Print;
use std::process::ExitCode;
use std::thread::Threads;

/// What a list names, one a line.
#[derive(Clone, Copy, Debug, Drop)]
enum ListKind {
    /// A case in a file of its own, by its name.
    Case,
    /// A table of cases, by its name.
    Table,
    /// An example, by its name and its status.
    Example,
    /// A run of a monitor, by its files.
    Monitor,
}

/// The file of the list.
fn list_of(kind: ListKind) -> &'static str {
    match kind {
        ListKind::Case => "cases/list",
        ListKind::Table => "tables/list",
        ListKind::Example => "examples/list",
        ListKind::Monitor => "monitors/list",
    }
}

/// Says which one differs; what cannot be read or run does. The answer is how many agree: one or none.
pub(crate) fn tell<R: Print>(
    rt: &R,
    name: &[u8],
    outcome: Result<bool, CaseFault>,
) -> Result<u32, CaseFault> {
    if let Ok(true) = outcome {
        return Ok(1);
    }
    println!(rt; "{} differs", std::str::from_utf8(name)?)?;
    Ok(0)
}

/// Runs what a line names, and counts the runs that agree.
fn run<R: Files + Print + Threads + Sync>(
    rt: &R,
    alloc: Global,
    kind: ListKind,
    line: &[u8],
) -> Result<u32, CaseFault> {
    match kind {
        ListKind::Case => tell(rt, line, case::run(rt, alloc, line)),
        ListKind::Table => match table::run(rt, alloc, line) {
            Ok(count) => Ok(count),
            Err(fault) => tell(rt, line, Err(fault)),
        },
        ListKind::Example => tell(rt, line, example::run(rt, alloc, line)),
        ListKind::Monitor => tell(rt, line, monitor::run(rt, alloc, line)),
    }
}

/// Runs all that a list names, and counts the runs that agree.
fn run_all<R: Files + Print + Threads + Sync>(
    rt: &R,
    alloc: Global,
    kind: ListKind,
) -> Result<u32, CaseFault> {
    let list = Disk::new(rt).read(alloc, list_of(kind))?;
    let mut count: u32 = 0;
    let mut lines = Cursor::new(list.as_slice());
    while let Some(line) = lines.next_line() {
        count = count.saturating_add(run(rt, alloc, kind, line.bytes)?);
    }
    Ok(count)
}

/// Runs all lists.
fn all<R: Files + Print + Threads + Sync>(rt: &R, alloc: Global) -> Result<(), CaseFault> {
    let alone = run_all(rt, alloc, ListKind::Case)?;
    let in_tables = run_all(rt, alloc, ListKind::Table)?;
    let examples = run_all(rt, alloc, ListKind::Example)?;
    let monitors = run_all(rt, alloc, ListKind::Monitor)?;
    let cases = alone.saturating_add(in_tables);
    println!(rt; "{cases} cases, {examples} examples and {monitors} runs of monitors agree")?;
    Ok(())
}

fn main(rt: HostRuntime) -> ExitCode {
    match all(&rt, rt.alloc()) {
        Ok(()) => ExitCode::SUCCESS,
        Err(_) => ExitCode::FAILURE,
    }
}
