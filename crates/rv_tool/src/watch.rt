//! A run on several threads, with a reader of one slot beside them.
ghost use Rattle.std.specs.Prelude.{◌≡◌, ◌≤◌, [], IfOk};
ghost use Rattle.rv_bind.specs.Outcomes.{ReadsOutcome, of_file};
ghost use Rattle.rv_bind.specs.Possible.{MayCome};
ghost use Rattle.rv_stream.specs.inner.Faults.{IsOutcome};
ghost use Rattle.rv_tool.specs.inner.LaneReports.{ReportsWatched};
ghost use Rattle.rv_tool.specs.inner.Prepared.{prepared_value, IsPrepared};
ghost use Rattle.rv_tool.specs.Watched.{watched_slot, watched_by, watched_input};
ghost use Rattle.rv_tool.specs.WatchReports.{IsWatchReport};
ghost use Rattle.rv_tool.specs.inner.WatchReports.{watch_value, IsPreparedWatch};
ghost use Rattle.rv_tool.specs.Possible.{MayWatch};

use crate::input::{Prepared, read_input};
use crate::replay::{FinishedRun, report};
use rv_bind::{BindFault, Bindings, refused};
use rv_io::{Gate, Store};
use rv_replay::Digested;
use rv_slots::Tasks;
use rv_text::{NO_INSTANCE, Refusal, Refused};
use rv_watch::{Watched, feed_watched, watch_lines, watched_slot};
use std::alloc::{AllocError, Global};
use std::thread::Threads;

/// What a watched run begins with.
#[derive(Drop)]
pub(crate) struct PreparedWatch {
    pub(crate) ready: Prepared,
    pub(crate) slot: u32,
}

/// What is ready, with the slot that the words name.
fn find_slot(
    alloc: Global,
    trace: &str,
    ready: Prepared,
    monitor: &str,
    instance: &str,
) -> Result<PreparedWatch, BindFault>
    requires ready { IsPrepared ready }
    requires unchanged { ready.changes.items ≡ [] }
    ensures ready { IfOk result IsPreparedWatch }
    ensures value { IsOutcome watch_value result (of_file trace.now (watched_by (prepared_value ready) (watched_slot (prepared_value ready) monitor.now instance.now))) }
{
    let slot = watched_slot(
        &ready.bindings,
        &ready.tasks,
        &ready.setup.shape,
        monitor.as_bytes(),
        instance.as_bytes(),
    );
    match slot {
        Some(slot) => Ok(PreparedWatch { ready, slot }),
        None => {
            drop(ready);
            Err(refused(alloc, trace, Refused::Because(Refusal::whole(NO_INSTANCE))))
        }
    }
}

/// Reads the bindings and the trace, and finds the slot that the words name.
#[tactic(auto, using(rv_bind::proofs::OutcomeLemmas::fault_counted, rv_bind::proofs::OutcomeLemmas::none_counted, crate::proofs::WatchLemmas::watch_named))]
pub(crate) fn read_watched<S: Store>(
    alloc: Global,
    store: &mut S,
    bindings: &str,
    trace: &str,
    monitor: &str,
    instance: &str,
) -> Result<PreparedWatch, BindFault>
    ensures ready { IfOk result IsPreparedWatch }
    ensures some { MayCome watch_value result (MayWatch bindings.now trace.now monitor.now instance.now) }
    ensures reads { ReadsOutcome watch_value (S.files store.old) (S.files store.new) (S.faults store.old) (S.faults store.new) result (λ files. watched_input files bindings.now trace.now monitor.now instance.now) }
{
    let ready = read_input(alloc, store, bindings, trace)?;
    find_slot(alloc, trace, ready, monitor, instance)
}

/// The report of a watched run, with a line for each word of the slot behind it, and its history.
fn report_watched(
    alloc: Global,
    bindings: &Bindings,
    tasks: &Tasks,
    run: Watched<Digested>,
) -> Result<FinishedRun, AllocError>
    ensures { IfOk result (ReportsWatched bindings.now tasks.now run) }
{
    let closed = run.closed;
    let mut done = report(alloc, bindings, tasks, run.lanes.as_slice(), closed)?;
    let lines = watch_lines(alloc, run.words.as_slice(), run.last)?;
    done.text.extend_from_slice(lines.as_slice())?;
    Ok(done)
}

/// The whole run, a thread for each CPU and one for the reader of the slot, its report, and the words that were read.
pub(crate) fn watched<R: Threads + Sync, G: Gate + Send>(
    rt: &R,
    alloc: Global,
    gate: &G,
    to_watch: PreparedWatch,
) -> Result<FinishedRun, AllocError>
    requires { IsPreparedWatch to_watch }
    ensures { IfOk result (λ done. IsWatchReport (watch_value to_watch) done.closed done.text.items done.status) }
{
    let PreparedWatch { ready, slot } = to_watch;
    let lanes = ready.lanes;
    let run = feed_watched(
        rt,
        alloc,
        ready.setup,
        ready.reactors.as_slice(),
        lanes,
        slot,
        gate,
    )?;
    report_watched(alloc, &ready.bindings, &ready.tasks, run)
}
