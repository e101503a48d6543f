//! A run on several threads.
ghost use Rattle.std.specs.Prelude.{IfOk};
ghost use Rattle.rv_model.specs.Histories.{IsLegal};
ghost use Rattle.rv_tool.specs.Headline.{IsReported};
ghost use Rattle.rv_tool.specs.inner.Prepared.{prepared_value, IsPrepared};

use crate::input::Prepared;
use crate::replay::{FinishedRun, report};
use rv_feed::feed;
use rv_io::Gate;
use std::alloc::{AllocError, Global};
use std::thread::Threads;

/// The whole run, a thread for each CPU and one for its changes, and its report.
pub(crate) fn fed<R: Threads + Sync, G: Gate + Send>(
    rt: &R,
    alloc: Global,
    gate: &G,
    ready: Prepared,
) -> Result<FinishedRun, AllocError>
    requires { IsPrepared ready }
    ensures { IfOk result (λ done. IsReported IsLegal (prepared_value ready) done.closed done.text.items done.status) }
{
    let lanes = ready.lanes;
    let changes = ready.changes;
    let run = feed(
        rt,
        alloc,
        ready.setup,
        ready.reactors.as_slice(),
        lanes,
        changes,
        gate,
    )?;
    let closed = run.closed;
    report(
        alloc,
        &ready.bindings,
        &ready.tasks,
        run.lanes.as_slice(),
        closed,
    )
}
