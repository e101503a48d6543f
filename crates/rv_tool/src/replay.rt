//! A run on one thread.
ghost use Rattle.std.specs.Prelude.{◌≡◌, length, IfOk};
ghost use Rattle.rv_model.specs.Histories.{IsOneHistory};
ghost use Rattle.rv_feed.specs.Lane.{lane_records};
ghost use Rattle.rv_tool.specs.Headline.{IsReported};
ghost use Rattle.rv_tool.specs.inner.LaneReports.{ReportsLanes};
ghost use Rattle.rv_tool.specs.Listed.{listed_value, IsPreparedList};

use crate::listed::PreparedList;
use rv_bind::Bindings;
use rv_feed::RecordingLane;
use rv_model::Closed;
use rv_replay::{Digested, Replayed, replay_list, report_lanes};
use rv_report::{RunReport, report_found};
use rv_slots::Tasks;
use std::alloc::{AllocError, Global};

/// What a command came to, before anything is put.
#[derive(Drop)]
pub struct FinishedRun {
    /// The exit status that goes with the text.
    pub status: u8,
    pub text: Vec<u8>,
    /// The history, which is empty where nothing ran.
    pub closed: Closed,
}

/// The report of the lanes of a run, and its history.
pub(crate) fn report(
    alloc: Global,
    bindings: &Bindings,
    tasks: &Tasks,
    lanes: &[RecordingLane<Digested>],
    closed: Closed,
) -> Result<FinishedRun, AllocError>
    ensures { IfOk result (ReportsLanes bindings.now tasks.now (lane_records lanes.now) closed) }
{
    let RunReport { text, status } = report_lanes(alloc, bindings, tasks, lanes)?;
    Ok(FinishedRun {
        status,
        text,
        closed,
    })
}

/// The whole run, its deliveries in the order of the trace, and its report.
pub(crate) fn replayed(alloc: Global, ready: PreparedList) -> Result<FinishedRun, AllocError>
    requires { IsPreparedList ready }
    ensures { IfOk result (λ done. IsReported IsOneHistory (listed_value ready) done.closed done.text.items done.status) }
{
    let Replayed { closed, found } = replay_list(
        alloc,
        ready.setup,
        &ready.bindings,
        &ready.tasks,
        ready.reactors.as_slice(),
        &ready.list,
    )?;
    let RunReport { text, status } = report_found(alloc, &ready.bindings, &ready.tasks, &found)?;
    Ok(FinishedRun {
        status,
        text,
        closed,
    })
}
