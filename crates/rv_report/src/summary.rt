//! The lines of the summary.
ghost use Rattle.std.specs.Prelude.{◌≡◌, ◌++◌, List, length, OnOk};
ghost use Rattle.rv_model.specs.declared.record.Record.{Record};
ghost use Rattle.rv_model.specs.declared.record.Task.{Task};
ghost use Rattle.rv_model.specs.Reports.{instances_in, summaries_text};
ghost use Rattle.rv_report.specs.Reported.{reported, reported_of};
ghost use Rattle.rv_report.specs.Tallies.{AreTallies};
ghost use Rattle.rv_report.specs.inner.Tallies.{count_line};

use crate::instances::display_name;
use crate::numbers::put_text_number;
use crate::tally::Tally;
use rv_bind::{Bindings, Monitor};
use rv_model::{Names, Scope};
use rv_slots::Tasks;
use rv_text::Line;
use std::alloc::AllocError;

/// The numbers of a monitor's line.
#[derive(Clone, Copy, Debug, Drop, PartialEq, Eq)]
pub struct Summary {
    /// Those that have a record.
    pub instances: u64,
    pub deliveries: u64,
    pub failures: u64,
    pub stopped: u64,
}

/// How many instances a monitor of this scope has.
pub(crate) fn instances_in(tasks: &Tasks, scope: Scope) -> usize
    ensures { result ≡ instances_in tasks.now scope }
{
    match scope {
        Scope::Global => 1,
        Scope::Cpu => 64,
        Scope::Task => tasks.len() as usize,
    }
}

/// Appends a monitor's line.
fn count_line(
    out: &mut Line,
    containers: &Names,
    monitor: &Monitor,
    summary: &Summary,
) -> Result<(), AllocError>
    ensures { OnOk result (out.new ≡ out.old ++ count_line (reported containers.now monitor.now).display_name summary.now) }
{
    display_name(out, containers, monitor.container, &monitor.name)?;
    put_text_number(out, b": instances ", summary.instances)?;
    put_text_number(out, b", deliveries ", summary.deliveries)?;
    put_text_number(out, b", failures ", summary.failures)?;
    put_text_number(out, b", stopped ", summary.stopped)?;
    out.text(b"\n")
}

/// Appends the line of each monitor.
pub(crate) fn summaries(
    out: &mut Line,
    bindings: &Bindings,
    tallies: &[Tally],
) -> Result<(), AllocError>
    requires { length tallies.now ≡ length bindings.now.monitors.items }
    ensures { OnOk result ((tasks : List Task) (rs : List Record) → AreTallies (reported_of bindings.now) tasks rs tallies.now → out.new ≡ out.old ++ summaries_text tasks rs 0 (reported_of bindings.now)) }
{
    for place in 0..tallies.len() {
        let monitor = &bindings.monitors[place];
        count_line(
            out,
            &bindings.containers,
            monitor,
            &tallies[place].summary(),
        )?;
    }
    Ok(())
}
