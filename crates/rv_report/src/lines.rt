//! The whole report.
ghost use Rattle.std.specs.Prelude.{◌≡◌, List, IfOk};
ghost use Rattle.rv_model.specs.declared.record.Record.{Record};
ghost use Rattle.rv_model.specs.Reports.{report_text};
ghost use Rattle.rv_report.specs.Exit.{IsStatus};
ghost use Rattle.rv_report.specs.Reported.{reported_of};
ghost use Rattle.rv_report.specs.Tallies.{IsFound};

use crate::found::Found;
use crate::reactions::react_to;
use crate::summary::summaries;
use rv_bind::Bindings;
use rv_model::Record;
use rv_slots::Tasks;
use rv_text::Line;
use std::alloc::{AllocError, Global};

/// What is told of a run's records, in one walk of them.
#[derive(Drop)]
pub struct RunReport {
    /// A line for each reaction that is printed, in the order of the records, and then a line for each monitor.
    pub text: Vec<u8>,
    /// 1 where a delivery failed, 6 where none did and an instance was stopped, and else 0.
    pub status: u8,
}

/// The report of what was found.
pub fn report_found(
    alloc: Global,
    bindings: &Bindings,
    tasks: &Tasks,
    found: &Found,
) -> Result<RunReport, AllocError>
    requires { (rs : List Record) × IsFound (reported_of bindings.now) tasks.now rs found.now }
    ensures text { IfOk result (λ report. (rs : List Record) → IsFound (reported_of bindings.now) tasks.now rs found.now → report.text.items ≡ report_text (reported_of bindings.now) tasks.now rs) }
    ensures status { IfOk result (λ report. (rs : List Record) → IsFound (reported_of bindings.now) tasks.now rs found.now → IsStatus rs report.status) }
{
    let mut out = Line::new(alloc);
    for record in &found.printed {
        react_to(alloc, &mut out, bindings, tasks, record)?;
    }
    summaries(&mut out, bindings, found.tallies.as_slice())?;
    Ok(RunReport {
        text: out.into_bytes(),
        status: found.status,
    })
}

/// The report of records that stand in their order.
pub fn report(
    alloc: Global,
    bindings: &Bindings,
    tasks: &Tasks,
    records: &[Record],
) -> Result<Vec<u8>, AllocError>
    ensures { IfOk result (λ text. text.items ≡ report_text (reported_of bindings.now) tasks.now records.now) }
{
    let mut found = Found::new(alloc, bindings, tasks)?;
    found.add_all(bindings, records)?;
    let done = report_found(alloc, bindings, tasks, &found)?;
    Ok(done.text)
}
