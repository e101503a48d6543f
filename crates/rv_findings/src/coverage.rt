//! The whole text, and its status.
ghost use Rattle.std.specs.Prelude.{◌≡◌, ◌++◌, IfOk, OnOk};
ghost use Rattle.rv_bind.specs.BoundViews.{bound_value};
ghost use Rattle.rv_bind.specs.WellFormed.{IsWellFormed};
ghost use Rattle.rv_findings.specs.Whole.{coverage_status, coverage_text, finding_count, findings_text};

use crate::findings::{bindings_findings, put_file, trace_findings};
use crate::whole::put_whole;
use rv_bind::Bound;
use rv_facts::{BindingLines, Counts, put_facts};
use rv_text::{CLEAN, FAILURE, Line};
use std::alloc::{AllocError, Global};

/// What is told of: a run by its two files, what its bindings say and on which lines, and its numbers.
#[derive(Drop)]
pub struct Told<'a> {
    /// The name of the bindings, as it was given.
    pub bindings: &'a [u8],
    /// The name of the trace, as it was given.
    pub trace: &'a [u8],
    pub lines: &'a BindingLines,
    pub bound: &'a Bound,
    pub counts: &'a Counts,
}

/// What a run has watched.
#[derive(Drop)]
pub struct CoverageReport {
    /// The facts, the findings, and how much was reached.
    pub text: Vec<u8>,
    /// 0 without a finding, and else 1.
    pub status: u8,
}

/// Appends the findings, and tells how many there are.
fn put_findings(
    alloc: Global,
    out: &mut Line,
    edges: bool,
    told: &Told<'_>,
) -> Result<usize, AllocError>
    ensures text { OnOk result (out.new ≡ out.old ++ findings_text edges told.now) }
    ensures count { IfOk result (λ count. count ≡ finding_count edges told.now) }
{
    let mut bindings = bindings_findings(alloc, edges, told.bound, told.lines, told.counts)?;
    let mut trace = trace_findings(alloc, told.counts)?;
    let count = bindings.len().checked_add(trace.len()).ok_or(AllocError)?;
    put_file(out, told.bindings, &mut bindings)?;
    put_file(out, told.trace, &mut trace)?;
    Ok(count)
}

/// What a run has watched, with a finding for each edge that was not taken where edges are asked for.
pub fn coverage_text(
    alloc: Global,
    edges: bool,
    told: &Told<'_>,
) -> Result<CoverageReport, AllocError>
    requires { IsWellFormed (bound_value told.now.bound.now) }
    ensures text { IfOk result (λ report. report.text.items ≡ coverage_text edges told.now) }
    ensures status { IfOk result (λ report. report.status ≡ coverage_status edges told.now) }
{
    let mut out = Line::new(alloc);
    let monitors = told.bound.bindings.monitors.as_slice();
    put_facts(alloc, &mut out, told.bound, &told.lines.rules, told.counts)?;
    let count = put_findings(alloc, &mut out, edges, told)?;
    put_whole(alloc, &mut out, monitors, told.counts, count as u64)?;
    Ok(CoverageReport {
        text: out.into_bytes(),
        status: if count == 0 { CLEAN } else { FAILURE },
    })
}
