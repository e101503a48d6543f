//! The numbers of a run, as they are told.
ghost use Rattle.std.specs.Prelude.{◌≡◌, ℕ, List, length, map, sum, option_map, if◌then◌else◌, IfOk};
ghost use Rattle.rv_text.specs.TextLines.{LineText};
ghost use Rattle.rv_matches.specs.LineEvents.{LineEvent};
ghost use Rattle.rv_counts.specs.Counts.{JudgedRun, TellsMonitors, TellsRun, fired_if, is_enabled};
ghost use Rattle.rv_counts.specs.KeptRun.{AreOfRun, IsKeptOf};
ghost use Rattle.rv_counts.specs.RuleTold.{TellsRules};
ghost use Rattle.rv_counts.specs.TraceTold.{TellsTrace, entries_told, late_told, returns_told, stamped_told};
ghost use Rattle.rv_counts.specs.Watching.{IsWatch};
ghost use Rattle.rv_counts.specs.inner.Counting.{CountsMonitor};

use crate::rule_counting::{counted, rules_counts};
use crate::watch::TraceWatch;
use rv_bind::{Bindings, Monitor, On};
use rv_facts::{
    Counts, Entries, Halt, Late, MonitorCounts, Returns, RuleCounts, Stamped, TraceCounts,
};
use rv_matches::{EventFacts, TextFacts};
use rv_model::Name;
use rv_reach::{MonitorReach, Reached, Watched};
use rv_report::{Found, Summary};
use std::alloc::{AllocError, Global};

/// The comment on an overwritten buffer.
fn overwritten(text: &TextFacts) -> Option<Entries>
    ensures { result ≡ option_map entries_told text.now.overwritten }
{
    let entries = text.overwritten()?;
    Some(Entries {
        line: entries.line,
        kept: entries.kept,
        written: entries.written,
    })
}

/// The lines that end in a carriage return.
fn returns(text: &TextFacts) -> Option<Returns>
    ensures { result ≡ returns_told text.now.returns }
{
    let line = text.first_return()?;
    Some(Returns {
        line,
        lines: text.returns(),
    })
}

/// A timestamp once more.
fn stamped(alloc: Global, stamped: &rv_matches::Stamped) -> Result<Stamped, AllocError>
    ensures { IfOk result (λ s. s ≡ stamped_told stamped.now) }
{
    Ok(Stamped {
        line: stamped.line,
        stamp: Name::new(alloc, stamped.stamp.bytes())?,
    })
}

/// The lines whose time is before one above them.
fn late(alloc: Global, events: &EventFacts) -> Result<Option<Late>, AllocError>
    ensures { IfOk result (λ late. late ≡ late_told events.now.late) }
{
    let Some(first) = events.first_late() else {
        return Ok(None);
    };
    let Some(latest) = &first.latest else {
        return Ok(None);
    };
    Ok(Some(Late {
        late: stamped(alloc, &first.late)?,
        latest: stamped(alloc, latest)?,
        lines: events.late(),
    }))
}

/// What the trace tells of itself.
fn trace_counts(alloc: Global, watch: &TraceWatch) -> Result<TraceCounts, AllocError>
    ensures { IfOk result (λ counts. (bindings : Bindings) (lines : List LineText) → IsWatch bindings lines watch.now → TellsTrace bindings.rules.items lines counts) }
{
    Ok(TraceCounts {
        lines: watch.text.lines(),
        events: watch.events.events(),
        named: watch.rules.named(),
        fired: watch.rules.fired(),
        names: counted(alloc, watch.events.names())?,
        overwritten: overwritten(&watch.text),
        returns: returns(&watch.text),
        late: late(alloc, &watch.events)?,
    })
}

/// What the history is to a monitor, by what the report tells of it and what its deliveries reach.
fn monitor_counts(summary: Summary, reach: MonitorReach) -> MonitorCounts
    ensures { CountsMonitor summary reach result }
{
    MonitorCounts {
        instances: summary.instances,
        deliveries: summary.deliveries,
        failures: summary.failures,
        stopped: summary.stopped,
        instances_started: reach.instances_started() as u64,
        instances_failed: reach.instances_failed() as u64,
        instances_running: reach.instances_running() as u64,
        passed: reach.passed,
        started: reach.started,
        kept: reach.kept,
        failed: reach.failed,
        ended: reach.ended,
        rows: reach.rows,
        edges: reach.edges,
        letters: reach.letters,
        atoms: reach.atoms,
    }
}

/// What the history is to all monitors.
fn monitors_counts(
    alloc: Global,
    found: &Found,
    reached: Reached,
) -> Result<Vec<MonitorCounts>, AllocError>
    requires { length reached.monitors.items ≡ length found.now.tallies }
    ensures { IfOk result (λ counts. (bindings : Bindings) (run : JudgedRun) → AreOfRun bindings run found.now reached → TellsMonitors run counts.items) }
{
    let mut counts = Vec::with_capacity(alloc, reached.monitors.len())?;
    for reach in reached.monitors {
        let place = counts.len();
        counts.push(monitor_counts(found.summary(place), reach))?;
    }
    Ok(counts)
}

/// Whether the monitor at a place is enabled.
fn is_enabled(monitors: &[Monitor], place: u8) -> bool
    ensures { result ≡ is_enabled monitors.now place }
{
    match monitors.get(place as usize) {
        Some(monitor) => monitor.enabled,
        None => false,
    }
}

/// How often the rule fires, if its monitor is enabled.
fn enabled_fires(monitors: &[Monitor], rule: &On, counts: &RuleCounts) -> u64
    ensures { result ≡ (if is_enabled monitors.now rule.now.monitor then counts.now.fires else 0) }
{
    if is_enabled(monitors, rule.monitor) {
        counts.fires
    } else {
        0
    }
}

/// How often rules of enabled monitors fire.
fn fired_enabled(
    monitors: &[Monitor],
    rules: &[On],
    counts: &[RuleCounts],
) -> Result<u64, AllocError>
    ensures { IfOk result (λ fired. (events : List LineEvent) → TellsRules events rules.now counts.now → fired ≡ sum (map (fired_if monitors.now events) rules.now)) }
{
    let mut fired: u64 = 0;
    for place in 0..rules.len().min(counts.len()) {
        let fires = enabled_fires(monitors, &rules[place], &counts[place]);
        fired = fired.checked_add(fires).ok_or(AllocError)?;
    }
    Ok(fired)
}

/// All numbers of a run.
pub fn counts_of(
    alloc: Global,
    bindings: &Bindings,
    watch: &TraceWatch,
    watched: Watched,
) -> Result<Counts, AllocError>
    requires { length watched.reached.monitors.items ≡ length watched.found.tallies }
    ensures { IfOk result (λ counts. (run : JudgedRun) (trace : List ℕ) → IsKeptOf bindings.now run trace watch.now watched.found watched.reached watched.records → TellsRun run trace counts) }
{
    let Watched {
        found,
        reached,
        records,
    } = watched;
    let rules = rules_counts(
        alloc,
        watch.events.names(),
        bindings.rules.as_slice(),
        watch.rules.rules(),
    )?;
    let fired = fired_enabled(
        bindings.monitors.as_slice(),
        bindings.rules.as_slice(),
        rules.as_slice(),
    )?;
    let halt = match found.halt(bindings) {
        Some(halted) => Some(Halt {
            line: halted.line,
            monitor: halted.monitor,
        }),
        None => None,
    };
    Ok(Counts {
        monitors: monitors_counts(alloc, &found, reached)?,
        rules,
        trace: trace_counts(alloc, watch)?,
        halt,
        undelivered: fired.saturating_sub(records),
    })
}
