//! All facts.
ghost use Rattle.std.specs.Prelude.{◌≡◌, ◌++◌, ◌<◌, ◌≤◌, length, IfOk, OnOk, filter};
ghost use Rattle.rv_bind.specs.BoundViews.{bound_value};
ghost use Rattle.rv_facts.specs.Facts.{counts_fact, facts_of, facts_text, halt_fact, halted_fact, is_event_of, is_named, is_unnamed, monitor_facts, other_lines, trace_facts, unnamed, unnamed_facts};
ghost use Rattle.rv_facts.specs.MonitorFacts.{reached_facts, table_at};
ghost use Rattle.rv_facts.specs.Pairs.{of_pairs};

use crate::counts::{Counted, Counts, Halt, MonitorCounts, RuleCounts, TraceCounts};
use crate::monitor_facts::{put_answers, put_instances, put_reached, put_summary};
use crate::orders::sort_most_first;
use crate::pieces::{put_all_counted, put_number};
use crate::rule_facts::{put_other, put_rules};
use rv_bind::{Bound, Monitor, On};
use rv_report::display_name;
use rv_table::Table;
use rv_text::Line;
use std::alloc::{AllocError, Global};

/// The most events that no rule names that are told.
const MOST_UNNAMED: usize = 16;

/// What was reached of the monitor at an index, by its table.
fn put_reached_at(
    out: &mut Line,
    name: &[u8],
    tables: &[Table],
    place: usize,
    monitor: &Monitor,
    c: &MonitorCounts,
) -> Result<(), AllocError>
    requires { place < length tables.now }
    ensures { OnOk result (out.new ≡ out.old ++ reached_facts name.now c.now (table_at tables.now place) monitor.now.spec) }
{
    put_reached(out, name, c, &tables[place], &monitor.spec)
}

/// The facts of a monitor by its display name.
#[tactic(auto, unfolding(crate::specs::Facts::facts_of))]
fn put_facts_of(
    alloc: Global,
    out: &mut Line,
    name: &[u8],
    bound: &Bound,
    lines: &[u32],
    rules: &[RuleCounts],
    place: usize,
    monitor: &Monitor,
    c: &MonitorCounts,
) -> Result<(), AllocError>
    requires { place < length bound.now.tables.items }
    ensures { OnOk result (out.new ≡ out.old ++ facts_of name.now (bound_value bound.now) lines.now rules.now place monitor.now c.now) }
{
    put_summary(out, name, c)?;
    put_instances(out, name, c)?;
    put_answers(out, name, c)?;
    put_rules(alloc, out, name, lines, place, &bound.bindings.rules, rules)?;
    put_reached_at(out, name, &bound.tables, place, monitor, c)
}

/// The facts of the monitor at an index.
#[tactic(auto, unfolding(crate::specs::Facts::monitor_facts))]
fn put_monitor(
    alloc: Global,
    out: &mut Line,
    bound: &Bound,
    lines: &[u32],
    rules: &[RuleCounts],
    place: usize,
    monitor: &Monitor,
    c: &MonitorCounts,
) -> Result<(), AllocError>
    requires { place < length bound.now.tables.items }
    ensures { OnOk result (out.new ≡ out.old ++ monitor_facts (bound_value bound.now) lines.now rules.now place monitor.now c.now) }
{
    let mut name = Line::new(alloc);
    display_name(
        &mut name,
        &bound.bindings.containers,
        monitor.container,
        &monitor.name,
    )?;
    put_facts_of(
        alloc,
        out,
        name.bytes(),
        bound,
        lines,
        rules,
        place,
        monitor,
        c,
    )
}

/// The facts of monitors of the bindings, from the first one on.
#[tactic(auto, using(crate::proofs::PairLemmas::more_pairs, crate::proofs::PairLemmas::all_pairs))]
fn put_monitors(
    alloc: Global,
    out: &mut Line,
    bound: &Bound,
    lines: &[u32],
    rules: &[RuleCounts],
    monitors: &[Monitor],
    counts: &[MonitorCounts],
) -> Result<(), AllocError>
    requires { length monitors.now ≤ length bound.now.tables.items }
    ensures { OnOk result (out.new ≡ out.old ++ of_pairs (monitor_facts (bound_value bound.now) lines.now rules.now) monitors.now counts.now) }
{
    let count = monitors.len().min(counts.len());
    'monitors: for place in 0..count {
        let monitor = &monitors[place];
        let c = &counts[place];
        put_monitor(alloc, out, bound, lines, rules, place, monitor, c)?;
    }
    Ok(())
}

/// Whether the event is that of the rule.
fn is_event_of(name: &Counted, rule: &On) -> bool
    ensures { result ≡ is_event_of name.now rule.now }
{
    name.word.bytes() == rule.event.bytes()
}

/// Whether the event is that of some rule.
fn is_named(rules: &[On], name: &Counted) -> bool
    ensures { result ≡ is_named rules.now name.now }
{
    rules.iter().any(|rule| is_event_of(name, rule))
}

/// Whether the event is that of no rule.
fn is_unnamed(rules: &[On], name: &Counted) -> bool
    ensures { result ≡ is_unnamed rules.now name.now }
{
    !is_named(rules, name)
}

/// The events that no rule names.
fn all_unnamed(alloc: Global, rules: &[On], names: &[Counted]) -> Result<Vec<Counted>, AllocError>
    ensures { IfOk result (λ kept. kept.items ≡ filter (is_unnamed rules.now) names.now) }
{
    let mut kept = Vec::new(alloc);
    'names: for name in names {
        if is_unnamed(rules, name) {
            kept.push(name.copy(alloc)?)?;
        }
    }
    Ok(kept)
}

/// Those of them that are told, the most frequent first.
fn unnamed(alloc: Global, rules: &[On], c: &TraceCounts) -> Result<Vec<Counted>, AllocError>
    ensures { IfOk result (λ told. told.items ≡ unnamed rules.now c.now) }
{
    let mut told = all_unnamed(alloc, rules, &c.names)?;
    sort_most_first(&mut told)?;
    told.truncate(MOST_UNNAMED);
    Ok(told)
}

/// The lines of all other events that no rule names.
fn other_lines(told: &[Counted], c: &TraceCounts) -> u64
    ensures { result ≡ other_lines told.now c.now }
{
    let mut left = c.events.saturating_sub(c.named);
    'told: for name in told {
        left = left.saturating_sub(name.lines);
    }
    left
}

/// How many lines and events the trace has.
#[tactic(auto, unfolding(crate::specs::Facts::counts_fact))]
fn put_counts(out: &mut Line, c: &TraceCounts) -> Result<(), AllocError>
    ensures { OnOk result (out.new ≡ out.old ++ counts_fact c.now) }
{
    put_number(out, b"the trace: lines", c.lines)?;
    put_number(out, b", events", c.events)?;
    put_number(out, b", named", c.named)?;
    put_number(out, b", fired", c.fired)?;
    out.text(b"\n")
}

/// The events that no rule names.
#[tactic(auto, unfolding(crate::specs::Facts::unnamed_facts))]
fn put_unnamed(out: &mut Line, told: &[Counted], c: &TraceCounts) -> Result<(), AllocError>
    ensures { OnOk result (out.new ≡ out.old ++ unnamed_facts told.now c.now) }
{
    put_all_counted(out, b"the trace: no rule names ", told)?;
    put_other(
        out,
        b"the trace: no rule names other events",
        other_lines(told, c),
    )
}

/// The facts of the trace.
#[tactic(auto, unfolding(crate::specs::Facts::trace_facts))]
fn put_trace(alloc: Global, out: &mut Line, rules: &[On], c: &TraceCounts) -> Result<(), AllocError>
    ensures { OnOk result (out.new ≡ out.old ++ trace_facts rules.now c.now) }
{
    put_counts(out, c)?;
    let told = unnamed(alloc, rules, c)?;
    put_unnamed(out, &told, c)
}

/// Where a run was halted.
fn put_halted(out: &mut Line, line: u32, undelivered: u64) -> Result<(), AllocError>
    ensures { OnOk result (out.new ≡ out.old ++ halted_fact line undelivered) }
{
    put_number(out, b"the run: halted on line", line as u64)?;
    put_number(out, b", not delivered", undelivered)?;
    out.text(b"\n")
}

/// The halt of a run.
#[tactic(auto, unfolding(crate::specs::Facts::halt_fact))]
fn put_halt(out: &mut Line, halt: Option<Halt>, undelivered: u64) -> Result<(), AllocError>
    ensures { OnOk result (out.new ≡ out.old ++ halt_fact halt undelivered) }
{
    match halt {
        Some(halt) => put_halted(out, halt.line, undelivered),
        None => Ok(()),
    }
}

/// Appends all facts.
#[tactic(auto, unfolding(crate::specs::Facts::facts_text))]
pub fn put_facts(
    alloc: Global,
    out: &mut Line,
    bound: &Bound,
    lines: &[u32],
    counts: &Counts,
) -> Result<(), AllocError>
    requires { length bound.now.bindings.monitors.items ≤ length bound.now.tables.items }
    ensures { OnOk result (out.new ≡ out.old ++ facts_text (bound_value bound.now) lines.now counts.now) }
{
    let monitors = bound.bindings.monitors.as_slice();
    let rules = counts.rules.as_slice();
    put_monitors(alloc, out, bound, lines, rules, monitors, &counts.monitors)?;
    put_trace(alloc, out, &bound.bindings.rules, &counts.trace)?;
    put_halt(out, counts.halt, counts.undelivered)
}
