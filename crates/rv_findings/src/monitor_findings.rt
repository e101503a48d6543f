//! The findings about a monitor.
ghost use Rattle.std.specs.Prelude.{◌≡◌, ◌++◌, IfOk, OnOk, codes, decimal};
ghost use Rattle.rv_bind.specs.BoundViews.{bound_value};
ghost use Rattle.rv_facts.specs.BindingLines.{lines_named};
ghost use Rattle.rv_facts.specs.Shown.{in_brackets};
ghost use Rattle.rv_findings.specs.MonitorFindings.{asked_edges, findings_of, halt_finding, monitor_findings, off_findings, react_findings, spec_findings, start_findings};

use crate::finding::{
    Asked, Finding, OwnRule, add, add_if, around, first_of, first_or, is_nothing, last_line,
    lines_where, named, own_rules,
};
use crate::spec_findings::{SpecPart, add_part};
use rv_bind::{Bound, Monitor};
use rv_facts::{BindingLines, Counts, Halt, MonitorCounts, Named, line_at, put_brackets};
use rv_model::{Name, Spec};
use rv_report::display_name;
use rv_text::Line;
use std::alloc::{AllocError, Global};

/// Those of the lines that name the monitor.
fn lines_named(alloc: Global, name: &Name, lines: &[Named]) -> Result<Vec<u32>, AllocError>
    ensures { IfOk result (λ found. found.items ≡ lines_named name.now lines.now) }
{
    let mut found = Vec::new(alloc);
    'lines: for line in lines {
        if line.monitor.bytes() == name.bytes() {
            found.push(line.line)?;
        }
    }
    Ok(found)
}

/// It is off.
#[tactic(auto, unfolding(crate::specs::MonitorFindings::off_findings))]
fn add_off(
    alloc: Global,
    found: &mut Vec<Finding>,
    name: &[u8],
    enabled: bool,
    lines: &[u32],
) -> Result<(), AllocError>
    ensures { OnOk result (found.new.items ≡ found.old.items ++ off_findings name.now enabled lines.now) }
{
    if enabled {
        return Ok(());
    }
    let text = around(alloc, b"monitor-off: ", name, b" gets no delivery")?;
    add(found, first_or(0, lines), text)
}

/// No line can start an instance, or else none does.
#[tactic(auto, unfolding(crate::specs::MonitorFindings::start_findings))]
fn add_start(
    alloc: Global,
    found: &mut Vec<Finding>,
    name: &[u8],
    line: u32,
    enabled: bool,
    started: bool,
    first: Option<u32>,
) -> Result<(), AllocError>
    ensures { OnOk result (found.new.items ≡ found.old.items ++ start_findings name.now line enabled started first) }
{
    match first {
        None => {
            let end = b" has the mode start or start_run";
            let text = around(alloc, b"monitor-cannot-start: no line of ", name, end)?;
            add(found, line, text)
        }
        Some(first) => {
            if !enabled || started {
                return Ok(());
            }
            let front = b"monitor-never-starts: no delivery starts ";
            let text = named(alloc, front, name)?;
            add(found, first, text)
        }
    }
}

/// Nobody is told of its failures.
#[tactic(auto, unfolding(crate::specs::MonitorFindings::react_findings))]
fn add_react(
    alloc: Global,
    found: &mut Vec<Finding>,
    name: &[u8],
    line: u32,
    lines: &[u32],
) -> Result<(), AllocError>
    ensures { OnOk result (found.new.items ≡ found.old.items ++ react_findings name.now line lines.now) }
{
    let text = around(
        alloc,
        b"no-react: a failure of ",
        name,
        b" is counted, and not printed",
    )?;
    add_if(found, is_nothing(lines), line, text)
}

/// What is told of the halt.
fn halt_text(alloc: Global, name: &[u8], line: u32, undelivered: u64) -> Result<Line, AllocError>
    ensures { IfOk result (λ text. text ≡ codes "run-halted: " ++ name.now ++ codes " failed on line " ++ decimal line ++ codes " of the trace, and what fires behind it is not delivered" ++ in_brackets undelivered) }
{
    let mut text = around(alloc, b"run-halted: ", name, b" failed on line ")?;
    text.number(line as u64)?;
    text.text(b" of the trace, and what fires behind it is not delivered")?;
    put_brackets(&mut text, undelivered)?;
    Ok(text)
}

/// What the run did not deliver since the monitor failed.
#[tactic(auto, unfolding(crate::specs::MonitorFindings::halt_finding))]
fn add_halt(
    alloc: Global,
    found: &mut Vec<Finding>,
    name: &[u8],
    place: usize,
    lines: &[u32],
    halt: Option<Halt>,
    undelivered: u64,
) -> Result<(), AllocError>
    ensures { OnOk result (found.new.items ≡ found.old.items ++ halt_finding name.now place lines.now halt undelivered) }
{
    match halt {
        Some(halt) if halt.monitor as usize == place && undelivered != 0 => {
            let text = halt_text(alloc, name, halt.line, undelivered)?;
            add(found, last_line(lines), text)
        }
        _ => Ok(()),
    }
}

/// What no line brings or sets, and what none did.
#[tactic(auto, unfolding(crate::specs::MonitorFindings::spec_findings))]
fn add_spec(
    alloc: Global,
    found: &mut Vec<Finding>,
    name: &[u8],
    line: u32,
    called: &Name,
    own: &[OwnRule],
    lines: &BindingLines,
    c: &MonitorCounts,
    spec: &Spec,
) -> Result<(), AllocError>
    ensures { OnOk result (found.new.items ≡ found.old.items ++ spec_findings name.now line called.now own.now lines.now c.now spec.now) }
{
    let part = SpecPart::Events;
    add_part(alloc, found, name, line, called, own, lines, c, spec, part)?;
    let part = SpecPart::Atoms;
    add_part(alloc, found, name, line, called, own, lines, c, spec, part)
}

/// Its edges that were not taken, where they are asked for, and it was started.
#[tactic(auto, unfolding(crate::specs::MonitorFindings::asked_edges))]
fn add_asked_edges(
    alloc: Global,
    found: &mut Vec<Finding>,
    edges: bool,
    name: &[u8],
    line: u32,
    called: &Name,
    own: &[OwnRule],
    lines: &BindingLines,
    c: &MonitorCounts,
    spec: &Spec,
) -> Result<(), AllocError>
    ensures { OnOk result (found.new.items ≡ found.old.items ++ asked_edges edges name.now line called.now own.now lines.now c.now spec.now) }
{
    if edges && c.instances_started != 0 {
        let part = SpecPart::Edges;
        add_part(alloc, found, name, line, called, own, lines, c, spec, part)
    } else {
        Ok(())
    }
}

/// All of a monitor, by its display name and its rules.
#[tactic(auto, unfolding(crate::specs::MonitorFindings::findings_of))]
fn add_findings_of(
    alloc: Global,
    found: &mut Vec<Finding>,
    name: &[u8],
    own: &[OwnRule],
    edges: bool,
    lines: &BindingLines,
    counts: &Counts,
    place: usize,
    m: &Monitor,
    c: &MonitorCounts,
) -> Result<(), AllocError>
    ensures { OnOk result (found.new.items ≡ found.old.items ++ findings_of name.now own.now edges lines.now counts.now place m.now c.now) }
{
    let line = line_at(&lines.monitors, place);
    let offs = lines_named(alloc, &m.name, &lines.offs)?;
    let reacts = lines_named(alloc, &m.name, &lines.reacts)?;
    let starts = lines_where(alloc, Asked::Starts, own)?;
    let enabled = m.enabled && counts.trace.events != 0;
    let started = c.instances_started != 0;
    add_off(alloc, found, name, m.enabled, &offs)?;
    add_start(
        alloc,
        found,
        name,
        line,
        enabled,
        started,
        first_of(&starts),
    )?;
    add_react(alloc, found, name, line, &reacts)?;
    add_spec(alloc, found, name, line, &m.name, own, lines, c, &m.spec)?;
    add_asked_edges(
        alloc, found, edges, name, line, &m.name, own, lines, c, &m.spec,
    )?;
    add_halt(
        alloc,
        found,
        name,
        place,
        &reacts,
        counts.halt,
        counts.undelivered,
    )
}

/// All of the monitor at an index.
pub(crate) fn add_monitor(
    alloc: Global,
    found: &mut Vec<Finding>,
    edges: bool,
    bound: &Bound,
    lines: &BindingLines,
    counts: &Counts,
    place: usize,
    m: &Monitor,
    c: &MonitorCounts,
) -> Result<(), AllocError>
    ensures { OnOk result (found.new.items ≡ found.old.items ++ monitor_findings edges (bound_value bound.now) lines.now counts.now place m.now c.now) }
{
    let mut name = Line::new(alloc);
    display_name(&mut name, &bound.bindings.containers, m.container, &m.name)?;
    let own = own_rules(alloc, place, &bound.bindings.rules, &lines.rules)?;
    add_findings_of(
        alloc,
        found,
        name.bytes(),
        &own,
        edges,
        lines,
        counts,
        place,
        m,
        c,
    )
}
