//! How much was reached.
ghost use Rattle.std.specs.Prelude.{◌≡◌, ◌++◌, IfOk, OnOk, map};
ghost use Rattle.rv_findings.specs.Whole.{all_numbers, numbers_of, own_numbers, share_text, watched_text, whole_text};
ghost use Rattle.rv_facts.specs.Pairs.{of_pairs};

use rv_bind::Monitor;
use rv_facts::{Counts, MonitorCounts, RuleCounts, Share, put_number};
use rv_model::Spec;
use rv_text::Line;
use std::alloc::{AllocError, Global};

/// The numbers of a monitor.
fn numbers_of<'a>(share: Share, spec: &Spec, c: &'a MonitorCounts) -> &'a [u64]
    ensures { result.now ≡ numbers_of share spec.now c.now }
{
    match spec {
        Spec::Da(_) => match share {
            Share::States => &c.rows,
            Share::Edges => &c.edges,
            Share::Rows | Share::Atoms => &[],
        },
        Spec::Ltl(_) => match share {
            Share::Rows => &c.rows,
            Share::Atoms => &c.atoms,
            Share::States | Share::Edges => &[],
        },
    }
}

/// Adds those of the monitor at an index.
fn add_numbers(
    numbers: &mut Vec<u64>,
    share: Share,
    place: usize,
    monitor: &Monitor,
    c: &MonitorCounts,
) -> Result<(), AllocError>
    ensures { OnOk result (numbers.new.items ≡ numbers.old.items ++ own_numbers share place monitor.now c.now) }
{
    numbers.extend_from_slice(numbers_of(share, &monitor.spec, c))
}

/// Those of all monitors.
#[tactic(auto, using(rv_facts::proofs::PairLemmas::more_pairs, rv_facts::proofs::PairLemmas::all_pairs))]
fn all_numbers(
    alloc: Global,
    share: Share,
    monitors: &[Monitor],
    counts: &[MonitorCounts],
) -> Result<Vec<u64>, AllocError>
    ensures { IfOk result (λ numbers. numbers.items ≡ all_numbers share monitors.now counts.now) }
{
    let mut numbers = Vec::new(alloc);
    let count = monitors.len().min(counts.len());
    'monitors: for place in 0..count {
        add_numbers(&mut numbers, share, place, &monitors[place], &counts[place])?;
    }
    Ok(numbers)
}

/// How many of the numbers are not 0.
#[tactic(auto, unfolding(crate::specs::Whole::share_text))]
fn put_share(out: &mut Line, name: &[u8], numbers: &[u64]) -> Result<(), AllocError>
    ensures { OnOk result (out.new ≡ out.old ++ share_text name.now numbers.now) }
{
    let reached = numbers.iter().filter(|n| **n != 0).count();
    out.text(name)?;
    out.text(b" ")?;
    out.number(reached as u64)?;
    out.text(b" of ")?;
    out.number(numbers.len() as u64)
}

/// On how many lines each rule fires.
fn all_fires(alloc: Global, rules: &[RuleCounts]) -> Result<Vec<u64>, AllocError>
    ensures { IfOk result (λ numbers. numbers.items ≡ map (λ r. r.fires) rules.now) }
{
    let mut numbers = Vec::new(alloc);
    'rules: for rule in rules {
        numbers.push(rule.fires)?;
    }
    Ok(numbers)
}

/// How many instances of each monitor were started.
fn all_started(alloc: Global, monitors: &[MonitorCounts]) -> Result<Vec<u64>, AllocError>
    ensures { IfOk result (λ numbers. numbers.items ≡ map (λ c. c.instances_started) monitors.now) }
{
    let mut numbers = Vec::new(alloc);
    'monitors: for monitor in monitors {
        numbers.push(monitor.instances_started)?;
    }
    Ok(numbers)
}

/// The rules that fired, and the monitors that were started.
#[tactic(auto, unfolding(crate::specs::Whole::watched_text))]
fn put_watched(alloc: Global, out: &mut Line, counts: &Counts) -> Result<(), AllocError>
    ensures { OnOk result (out.new ≡ out.old ++ watched_text counts.now) }
{
    let fires = all_fires(alloc, &counts.rules)?;
    put_share(out, b"all monitors: rules fired", &fires)?;
    let started = all_started(alloc, &counts.monitors)?;
    put_share(out, b", monitors started", &started)
}

/// One share of all monitors.
fn put_all(
    alloc: Global,
    out: &mut Line,
    name: &[u8],
    share: Share,
    monitors: &[Monitor],
    counts: &Counts,
) -> Result<(), AllocError>
    ensures { OnOk result (out.new ≡ out.old ++ share_text name.now (all_numbers share monitors.now counts.now.monitors.items)) }
{
    let numbers = all_numbers(alloc, share, monitors, &counts.monitors)?;
    put_share(out, name, &numbers)
}

/// Appends the last line: how much was reached, and how many findings there are.
#[tactic(auto, unfolding(crate::specs::Whole::whole_text))]
pub(crate) fn put_whole(
    alloc: Global,
    out: &mut Line,
    monitors: &[Monitor],
    counts: &Counts,
    findings: u64,
) -> Result<(), AllocError>
    ensures { OnOk result (out.new ≡ out.old ++ whole_text monitors.now counts.now findings) }
{
    put_watched(alloc, out, counts)?;
    put_all(
        alloc,
        out,
        b", states reached",
        Share::States,
        monitors,
        counts,
    )?;
    put_all(alloc, out, b", edges taken", Share::Edges, monitors, counts)?;
    put_all(alloc, out, b", rows reached", Share::Rows, monitors, counts)?;
    put_all(alloc, out, b", atoms true", Share::Atoms, monitors, counts)?;
    put_number(out, b", findings", findings)?;
    out.text(b"\n")
}
