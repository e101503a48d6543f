//! The findings about the trace.
ghost use Rattle.std.specs.Prelude.{◌≡◌, ◌++◌, IfOk, OnOk, codes, decimal};
ghost use Rattle.rv_findings.specs.Findings.{empty_finding, late_finding, latest_text, overwritten_finding, return_finding, trace_findings};
ghost use Rattle.rv_facts.specs.Shown.{in_brackets};

use crate::finding::{Finding, add, add_if, around, plain, with_number};
use rv_facts::{Entries, Late, Returns, Stamped, TraceCounts, put_brackets};
use rv_text::Line;
use std::alloc::{AllocError, Global};

/// It has no event.
fn add_empty(alloc: Global, found: &mut Vec<Finding>, events: u64) -> Result<(), AllocError>
    ensures { OnOk result (found.new.items ≡ found.old.items ++ empty_finding events) }
{
    let text = plain(alloc, b"no-events: no line of the trace is an event")?;
    add_if(found, events == 0, 1, text)
}

/// What is told of a front that was overwritten.
fn entries_text(alloc: Global, entries: Entries) -> Result<Line, AllocError>
    ensures { IfOk result (λ text. text ≡ codes "front-overwritten: " ++ decimal entries.kept ++ codes " of " ++ decimal entries.written ++ codes " entries are left") }
{
    let mut text = Line::new(alloc);
    text.text(b"front-overwritten: ")?;
    text.number(entries.kept)?;
    text.text(b" of ")?;
    text.number(entries.written)?;
    text.text(b" entries are left")?;
    Ok(text)
}

/// Its front was overwritten.
fn add_overwritten(
    alloc: Global,
    found: &mut Vec<Finding>,
    overwritten: Option<Entries>,
) -> Result<(), AllocError>
    ensures { OnOk result (found.new.items ≡ found.old.items ++ overwritten_finding overwritten) }
{
    match overwritten {
        Some(entries) => {
            let text = entries_text(alloc, entries)?;
            add(found, entries.line, text)
        }
        None => Ok(()),
    }
}

/// Its lines end in a carriage return.
fn add_returns(
    alloc: Global,
    found: &mut Vec<Finding>,
    returns: Option<Returns>,
) -> Result<(), AllocError>
    ensures { OnOk result (found.new.items ≡ found.old.items ++ return_finding returns) }
{
    match returns {
        Some(returns) => {
            let front = b"carriage-returns: the line ends in one";
            let text = with_number(alloc, front, returns.lines)?;
            add(found, returns.line, text)
        }
        None => Ok(()),
    }
}

/// Appends a timestamp with its line.
fn put_latest(out: &mut Line, latest: &Stamped) -> Result<(), AllocError>
    ensures { OnOk result (out.new ≡ out.old ++ latest_text latest.now) }
{
    out.text(latest.stamp.bytes())?;
    out.text(b" of line ")?;
    out.number(latest.line as u64)
}

/// What is told of a time that stands behind a later one.
fn late_text(alloc: Global, late: &Late) -> Result<Line, AllocError>
    ensures { IfOk result (λ text. text ≡ codes "time-goes-back: " ++ late.now.late.stamp ++ codes " stands behind " ++ latest_text late.now.latest ++ in_brackets late.now.lines) }
{
    let stamp = late.late.stamp.bytes();
    let mut text = around(alloc, b"time-goes-back: ", stamp, b" stands behind ")?;
    put_latest(&mut text, &late.latest)?;
    put_brackets(&mut text, late.lines)?;
    Ok(text)
}

/// A time stands behind a later one.
fn add_late(alloc: Global, found: &mut Vec<Finding>, c: &TraceCounts) -> Result<(), AllocError>
    ensures { OnOk result (found.new.items ≡ found.old.items ++ late_finding c.now.late) }
{
    match &c.late {
        Some(late) => {
            let text = late_text(alloc, late)?;
            add(found, late.late.line, text)
        }
        None => Ok(()),
    }
}

/// All of the trace.
#[tactic(auto, unfolding(crate::specs::Findings::trace_findings))]
pub(crate) fn add_trace(
    alloc: Global,
    found: &mut Vec<Finding>,
    c: &TraceCounts,
) -> Result<(), AllocError>
    ensures { OnOk result (found.new.items ≡ found.old.items ++ trace_findings c.now) }
{
    add_empty(alloc, found, c.events)?;
    add_overwritten(alloc, found, c.overwritten)?;
    add_returns(alloc, found, c.returns)?;
    add_late(alloc, found, c)
}
