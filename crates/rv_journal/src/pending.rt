//! How many entries and Stops are pending in each interval: entries that leave the word there and are not placed, and
//! Stops that were lost from there and are not yet the next steps of their lanes.
ghost use Rattle.std.specs.Prelude.{◌≡◌, ◌+◌, ◌-◌, ◌<◌, ◌≤◌, OnOk};
ghost use Rattle.rv_journal.specs.inner.MergeSteps.{leaves_in, lost_in};
ghost use Rattle.rv_journal.specs.inner.MergePending.{pending_at, SetsPending, item_pending, lane_pending, Grown, Fallen, step_pending, next_pending};
ghost use Rattle.rv_journal.specs.declared.steps.VersionInterval.{VersionInterval};

use crate::counted::Counted;
use crate::steps::{MergeStep, NextStep, VersionInterval, interval_of, leaves, lost_from};
use std::alloc::AllocError;
use std::collections::HashMap;

/// How many entries and Stops are pending in each interval: 0 where the map has no number.
pub type Pending = HashMap<VersionInterval, u64>;

/// How many entries and Stops are pending in the interval.
pub fn waiting(waits: &Pending, gap: VersionInterval) -> u64
    ensures { result ≡ pending_at waits.now gap }
{
    waits.get(&gap).copied().unwrap_or(0)
}

/// Makes one more pending in the interval. A count that does not fit 64 bits is given as want of memory.
fn hold(waits: &mut Pending, gap: VersionInterval) -> Result<(), AllocError>
    ensures { OnOk result (SetsPending waits.old waits.new gap (pending_at waits.old gap + 1)) }
{
    match waiting(waits, gap).checked_add(1) {
        Some(more) => {
            waits.insert(gap, more)?;
            Ok(())
        }
        None => Err(AllocError),
    }
}

/// Makes one fewer pending in the interval, in which some are.
fn release(waits: &mut Pending, gap: VersionInterval) -> Result<(), AllocError>
    requires { 0 < pending_at waits.old gap }
    ensures { OnOk result (SetsPending waits.old waits.new gap (pending_at waits.old gap - 1)) }
{
    let left = waiting(waits, gap) - 1;
    waits.insert(gap, left)?;
    Ok(())
}

/// Makes the entry of an item pending in its interval, if it leaves the word.
fn hold_left(waits: &mut Pending, item: &Counted) -> Result<(), AllocError>
    ensures { OnOk result (Grown waits.old waits.new (λ g. leaves_in g.slot g.version item.now)) }
{
    if leaves(&item.entry) {
        hold(waits, interval_of(item))?;
    }
    Ok(())
}

/// Makes an item pending in the interval that it was lost from, if it is a Stop.
fn hold_lost(waits: &mut Pending, item: &Counted) -> Result<(), AllocError>
    ensures { OnOk result (Grown waits.old waits.new (λ g. lost_in g.slot g.version item.now.entry.act item.now.first)) }
{
    if let Some(gap) = lost_from(item) {
        hold(waits, gap)?;
    }
    Ok(())
}

/// Makes pending all that an item holds before anything is placed.
fn hold_item(waits: &mut Pending, item: &Counted) -> Result<(), AllocError>
    ensures { OnOk result (Grown waits.old waits.new (λ g. item_pending g item.now)) }
{
    hold_left(waits, item)?;
    hold_lost(waits, item)
}

/// Makes pending all that the items of a lane hold before anything is placed.
pub fn hold_items(waits: &mut Pending, items: &[Counted]) -> Result<(), AllocError>
    ensures { OnOk result (Grown waits.old waits.new (λ g. lane_pending g items.now)) }
{
    for item in items {
        hold_item(waits, item)?;
    }
    Ok(())
}

/// Releases the interval of a step that is placed, if its entry left the word.
fn release_step(waits: &mut Pending, step: &MergeStep) -> Result<(), AllocError>
    requires { (g : VersionInterval) → step_pending g step.now ≤ pending_at waits.old g }
    ensures { OnOk result (Fallen waits.old waits.new (λ g. step_pending g step.now)) }
{
    match step {
        MergeStep::TurnLook => Ok(()),
        MergeStep::Item(item) => {
            if leaves(&item.entry) {
                release(waits, interval_of(item))?;
            }
            Ok(())
        }
    }
}

/// Releases the interval from which a Stop was lost that is now its lane's next step.
fn release_next(waits: &mut Pending, next: &Option<NextStep>) -> Result<(), AllocError>
    requires { (g : VersionInterval) → next_pending g next.now ≤ pending_at waits.old g }
    ensures { OnOk result (Fallen waits.old waits.new (λ g. next_pending g next.now)) }
{
    match next {
        None => Ok(()),
        Some(next) => match &next.step {
            MergeStep::TurnLook => Ok(()),
            MergeStep::Item(item) => {
                if let Some(gap) = lost_from(item) {
                    release(waits, gap)?;
                }
                Ok(())
            }
        },
    }
}

/// Releases the intervals that were held for a step that is placed, and for the step that is now its lane's next one.
pub fn release_pending(
    waits: &mut Pending,
    step: &MergeStep,
    next: &Option<NextStep>,
) -> Result<(), AllocError>
    requires { (g : VersionInterval) → step_pending g step.now + next_pending g next.now ≤ pending_at waits.old g }
    ensures { OnOk result (Fallen waits.old waits.new (λ g. step_pending g step.now + next_pending g next.now)) }
{
    release_step(waits, step)?;
    release_next(waits, next)
}
