//! Works without the deliveries that the opening switches do not enable.
ghost use Rattle.std.specs.Prelude.{◌≡◌, ◌≤◌, ◌++◌, IfOk, OnOk, filter, length, slice_range};
ghost use Rattle.std.specs.List.{AllZip};
ghost use Rattle.rv_model.specs.Scripts.{is_enabled_by};
ghost use Rattle.rv_journal.specs.Enabled.{IsEnabledWork};

use rv_model::{CpuWork, Delivery, Turn, is_enabled_by};
use std::alloc::{AllocError, Global};

/// Keeps the deliveries from one index to another that the switches enable, and gives how many are kept by then.
fn keep_enabled(
    switches: u64,
    deliveries: &[Delivery],
    from: u32,
    to: u32,
    kept: &mut Vec<Delivery>,
) -> Result<u32, AllocError>
    requires named { (from ≤ to) × (to ≤ length deliveries.now) }
    requires few { length kept.old.items ≤ from }
    ensures kept { OnOk result (kept.new.items ≡ kept.old.items ++ filter (is_enabled_by switches) (slice_range deliveries.now from to)) }
    ensures end { IfOk result (λ end. end ≡ length kept.new.items) }
{
    for delivery in &deliveries[from as usize..to as usize] {
        if is_enabled_by(switches, delivery) {
            kept.push(*delivery)?;
        }
    }
    Ok(kept.len() as u32)
}

/// The work without the deliveries that the switches do not enable. A turn that loses all its deliveries stays.
fn enabled_work(alloc: Global, switches: u64, work: CpuWork) -> Result<CpuWork, AllocError>
    ensures { IfOk result (λ shown. IsEnabledWork switches work shown) }
{
    let mut deliveries = Vec::with_capacity(alloc, work.deliveries.len())?;
    let mut turns = Vec::with_capacity(alloc, work.turns.len())?;
    let mut end = 0;
    for turn in &work.turns {
        let from = end;
        end = keep_enabled(
            switches,
            work.deliveries.as_slice(),
            turn.from,
            turn.to,
            &mut deliveries,
        )?;
        turns.push(Turn {
            line: turn.line,
            from,
            to: end,
        })?;
    }
    Ok(CpuWork {
        cpu: work.cpu,
        turns,
        deliveries,
    })
}

/// Each work without the deliveries that the switches do not enable, in the order of the works. A turn that loses all
/// its deliveries stays. The one error is want of memory.
pub fn enabled_works(
    alloc: Global,
    switches: u64,
    works: Vec<CpuWork>,
) -> Result<Vec<CpuWork>, AllocError>
    ensures { IfOk result (λ shown. AllZip (IsEnabledWork switches) works.items shown.items) }
{
    let mut shown = Vec::with_capacity(alloc, works.len())?;
    for work in works {
        shown.push(enabled_work(alloc, switches, work)?)?;
    }
    Ok(shown)
}
