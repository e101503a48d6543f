//! One instance of the kernel's automaton of waking in a section that can't be preempted. Its events are
//! `preempt_disable`, `preempt_enable` and `sched_waking`.
ghost use Rattle.std.specs.Prelude.{◌≡◌, [], ◌∷◌, IfOk};
ghost use Rattle.rv_model.specs.declared.hit.Mode.{Mode};
ghost use Rattle.rv_model.specs.declared.hit.What.TheVariants.{Da};
ghost use Rattle.rv_model.specs.inner.EventTables.{event_count};
ghost use Rattle.rv_core.specs.Advance.{FitsKind};
ghost use Rattle.rv_core.specs.Setup.{table_at};

use rv_core::Setup;
use rv_gen::wip;
use rv_model::Scope;
use rv_slots::Shape;
use rv_table::Table;
use std::alloc::{AllocError, Global};

/// With monitoring, reacting and the monitor on.
pub(crate) fn one_instance(alloc: Global) -> Result<Setup, AllocError>
    ensures shape { IfOk result (λ setup. setup.shape ≡ 1 ∷ []) }
    ensures events { IfOk result (λ setup. event_count (table_at setup 0) ≡ 3) }
    ensures first { IfOk result (λ setup. (m : Mode) → FitsKind (table_at setup 0) m (Da 0)) }
{
    let automaton = wip(alloc)?;
    let shape = Shape::new(alloc, &[Scope::Global], 0)?;
    let mut tables = Vec::new(alloc);
    tables.push(Table::from_automaton(alloc, &automaton)?)?;
    let mut starts = Vec::new(alloc);
    starts.push(0)?;
    Ok(Setup {
        shape,
        tables,
        starts,
        switches: (1 << 32) + (1 << 33) + 1,
    })
}
