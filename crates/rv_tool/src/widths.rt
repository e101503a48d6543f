//! The bits that the monitors' words have.
ghost use Rattle.std.specs.Prelude.{◌≡◌, true, IfOk, map};
ghost use Rattle.rv_bind.specs.WellFormed.{kind_of, kinds_of, HasTable, HaveTables};
ghost use Rattle.rv_journal.specs.CountedSeats.{AreWidths, IsWidth};
ghost use Rattle.rv_tool.specs.CountsFit.{monitor_fits_counts, monitors_fit_counts};
ghost use Rattle.rv_tool.specs.inner.CountsFit.{HasState};

use crate::counts_fit::{atom_count, row_count};
use rv_bind::Monitor;
use rv_core::Setup;
use rv_journal::Width;
use rv_model::Spec;
use rv_table::Table;
use std::alloc::{AllocError, Global};

/// What is known of every specification: an automaton has a state.
fn assert_states(spec: &Spec)
    ensures { HasState spec.now }
{
    match spec {
        Spec::Da(automaton) => {
            let _ = &automaton.states;
        }
        Spec::Ltl(_) => (),
    }
}

/// The bits of one monitor's words.
fn width_of(monitor: &Monitor, table: &Table) -> Width
    requires narrow { monitor_fits_counts monitor.now table.now ≡ true }
    requires table { HasTable (kind_of monitor.now) table.now }
    ensures { IsWidth table.now monitor.now.starting result }
{
    assert_states(&monitor.spec);
    table.assert_invariant();
    Width {
        rows: row_count(table) as u8,
        atoms: atom_count(&monitor.spec) as u8,
    }
}

/// The bits of each monitor's words, in a run that can be numbered.
pub(crate) fn widths_of(
    alloc: Global,
    monitors: &[Monitor],
    setup: &Setup,
) -> Result<Vec<Width>, AllocError>
    requires tables { HaveTables (kinds_of monitors.now) setup.now.tables }
    requires starts { setup.now.starts ≡ map (λ m. m.starting) monitors.now }
    requires narrow { monitors_fit_counts monitors.now setup.now.tables ≡ true }
    ensures { IfOk result (λ widths. AreWidths setup.now widths.items) }
{
    let tables = setup.tables.as_slice();
    let mut widths = Vec::new(alloc);
    for place in 0..monitors.len() {
        widths.push(width_of(&monitors[place], &tables[place]))?;
    }
    Ok(widths)
}
