//! Which runs can be numbered.
ghost use Rattle.std.specs.Prelude.{◌≡◌, ◌≤◌};
ghost use Rattle.rv_table.specs.Rows.{row_count};
ghost use Rattle.rv_tool.specs.CountsFit.{atom_count, monitor_fits_counts, monitors_fit_counts};

use rv_bind::Monitor;
use rv_model::Spec;
use rv_table::Table;

/// The bits that a word with a count has for an instance.
const BITS: u32 = 32;

/// How many rows a table has, row 0 too.
pub(crate) fn row_count(table: &Table) -> u32
    ensures rows { result ≡ row_count table.now }
    ensures few { result ≤ 32 }
{
    table.rows() + 1
}

/// How many atoms a specification has.
pub(crate) fn atom_count(spec: &Spec) -> usize
    ensures { result ≡ atom_count spec.now }
{
    match spec {
        Spec::Da(_) => 0,
        Spec::Ltl(rule) => rule.atoms.len(),
    }
}

/// Whether the monitor's rows and atoms have room, and its reactor is not panic.
fn monitor_fits_counts(monitor: &Monitor, table: &Table) -> bool
    ensures { result ≡ monitor_fits_counts monitor.now table.now }
{
    atom_count(&monitor.spec) <= (BITS - row_count(table)) as usize && !monitor.reactor.is_panic()
}

/// Whether a run of these monitors can be numbered, which have these tables.
pub(crate) fn monitors_fit_counts(monitors: &[Monitor], tables: &[Table]) -> bool
    ensures { result ≡ monitors_fit_counts monitors.now tables.now }
{
    if monitors.len() != tables.len() {
        return false;
    }
    for place in 0..monitors.len() {
        if !monitor_fits_counts(&monitors[place], &tables[place]) {
            return false;
        }
    }
    true
}
