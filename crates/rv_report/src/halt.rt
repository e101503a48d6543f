//! Where a run was halted.
ghost use Rattle.std.specs.Prelude.{◌≡◌};
ghost use Rattle.rv_report.specs.Halts.{halt_of, is_halting, is_of_panic};
ghost use Rattle.rv_report.specs.Reported.{reported_of};

use crate::tally::is_failure;
use rv_bind::Bindings;
use rv_model::Record;

/// A failure of a monitor whose reactor is panic, behind which its CPU makes no delivery.
#[derive(Clone, Copy, Debug, Drop, PartialEq, Eq)]
pub struct Halted {
    /// From 1.
    pub line: u32,
    pub monitor: u8,
}

/// Whether the record is of a monitor whose reactor is panic.
fn is_of_panic(bindings: &Bindings, made: &Record) -> bool
    ensures { result ≡ is_of_panic (reported_of bindings.now) made.now }
{
    match bindings.monitors.get(made.monitor as usize) {
        Some(monitor) => monitor.reactor.is_panic(),
        None => false,
    }
}

/// Whether the record halts the run.
fn is_halting(bindings: &Bindings, made: &Record) -> bool
    ensures { result ≡ is_halting (reported_of bindings.now) made.now }
{
    is_failure(made) && made.reacting && is_of_panic(bindings, made)
}

/// Where the first of the records that halts the run stands.
pub(crate) fn halt_among(bindings: &Bindings, records: &[Record]) -> Option<Halted>
    ensures { result ≡ halt_of (reported_of bindings.now) records.now }
{
    records
        .iter()
        .find(|record| is_halting(bindings, record))
        .map(|record| Halted {
            line: record.line,
            monitor: record.monitor,
        })
}
