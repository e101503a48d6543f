//! A run on several threads whose entries are numbered and printed.
ghost use Rattle.std.specs.Prelude.{◌≡◌, ◌≤◌, [], true, IfOk};
ghost use Rattle.std.specs.List.{list_any};
ghost use Rattle.rv_bind.specs.Outcomes.{ReadsOutcome, of_file, IsFaultOf};
ghost use Rattle.rv_bind.specs.Possible.{MayCome};
ghost use Rattle.rv_stream.specs.inner.Faults.{IsOutcome};
ghost use Rattle.rv_tool.specs.Journals.{can_record, if_recordable, recordable_input, ends_instances, IsJournalReport};
ghost use Rattle.rv_tool.specs.inner.Journals.{IsRecordable};
ghost use Rattle.rv_tool.specs.inner.Prepared.{prepared_value, IsPrepared};
ghost use Rattle.rv_tool.specs.Possible.{MayRecord};

use crate::check::works;
use crate::counts_fit::monitors_fit_counts;
use crate::input::{Prepared, read_input};
use crate::replay::FinishedRun;
use crate::widths::widths_of;
use rv_bind::{BindFault, On, refused};
use rv_io::{Gate, Store};
use rv_journal::{enabled_works, exit_status, journal_text, record_run};
use rv_text::{NOT_NUMBERED, Refusal, Refused};
use std::alloc::{AllocError, Global};
use std::thread::Threads;

/// Whether some rule ends the instances of its monitor.
fn end_instances(rules: &[On]) -> bool
    ensures { result ≡ list_any ends_instances rules.now }
{
    rules.iter().any(|rule| rule.hit.mode.is_end())
}

/// The bindings are refused.
fn not_recordable(alloc: Global, bindings: &str) -> BindFault
    ensures { IsFaultOf result bindings.now (record { number = NOT_NUMBERED; line = 0 }) }
{
    refused(
        alloc,
        bindings,
        Refused::Because(Refusal::whole(NOT_NUMBERED)),
    )
}

/// Whether the monitors can be numbered, and no rule ends an instance.
fn can_record(ready: &Prepared) -> bool
    ensures { result ≡ can_record (prepared_value ready.now) }
{
    let monitors = ready.bindings.monitors.as_slice();
    monitors_fit_counts(monitors, ready.setup.tables.as_slice())
        && !end_instances(ready.bindings.rules.as_slice())
}

/// What is ready, where it can be recorded.
fn recordable(alloc: Global, bindings: &str, ready: Prepared) -> Result<Prepared, BindFault>
    requires ready { IsPrepared ready }
    requires unchanged { ready.changes.items ≡ [] }
    ensures ready { IfOk result IsRecordable }
    ensures value { IsOutcome prepared_value result (of_file bindings.now (if_recordable (prepared_value ready))) }
{
    if can_record(&ready) {
        Ok(ready)
    } else {
        Err(not_recordable(alloc, bindings))
    }
}

/// Reads the bindings and the trace, and finds whether the monitors can be numbered.
#[tactic(auto, using(rv_bind::proofs::OutcomeLemmas::fault_counted, rv_bind::proofs::OutcomeLemmas::none_counted, crate::proofs::RecordableLemmas::numbered_named))]
pub(crate) fn read_recordable<S: Store>(
    alloc: Global,
    store: &mut S,
    bindings: &str,
    trace: &str,
) -> Result<Prepared, BindFault>
    ensures ready { IfOk result IsRecordable }
    ensures some { MayCome prepared_value result (MayRecord bindings.now trace.now) }
    ensures reads { ReadsOutcome prepared_value (S.files store.old) (S.files store.new) (S.faults store.old) (S.faults store.new) result (λ files. recordable_input files bindings.now trace.now) }
{
    let ready = read_input(alloc, store, bindings, trace)?;
    recordable(alloc, bindings, ready)
}

/// The whole run, a thread for each CPU, its history as text and the history's status.
pub(crate) fn recorded<R: Threads + Sync, G: Gate + Send>(
    rt: &R,
    alloc: Global,
    gate: &G,
    ready: Prepared,
) -> Result<FinishedRun, AllocError>
    requires { IsRecordable ready }
    ensures { IfOk result (λ done. IsJournalReport (prepared_value ready) done.closed done.text.items done.status) }
{
    let Prepared {
        bindings,
        tasks,
        setup,
        reactors,
        lanes,
        changes,
    } = ready;
    drop(tasks);
    drop(reactors);
    drop(changes);
    setup.assert_invariant();
    let works = works(alloc, lanes)?;
    let shown = enabled_works(alloc, setup.switches, works)?;
    let widths = widths_of(alloc, bindings.monitors.as_slice(), &setup)?;
    let recorded = record_run(rt, alloc, setup, widths, shown, gate)?;
    let text = journal_text(alloc, recorded.entries.as_slice())?;
    let status = exit_status(recorded.entries.as_slice());
    Ok(FinishedRun {
        status,
        text,
        closed: recorded.closed,
    })
}
