//! From the two files of a run to what it has watched.
ghost use Rattle.std.specs.Prelude.{◌≡◌, ℕ, List, length, IfErr, IfOk};
ghost use Rattle.rv_bind.specs.BoundViews.{bound_value};
ghost use Rattle.rv_bind.specs.FilePieces.{FailsAs};
ghost use Rattle.rv_bind.specs.Possible.{MayFault};
ghost use Rattle.rv_bind.specs.WellFormed.{IsWellFormed};
ghost use Rattle.rv_feed.specs.Lane.{panics_of};
ghost use Rattle.rv_replay.specs.Lists.{FitsList};
ghost use Rattle.rv_reach.specs.Reaching.{ReachesList};
ghost use Rattle.rv_facts.specs.BindingLines.{AreLinesOf};
ghost use Rattle.rv_counts.specs.Counts.{JudgedRun, TellsRun};
ghost use Rattle.rv_counts.specs.KeptRun.{IsKeptOf};
ghost use Rattle.rv_coverage.specs.Headline.{IsCoverage};
ghost use Rattle.rv_coverage.specs.Texts.{MayTexts, RunTexts, texts_in};
ghost use Rattle.rv_coverage.specs.inner.Covering.{IsReadOf, IsReportOf, MayRun, ReadsTexts};
ghost use Rattle.rv_coverage.specs.inner.Words.{coverage_command_value};

use crate::words::CoverageCommand;
use rv_bind::{BindFault, Bindings, Bound, BoundText, read_bindings_with_text};
use rv_core::Setup;
use rv_counts::{TraceWatch, counts_of};
use rv_facts::{BindingLines, Counts, binding_lines};
use rv_findings::{CoverageReport, Told, coverage_text};
use rv_io::Store;
use rv_model::Reactor;
use rv_reach::{ReachedRun, Watched, reach_list};
use rv_route::{DeliveryList, RoutedList};
use rv_slots::Tasks;
use rv_stream::read_list_observed;
use rv_tool::{FinishedRun, PreparedList, prepare_list};
use std::alloc::{AllocError, Global};

/// What was read of a run's two files: on which lines its bindings say what, the bindings, what the lines of its trace
/// tell, and its deliveries.
#[derive(Drop)]
pub(crate) struct Read {
    pub(crate) lines: BindingLines,
    pub(crate) bound: Bound,
    pub(crate) watch: TraceWatch,
    pub(crate) routed: RoutedList,
}

/// Reads the bindings and the trace, each once.
#[tactic(auto, using(rv_bind::proofs::OutcomeLemmas::fault_counted))]
pub(crate) fn read_watched<S: Store>(
    alloc: Global,
    store: &mut S,
    command: CoverageCommand<'_>,
) -> Result<Read, BindFault>
    ensures ready { IfOk result MayRun }
    ensures texts { IfOk result (ReadsTexts (S.files store.old) command.entry.bindings.now command.entry.trace.now) }
    ensures fails { FailsAs (S.files store.old) (S.files store.new) (S.faults store.old) (S.faults store.new) result (λ files. texts_in files command.entry.bindings.now command.entry.trace.now) }
    ensures some { IfErr result (λ fault. MayFault fault (MayTexts command.entry.bindings.now command.entry.trace.now)) }
{
    let BoundText { text, bound } = read_bindings_with_text(alloc, store, command.bindings)?;
    let lines = lines_in(alloc, text)?;
    let Ok(mut watch) = TraceWatch::new(alloc, &bound.bindings) else {
        return Err(BindFault::Memory);
    };
    let routed = read_list_observed(
        alloc,
        store,
        command.trace,
        &bound,
        &bound.bindings,
        &mut watch,
    )?;
    Ok(Read {
        lines,
        bound,
        watch,
        routed,
    })
}

/// On which lines of their text the bindings stand; want of memory becomes a fault.
fn lines_in(alloc: Global, text: Vec<u8>) -> Result<BindingLines, BindFault>
    ensures lines { IfOk result (AreLinesOf text.items) }
    ensures memory { IfErr result (λ fault. fault ≡ BindFault.Memory) }
{
    match binding_lines(alloc, text.as_slice()) {
        Ok(lines) => Ok(lines),
        Err(AllocError) => Err(BindFault::Memory),
    }
}

/// Runs the deliveries, and tells what was watched.
pub(crate) fn covered(
    alloc: Global,
    command: CoverageCommand<'_>,
    read: Read,
) -> Result<FinishedRun, AllocError>
    requires { MayRun read }
    ensures { IfOk result (λ done. (texts : RunTexts) → IsReadOf texts read → IsCoverage (coverage_command_value command.entry) texts done.closed done.text.items done.status) }
{
    let Read {
        lines,
        bound,
        watch,
        routed,
    } = read;
    let PreparedList {
        bindings,
        tasks,
        setup,
        reactors,
        list,
    } = prepare_list(alloc, bound, routed)?;
    let ReachedRun {
        closed,
        watched,
        setup,
    } = reached(alloc, &bindings, setup, tasks, reactors, list)?;
    let counts = counted(alloc, &bindings, watch, watched)?;
    let bound = bound_again(bindings, setup);
    let CoverageReport { text, status } = report_of(alloc, command, lines, bound, counts)?;
    Ok(FinishedRun {
        status,
        text,
        closed,
    })
}

/// Runs the deliveries, and counts what each of them reaches.
fn reached(
    alloc: Global,
    bindings: &Bindings,
    setup: Setup,
    tasks: Tasks,
    reactors: Vec<Reactor>,
    list: DeliveryList,
) -> Result<ReachedRun, AllocError>
    requires bound { length bindings.now.monitors.items ≡ length setup.shape }
    requires fits { FitsList setup list }
    ensures { IfOk result (ReachesList bindings.now tasks setup (panics_of reactors.items) list) }
{
    reach_list(alloc, setup, bindings, &tasks, reactors.as_slice(), &list)
}

/// All numbers of a run, by what was kept of its trace and what it has found and reached.
fn counted(
    alloc: Global,
    bindings: &Bindings,
    watch: TraceWatch,
    watched: Watched,
) -> Result<Counts, AllocError>
    requires { length watched.reached.monitors.items ≡ length watched.found.tallies }
    ensures { IfOk result (λ counts. (run : JudgedRun) (trace : List ℕ) → IsKeptOf bindings.now run trace watch watched.found watched.reached watched.records → TellsRun run trace counts) }
{
    counts_of(alloc, bindings, &watch, watched)
}

/// The bindings, with the tables of a setup.
fn bound_again(bindings: Bindings, setup: Setup) -> Bound
    ensures bindings { result.bindings ≡ bindings }
    ensures tables { result.tables.items ≡ setup.tables }
{
    Bound {
        bindings,
        tables: setup.tables,
    }
}

/// The text and the exit status of all that is told of: the two names, the bindings and on which lines they stand, and
/// the numbers of the run.
fn report_of(
    alloc: Global,
    command: CoverageCommand<'_>,
    lines: BindingLines,
    bound: Bound,
    counts: Counts,
) -> Result<CoverageReport, AllocError>
    requires { IsWellFormed (bound_value bound) }
    ensures { IfOk result (IsReportOf (coverage_command_value command.entry) lines (bound_value bound) counts) }
{
    let told = Told {
        bindings: command.bindings.as_bytes(),
        trace: command.trace.as_bytes(),
        lines: &lines,
        bound: &bound,
        counts: &counts,
    };
    coverage_text(alloc, command.edges, &told)
}
