//! From the files to what a run begins with.
ghost use Rattle.std.specs.Prelude.{◌≡◌, ◌≤◌, [], length, map, All, IfOk};
ghost use Rattle.rv_bind.specs.Outcomes.{ReadsOutcome};
ghost use Rattle.rv_bind.specs.Possible.{MayCome};
ghost use Rattle.rv_bind.specs.BoundViews.{bound_value};
ghost use Rattle.rv_bind.specs.WellFormed.{HaveTables, kinds_of, IsWellFormed};
ghost use Rattle.rv_route.specs.Routed.{routed_value};
ghost use Rattle.rv_route.specs.Fitting.{WorksFit, FromRules};
ghost use Rattle.rv_feed.specs.Existence.{HasOneHistory};
ghost use Rattle.rv_feed.specs.Lane.{IsNewLane, works_of};
ghost use Rattle.rv_tool.specs.Inputs.{opened, run_input, run_of};
ghost use Rattle.rv_tool.specs.inner.Prepared.{prepared_value, IsPrepared};
ghost use Rattle.rv_tool.specs.Possible.{MayInput};

use rv_bind::{BindFault, Bindings, Bound, Monitor, read_bindings};
use rv_control::opening_switches;
use rv_core::Setup;
use rv_feed::{RecordingLane, assert_lanes};
use rv_io::Store;
use rv_model::{Change, CpuWork, Reactor, Scope};
use rv_replay::Digested;
use rv_route::Routed;
use rv_slots::{Shape, Tasks};
use rv_stream::read_routed;
use rv_table::Table;
use std::alloc::{AllocError, Global};

/// What a run begins with.
#[derive(Drop)]
pub(crate) struct Prepared {
    pub(crate) bindings: Bindings,
    pub(crate) tasks: Tasks,
    pub(crate) setup: Setup,
    pub(crate) reactors: Vec<Reactor>,
    pub(crate) lanes: Vec<RecordingLane<Digested>>,
    pub(crate) changes: Vec<Change>,
}

/// The parts of what is ready that are made of monitors and tables.
#[derive(Drop)]
pub(crate) struct RunParts {
    pub(crate) setup: Setup,
    pub(crate) reactors: Vec<Reactor>,
}

/// Reads the bindings and the trace.
#[tactic(auto, using(rv_bind::proofs::OutcomeLemmas::fault_counted, crate::proofs::BlamesLemmas::input_named))]
pub(crate) fn read_input<S: Store>(
    alloc: Global,
    store: &mut S,
    bindings: &str,
    trace: &str,
) -> Result<Prepared, BindFault>
    ensures ready { IfOk result IsPrepared }
    ensures some { MayCome prepared_value result (MayInput bindings.now trace.now) }
    ensures unchanged { IfOk result (λ ready. ready.changes.items ≡ []) }
    ensures one { IfOk result (λ ready. HasOneHistory (run_of (prepared_value ready))) }
    ensures reads { ReadsOutcome prepared_value (S.files store.old) (S.files store.new) (S.faults store.old) (S.faults store.new) result (λ files. run_input files bindings.now trace.now) }
{
    let bound = read_bindings(alloc, store, bindings)?;
    let routed = read_routed(alloc, store, trace, &bound)?;
    match prepare(alloc, bound, routed) {
        Ok(ready) => {
            assert_one(&ready);
            Ok(ready)
        }
        Err(AllocError) => Err(BindFault::Memory),
    }
}

/// Does nothing, and gives a proof that what is ready has a history of one thread.
pub(crate) fn assert_one(ready: &Prepared)
    requires ready { IsPrepared ready.now }
    requires unchanged { ready.now.changes.items ≡ [] }
    ensures { HasOneHistory (run_of (prepared_value ready.now)) }
{
    ready.setup.assert_invariant();
    assert_lanes(ready.lanes.as_slice());
}

/// What the bindings and the works make ready.
fn prepare(alloc: Global, bound: Bound, routed: Routed) -> Result<Prepared, AllocError>
    requires formed { IsWellFormed (bound_value bound) }
    requires fit { WorksFit (kinds_of bound.bindings.monitors.items) (length routed.tasks) routed.works.items }
    requires rules { FromRules bound.bindings.rules.items routed.works.items }
    ensures ready { IfOk result IsPrepared }
    ensures value { IfOk result (λ ready. prepared_value ready ≡ record { bound = bound_value bound; routed = routed_value routed; changes = [] }) }
{
    let Bound { bindings, tables } = bound;
    let Routed { tasks, works } = routed;
    let lanes = lanes(alloc, works)?;
    let RunParts { setup, reactors } = make_parts(
        alloc,
        bindings.monitors.as_slice(),
        tasks.len(),
        tables,
    )?;
    Ok(Prepared {
        bindings,
        tasks,
        setup,
        reactors,
        lanes,
        changes: Vec::new(alloc),
    })
}

/// What the monitors make of their tables for so many tasks.
pub(crate) fn make_parts(
    alloc: Global,
    monitors: &[Monitor],
    tasks: u32,
    tables: Vec<Table>,
) -> Result<RunParts, AllocError>
    requires monitors { length monitors.now ≤ 32 }
    requires tasks { tasks ≤ 65536 }
    requires tables { HaveTables (kinds_of monitors.now) tables.items }
    ensures setup { IfOk result (λ parts. parts.setup ≡ opened monitors.now tables.items tasks) }
    ensures reactors { IfOk result (λ parts. parts.reactors.items ≡ map (λ m. m.reactor) monitors.now) }
{
    let reactors = reactors(alloc, monitors)?;
    let setup = opening(alloc, monitors, tasks, tables)?;
    Ok(RunParts { setup, reactors })
}

/// The setup of a run with so many tasks.
fn opening(
    alloc: Global,
    monitors: &[Monitor],
    tasks: u32,
    tables: Vec<Table>,
) -> Result<Setup, AllocError>
    requires monitors { length monitors.now ≤ 32 }
    requires tasks { tasks ≤ 65536 }
    requires tables { HaveTables (kinds_of monitors.now) tables.items }
    ensures { IfOk result (λ setup. setup ≡ opened monitors.now tables.items tasks) }
{
    let scopes = scopes(alloc, monitors)?;
    let shape = Shape::new(alloc, scopes.as_slice(), tasks)?;
    let starts = starts(alloc, monitors)?;
    let switches = opening_switches(monitors);
    Ok(Setup {
        shape,
        tables,
        starts,
        switches,
    })
}

/// The scope of each monitor.
fn scopes(alloc: Global, monitors: &[Monitor]) -> Result<Vec<Scope>, AllocError>
    ensures { IfOk result (λ scopes. scopes.items ≡ map (λ m. m.scope) monitors.now) }
{
    let mut scopes = Vec::new(alloc);
    for monitor in monitors {
        scopes.push(monitor.scope)?;
    }
    Ok(scopes)
}

/// The starting value of each monitor.
fn starts(alloc: Global, monitors: &[Monitor]) -> Result<Vec<u32>, AllocError>
    ensures { IfOk result (λ starts. starts.items ≡ map (λ m. m.starting) monitors.now) }
{
    let mut starts = Vec::new(alloc);
    for monitor in monitors {
        starts.push(monitor.starting)?;
    }
    Ok(starts)
}

/// The reactor of each monitor.
fn reactors(alloc: Global, monitors: &[Monitor]) -> Result<Vec<Reactor>, AllocError>
    ensures { IfOk result (λ reactors. reactors.items ≡ map (λ m. m.reactor) monitors.now) }
{
    let mut reactors = Vec::new(alloc);
    for monitor in monitors {
        reactors.push(monitor.reactor)?;
    }
    Ok(reactors)
}

/// A lane for each work.
fn lanes(alloc: Global, works: Vec<CpuWork>) -> Result<Vec<RecordingLane<Digested>>, AllocError>
    ensures { IfOk result (λ lanes. (works_of lanes.items ≡ works.items) × All (λ lane. IsNewLane lane.work lane) lanes.items) }
{
    let mut lanes = Vec::new(alloc);
    for work in works {
        let lane = RecordingLane::new(work, Digested::new(alloc));
        lanes.push(lane)?;
    }
    Ok(lanes)
}
