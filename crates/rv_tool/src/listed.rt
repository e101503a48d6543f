//! From the files to one list of deliveries, which a run on one thread takes in the order of the trace.
ghost use Rattle.std.specs.Prelude.{◌≡◌, [], IfOk};
ghost use Rattle.rv_bind.specs.BoundViews.{bound_value};
ghost use Rattle.rv_bind.specs.Outcomes.{ReadsOutcome};
ghost use Rattle.rv_bind.specs.Possible.{MayCome};
ghost use Rattle.rv_bind.specs.WellFormed.{IsWellFormed};
ghost use Rattle.rv_route.specs.Routed.{list_value};
ghost use Rattle.rv_tool.specs.Inputs.{run_input};
ghost use Rattle.rv_stream.specs.Listed.{IsListed};
ghost use Rattle.rv_tool.specs.Listed.{IsPreparedList, listed_value};
ghost use Rattle.rv_tool.specs.Possible.{MayInput};

use crate::input::{RunParts, make_parts};
use rv_bind::{BindFault, Bindings, Bound, read_bindings};
use rv_core::Setup;
use rv_io::Store;
use rv_model::Reactor;
use rv_route::{DeliveryList, RoutedList};
use rv_slots::Tasks;
use rv_stream::read_list;
use std::alloc::{AllocError, Global};

/// What a run on one thread begins with.
#[derive(Drop)]
pub struct PreparedList {
    pub bindings: Bindings,
    pub tasks: Tasks,
    pub setup: Setup,
    /// At each index the reactor of the monitor at that index.
    pub reactors: Vec<Reactor>,
    /// The deliveries, in the order of the trace.
    pub list: DeliveryList,
}

/// Reads the bindings and the trace.
#[tactic(auto, using(rv_bind::proofs::OutcomeLemmas::fault_counted, crate::proofs::BlamesLemmas::input_named))]
pub(crate) fn read_listed<S: Store>(
    alloc: Global,
    store: &mut S,
    bindings: &str,
    trace: &str,
) -> Result<PreparedList, BindFault>
    ensures ready { IfOk result IsPreparedList }
    ensures some { MayCome listed_value result (MayInput bindings.now trace.now) }
    ensures reads { ReadsOutcome listed_value (S.files store.old) (S.files store.new) (S.faults store.old) (S.faults store.new) result (λ files. run_input files bindings.now trace.now) }
{
    let bound = read_bindings(alloc, store, bindings)?;
    let routed = read_list(alloc, store, trace, &bound)?;
    match prepare_list(alloc, bound, routed) {
        Ok(ready) => Ok(ready),
        Err(AllocError) => Err(BindFault::Memory),
    }
}

/// What the bindings and the list make ready. The one error is want of memory.
pub fn prepare_list(
    alloc: Global,
    bound: Bound,
    routed: RoutedList,
) -> Result<PreparedList, AllocError>
    requires formed { IsWellFormed (bound_value bound) }
    requires listed { IsListed bound.bindings routed }
    ensures ready { IfOk result IsPreparedList }
    ensures value { IfOk result (λ ready. listed_value ready ≡ record { bound = bound_value bound; routed = list_value routed; changes = [] }) }
{
    let Bound { bindings, tables } = bound;
    let RoutedList { tasks, list } = routed;
    let RunParts { setup, reactors } = make_parts(
        alloc,
        bindings.monitors.as_slice(),
        tasks.len(),
        tables,
    )?;
    Ok(PreparedList {
        bindings,
        tasks,
        setup,
        reactors,
        list,
    })
}
