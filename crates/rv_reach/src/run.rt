//! A run over one list of deliveries, with what it has reached.
ghost use Rattle.std.specs.Prelude.{◌≡◌, length, IfOk};
ghost use Rattle.rv_feed.specs.Lane.{panics_of};
ghost use Rattle.rv_replay.specs.Lists.{FitsList};
ghost use Rattle.rv_reach.specs.Reaching.{ReachesList};

use crate::reached::Reached;
use crate::watched::Watched;
use rv_bind::Bindings;
use rv_core::Setup;
use rv_model::{Closed, Reactor};
use rv_replay::observe_list;
use rv_report::Found;
use rv_route::DeliveryList;
use rv_slots::Tasks;
use std::alloc::{AllocError, Global};

/// The setup that the run began with, its history, and what was counted of it.
#[derive(Drop)]
pub struct ReachedRun {
    pub setup: Setup,
    pub closed: Closed,
    pub watched: Watched,
}

/// Runs the deliveries of the list, and counts what each of them reaches. The one error is want of memory.
pub fn reach_list(
    alloc: Global,
    setup: Setup,
    bindings: &Bindings,
    tasks: &Tasks,
    reactors: &[Reactor],
    list: &DeliveryList,
) -> Result<ReachedRun, AllocError>
    requires bound { length bindings.now.monitors.items ≡ length setup.shape }
    requires fits { FitsList setup list.now }
    ensures { IfOk result (ReachesList bindings.now tasks.now setup (panics_of reactors.now) list.now) }
{
    let found = Found::new(alloc, bindings, tasks)?;
    let reached = Reached::new(alloc, bindings, &setup)?;
    let mut watched = Watched {
        found,
        reached,
        records: 0,
    };
    let done = observe_list(alloc, setup, bindings, reactors, list, &mut watched)?;
    Ok(ReachedRun {
        setup: done.setup,
        closed: done.closed,
        watched,
    })
}
