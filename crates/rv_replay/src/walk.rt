//! The turns of the list, one after the other.
ghost use Rattle.std.specs.Prelude.{◌≡◌, ◌≢◌, ◌<◌, ◌≤◌, ℕ, length, slice_index_or, IfOk, OnOk};
ghost use Rattle.rv_feed.specs.Lane.{panics_of};
ghost use Rattle.rv_report.specs.Reported.{reported_of};
ghost use Rattle.rv_route.specs.Listing.{ListedDelivery};
ghost use Rattle.rv_replay.specs.Lists.{FitsList};
ghost use Rattle.rv_replay.specs.inner.Walks.{WalksList};
ghost use Rattle.rv_replay.specs.Observing.{RunsObserved};
ghost use Rattle.rv_replay.specs.Walks.{RunsList};

use crate::observer::Observer;
use crate::turn::play_turn;
use rv_bind::Bindings;
use rv_core::{Core, Setup};
use rv_model::{Closed, Reactor};
use rv_report::Found;
use rv_route::DeliveryList;
use rv_slots::Tasks;
use std::alloc::{AllocError, Global};

/// The setup that a run began with, and its history.
#[derive(Drop)]
pub struct ObservedRun {
    pub setup: Setup,
    pub closed: Closed,
}

/// The history, and what its records come to.
#[derive(Drop)]
pub struct Replayed {
    pub closed: Closed,
    pub found: Found,
}

/// Where the turn ends that begins here.
fn turn_end(list: &DeliveryList, from: usize) -> usize
    requires { from < length list.now }
    ensures low { from < result }
    ensures high { result ≤ length list.now }
    ensures same { (k : ℕ) (d : ListedDelivery) → from ≤ k → k < result → (slice_index_or list.now k d).line ≡ (slice_index_or list.now from d).line }
    ensures last { (d : ListedDelivery) → result < length list.now → (slice_index_or list.now result d).line ≢ (slice_index_or list.now from d).line }
{
    let count = list.len();
    let line = list.line(from);
    let mut to = from + 1;
    while to < count && list.line(to) == line {
        to += 1;
    }
    to
}

/// Plays all turns.
fn walk<O: Observer>(
    core: &mut Core,
    context: &O::Context,
    reactors: &[Reactor],
    list: &DeliveryList,
    observer: &mut O,
) -> Result<(), AllocError>
    requires { FitsList core.old.setup list.now }
    ensures { OnOk result (WalksList (O.observed context.now) (panics_of reactors.now) core.old core.new list.now observer.old observer.new) }
{
    let mut ended: [bool; 64] = [false; 64];
    let mut from: usize = 0;
    while from < list.len() {
        let to = turn_end(list, from);
        let cpu = list.cpu(from) as usize;
        if !ended[cpu] {
            ended[cpu] = play_turn(core, context, reactors, list, from, to, observer)?;
        }
        from = to;
    }
    Ok(())
}

/// Runs the deliveries of the list, and tells the observer of each when it is made. The one error is want of memory, which
/// may come in the middle of the run.
pub fn observe_list<O: Observer>(
    alloc: Global,
    setup: Setup,
    context: &O::Context,
    reactors: &[Reactor],
    list: &DeliveryList,
    observer: &mut O,
) -> Result<ObservedRun, AllocError>
    requires { FitsList setup list.now }
    ensures { IfOk result (RunsObserved (O.observed context.now) setup (panics_of reactors.now) list.now observer.old observer.new) }
{
    let mut core = Core::new(alloc, setup)?;
    walk(&mut core, context, reactors, list, observer)?;
    core.assert_invariant();
    let (setup, closed) = core.into_parts();
    Ok(ObservedRun { setup, closed })
}

/// The same, each record being counted for the report.
pub fn replay_list(
    alloc: Global,
    setup: Setup,
    bindings: &Bindings,
    tasks: &Tasks,
    reactors: &[Reactor],
    list: &DeliveryList,
) -> Result<Replayed, AllocError>
    requires { FitsList setup list.now }
    ensures { IfOk result (RunsList (reported_of bindings.now) tasks.now setup (panics_of reactors.now) list.now) }
{
    let mut found = Found::new(alloc, bindings, tasks)?;
    let run = observe_list(alloc, setup, bindings, reactors, list, &mut found)?;
    Ok(Replayed {
        closed: run.closed,
        found,
    })
}
