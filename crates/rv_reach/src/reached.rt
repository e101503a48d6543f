//! What the deliveries of a run have reached, counted delivery by delivery.
ghost use Rattle.std.specs.Prelude.{◌≡◌, [], length, IfOk};
ghost use Rattle.rv_reach.specs.Watching.{AreReached};

use crate::monitor::MonitorReach;
use rv_bind::Bindings;
use rv_core::{Core, RowPhase, Setup};
use rv_model::Record;
use rv_replay::Observer;
use std::alloc::{AllocError, Global};

/// At each index what the monitor at that index has reached.
#[derive(Drop)]
pub struct Reached {
    pub monitors: Vec<MonitorReach>,
}

impl Reached {
    /// What no deliveries reach.
    pub fn new(alloc: Global, bindings: &Bindings, setup: &Setup) -> Result<Reached, AllocError>
        requires { length bindings.now.monitors.items ≡ length setup.now.shape }
        ensures { IfOk result (λ reached. AreReached bindings.now (record { setup = setup.now; history = [] }) reached) }
    {
        setup.assert_invariant();
        let mut monitors = Vec::with_capacity(alloc, bindings.monitors.len())?;
        for place in 0..setup.shape.monitors() {
            let monitor = &bindings.monitors[place as usize];
            let instances = setup.shape.instances(place) as usize;
            let rows = setup.tables[place as usize].rows() as usize;
            monitors.push(MonitorReach::new(alloc, instances, rows, &monitor.spec)?)?;
        }
        Ok(Reached { monitors })
    }
}

impl Observer for Reached {
    ghost use Rattle.rv_reach.specs.Watching.{AreReached};
    ghost use Rattle.rv_reach.specs.Passing.{reached-passes};

    type Context = Bindings;

    ghost observed = { λ bindings tasks core rs reached. AreReached bindings core reached };

    fn observe(
        &mut self,
        bindings: &Bindings,
        core: &Core,
        slot: u32,
        before: RowPhase,
        made: &Record,
    ) -> Result<(), AllocError> {
        let place = made.monitor as usize;
        if place >= self.monitors.len() || place >= bindings.monitors.len() {
            return Ok(());
        }
        let spec = &bindings.monitors[place].spec;
        self.monitors[place].add(spec, core, slot, before, made)
    }

    ghost passes = { λ bindings tasks core e rs reached on is. reached-passes bindings core e reached on is };
}
