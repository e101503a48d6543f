//! What is told of each delivery of a run.
ghost use Rattle.std.specs.Prelude.{◌<◌, List, OnOk, sum};
ghost use Rattle.rv_model.specs.declared.record.Record.{Record};
ghost use Rattle.rv_model.specs.declared.record.Task.{Task};
ghost use Rattle.rv_core.specs.Core.{CoreValue};
ghost use Rattle.rv_replay.specs.Observing.{ObservesRecord, IgnoresSwitches};

use rv_bind::Bindings;
use rv_core::{Core, RowPhase};
use rv_model::Record;
use rv_report::Found;
use std::alloc::AllocError;

/// What counts the deliveries of a run, or keeps of them what it wants.
pub trait Observer {
    /// What it is told with each delivery, and does not keep.
    type Context;

    /// Of a run with these tasks, it is what it has to be of the machine and the records of its deliveries.
    ghost observed: { Self.Context → List Task → CoreValue → List Record → Self → Type 0 };

    /// The machine has made the delivery of a record. Before it the instance of its slot was doing `before`.
    fn observe(
        &mut self,
        context: &Self::Context,
        core: &Core,
        slot: u32,
        before: RowPhase,
        made: &Record,
    ) -> Result<(), AllocError>
        requires { slot < sum core.now.setup.shape }
        ensures { OnOk result (ObservesRecord (observed context.now) core.now slot before made.now self.old self.new) };

    /// What is done to the switches does not count.
    ghost passes: { (context : Self.Context) → IgnoresSwitches (observed context) };
}

/// What a report tells of a run is made of its records alone.
impl Observer for Found {
    ghost use Rattle.rv_report.specs.Reported.{reported_of};
    ghost use Rattle.rv_report.specs.Tallies.{IsFound};

    type Context = Bindings;

    ghost observed = { λ bindings tasks core rs found. IsFound (reported_of bindings) tasks rs found };

    #[inline(always)]
    fn observe(
        &mut self,
        bindings: &Bindings,
        _core: &Core,
        _slot: u32,
        _before: RowPhase,
        made: &Record,
    ) -> Result<(), AllocError> {
        self.add(bindings, made)
    }

    ghost passes = { λ bindings tasks core e rs found other is. is };
}
