//! What a report tells of a run, and what its deliveries have reached, of one walk.

use crate::counters::more;
use crate::reached::Reached;
use rv_bind::Bindings;
use rv_core::{Core, RowPhase};
use rv_model::Record;
use rv_replay::Observer;
use rv_report::Found;
use std::alloc::AllocError;

/// Both are told of each delivery, and its record is counted.
#[derive(Drop)]
pub struct Watched {
    pub found: Found,
    pub reached: Reached,
    pub records: u64,
}

impl Observer for Watched {
    ghost use Rattle.std.specs.Prelude.{◌≡◌, length};
    ghost use Rattle.rv_report.specs.Reported.{reported_of};
    ghost use Rattle.rv_report.specs.Tallies.{IsFound};
    ghost use Rattle.rv_reach.specs.Watching.{AreReached};
    ghost use Rattle.rv_reach.specs.Passing.{reached-passes};

    type Context = Bindings;

    ghost observed = { λ bindings tasks core rs watched. IsFound (reported_of bindings) tasks rs watched.found × (watched.records ≡ length rs) × AreReached bindings core watched.reached };

    fn observe(
        &mut self,
        bindings: &Bindings,
        core: &Core,
        slot: u32,
        before: RowPhase,
        made: &Record,
    ) -> Result<(), AllocError> {
        self.found.observe(bindings, core, slot, before, made)?;
        self.records = more(self.records, true)?;
        self.reached.observe(bindings, core, slot, before, made)
    }

    ghost passes = { λ bindings tasks core e rs watched on is. (is.0, is.1, reached-passes bindings core e watched.reached on is.2) };
}
