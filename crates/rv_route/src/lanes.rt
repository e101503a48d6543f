//! What one CPU has to do, as it grows.
ghost use Rattle.std.specs.Prelude.{◌≡◌, ◌<◌, ◌≤◌, ◌+◌, length, OnOk};
ghost use Rattle.rv_route.specs.Lanes.{with_turn, with_delivery};
ghost use Rattle.rv_route.specs.LineByLine.{no_lane};

use rv_model::{Delivery, Turn};
use std::alloc::{AllocError, Global};
use std::marker::Model;

/// The turns and the deliveries of one CPU, in order.
#[derive(Drop)]
pub(crate) struct CpuScript {
    pub(crate) turns: Vec<Turn>,
    pub(crate) deliveries: Vec<Delivery>,
}

impl Model for CpuScript {
    ghost use Rattle.rv_route.specs.Lanes.{LaneValue};

    ghost Value = { LaneValue };

    ghost view = { λ lane. record { turns = lane.turns.items; deliveries = lane.deliveries.items } };
}

impl CpuScript {
    pub(crate) fn new(alloc: Global) -> CpuScript
        ensures { result ≡ no_lane }
    {
        CpuScript {
            turns: Vec::new(alloc),
            deliveries: Vec::new(alloc),
        }
    }

    /// One more delivery of a line.
    pub(crate) fn add(&mut self, line: u32, delivery: Delivery) -> Result<(), AllocError>
        requires { length self.old.deliveries < 4294967295 }
        ensures added { OnOk result (self.new ≡ with_delivery self.old line delivery) }
        ensures few { length self.new.deliveries ≤ length self.old.deliveries + 1 }
    {
        let place = self.deliveries.len() as u32;
        self.deliveries.push(delivery)?;
        add_turn(&mut self.turns, line, place)
    }
}

/// The turn of the line has the delivery at this place too.
fn add_turn(turns: &mut Vec<Turn>, line: u32, place: u32) -> Result<(), AllocError>
    requires { place < 4294967295 }
    ensures { OnOk result (turns.new.items ≡ with_turn turns.old.items line place) }
{
    let count = turns.len();
    if count > 0 && turns[count - 1].line == line {
        turns[count - 1].to = place + 1;
        return Ok(());
    }
    turns.push(Turn {
        line,
        from: place,
        to: place + 1,
    })?;
    Ok(())
}
