//! A counted lane: what one CPU has to do on a counted board, and what its deliveries observed.
ghost use Rattle.std.specs.Prelude.{◌≡◌, ◌<◌, length, slice_index_or, IfOk};
ghost use Rattle.rv_model.specs.declared.work.Delivery.{Delivery};
ghost use Rattle.rv_model.specs.declared.work.Turn.{Turn};
ghost use Rattle.rv_model.specs.Works.{IsWork};
ghost use Rattle.rv_journal.specs.CountedLanes.{IsNewCountedLane};
ghost use Rattle.rv_journal.specs.inner.CountedLanes.{KeepsObserved};

use crate::counted::Counted;
use rv_model::{CpuWork, Delivery, Turn};
use std::alloc::{AllocError, Global};
use std::marker::Model;

/// The work of one CPU, and what its deliveries observed, in the order in which they were made. Contracts see for how
/// many there is room.
#[derive(Drop)]
pub struct CountedLane {
    pub work: CpuWork,
    pub counted: Vec<Counted>,
}

impl Model for CountedLane {
    ghost use Rattle.rv_journal.specs.CountedLanes.{CountedLaneValue};

    ghost Value = { CountedLaneValue };

    ghost view = { λ l. record { work = l.work; counted = l.counted.items; room = l.counted.cap } };
}

impl CountedLane {
    /// The lane of this work, with nothing observed yet, and room for one of each delivery, so that no delivery asks
    /// for memory.
    pub fn new(alloc: Global, work: CpuWork) -> Result<CountedLane, AllocError>
        ensures { IfOk result (λ lane. IsNewCountedLane work lane) }
    {
        let counted = Vec::with_capacity(alloc, work.deliveries.len())?;
        Ok(CountedLane { work, counted })
    }
}

/// Does nothing, and gives a proof that the lane's work is well formed.
pub(crate) fn assert_invariant(lane: &CountedLane)
    ensures { IsWork lane.now.work }
{
    let _ = &lane.work.turns;
}

/// Keeps what a delivery observed, for which there is room.
pub(crate) fn keep(lane: &mut CountedLane, observed: Counted)
    requires { length lane.old.counted < lane.old.room }
    ensures { KeepsObserved lane.old lane.new observed }
{
    match lane.counted.push(observed) {
        Ok(()) => (),
        Err(_) => unreachable!(),
    }
}

pub(crate) fn cpu_of(lane: &CountedLane) -> u32
    ensures { result ≡ lane.now.work.cpu }
{
    lane.work.cpu as u32
}

pub(crate) fn delivery_at(lane: &CountedLane, index: u32) -> Delivery
    requires { index < length lane.now.work.deliveries }
    ensures { (d : Delivery) → result ≡ slice_index_or lane.now.work.deliveries index d }
{
    lane.work.deliveries[index as usize]
}

pub(crate) fn turn_count(lane: &CountedLane) -> usize
    ensures { result ≡ length lane.now.work.turns }
{
    lane.work.turns.len()
}

pub(crate) fn turn_at(lane: &CountedLane, index: usize) -> Turn
    requires { index < length lane.now.work.turns }
    ensures { (t : Turn) → result ≡ slice_index_or lane.now.work.turns index t }
{
    lane.work.turns[index]
}
