//! A lane: what one CPU has to do, and what came of it.
ghost use Rattle.std.specs.Prelude.{◌≡◌, ◌+◌, ◌<◌, ◌∷◌, [], length, slice_index_or, IfOk};
ghost use Rattle.rv_model.specs.declared.work.Delivery.{Delivery};
ghost use Rattle.rv_model.specs.declared.work.Turn.{Turn};
ghost use Rattle.rv_model.specs.Works.{IsWork};
ghost use Rattle.rv_feed.specs.Kept.{record_on};
ghost use Rattle.rv_feed.specs.Lane.{LaneValue, panics_of, IsNewLane};
ghost use Rattle.rv_feed.specs.inner.Lane.{AddsRecords};

use rv_model::{CpuWork, Delivered, Delivery, Reactor, Record, Turn};
use std::alloc::{AllocError, Global};
use std::marker::Model;

/// What one CPU has to do, with whatever keeps the records of it.
pub(crate) trait Keeper {
    /// The work, the records so far, and for how many there is room.
    ghost lane: { Self → LaneValue };

    /// The work.
    fn work(&self) -> &CpuWork
        ensures { result.now ≡ (lane self.now).work };

    /// Keeps the record of the delivery at `index` in the work, for which there is room.
    fn keep(&mut self, index: u32, line: u32, outcome: Delivered, reacting: bool)
        requires index { index < length (lane self.old).work.deliveries }
        requires room { length (lane self.old).records < (lane self.old).room }
        ensures { (d : Delivery) → AddsRecords (lane self.old) (lane self.new) (record_on line outcome reacting (slice_index_or (lane self.old).work.deliveries index d) ∷ []) };
}

/// The work of one CPU, and the records of its deliveries in the order in which they were made. Contracts see for how
/// many records there is room.
#[derive(Drop)]
pub struct Lane {
    pub work: CpuWork,
    pub records: Vec<Record>,
}

impl Model for Lane {
    ghost use Rattle.rv_feed.specs.Lane.{LaneValue};

    ghost Value = { LaneValue };

    ghost view = { λ l. record { work = l.work; records = l.records.items; room = l.records.cap } };
}

impl Lane {
    /// The lane of this work, with no record yet, and room for one of each delivery, so that keeping one asks for no
    /// memory.
    pub fn new(alloc: Global, work: CpuWork) -> Result<Lane, AllocError>
        ensures { IfOk result (λ lane. IsNewLane work lane) }
    {
        let records = Vec::with_capacity(alloc, work.deliveries.len())?;
        Ok(Lane { work, records })
    }
}

impl Keeper for Lane {
    ghost lane = { λ lane. lane };

    #[inline(always)]
    fn work(&self) -> &CpuWork {
        &self.work
    }

    fn keep(&mut self, index: u32, line: u32, outcome: Delivered, reacting: bool) {
        let record = record_on(
            &self.work.deliveries[index as usize],
            line,
            outcome,
            reacting,
        );
        match self.records.push(record) {
            Ok(()) => (),
            Err(_) => unreachable!(),
        }
    }
}

/// The record of a delivery that a turn of this line made, with what came of it.
#[inline(always)]
pub fn record_on(delivery: &Delivery, line: u32, outcome: Delivered, reacting: bool) -> Record
    ensures { result ≡ record_on line outcome reacting delivery.now }
{
    Record {
        order: delivery.order,
        line,
        instance: delivery.instance,
        monitor: delivery.monitor,
        reacting,
        hit: delivery.hit,
        outcome,
    }
}

/// Does nothing, and gives a proof that the work is well formed.
pub(crate) fn assert_invariant(work: &CpuWork)
    ensures { IsWork work.now }
{
    let _ = &work.turns;
}

/// Whether the monitor's reactor is panic. A monitor past the end of the list has none that is.
pub fn is_panic(reactors: &[Reactor], monitor: u8) -> bool
    ensures { result ≡ panics_of reactors.now monitor }
{
    match reactors.get(monitor as usize) {
        Some(reactor) => reactor.is_panic(),
        None => false,
    }
}

/// The number of the seat of the lane's CPU.
pub(crate) fn seat_of<L: Keeper>(lane: &L) -> u32
    ensures { result ≡ 2 + (L.lane lane.now).work.cpu }
{
    2 + lane.work().cpu as u32
}

pub(crate) fn cpu_of<L: Keeper>(lane: &L) -> u32
    ensures { result ≡ (L.lane lane.now).work.cpu }
{
    lane.work().cpu as u32
}

pub(crate) fn delivery_at<L: Keeper>(lane: &L, index: u32) -> Delivery
    requires { index < length (L.lane lane.now).work.deliveries }
    ensures { (d : Delivery) → result ≡ slice_index_or (L.lane lane.now).work.deliveries index d }
{
    lane.work().deliveries[index as usize]
}

pub(crate) fn turn_count<L: Keeper>(lane: &L) -> usize
    ensures { result ≡ length (L.lane lane.now).work.turns }
{
    lane.work().turns.len()
}

pub(crate) fn turn_at<L: Keeper>(lane: &L, index: usize) -> Turn
    requires { index < length (L.lane lane.now).work.turns }
    ensures { (t : Turn) → result ≡ slice_index_or (L.lane lane.now).work.turns index t }
{
    lane.work().turns[index]
}
