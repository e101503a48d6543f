//! A lane whose records something else takes in as they are made.
ghost use Rattle.std.specs.Prelude.{◌≡◌, ◌∷◌, [], ◌++◌, All, List};
ghost use Rattle.rv_model.specs.declared.record.Record.{Record};
ghost use Rattle.rv_model.specs.Works.{IsWork};
ghost use Rattle.rv_feed.specs.Lane.{IsNewLane};

use crate::lane::{Keeper, assert_invariant, record_on};
use rv_model::{CpuWork, Delivered, Record};
use std::marker::Model;

/// What takes in records one by one, and keeps of them what it likes.
pub trait Recorder: Drop {
    /// All that it took in, in their order.
    ghost records: { Self → List Record };

    /// One more.
    fn add(&mut self, made: &Record)
        ensures { records self.new ≡ records self.old ++ made.now ∷ [] };
}

/// The work of one CPU, and what takes in the records of it. Contracts see it as they see a `Lane` with room for one
/// record of each delivery.
#[derive(Drop)]
pub struct RecordingLane<C: Recorder> {
    work: CpuWork,
    recorder: C,
}

impl<C: Recorder> Model for RecordingLane<C> {
    ghost use Rattle.std.specs.Prelude.{length};
    ghost use Rattle.rv_feed.specs.Lane.{LaneValue};

    ghost Value = { LaneValue };

    ghost view = { λ l. record { work = l.work; records = C.records l.recorder; room = length l.work.deliveries } };
}

impl<C: Recorder> RecordingLane<C> {
    /// The lane of this work, whose records the recorder takes in.
    pub fn new(work: CpuWork, recorder: C) -> RecordingLane<C>
        requires { C.records recorder ≡ [] }
        ensures { IsNewLane work result }
    {
        RecordingLane { work, recorder }
    }

    /// The work that the lane was made with.
    pub fn into_work(self) -> CpuWork
        ensures { result ≡ self.work }
    {
        self.work
    }

    /// What took in the records.
    pub fn recorder(&self) -> &C
        ensures { C.records result.now ≡ self.now.records }
    {
        &self.recorder
    }
}

impl<C: Recorder> Keeper for RecordingLane<C> {
    ghost lane = { λ lane. lane };

    #[inline(always)]
    fn work(&self) -> &CpuWork {
        &self.work
    }

    fn keep(&mut self, index: u32, line: u32, outcome: Delivered, reacting: bool) {
        let record = record_on(
            &self.work.deliveries[index as usize],
            line,
            outcome,
            reacting,
        );
        self.recorder.add(&record);
    }
}

/// Does nothing, and gives a proof that the works of all lanes are well formed.
pub fn assert_lanes<C: Recorder>(lanes: &[RecordingLane<C>])
    ensures { All (λ l. IsWork l.work) lanes.now }
{
    for lane in lanes {
        assert_invariant(&lane.work);
    }
}
