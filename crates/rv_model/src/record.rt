//! What a run tells of each delivery.
use crate::entry::Answer;
use crate::hit::Hit;

/// How a delivery ended.
#[derive(Clone, Copy, Debug, Drop, PartialEq, Eq)]
pub enum Delivered {
    /// It was made, and answered so.
    Done(Answer),
    /// Others changed the word three times, and the instance was stopped.
    Racing,
}

/// One delivery of the trace, and what came of it.
#[derive(Clone, Copy, Debug, Drop, PartialEq, Eq)]
pub struct Record {
    /// The delivery's number in the whole trace.
    pub order: u32,
    /// The trace line, from 1.
    pub line: u32,
    pub monitor: u8,
    pub instance: u32,
    pub hit: Hit,
    pub outcome: Delivered,
    /// Whether the switches showed reacting on at its turn's look.
    pub reacting: bool,
}

/// A task of the trace. The idle task of each CPU has pid 0; any other task has `cpu` 0.
#[derive(Clone, Copy, Debug, Drop, PartialEq, Eq, Hash)]
pub struct Task {
    pub pid: u32,
    pub cpu: u8,
}
