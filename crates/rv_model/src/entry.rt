//! The entries of a history: one atomic action on one shared word each.

use crate::ghost_list::GhostList;
use crate::hit::Hit;

/// What a seat does to a word: word 0 for `Look`, `Raise` and `Lower`, a slot's word for the others.
#[derive(Clone, Copy, Debug, Drop, PartialEq, Eq)]
pub enum Act {
    /// A compare-exchange on the slot's word that won.
    Deliver { slot: u32, hit: Hit },
    /// A swap that puts 0 into the slot's word.
    Stop { slot: u32 },
    /// A load of word 0.
    Look,
    /// These switches go on.
    Raise { bits: u64 },
    /// These switches go off.
    Lower { bits: u64 },
    /// A swap that puts the opening word into the slot's word.
    Clear { slot: u32 },
    /// The same by a CPU, whose event ends the instance.
    End { slot: u32 },
}

/// Who acted, what it was, and the word before and after it.
#[derive(Clone, Copy, Debug, Drop, PartialEq, Eq)]
pub struct Entry {
    pub seat: u32,
    pub act: Act,
    pub before: u64,
    pub after: u64,
}

/// A history, which only contracts see.
pub type Closed = GhostList<Entry>;

/// What an act tells its seat.
#[derive(Clone, Copy, Debug, Drop, PartialEq, Eq)]
pub enum Answer {
    /// The instance is stopped, or it waits and the event is no start. Where it waits, levels may have changed.
    Passed,
    /// A run begins.
    Started,
    /// The run goes on.
    Kept,
    /// The specification does not allow the letter. The set has the rows in which it was not allowed.
    Failed(u32),
    /// The instance is stopped.
    Stopped,
    /// The instance waits, with its starting levels.
    Cleared,
    /// The instance's task has ended: it waits, with its starting levels.
    Ended,
    /// The switches, as they were found.
    Looked(u64),
    /// Switches were raised or lowered.
    Switched,
}
