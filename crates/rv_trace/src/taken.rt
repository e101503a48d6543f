//! One line of a stream, skipped or not.
use crate::line::TraceLine;

/// A line that was taken, and what was read on it: None where it is skipped.
#[derive(Clone, Copy, Debug, Drop, PartialEq, Eq)]
pub struct TakenLine {
    /// Counted from 1.
    pub number: u32,
    pub found: Option<TraceLine>,
}
