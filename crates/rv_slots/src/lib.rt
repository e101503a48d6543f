//! The tasks of a run by their numbers, and the slots of its monitors by their numbers.
#![tactic(auto)]

mod limits;
mod shape;
mod task;
mod tasks;

pub use limits::limits_are_numerals;
pub use rv_model::Task;
pub use shape::{CPUS, MAX_MONITORS, MAX_SLOTS, Place, Shape};
pub use tasks::{MAX_TASKS, TaskFault, Tasks};
