//! A run on one thread over one list of deliveries, in the order of the trace, and lanes of which no more is kept than the
//! report needs.
#![tactic(auto)]

mod digested;
mod observer;
mod turn;
mod walk;

pub use digested::{Digested, report_lanes};
pub use observer::Observer;
pub use walk::{ObservedRun, Replayed, observe_list, replay_list};
