//! The numbers of a run: what was kept of the lines of its trace, and what its deliveries reached, as they are told.
#![tactic(auto)]

mod counting;
mod rule_counting;
mod watch;

pub use counting::counts_of;
pub use watch::TraceWatch;
