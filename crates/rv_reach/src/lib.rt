//! What the deliveries of a history reach: answers, instances, rows, edges and atoms, counted along the run.
#![tactic(auto)]

mod counters;
mod judged;
mod monitor;
mod reached;
mod run;
mod watched;

pub use monitor::{InstanceReach, MonitorReach};
pub use reached::Reached;
pub use run::{ReachedRun, reach_list};
pub use watched::Watched;
