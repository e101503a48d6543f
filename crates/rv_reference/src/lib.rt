//! Slow plain programs whose contracts are the definitions of rv_model. Only tests use them.
#![tactic(auto)]

mod acceptance;
mod bits;
mod laws;
mod levels;
mod monitor;
mod phase;
mod plan;
mod records;
mod satisfaction;
mod script;
mod switches;
pub mod worked;
pub mod works;

pub use acceptance::accepts;
pub use laws::specifications_are_judged;
pub use levels::{letter_at, level, levels_of};
pub use monitor::{Monitor, Node};
pub use phase::Phase;
pub use plan::Plan;
pub use records::status_of;
pub use satisfaction::{View, satisfies};
pub use switches::{switch, switches_of};
