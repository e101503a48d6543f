//! A reader of one slot's words, beside the scripts of the CPUs.
#![tactic(auto)]

mod instances;
mod printing;
mod running;
mod watcher;

pub use instances::watched_slot;
pub use printing::watch_lines;
pub use running::{Watched, feed_watched};
pub use watcher::{Watcher, watch};
