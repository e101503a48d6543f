//! The scripts of several CPUs: on one thread in the order of the trace, or all at once on a board.
#![tactic(auto)]

mod at_once;
mod changer;
mod feeder;
mod feeders;
mod lane;
mod laws;
mod order;
mod player;
mod recording;
mod turn;

pub use at_once::{FedLanes, feed, join_all, seat_lanes};
pub use changer::Changer;
pub use feeder::{CpuScript, Feeder};
pub use feeders::{run_feeders, run_halves};
pub use lane::{Lane, is_panic, record_on};
pub use laws::one_thread_has_a_history;
pub use order::run_in_order;
pub use player::{Player, serve_hit};
pub use recording::{Recorder, RecordingLane, assert_lanes};
pub use rv_model::{Delivered, Record};
pub use turn::ends_script;
