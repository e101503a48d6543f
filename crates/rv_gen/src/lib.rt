//! A large input that is always the same: two monitors, and a trace of as many blocks as are asked for.
#![tactic(auto)]

mod automata;
mod files;
mod laws;
mod limits;
mod trace;

pub use automata::{wip, wwnr};
pub use files::{Generated, MAX_BLOCKS, generate};
pub use laws::{automata_are_read, blocks_are_short};
pub use limits::limits_are_numerals;
