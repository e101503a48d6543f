//! All seats of a board, and tests of what runs at once and of its histories. Gates hold the CPUs in turn.
#![tactic(auto)]

#[cfg(test)]
mod board;
#[cfg(test)]
mod feed;
#[cfg(test)]
mod journal;
#[cfg(test)]
mod machine;
mod seats;
#[cfg(test)]
mod setup;

pub use seats::{join_all, split_all};
