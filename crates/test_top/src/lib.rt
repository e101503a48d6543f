//! Tests of the report, and those of the top call that no file of cases can state: stores and sinks that fail, and CPUs
//! that are held in turn.
#![tactic(auto)]

#[cfg(test)]
mod beside;
#[cfg(test)]
mod failing;
#[cfg(test)]
mod feeding;
#[cfg(test)]
mod files;
mod holding;
#[cfg(test)]
mod journal;
#[cfg(test)]
mod report;
mod running;
#[cfg(test)]
mod watching;

pub use holding::{ACTOR, Count, Held, HeldAt, Marks, READER, Wait};
pub use running::{Came, run, run_held};
