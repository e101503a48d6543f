//! What is printed about a failure (Linux, Documentation/trace/rv, "Reactors").
#![tactic(auto)]

mod pieces;
mod react;

pub use react::{Fault, reaction};
pub use rv_model::Reactor;
