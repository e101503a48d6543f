//! That the generated input is one, with one writer for each slot.
#![tactic(auto)]

mod laws;

pub use laws::generated_traces_are_accepted;
