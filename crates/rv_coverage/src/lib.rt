//! What a run has watched: the top call of the second program, from the command's words and the files that they name to a
//! status, a text and a history.
#![tactic(auto)]

mod covering;
mod laws;
mod top;
mod words;

pub use laws::coverage_reads_as_replay;
pub use top::rv_coverage;
