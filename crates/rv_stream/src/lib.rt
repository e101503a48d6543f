//! A trace is read from a store in pieces, and each line is routed as it is taken.
#![tactic(auto)]

mod laws;
mod observer;
mod routing;
mod trace_text;

pub use laws::traces_have_numbers;
pub use observer::{LineObserver, NoObserver};
pub use trace_text::{read_list, read_list_observed, read_routed};
