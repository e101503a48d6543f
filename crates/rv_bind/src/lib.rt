//! Bindings: which automata and rules watch a trace, which events feed them, and what is done about a failure.
#![tactic(auto)]

mod bindings;
mod bound;
mod changes;
mod compile;
mod fault;
mod files;
mod forms;
mod laws;
mod limits;
mod reader;
mod words;

pub use bindings::{Bindings, Bound, BoundText, Item, Monitor, On, Test};
pub use fault::BindFault;
pub use files::{fetch, read_file, refused};
pub use laws::{
    bindings_have_numbers, display_names_differ, fronts_decide, known_files_may_come, the_lines,
};
pub use limits::{MAX_CONTAINERS, MAX_MONITORS, MAX_RULES, TEXT_LIMIT, limits_are_numerals};
pub use reader::{read_bindings, read_bindings_with_text};
