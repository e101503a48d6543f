//! What is printed of a run and of a specification: the report, with its exit status, and tables.
#![tactic(auto)]

mod automaton_table;
mod digest;
mod exit;
mod formula_table;
mod found;
mod halt;
mod instances;
mod lines;
mod names;
mod numbers;
mod reactions;
mod summary;
mod tally;

pub use automaton_table::automaton_text;
pub use digest::Digest;
pub use exit::status;
pub use formula_table::{nodes_text, put_labels};
pub use found::Found;
pub use halt::Halted;
pub use instances::display_name;
pub use lines::{RunReport, report, report_found};
pub use names::put_name;
pub use summary::Summary;
