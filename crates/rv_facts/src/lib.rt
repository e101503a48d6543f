//! The numbers of a run, and the facts that are told of them (docs/COVERAGE.md).
#![tactic(auto)]

mod counts;
mod facts;
mod lines;
mod monitor_facts;
mod orders;
mod pieces;
mod rule_facts;

pub use counts::{
    Counted, Counts, Entries, FieldCounts, Halt, Late, MonitorCounts, Near, Returns, RuleCounts,
    Stamped, TraceCounts,
};
pub use facts::put_facts;
pub use lines::{Begun, BindingLines, Named, binding_lines};
pub use monitor_facts::{Share, put_edge_names};
pub use pieces::{line_at, number_at, put_brackets, put_number, put_word};
pub use rule_facts::put_test_text;
