//! The text of coverage: facts, the findings, which are the zeros among their numbers, and how much was reached.
#![tactic(auto)]

mod coverage;
mod finding;
mod findings;
mod laws;
mod monitor_findings;
mod rule_findings;
mod spec_findings;
mod trace_findings;
mod whole;

pub use coverage::{CoverageReport, Told, coverage_text};
pub use laws::{all_is_watched, findings_are_zeros};
