//! What the lines of a trace are to the rules: events, tests, values, and what a trace tells of itself.
#![tactic(auto)]

mod asked_rules;
mod event_facts;
mod lanes;
mod late;
mod latest_stamp;
mod limits;
mod near;
mod plain_events;
mod rule_lines;
mod short_times;
mod text_facts;
mod times;
mod words;

pub use event_facts::{EventFacts, MOST_NAMES};
pub use late::{Late, Stamped};
pub use limits::limits_are_numerals;
pub use near::{FARTHEST, MOST_NEAR, Near, nearest};
pub use rule_lines::{FieldLines, MOST_FIELDS, MOST_VALUES, RuleLine, RuleLines};
pub use text_facts::{Entries, TextFacts};
pub use words::{CountedWords, LONGEST};
