//! The kernel's trace text, line by line.
#![tactic(auto)]

mod field_names;
mod fields;
mod found_fields;
mod head;
mod held_word;
mod laws;
mod limits;
mod line;
mod lines;
mod parts;
mod runs;
mod seek;
mod seek_line;
mod taken;
mod trace;

pub use field_names::FieldNames;
pub use fields::{field, held_field};
pub use found_fields::FoundFields;
pub use held_word::HeldWord;
pub use laws::{
    heads_by_places, lines_move, lines_stay, refusals_stay, stamps_by_places, takes_the_trace,
    traces_ascend,
};
pub use limits::limits_are_numerals;
pub use line::{LAST_CPU, LAST_PID, Span, TraceLine, read_line};
pub use lines::Lines;
pub use runs::{WIDTH, blank_bits, first_set, same_in};
pub use taken::TakenLine;
pub use trace::{MAX_BYTES, MAX_LINES, read_trace};
