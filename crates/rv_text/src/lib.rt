//! What every reader of the tool shares: places in a text, decimal numbers and refusals.
#![tactic(auto)]

mod bytes;
mod cursor;
mod decimals;
mod laws;
mod line;
mod lists;
mod numbers;
mod pieces;
mod refusals;
mod runs;
mod statuses;
mod unread;
mod words;

pub use bytes::find_byte;
pub use cursor::{Cursor, TextLine, line_end, next_number, past_line_end};
pub use decimals::decimal;
pub use laws::numbers_are_numerals;
pub use line::Line;
pub use lists::push_some;
pub use numbers::{
    BIND_SYNTAX, CONTROL_SYNTAX, CYCLE, DEFINED_TWICE, DOT_SYNTAX, HEADER_SYNTAX, INVALID,
    LOST_EVENTS, LTL_SYNTAX, NAME_TWICE, NO_HEADER, NO_INITIAL, NO_INSTANCE, NO_PID, NO_RULE,
    NO_SUCH_FILE, NOT_DETERMINISTIC, NOT_NUMBERED, TOO_BIG, TOO_LONG, TOO_MANY_ATOMS,
    TOO_MANY_CPUS, TOO_MANY_DELIVERIES, TOO_MANY_EVENTS, TOO_MANY_MONITORS, TOO_MANY_NODES,
    TOO_MANY_PARTS, TOO_MANY_RULES, TOO_MANY_STATES, TOO_MANY_TASKS, TOO_WIDE, TRACE_SYNTAX,
    TWO_INITIALS, UNDECLARED_STATE, UNKNOWN_ATOM, UNKNOWN_EVENT, USAGE,
};
pub use pieces::Pieces;
pub use refusals::{Refusal, Refused};
pub use runs::{ByteClass, run_end};
pub use statuses::{CLEAN, FAILURE, NO_MEMORY, REFUSED, STOPPED_SOME, UNREAD, UNWRITTEN};
pub use unread::Unread;
pub use words::Words;
