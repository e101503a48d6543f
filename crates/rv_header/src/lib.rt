//! An automaton's tables as C text, in the manner of the kernel's generated headers, and the reader of that text.
#![tactic(auto)]

mod drawing;
mod members;
mod naming;
mod reading;
mod rows;
mod tables;
mod taking;

pub use naming::is_header_name;
pub use reading::{Header, headers_are_read_again, read_header};
pub use tables::write_header;
