//! The packed word of an instance: a set of table rows in the high half, levels in the low half.
//! No other crate looks at its bits.
#![tactic(auto)]

mod word;

pub use word::{STOPPED, WAITING, atoms_of, pack, set_of};
