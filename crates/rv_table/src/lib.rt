//! Tables: from a set of rows, and a letter, to the set of the rows that follow.
#![tactic(auto)]

mod bits;
mod filtering;
mod label;
mod node;
mod nodes;
mod row;
mod steps;
mod table;

pub use node::Node;
pub use table::Table;
