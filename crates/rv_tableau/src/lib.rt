//! The tableau of a normal form: which labels a letter must make true, and what must hold on the rest
//! (Gerth, Peled, Vardi and Wolper, 1995). A run may end at any node, since only weak truth is asked for:
//! nothing here knows of acceptance.
#![tactic(auto)]

mod branches;
mod covers;
mod laws;
mod listing;
mod nodes;
mod pairs;
mod rows;

pub use laws::{complete_is_right, cover_is_right, table_means_rule};
pub use rows::tableau;
